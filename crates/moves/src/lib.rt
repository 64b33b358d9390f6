// The rule of a job by which the n-th move goes that a plan shows.
#![tactic(auto)]

ghost use Rattle.std.specs.Prelude.{◌<◌, IsNone, IfSome};
ghost use Rattle.rules.specs.Places.{rule_count};
ghost use Rattle.rules.specs.Lists.{GoodList};
ghost use Rattle.moves.specs.Moves.{IsNth};

use rules::Rules;

// The place of a job's rule by its index among those that no earlier one is equal to.
pub fn find_rule(rules: &Rules, job: usize, index: u32) -> Option<usize>
    ensures there { IfSome result (λ i. i < rule_count rules.now.bytes.now) }
    ensures found { IfSome result (IsNth rules.now.bytes.now job index) }
    ensures none { IsNone result → IsNth rules.now.bytes.now job index (rule_count rules.now.bytes.now) }
{
    find_in(rules.jobs, rules.bytes, job, index)
}

// The same for a list whose bytes are given by themselves: only of a slice that is a parameter is it known here that its bytes are below 256.
// The rules passed are kept in buckets as `repeated` keeps them.
fn find_in(jobs: usize, bytes: &[u8], job: usize, index: u32) -> Option<usize>
    requires { GoodList jobs bytes.now }
    ensures there { IfSome result (λ i. i < rule_count bytes.now) }
    ensures found { IfSome result (IsNth bytes.now job index) }
    ensures none { IsNone result → IsNth bytes.now job index (rule_count bytes.now) }
{
    let rules = Rules {
        jobs: jobs,
        bytes: bytes,
    };
    let mut left = index;
    let mut links = [255u8; 252];
    let mut last = [255u8; 64];
    for at in 0..rules.count() {
        if rules.job(at) != job {
            continue;
        }
        let b = repeated::bucket(rules.place(at));
        if repeated::stands(bytes, &links, usize::from(last[b]), at) {
            continue;
        }
        if left == 0 {
            return Some(at);
        }
        left -= 1;
        links[at] = last[b];
        last[b] = at as u8;
    }
    None
}
