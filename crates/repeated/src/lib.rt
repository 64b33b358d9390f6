// Rules that are written twice. Whatever a rule does, an earlier one that is equal to it does too, so the rounds need not look at it, and its
// move is shown already.
#![tactic(auto)]

ghost use Rattle.std.specs.Prelude.{◌≡◌, ◌≤◌, ◌<◌, length};
ghost use Rattle.rules.specs.Places.{rule_count};
ghost use Rattle.repeated.specs.Repeated.{RepeatsMarked, MarksRepeats, place_at, IsBucket, Stands};

use rules::rule_total;

// The eight bytes of a rule.
#[tactic(auto, unfolding(rules::specs::Places::rule_count))]
pub fn place(rules: &[u8], i: usize) -> &[u8]
    requires { i < rule_count rules.now }
    ensures { result.now ≡ place_at rules.now i }
{
    &rules[8 * i..][..8]
}

// A number below 64 for the bytes of a rule. Equal rules have equal ones, and few others do.
#[tactic(auto, unfolding(crate::specs::Repeated::bucket_of))]
pub fn bucket(place: &[u8]) -> usize
    requires { length place.now ≡ 8 }
    ensures { IsBucket place.now result }
{
    let move_bytes = usize::from(place[1]) + usize::from(place[7]);
    let head = usize::from(place[0]) + 5 * move_bytes + 7 * usize::from(place[2]);
    let front = 11 * usize::from(place[3]) + 23 * usize::from(place[4]);
    let back = 37 * usize::from(place[5]) + 47 * usize::from(place[6]);
    (head + front + back) % 64
}

// Whether a rule is equal to an earlier one of its bucket, whose last rule is given. From each rule a link leads back to the one before it
// in its bucket; 255 ends them.
pub fn stands(rules: &[u8], links: &[u8; 252], last: usize, i: usize) -> bool
    requires { (i < rule_count rules.now) × (rule_count rules.now ≤ 252) }
    ensures { Stands rules.now links.now last i result }
{
    let mut k = last;
    // back along the links of the bucket
    while k < i {
        if place(rules, k) == place(rules, i) {
            return true;
        }
        let before = usize::from(links[k]);
        if k <= before {
            return false;
        }
        k = before;
    }
    false
}

// Marks for the rules that an earlier one is equal to.
pub fn repeats(rules: &[u8]) -> [bool; 252]
    requires { rule_count rules.now ≤ 252 }
    ensures { MarksRepeats rules.now result }
{
    let mut marks = [false; 252];
    let mut links = [255u8; 252];
    let mut last = [255u8; 64];
    for at in 0..rule_total(rules) {
        let b = bucket(place(rules, at));
        if stands(rules, &links, usize::from(last[b]), at) {
            marks[at] = true;
        } else {
            links[at] = last[b];
            last[b] = at as u8;
        }
    }
    marks
}
