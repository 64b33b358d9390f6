// The norms of the jobs of a table.
#![tactic(auto)]

ghost use Rattle.std.specs.Prelude.{◌≡◌, true, ℕ, ◌≤◌, ◌<◌, min, length, get_or};
ghost use Rattle.bpa.specs.Plans.{all_below};
ghost use Rattle.bpa.specs.Norms.{sum_of, lesser};
ghost use Rattle.rules.specs.Places.{table_of};
ghost use Rattle.rules.specs.Lists.{GoodList};
ghost use Rattle.norm.specs.NormArrays.{IsNorm, norm_by, IsRound, NormArray, ExactNorms};

use rules::Rules;

// A table that refusals 2 to 7 have passed, lent: its rules, and the exact norms of its jobs.
#[derive(Clone, Copy)]
pub struct Normed<'a> {
    pub jobs: usize,
    pub rules: &'a [u8],
    pub norms: &'a [u16; 24],
    ghost list: { GoodList jobs rules.now },
    ghost exact: { ExactNorms (table_of jobs rules.now) norms.now },
    ghost finite: { (j : ℕ) → j < jobs → 0 < get_or norms.now j 0 },
}

impl<'a> Normed<'a> {
    // The table without its norms.
    pub fn list(&self) -> Rules<'a>
        ensures { (result.jobs ≡ self.now.jobs) × (result.bytes.now ≡ self.now.rules.now) }
    {
        Rules {
            jobs: self.jobs,
            bytes: self.rules,
        }
    }
}

// A norm above 512 stands as this number.
const MOST: u32 = 513;

// The lesser of two norms, of which 0 is none. In an array of numbers that C's callers never see, 0 takes no room of its own.
#[tactic(auto, using(crate::proofs::Lesser::lesser_known))]
fn lesser_of(a: u16, b: u16) -> u16
    ensures { result ≡ lesser a b }
{
    match (a, b) {
        (0, norm) => norm,
        (norm, 0) => norm,
        _ => a.min(b),
    }
}

// The sum of the numbers of a plan's jobs, if they are so few that no test is needed in the loop: a test at each job costs as much as the sum.
fn short_sum(numbers: &[u16; 24], plan: &[u8]) -> u32
    requires plan_value { all_below 24 plan.now ≡ true }
    requires plan_len_bound { length plan.now ≤ 4096 }
    ensures { result ≡ sum_of numbers.now plan.now }
{
    let mut sum: u32 = 0;
    for &job in plan {
        sum += u32::from(numbers[usize::from(job)]);
    }
    sum
}

// The same for any number of jobs, counted up to 4,097, where it ends.
fn long_sum(numbers: &[u16; 24], plan: &[u8]) -> u32
    requires { all_below 24 plan.now ≡ true }
    ensures { result ≡ min 4097 (sum_of numbers.now plan.now) }
{
    let mut sum: u32 = 0;
    for &job in plan {
        sum += u32::from(numbers[usize::from(job)]);
        let over = 4096 < sum;
        if over {
            return 4097;
        }
    }
    sum
}

// The sum of the numbers of a plan's jobs, counted up to 4,097. By the norms of jobs it is the plan's norm.
pub fn capped_sum(numbers: &[u16; 24], plan: &[u8]) -> u32
    requires { all_below 24 plan.now ≡ true }
    ensures { result ≡ min 4097 (sum_of numbers.now plan.now) }
{
    if 4096 < plan.len() {
        return long_sum(numbers, plan);
    }
    short_sum(numbers, plan).min(4097)
}

// A job's norm by way of a rule with these jobs after it; 0 is none yet.
fn rule_norm(norms: &[u16; 24], after: &[u8]) -> u16
    requires after_value { all_below 24 after.now ≡ true }
    requires after_len_bound { length after.now ≤ 4 }
    ensures { result ≡ min 513 (norm_by norms.now after.now) }
{
    let mut sum: u32 = 1;
    for &job in after {
        let n = u32::from(norms[usize::from(job)]);
        if n == 0 {
            return 0;
        }
        sum += n;
    }
    sum.min(MOST) as u16
}

// One round: each job's least norm by way of its rules.
fn round(rules: &Rules, old: &[u16; 24]) -> [u16; 24]
    ensures { IsRound (table_of rules.now.jobs rules.now.bytes.now) old.now result }
{
    let mut new = [0u16; 24];
    for i in 0..rules.count() {
        let job = rules.job(i);
        new[job] = lesser_of(new[job], rule_norm(old, rules.after(i)));
    }
    new
}

// The norms by rounds, until one changes nothing.
pub fn norms_of(rules: &Rules) -> [u16; 24]
    ensures { NormArray (table_of rules.now.jobs rules.now.bytes.now) result }
{
    let mut known = [0u16; 24];
    for _ in 0..rules.jobs {
        let next = round(rules, &known);
        if known == next {
            return known;
        }
        known = next;
    }
    known
}
