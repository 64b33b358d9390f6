// A table that a call holds: accepted rules and the exact norms of its jobs.
ghost use Rattle.std.specs.Prelude.{◌≡◌, ℕ, ◌≤◌, ◌<◌, get_or, take};
ghost use Rattle.rules.specs.Places.{table_of};
ghost use Rattle.rules.specs.Lists.{GoodList};
ghost use Rattle.norm.specs.NormArrays.{ExactNorms};

use norm::Normed;

// Its rules stand in the first `end` bytes of an array: no memory is allocated.
#[derive(Drop)]
pub struct HeldTable {
    pub jobs: usize,
    pub end: usize,
    pub rules: [u8; 2016],
    pub norms: [u16; 24],
    ghost inside: { end ≤ 2016 },
    ghost list: { GoodList jobs (take end rules) },
    ghost exact: { ExactNorms (table_of jobs (take end rules)) norms },
    ghost finite: { (j : ℕ) → j < jobs → 0 < get_or norms j 0 },
}

impl HeldTable {
    // The table as what is asked of plans sees it.
    pub fn normed(&self) -> Normed<'_>
        ensures jobs { result.jobs ≡ self.now.jobs }
        ensures rules { result.rules.now ≡ take self.now.end self.now.rules }
        ensures norms { result.norms.now ≡ self.now.norms }
    {
        Normed {
            jobs: self.jobs,
            rules: &self.rules[..self.end],
            norms: &self.norms,
        }
    }
}
