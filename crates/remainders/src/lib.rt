// Remainders: what a rule leaves, with the jobs that wait behind it. Their norms are looked up.
#![tactic(auto)]

ghost use Rattle.std.specs.Prelude.{List, ℕ, ◌<◌};
ghost use Rattle.rules.specs.Places.{rule_count};
ghost use Rattle.remainders.specs.Remainders.{LooksUp, LookedUp};

// The norm of what rule r leaves with jobs waiting behind it: the number of its row, made before the rounds, and the norm of those jobs.
pub fn remainder_norm(sums: &[u16; 252], r: usize, behind: u64) -> u64
    requires { (jobs : ℕ) × ((rs : List ℕ) × ((waiting : List ℕ) × (LooksUp jobs rs sums.now waiting behind × (r < rule_count rs)))) }
    ensures { LookedUp sums.now behind r result }
{
    u64::from(sums[r]) + behind
}
