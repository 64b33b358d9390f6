// How many rows of jobs there are of each weight, by those of lesser weights.
#![tactic(auto)]

ghost use Rattle.std.specs.Prelude.{◌≡◌, ◌+◌, ◌≤◌, length};
ghost use Rattle.row_counts.specs.Counts.{follow_count, Small, Counts};
ghost use Rattle.row_counts.specs.Counts as counted;

// How many rows can follow a job in a row of the weight `whole`.
pub fn followers(counts: &[u64; 13], whole: usize, weight: usize) -> u64
    requires { whole ≤ 12 }
    ensures { result ≡ follow_count counts.now whole weight }
{
    if weight == 0 || whole < weight {
        return 0;
    }
    counts[whole - weight]
}

// How many rows have the weight `whole`: those that begin with each of the jobs.
fn total(weights: &[usize], counts: &[u64; 13], whole: usize) -> u64
    requires few { (length weights.now ≤ 24) × (whole ≤ 12) }
    requires small { Small whole counts.now }
    ensures { result ≡ counted.total counts.now whole weights.now }
{
    let mut sum = 0;
    for &weight in weights {
        sum += followers(counts, whole, weight);
    }
    sum
}

// The numbers of rows of each weight up to `most`.
pub fn counts(weights: &[usize], most: usize) -> [u64; 13]
    requires { (length weights.now ≤ 24) × (most ≤ 12) }
    ensures { Counts weights.now (most + 1) result }
{
    let mut counts = [0; 13];
    counts[0] = 1;
    for whole in 1..most + 1 {
        counts[whole] = total(weights, &counts, whole);
    }
    counts
}
