// The row of a weight at an index, in dictionary order: job by job, passing over the rows that begin with lesser ones.
#![tactic(auto)]

pub mod row;

ghost use Rattle.std.specs.Prelude.{◌↔◌, ◌+◌, ◌≤◌, ◌<◌, IsNone, IfSome, length};
ghost use Rattle.catalogue.specs.Catalogue.{rows_of};
ghost use Rattle.row_counts.specs.Counts.{total, Counts};
ghost use Rattle.nth_row.specs.Rows.{Chosen, IsRow};

use crate::row::Row;
use row_counts::followers;

// The first job of a row, and the index of what follows it among the rows that can.
#[derive(Clone, Copy)]
struct Choice {
    job: usize,
    index: u64,
}

// The first job of the row of the weight `whole` at an index.
fn choose(weights: &[usize], counts: &[u64; 13], whole: usize, index: u64) -> Choice
    requires small { whole ≤ 12 }
    requires inside { index < total counts.now whole weights.now }
    ensures { Chosen counts.now whole weights.now index result }
{
    let mut left = index;
    for (job, &weight) in weights.iter().enumerate() {
        let passed = followers(counts, whole, weight);
        if left < passed {
            return Choice { job, index: left };
        }
        left -= passed;
    }
    unreachable!()
}

// The row of a weight at an index.
pub fn nth_row(weights: &[usize], counts: &[u64; 13], weight: usize, index: u64) -> Row
    requires few { (length weights.now ≤ 24) × (weight ≤ 12) }
    requires counted { Counts weights.now (weight + 1) counts.now }
    requires inside { index < length (rows_of weights.now weight) }
    ensures { IsRow (rows_of weights.now weight) index result }
{
    let mut jobs = [0; 12];
    let mut len = 0;
    let mut left = weight;
    let mut k = index;
    // each job takes its own weight off what is left
    while 0 < left {
        let choice = choose(weights, counts, left, k);
        jobs[len] = choice.job as u8;
        len += 1;
        left -= weights[choice.job];
        k = choice.index;
    }
    Row { jobs, len }
}

// The row of a weight at an index, if there are so many.
pub fn find_row(weights: &[usize], counts: &[u64; 13], weight: usize, index: u64) -> Option<Row>
    requires few { (length weights.now ≤ 24) × (weight ≤ 12) }
    requires counted { Counts weights.now (weight + 1) counts.now }
    ensures none { IsNone result ↔ (length (rows_of weights.now weight) ≤ index) }
    ensures row { IfSome result (IsRow (rows_of weights.now weight) index) }
{
    if counts[weight] <= index {
        return None;
    }
    Some(nth_row(weights, counts, weight, index))
}
