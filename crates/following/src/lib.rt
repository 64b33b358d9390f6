// A plan followed through a log, by what each of its jobs reaches: the cell of a job with so many moves left is 129 times the job plus the moves.
// One set of numbers goes along the plan, so that each job is followed from all places at once.
#![tactic(auto)]

ghost use Rattle.std.specs.Prelude.{◌≡◌, true, ◌+◌, ◌≤◌, ◌<◌, length};
ghost use Rattle.bpa.specs.Plans.{all_below};
ghost use Rattle.following.specs.Followed.{WordMore, JobMore, Follows};

use reach::{CELLS, Cells, Reach, joined, reach_at, through};

// What a job reaches from those of 64 numbers of moves left that are the bits of a word, joined to what is there already. The loop walks the bits.
fn onward_word(cells: &Cells, first: usize, word: u64, start: Reach) -> Reach
    requires { first + 64 ≤ CELLS }
    ensures { WordMore cells.now first word start result }
{
    let mut reach = start;
    let mut bits = word;
    let mut cell = first;
    while 0 < bits {
        let skip = bits.trailing_zeros();
        cell += skip as usize;
        reach = joined(reach, reach_at(cells, cell));
        cell += 1;
        bits = (bits >> skip) / 2;
    }
    reach
}

// What a plan reaches with one job more behind it.
fn onward(cells: &Cells, job: usize, reach: Reach) -> Reach
    requires { job < 24 }
    ensures { JobMore cells.now job reach result }
{
    let first = 129 * job;
    let none = Reach {
        low: 0,
        high: 0,
        least: reach.least,
    };
    let half = onward_word(cells, first, reach.low, none);
    onward_word(cells, first + 64, reach.high, half)
}

// What a plan with a job reaches, with so many moves left. It need not be followed to its end once there is no place where it can go on: each
// job makes a move.
pub fn follow(cells: &Cells, plan: &[u8], left: usize) -> Reach
    requires jobs { all_below 24 plan.now ≡ true }
    requires some { 0 < length plan.now }
    requires moves { left ≤ 128 }
    ensures { Follows cells.now plan.now left result }
{
    let mut reach = reach_at(cells, 129 * usize::from(plan[0]) + left);
    for &job in &plan[1..] {
        if (reach.low | reach.high) == 0 {
            return reach;
        }
        reach = onward(cells, usize::from(job), reach);
    }
    reach
}

// The same of a plan that may have no job, with fewer than 128 moves left.
pub fn follow_row(cells: &Cells, row: &[u8], left: usize) -> Reach
    requires jobs { all_below 24 row.now ≡ true }
    requires moves { left < 128 }
    ensures { Follows cells.now row.now left result }
{
    if row.is_empty() {
        return through(left);
    }
    follow(cells, row, left)
}
