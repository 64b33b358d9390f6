// The leftmost difference of two plans that are written out by their rows.
#![tactic(auto)]

ghost use Rattle.std.specs.Prelude.{◌≡◌, ◌++◌, ◌≤◌, ◌<◌, ◌↔◌, IsTrue, length, get_or};
ghost use Rattle.bpa.specs.Method.{first_difference, expand};
ghost use Rattle.rows.specs.Region.{Comparable};
ghost use Rattle.rows.specs.Rows.{rows_of};
ghost use Rattle.rows.specs.Answers.{meaning, Leaps};
ghost use Rattle.differences.specs.Sides.{Passes, side, RightEnds};

use rows::{Difference, Rows};

// Whether the right side begins a job here, and it is the one that the left side begins: its row needs no look.
fn passes(begins: bool, plan: &[u8], at: usize, job: u8) -> bool
    ensures { Passes begins plan.now at job result }
{
    begins && at < plan.len() && plan[at] == job
}

// How many places two rows that were just entered may be passed over at once: up to the nearer end, if these are many and equal.
fn leap(
    entered: bool,
    left: &[u8],
    k: usize,
    stop: usize,
    right: &[u8],
    at: usize,
    end: usize,
) -> usize
    requires { (k ≤ stop) × (stop ≤ length left.now) × (at ≤ end) × (end ≤ length right.now) }
    ensures { Leaps left.now k stop right.now at end result }
{
    let n = (stop - k).min(end - at);
    if entered && 16 <= n && left[k..k + n] == right[at..at + n] {
        return n;
    }
    0
}

// Where the right side is read: in the rows, or in what stands behind them.
#[tactic(auto, unfolding(crate::specs::Sides::side))]
fn right_side<'a>(behind: bool, rows: &'a [u8], rest: &'a [u8]) -> &'a [u8]
    ensures { result.now ≡ side behind rows.now rest.now }
{
    if behind { rest } else { rows }
}

// Whether the right side has come to its end: no place of the row that it is in, no further row, nothing behind them.
fn right_ends(behind: bool, q: &[u8], rest: &[u8], t: usize, at: usize, end: usize) -> bool
    ensures { IsTrue result ↔ RightEnds behind q.now rest.now t at end }
{
    end <= at && q.len() <= t && (behind || rest.is_empty())
}

// Two plans with each job expanded to its row, and a row behind the right one that is taken as it stands. The rows are never empty, so
// entering the next right row is one test. The loops over the left plan and over a row's places stand as they are, left by a label where two
// jobs differ: that is the form of this comparison.
pub fn first_difference(rows: &Rows, p: &[u8], q: &[u8], rest: &[u8]) -> Difference
    requires { Comparable rows.now.lens.now rows.now.bytes.now p.now q.now }
    ensures { meaning result ≡ first_difference (expand (rows_of rows.now) p.now) (expand (rows_of rows.now) q.now ++ rest.now) }
{
    let mut i: usize = 0;
    let mut t: usize = 0;
    let mut at: usize = 0;
    let mut end: usize = 0;
    let mut behind = false;
    'places: loop {
        if i == p.len() {
            if right_ends(behind, q, rest, t, at, end) {
                break 'places Difference::Equal;
            }
            break 'places Difference::Ends;
        }
        let next = p[i];
        i += 1;
        if passes(at == end, q, t, next) {
            t += 1;
            continue 'places;
        }
        let job = usize::from(next);
        let mut k = 512 * job;
        let stop = k + rows.len_of(job);
        let mut entered = true;
        while k < stop {
            if at == end {
                entered = true;
                if t == q.len() {
                    if behind {
                        break 'places Difference::Ends;
                    }
                    behind = true;
                    at = 0;
                    end = rest.len();
                    continue;
                }
                let other = usize::from(q[t]);
                t += 1;
                at = 512 * other;
                end = at + rows.len_of(other);
                continue;
            }
            let right = right_side(behind, rows.bytes, rest);
            let n = leap(entered, rows.bytes, k, stop, right, at, end);
            if 0 < n {
                k += n;
                at += n;
                continue;
            }
            entered = false;
            let x = rows.bytes[k];
            let y = right[at];
            if x != y {
                break 'places Difference::Differ(x, y);
            }
            k += 1;
            at += 1;
        }
    }
}
