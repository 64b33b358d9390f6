// The new row of a job: an earlier job that is prime in the new rows and fits with its tail, or the job alone.
#![tactic(auto)]

ghost use Rattle.std.specs.Prelude.{◌≡◌, length, get_or};
ghost use Rattle.rows.specs.Rows.{rows_of};
ghost use Rattle.facts.specs.Columns.{order_in};
ghost use Rattle.decomposing.specs.Decomposing.{Decomposable, RowWritten};

use answering::fits;
use candidates::{likely, lowered_row, pair_of};
use facts::Facts;
use fingerprints::Prints;
use rows::Rows;
use std::ops::Range;
use tails::Cut;

// Writes the new row of the job at a place of the order, and gives where it stands. Earlier jobs are tried from the last to the first, so that
// the norms by which the lowered row is cut fall. A job is tried in the place before its tail, so that nothing is copied.
pub fn new_row(
    facts: &Facts,
    prints: &Prints,
    old: &Rows,
    new: &Rows,
    place: usize,
    out: &mut [u8],
) -> Range<usize>
    requires decomposable { Decomposable facts.now prints.now old.now new.now place }
    requires out_len { length out.old ≡ 512 }
    ensures { RowWritten facts.now (rows_of old.now) (rows_of new.now) (get_or (order_in facts.now) place 0) out.new result.start result.end }
{
    let y = facts.job_at(place);
    let end = lowered_row(facts, new, y, out);
    let mut cut = Cut {
        at: end - 1,
        norm: facts.norm(y) - 1,
    };
    for earlier in (0..place).rev() {
        let x = facts.job_at(earlier);
        if !likely(facts, old, new, y, x) {
            continue;
        }
        let goal = facts.norm(x) - 1;
        cut.move_back(facts, &out[1..end], goal);
        if cut.norm != goal {
            continue;
        }
        let at = cut.at;
        let kept = out[at];
        out[at] = facts.order[earlier];
        let pair = pair_of(facts, prints, old, &out[at..end], y, x);
        if fits(facts, prints, old, new, &out[at..end], &pair) {
            return at..end;
        }
        out[at] = kept;
    }
    out[0] = facts.order[place];
    0..1
}
