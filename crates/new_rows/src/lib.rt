// The new rows of all jobs, by which the old rows are refined.
#![tactic(auto)]

ghost use Rattle.rows.specs.Region.{row};
ghost use Rattle.rows.specs.Rows.{rows_of};
ghost use Rattle.facts.specs.Columns.{jobs_in};
ghost use Rattle.fingerprints.specs.Fingerprints.{KnownPrints};
ghost use Rattle.new_rows.specs.NewRows.{RowsReady, NewRows};

use decomposing::new_row;
use facts::Facts;
use fingerprints::{Prints, all_prints};
use rows::Rows;
use settled::is_settled;

// What is known of the new rows beside their bytes: their lengths, which jobs have moved, those whose row is new since the round before,
// and the fingerprints of the others.
#[derive(Drop)]
pub struct Round {
    pub lens: [u16; 24],
    pub moved: [bool; 24],
    pub prints: Prints,
}

// The new rows of all jobs, in order. Jobs that are settled keep their rows.
pub fn new_rows(facts: &Facts, many: &[bool; 24], old: &Rows, bytes: &mut [u8], round: &mut Round)
    requires rows_ready { RowsReady facts.now old.now.lens.now old.now.bytes.now round.old.lens round.old.moved bytes.old }
    requires known_prints { KnownPrints (jobs_in facts.now) (rows_of old.now) round.old.moved round.old.prints }
    ensures rows { NewRows facts.now old.now.lens.now old.now.bytes.now round.new.lens round.new.moved bytes.new }
    ensures known_prints { KnownPrints (jobs_in facts.now) (row round.new.lens bytes.new) round.new.moved round.new.prints }
{
    all_prints(facts, many, old, &round.moved, &mut round.prints);
    let mut stale = round.moved;
    round.moved = [false; 24];
    let mut out = [0; 512];
    for place in 0..facts.table.jobs {
        let y = facts.job_at(place);
        if is_settled(facts, old, &stale, y) {
            continue;
        }
        let new = Rows {
            bytes: &*bytes,
            lens: &round.lens,
        };
        let part = new_row(facts, &round.prints, old, &new, place, &mut out);
        let row = &out[part];
        if row == old.row(y) {
            continue;
        }
        area::put(bytes, 512 * y, row);
        round.lens[y] = row.len() as u16;
        stale[y] = true;
        round.moved[y] = true;
    }
}
