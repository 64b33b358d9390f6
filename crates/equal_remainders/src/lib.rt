// Whether what two rules leave is equal by rows: by the new ones if the norm falls, else by the old ones.
#![tactic(auto)]

ghost use Rattle.std.specs.Prelude.{ℕ, ◌<◌, ◌↔◌, IsTrue, drop};
ghost use Rattle.std.proofs.Math.Seq.{slice};
ghost use Rattle.rules.specs.Places.{rule_count};
ghost use Rattle.rows.specs.Rows.{rows_of};
ghost use Rattle.remainders.specs.Remainders.{EqualNorms};
ghost use Rattle.equal_remainders.specs.EqualRemainders.{BothRows, LeftEqual, rows_for, rest_for};

use form::equal_forms;
use rows::Rows;
use rule_filter::Pair;
use rules::Rules;

// Whether what rule r of Y and rule s of X leave is equal, the tail standing behind X: by the new rows if the norm falls, else by the old ones.
// It is written out for that, so it is asked of equal norms only.
pub fn left_equal(
    rules: &Rules,
    old: &Rows,
    new: &Rows,
    parts: &[u8],
    pair: &Pair,
    falls: bool,
    r: usize,
    s: usize,
) -> bool
    requires both_rows { BothRows rules.now.jobs old.now new.now parts.now pair.now }
    requires equal_norms { (jobs : ℕ) × EqualNorms jobs rules.now.bytes.now (drop 1 parts.now) r s }
    requires are_rules { (r < rule_count rules.now.bytes.now) × (s < rule_count rules.now.bytes.now) }
    ensures { IsTrue result ↔ LeftEqual (rows_for falls (rows_of old.now) (rows_of new.now)) rules.now.bytes.now (rest_for falls (slice pair.now.from pair.now.to old.now.bytes.now) (drop 1 parts.now)) r s }
{
    let left = rules.after(r);
    let right = rules.after(s);
    if falls {
        equal_forms(new, left, right, &parts[1..])
    } else {
        equal_forms(old, left, right, &old.bytes[pair.from..pair.to])
    }
}
