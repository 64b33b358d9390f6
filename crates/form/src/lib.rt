// Plans compared as the rows of their jobs write them out. By prime rows these are prime forms.
#![tactic(auto)]

ghost use Rattle.std.specs.Prelude.{◌≡◌, ◌++◌, ◌↔◌, IsTrue};
ghost use Rattle.bpa.specs.Method.{expand};
ghost use Rattle.rows.specs.Region.{row, Comparable};
ghost use Rattle.rows.specs.Rows.{rows_of};
ghost use Rattle.form.specs.Written.{Tells};

use rows::{Difference, Rows};

// Whether two plans, a row behind the right one as it stands, are the same as their rows write them out.
pub fn equal_forms(rows: &Rows, p: &[u8], q: &[u8], rest: &[u8]) -> bool
    requires { Comparable rows.now.lens.now rows.now.bytes.now p.now q.now }
    ensures { IsTrue result ↔ (expand (rows_of rows.now) p.now ≡ expand (rows_of rows.now) q.now ++ rest.now) }
{
    matches!(
        differences::first_difference(rows, p, q, rest),
        Difference::Equal
    )
}
