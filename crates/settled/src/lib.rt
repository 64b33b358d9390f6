// Jobs whose new row is their old row, without another look: those that are prime already, and those that keep what they were
// decomposed by, none of the jobs in the rules of either having another row than the round before.
#![tactic(auto)]

ghost use Rattle.std.specs.Prelude.{ℕ, ◌<◌, IsTrue, length, get_or};
ghost use Rattle.rows.specs.Rows.{rows_of};
ghost use Rattle.facts.specs.Columns.{bytes_in};
ghost use Rattle.settled.specs.SettledJobs.{Unmoved, Untouched, Settling, Settles};

use facts::Facts;
use rows::Rows;

// Whether no job of a row has moved.
fn is_unmoved(row: &[u8], moved: &[bool; 24]) -> bool
    requires { (i : ℕ) → i < length row.now → get_or row.now i 0 < 24 }
    ensures { IsTrue result → Unmoved moved.now row.now }
{
    for &job in row {
        if moved[usize::from(job)] {
            return false;
        }
    }
    true
}

// Whether no job after a rule of a job has moved. The job's rules are a chain.
fn is_untouched(facts: &Facts, moved: &[bool; 24], job: usize) -> bool
    requires { job < 24 }
    ensures { IsTrue result → Untouched (bytes_in facts.now) moved.now job }
{
    let rules = facts.table.list();
    let mut k = facts.first_rule(job);
    // along the chain of its rules, which no range goes over
    while k < rules.count() {
        if !is_unmoved(rules.after(k), moved) {
            return false;
        }
        k = usize::from(facts.next[k]);
    }
    true
}

// Whether the new row of a job is its old one. `moved` says of each job whether its row is new in this round or was in the last.
pub fn is_settled(facts: &Facts, old: &Rows, moved: &[bool; 24], y: usize) -> bool
    requires { Settling facts.now old.now moved.now y }
    ensures { Settles facts.now (rows_of old.now) moved.now y result }
{
    if old.is_alone(y) {
        return true;
    }
    if moved[y] {
        return false;
    }
    let x = usize::from(old.bytes[512 * y]);
    is_untouched(facts, moved, y) && is_untouched(facts, moved, x)
}
