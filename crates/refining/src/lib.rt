// Decompositions, refined in rounds until no prime is new. The area has two halves of 24 rows of 512 bytes: the old rows and the new ones.
#![tactic(auto)]

ghost use Rattle.std.specs.Prelude.{◌≡◌, ◌≤◌, ◌<◌, length};
ghost use Rattle.rows.specs.Region.{row};
ghost use Rattle.rows.specs.Rows.{rows_of};
ghost use Rattle.facts.specs.Columns.{jobs_in};
ghost use Rattle.fingerprints.specs.Fingerprints.{KnownPrints};
ghost use Rattle.new_rows.specs.NewRows.{RowsReady};
ghost use Rattle.refining.specs.Rounds.{PrimesFound, Rounded, FinalIn};

use facts::Facts;
use fingerprints::Prints;
use halves::{first_rows, keep};
use new_rows::{Round, new_rows};
use rows::Rows;

// A job with so many different rules has many.
const MANY: usize = 12;

// Whether some job is prime in the new rows and not in the old ones.
fn new_prime(jobs: usize, old: &Rows, new: &Rows) -> bool
    requires { jobs ≤ 24 }
    ensures { PrimesFound jobs (rows_of old.now) (rows_of new.now) result }
{
    for job in 0..jobs {
        if new.is_alone(job) && !old.is_alone(job) {
            return true;
        }
    }
    false
}

// One round: new rows from the old ones. It says whether a prime is new.
fn refine_once(
    facts: &Facts,
    many: &[bool; 24],
    old: &Rows,
    bytes: &mut [u8],
    round: &mut Round,
) -> bool
    requires rows_ready { RowsReady facts.now old.now.lens.now old.now.bytes.now round.old.lens round.old.moved bytes.old }
    requires known_prints { KnownPrints (jobs_in facts.now) (rows_of old.now) round.old.moved round.old.prints }
    ensures rounded { Rounded facts.now old.now.lens.now old.now.bytes.now round.new.lens round.new.moved bytes.new result }
    ensures known_prints { KnownPrints (jobs_in facts.now) (row round.new.lens bytes.new) round.new.moved round.new.prints }
{
    new_rows(facts, many, old, bytes, round);
    let new = Rows {
        bytes: &*bytes,
        lens: &round.lens,
    };
    new_prime(facts.table.jobs, old, &new)
}

// Whether a job has many different rules.
fn has_many_rules(facts: &Facts, job: usize) -> bool
    requires { job < 24 }
{
    let total = facts.table.list().count();
    let mut k = facts.first_rule(job);
    for _ in 0..MANY {
        if total <= k {
            return false;
        }
        k = usize::from(facts.next[k]);
    }
    true
}

// A mark for each job with so many rules that fingerprints of what they leave are worth their making. No answer depends on it.
fn many_rules(facts: &Facts) -> [bool; 24] {
    let mut many = [false; 24];
    for job in 0..facts.table.jobs {
        many[job] = has_many_rules(facts, job);
    }
    many
}

// The rows that the rounds end with, in the first half of the area: jobs as rows of primes. It gives their lengths.
pub fn refine(facts: &Facts, area: &mut [u8]) -> [u16; 24]
    requires { length area.old ≡ 24576 }
    ensures { FinalIn facts.now result area.new }
{
    let many = many_rules(facts);
    let (old, new) = area.split_at_mut(12288);
    let mut round = Round {
        lens: first_rows(facts, new),
        moved: [true; 24],
        prints: Prints {
            values: [0; 24],
            powers: [0; 24],
            rules: [0; 252],
        },
    };
    'rounds: loop {
        let lens = round.lens;
        let rows = Rows {
            bytes: &*new,
            lens: &lens,
        };
        keep(facts.table.jobs, &rows, &round.moved, old);
        let rows = Rows {
            bytes: &*old,
            lens: &lens,
        };
        let found = refine_once(facts, &many, &rows, new, &mut round);
        if !found {
            return lens;
        }
    }
}
