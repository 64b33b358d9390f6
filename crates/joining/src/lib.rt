// A second table joined to the one that a call holds: its jobs are numbered on from the first's.
#![tactic(auto)]

ghost use Rattle.std.specs.Prelude.{◌≡◌, true, cond, OnOk, ◌+◌, ◌-◌, ◌≤◌, ◌<◌, length, take};
ghost use Rattle.answer.specs.Refusals.{refusal_of};
ghost use Rattle.area.specs.Areas as areas;
ghost use Rattle.bpa.specs.Plans.{all_below};
ghost use Rattle.joined.specs.Joined.{renumbered, joined};
ghost use Rattle.joining.specs.JoinedBytes.{tables_refusal, renumbered_place, renumbered_places, GoodPlace, GoodPlaces, JoinsNorms};
ghost use Rattle.table.specs.Sources.{table_held};

use answer::Refusal;
use table::HeldTable;

// The most jobs of a table, and the most bytes of its rules.
const JOBS: usize = 24;

const BYTES: usize = 2016;

// Refusal 15, by the bytes in which the rules of both tables stand.
pub fn check_sizes(first: &HeldTable, second: &HeldTable) -> Result<(), Refusal>
    ensures refusal { refusal_of result ≡ tables_refusal (table_held first.now) (table_held second.now) }
    ensures fit { OnOk result ((first.now.jobs + second.now.jobs ≤ 24) × (first.now.end + second.now.end ≤ 2016)) }
{
    if JOBS < first.jobs + second.jobs || BYTES < first.end + second.end {
        return Err(Refusal::TablesLarge);
    }
    Ok(())
}

// A byte of a place: the job that it names, numbered on, or what it is if it names none.
fn numbered_on(byte: u8, jobs: u8, named: bool) -> u8
    requires { jobs + byte < 256 }
    ensures { result ≡ cond named (jobs + byte) byte }
{
    if named {
        return jobs + byte;
    }
    byte
}

// Numbers the jobs of a place on.
fn renumber_place(place: &mut [u8], jobs: u8)
    requires { GoodPlace jobs place.old }
    ensures { place.new ≡ renumbered_place jobs place.old }
{
    let count = place[2];
    let job = jobs + place[0];
    let first = numbered_on(place[3], jobs, 0 < count);
    let second = numbered_on(place[4], jobs, 1 < count);
    let third = numbered_on(place[5], jobs, 2 < count);
    let fourth = numbered_on(place[6], jobs, 3 < count);
    place[0] = job;
    place[3] = first;
    place[4] = second;
    place[5] = third;
    place[6] = fourth;
}

// Numbers the jobs of all places on.
fn renumber_places(places: &mut [u8], jobs: u8)
    requires { GoodPlaces jobs places.old }
    ensures { places.new ≡ renumbered_places jobs places.old }
{
    // By places and not by `chunks_exact_mut`, after which no proof knows the bytes.
    for i in 0..places.len() / 8 {
        renumber_place(&mut places[8 * i..8 * i + 8], jobs);
    }
}

// Puts the places of a second table behind those of a first.
fn append(rules: &mut [u8; 2016], end: usize, more: &[u8], jobs: u8)
    requires { (end + length more.now ≤ 2016) × GoodPlaces jobs more.now }
    ensures { rules.new ≡ areas.put end (renumbered_places jobs more.now) rules.old }
{
    let last = end + more.len();
    rules[end..last].copy_from_slice(more);
    renumber_places(&mut rules[end..last], jobs);
}

// Puts the norms of a second table behind those of a first.
fn join_norms(norms: &mut [u16; 24], jobs: usize, others: &[u16; 24])
    requires { jobs ≤ 24 }
    ensures { JoinsNorms norms.old jobs others.now norms.new }
{
    norms[jobs..].copy_from_slice(&others[..24 - jobs]);
}

// Joins a second table to the first, if both are few enough together. The bytes behind the rules of both stay.
pub fn join(table: &mut HeldTable, other: &HeldTable)
    requires jobs { table.old.jobs + other.now.jobs ≤ 24 }
    requires rules { table.old.end + other.now.end ≤ 2016 }
    ensures jobs { table.new.jobs ≡ table.old.jobs + other.now.jobs }
    ensures end { table.new.end ≡ table.old.end + other.now.end }
    ensures rules { table.new.rules ≡ areas.put table.old.end (renumbered_places table.old.jobs (take other.now.end other.now.rules)) table.old.rules }
    ensures joined { table_held table.new ≡ joined (table_held table.old) (table_held other.now) }
    ensures norms { JoinsNorms table.old.norms table.old.jobs other.now.norms table.new.norms }
{
    append(
        &mut table.rules,
        table.end,
        &other.rules[..other.end],
        table.jobs as u8,
    );
    join_norms(&mut table.norms, table.jobs, &other.norms);
    table.jobs += other.jobs;
    table.end += other.end;
}

// Puts a plan of the second table, its jobs numbered on, at the front of an area.
pub fn renumber_plan(plan: &[u8], jobs: u8, out: &mut [u8])
    requires { (length plan.now ≤ length out.old) × (all_below (256 - jobs) plan.now ≡ true) }
    ensures { out.new ≡ areas.put 0 (renumbered jobs plan.now) out.old }
{
    for i in 0..plan.len() {
        out[i] = jobs + plan[i];
    }
}
