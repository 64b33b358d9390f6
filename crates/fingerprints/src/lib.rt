// Fingerprints of rows, as Karp and Rabin's: unequal ones show that two rows are unequal, before they are looked at place by place.
#![tactic(auto)]

ghost use Rattle.std.specs.Prelude.{◌≡◌, ℕ, ◌+◌, true, ◌<◌, ◌-◌, get_or};
ghost use Rattle.bpa.specs.Plans.{all_below};
ghost use Rattle.rules.specs.Places.{rule_at, rule_count};
ghost use Rattle.facts.specs.Columns.{bytes_in, jobs_in};
ghost use Rattle.rows.specs.Region.{Within};
ghost use Rattle.rows.specs.Rows.{rows_of};
ghost use Rattle.fingerprints.specs.Fingerprints.{IsJoined, Joins, IsPrint, Printed, PlanPrint, KnownPrints, RulePrint, RulePrints, AllPrinted};

use facts::Facts;
use rows::Rows;

// A prime just below 2^32, so that two numbers below it and their product fit in 64 bits.
const MODULUS: u64 = 4294967291;

// Any base would do.
const BASE: u32 = 2654435769;

// Rules whose rows have a norm from here on may leave long rows.
const LONG: u16 = 64;

// The fingerprint of a row, and the power of the base by which it moves what stands in front.
#[derive(Clone, Copy)]
pub struct Print {
    pub value: u32,
    pub power: u32,
}

impl Print {
    // The fingerprint of the row with another behind it.
    fn then(self, behind: Print) -> Print
        ensures { Joins self behind result }
    {
        Print {
            value: joined(self.value, behind.power, behind.value),
            power: joined(self.power, behind.power, 0),
        }
    }
}

// The fingerprints of the jobs' rows and their powers, and a number for each rule, of what it leaves: its fingerprint and one more, or 0 for
// none, since an array of 252 options takes twice the stack.
#[derive(Clone, Copy)]
pub struct Prints {
    pub values: [u32; 24],
    pub powers: [u32; 24],
    pub rules: [u32; 252],
}

impl Prints {
    // The fingerprint of a job's row.
    pub fn of_job(&self, job: usize) -> Print
        requires { job < 24 }
        ensures { (result.value ≡ get_or self.now.values job 0) × (result.power ≡ get_or self.now.powers job 0) }
    {
        Print {
            value: self.values[job],
            power: self.powers[job],
        }
    }

    // The fingerprint of a plan.
    pub fn of_plan(&self, plan: &[u8]) -> Print
        requires { all_below 24 plan.now ≡ true }
        ensures { PlanPrint self.now plan.now result.value result.power }
    {
        let mut print = Print { value: 0, power: 1 };
        for &job in plan {
            print = print.then(self.of_job(usize::from(job)));
        }
        print
    }

    // The value of the fingerprint of what a rule leaves, if it has one.
    pub fn of_rule(&self, i: usize) -> Option<u32>
        requires { i < 252 }
        ensures some { (value : ℕ) → result ≡ Some value → get_or self.now.rules i 0 ≡ value + 1 }
        ensures none { result ≡ None → get_or self.now.rules i 0 ≡ 0 }
    {
        self.rules[i].checked_sub(1)
    }
}

// The fingerprint of a row with another behind it, whose power is given.
pub fn joined(left: u32, power: u32, right: u32) -> u32
    ensures { IsJoined left power right result }
{
    ((u64::from(left) * u64::from(power) + u64::from(right)) % MODULUS) as u32
}

// The fingerprint of a row. Jobs are counted from 1.
fn row_print(row: &[u8]) -> Print
    ensures { IsPrint row.now result.value result.power }
{
    let mut print = Print { value: 0, power: 1 };
    for &job in row {
        let digit = Print {
            value: u32::from(job) + 1,
            power: BASE,
        };
        print = print.then(digit);
    }
    print
}

// The number of what a rule leaves: one more than its fingerprint if its row may be long, or if its job has many rules.
fn rule_number(facts: &Facts, many: &[bool; 24], prints: &Prints, i: usize) -> u32
    requires { i < rule_count (bytes_in facts.now) }
    ensures { RulePrint prints.now (rule_at (bytes_in facts.now) i).after result }
{
    let rules = facts.table.list();
    if facts.sums[i] < LONG && !many[rules.job(i)] {
        return 0;
    }
    prints.of_plan(rules.after(i)).value + 1
}

// The fingerprints of the rows of the first jobs. Those of rows that have not moved are there.
fn row_prints(rows: &Rows, jobs: usize, moved: &[bool; 24], prints: &mut Prints)
    requires within { Within jobs rows.now.lens.now rows.now.bytes.now }
    requires known_prints { KnownPrints jobs (rows_of rows.now) moved.now prints.old }
    ensures { Printed jobs (rows_of rows.now) prints.new }
{
    for job in 0..jobs {
        if moved[job] {
            let print = row_print(rows.row(job));
            prints.values[job] = print.value;
            prints.powers[job] = print.power;
        }
    }
}

// The fingerprints of what the rules leave, by those of the jobs' rows, which stay.
fn rule_prints(facts: &Facts, many: &[bool; 24], prints: &mut Prints)
    ensures numbers { RulePrints (bytes_in facts.now) prints.new }
    ensures values { prints.new.values ≡ prints.old.values }
    ensures powers { prints.new.powers ≡ prints.old.powers }
{
    for i in 0..facts.table.list().count() {
        prints.rules[i] = rule_number(facts, many, prints, i);
    }
}

// The fingerprints of the rows of the jobs, and of what rules leave by them.
pub fn all_prints(
    facts: &Facts,
    many: &[bool; 24],
    rows: &Rows,
    moved: &[bool; 24],
    prints: &mut Prints,
)
    requires within { Within (jobs_in facts.now) rows.now.lens.now rows.now.bytes.now }
    requires known_prints { KnownPrints (jobs_in facts.now) (rows_of rows.now) moved.now prints.old }
    ensures { AllPrinted (bytes_in facts.now) (jobs_in facts.now) (rows_of rows.now) prints.new }
{
    row_prints(rows, facts.table.jobs, moved, prints);
    rule_prints(facts, many, prints);
}
