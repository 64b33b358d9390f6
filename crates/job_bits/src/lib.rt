// Jobs as the bits of a number: those of a plan, and for each job those in the rows of its rules.
#![tactic(auto)]

ghost use Rattle.std.specs.Prelude.{◌≡◌, true};
ghost use Rattle.bpa.specs.Plans.{all_below};
ghost use Rattle.rules.specs.Places.{rule_count};
ghost use Rattle.job_bits.specs.JobBits.{PlanBits, TwoSets, RuleSets};

use rules::Rules;

// The jobs of a row, and those of them that others stand behind.
#[derive(Clone, Copy)]
struct RowSets {
    all: u32,
    front: u32,
}

// For each job the jobs in its rows, and those of them that others stand behind. Two arrays, since what is reached goes along the rows alone
// (`closure`, `Linked`): in one array of pairs that loop and its theorems would be no plainer.
#[derive(Drop)]
pub struct JobSets {
    pub rows: [u32; 24],
    pub fronts: [u32; 24],
}

// The jobs of a plan.
pub fn plan_bits(plan: &[u8]) -> u32
    requires { all_below 24 plan.now ≡ true }
    ensures { PlanBits plan.now result }
{
    let mut bits: u32 = 0;
    for &job in plan {
        bits |= 1 << job;
    }
    bits
}

// The last job of a row has none behind it.
fn row_sets(row: &[u8]) -> RowSets
    requires { all_below 24 row.now ≡ true }
    ensures { TwoSets row.now result }
{
    let Some((&last, before)) = row.split_last() else {
        return RowSets { all: 0, front: 0 };
    };
    let front = plan_bits(before);
    RowSets {
        all: front | (1 << last),
        front,
    }
}

// One pass over the rules.
pub fn job_sets(rules: &Rules) -> JobSets
    ensures { RuleSets rules.now.bytes.now (rule_count rules.now.bytes.now) result }
{
    let mut sets = JobSets {
        rows: [0; 24],
        fronts: [0; 24],
    };
    for i in 0..rules.count() {
        let job = rules.job(i);
        let row = row_sets(rules.after(i));
        sets.rows[job] |= row.all;
        sets.fronts[job] |= row.front;
    }
    sets
}
