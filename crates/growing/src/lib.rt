// How many jobs a plan can reach, and whether it is endless.
#![tactic(auto)]

ghost use Rattle.std.specs.Prelude.{◌≡◌, true, ◌↔◌, ◌<◌, IsTrue, get_or};
ghost use Rattle.bpa.specs.Plans.{all_below};
ghost use Rattle.rules.specs.Places.{table_of};
ghost use Rattle.rules.specs.Lists.{GoodList};
ghost use Rattle.closure.specs.Linked.{Linked, SmallRows};
ghost use Rattle.growth.specs.Reached as meaning;
ghost use Rattle.growing.specs.Growing.{SomeBack};

use closure::closure;
use job_bits::{JobSets, job_sets, plan_bits};
use rules::Rules;

// Whether a job can be reached from the jobs in its rows that others stand behind.
fn comes_back(sets: &JobSets, job: u32) -> bool
    requires small_rows { SmallRows sets.now.rows }
    requires small_fronts { SmallRows sets.now.fronts }
    requires is_job { job < 24 }
    ensures { IsTrue result ↔ Linked sets.now.rows (get_or sets.now.fronts job 0) job }
{
    let back = closure(&sets.rows, sets.fronts[job as usize]);
    (back >> job) % 2 == 1
}

// Whether some job that is reached can.
fn grows(sets: &JobSets, reached: u32) -> bool
    requires small_rows { SmallRows sets.now.rows }
    requires small_fronts { SmallRows sets.now.fronts }
    requires small { reached < 16777216 }
    ensures { IsTrue result ↔ SomeBack sets.now.rows sets.now.fronts reached }
{
    (0..24).any(|job: u32| (reached >> job) % 2 == 1 && comes_back(sets, job))
}

// Twice the number of jobs that a plan can reach, and one more if it is endless.
pub fn growth_of(rules: &Rules, plan: &[u8]) -> u8
    requires { all_below rules.now.jobs plan.now ≡ true }
    ensures { result ≡ meaning.growth (table_of rules.now.jobs rules.now.bytes.now) plan.now }
{
    let sets = job_sets(rules);
    let reached = closure(&sets.rows, plan_bits(plan));
    2 * reached.count_ones() as u8 + u8::from(grows(&sets, reached))
}
