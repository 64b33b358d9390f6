// A plan over each of two joined tables: their refusals, and whether they are the same.
#![tactic(auto)]

ghost use Rattle.std.specs.Prelude.{◌≡◌, true, ◌-◌, ◌≤◌, length};
ghost use Rattle.answer.specs.Refusals.{or_else, refusal_of};
ghost use Rattle.bpa.specs.Plans.{all_below};
ghost use Rattle.bpa.specs.Norms.{sum_of};
ghost use Rattle.bpa.specs.Method.{expand};
ghost use Rattle.bpa.specs.Method as method;
ghost use Rattle.rows.specs.Region.{row, Comparable, old_half};
ghost use Rattle.form.specs.Written.{Tells};
ghost use Rattle.rules.specs.Places.{table_of};
ghost use Rattle.refusal.specs.Refusals.{jobs_refusal, sum_refusal};
ghost use Rattle.joined.specs.Joined.{renumbered};

use answer::Refusal;
use norm::Normed;
use refusal::{check_jobs, check_norm};

// Refusals 8 and 9 of two plans, each over its own table: 8 of either before 9 of either.
pub fn check_plans(
    first: &Normed,
    second: &Normed,
    left: &[u8],
    right: &[u8],
) -> Result<(), Refusal>
    ensures { refusal_of result ≡ or_else (jobs_refusal first.now.jobs left.now)
        (or_else (jobs_refusal second.now.jobs right.now)
        (or_else (sum_refusal first.now.norms.now left.now) (sum_refusal second.now.norms.now right.now))) }
{
    check_jobs(first, left)?;
    check_jobs(second, right)?;
    check_norm(first, left)?;
    check_norm(second, right)
}

// Whether a plan and one whose jobs are numbered on are told the same by the prime rows that stand in an area. It is never inlined: the numbered plan
// would stand on the stack beside what the rows are worked out with.
#[inline(never)]
fn tell_same(area: &mut [u8], lens: &[u16; 24], jobs: usize, left: &[u8], right: &[u8]) -> bool
    requires few { jobs ≤ 24 }
    requires short { length right.now ≤ 4096 }
    requires small { all_below (256 - jobs) right.now ≡ true }
    requires comparable { Comparable lens.now (old_half area.old) left.now (renumbered jobs right.now) }
    requires area_len { length area.old ≡ 24576 }
    requires right_len_bound { length (expand (row lens.now (old_half area.old)) (renumbered jobs right.now)) ≤ 12288 }
    ensures { Tells result (expand (row lens.now (old_half area.old)) left.now) (expand (row lens.now (old_half area.old)) (renumbered jobs right.now)) }
{
    let mut plan = [0u8; 4096];
    joining::renumber_plan(right, jobs as u8, &mut plan);
    comparing::same_plans(area, lens, left, &plan[..right.len()])
}

// Whether a plan of the first of two joined tables, which has so many jobs, and a plan of the second are the same.
pub fn are_same(table: &Normed, jobs: usize, left: &[u8], right: &[u8], area: &mut [u8]) -> bool
    requires left_value { all_below jobs left.now ≡ true }
    requires jobs_within { jobs ≤ table.now.jobs }
    requires right_value { all_below (table.now.jobs - jobs) right.now ≡ true }
    requires right_len_bound { (length right.now ≤ 4096) × (sum_of table.now.norms.now (renumbered jobs right.now) ≤ 4096) }
    requires area_len { length area.old ≡ 24576 }
    ensures { result ≡ method.same (table_of table.now.jobs table.now.rules.now) left.now (renumbered jobs right.now) }
{
    let lens = engine::refined_rows(table, area);
    tell_same(area, &lens, jobs, left, right)
}
