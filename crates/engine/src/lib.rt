// From a list of rules and the norms of its jobs to the prime rows, and the answers that they give about plans.
// The area that is worked in has two halves, of 24 rows of 512 bytes each: decompositions are refined from one to the other, and the
// prime rows are left in the first.
#![tactic(auto)]

ghost use Rattle.std.specs.Prelude.{◌≡◌, true, ◌≤◌, length, take};
ghost use Rattle.bpa.specs.Plans.{all_below};
ghost use Rattle.bpa.specs.Norms.{sum_of};
ghost use Rattle.bpa.specs.Method as method;
ghost use Rattle.rules.specs.Places.{table_of};
ghost use Rattle.answer.specs.Answer.{Writes, answered};
ghost use Rattle.engine.specs.Engine.{PrimeRows};

use answer::Refusal;
use comparing::same_plans;
use facts::Facts;
use norm::{Normed, capped_sum};
use refining::refine;
use rows::Rows;

// Works out the prime rows of all jobs of a table in the area, in whose first half they stand in the end, and gives their lengths.
pub fn refined_rows(table: &Normed, area: &mut [u8]) -> [u16; 24]
    requires { length area.old ≡ 24576 }
    ensures { PrimeRows (table_of table.now.jobs table.now.rules.now) table.now.norms.now result (take 12288 area.new) }
{
    refine(&Facts::new(table), area)
}

// Whether two plans over a table are the same. The prime rows are worked out in the area, and the plans are compared in it.
pub fn are_same(table: &Normed, left: &[u8], right: &[u8], area: &mut [u8]) -> bool
    requires left_value { all_below table.now.jobs left.now ≡ true }
    requires right_value { all_below table.now.jobs right.now ≡ true }
    requires right_bound { sum_of table.now.norms.now right.now ≤ 4096 }
    requires area_len { length area.old ≡ 24576 }
    ensures { result ≡ method.same (table_of table.now.jobs table.now.rules.now) left.now right.now }
{
    let lens = refined_rows(table, area);
    same_plans(area, &lens, left, right)
}

// Writes the prime form of a plan over a table, one byte a job, and gives its length. If the output is too short, it is left as it was.
pub fn write_form(
    table: &Normed,
    plan: &[u8],
    out: &mut [u8],
    area: &mut [u8],
) -> Result<u16, Refusal>
    requires plan_value { all_below table.now.jobs plan.now ≡ true }
    requires plan_bound { sum_of table.now.norms.now plan.now ≤ 4096 }
    requires area_len { length area.old ≡ 24576 }
    ensures { Writes 0 (method.prime_form (table_of table.now.jobs table.now.rules.now) plan.now) out.old (answered result) out.new }
{
    let lens = refined_rows(table, area);
    if out.len() < capped_sum(&lens, plan) as usize {
        return Err(Refusal::OutputShort);
    }
    let rows = Rows {
        bytes: &area[..12288],
        lens: &lens,
    };
    Ok(rows.write_expansion(plan, out, 0) as u16)
}
