// The calls about one plan: its norm, its n-th move, its first shortest run.
#![tactic(auto)]

ghost use Rattle.answer.specs.Answer.{answered};
ghost use Rattle.plans.specs.PlanCalls.{Normed, Moved, RanFirst};

use answer::Refusal;
use nth_move::write_nth_move;
use refusal::check_plan;

// The fewest moves that lead to the empty plan.
pub fn plan_norm(image: &[u8], plan: &[u8]) -> Result<u16, Refusal>
    ensures { Normed image.now plan.now (answered result) }
{
    let held = table::read(image)?;
    let table = held.normed();
    check_plan(&table, plan)?;
    Ok(norm::capped_sum(table.norms, plan) as u16)
}

// The n-th move shown, n from 0: the move, then the remaining plan.
pub fn nth_move(image: &[u8], plan: &[u8], index: u32, out: &mut [u8]) -> Result<u16, Refusal>
    ensures { Moved image.now plan.now index out.old (answered result) out.new }
{
    let held = table::read(image)?;
    let table = held.normed();
    check_plan(&table, plan)?;
    write_nth_move(&table.list(), plan, index, out)
}

// The first shortest run in dictionary order of move numbers: as many moves as the norm, two bytes each.
pub fn shortest_run(image: &[u8], plan: &[u8], out: &mut [u8]) -> Result<u16, Refusal>
    ensures { RanFirst image.now plan.now out.old (answered result) out.new }
{
    let held = table::read(image)?;
    let table = held.normed();
    check_plan(&table, plan)?;
    runs::first_run(&table, plan, out)
}
