// The call that tells whether a plan is finite or endless, and how many jobs it can reach.
#![tactic(auto)]

ghost use Rattle.answer.specs.Answer.{answered};
ghost use Rattle.plan_growth.specs.GrowthCalls.{Grown};

use answer::Refusal;

// Twice the number of jobs that the plan can reach, and one more if it is endless.
pub fn growth(image: &[u8], plan: &[u8]) -> Result<u16, Refusal>
    ensures { Grown image.now plan.now (answered result) }
{
    let held = table::read(image)?;
    let table = held.normed();
    refusal::check_plan(&table, plan)?;
    let growth = growing::growth_of(&table.list(), plan);
    Ok(u16::from(growth))
}
