// The call that tells whether a table has no choice of outcome, under an alike list.
#![tactic(auto)]

ghost use Rattle.answer.specs.Answer.{answered};
ghost use Rattle.outcomes.specs.OutcomeCalls.{Determined};

use answer::Refusal;

// 1 if no job makes moves that count as one into different rows of jobs, else 0.
pub fn is_deterministic(image: &[u8], alike: &[u8]) -> Result<u16, Refusal>
    ensures { Determined image.now alike.now (answered result) }
{
    let mut held = table::read(image)?;
    replacing::replace(&mut held, alike)?;
    let table = held.normed();
    let none = outcome_check::is_free_of_choice(&table.list());
    Ok(u16::from(none))
}
