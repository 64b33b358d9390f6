// The call that replays a log of moves on a plan, under an alike list. It works in the front of the workspace, and leaves the part that may be
// used cleared.
#![tactic(auto)]

ghost use Rattle.std.specs.Prelude.{◌≡◌, true, ◌≤◌, length};
ghost use Rattle.answer.specs.Answer.{answered};
ghost use Rattle.bpa.specs.Plans.{all_below};
ghost use Rattle.rules.specs.Places.{table_of};
ghost use Rattle.replaying.specs.Outcomes.{number_of, IsReplay};
ghost use Rattle.logs.specs.LogCalls.{Replayed, Replaying};

use answer::Refusal;
use replaying::{Outcome, replay_moves};
use rules::Rules;

// The outcome of a replay, with the cells as bytes.
fn outcome_in(cells: &mut [u8], rules: &Rules, log: &[u16], plan: &[u8]) -> Outcome
    requires cells_len { length cells.old ≡ 52632 }
    requires jobs { all_below rules.now.jobs plan.now ≡ true }
    requires short { length log.now ≤ 128 }
    ensures { IsReplay (table_of rules.now.jobs rules.now.bytes.now) plan.now log.now (number_of result) }
{
    replay_moves(cells.as_mut_array().unwrap(), rules, log, plan)
}

// The answer, worked out in the workspace. What that leaves there is gone once the workspace is cleared.
fn replay_in(
    image: &[u8],
    alike: &[u8],
    plan: &[u8],
    log: &[u8],
    space: &mut [u8],
) -> Result<u16, Refusal>
    ensures { Replaying image.now alike.now plan.now log.now space.old (answered result) space.new }
{
    workspace::check(space)?;
    let mut held = table::read(image)?;
    replacing::replace(&mut held, alike)?;
    let table = held.normed();
    refusal::check_plan(&table, plan)?;
    log_moves::check(log)?;
    let moves = log_moves::counted_moves(alike, log);
    let counted = &moves[..log.len() / 2];
    let rules = table.list();
    let outcome = outcome_in(&mut space[0..52632], &rules, counted, plan);
    Ok(outcome.number())
}

// Replays a log on a plan under a list.
pub fn replay(
    image: &[u8],
    alike: &[u8],
    plan: &[u8],
    log: &[u8],
    space: &mut [u8],
) -> Result<u16, Refusal>
    ensures { Replayed image.now alike.now plan.now log.now space.old (answered result) space.new }
{
    let answer = replay_in(image, alike, plan, log, space);
    workspace::finish(answer, space)
}
