// The n-th move of a plan.
#![tactic(auto)]

ghost use Rattle.std.specs.Prelude.{◌≤◌, length};
ghost use Rattle.rules.specs.Places.{table_of};
ghost use Rattle.rules.specs.Lists.{GoodList};
ghost use Rattle.area.specs.Areas.{IsPut};
ghost use Rattle.answer.specs.Answer.{Writes, answered};
ghost use Rattle.moves.specs.Moves.{move_bytes, bytes_by, RoomFor};
ghost use Rattle.moves.specs.Shown.{shown};

use answer::Refusal;
use rules::Rules;

// Writes a move: its number in two bytes, the jobs after it, the jobs that wait.
fn write_move(rules: &Rules, i: usize, waiting: &[u8], out: &mut [u8]) -> usize
    requires { RoomFor rules.now.bytes.now i waiting.now out.old }
    ensures { IsPut 0 (bytes_by rules.now.bytes.now i waiting.now) out.old result out.new }
{
    area::put_number(usize::from(rules.action(i)), 0, out);
    let behind = area::put(out, 2, rules.after(i));
    area::put(out, behind, waiting)
}

// The n-th move that a plan shows. It gives the number of bytes written, 0 for no such move.
pub fn write_nth_move(
    rules: &Rules,
    plan: &[u8],
    index: u32,
    out: &mut [u8],
) -> Result<u16, Refusal>
    requires { length plan.now ≤ 4096 }
    ensures { Writes 0 (move_bytes (shown (table_of rules.now.jobs rules.now.bytes.now) plan.now) index) out.old (answered result) out.new }
{
    if plan.is_empty() {
        return Ok(0);
    }
    let found = moves::find_rule(rules, usize::from(plan[0]), index);
    let Some(i) = found else {
        return Ok(0);
    };
    let need = plan.len() + rules.after(i).len() + 1;
    if out.len() < need {
        return Err(Refusal::OutputShort);
    }
    Ok(write_move(rules, i, &plan[1..], out) as u16)
}
