// The call that compares a plan of one table with a plan of another, under an alike list. It works in the front of the workspace, and leaves the part
// that may be used cleared.
#![tactic(auto)]

ghost use Rattle.answer.specs.Answer.{answered};
ghost use Rattle.two_tables.specs.TableCalls.{ComparedTables, ComparingTables};

use answer::Refusal;
use joined_plans::{are_same, check_plans};
use joining::{check_sizes, join};

// The answer, worked out in the workspace. What that leaves there is gone once the workspace is cleared.
fn compare_in(
    first: &[u8],
    second: &[u8],
    alike: &[u8],
    left: &[u8],
    right: &[u8],
    space: &mut [u8],
) -> Result<u16, Refusal>
    ensures { ComparingTables first.now second.now alike.now left.now right.now space.old (answered result) space.new }
{
    workspace::check(space)?;
    let mut held = table::read(first)?;
    let other = table::read(second)?;
    check_sizes(&held, &other)?;
    // Each plan is checked over its own table, so before the tables are joined, though the list is refused first.
    let of_plans = check_plans(&held.normed(), &other.normed(), left, right);
    let jobs = held.jobs;
    join(&mut held, &other);
    replacing::replace(&mut held, alike).and(of_plans)?;
    let table = held.normed();
    let same = are_same(&table, jobs, left, right, &mut space[0..24576]);
    Ok(u16::from(same))
}

// 1 for plans of two tables that are the same under a list, 0 for two that are apart.
pub fn compare_plans(
    first: &[u8],
    second: &[u8],
    alike: &[u8],
    left: &[u8],
    right: &[u8],
    space: &mut [u8],
) -> Result<u16, Refusal>
    ensures { ComparedTables first.now second.now alike.now left.now right.now space.old (answered result) space.new }
{
    let answer = compare_in(first, second, alike, left, right, space);
    workspace::finish(answer, space)
}
