// The calls that compare two plans, with an alike list or without, which is the same with an empty one. Each works in the front of the
// workspace, and leaves the part that may be used cleared.
#![tactic(auto)]

ghost use Rattle.answer.specs.Answer.{answered};
ghost use Rattle.sameness.specs.SamenessCalls.{Compared, ComparedAlike, Comparing};

use answer::Refusal;

// The answer of compare, worked out in the workspace. What that leaves there is gone once the workspace is cleared.
fn compare_in(
    image: &[u8],
    alike: &[u8],
    left: &[u8],
    right: &[u8],
    space: &mut [u8],
) -> Result<u16, Refusal>
    ensures { Comparing image.now alike.now left.now right.now space.old (answered result) space.new }
{
    workspace::check(space)?;
    let mut held = table::read(image)?;
    replacing::replace(&mut held, alike)?;
    let table = held.normed();
    refusal::check_plans(&table, left, right)?;
    let same = engine::are_same(&table, left, right, &mut space[0..24576]);
    Ok(u16::from(same))
}

// 1 for two plans that are the same under a list, 0 for two that are apart.
pub fn compare_plans_alike(
    image: &[u8],
    alike: &[u8],
    left: &[u8],
    right: &[u8],
    space: &mut [u8],
) -> Result<u16, Refusal>
    ensures { ComparedAlike image.now alike.now left.now right.now space.old (answered result) space.new }
{
    let answer = compare_in(image, alike, left, right, space);
    workspace::finish(answer, space)
}

// 1 for two plans that are the same, 0 for two that are apart.
pub fn compare_plans(
    image: &[u8],
    left: &[u8],
    right: &[u8],
    space: &mut [u8],
) -> Result<u16, Refusal>
    ensures { Compared image.now left.now right.now space.old (answered result) space.new }
{
    compare_plans_alike(image, &[], left, right, space)
}
