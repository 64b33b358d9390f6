// The calls that write the prime form of a plan, with an alike list or without, which is the same with an empty one. Each works in the front of the
// workspace, and leaves the part that may be used cleared.
#![tactic(auto)]

ghost use Rattle.answer.specs.Answer.{answered};
ghost use Rattle.prime_forms.specs.FormCalls.{Formed, FormedAlike, Forming};

use answer::Refusal;

// The prime form or the refusal, worked out in the workspace.
fn form_in(
    image: &[u8],
    alike: &[u8],
    plan: &[u8],
    out: &mut [u8],
    space: &mut [u8],
) -> Result<u16, Refusal>
    ensures { Forming image.now alike.now plan.now out.old space.old (answered result) out.new space.new }
{
    workspace::check(space)?;
    let mut held = table::read(image)?;
    replacing::replace(&mut held, alike)?;
    let table = held.normed();
    refusal::check_plan(&table, plan)?;
    engine::write_form(&table, plan, out, &mut space[0..24576])
}

// The prime form of a plan under a list: as many bytes as it has jobs.
pub fn write_form_alike(
    image: &[u8],
    alike: &[u8],
    plan: &[u8],
    out: &mut [u8],
    space: &mut [u8],
) -> Result<u16, Refusal>
    ensures { FormedAlike image.now alike.now plan.now out.old space.old (answered result) out.new space.new }
{
    let answer = form_in(image, alike, plan, out, space);
    workspace::finish(answer, space)
}

// The prime form of a plan.
pub fn write_form(
    image: &[u8],
    plan: &[u8],
    out: &mut [u8],
    space: &mut [u8],
) -> Result<u16, Refusal>
    ensures { Formed image.now plan.now out.old space.old (answered result) out.new space.new }
{
    write_form_alike(image, &[], plan, out, space)
}
