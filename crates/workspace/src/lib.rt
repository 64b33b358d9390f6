// The workspace that a call is lent: whether it is long enough, the part that may be used, and how it is left.
#![tactic(auto)]

ghost use Rattle.std.specs.Prelude.{◌≡◌};
ghost use Rattle.answer.specs.Refusals.{refusal_of, space_refusal};
ghost use Rattle.answer.specs.Answer.{space_after};
ghost use Rattle.workspace.specs.Usable as part;

use answer::Refusal;

// How many bytes a call may use: the first 65,536, or none of a workspace that is too short.
#[tactic(auto, unfolding(crate::specs::Usable::usable, answer::specs::Refusals::space_size))]
fn usable(space: &[u8]) -> usize
    ensures { result ≡ part.usable space.now }
{
    if space.len() < 65536 {
        return 0;
    }
    65536
}

// Refusal 1.
pub fn check(space: &[u8]) -> Result<(), Refusal>
    ensures { refusal_of result ≡ space_refusal space.now }
{
    if usable(space) == 0 {
        return Err(Refusal::WorkspaceShort);
    }
    Ok(())
}

// Zeros in the part that may be used. Later bytes are left.
#[tactic(auto, using(crate::proofs::UsablePart::usable_inside, crate::proofs::UsablePart::part_cleared))]
fn clear(space: &mut [u8])
    ensures { space.new ≡ space_after space.old }
{
    let end = usable(space);
    area::put_zeros(0, end, space);
}

// The end of every call with a workspace, a refused one too: the workspace is cleared, and the answer given.
pub fn finish(answer: Result<u16, Refusal>, space: &mut [u8]) -> Result<u16, Refusal>
    ensures { (result ≡ answer) × (space.new ≡ space_after space.old) }
{
    clear(space);
    answer
}
