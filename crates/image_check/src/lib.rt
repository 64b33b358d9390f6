// The checks of an image and of a list of 8-byte rules: refusals 2 to 5.
#![tactic(auto)]

ghost use Rattle.std.specs.Prelude.{◌≡◌, ◌↔◌, true, IsTrue, ◌≤◌, All};
ghost use Rattle.area.specs.Numbers.{number_at};
ghost use Rattle.answer.specs.Refusals.{refusal_of};
ghost use Rattle.image.specs.Image.{checksum, rules_in_block, places_of_block, layout_refusal};
ghost use Rattle.image.specs.Checks.{HeadsPass};
ghost use Rattle.image.specs.Writing.{list_refusal};

use answer::Refusal;
use image::{BLOCK, RULES};

// Check 3 of every block: the checksum.
fn sums_good(blocks: &[[u8; BLOCK]]) -> bool
    ensures { IsTrue result ↔ All (λ block. number_at 510 block ≡ checksum block) blocks.now }
{
    blocks.iter().all(|block| area::number_at(510, block) == image::checksum(block))
}

// Check 4 of every block.
fn heads_good(jobs: usize, blocks: &[[u8; BLOCK]]) -> bool
    ensures { IsTrue result ↔ HeadsPass jobs blocks.now }
{
    let count = blocks.len();
    blocks
        .iter()
        .enumerate()
        .all(|(k, block)| head_check::head_good(jobs, count, k, block))
}

// Check 5 of every block.
fn places_good(jobs: usize, blocks: &[[u8; BLOCK]]) -> bool
    requires { All (λ block. rules_in_block block ≤ 63) blocks.now }
    ensures { IsTrue result ↔ All (λ block. places_of_block jobs block ≡ true) blocks.now }
{
    blocks
        .iter()
        .all(|block| place_check::block_good(jobs, block))
}

// REFUSALS 2 TO 5 of an image: each check is made over all blocks before the next.
#[tactic(auto, unfolding(answer::specs::Refusals::refusal_of, answer::specs::Refusals::number, image::specs::Image::layout_refusal, image::specs::Image::length_good, image::specs::Image::blocks_in,))]
pub fn check_layout(image: &[u8]) -> Result<(), Refusal>
    ensures { refusal_of result ≡ layout_refusal image.now }
{
    let (blocks, rest) = image.as_chunks::<BLOCK>();
    if !rest.is_empty() || blocks.is_empty() || 4 < blocks.len() {
        return Err(Refusal::BadLength);
    }
    if !sums_good(blocks) {
        return Err(Refusal::BadChecksum);
    }
    let jobs = usize::from(image[0]);
    if !heads_good(jobs, blocks) {
        return Err(Refusal::BadHeader);
    }
    if !places_good(jobs, blocks) {
        return Err(Refusal::BadPlace);
    }
    Ok(())
}

// REFUSALS 2, 4 AND 5 of a job count and a list of 8-byte rules.
#[tactic(auto, unfolding(answer::specs::Refusals::refusal_of, answer::specs::Refusals::number, image::specs::Writing::list_refusal, rules::specs::Places::rule_count,))]
pub fn check_list(jobs: u32, rules: &[u8]) -> Result<(), Refusal>
    ensures { refusal_of result ≡ list_refusal jobs rules.now }
{
    let (places, rest) = rules.as_chunks::<8>();
    if !rest.is_empty() || places.is_empty() || RULES < places.len() {
        return Err(Refusal::BadLength);
    }
    if !(1..=24).contains(&jobs) {
        return Err(Refusal::BadHeader);
    }
    if !place_check::places_good(jobs as usize, rules) {
        return Err(Refusal::BadPlace);
    }
    Ok(())
}
