// Check 4: job count, rule count, number of the block, number of blocks.
#![tactic(auto)]

ghost use Rattle.std.specs.Prelude.{◌≡◌, ◌<◌};
ghost use Rattle.image.specs.Image.{rules_fit, head_of};

use image::{BLOCK, BLOCK_RULES};

// The rule count: 63 in all blocks but the last, 1 to 63 in the last.
#[tactic(auto, unfolding(image::specs::Image::rules_fit))]
fn rules_fit(last: bool, rules: usize) -> bool
    ensures { result ≡ rules_fit last rules }
{
    if last {
        (1..=BLOCK_RULES).contains(&rules)
    } else {
        rules == BLOCK_RULES
    }
}

// Block k of `count`, in an image whose first byte is `jobs`.
#[tactic(auto, unfolding(image::specs::Image::head_of, image::specs::Image::rules_in_block))]
pub fn head_good(jobs: usize, count: usize, k: usize, block: &[u8; BLOCK]) -> bool
    requires { k < count }
    ensures { result ≡ head_of jobs count k block.now }
{
    let here = usize::from(block[0]);
    (1..=24).contains(&here)
        && here == jobs
        && rules_fit(k + 1 == count, usize::from(block[1]))
        && area::number_at(506, block) == k
        && area::number_at(508, block) == count
}
