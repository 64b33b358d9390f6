// Images: their definitions and laws, their sizes, and the checksum that checks and writer share.
#![tactic(auto)]

ghost use Rattle.std.specs.Prelude.{◌≡◌, ◌≤◌, ◌<◌, length};
ghost use Rattle.image.specs.Image.{byte_sum, checksum};

// The bytes of a block, and the most rules in it.
pub const BLOCK: usize = 512;

pub const BLOCK_RULES: usize = 63;

// The most rules of an image.
pub const RULES: usize = 252;

// The sum of some bytes.
#[tactic(auto, using(crate::proofs::ByteSums::sum_bytes))]
fn byte_sum(bytes: &[u8]) -> usize
    requires { length bytes.now ≤ 512 }
    ensures { result ≡ byte_sum bytes.now }
{
    bytes.iter().map(|&byte| usize::from(byte)).sum()
}

// The sum of bytes 0 to 509, modulo 65,521.
#[tactic(auto, unfolding(crate::specs::Image::checksum))]
pub fn checksum(block: &[u8]) -> usize
    requires { length block.now ≡ 512 }
    ensures { (result ≡ checksum block.now) × (result < 65521) }
{
    byte_sum(&block[0..510]) % 65521
}
