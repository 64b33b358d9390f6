// Check 5: the places of a block or of a list of rules.
#![tactic(auto)]

ghost use Rattle.std.specs.Prelude.{◌≡◌, ◌/◌, ◌≤◌, length};
ghost use Rattle.rules.specs.Places.{all_zero, place_good, places_good};
ghost use Rattle.image.specs.Image.{rules_in_block, places_of_block};

use image::BLOCK;

// Whether no byte is used.
fn all_zero(bytes: &[u8]) -> bool
    ensures { result ≡ all_zero bytes.now }
{
    bytes.iter().all(|&byte| byte == 0)
}

// Jobs below the count, at most four jobs after, zeros behind them up to the last byte, which is the move's.
#[tactic(auto, using(crate::proofs::Chunks::unused), unfolding(rules::specs::Places::place_good))]
fn place_good(jobs: usize, place: &[u8; 8]) -> bool
    ensures { result ≡ place_good jobs place.now }
{
    let after = usize::from(place[2]);
    if jobs <= usize::from(place[0]) || 4 < after {
        return false;
    }
    let end = 3 + after;
    rules::all_below(jobs, &place[3..end]) && all_zero(&place[end..7])
}

// The places that stand in some bytes.
#[tactic(auto, using(crate::proofs::Chunks::places_all, crate::proofs::Chunks::all_places))]
pub fn places_good(jobs: usize, places: &[u8]) -> bool
    ensures { result ≡ places_good (length places.now / 8) jobs places.now }
{
    let (places, _) = places.as_chunks::<8>();
    places.iter().all(|place| place_good(jobs, place))
}

// The places in use of a block with at most 63 rules, and zeros in the others.
#[tactic(auto, using(crate::proofs::Chunks::block_parts), unfolding(image::specs::Image::rules_in_block))]
pub fn block_good(jobs: usize, block: &[u8; BLOCK]) -> bool
    requires { rules_in_block block.now ≤ 63 }
    ensures { result ≡ places_of_block jobs block.now }
{
    let end = 2 + 8 * usize::from(block[1]);
    places_good(jobs, &block[2..end]) && all_zero(&block[end..506])
}
