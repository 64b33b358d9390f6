// Leaves over byte slices.
#![tactic(auto)]

ghost use Rattle.std.specs.Prelude.{◌≡◌, [], ◌∷◌, ◌+◌, ◌-◌, ◌≤◌, ◌<◌, length, replicate};
ghost use Rattle.area.specs.Areas.{IsByte, put, IsPut};
ghost use Rattle.area.specs.Numbers.{number_at, low_first, IsNumber};

// The number of two bytes.
pub fn number(low: u8, high: u8) -> usize
    ensures { IsNumber low high result }
{
    usize::from(low) + 256 * usize::from(high)
}

// The two-byte number at a place, low byte first.
#[tactic(auto, unfolding(crate::specs::Numbers::number_at))]
pub fn number_at(at: usize, bytes: &[u8]) -> usize
    requires { at + 1 < length bytes.now }
    ensures { result ≡ number_at at bytes.now }
{
    number(bytes[at], bytes[at + 1])
}

// Puts bytes into an area at a place, and gives the place behind them.
pub fn put(area: &mut [u8], at: usize, bytes: &[u8]) -> usize
    requires { at + length bytes.now ≤ length area.old }
    ensures { IsPut at bytes.now area.old result area.new }
{
    let next = at + bytes.len();
    area[at..next].copy_from_slice(bytes);
    next
}

// Zeros from a place up to another.
pub fn put_zeros(from: usize, to: usize, area: &mut [u8])
    requires { (from ≤ to) × (to ≤ length area.old) }
    ensures { area.new ≡ put from (replicate (to - from) 0) area.old }
{
    area[from..to].fill(0);
}

// Two bytes at a place.
pub fn put_two(first: usize, second: usize, at: usize, area: &mut [u8])
    requires { (at + 1 < length area.old) × ((first < 256) × (second < 256)) }
    ensures { area.new ≡ put at (first ∷ second ∷ []) area.old }
{
    let next = at + 1;
    area[at] = first as u8;
    area[next] = second as u8;
}

// A two-byte number at a place, low byte first.
#[tactic(auto, unfolding(crate::specs::Numbers::low_first))]
pub fn put_number(number: usize, at: usize, area: &mut [u8])
    requires { at + 1 < length area.old }
    ensures { area.new ≡ put at (low_first number) area.old }
{
    let low = number % 256;
    let high = number / 256 % 256;
    put_two(low, high, at, area);
}
