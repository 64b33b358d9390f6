// Rules as 8 bytes each: one function for each part of a rule.
#![tactic(auto)]

ghost use Rattle.std.specs.Prelude.{◌≡◌, true, not, ◌*◌, ◌/◌, ◌%◌, ◌<◌, ◌≤◌, eqb, length, take, drop};
ghost use Rattle.area.specs.Areas.{IsByte};
ghost use Rattle.bpa.specs.Plans.{all_below};
ghost use Rattle.rules.specs.Places.{move_in, with_move, rule_at, rule_count};
ghost use Rattle.rules.specs.Lists.{HasPlace, IsMove, IsCount, GoodList};

use area::number;

// A job count and a list of 8-byte rules that refusals 2, 4 and 5 have passed, lent.
#[derive(Clone, Copy)]
pub struct Rules<'a> {
    pub jobs: usize,
    pub bytes: &'a [u8],
    ghost good: { GoodList jobs bytes.now },
}

impl<'a> Rules<'a> {
    // How many rules there are.
    pub fn count(&self) -> usize
        ensures { (result ≡ rule_count self.now.bytes.now) × (result ≤ 252) }
    {
        rule_total(self.bytes)
    }

    // The eight bytes of a rule.
    pub fn place(&self, i: usize) -> &'a [u8]
        requires { i < rule_count self.now.bytes.now }
        ensures { result.now ≡ take 8 (drop (8 * i) self.now.bytes.now) }
    {
        &self.bytes[8 * i..][..8]
    }

    // The job that a rule is of.
    pub fn job(&self, i: usize) -> usize
        requires { i < rule_count self.now.bytes.now }
        ensures { (result ≡ (rule_at self.now.bytes.now i).job) × (result < self.now.jobs) }
    {
        rule_job(self.bytes, i)
    }

    // The move that a rule makes.
    pub fn action(&self, i: usize) -> u16
        requires { i < rule_count self.now.bytes.now }
        ensures { result ≡ (rule_at self.now.bytes.now i).move }
    {
        rule_move(self.bytes, i) as u16
    }

    // The jobs after a rule's move, in the list's own bytes.
    pub fn after(&self, i: usize) -> &'a [u8]
        requires { i < rule_count self.now.bytes.now }
        ensures after { result.now ≡ (rule_at self.now.bytes.now i).after }
        ensures few { length result.now ≤ 4 }
        ensures jobs { all_below self.now.jobs result.now ≡ true }
    {
        rule_after(self.bytes, i)
    }
}

// How many rules a list holds.
#[tactic(auto, unfolding(crate::specs::Places::rule_count))]
pub fn rule_total(rules: &[u8]) -> usize
    ensures { result ≡ rule_count rules.now }
{
    rules.len() / 8
}

// The job that the rule is of.
#[tactic(auto, using(crate::proofs::PlaceLaws::job_at), unfolding(crate::specs::Places::rule_count))]
fn rule_job(rules: &[u8], i: usize) -> usize
    requires { i < rule_count rules.now }
    ensures { IsByte (rule_at rules.now i).job result }
{
    usize::from(rules[8 * i])
}

// The move that the rule makes: its low byte is the second of the place, its high byte the last. Outside this crate no
// function reads a move.
#[tactic(auto, using(crate::proofs::PlaceLaws::move_at), unfolding(crate::specs::Places::rule_count))]
pub fn rule_move(rules: &[u8], i: usize) -> u32
    requires { i < rule_count rules.now }
    ensures { IsMove (rule_at rules.now i).move result }
{
    number(rules[8 * i + 1], rules[8 * i + 7]) as u32
}

// The move of a place by itself.
#[tactic(auto, unfolding(crate::specs::Places::move_in))]
pub fn move_in(place: &[u8]) -> u16
    requires { length place.now ≡ 8 }
    ensures { IsMove (move_in place.now) result }
{
    number(place[1], place[7]) as u16
}

// Gives a place another move.
pub fn set_move(place: &mut [u8], action: u16)
    requires { length place.old ≡ 8 }
    ensures { place.new ≡ with_move action place.old }
{
    let [low, high] = action.to_le_bytes();
    place[1] = low;
    place[7] = high;
}

// Whether the moves of two rules differ in their low bytes, and whether in their high ones: apart, because most moves that differ do so in the low
// byte, and a caller may have other tests to make before the second. Two functions: one with the byte's place as a parameter would say less.
#[tactic(auto, using(crate::proofs::PlaceLaws::low_at), unfolding(crate::specs::Places::rule_count))]
pub fn low_differs(rules: &[u8], i: usize, k: usize) -> bool
    requires { (i < rule_count rules.now) × (k < rule_count rules.now) }
    ensures { result ≡ not (eqb ((rule_at rules.now i).move % 256) ((rule_at rules.now k).move % 256)) }
{
    rules[8 * i + 1] != rules[8 * k + 1]
}

#[tactic(auto, using(crate::proofs::PlaceLaws::high_at), unfolding(crate::specs::Places::rule_count))]
pub fn high_differs(rules: &[u8], i: usize, k: usize) -> bool
    requires { (i < rule_count rules.now) × (k < rule_count rules.now) }
    ensures { result ≡ not (eqb ((rule_at rules.now i).move / 256) ((rule_at rules.now k).move / 256)) }
{
    rules[8 * i + 7] != rules[8 * k + 7]
}

// How many jobs stand after the move.
#[tactic(auto, using(crate::proofs::PlaceLaws::after_length), unfolding(crate::specs::Places::rule_count))]
fn rule_len(rules: &[u8], i: usize) -> usize
    requires { HasPlace rules.now i }
    ensures { IsCount (length (rule_at rules.now i).after) result }
{
    usize::from(rules[8 * i + 2])
}

// The jobs after the move, in the list's own bytes.
#[tactic(auto, unfolding(crate::specs::Places::rule_count))]
fn rule_after(rules: &[u8], i: usize) -> &[u8]
    requires { HasPlace rules.now i }
    ensures { result.now ≡ (rule_at rules.now i).after }
{
    &rules[8 * i + 3..][..rule_len(rules, i)]
}

// Whether every job of a row is below a bound: whether the greatest is. All of it is looked at, so that many places are compared at once.
pub fn all_below(bound: usize, bytes: &[u8]) -> bool
    ensures { result ≡ all_below bound bytes.now }
{
    let mut most = 0;
    for &byte in bytes {
        most = byte.max(most);
    }
    bytes.is_empty() || usize::from(most) < bound
}
