// Alike lists: their pairs in two arrays, and refusals 12 and 13.
// The arrays are always full, so that all 32 places are compared at once: behind the last from-move the first one stands again, and behind
// the last to-move stand zeros.
#![tactic(auto)]

ghost use Rattle.std.specs.Prelude.{◌≡◌, ◌+◌, ◌<◌, length, take, IfOk};
ghost use Rattle.area.specs.Numbers.{number_at};
ghost use Rattle.answer.specs.Refusals.{refusal_of};
ghost use Rattle.rules.specs.Lists.{IsMove};
ghost use Rattle.alike.specs.Alike.{stands_in};
ghost use Rattle.alike_list.specs.AlikeLists.{alike_pairs, pairs_refusal, alike_refusal};
ghost use Rattle.alike_list.specs.PairArrays.{sum_at, MoveArrays, HoldsPairs};

use answer::Refusal;
use area::number;

// The pairs of a list that refusals 12 and 13 have passed. They stand in the first `end` places, which are 16 or 32.
#[derive(Drop)]
pub struct Pairs {
    pub end: usize,
    pub froms: [u16; 32],
    pub tos: [u16; 32],
    ghost arrays: { MoveArrays froms tos end },
}

impl Pairs {
    // Whether a move is a from-move.
    pub fn stands(&self, action: u16) -> bool
        ensures { result ≡ stands_in self.now.froms action }
    {
        stands(&self.froms, action)
    }

    // The to-move of a from-move, as the sum over the places up to the end: at one place only there is anything to add. Without a branch, so
    // that the places are added up at once.
    pub fn to_move(&self, action: u16) -> u16
        ensures { result ≡ sum_at (take self.now.end self.now.froms) (take self.now.end self.now.tos) action }
    {
        let mut sum: u16 = 0;
        for k in 0..self.end {
            sum += u16::from(self.froms[k] == action) * self.tos[k];
        }
        sum
    }
}

// The move in two bytes of a list, or of a log.
pub fn move_at(list: &[u8], at: usize) -> u16
    requires { at + 1 < length list.now }
    ensures { IsMove (number_at at list.now) result }
{
    number(list[at], list[at + 1]) as u16
}

// Whether a move stands in a row. All places are looked at, so that they are compared at once.
fn stands(row: &[u16; 32], action: u16) -> bool
    ensures { result ≡ stands_in row.now action }
{
    let mut found = false;
    for &known in row {
        if known == action {
            found = true;
        }
    }
    found
}

// The most pairs of a list.
const PAIRS: usize = 32;

// Refusal 12.
fn check_length(list: &[u8]) -> Result<(), Refusal>
    ensures { refusal_of result ≡ pairs_refusal list.now }
{
    if PAIRS < list.len() / 4 || 0 < list.len() % 4 {
        return Err(Refusal::AlikeLength);
    }
    Ok(())
}

// The pairs of a list that is not empty, or refusal 12 or 13.
pub fn read_list(list: &[u8]) -> Result<Pairs, Refusal>
    requires { 0 < length list.now }
    ensures refusal { refusal_of result ≡ alike_refusal list.now }
    ensures pairs { IfOk result (λ p. HoldsPairs (alike_pairs list.now) p.froms p.tos p.end) }
{
    check_length(list)?;
    let count = list.len() / 4;
    let mut froms = [move_at(list, 0); 32];
    let mut tos = [0u16; 32];
    for k in 0..count {
        let from = move_at(list, 4 * k);
        if 0 < k && stands(&froms, from) {
            return Err(Refusal::AlikeClash);
        }
        froms[k] = from;
        tos[k] = move_at(list, 4 * k + 2);
    }
    for &to in &tos[..count] {
        if stands(&froms, to) {
            return Err(Refusal::AlikeClash);
        }
    }
    let end = (count + 15) / 16 * 16;
    Ok(Pairs { end, froms, tos })
}
