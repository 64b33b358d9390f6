// Logs: refusal 11, and the moves of a log, each as what it counts as by an alike list.
#![tactic(auto)]

ghost use Rattle.std.specs.Prelude.{◌≡◌, ◌≤◌, length};
ghost use Rattle.answer.specs.Refusals.{refusal_of};
ghost use Rattle.alike.specs.Alike.{replace};
ghost use Rattle.alike_list.specs.AlikeLists.{alike_pairs};
ghost use Rattle.log_moves.specs.Logs.{log_refusal, HoldsLog};

use alike_list::move_at;
use answer::Refusal;

// The most moves of a log.
const MOVES: usize = 128;

// Refusal 11.
pub fn check(log: &[u8]) -> Result<(), Refusal>
    ensures { refusal_of result ≡ log_refusal log.now }
{
    if MOVES < log.len() / 2 || 0 < log.len() % 2 {
        return Err(Refusal::LogLength);
    }
    Ok(())
}

// What a move counts as by an alike list: the to-move of the pair whose from-move it is, and itself if there is none.
fn counts_as(alike: &[u8], action: u16) -> u16
    ensures { result ≡ replace (alike_pairs alike.now) action }
{
    for pair in alike.chunks_exact(4) {
        if move_at(pair, 0) == action {
            return move_at(pair, 2);
        }
    }
    action
}

// The moves of a log at the front of an array.
pub fn counted_moves(alike: &[u8], log: &[u8]) -> [u16; 128]
    requires { length log.now ≤ 256 }
    ensures { HoldsLog alike.now log.now result }
{
    let mut moves = [0u16; 128];
    for k in 0..log.len() / 2 {
        moves[k] = counts_as(alike, move_at(log, 2 * k));
    }
    moves
}
