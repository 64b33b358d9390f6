// The table that a call holds with its moves replaced by an alike list.
#![tactic(auto)]

ghost use Rattle.std.specs.Prelude.{◌≡◌, ◌++◌, ◌*◌, ◌≤◌, length, drop, OnOk, OnErr};
ghost use Rattle.answer.specs.Refusals.{refusal_of};
ghost use Rattle.rules.specs.Places.{move_in, with_move};
ghost use Rattle.table.specs.Sources.{table_held};
ghost use Rattle.alike.specs.Alike.{replaced};
ghost use Rattle.alike_list.specs.AlikeLists.{alike_pairs, alike_refusal};
ghost use Rattle.alike_list.specs.PairArrays.{counts_as};
ghost use Rattle.replacing.specs.ReplacedMoves.{with_moves};

use alike_list::{Pairs, read_list};
use answer::Refusal;
use rules::{move_in, set_move};
use table::HeldTable;

// Replaces the move of a place.
fn replace_move(place: &mut [u8], pairs: &Pairs)
    requires { length place.old ≡ 8 }
    ensures { place.new ≡ with_move (counts_as pairs.now.froms pairs.now.tos pairs.now.end (move_in place.old)) place.old }
{
    let action = move_in(place);
    if pairs.stands(action) {
        set_move(place, pairs.to_move(action));
    }
}

// Replaces the moves of so many places.
fn replace_moves(rules: &mut [u8; 2016], count: usize, pairs: &Pairs)
    requires { 8 * count ≤ 2016 }
    ensures { rules.new ≡ with_moves (counts_as pairs.now.froms pairs.now.tos pairs.now.end) count rules.old ++ drop (8 * count) rules.old }
{
    // By places and not by `chunks_exact_mut`, after which no proof knows the bytes.
    for i in 0..count {
        replace_move(&mut rules[8 * i..8 * i + 8], pairs);
    }
}

// Replaces the moves of a table by a list, whatever the table comes from. Refusals 12 and 13 leave it as it is.
pub fn replace(table: &mut HeldTable, list: &[u8]) -> Result<(), Refusal>
    ensures refusal { refusal_of result ≡ alike_refusal list.now }
    ensures replaced { OnOk result (table_held table.new ≡ replaced (alike_pairs list.now) (table_held table.old)) }
    ensures refused { OnErr result (table.new ≡ table.old) }
    ensures jobs { table.new.jobs ≡ table.old.jobs }
    ensures end { table.new.end ≡ table.old.end }
    ensures norms { table.new.norms ≡ table.old.norms }
{
    if list.is_empty() {
        return Ok(());
    }
    let pairs = read_list(list)?;
    replace_moves(&mut table.rules, table.end / 8, &pairs);
    Ok(())
}
