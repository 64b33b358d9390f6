// Whether the rules of two jobs answer each other: those of a job Y, and those of a job X with a tail behind it. Two rules agree by some
// rows if their moves are equal and what they leave is equal by the rows: by the new rows if the norm falls, else by the old ones.
#![tactic(auto)]

mod question;

ghost use Rattle.std.specs.Prelude.{◌≡◌, ◌≤◌, true, ◌↔◌, IsTrue};
ghost use Rattle.answering.specs.Agreeing.{EqualOld, Pairing, OldPair, PairMatches};

use facts::Facts;
use fingerprints::{Prints, joined};
use form::equal_forms;
use question::Question;
use rows::Rows;
use rule_filter::Pair;

// Whether Y, and X with its tail, are equal by the old rows. Unequal fingerprints tell it without a look at the rows.
fn equal_by_old(prints: &Prints, old: &Rows, parts: &[u8], pair: &Pair) -> bool
    requires { OldPair prints.now old.now parts.now pair.now }
    ensures { IsTrue result ↔ EqualOld old.now parts.now pair.now.mine }
{
    let with_tail = joined(prints.values[pair.other], pair.tail.power, pair.tail.value);
    prints.values[pair.mine] == with_tail && equal_forms(old, &[pair.mine as u8], parts, &[])
}

// Whether X with its tail fits Y: they are equal by the old rows, and their rules answer each other both ways.
pub fn fits(
    facts: &Facts,
    prints: &Prints,
    old: &Rows,
    new: &Rows,
    parts: &[u8],
    pair: &Pair,
) -> bool
    requires pairing { Pairing facts.now prints.now old.now new.now parts.now pair.now }
    requires old_pair { OldPair prints.now old.now parts.now pair.now }
    requires forward { pair.now.forward ≡ true }
    requires gap_bound { pair.now.gap ≤ pair.now.norm }
    ensures { IsTrue result ↔ PairMatches facts.now old.now new.now parts.now pair.now }
{
    if !equal_by_old(prints, old, parts, pair) {
        return false;
    }
    let forth = Question {
        facts: facts,
        prints: prints,
        old: *old,
        new: *new,
        parts: parts,
        pair: *pair,
    };
    let mut known = [false; 252];
    if !forth.all_answered(&mut known) {
        return false;
    }
    let back = forth.turned();
    back.all_answered(&mut known)
}
