// What is asked about two jobs that are equal by the old rows: whether each rule of the one is answered by a rule of the other.

ghost use Rattle.std.specs.Prelude.{◌≡◌};
ghost use Rattle.answering.specs.Agreeing.{Pairing, EqualOld, lead};

use equal_remainders::left_equal;
use facts::Facts;
use fingerprints::Prints;
use remainders::remainder_norm;
use rows::Rows;
use rule_filter::{Pair, may_agree};

// A pair of jobs, X with its tail in `parts`, and all by which rules of the one are compared with rules of the other, lent.
#[derive(Clone, Copy)]
pub struct Question<'a> {
    pub facts: &'a Facts<'a>,
    pub prints: &'a Prints,
    pub old: Rows<'a>,
    pub new: Rows<'a>,
    pub parts: &'a [u8],
    pub pair: Pair,
    ghost pairing: { Pairing facts.now prints.now old new parts.now pair },
    ghost equal_old: { EqualOld old parts.now (lead pair.forward pair.mine pair.other) },
}

// Of a number for the job that asks and one for the other, that for Y and that for X.
fn led(forward: bool, mine: usize, other: usize) -> (usize, usize)
    ensures { (result.0 ≡ lead forward mine other) × (result.1 ≡ lead forward other mine) }
{
    if forward {
        (mine, other)
    } else {
        (other, mine)
    }
}

impl<'a> Question<'a> {
    ghost use Rattle.std.specs.Prelude.{◌≡◌, ◌≤◌, true, ◌↔◌, IsTrue};
    ghost use Rattle.prepare.specs.Prepared.{OnChain};
    ghost use Rattle.facts.specs.Columns.{bytes_in};
    ghost use Rattle.answering.specs.Questions.{Asks, Answers, Agrees, Found, Known, AllAnswered, IsTurned};

    // The question that the other job asks.
    pub fn turned(&self) -> Question<'a>
        requires forward { self.now.pair.forward ≡ true }
        requires gap_bound { self.now.pair.gap ≤ self.now.pair.norm }
        ensures { IsTurned self.now result }
    {
        Question {
            facts: self.facts,
            prints: self.prints,
            old: self.old,
            new: self.new,
            parts: self.parts,
            pair: self.pair.turned(),
        }
    }

    // Whether rule r of the job that asks and rule s of the other agree by the rows that rule r asks for: the new ones if the norm of its job
    // falls, else the old ones.
    fn agrees(&self, r: usize, s: usize) -> bool
        requires asks { Asks self.now r }
        requires answers { Answers self.now s }
        ensures { IsTrue result ↔ Agrees self.now r s }
    {
        let (y, x) = led(self.pair.forward, r, s);
        let table = &self.facts.table;
        if !may_agree(table.rules, &self.facts.sums, self.prints, &self.pair, y, x) {
            return false;
        }
        let falls = remainder_norm(&self.facts.sums, r, 0) < u64::from(self.pair.norm);
        left_equal(
            &table.list(),
            &self.old,
            &self.new,
            self.parts,
            &self.pair,
            falls,
            y,
            x,
        )
    }

    // The place of a rule of the other job that agrees with rule r, if there is one. Rules that answer one another often stand in the same
    // order, so the hint is tried first.
    fn answer_to(&self, r: usize, hint: usize) -> Option<usize>
        requires asks { Asks self.now r }
        requires on_chain { OnChain (bytes_in self.now.facts.now) self.now.pair.other hint }
        ensures { Found self.now r result }
    {
        let total = self.facts.table.list().count();
        if hint < total && self.agrees(r, hint) {
            return Some(hint);
        }
        let mut s = self.facts.first_rule(self.pair.other);
        // the rules of a job are a chain, so no range goes over them
        while s < total {
            if self.agrees(r, s) {
                return Some(s);
            }
            s = usize::from(self.facts.next[s]);
        }
        None
    }

    // Whether each rule of the job that asks is answered. A rule that answers is answered itself, and is not asked when it is its job's turn.
    pub fn all_answered(&self, known: &mut [bool; 252]) -> bool
        requires { Known self.now known.old }
        ensures { AllAnswered self.now known.new result }
    {
        let total = self.facts.table.list().count();
        let mut hint = self.facts.first_rule(self.pair.other);
        let mut r = self.facts.first_rule(self.pair.mine);
        // along the chain of its rules
        while r < total {
            if !known[r] {
                let Some(s) = self.answer_to(r, hint) else {
                    return false;
                };
                known[s] = true;
                hint = usize::from(self.facts.next[s]);
            }
            r = usize::from(self.facts.next[r]);
        }
        true
    }
}
