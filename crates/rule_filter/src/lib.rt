// Whether two rules may agree, by their moves and by norms and fingerprints of what they leave: a rule of a job Y, and one of a job X with a tail
// behind it.
#![tactic(auto)]

ghost use Rattle.std.specs.Prelude.{◌≡◌, List, ℕ, ◌≤◌, ◌<◌, get_or};
ghost use Rattle.rules.specs.Places.{rule_count};
ghost use Rattle.fingerprints.specs.Fingerprints.{RulePrints};
ghost use Rattle.remainders.specs.Remainders.{LooksUp};
ghost use Rattle.rule_filter.specs.RuleFilter.{PassesEqual, MayAgree, turned};

use fingerprints::{Print, Prints, joined};
use remainders::remainder_norm;
use rules::{high_differs, low_differs};

// The two jobs, of which `mine` asks and `other` answers. If Y asks, it is forward. The norm is that of the job that asks. The gap is the norm of
// the tail, which has a fingerprint by the old rows, and by these rows it stands among them from `from` up to `to`: there Y's row goes on behind X's.
#[derive(Clone, Copy)]
pub struct Pair {
    pub forward: bool,
    pub mine: usize,
    pub other: usize,
    pub norm: u16,
    pub gap: u16,
    pub tail: Print,
    pub from: usize,
    pub to: usize,
}

impl Pair {
    // The same two jobs, of which the other asks.
    pub fn turned(&self) -> Pair
        requires { self.now.gap ≤ self.now.norm }
        ensures { result ≡ turned self.now }
    {
        Pair {
            forward: !self.forward,
            mine: self.other,
            other: self.mine,
            norm: self.norm - self.gap,
            ..*self
        }
    }
}

// Whether what rule r of Y and rule s of X leave have equal fingerprints, or one of them has none.
fn same_print(prints: &Prints, tail: Print, r: usize, s: usize) -> bool
    requires { (r < 252) × (s < 252) }
    ensures { PassesEqual prints.now tail (get_or prints.now.rules r 0) (get_or prints.now.rules s 0) result }
{
    match (prints.of_rule(r), prints.of_rule(s)) {
        (Some(left), Some(right)) => left == joined(right, tail.power, tail.value),
        _ => true,
    }
}

// Whether rule r of Y and rule s of X may agree: their moves are equal, and what they leave has equal norms and no unequal fingerprints. It
// is not expanded for that. Few rules that pass the other tests differ in the high byte of the move, so that it is asked last.
pub fn may_agree(
    rules: &[u8],
    sums: &[u16; 252],
    prints: &Prints,
    pair: &Pair,
    r: usize,
    s: usize,
) -> bool
    requires looks_up { (jobs : ℕ) × ((waiting : List ℕ) × LooksUp jobs rules.now sums.now waiting pair.now.gap) }
    requires rule_prints { RulePrints rules.now prints.now }
    requires are_rules { (r < rule_count rules.now) × (s < rule_count rules.now) }
    ensures { MayAgree rules.now sums.now prints.now pair.now r s result }
{
    !low_differs(rules, r, s)
        && remainder_norm(sums, r, 0) == remainder_norm(sums, s, u64::from(pair.gap))
        && same_print(prints, pair.tail, r, s)
        && !high_differs(rules, r, s)
}
