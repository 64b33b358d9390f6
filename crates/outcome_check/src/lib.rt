// Whether a list of rules has no choice of outcome, told in one pass. Of the rules that were passed, the first of each job and move is kept, in
// a tree for each of 64 remainders of a job's moves; a rule that begins as a kept one must have its row. A way down a tree goes by the digits of a
// move, so that it has at most eleven rules, whatever the table.
#![tactic(auto)]

ghost use Rattle.std.specs.Prelude.{◌≡◌, ◌<◌, ◌↔◌, IsTrue, IfOk, IfErr};
ghost use Rattle.rules.specs.Places.{rule_at, rule_count, table_of};
ghost use Rattle.rules.specs.Lists.{GoodList};
ghost use Rattle.deterministic.specs.Deterministic.{no_choice};
ghost use Rattle.outcome_check.specs.RuleTrees.{SameStart, Rising, EmptySlot};

use rules::Rules;

// A slot holds a rule, a number below this, or 255 if it is empty.
const RULES: usize = 252;

// Whether two rules have the same job and the same move.
fn same_start(rules: &Rules, i: usize, k: usize) -> bool
    requires { (i < rule_count rules.now.bytes.now) × (k < rule_count rules.now.bytes.now) }
    ensures { IsTrue result ↔ SameStart (rule_at rules.now.bytes.now i) (rule_at rules.now.bytes.now k) }
{
    rules.job(i) == rules.job(k) && rules.action(i) == rules.action(k)
}

// The kept rule that begins as rule i, or the slot at which rule i is to be kept.
fn find(rules: &Rules, slots: &[u8; 2040], i: usize) -> Result<usize, usize>
    requires there { i < rule_count rules.now.bytes.now }
    requires rising { Rising slots.now i }
    ensures earlier { IfOk result (λ k. k < i) }
    ensures same { IfOk result (λ k. SameStart (rule_at rules.now.bytes.now k) (rule_at rules.now.bytes.now i)) }
    ensures free { IfErr result (EmptySlot rules.now.bytes.now slots.now i) }
{
    let action = usize::from(rules.action(i));
    let mut slot = 64 * rules.job(i) + action % 64;
    let mut rest = action / 64;
    // down a tree, a digit of the move a step
    loop {
        let k = usize::from(slots[slot]);
        if RULES <= k {
            return Err(slot);
        }
        if same_start(rules, k, i) {
            return Ok(k);
        }
        slot = 1536 + 2 * k + rest % 2;
        rest /= 2;
    }
}

// Whether rules of one job and one move always have one row.
pub fn is_free_of_choice(rules: &Rules) -> bool
    ensures { result ≡ no_choice (table_of rules.now.jobs rules.now.bytes.now) }
{
    let mut slots = [255u8; 2040];
    for at in 0..rules.count() {
        match find(rules, &slots, at) {
            Ok(before) => {
                if rules.after(before) != rules.after(at) {
                    return false;
                }
            }
            Err(slot) => slots[slot] = at as u8,
        }
    }
    true
}
