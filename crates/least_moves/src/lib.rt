// The norm-lowering rules of each job that have the least move, as a chain.
#![tactic(auto)]

ghost use Rattle.std.specs.Prelude.{◌≡◌, ◌↔◌, IsTrue, ℕ, ◌<◌, length};
ghost use Rattle.std.specs.Option.{unwrap_or};
ghost use Rattle.rules.specs.Places.{rule_at, rule_count};
ghost use Rattle.least_moves.specs.Chains.{LowersWithin, Follows, LeastChains};

use norm::Normed;
use rules::Rules;

// Whether a rule lowers the norm of its job by one, and that norm is at most a bound.
#[tactic(auto, using(bpa::proofs::Basics::JobsBelow::below_more))]
fn lowers(table: &Normed, bound: u32, i: usize) -> bool
    requires { i < rule_count table.now.rules.now }
    ensures { IsTrue result ↔ LowersWithin table.now.rules.now table.now.norms.now bound (rule_at table.now.rules.now i).job i }
{
    let list = table.list();
    let norm = u32::from(table.norms[list.job(i)]);
    norm <= bound && norm == 1 + norm::capped_sum(table.norms, list.after(i))
}

// What follows a rule in its chain: the rule that the chain began with so far, if their moves are equal.
fn follower(list: &Rules, i: usize, first: usize) -> Option<usize>
    requires { i < rule_count list.now.bytes.now }
    ensures { Follows list.now.bytes.now i first (unwrap_or result (rule_count list.now.bytes.now)) }
{
    if first < list.count() && list.action(i) == list.action(first) {
        return Some(first);
    }
    None
}

// For each job whose norm is at most a bound its norm-lowering rules with the least move, as a chain: the first of them, and after each the next.
// A chain ends with the number of rules.
pub fn least_chains(table: &Normed, bound: u32, next: &mut [u8; 252]) -> [u8; 24]
    requires { length next.old ≡ 252 }
    ensures chains { LeastChains table.now.rules.now table.now.norms.now bound result next.new }
    ensures moves { (i : ℕ) → i < rule_count table.now.rules.now → (rule_at table.now.rules.now i).move < 65536 }
{
    let list = table.list();
    let total = list.count();
    let mut first = [total as u8; 24];
    for i in (0..total).rev() {
        let action = list.action(i);
        if lowers(table, bound, i) {
            let j = list.job(i);
            let old = usize::from(first[j]);
            if total <= old || action <= list.action(old) {
                next[i] = follower(&list, i, old).unwrap_or(total) as u8;
                first[j] = i as u8;
            }
        }
    }
    first
}
