// The rule of a job whose run is the earliest, by the chain of its rules.
#![tactic(auto)]

ghost use Rattle.std.specs.Prelude.{ℕ, get_or, ◌≤◌, ◌<◌};
ghost use Rattle.rules.specs.Places.{rule_at, rule_count};
ghost use Rattle.lowering.specs.Lowering.{Picks};
ghost use Rattle.least_moves.specs.Chains.{ChainFrom};

use move_order::comes_before;
use rule_runs::{Kept, make_run};

// The moves of a list's rules are numbers of two bytes. A function of its own: that bytes are below 256 the check knows of those that are a
// parameter, and not of those that are lent in a struct.
fn two_byte_moves(rules: &[u8])
    ensures { (i : ℕ) → i < rule_count rules.now → (rule_at rules.now i).move < 65536 }
{}

// The rule of a job by which its first run begins; the first rule of its chain is given.
pub fn first_rule(kept: &Kept, next: &[u8; 252], start: usize) -> usize
    requires chain_from { ChainFrom kept.now.table.rules.now kept.now.table.norms.now next.now (rule_at kept.now.table.rules.now start).job start }
    requires known { get_or kept.now.table.norms.now (rule_at kept.now.table.rules.now start).job 0 ≤ kept.now.below }
    ensures { Picks kept.now.table.jobs kept.now.table.rules.now kept.now.table.norms.now (rule_at kept.now.table.rules.now start).job result }
{
    let total = kept.table.list().count();
    let mut i = usize::from(next[start]);
    if total <= i {
        return start;
    }
    let mut best = [0u8; 1024];
    let mut made = [0u8; 1024];
    let mut rule = start;
    let n = make_run(kept, start, &mut best, 0);
    two_byte_moves(kept.table.rules);
    // along the chain of its rules, which no range goes over
    while i < total {
        make_run(kept, i, &mut made, 0);
        if comes_before(&made[..n], &best[..n]) {
            best[..n].copy_from_slice(&made[..n]);
            rule = i;
        }
        i = usize::from(next[i]);
    }
    rule
}
