// The run by a rule: its move, and then the first runs of jobs of lower norm. Runs of up to 85 moves stand in rows; a longer one is put together
// from them.
#![tactic(auto)]

ghost use Rattle.std.specs.Prelude.{◌+◌, ◌*◌, ◌≤◌, ◌<◌, length, get_or};
ghost use Rattle.area.specs.Areas.{IsPut};
ghost use Rattle.area.specs.Numbers.{all_low_first};
ghost use Rattle.rules.specs.Places.{rule_at, rule_count};
ghost use Rattle.lowering.specs.Lowering.{Lowers, run_by, Chosen};
ghost use Rattle.rule_runs.specs.Stacks.{Pushed};

use norm::Normed;
use rules::Rules;

// The most moves of a run that is kept as a row.
pub const KEPT: usize = 85;

// What is known of the jobs of a table whose norm is below a bound, lent: the rule by which the first run of each begins, and the rows of the
// short ones, which are 24 rows of 170 bytes.
#[derive(Clone, Copy)]
pub struct Kept<'a> {
    pub table: Normed<'a>,
    pub below: u32,
    pub low: &'a [u8; 24],
    pub rows: &'a [u8],
    ghost chosen: { Chosen table.jobs table.rules.now table.norms.now low.now rows.now below },
}

// The jobs after a rule, put before those on a stack. It gives the stack's new top.
fn push(list: &Rules, rule: usize, stack: &mut [u8], top: usize) -> usize
    requires inside { rule < rule_count list.now.bytes.now }
    requires rule_len_bound { length (rule_at list.now.bytes.now rule).after ≤ top }
    requires top_in_bounds { top ≤ length stack.old }
    ensures { Pushed (rule_at list.now.bytes.now rule).after stack.old top result stack.new }
{
    let after = list.after(rule);
    let to = top - after.len();
    area::put(stack, to, after);
    to
}

// The run by a rule, two bytes a move, from a place on. It gives the place behind it. The jobs still to be run stand at the end of a stack: they
// are no more than their norm.
pub fn make_run(kept: &Kept, rule: usize, made: &mut [u8], at: usize) -> usize
    requires lowers { Lowers kept.now.table.rules.now kept.now.table.norms.now (rule_at kept.now.table.rules.now rule).job rule }
    requires known { get_or kept.now.table.norms.now (rule_at kept.now.table.rules.now rule).job 0 ≤ kept.now.below }
    requires room { at + 2 * get_or kept.now.table.norms.now (rule_at kept.now.table.rules.now rule).job 0 ≤ length made.old }
    ensures { IsPut at (all_low_first (run_by kept.now.table.jobs kept.now.table.rules.now rule)) made.old result made.new }
{
    let list = kept.table.list();
    let mut stack = [0u8; 512];
    let mut top = push(&list, rule, &mut stack, 512);
    area::put_number(usize::from(list.action(rule)), at, made);
    let mut to = at + 2;
    // jobs are taken from the stack and put on it
    while top < 512 {
        let job = usize::from(stack[top]);
        top += 1;
        let n = usize::from(kept.table.norms[job]);
        if n <= KEPT {
            let start = 170 * job;
            to = area::put(made, to, &kept.rows[start..start + 2 * n]);
        } else {
            let next = usize::from(kept.low[job]);
            area::put_number(usize::from(list.action(next)), to, made);
            to += 2;
            top = push(&list, next, &mut stack, top);
        }
    }
    to
}
