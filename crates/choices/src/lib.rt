// The rule by which the first shortest run of each job begins. Jobs are gone through by rising norm: a run by a rule is its move and then the
// first runs of jobs of lower norm, which are known by then.
#![tactic(auto)]

ghost use Rattle.std.specs.Prelude.{◌≡◌, suc, length, get_or};
ghost use Rattle.rules.specs.Places.{rule_at};
ghost use Rattle.lowering.specs.Lowering.{Lowers, Chosen};
ghost use Rattle.choices.specs.Choices.{Keeps};

use norm::Normed;
use rule_runs::{KEPT, Kept, make_run};

// The run by a rule of a short job, as its row.
#[tactic(auto, using(crate::proofs::KeptRows::alone_kept, crate::proofs::KeptRows::run_kept, crate::proofs::KeptRows::made_length))]
fn keep_row(table: &Normed, low: &[u8; 24], rule: usize, rows: &mut [u8])
    requires lowers { Lowers table.now.rules.now table.now.norms.now (rule_at table.now.rules.now rule).job rule }
    requires chosen { Chosen table.now.jobs table.now.rules.now table.now.norms.now low.now rows.old (get_or table.now.norms.now (rule_at table.now.rules.now rule).job 0) }
    ensures { Keeps table.now.jobs table.now.rules.now table.now.norms.now (rule_at table.now.rules.now rule).job rule rows.old rows.new }
{
    let list = table.list();
    let job = list.job(rule);
    let norm = table.norms[job];
    if KEPT < usize::from(norm) {
        return;
    }
    if norm == 1 {
        area::put_number(usize::from(list.action(rule)), 170 * job, rows);
        return;
    }
    let mut made = [0u8; 170];
    let kept = Kept {
        table: *table,
        below: u32::from(norm),
        low,
        rows,
    };
    let n = make_run(&kept, rule, &mut made, 0);
    area::put(rows, 170 * job, &made[..n]);
}

// The choices of all jobs whose norm is at most a bound, and the rows of those that are short.
pub fn choose(table: &Normed, bound: u32, rows: &mut [u8]) -> [u8; 24]
    requires { length rows.old ≡ 4080 }
    ensures { Chosen table.now.jobs table.now.rules.now table.now.norms.now result rows.new (suc bound) }
{
    let mut next = [0u8; 252];
    let first = least_moves::least_chains(table, bound, &mut next);
    let order = order::order(table.jobs, table.norms);
    let mut low = [0u8; 24];
    for &job in &order[..table.jobs] {
        let job = usize::from(job);
        let norm = u32::from(table.norms[job]);
        if bound < norm {
            break;
        }
        let kept = Kept {
            table: *table,
            below: norm,
            low: &low,
            rows,
        };
        let rule = earliest_rule::first_rule(&kept, &next, usize::from(first[job]));
        keep_row(table, &low, rule, rows);
        low[job] = rule as u8;
    }
    low
}
