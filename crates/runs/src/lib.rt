// The first shortest run of a plan: the first runs of its jobs, one behind the other.
#![tactic(auto)]

ghost use Rattle.std.specs.Prelude.{◌≡◌, true, ◌++◌, ◌+◌, ◌*◌, ◌≤◌, ◌<◌, length, take, drop};
ghost use Rattle.area.specs.Numbers.{all_low_first};
ghost use Rattle.answer.specs.Answer.{Writes, answered};
ghost use Rattle.bpa.specs.Plans.{over};
ghost use Rattle.bpa.specs.Norms.{sum_of, norm};
ghost use Rattle.rules.specs.Places.{table_of};
ghost use Rattle.norm.specs.NormArrays.{GoodNorms};
ghost use Rattle.first_run.specs.FirstRun.{first_run};

use answer::Refusal;
use norm::Normed;
use rule_runs::{KEPT, Kept, make_run};

// A row of bytes put into an area at a place. A short one is put as 16 bytes, whatever its length, if there is room: what then stands behind it
// is left open.
#[tactic(auto, using(crate::proofs::PutRows::row_front))]
fn put_row(rows: &[u8], start: usize, len: usize, out: &mut [u8], at: usize)
    requires { (start + len ≤ length rows.now) × (start + 16 ≤ length rows.now) × (at + len ≤ length out.old) }
    ensures { take (at + len) out.new ≡ take at out.old ++ take len (drop start rows.now) }
{
    if len <= 16 && 16 <= out.len() - at {
        out[at..at + 16].copy_from_slice(&rows[start..start + 16]);
    } else {
        out[at..at + len].copy_from_slice(&rows[start..start + len]);
    }
}

// The first run of a plan, two bytes a move, in an area as long as it is.
fn write_run(kept: &Kept, plan: &[u8], out: &mut [u8])
    requires known { sum_of kept.now.table.norms.now plan.now < kept.now.below }
    requires plan_value { over (table_of kept.now.table.jobs kept.now.table.rules.now) plan.now ≡ true }
    requires out_len { length out.old ≡ 2 * sum_of kept.now.table.norms.now plan.now }
    ensures { out.new ≡ all_low_first (first_run (table_of kept.now.table.jobs kept.now.table.rules.now) plan.now) }
{
    let mut to = 0;
    for &job in plan {
        let job = usize::from(job);
        let n = usize::from(kept.table.norms[job]);
        if n <= KEPT {
            put_row(kept.rows, 170 * job, 2 * n, out, to);
            to += 2 * n;
        } else {
            to = make_run(kept, usize::from(kept.low[job]), out, to);
        }
    }
}

// The first shortest run of an accepted plan, two bytes a move. Choices are made for jobs of at most the plan's norm: no other stands in it.
// It is never inlined: its rows would stand on the stack beside what the loading of a table needs there.
#[inline(never)]
pub fn first_run(table: &Normed, plan: &[u8], out: &mut [u8]) -> Result<u16, Refusal>
    requires plan_value { over (table_of table.now.jobs table.now.rules.now) plan.now ≡ true }
    requires plan_bound { norm (table_of table.now.jobs table.now.rules.now) plan.now ≤ 4096 }
    ensures { Writes 0 (all_low_first (first_run (table_of table.now.jobs table.now.rules.now) plan.now)) out.old (answered result) out.new }
{
    let norm = norm::capped_sum(table.norms, plan);
    let need = 2 * (norm as usize);
    if out.len() < need {
        return Err(Refusal::OutputShort);
    }
    let mut rows = [0u8; 4080];
    let low = choices::choose(table, norm, &mut rows);
    let kept = Kept {
        table: *table,
        below: norm + 1,
        low: &low,
        rows: &rows,
    };
    write_run(&kept, plan, &mut out[..need]);
    Ok(need as u16)
}
