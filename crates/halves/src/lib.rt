// The rows of all jobs, for the rounds that refine them: the first rows, and new rows that become the old ones.
#![tactic(auto)]

ghost use Rattle.std.specs.Prelude.{◌≡◌, length};
ghost use Rattle.halves.specs.HalvesWritten.{FirstIn, CanKeep, Kept};

use facts::Facts;
use rows::Rows;

// The first rows: each job is as many copies of the first job as its norm. It gives their lengths.
pub fn first_rows(facts: &Facts, rows: &mut [u8]) -> [u16; 24]
    requires { length rows.old ≡ 12288 }
    ensures { FirstIn facts.now result rows.new }
{
    let first = facts.order[0];
    let mut lens = [1; 24];
    for job in 0..facts.table.jobs {
        let start = 512 * job;
        let norm = facts.norm(job);
        let end = start + usize::from(norm);
        rows[start..end].fill(first);
        lens[job] = norm;
    }
    lens
}

// The new rows become the old ones: those that have moved are copied, the others are the same already.
pub fn keep(jobs: usize, new: &Rows, moved: &[bool; 24], old: &mut [u8])
    requires { CanKeep jobs new.now.lens.now new.now.bytes.now moved.now old.old }
    ensures { Kept jobs new.now.lens.now new.now.bytes.now old.old old.new }
{
    for job in 0..jobs {
        if moved[job] {
            area::put(old, 512 * job, new.row(job));
        }
    }
}
