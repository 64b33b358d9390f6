// What is worked out once from a table that is lent: the norm of each rule's row, the first norm-lowering rule of each job, the rules of each
// job as a chain, and a mark of the steps of each job.
#![tactic(auto)]

ghost use Rattle.std.specs.Prelude.{◌≡◌, length};
ghost use Rattle.repeated.specs.Repeated.{MarksRepeats};
ghost use Rattle.prepare.specs.Prepared.{ShortRow, RowNorm, RowNorms, Lowered, Chained, Marked};

use norm::Normed;
use rules::Rules;

// The norm of a row of at most four jobs.
fn row_norm(norms: &[u16; 24], row: &[u8]) -> u16
    requires { ShortRow norms.now row.now }
    ensures { RowNorm norms.now row.now result }
{
    norm::capped_sum(norms, row) as u16
}

// The norm of the jobs after each rule.
pub fn row_norms(table: &Normed) -> [u16; 252]
    ensures { RowNorms table.now.rules.now table.now.norms.now result }
{
    let rules = table.list();
    let mut sums = [0u16; 252];
    for i in 0..rules.count() {
        sums[i] = row_norm(table.norms, rules.after(i));
    }
    sums
}

// The position of each job's first norm-lowering rule.
pub fn lowering_rules(table: &Normed, sums: &[u16; 252]) -> [u8; 24]
    requires { RowNorms table.now.rules.now table.now.norms.now sums.now }
    ensures { Lowered table.now.jobs table.now.rules.now table.now.norms.now result }
{
    let rules = table.list();
    let total = rules.count();
    let mut low = [total as u8; 24];
    for i in (0..total).rev() {
        let job = rules.job(i);
        if table.norms[job] == sums[i] + 1 {
            low[job] = i as u8;
        }
    }
    low
}

// The rules of each job as a chain: the first rule of each job, and after each rule the next of its job. Rules that are marked because
// they are written twice are left out.
pub fn chain_rules(rules: &Rules, repeated: &[bool; 252], next: &mut [u8; 252]) -> [u8; 24]
    requires repeats_marked { MarksRepeats rules.now.bytes.now repeated.now }
    requires next_len { length next.old ≡ 252 }
    ensures { Chained rules.now.bytes.now result next.new }
{
    let total = rules.count();
    let mut first = [total as u8; 24];
    for i in (0..total).rev() {
        let job = rules.job(i);
        next[i] = first[job];
        if !repeated[i] {
            first[job] = i as u8;
        }
    }
    first
}

// A mark for each job, of the moves that its rules make and of how each changes the norm: jobs with the same steps have the same mark.
pub fn mark_steps(table: &Normed, sums: &[u16; 252]) -> [u64; 24]
    requires { RowNorms table.now.rules.now table.now.norms.now sums.now }
    ensures { Marked table.now.jobs table.now.rules.now table.now.norms.now result }
{
    let rules = table.list();
    let mut marks = [0u64; 24];
    for i in (0..rules.count()).rev() {
        let job = rules.job(i);
        let change = u32::from(sums[i] + 512 - table.norms[job]);
        let action = u32::from(rules.action(i));
        marks[job] |= 1 << ((action + action / 256 + 11 * change) % 64);
    }
    marks
}
