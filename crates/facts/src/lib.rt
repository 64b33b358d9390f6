// What the rounds look up about the jobs and the rules of a table, worked out once.
#![tactic(auto)]

ghost use Rattle.std.specs.Prelude.{◌≡◌, ◌<◌, get_or, take};
ghost use Rattle.prepare.specs.Prepared.{RowNorms, Chained, Marked, Lowered};
ghost use Rattle.order.specs.Order.{ordered};

use norm::Normed;
use order::order;
use prepare::{chain_rules, lowering_rules, mark_steps, row_norms};
use repeated::repeats;

// What the rounds look up about a table that is lent: for each rule the norm of its row and the next rule of its job, for each job a mark of
// its steps, its first rule and its first norm-lowering rule, and the jobs in order.
#[derive(Drop)]
pub struct Facts<'a> {
    pub table: Normed<'a>,
    pub sums: [u16; 252],
    pub marks: [u64; 24],
    pub first: [u8; 24],
    pub next: [u8; 252],
    pub low: [u8; 24],
    pub order: [u8; 24],
    ghost row_norms: { RowNorms table.rules.now table.norms.now sums },
    ghost chained: { ∥ Chained table.rules.now first next ∥₁ },
    ghost marked: { Marked table.jobs table.rules.now table.norms.now marks },
    ghost lowered: { Lowered table.jobs table.rules.now table.norms.now low },
    ghost ordered_by: { take table.jobs order ≡ ordered table.norms.now table.jobs },
}

impl<'a> Facts<'a> {
    ghost use Rattle.facts.specs.Columns.{FactsAbout};

    // All that is looked up about a table.
    pub fn new(table: &Normed<'a>) -> Facts<'a>
        ensures { FactsAbout table.now.jobs table.now.rules.now table.now.norms.now result }
    {
        let rules = table.list();
        let sums = row_norms(table);
        let mut next = [0u8; 252];
        let first = chain_rules(&rules, &repeats(table.rules), &mut next);
        Facts {
            table: *table,
            sums,
            marks: mark_steps(table, &sums),
            first,
            next,
            low: lowering_rules(table, &sums),
            order: order(table.jobs, table.norms),
        }
    }

    // The norm of a job.
    pub fn norm(&self, job: usize) -> u16
        requires { job < 24 }
        ensures { result ≡ get_or self.now.table.norms.now job 0 }
    {
        self.table.norms[job]
    }

    // The place of a job's first rule.
    pub fn first_rule(&self, job: usize) -> usize
        requires { job < 24 }
        ensures { result ≡ get_or self.now.first job 0 }
    {
        usize::from(self.first[job])
    }

    // The place of a job's first norm-lowering rule.
    pub fn lowering_rule(&self, job: usize) -> usize
        requires { job < 24 }
        ensures { result ≡ get_or self.now.low job 0 }
    {
        usize::from(self.low[job])
    }

    // The job at a place of the order.
    pub fn job_at(&self, place: usize) -> usize
        requires { place < 24 }
        ensures { result ≡ get_or self.now.order place 0 }
    {
        usize::from(self.order[place])
    }
}
