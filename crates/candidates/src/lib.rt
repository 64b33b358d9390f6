// Jobs that may decompose another: which are likely to, what is asked about a pair of them, and the row in which their tails stand.
#![tactic(auto)]

ghost use Rattle.std.specs.Prelude.{◌≡◌, ◌<◌, ◌↔◌, IsTrue, length};
ghost use Rattle.rows.specs.Rows.{rows_of};
ghost use Rattle.candidates.specs.Candidates.{Likely, CanPair, PairOf, LoweredRow, CanLower};

use facts::Facts;
use fingerprints::Prints;
use rows::Rows;
use rule_filter::Pair;

// Whether job x may decompose job y: it is prime in the new rows, their old rows begin with the same job, and their marks do not show
// steps that differ.
pub fn likely(facts: &Facts, old: &Rows, new: &Rows, y: usize, x: usize) -> bool
    requires { (y < 24) × (x < 24) }
    ensures { IsTrue result ↔ Likely facts.now old.now (rows_of new.now) y x }
{
    new.is_alone(x) && old.bytes[512 * y] == old.bytes[512 * x] && facts.marks[y] == facts.marks[x]
}

// What is asked about y and x, the first of `parts`, with its tail behind it.
pub fn pair_of(facts: &Facts, prints: &Prints, old: &Rows, parts: &[u8], y: usize, x: usize) -> Pair
    requires { CanPair facts.now parts.now y x }
    ensures { PairOf facts.now prints.now old.now parts.now y x result }
{
    let start = 512 * y;
    let len = old.len_of(y);
    Pair {
        forward: true,
        mine: y,
        other: x,
        norm: facts.norm(y),
        gap: facts.norm(y) - facts.norm(x),
        tail: prints.of_plan(&parts[1..]),
        from: start + old.len_of(x).min(len),
        to: start + len,
    }
}

// The jobs after y's first norm-lowering rule, written out by the new rows, with one place free before them. It gives where they end.
pub fn lowered_row(facts: &Facts, new: &Rows, y: usize, out: &mut [u8]) -> usize
    requires can_lower { CanLower facts.now new.now y }
    requires out_len { length out.old ≡ 512 }
    ensures { LoweredRow facts.now (rows_of new.now) y out.new result }
{
    let jobs = facts.table.list().after(facts.lowering_rule(y));
    new.write_expansion(jobs, out, 1)
}
