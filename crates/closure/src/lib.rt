// The jobs that are reached from some jobs: theirs, and those in the rows of each that is reached.
#![tactic(auto)]

ghost use Rattle.std.specs.Prelude.{◌<◌};
ghost use Rattle.bits.specs.Bits.{JobBits};
ghost use Rattle.closure.specs.Linked.{Linked, SmallRows};

// Of the jobs that are pending the lowest goes next: the jobs in its rows are reached, and those of them that were not yet are pending. The loop
// walks bits.
pub fn closure(rows: &[u32; 24], from: u32) -> u32
    requires small_rows { SmallRows rows.now }
    requires from_bound { from < 16777216 }
    ensures { JobBits result (Linked rows.now from) }
{
    let mut reached = from;
    let mut pending = from;
    while 0 < pending {
        let job = pending.trailing_zeros();
        let all = reached | rows[job as usize];
        pending = (pending - (1 << job)) + (all - reached);
        reached = all;
    }
    reached
}
