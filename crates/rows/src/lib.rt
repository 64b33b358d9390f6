// Rows of jobs, 512 bytes for each of up to 24 jobs.
#![tactic(auto)]

ghost use Rattle.std.specs.Prelude.{◌≡◌, ◌∷◌, [], ◌+◌, ◌<◌, ◌≤◌, ◌↔◌, IsTrue, length, get_or};
ghost use Rattle.area.specs.Areas.{IsPut};
ghost use Rattle.bpa.specs.Method.{expand};
ghost use Rattle.rows.specs.Region.{row, Readable, HasRow};
ghost use Rattle.rows.specs.Answers.{Decides, IsLesser, IsLen};

// Rows of jobs and a table of their lengths, lent: the first bytes of the 512 of a job are its row.
#[derive(Clone, Copy)]
pub struct Rows<'a> {
    pub bytes: &'a [u8],
    pub lens: &'a [u16; 24],
    ghost size: { length bytes.now ≡ 12288 },
}

impl<'a> Rows<'a> {
    ghost use Rattle.rows.specs.Rows.{rows_of};

    // The row of a job.
    #[tactic(auto, unfolding(crate::specs::Region::row))]
    pub fn row(&self, job: usize) -> &'a [u8]
        requires is_job { job < 24 }
        requires short { get_or self.now.lens.now job 0 ≤ 512 }
        ensures { result.now ≡ rows_of self.now job }
    {
        &self.bytes[512 * job..][..self.len_of(job)]
    }

    // The length of a job's row.
    pub fn len_of(&self, job: usize) -> usize
        requires { job < 24 }
        ensures is { result ≡ get_or self.now.lens.now job 0 }
        ensures small { result < 65536 }
    {
        usize::from(self.lens[job])
    }

    // Whether the row of a job is the job alone.
    #[tactic(auto, using(crate::proofs::JobsAlone::alone_length), unfolding(crate::specs::Region::row))]
    pub fn is_alone(&self, job: usize) -> bool
        requires { job < 24 }
        ensures { IsTrue result ↔ (rows_of self.now job ≡ job ∷ []) }
    {
        self.lens[job] == 1 && usize::from(self.bytes[512 * job]) == job
    }

    // Writes the rows of a plan's jobs one behind the other, from a place on. It gives the place behind them.
    pub fn write_expansion(&self, plan: &[u8], out: &mut [u8], at: usize) -> usize
        requires readable { Readable self.now.lens.now self.now.bytes.now plan.now }
        requires plan_in_bounds { at + length (expand (rows_of self.now) plan.now) ≤ length out.old }
        ensures { IsPut at (expand (rows_of self.now) plan.now) out.old result out.new }
    {
        let mut end = at;
        for &job in plan {
            end = area::put(out, end, self.row(usize::from(job)));
        }
        end
    }
}

// The leftmost place in which two plans differ: none, one plan ends there, or two jobs.
#[derive(Drop)]
pub enum Difference {
    Equal,
    Ends,
    Differ(u8, u8),
}
