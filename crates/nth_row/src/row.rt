// A row of at most 12 jobs.

ghost use Rattle.std.specs.Prelude.{◌≡◌, ◌≤◌, take};

// The first bytes of an array, since no memory is allocated.
#[derive(Clone, Copy)]
pub struct Row {
    pub jobs: [u8; 12],
    pub len: usize,
    ghost short: { len ≤ 12 },
}

impl Row {
    // The jobs alone.
    pub fn as_slice(&self) -> &[u8]
        ensures { result.now ≡ take self.now.len self.now.jobs }
    {
        &self.jobs[..self.len]
    }
}
