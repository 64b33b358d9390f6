// The weight of each job: its norm if it stands in prime forms, that is, if its prime row is the job alone, else 0.
#![tactic(auto)]

ghost use Rattle.std.specs.Prelude.{◌≡◌, ◌<◌, get_or};
ghost use Rattle.rows.specs.Rows.{rows_of};
ghost use Rattle.form_weights.specs.Weighed.{row_weight, Weighed};

use norm::Normed;
use rows::Rows;

// The weight of a job.
fn weight(norms: &[u16; 24], rows: &Rows, job: usize) -> usize
    requires { job < 24 }
    ensures { result ≡ row_weight (get_or norms.now job 0) job (rows_of rows.now job) }
{
    if rows.is_alone(job) {
        return usize::from(norms[job]);
    }
    0
}

// The weights of all jobs.
pub fn weights(table: &Normed, rows: &Rows) -> [usize; 24]
    ensures { Weighed table.now.jobs table.now.norms.now (rows_of rows.now) result }
{
    let mut weights = [0; 24];
    for job in 0..table.jobs {
        weights[job] = weight(table.norms, rows, job);
    }
    weights
}
