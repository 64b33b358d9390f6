// Refusals 6 to 9, by the array of a table's norms.
#![tactic(auto)]

ghost use Rattle.std.specs.Prelude.{◌≡◌, true, ◌≤◌, take};
ghost use Rattle.bpa.specs.Plans as plans;
ghost use Rattle.answer.specs.Refusals.{or_else, refusal_of};
ghost use Rattle.refusal.specs.Refusals.{Row, norms_refusal, jobs_refusal, sum_refusal};

use answer::Refusal;
use norm::{Normed, capped_sum};
use rules::all_below;

// Refusals 6 and 7, by the norms of a table's jobs: 6 of any job before 7 of any.
pub fn check_norms(norms: &[u16]) -> Result<(), Refusal>
    ensures { refusal_of result ≡ norms_refusal norms.now }
{
    if norms.contains(&0) {
        return Err(Refusal::NoNorm);
    }
    if norms.iter().any(|&n| 512 < n) {
        return Err(Refusal::JobNormHigh);
    }
    Ok(())
}

// Refusal 8 of a plan.
pub fn check_jobs(table: &Normed, plan: &[u8]) -> Result<(), Refusal>
    ensures { refusal_of result ≡ jobs_refusal table.now.jobs plan.now }
{
    if all_below(table.jobs, plan) {
        return Ok(());
    }
    Err(Refusal::NoSuchJob)
}

// Refusal 9 of a plan. Norms are looked up once 8 is past.
pub fn check_norm(table: &Normed, plan: &[u8]) -> Result<(), Refusal>
    requires { plans.all_below 24 plan.now ≡ true }
    ensures { refusal_of result ≡ sum_refusal table.now.norms.now plan.now }
{
    let within = capped_sum(table.norms, plan) <= 4096;
    if within {
        return Ok(());
    }
    Err(Refusal::PlanNormHigh)
}

// Refusals 8 and 9 of a plan.
pub fn check_plan(table: &Normed, plan: &[u8]) -> Result<(), Refusal>
    ensures { refusal_of result ≡ or_else (jobs_refusal table.now.jobs plan.now) (sum_refusal table.now.norms.now plan.now) }
{
    check_jobs(table, plan)?;
    check_norm(table, plan)
}

// Refusals 8 and 9 of two plans: 8 of either before 9 of either.
pub fn check_plans(table: &Normed, left: &[u8], right: &[u8]) -> Result<(), Refusal>
    ensures { refusal_of result ≡ or_else (jobs_refusal table.now.jobs left.now)
        (or_else (jobs_refusal table.now.jobs right.now)
        (or_else (sum_refusal table.now.norms.now left.now) (sum_refusal table.now.norms.now right.now))) }
{
    check_jobs(table, left)?;
    check_jobs(table, right)?;
    check_norm(table, left)?;
    check_norm(table, right)
}
