// The calls of the service. A call gives back a result, or a refusal's number made negative; no call keeps anything for the next.
#![tactic(auto)]

ghost use Rattle.images.specs.ImageCalls.{Read, Written};
ghost use Rattle.plans.specs.PlanCalls.{Normed, Moved, RanFirst};
ghost use Rattle.sameness.specs.SamenessCalls.{Compared, ComparedAlike};
ghost use Rattle.prime_forms.specs.FormCalls.{Formed, FormedAlike};
ghost use Rattle.two_tables.specs.TableCalls.{ComparedTables};
ghost use Rattle.logs.specs.LogCalls.{Replayed};
ghost use Rattle.outcomes.specs.OutcomeCalls.{Determined};
ghost use Rattle.plan_growth.specs.GrowthCalls.{Grown};

// The table of an image: the job count in one byte, then the rules, 8 bytes each.
pub fn gindrazoma_read_image(image: &[u8], out: &mut [u8]) -> i32
    ensures { Read image.now out.old result out.new }
{
    answer::answer(images::read_image(image, out))
}

// The image of a job count and a list of 8-byte rules.
pub fn gindrazoma_write_image(jobs: u32, rules: &[u8], out: &mut [u8]) -> i32
    ensures { Written jobs rules.now out.old result out.new }
{
    answer::answer(images::write_image(jobs, rules, out))
}

// The norm of a plan.
pub fn gindrazoma_plan_norm(image: &[u8], plan: &[u8]) -> i32
    ensures { Normed image.now plan.now result }
{
    answer::answer(plans::plan_norm(image, plan))
}

// The first shortest run of a plan.
pub fn gindrazoma_shortest_run(image: &[u8], plan: &[u8], out: &mut [u8]) -> i32
    ensures { RanFirst image.now plan.now out.old result out.new }
{
    answer::answer(plans::shortest_run(image, plan, out))
}

// The n-th move of a plan, n from 0; 0 is no such move.
pub fn gindrazoma_nth_move(image: &[u8], plan: &[u8], index: u32, out: &mut [u8]) -> i32
    ensures { Moved image.now plan.now index out.old result out.new }
{
    answer::answer(plans::nth_move(image, plan, index, out))
}

// 1 for two plans that are the same, 0 for two that are apart.
pub fn gindrazoma_compare(image: &[u8], left: &[u8], right: &[u8], space: &mut [u8]) -> i32
    ensures { Compared image.now left.now right.now space.old result space.new }
{
    answer::answer(sameness::compare_plans(image, left, right, space))
}

// The prime form of a plan, one byte a job.
pub fn gindrazoma_prime_form(image: &[u8], plan: &[u8], out: &mut [u8], space: &mut [u8]) -> i32
    ensures { Formed image.now plan.now out.old space.old result out.new space.new }
{
    answer::answer(prime_forms::write_form(image, plan, out, space))
}

// 1 for two plans that are the same under an alike list, 0 for two that are apart.
pub fn gindrazoma_compare_alike(
    image: &[u8],
    alike: &[u8],
    left: &[u8],
    right: &[u8],
    space: &mut [u8],
) -> i32
    ensures { ComparedAlike image.now alike.now left.now right.now space.old result space.new }
{
    answer::answer(sameness::compare_plans_alike(image, alike, left, right, space))
}

// The prime form of a plan under an alike list, one byte a job.
pub fn gindrazoma_prime_form_alike(
    image: &[u8],
    alike: &[u8],
    plan: &[u8],
    out: &mut [u8],
    space: &mut [u8],
) -> i32
    ensures { FormedAlike image.now alike.now plan.now out.old space.old result out.new space.new }
{
    answer::answer(prime_forms::write_form_alike(image, alike, plan, out, space))
}

// A log of moves replayed on a plan under an alike list: 1 for whole, 0 for part, else 2 plus the place.
pub fn gindrazoma_replay_log(
    image: &[u8],
    alike: &[u8],
    plan: &[u8],
    log: &[u8],
    space: &mut [u8],
) -> i32
    ensures { Replayed image.now alike.now plan.now log.now space.old result space.new }
{
    answer::answer(logs::replay(image, alike, plan, log, space))
}

// Whether a table under an alike list has no choice of outcome: 1 for yes, 0 for no.
pub fn gindrazoma_deterministic(image: &[u8], alike: &[u8]) -> i32
    ensures { Determined image.now alike.now result }
{
    answer::answer(outcomes::is_deterministic(image, alike))
}

// Whether a plan can become finitely many different plans, and how many jobs it can reach.
pub fn gindrazoma_plan_growth(image: &[u8], plan: &[u8]) -> i32
    ensures { Grown image.now plan.now result }
{
    answer::answer(plan_growth::growth(image, plan))
}

// Whether a plan of one table is bisimilar to a plan of another under an alike list: 1 for same, 0 for apart.
pub fn gindrazoma_compare_tables(
    left_image: &[u8],
    right_image: &[u8],
    alike: &[u8],
    left: &[u8],
    right: &[u8],
    space: &mut [u8],
) -> i32
    ensures { ComparedTables left_image.now right_image.now alike.now left.now right.now space.old result space.new }
{
    answer::answer(two_tables::compare_plans(left_image, right_image, alike, left, right, space))
}
