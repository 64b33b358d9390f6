// A table as a call holds it: its rules as bytes and the norms of its jobs. Each call about plans begins here.
#![tactic(auto)]

mod held;

ghost use Rattle.std.specs.Prelude.{◌≡◌, ◌≤◌, length, take};
ghost use Rattle.answer.specs.Refusals.{refusal_of};
ghost use Rattle.rules.specs.Places.{table_of};
ghost use Rattle.refusal.specs.Refusals.{table_refusal};
ghost use Rattle.image.specs.Image.{layout_refusal, image_refusal, table_in};
ghost use Rattle.image.specs.Writing.{list_refusal, write_refusal};
ghost use Rattle.table.specs.Tables.{HoldsRules};
ghost use Rattle.table.specs.Sources.{Source};

use answer::Refusal;
pub use held::HeldTable;
use image_check::{check_layout, check_list};
use norm::norms_of;
use rules::Rules;

// Refusals 6 and 7, and the table of a list of rules with its norms: here every source of tables ends.
pub fn hold(jobs: usize, end: usize, rules: [u8; 2016]) -> Result<HeldTable, Refusal>
    requires { HoldsRules jobs end rules }
    ensures { Source (table_refusal (table_of jobs (take end rules))) (table_of jobs (take end rules)) result }
{
    let norms = norms_of(&Rules {
        jobs,
        bytes: &rules[..end],
    });
    refusal::check_norms(&norms[..jobs])?;
    Ok(HeldTable {
        jobs,
        end,
        rules,
        norms,
    })
}

// The table of an image: refusals 2 to 7.
pub fn read(image: &[u8]) -> Result<HeldTable, Refusal>
    ensures { Source (image_refusal image.now) (table_in image.now) result }
{
    check_layout(image)?;
    let reader = image_read::read(image);
    hold(reader.jobs, 8 * reader.count, reader.rules)
}

// Refusals 2, 4, 5, 6 and 7 of a job count and a list of rules.
pub fn check_rules(jobs: u32, rules: &[u8]) -> Result<(), Refusal>
    ensures { refusal_of result ≡ write_refusal jobs rules.now }
{
    check_list(jobs, rules)?;
    let jobs = jobs as usize;
    let norms = norms_of(&Rules { jobs, bytes: rules });
    refusal::check_norms(&norms[..jobs])
}
