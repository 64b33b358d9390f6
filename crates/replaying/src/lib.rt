// A log replayed on a plan, by what the plan reaches in it.
#![tactic(auto)]

ghost use Rattle.std.specs.Prelude.{◌≡◌, true, ◌≤◌, length, take};
ghost use Rattle.bpa.specs.Plans.{all_below};
ghost use Rattle.rules.specs.Lists.{GoodList};
ghost use Rattle.rules.specs.Places.{table_of};
ghost use Rattle.replaying.specs.Outcomes.{number_of, IsOutcome, IsReplay};

use following::follow;
use levels::fill;
use reach::{Cells, Reach};
use rules::Rules;

// How a log stands to a plan: a complete run of it, what a complete run begins with, or neither, from the move at this place on.
#[derive(Clone, Copy, PartialEq, Eq)]
pub enum Outcome {
    Whole,
    Part,
    Stopped(u8),
}

impl Outcome {
    // The number that the call answers.
    pub fn number(self) -> u16
        ensures { result ≡ number_of self }
    {
        match self {
            Outcome::Whole => 1,
            Outcome::Part => 0,
            Outcome::Stopped(place) => 2 + u16::from(place),
        }
    }
}

// The outcome by what a plan reaches in a log of so many moves: whole if it can be through with none left, else part if it can make all moves.
fn outcome_of(count: usize, reach: Reach) -> Outcome
    requires { (reach.least ≤ count) × (count ≤ 128) }
    ensures { IsOutcome count reach (number_of result) }
{
    if reach.low % 2 == 1 {
        return Outcome::Whole;
    }
    if reach.least == 0 {
        return Outcome::Part;
    }
    Outcome::Stopped(count as u8 - reach.least)
}

// A log replayed on a plan. The empty plan makes no move.
pub fn replay_moves(cells: &mut Cells, rules: &Rules, log: &[u16], plan: &[u8]) -> Outcome
    requires jobs { all_below rules.now.jobs plan.now ≡ true }
    requires short { length log.now ≤ 128 }
    ensures { IsReplay (table_of rules.now.jobs rules.now.bytes.now) plan.now log.now (number_of result) }
{
    if plan.is_empty() {
        if log.is_empty() {
            return Outcome::Whole;
        }
        return Outcome::Stopped(0);
    }
    fill(cells, rules, log);
    outcome_of(log.len(), follow(cells, plan, log.len()))
}
