// What every job reaches in a log, from the log's end to its front: with so many moves left a job reaches what the rows of its rules for the next
// move reach with one move fewer. One level of cells, those for one number of moves left, is filled after the other.
#![tactic(auto)]

ghost use Rattle.std.specs.Prelude.{◌≤◌, ◌<◌, length};
ghost use Rattle.rules.specs.Places.{rule_count};
ghost use Rattle.levels.specs.Levels.{LevelCleared, RuleAdded, RulesAdded, NextLevel, AllLevels};

use following::follow_row;
use reach::{Cells, Reach, joined, put_reach, reach_at};
use rules::Rules;

// Clears the cells of the first jobs for so many moves left: nothing is reached but where they begin.
fn clear_level(cells: &mut Cells, jobs: usize, left: usize)
    requires { (jobs ≤ 24) × (left ≤ 128) }
    ensures { LevelCleared jobs left cells.old cells.new }
{
    for job in 0..jobs {
        let none = Reach {
            low: 0,
            high: 0,
            least: left as u8,
        };
        put_reach(cells, 129 * job + left, none);
    }
}

// Adds what the row of a rule reaches with so many moves left to the cell of its job with one more.
fn add_rule(cells: &mut Cells, rules: &Rules, i: usize, left: usize)
    requires { (i < rule_count rules.now.bytes.now) × (left < 128) }
    ensures { RuleAdded rules.now.bytes.now i left cells.old cells.new }
{
    let cell = 129 * rules.job(i) + left + 1;
    let row = follow_row(cells, rules.after(i), left);
    let both = joined(reach_at(cells, cell), row);
    put_reach(cells, cell, both);
}

// Adds the rules for a move.
fn add_rules(cells: &mut Cells, rules: &Rules, action: u16, left: usize)
    requires { left < 128 }
    ensures { RulesAdded rules.now.jobs rules.now.bytes.now action left cells.old cells.new }
{
    for i in 0..rules.count() {
        if rules.action(i) == action {
            add_rule(cells, rules, i, left);
        }
    }
}

// One level more, for the log's move before so many are left.
fn next_level(cells: &mut Cells, rules: &Rules, action: u16, left: usize)
    requires { left < 128 }
    ensures { NextLevel rules.now.jobs rules.now.bytes.now left action cells.old cells.new }
{
    clear_level(cells, rules.jobs, left + 1);
    add_rules(cells, rules, action, left);
}

// All levels of a log.
pub fn fill(cells: &mut Cells, rules: &Rules, log: &[u16])
    requires { length log.now ≤ 128 }
    ensures { AllLevels rules.now.jobs rules.now.bytes.now log.now cells.old cells.new }
{
    clear_level(cells, rules.jobs, 0);
    for left in 0..log.len() {
        next_level(cells, rules, log[log.len() - 1 - left], left);
    }
}
