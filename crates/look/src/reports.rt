// What the library answers, as lines.
ghost use Rattle.std.specs.Prelude.{◌≤◌, length};
ghost use Rattle.look.specs.Reports.{TableReport, JobReport, PairReport, NextLine};

use look_input::Got;

// How many jobs are to be shown, and the size of the first line.
#[derive(Clone, Copy, Debug, PartialEq, Eq)]
pub struct First {
    pub jobs: u8,
    pub size: usize,
}

// The size of a pair's line, and whether another pair may follow.
#[derive(Clone, Copy, Debug, PartialEq, Eq)]
pub struct Next {
    pub size: usize,
    pub again: bool,
}

// The first line: the table's size, or the refusal.
pub fn table_report(image: &[u8], line: &mut [u8]) -> First
    requires { 64 ≤ length line.old }
    ensures { TableReport image.now line.old result.jobs result.size line.new }
{
    match table::read(image) {
        Ok(held) => {
            let table = held.normed();
            First {
                jobs: table.jobs as u8,
                size: look_lines::table_line(table.jobs as u64, table.list().count() as u64, line),
            }
        }
        Err(refusal) => First {
            jobs: 0,
            size: look_lines::refused_line(refusal, line),
        },
    }
}

// The line of a job. A norm is at most 512, and a prime form no longer.
pub fn job_report(image: &[u8], job: u8, line: &mut [u8]) -> usize
    requires { 2128 ≤ length line.old }
    ensures { JobReport image.now job line.old result line.new }
{
    let mut form = [0u8; 512];
    let mut space = [0u8; 65536];
    let plan = [job];
    let norm = plans::plan_norm(image, &plan).unwrap_or(0);
    let answer = prime_forms::write_form(image, &plan, &mut form, &mut space);
    let size = usize::from(answer.unwrap_or(0));
    look_lines::job_line(job, u64::from(norm), &form[0..size], line)
}

// The line of a pair.
pub fn pair_report(image: &[u8], pair: u64, left: &[u8], right: &[u8], line: &mut [u8]) -> usize
    requires { 64 ≤ length line.old }
    ensures { PairReport image.now pair left.now right.now line.old result line.new }
{
    let mut space = [0u8; 65536];
    let answer = sameness::compare_plans(image, left, right, &mut space);
    look_lines::pair_line(pair, answer, line)
}

// Reads the next pair, and puts its line: what comparing its plans answers, or the word at which the run ends.
pub fn next_line(image: &[u8], pair: u64, input: &mut [u8], line: &mut [u8]) -> Next
    requires { (8196 ≤ length input.old) × (64 ≤ length line.old) }
    ensures { NextLine image.now pair input.new line.old result.size result.again line.new }
{
    let read = look_input::read_pair(input);
    let Got::Plan(jobs) = read.left else {
        let size = look_lines::end_line(read.left, line);
        return Next { size, again: false };
    };
    let Got::Plan(others) = read.right else {
        let size = look_lines::end_line(look_input::right_end(read.right), line);
        return Next { size, again: false };
    };
    let end = 2 + jobs;
    let stop = 4100 + others;
    let size = pair_report(image, pair, &input[2..end], &input[4100..stop], line);
    Next { size, again: true }
}
