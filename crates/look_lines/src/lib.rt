// The lines that planlook prints, each put together in an area that the caller lends.
#![tactic(auto)]

ghost use Rattle.std.specs.Prelude.{◌≡◌, [], ◌∷◌, ◌+◌, ◌*◌, ◌≤◌, length};
ghost use Rattle.area.specs.Areas.{IsPut};
ghost use Rattle.answer.specs.Refusals.{number};
ghost use Rattle.answer.specs.Answer.{answered};
ghost use Rattle.look_lines.specs.Lines.{IsLine, field, jobs_text, refused_line, table_line, job_line, pair_line, end_line};

use answer::Refusal;
use look_input::Got;

// A word and a number behind it; the place behind both.
fn put_field(line: &mut [u8], at: usize, word: &[u8], value: u64) -> usize
    requires { (at + length word.now) + 20 ≤ length line.old }
    ensures { (result ≤ (at + length word.now) + 20) × IsPut at (field word.now value) line.old result line.new }
{
    let mut text = [0u8; 20];
    let size = io::decimal(value, &mut text);
    let next = area::put(line, at, word);
    area::put(line, next, &text[0..size])
}

// `refused N`.
pub fn refused_line(refusal: Refusal, line: &mut [u8]) -> usize
    requires { 64 ≤ length line.old }
    ensures { IsLine (refused_line (number refusal)) line.old result line.new }
{
    let next = put_field(line, 0, b"refused ", u64::from(refusal.number()));
    area::put(line, next, b"\n")
}

// `table JOBS RULES`.
pub fn table_line(jobs: u64, rules: u64, line: &mut [u8]) -> usize
    requires { 64 ≤ length line.old }
    ensures { IsLine (table_line jobs rules) line.old result line.new }
{
    let first = put_field(line, 0, b"table ", jobs);
    let next = put_field(line, first, b" ", rules);
    area::put(line, next, b"\n")
}

// A job behind a space.
fn put_job(line: &mut [u8], at: usize, job: u8) -> usize
    requires { at + 21 ≤ length line.old }
    ensures { (result ≤ at + 4) × IsPut at (field (32 ∷ []) job) line.old result line.new }
{
    put_field(line, at, b" ", u64::from(job))
}

// Jobs, each behind a space.
fn put_jobs(line: &mut [u8], at: usize, jobs: &[u8]) -> usize
    requires { (at + 4 * length jobs.now) + 17 ≤ length line.old }
    ensures { (result ≤ at + 4 * length jobs.now) × IsPut at (jobs_text jobs.now) line.old result line.new }
{
    let mut next = at;
    for &job in jobs {
        next = put_job(line, next, job);
    }
    next
}

// `job J NORM FORM`.
pub fn job_line(job: u8, norm: u64, form: &[u8], line: &mut [u8]) -> usize
    requires { 80 + 4 * length form.now ≤ length line.old }
    ensures { IsLine (job_line job norm form.now) line.old result line.new }
{
    let first = put_field(line, 0, b"job ", u64::from(job));
    let second = put_field(line, first, b" ", norm);
    let next = put_jobs(line, second, form);
    area::put(line, next, b"\n")
}

// `pair K same`, `pair K apart` or `pair K refused N`.
pub fn pair_line(pair: u64, answer: Result<u16, Refusal>, line: &mut [u8]) -> usize
    requires { 64 ≤ length line.old }
    ensures { IsLine (pair_line pair (answered answer)) line.old result line.new }
{
    let first = put_field(line, 0, b"pair ", pair);
    match answer {
        Err(refusal) => {
            let next = put_field(line, first, b" refused ", u64::from(refusal.number()));
            area::put(line, next, b"\n")
        }
        Ok(0) => area::put(line, first, b" apart\n"),
        Ok(_) => area::put(line, first, b" same\n"),
    }
}

// `cut` or `long`, at which a run ends. Nothing at the end of the input, nor for a whole plan.
pub fn end_line(got: Got, line: &mut [u8]) -> usize
    requires { 64 ≤ length line.old }
    ensures { IsLine (end_line got) line.old result line.new }
{
    match got {
        Got::Cut => area::put(line, 0, b"cut\n"),
        Got::Long => area::put(line, 0, b"long\n"),
        Got::End | Got::Plan(_) => 0,
    }
}
