// The program planlook: an image and pairs of plans from standard input; a line for the table, for each job and for each
// pair to standard output. What is put into a line, and of which bytes that were read, is proved; that it is written, no
// contract can say.
#![tactic(auto)]

mod reports;

// The descriptor of standard output. Lines go out by the crate `io`, from the area in which each is proved (TableReport, JobReport, NextLine):
// no contract says what `println!` prints.
const STANDARD_OUTPUT: i32 = 1;

// The whole run.
pub fn run() {
    let mut image = [0u8; 2048];
    let size = look_input::read_image(&mut image).unwrap_or(0);
    if show_table(&image[0..size]) {
        show_pairs(&image[0..size]);
    }
}

// The table and its jobs, or the refusal. Says whether pairs may follow.
fn show_table(image: &[u8]) -> bool {
    let mut line = [0u8; 64];
    let first = reports::table_report(image, &mut line);
    io::write_all(STANDARD_OUTPUT, &line[0..first.size]) && show_jobs(image, first.jobs)
}

// All jobs. Says whether there are any and each was written.
fn show_jobs(image: &[u8], jobs: u8) -> bool {
    for job in 0..jobs {
        if !show_job(image, job) {
            return false;
        }
    }
    jobs != 0
}

// A job. Says whether it was written.
fn show_job(image: &[u8], job: u8) -> bool {
    let mut line = [0u8; 2128];
    let size = reports::job_report(image, job, &mut line);
    io::write_all(STANDARD_OUTPUT, &line[0..size])
}

// Pairs up to the end of the input. A proved loop has to end, so it counts to a number that no run reaches.
fn show_pairs(image: &[u8]) {
    for pair in 1..u64::MAX {
        if !show_pair(image, pair) {
            return;
        }
    }
}

// The next pair, if there is one. Says whether another may follow.
fn show_pair(image: &[u8], pair: u64) -> bool {
    let mut input = [0u8; 8196];
    let mut line = [0u8; 64];
    let next = reports::next_line(image, pair, &mut input, &mut line);
    io::write_all(STANDARD_OUTPUT, &line[0..next.size]) && next.again
}
