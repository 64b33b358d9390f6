// What planlook reads: the image, and pairs of plans.
#![tactic(auto)]

ghost use Rattle.std.specs.Prelude.{◌≡◌, ◌≤◌, length, IfSome};
ghost use Rattle.std.specs.Option.{unwrap_or};
ghost use Rattle.look_input.specs.Input.{block_got, image_got, ImageRead, plan_length, length_got, jobs_got, right_end, Reads, PairRead};

// The descriptor of standard input.
const STANDARD_INPUT: i32 = 0;

// What stands where a plan should begin: four cases, of which three end a run, each with a line of its own.
#[derive(Clone, Copy, Debug, PartialEq, Eq)]
pub enum Got {
    // Nothing.
    End,
    // A part of a plan.
    Cut,
    // A length above 4,096.
    Long,
    // A whole plan of so many jobs.
    Plan(usize),
}

// What stands where the two plans of a pair should be. A right plan is looked for only behind a whole left one.
#[derive(Clone, Copy, Debug, PartialEq, Eq)]
pub struct Pair {
    pub left: Got,
    pub right: Got,
}

// The size of an image by its first block, once `count` bytes of that came. None where that block is not whole or not one of 1 to 4.
#[tactic(auto, unfolding(crate::specs::Input::block_got, crate::specs::Input::image_size))]
fn block_got(count: usize, area: &[u8]) -> Option<usize>
    requires { 512 ≤ length area.now }
    ensures got { unwrap_or result 0 ≡ block_got count area.now }
    ensures within { IfSome result (λ size. (512 ≤ size) × (size ≤ 2048)) }
{
    if count < 512 {
        return None;
    }
    let blocks = area::number_at(508, area);
    if (1..=4).contains(&blocks) {
        Some(512 * blocks)
    } else {
        None
    }
}

// The size of an image once `count` of its bytes came. None where it is not whole.
#[tactic(auto, unfolding(crate::specs::Input::image_got))]
fn image_got(count: usize, size: usize) -> Option<usize>
    ensures { unwrap_or result 0 ≡ image_got count size }
{
    (size <= count).then_some(size)
}

// Reads an image to the front of an area, and gives its size. None where it is not 1 to 4 whole blocks.
pub fn read_image(area: &mut [u8]) -> Option<usize>
    requires { 2048 ≤ length area.old }
    ensures { ImageRead area.new (unwrap_or result 0) }
{
    let first = io::read_full(STANDARD_INPUT, &mut area[0..512]);
    let size = block_got(first, area)?;
    let others = io::read_full(STANDARD_INPUT, &mut area[512..size]);
    image_got(512 + others, size)
}

// What stands where a plan should be, once `count` bytes of its length came.
#[tactic(auto, unfolding(crate::specs::Input::length_got, crate::specs::Input::plan_length))]
fn length_got(count: usize, part: &[u8]) -> Got
    requires { 2 ≤ length part.now }
    ensures { result ≡ length_got count (plan_length part.now) }
{
    match count {
        0 => Got::End,
        1 => Got::Cut,
        _ => {
            let size = area::number_at(0, part);
            if size <= 4096 {
                Got::Plan(size)
            } else {
                Got::Long
            }
        }
    }
}

// What stands where a plan of a size should be, once `count` of its jobs came.
#[tactic(auto, unfolding(crate::specs::Input::jobs_got))]
fn jobs_got(count: usize, size: usize) -> Got
    ensures { result ≡ jobs_got count size }
{
    if count < size {
        Got::Cut
    } else {
        Got::Plan(size)
    }
}

// Reads a plan to its part of the input. Behind a length that is too long nothing is read.
fn read_plan(part: &mut [u8]) -> Got
    requires { 4098 ≤ length part.old }
    ensures { Reads result part.new }
{
    let count = io::read_full(STANDARD_INPUT, &mut part[0..2]);
    let got = length_got(count, part);
    let Got::Plan(size) = got else {
        return got;
    };
    let end = 2 + size;
    let jobs = io::read_full(STANDARD_INPUT, &mut part[2..end]);
    jobs_got(jobs, size)
}

// Reads a pair of plans to an area. Behind a left plan that is not whole nothing is read.
pub fn read_pair(input: &mut [u8]) -> Pair
    requires { 8196 ≤ length input.old }
    ensures { PairRead result.left result.right input.new }
{
    let left = read_plan(&mut input[0..4098]);
    let Got::Plan(_) = left else {
        return Pair {
            left,
            right: Got::End,
        };
    };
    let right = read_plan(&mut input[4098..8196]);
    Pair { left, right }
}

// The right plan of a pair: where it is missing, the pair is cut.
pub fn right_end(right: Got) -> Got
    ensures { result ≡ right_end right }
{
    match right {
        Got::End => Got::Cut,
        Got::Cut | Got::Long | Got::Plan(_) => right,
    }
}
