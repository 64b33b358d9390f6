// Rows of moves, two bytes each, compared in dictionary order of move numbers.
#![tactic(auto)]

ghost use Rattle.std.specs.Prelude.{◌≡◌, ◌↔◌, IsTrue, length};
ghost use Rattle.area.specs.Numbers.{numbers_in};
ghost use Rattle.comparing.specs.Comparisons.{Common};
ghost use Rattle.first_run.specs.FirstRun.{Before};

use area::number_at;

// How many bytes two rows have in common from the front, in steps of 256: many places are compared at once.
fn common_front(left: &[u8], right: &[u8]) -> usize
    requires { length left.now ≡ length right.now }
    ensures { Common left.now right.now result }
{
    let mut i = 0;
    while 256 <= left.len() - i && left[i..i + 256] == right[i..i + 256] {
        i += 256;
    }
    i
}

// Whether a row of moves comes before another of the same length.
pub fn comes_before(left: &[u8], right: &[u8]) -> bool
    requires { length left.now ≡ length right.now }
    ensures { IsTrue result ↔ Before (numbers_in left.now) (numbers_in right.now) }
{
    let front = common_front(left, right);
    let start = (front + comparing::common(&left[front..], &right[front..])) / 2;
    for k in start..left.len() / 2 {
        let x = number_at(2 * k, left);
        let y = number_at(2 * k, right);
        if x != y {
            return x < y;
        }
    }
    false
}
