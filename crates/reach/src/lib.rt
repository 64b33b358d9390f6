// What a plan reaches in a log: the numbers of moves that can be left when it is through, as the bits of two words, and the fewest moves that
// it can leave. A cell of 17 bytes holds such a reach: the low word, the high word, each low byte first, and the fewest moves.
#![tactic(auto)]

ghost use Rattle.std.specs.Prelude.{◌≡◌, ◌*◌, ◌<◌};
ghost use Rattle.area.specs.Areas.{put};
ghost use Rattle.reach.specs.Cells.{reach_in, cell_bytes};
ghost use Rattle.reach.specs.Reaches.{Alone, Joins};

use words::{put_word, word};

// How many cells there are: 129 for each of 24 jobs, one for each number of moves left.
pub const CELLS: usize = 24 * 129;

// The cells, one behind the other. They lie in the caller's area, so they are bytes.
pub type Cells = [u8; 17 * CELLS];

// Two words and not one of 128 bits, whose bits take longer to walk: 290 ns for 32 numbers of each half in place of 190.
#[derive(Clone, Copy)]
pub struct Reach {
    pub low: u64,
    pub high: u64,
    pub least: u8,
}

// The reach in a cell.
#[tactic(auto, unfolding(crate::specs::Cells::reach_in))]
pub fn reach_at(cells: &Cells, cell: usize) -> Reach
    requires { cell < CELLS }
    ensures { result ≡ reach_in cell cells.now }
{
    let at = 17 * cell;
    Reach {
        low: word(cells, at),
        high: word(cells, at + 8),
        least: cells[at + 16],
    }
}

// Puts a reach into a cell.
#[tactic(auto, using(crate::proofs::PutCells::put_cell))]
pub fn put_reach(cells: &mut Cells, cell: usize, reach: Reach)
    requires { cell < CELLS }
    ensures { cells.new ≡ put (17 * cell) (cell_bytes reach) cells.old }
{
    let at = 17 * cell;
    put_word(cells, at, reach.low);
    put_word(cells, at + 8, reach.high);
    cells[at + 16] = reach.least;
}

// The empty plan with so many moves left: it is through.
pub fn through(left: usize) -> Reach
    requires { left < 128 }
    ensures { Alone left result }
{
    if left < 64 {
        return Reach {
            low: 1 << left,
            high: 0,
            least: left as u8,
        };
    }
    Reach {
        low: 0,
        high: 1 << (left - 64),
        least: left as u8,
    }
}

// What either of two reaches has.
pub fn joined(left: Reach, right: Reach) -> Reach
    ensures { Joins left right result }
{
    Reach {
        low: left.low | right.low,
        high: left.high | right.high,
        least: left.least.min(right.least),
    }
}
