// The reader of images: a state that takes one block after the other.
#![tactic(auto)]

ghost use Rattle.std.specs.Prelude.{◌≡◌, ◌+◌, length, get_or};
ghost use Rattle.image.specs.Image.{layout_refusal};
ghost use Rattle.image.specs.Reading.{Takes, Took, HoldsTable};

use image::{BLOCK, RULES};

// The job count, the number of the next block, and the rules so far.
#[derive(Drop)]
pub struct Reader {
    pub jobs: usize,
    pub block: usize,
    pub count: usize,
    pub rules: [u8; 8 * RULES],
}

impl Reader {
    // The state before the first block.
    fn new() -> Reader
        ensures { (result.block ≡ 0) × ((result.count ≡ 0) × (length result.rules ≡ 2016)) }
    {
        Reader {
            jobs: 0,
            block: 0,
            count: 0,
            rules: [0; 8 * RULES],
        }
    }

    // Takes one block and hands the state on, by value (docs/DECISIONS.md, "Forms").
    pub fn take_block(self, block: &[u8]) -> Reader
        requires { Takes self.block self.count self.rules block.now }
        ensures jobs_value { (result.jobs ≡ get_or block.now 0 0) × (result.block ≡ self.block + 1) }
        ensures took { Took self.count self.rules block.now result.count result.rules }
    {
        let more = usize::from(block[1]);
        let mut rules = self.rules;
        let from = 8 * self.count;
        let to = from + 8 * more;
        let end = 2 + 8 * more;
        rules[from..to].copy_from_slice(&block[2..end]);
        Reader {
            jobs: usize::from(block[0]),
            block: self.block + 1,
            count: self.count + more,
            rules,
        }
    }
}

// THE TABLE of an image that refusals 2 to 5 do not meet.
pub fn read(image: &[u8]) -> Reader
    requires { layout_refusal image.now ≡ 0 }
    ensures { HoldsTable image.now result.jobs result.count result.rules }
{
    let (blocks, _) = image.as_chunks::<BLOCK>();
    let mut reader = Reader::new();
    for block in blocks {
        reader = reader.take_block(block);
    }
    reader
}
