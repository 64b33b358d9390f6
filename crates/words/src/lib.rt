// Words: numbers of eight bytes, low byte first.
#![tactic(auto)]

ghost use Rattle.std.specs.Prelude.{◌≡◌, ◌+◌, ◌≤◌, length};
ghost use Rattle.area.specs.Areas.{put};
ghost use Rattle.words.specs.Words.{word_at, word_bytes};

// The number of eight bytes at a place, low byte first.
#[tactic(auto, unfolding(crate::specs::Words::word_at))]
pub fn word(bytes: &[u8], at: usize) -> u64
    requires { at + 8 ≤ length bytes.now }
    ensures { result ≡ word_at at bytes.now }
{
    let word = &bytes[at..at + 8];
    u64::from_le_bytes([
        word[0], word[1], word[2], word[3], word[4], word[5], word[6], word[7],
    ])
}

// Puts a number in eight bytes at a place.
pub fn put_word(bytes: &mut [u8], at: usize, value: u64)
    requires { at + 8 ≤ length bytes.old }
    ensures { bytes.new ≡ put at (word_bytes value) bytes.old }
{
    area::put(bytes, at, &value.to_le_bytes());
}
