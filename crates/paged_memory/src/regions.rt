//! Where the text and the data of a program begin, and how much of each there may be.

ghost use Rattle.std.specs.Prelude.{◌≤◌, ◌↔◌, IsTrue, length};
ghost use Rattle.paged_memory.specs.Regions.{most_bytes, most_words};

/// The address of the first text page.
pub const TEXT_START: u64 = 0x10000;

/// The address of the first data page.
pub const DATA_START: u64 = 0x10_0000;

/// The words of 64 pages of text.
pub const MOST_WORDS: usize = 64 * 1024;

/// The bytes of 256 pages of data.
pub const MOST_BYTES: usize = 256 * 4096;

/// Whether a memory has room for the words and bytes of a program.
pub fn has_room(words: &[u32], bytes: &[u8]) -> bool
    ensures { IsTrue result ↔ ((length words.now ≤ most_words) × (length bytes.now ≤ most_bytes)) }
{
    has_room_for_words(words) && has_room_for_bytes(bytes)
}

fn has_room_for_words(words: &[u32]) -> bool
    ensures { IsTrue result ↔ (length words.now ≤ most_words) }
{
    words.len() <= MOST_WORDS
}

fn has_room_for_bytes(bytes: &[u8]) -> bool
    ensures { IsTrue result ↔ (length bytes.now ≤ most_bytes) }
{
    bytes.len() <= MOST_BYTES
}
