//! Lines with a page.

ghost use Rattle.std.specs.Prelude.{◌≡◌, ◌++◌, ◌<◌, ◌^◌, List, ℕ, IfSome, IsSomeAnd};
ghost use Rattle.checkpoint_file.specs.Lines.{AreBytes, page_line};
ghost use Rattle.checkpoint_file.specs.PageLines.{HasPages, IsNoPage};
ghost use Rattle.checkpoint_file.specs.Steps.{IsStep};

use crate::reading::digits::digits_at;
use crate::reading::fronts::after;
use crate::reading::words::word_at;

/// Where a page's digits are decoded and written again.
#[derive(Drop)]
pub struct PageRoom {
    pub bytes: [u8; 4096],
    pub digits: [u8; 8192],
}

/// A page's line, of which `room` gets the bytes, and what follows.
pub fn page_line_at<'a>(bytes: &'a [u8], room: &mut PageRoom) -> Option<(u64, &'a [u8])>
    ensures found { IfSome result (λ read. bytes.now
        ≡ page_line (record { address = read.0; bytes = room.new.bytes }) ++ read.1.now) }
    ensures fits { IfSome result (λ _. AreBytes 4096 room.new.bytes) }
    ensures only { (address : ℕ) (text rest : List ℕ) → address < 2 ^ 64 → AreBytes 4096 text
        → bytes.now ≡ page_line (record { address = address; bytes = text }) ++ rest
        → IsSomeAnd result (λ read. (read.0 ≡ address) × (room.new.bytes ≡ text) × (read.1.now ≡ rest)) }
{
    let place = after(bytes, b"page ")?;
    let (address, blank) = word_at(place)?;
    let digits = after(blank, b" ")?;
    let end = digits_at(digits, &mut room.bytes, &mut room.digits)?;
    let rest = after(end, b"\n")?;
    Some((address, rest))
}

/// What stands at a place where a page may.
pub enum Step<'a> {
    /// No page.
    End,
    /// A page of this address, and what follows.
    Page(u64, &'a [u8]),
    /// The beginning of a page's line that isn't one, or is of a page out of order.
    Fault,
}

/// The page at the front, if one begins there.
pub fn next_page<'a>(bytes: &'a [u8], least: u128, room: &mut PageRoom) -> Step<'a>
    ensures { IsStep least bytes.now result }
{
    match after(bytes, b"page ") {
        None => Step::End,
        Some(place) => match page_line_at(bytes, room) {
            Some((address, rest)) => {
                if u128::from(address) < least {
                    Step::Fault
                } else {
                    Step::Page(address, rest)
                }
            }
            None => Step::Fault,
        },
    }
}

/// The pages at the front, in order of address, and what follows them.
pub fn pages_at<'a>(bytes: &'a [u8], room: &mut PageRoom) -> Option<&'a [u8]>
    ensures found { IfSome result (λ rest. HasPages 0 bytes.now rest.now) }
    ensures end { IfSome result (λ rest. IsNoPage rest.now) }
    ensures only { (rest : List ℕ) → IsNoPage rest → HasPages 0 bytes.now rest
        → IsSomeAnd result (λ left. left.now ≡ rest) }
{
    let mut rest = bytes;
    let mut least = 0u128;
    loop {
        match next_page(rest, least, room) {
            Step::End => return Some(rest),
            Step::Page(address, next) => {
                least = u128::from(address) + 1;
                rest = next;
            }
            Step::Fault => return None,
        }
    }
}
