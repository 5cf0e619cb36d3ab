//! Where an address lies: alignment, and the place of its page in the list.

ghost use Rattle.std.specs.Prelude.{◌≡◌, ◌-◌, ◌<◌, ◌≤◌, ◌/◌, ◌%◌, IfNone, IfSome, IsTrue, Some, ◌↔◌};
ghost use Rattle.paged_memory.specs.Cells.{bytes_of};
ghost use Rattle.paged_memory.specs.Layout.{place_of, IsSized};

use crate::{DATA_START, TEXT_START, Width};

/// The bits that are 0 in each multiple of a width. A table and not a choice of paths, so that a
/// width that is known only when it runs costs no branch.
#[inline(always)]
fn low_bits(width: Width) -> u64
    ensures { result ≡ bytes_of width - 1 }
{
    match width {
        Width::Byte => 0,
        Width::Half => 1,
        Width::Word => 3,
        Width::Double => 7,
    }
}

/// Whether an address is a multiple of a width.
#[inline(always)]
pub fn is_aligned(address: u64, width: Width) -> bool
    ensures { IsTrue result ↔ (address % bytes_of width ≡ 0) }
{
    address & low_bits(width) == 0
}

/// The place of the page that an address lies in, of so many text pages and so many in all.
#[inline(always)]
pub fn find(text: usize, total: usize, address: u64) -> Option<usize>
    requires { IsSized text total }
    ensures place { result ≡ place_of text total (address / 4096) }
    ensures listed { IfSome result (λ p. p < total) }
{
    match find_data(text, total, address) {
        Some(place) => Some(place),
        None => find_text(text, total, address),
    }
}

/// The place of the text page that an address lies in.
#[inline(always)]
pub fn find_text(text: usize, total: usize, address: u64) -> Option<usize>
    requires { IsSized text total }
    ensures found { IfSome result (λ p. (place_of text total (address / 4096) ≡ Some p) × (p < text)) }
    ensures missing { IfNone result (IfSome (place_of text total (address / 4096)) (λ p. text ≤ p)) }
{
    let from_text = (address / 4096).wrapping_sub(TEXT_START / 4096);
    if from_text < text as u64 {
        Some(from_text as usize)
    } else {
        None
    }
}

/// The place of the data page that an address lies in.
#[inline(always)]
pub fn find_data(text: usize, total: usize, address: u64) -> Option<usize>
    requires { IsSized text total }
    ensures found { IfSome result (λ p.
        (place_of text total (address / 4096) ≡ Some p) × (text ≤ p) × (p < total)) }
    ensures missing { IfNone result (IfSome (place_of text total (address / 4096)) (λ p. p < text)) }
{
    let from_data = (address / 4096).wrapping_sub(DATA_START / 4096);
    if from_data < (total - text) as u64 {
        Some(text + from_data as usize)
    } else {
        None
    }
}
