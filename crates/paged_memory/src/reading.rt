//! Fetches, bytes and loads over the list of pages. An aligned access lies within one page.

ghost use Rattle.std.specs.Prelude.{◌≡◌, ◌%◌, length};
ghost use Rattle.paged_memory.specs.Cells.{byte_at, bytes_of, fetch_of, load_of};
ghost use Rattle.paged_memory.specs.Layout.{cells_of, IsSized};

use crate::place::{find, find_text, is_aligned};
use crate::{Fault, Page, Width};

/// The instruction word at an aligned address.
#[inline]
pub fn fetch(pages: &[Page], text: usize, address: u64) -> Result<u32, Fault>
    requires sized { IsSized text (length pages.now) }
    requires aligned { address % 4 ≡ 0 }
    ensures { result ≡ fetch_of (cells_of text pages.now) address }
{
    let Some(place) = find_text(text, pages.len(), address) else {
        return Err(Fault::FetchAccess);
    };
    Ok(pages[place].word((address % 4096) as usize))
}

/// The byte at an address, 0 where none is mapped.
#[inline]
pub fn byte(pages: &[Page], text: usize, address: u64) -> u8
    requires { IsSized text (length pages.now) }
    ensures { result ≡ byte_at (cells_of text pages.now) address }
{
    match find(text, pages.len(), address) {
        Some(place) => pages[place].byte((address % 4096) as usize),
        None => 0,
    }
}

/// The number of a width at an address.
#[inline(always)]
pub fn load(pages: &[Page], text: usize, address: u64, width: Width) -> Result<u64, Fault>
    requires { IsSized text (length pages.now) }
    ensures { result ≡ load_of (cells_of text pages.now) address (bytes_of width) }
{
    if !is_aligned(address, width) {
        return Err(Fault::LoadMisaligned);
    }
    let Some(place) = find(text, pages.len(), address) else {
        return Err(Fault::LoadAccess);
    };
    Ok(pages[place].number((address % 4096) as usize, width))
}
