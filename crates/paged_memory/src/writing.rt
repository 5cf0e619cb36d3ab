//! Stores over the list of pages. An aligned access lies within one page.

ghost use Rattle.std.specs.Prelude.{◌≡◌, ℕ, length, IfErr, OnOk, Ok, Err};
ghost use Rattle.std.specs.Result.{result_err};
ghost use Rattle.paged_memory.specs.Cells.{bytes_of, store_of};
ghost use Rattle.paged_memory.specs.Layout.{cells_of, IsSized, IsSound};
ghost use Rattle.paged_memory.specs.Stored.{IsFetchedAlike, IsStored};

use crate::place::{find_data, is_aligned};
use crate::{Fault, Page, Width};

/// Puts the lowest bytes of a number at an address.
#[inline(always)]
pub fn store(
    pages: &mut [Page],
    text: usize,
    address: u64,
    width: Width,
    value: u64,
) -> Result<(), Fault>
    requires { IsSound text pages.old }
    ensures ok { OnOk result
        (store_of (cells_of text pages.old) address (bytes_of width) value
        ≡ Ok (cells_of text pages.new)) }
    ensures stored { OnOk result
        (IsStored (cells_of text pages.old) (cells_of text pages.new) address (bytes_of width) value) }
    ensures fetched { OnOk result (IsFetchedAlike (cells_of text pages.old) (cells_of text pages.new)) }
    ensures sound { OnOk result (IsSound text pages.new) }
    ensures err { IfErr result (λ e.
        (store_of (cells_of text pages.old) address (bytes_of width) value ≡ Err e)
        × (pages.new ≡ pages.old)) }
{
    if !is_aligned(address, width) {
        return Err(Fault::StoreMisaligned);
    }
    let Some(place) = find_data(text, pages.len(), address) else {
        return Err(Fault::StoreAccess);
    };
    pages[place].put((address % 4096) as usize, width, value);
    Ok(())
}

/// Why a store of any value would be refused, if it would.
#[inline]
pub fn store_fault(pages: &[Page], text: usize, address: u64, width: Width) -> Option<Fault>
    requires { IsSized text (length pages.now) }
    ensures { (value : ℕ) →
        result ≡ result_err (store_of (cells_of text pages.now) address (bytes_of width) value) }
{
    let aligned = is_aligned(address, width);
    if !aligned {
        return Some(Fault::StoreMisaligned);
    }
    let total = pages.len();
    let Some(_place) = find_data(text, total, address) else {
        return Some(Fault::StoreAccess);
    };
    None
}
