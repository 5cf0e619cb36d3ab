//! The memory of one context: pages of 4096 bytes, each with its rights.
//!
//! Text pages begin at `TEXT_START` and may be read and executed. Data pages begin at `DATA_START`
//! and may be read and written. The set of pages is fixed when the memory is made. A contract sees a
//! memory as a finite map from addresses to a byte and its rights.
#![tactic(auto)]

mod page;
mod place;
mod reading;
mod regions;
mod starting;
mod writing;

ghost use Rattle.std.specs.Prelude.{◌≡◌, ℕ, ◌≤◌, ◌%◌, length, IfOk, IfErr, OnOk, Ok, Err};
ghost use Rattle.paged_memory.specs.Cells.{byte_at, bytes_of, fetch_of, load_of, store_of, IsByteMap};
ghost use Rattle.paged_memory.specs.Pages.{pages_of};
ghost use Rattle.paged_memory.specs.Regions.{most_bytes, most_words};
ghost use Rattle.paged_memory.specs.Start.{start_cells};
ghost use Rattle.paged_memory.specs.Stored.{IsFetchedAlike, IsStored};
ghost use Rattle.std.specs.Result.{result_err};

pub use page::Page;
pub use regions::{DATA_START, MOST_BYTES, MOST_WORDS, TEXT_START, has_room};
use std::alloc::{AllocError, Allocator, Global};
use std::marker::Model;

/// How many bytes an access moves: 1, 2, 4 or 8.
#[derive(Clone, Copy, Debug, PartialEq, Eq)]
pub enum Width {
    Byte,
    Half,
    Word,
    Double,
}

impl Width {
    /// How many bytes it is.
    #[inline]
    pub fn bytes(self) -> u8
        ensures { result ≡ bytes_of self }
    {
        match self {
            Width::Byte => 1,
            Width::Half => 2,
            Width::Word => 4,
            Width::Double => 8,
        }
    }
}

/// Why an access is refused.
#[derive(Clone, Copy, Debug, PartialEq, Eq)]
pub enum Fault {
    /// M1, cause 1: a byte of the instruction may not be executed.
    FetchAccess,
    /// M2, cause 4: the address of a load is no multiple of its width.
    LoadMisaligned,
    /// M3, cause 5: a byte of a load is not mapped.
    LoadAccess,
    /// M4, cause 6: the address of a store is no multiple of its width.
    StoreMisaligned,
    /// M5, cause 7: a byte of a store may not be written.
    StoreAccess,
}

/// The memory of one context. `fetch`, `load`, `store` and `pages` take no memory of the host.
#[derive(Drop)]
pub struct Memory<A: Allocator = Global> {
    text: usize,
    pages: Vec<Page, A>,
}

impl<A: Allocator> Model for Memory<A> {
    ghost use Rattle.std.specs.FinMap as map;
    ghost use Rattle.std.specs.Coded.{coded_ℕ};
    ghost use Rattle.std.specs.Ordering.{nat_cmp};
    ghost use Rattle.paged_memory.specs.Cells.{Cell, coded_cell};

    ghost Value = { map.FinMap nat_cmp Cell };

    ghost coded = { map.code coded_ℕ coded_cell };

    ghost use Rattle.paged_memory.specs.Layout.{cells_of, IsSound};

    ghost view = { λ m. cells_of m.text m.pages.items };

    ghost invariant = { λ m. IsSound m.text m.pages.items };
}

impl<A: Allocator> Memory<A> {
    /// The memory of a program before its first step: its text words from `TEXT_START` on, least
    /// byte first, and its data bytes from `DATA_START` on. The rest of a last page is 0. `has_room`
    /// says whether a program is small enough.
    ///
    /// # Errors
    ///
    /// Memory ran out (M6): a growth was refused.
    pub fn new(alloc: A, words: &[u32], bytes: &[u8]) -> Result<Self, AllocError>
        requires words { length words.now ≤ most_words }
        requires bytes { length bytes.now ≤ most_bytes }
        ensures { IfOk result (λ m. m ≡ start_cells words.now bytes.now) }
    {
        let (text, pages) = starting::start_pages(alloc, words, bytes)?;
        Ok(Memory { text, pages })
    }

    /// A second memory of the same bytes and rights.
    ///
    /// # Errors
    ///
    /// Memory ran out (M6): a growth was refused.
    pub fn try_clone(&self, alloc: A) -> Result<Self, AllocError>
        ensures { IfOk result (λ m. m ≡ self.now) }
    {
        let pages = Vec::from_slice(alloc, &self.pages)?;
        Ok(Memory {
            text: self.text,
            pages,
        })
    }

    /// The pages, in order of address.
    #[inline]
    pub fn pages(&self) -> &[Page]
        ensures { result.now ≡ pages_of self.now }
    {
        self.pages.as_slice()
    }

    /// The instruction word at an aligned address.
    ///
    /// # Errors
    ///
    /// `FetchAccess` where one of its four bytes may not be executed.
    #[inline]
    pub fn fetch(&self, address: u64) -> Result<u32, Fault>
        requires { address % 4 ≡ 0 }
        ensures { result ≡ fetch_of self.now address }
    {
        reading::fetch(&self.pages, self.text, address)
    }

    /// The byte at an address, 0 where none is mapped. Each byte of a memory is below 256, and none
    /// is mapped past the last address of 64 bits.
    #[inline]
    pub fn byte(&self, address: u64) -> u8
        ensures value { result ≡ byte_at self.now address }
        ensures bytes { IsByteMap self.now }
    {
        reading::byte(&self.pages, self.text, address)
    }

    /// The number of so many bytes at an address, least first, extended by zeros.
    ///
    /// # Errors
    ///
    /// `LoadMisaligned`, or else `LoadAccess` where one of the bytes is not mapped.
    #[inline(always)]
    pub fn load(&self, address: u64, width: Width) -> Result<u64, Fault>
        ensures { result ≡ load_of self.now address (bytes_of width) }
    {
        reading::load(&self.pages, self.text, address, width)
    }

    /// Why a store of any value at an address would be refused, if it would.
    #[inline]
    pub fn store_fault(&self, address: u64, width: Width) -> Option<Fault>
        ensures { (value : ℕ) → result ≡ result_err (store_of self.now address (bytes_of width) value) }
    {
        writing::store_fault(&self.pages, self.text, address, width)
    }

    /// Puts the lowest bytes of a number at an address, least first.
    ///
    /// # Errors
    ///
    /// `StoreMisaligned`, or else `StoreAccess` where one of the bytes may not be written. The
    /// memory is then as it was.
    #[inline(always)]
    pub fn store(&mut self, address: u64, width: Width, value: u64) -> Result<(), Fault>
        ensures ok { OnOk result (store_of self.old address (bytes_of width) value ≡ Ok self.new) }
        ensures stored { OnOk result (IsStored self.old self.new address (bytes_of width) value) }
        ensures fetched { OnOk result (IsFetchedAlike self.old self.new) }
        ensures err { IfErr result (λ e.
            (store_of self.old address (bytes_of width) value ≡ Err e) × (self.new ≡ self.old)) }
    {
        writing::store(&mut self.pages, self.text, address, width, value)
    }
}
