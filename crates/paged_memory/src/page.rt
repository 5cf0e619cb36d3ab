//! A page: its address and its 4096 bytes.

ghost use Rattle.std.specs.Prelude.{◌≡◌, ◌+◌, ◌<◌, ◌≤◌, true, false, replicate, slice_index};
ghost use Rattle.paged_memory.specs.Cells.{bytes_of, number_at};
ghost use Rattle.paged_memory.specs.Layout.{put_number};

use crate::Width;
use std::marker::Model;

/// A word with the bits of the widths of four bytes or more.
const WIDE: u32 = 0b1100;

/// One page of a memory.
#[derive(Clone, Copy)]
pub struct Page {
    address: u64,
    bytes: [u8; 4096],
}

impl Model for Page {
    ghost use Rattle.paged_memory.specs.Pages.{PageValue};

    ghost Value = { PageValue };

    ghost view = { λ p. record { address = p.address; bytes = p.bytes } };

    ghost inverse = { λ v. record { address = v.address; bytes = v.bytes } };
}

impl Page {
    /// A page of zero bytes.
    pub(crate) fn blank(address: u64) -> Page
        ensures address { result.address ≡ address }
        ensures bytes { result.bytes ≡ replicate 4096 0 }
    {
        Page {
            address,
            bytes: [0; 4096],
        }
    }

    /// The address of its first byte, a multiple of 4096.
    #[inline]
    pub fn address(&self) -> u64
        ensures { result ≡ self.now.address }
    {
        self.address
    }

    /// Its bytes, in order of address.
    #[inline(always)]
    pub fn bytes(&self) -> &[u8; 4096]
        ensures { result.now ≡ self.now.bytes }
    {
        &self.bytes
    }

    /// The byte at an offset.
    #[inline]
    pub(crate) fn byte(&self, offset: usize) -> u8
        requires { offset < 4096 }
        ensures { result ≡ slice_index self.now.bytes offset }
    {
        self.bytes[offset]
    }

    /// The word at an offset.
    #[inline(always)]
    pub(crate) fn word(&self, offset: usize) -> u32
        requires { offset + 4 ≤ 4096 }
        ensures { result ≡ number_at (slice_index self.now.bytes) offset 4 }
    {
        let b = self.bytes();
        u32::from_le_bytes([b[offset], b[offset + 1], b[offset + 2], b[offset + 3]])
    }

    /// The number of so many bytes at an offset.
    #[inline(always)]
    pub(crate) fn number(&self, offset: usize, width: Width) -> u64
        requires { offset + bytes_of width ≤ 4096 }
        ensures { result ≡ number_at (slice_index self.now.bytes) offset (bytes_of width) }
    {
        if is_wide(width) {
            self.wide_number(offset, width)
        } else {
            self.narrow_number(offset, width)
        }
    }

    // A word's bytes are read ahead of the choice: read in both of its arms they would be four loads.
    #[inline(always)]
    fn wide_number(&self, offset: usize, width: Width) -> u64
        requires within { offset + bytes_of width ≤ 4096 }
        requires wide { 4 ≤ bytes_of width }
        ensures { result ≡ number_at (slice_index self.now.bytes) offset (bytes_of width) }
    {
        let low = u64::from(self.word(offset));
        match width {
            Width::Double => low + (u64::from(self.word(offset + 4)) << 32),
            _ => low,
        }
    }

    #[inline(always)]
    fn narrow_number(&self, offset: usize, width: Width) -> u64
        requires within { offset + bytes_of width ≤ 4096 }
        requires narrow { bytes_of width < 4 }
        ensures { result ≡ number_at (slice_index self.now.bytes) offset (bytes_of width) }
    {
        let b = self.bytes();
        match width {
            Width::Half => u64::from(u16::from_le_bytes([b[offset], b[offset + 1]])),
            _ => u64::from(b[offset]),
        }
    }

    /// Puts the lowest bytes of a number at an offset.
    #[inline(always)]
    pub(crate) fn put(&mut self, offset: usize, width: Width, value: u64)
        requires { offset + bytes_of width ≤ 4096 }
        ensures { let bytes = put_number self.old.bytes offset (bytes_of width) value in
            self.new ≡ record self.old { bytes = bytes } }
    {
        if is_wide(width) {
            self.put_wide(offset, width, value);
        } else {
            self.put_narrow(offset, width, value);
        }
    }

    #[inline(always)]
    fn put_wide(&mut self, offset: usize, width: Width, value: u64)
        requires within { offset + bytes_of width ≤ 4096 }
        requires wide { 4 ≤ bytes_of width }
        ensures { let bytes = put_number self.old.bytes offset (bytes_of width) value in
            self.new ≡ record self.old { bytes = bytes } }
    {
        let v = value.to_le_bytes();
        let b = &mut self.bytes;
        // As in `wide_number`, a word's bytes stand ahead of the choice.
        b[offset] = v[0];
        b[offset + 1] = v[1];
        b[offset + 2] = v[2];
        b[offset + 3] = v[3];
        if let Width::Double = width {
            b[offset + 4] = v[4];
            b[offset + 5] = v[5];
            b[offset + 6] = v[6];
            b[offset + 7] = v[7];
        }
    }

    #[inline(always)]
    fn put_narrow(&mut self, offset: usize, width: Width, value: u64)
        requires within { offset + bytes_of width ≤ 4096 }
        requires narrow { bytes_of width < 4 }
        ensures { let bytes = put_number self.old.bytes offset (bytes_of width) value in
            self.new ≡ record self.old { bytes = bytes } }
    {
        let v = value.to_le_bytes();
        let b = &mut self.bytes;
        match width {
            Width::Half => {
                b[offset] = v[0];
                b[offset + 1] = v[1];
            }
            _ => b[offset] = v[0],
        }
    }
}

/// Whether a width has four bytes or more. It is a test of a bit, since of tests by `match` one after another the
/// compiler makes one jump through a table.
#[inline(always)]
fn is_wide(width: Width) -> bool
    ensures wide { result ≡ true → 4 ≤ bytes_of width }
    ensures narrow { result ≡ false → bytes_of width < 4 }
{
    WIDE >> (width as u32) & 1 == 1
}
