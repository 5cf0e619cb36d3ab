//! The numbers that memory's bytes spell, also where an access would be refused.

ghost use Rattle.std.specs.Prelude.{◌≡◌, ◌+◌, ◌≤◌};
ghost use Rattle.paged_memory.specs.Cells.{byte_at, bytes_of, number_at, IsByteMap};

use core_view::Span;
use paged_memory::{Memory, Width};
use std::alloc::Allocator;

/// The span of a load.
#[inline]
pub fn span_of(address: u64, width: Width) -> Span
    ensures { result ≡ record { address = address; size = bytes_of width } }
{
    Span {
        address,
        size: width.bytes(),
    }
}

/// The number that memory's bytes spell at an address, 0 for those that are not mapped.
#[inline]
pub fn number<A: Allocator>(memory: &Memory<A>, address: u64, width: Width) -> u64
    ensures { result ≡ number_at (byte_at memory.now) address (bytes_of width) }
{
    match memory.load(address, width) {
        Ok(value) => value,
        Err(_) => number_by_bytes(memory, span_of(address, width)),
    }
}

/// The number that memory's bytes spell at an address, byte by byte from the highest down.
#[cold]
fn number_by_bytes<A: Allocator>(memory: &Memory<A>, span: Span) -> u64
    requires { span.size ≤ 8 }
    ensures { result ≡ number_at (byte_at memory.now) span.address span.size }
{
    let mut number: u64 = 0;
    let mut offset = span.size;
    while offset > 0 {
        offset -= 1;
        let byte = byte_past(memory, span.address, offset);
        number = number.wrapping_mul(256).wrapping_add(u64::from(byte));
    }
    number
}

/// The byte so far past an address, 0 where none is mapped.
fn byte_past<A: Allocator>(memory: &Memory<A>, address: u64, offset: u8) -> u8
    ensures value { result ≡ byte_at memory.now (address + offset) }
    ensures bytes { IsByteMap memory.now }
{
    // `byte` ensures that none is mapped past the last address.
    let _first = memory.byte(address);
    match address.checked_add(u64::from(offset)) {
        None => 0,
        Some(past) => memory.byte(past),
    }
}
