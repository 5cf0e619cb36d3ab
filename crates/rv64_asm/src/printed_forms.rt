//! Instructions as lines of text.

ghost use Rattle.std.specs.Prelude.{◌≡◌, ◌+◌, ◌<◌, ◌≤◌, ◌++◌, ◌≤ℤ◌, pos, negsuc, codes, IfOk, string_bytes};
ghost use Rattle.std.specs.Fmt.{decimal, signed_decimal};
ghost use Rattle.rv64_asm.specs.Shown as spec;

use rv64_decode::{Immediate, Register};
use std::alloc::{AllocError, Allocator};

/// `name a, b, c`.
pub fn three_registers<A: Allocator + Copy>(
    alloc: A,
    name: &str,
    a: Register,
    b: Register,
    c: Register,
) -> Result<String<A>, AllocError>
    ensures text { IfOk result (λ t. string_bytes t ≡ spec.three name.now (spec.register_text a) (spec.register_text b) (spec.register_text c)) }
    ensures a { a < 32 }
    ensures b { b < 32 }
    ensures c { c < 32 }
{
    let a = a.index();
    let b = b.index();
    let c = c.index();
    format!(in alloc; "{name} x{a}, x{b}, x{c}")
}

/// `name a, b, number`.
pub fn with_number<A: Allocator + Copy>(
    alloc: A,
    name: &str,
    a: Register,
    b: Register,
    number: Immediate,
) -> Result<String<A>, AllocError>
    ensures text { IfOk result (λ t. string_bytes t ≡ spec.three name.now (spec.register_text a) (spec.register_text b) (signed_decimal number)) }
    ensures a { a < 32 }
    ensures b { b < 32 }
    ensures low { negsuc 2047 ≤ℤ number }
    ensures high { number ≤ℤ pos 2047 }
{
    let a = a.index();
    let b = b.index();
    let number = number.value();
    format!(in alloc; "{name} x{a}, x{b}, {number}")
}

/// `name a, number(base)`.
pub fn with_place<A: Allocator + Copy>(
    alloc: A,
    name: &str,
    a: Register,
    number: Immediate,
    base: Register,
) -> Result<String<A>, AllocError>
    ensures text { IfOk result (λ t. string_bytes t ≡ spec.two name.now (spec.register_text a) (spec.place number base)) }
    ensures a { a < 32 }
    ensures base { base < 32 }
    ensures low { negsuc 2047 ≤ℤ number }
    ensures high { number ≤ℤ pos 2047 }
{
    let a = a.index();
    let base = base.index();
    let number = number.value();
    format!(in alloc; "{name} x{a}, {number}(x{base})")
}

/// `name a, 0xnumber`.
pub fn with_hex<A: Allocator + Copy>(
    alloc: A,
    name: &str,
    a: Register,
    number: u64,
) -> Result<String<A>, AllocError>
    ensures text { IfOk result (λ t. string_bytes t ≡ spec.two name.now (spec.register_text a) (spec.hex number)) }
    ensures a { a < 32 }
{
    let a = a.index();
    format!(in alloc; "{name} x{a}, 0x{number:x}")
}

/// `name a, b, 0xnumber`.
pub fn with_target<A: Allocator + Copy>(
    alloc: A,
    name: &str,
    a: Register,
    b: Register,
    number: u64,
) -> Result<String<A>, AllocError>
    ensures text { IfOk result (λ t. string_bytes t ≡ spec.three name.now (spec.register_text a) (spec.register_text b) (spec.hex number)) }
    ensures a { a < 32 }
    ensures b { b < 32 }
{
    let a = a.index();
    let b = b.index();
    format!(in alloc; "{name} x{a}, x{b}, 0x{number:x}")
}

/// `name a, b, amount`.
pub fn with_amount<A: Allocator + Copy>(
    alloc: A,
    name: &str,
    a: Register,
    b: Register,
    amount: u8,
) -> Result<String<A>, AllocError>
    ensures text { IfOk result (λ t. string_bytes t ≡ spec.three name.now (spec.register_text a) (spec.register_text b) (decimal amount)) }
    ensures a { a < 32 }
    ensures b { b < 32 }
{
    let a = a.index();
    let b = b.index();
    format!(in alloc; "{name} x{a}, x{b}, {amount}")
}

/// The address at that distance from pc.
pub fn target(pc: u64, offset: i64) -> u64
    ensures { result ≡ spec.target pc offset }
{
    pc.wrapping_add_signed(offset)
}

/// `.word 0x` and eight digits.
pub fn word_line<A: Allocator + Copy>(alloc: A, word: u32) -> Result<String<A>, AllocError>
    ensures { IfOk result (λ t. string_bytes t ≡ codes ".word 0x" ++ spec.hex_word word) }
{
    let a = word / 0x1000_0000 % 16;
    let b = word / 0x100_0000 % 16;
    let c = word / 0x10_0000 % 16;
    let d = word / 0x1_0000 % 16;
    let e = word / 0x1000 % 16;
    let f = word / 0x100 % 16;
    let g = word / 0x10 % 16;
    let h = word % 16;
    format!(in alloc; ".word 0x{a:x}{b:x}{c:x}{d:x}{e:x}{f:x}{g:x}{h:x}")
}
