//! The lines of registers.

ghost use Rattle.std.specs.Prelude.{◌≡◌, ◌++◌, ◌<◌, ◌^◌, List, ℕ, IfSome, IsSomeAnd};
ghost use Rattle.checkpoint_file.specs.ContextLines.{HasRegisters};
ghost use Rattle.checkpoint_file.specs.Lines.{register_line};

use crate::reading::fronts::after;
use crate::reading::words::word_line_at;
use itoa::Buffer;

// The line of a register, and what follows.
fn register_at(bytes: &[u8], number: usize) -> Option<(u64, &[u8])>
    ensures found { IfSome result (λ read. bytes.now ≡ register_line number read.0 ++ read.1.now) }
    ensures only { (value : ℕ) (rest : List ℕ) → value < 2 ^ 64 → bytes.now ≡ register_line number value ++ rest
        → IsSomeAnd result (λ read. (read.0 ≡ value) × (read.1.now ≡ rest)) }
{
    let mut buffer = Buffer::new();
    let digits = after(bytes, b"x")?;
    let blank = after(digits, buffer.format(number).as_bytes())?;
    word_line_at(blank, b" ")
}

/// What follows the lines of x1 to x31.
pub(crate) fn registers_at(bytes: &[u8]) -> Option<&[u8]>
    ensures found { IfSome result (λ rest. HasRegisters 1 bytes.now rest.now) }
    ensures only { (rest : List ℕ) → HasRegisters 1 bytes.now rest → IsSomeAnd result (λ left. left.now ≡ rest) }
{
    let mut rest = bytes;
    for number in 1..32 {
        let (_, next) = register_at(rest, number)?;
        rest = next;
    }
    Some(rest)
}
