//! Lines with a number of sixteen digits.

ghost use Rattle.std.specs.Prelude.{◌≡◌, ◌++◌, ◌<◌, ◌^◌, List, ℕ, IfSome, IsSomeAnd};
ghost use Rattle.std.specs.Int.{to_be_bytes, w64};
ghost use Rattle.checkpoint_file.specs.Lines.{word_text, word_line};

use crate::reading::digits::digits_at;
use crate::reading::fronts::after;

// The number of eight bytes, the highest first.
#[inline(always)]
fn word_of(value: [u8; 8]) -> u64
    ensures bytes { to_be_bytes w64 result ≡ value }
    ensures number { (n : ℕ) → n < 2 ^ 64 → value ≡ to_be_bytes w64 n → result ≡ n }
{
    u64::from_be_bytes(value)
}

/// Sixteen digits, and what follows them.
#[inline(always)]
pub fn word_at(bytes: &[u8]) -> Option<(u64, &[u8])>
    ensures found { IfSome result (λ read. bytes.now ≡ word_text read.0 ++ read.1.now) }
    ensures only { (n : ℕ) (rest : List ℕ) → n < 2 ^ 64 → bytes.now ≡ word_text n ++ rest
        → IsSomeAnd result (λ read. (read.0 ≡ n) × (read.1.now ≡ rest)) }
{
    let mut value = [0u8; 8];
    let mut again = [0u8; 16];
    match digits_at(bytes, &mut value, &mut again) {
        Some(rest) => Some((word_of(value), rest)),
        None => None,
    }
}

/// A label, sixteen digits and the end of the line, and what follows.
#[inline(always)]
pub fn word_line_at<'a>(bytes: &'a [u8], label: &[u8]) -> Option<(u64, &'a [u8])>
    ensures found { IfSome result (λ read. bytes.now ≡ word_line label.now read.0 ++ read.1.now) }
    ensures only { (n : ℕ) (rest : List ℕ) → n < 2 ^ 64 → bytes.now ≡ word_line label.now n ++ rest
        → IsSomeAnd result (λ read. (read.0 ≡ n) × (read.1.now ≡ rest)) }
{
    let digits = after(bytes, label)?;
    let (number, end) = word_at(digits)?;
    let rest = after(end, b"\n")?;
    Some((number, rest))
}
