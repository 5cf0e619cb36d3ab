//! Numbers of an operand.

ghost use Rattle.std.specs.Prelude.{◌≡◌, ℤ, pos, negsuc, ◌^◌, ◌≤◌, ◌≤ℤ◌, IfOk, unsigned_abs, Some, None, if◌then◌else◌};
ghost use Rattle.std.specs.Char.{digit_value};
ghost use Rattle.rv64_asm.specs.Numbers.{all_digits, value_of, numeral, magnitude, number_in, natural, number_between, wrapped, in_range};
ghost use Rattle.rv64_asm.specs.Returned.{IsClipped};

use crate::fault::LineFault;

/// Greater numbers are read as this one.
const CLIP: u128 = 1 << 65;

/// The value of a digit, or 36 where the byte is none.
fn digit_of(b: u8) -> u8
    ensures value { result ≡ digit_value b }
    ensures small { result ≤ 36 }
{
    match b {
        b'0'..=b'9' => b - b'0',
        b'A'..=b'Z' => b - b'A' + 10,
        b'a'..=b'z' => b - b'a' + 10,
        _ => 36,
    }
}

/// The number that the digits write.
fn clipped_value(digits: &[u8], radix: u8) -> Option<u128>
    requires { radix ≤ 16 }
    ensures clipped { IsClipped result (if all_digits radix digits.now then Some (value_of radix digits.now) else None) }
{
    let mut size = 0;
    for b in digits {
        let digit = digit_of(*b);
        if digit >= radix {
            return None;
        }
        size = (size * u128::from(radix) + u128::from(digit)).min(CLIP);
    }
    Some(size)
}

fn numeral(digits: &[u8], radix: u8) -> Option<u128>
    requires { radix ≤ 16 }
    ensures { IsClipped result (numeral radix digits.now) }
{
    if digits.is_empty() {
        return None;
    }
    clipped_value(digits, radix)
}

#[tactic(auto, unfolding(crate::specs::Numbers::magnitude))]
fn magnitude(text: &[u8]) -> Option<u128>
    ensures { IsClipped result (magnitude text.now) }
{
    if text.starts_with(b"0x") {
        numeral(&text[2..], 16)
    } else {
        numeral(text, 10)
    }
}

fn in_range(number: i128, low: i128, high: i128) -> Result<i128, LineFault>
    ensures { result ≡ in_range low high number }
{
    if low <= number && number <= high {
        Ok(number)
    } else {
        Err(LineFault::OutOfRange)
    }
}

/// The number of a text, within a range.
#[tactic(auto, unfolding(crate::specs::Numbers::number_of))]
pub fn number_in(text: &[u8], low: i128, high: i128) -> Result<i128, LineFault>
    requires low { negsuc (2 ^ 64) ≤ℤ low }
    requires high { high ≤ℤ pos (2 ^ 64) }
    ensures { result ≡ number_in low high text.now }
{
    if text.starts_with(b"-") {
        match magnitude(&text[1..]) {
            Some(size) => in_range(-(size as i128), low, high),
            None => Err(LineFault::OperandForm),
        }
    } else {
        match magnitude(text) {
            Some(size) => in_range(size as i128, low, high),
            None => Err(LineFault::OperandForm),
        }
    }
}

/// The number of a text, from 0 to `high`.
pub fn natural(text: &[u8], high: u64) -> Result<u64, LineFault>
    ensures given { result ≡ natural high text.now }
    ensures within { IfOk result (λ n. n ≤ high) }
{
    let number = number_in(text, 0, i128::from(high))?;
    Ok(number as u64)
}

/// The bits of a number of at most this magnitude, in two's complement below zero.
fn wrapped(number: i128, high: u64) -> u64
    requires { unsigned_abs number ≤ high }
    ensures bits { result ≡ wrapped high number }
    ensures within { result ≤ high }
{
    let bits = if number < 0 {
        number + i128::from(high) + 1
    } else {
        number
    };
    bits as u64
}

/// The bits of a number of the range, in two's complement below zero.
pub fn number_between(text: &[u8], low: i64, high: u64) -> Result<u64, LineFault>
    requires { unsigned_abs low ≤ high }
    ensures given { result ≡ number_between low high text.now }
    ensures within { IfOk result (λ n. n ≤ high) }
{
    let number = number_in(text, i128::from(low), i128::from(high))?;
    Ok(wrapped(number, high))
}
