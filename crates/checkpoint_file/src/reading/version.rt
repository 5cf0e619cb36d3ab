//! The version line.

ghost use Rattle.std.specs.Prelude.{◌↔◌, ◌∷◌, IsTrue};
ghost use Rattle.checkpoint_file.specs.Versions.{HasDigits, HasOtherNumber, IsNoDigit, IsOther, IsOtherVersion};

use crate::reading::fronts::after;

// What follows the digits at the front.
#[tactic(auto, using(crate::proofs::VersionLemmas::read_none, crate::proofs::VersionLemmas::read_more))]
fn after_digits(bytes: &[u8]) -> &[u8]
    ensures digits { HasDigits bytes.now result.now }
    ensures end { IsNoDigit result.now }
{
    let mut rest = bytes;
    while let [digit, others @ ..] = rest {
        if !digit.is_ascii_digit() {
            return rest;
        }
        rest = others;
    }
    rest
}

// Whether a number that begins with this digit, or is it alone, is another than 1.
fn is_other(first: u8, alone: bool) -> bool
    ensures { IsTrue result ↔ IsOther first alone }
{
    first.is_ascii_digit() && (first != b'0' || alone) && (first != b'1' || !alone)
}

// Whether a digit and what follows it are a number other than 1 and the end of the line.
fn begins_other_number(first: u8, others: &[u8]) -> bool
    ensures { IsTrue result ↔ HasOtherNumber (first ∷ others.now) }
{
    let end = after_digits(others);
    match after(end, b"\n") {
        Some(_) => is_other(first, end.len() == others.len()),
        None => false,
    }
}

// Whether the rest of a version line has another number than 1.
fn is_other_number(bytes: &[u8]) -> bool
    ensures { IsTrue result ↔ HasOtherNumber bytes.now }
{
    match bytes {
        [first, others @ ..] => begins_other_number(*first, others),
        [] => false,
    }
}

/// Whether the first line is a version line with another number.
pub(crate) fn is_other_version(text: &[u8]) -> bool
    ensures { IsTrue result ↔ IsOtherVersion text.now }
{
    match after(text, b"smt-lab checkpoint ") {
        Some(number) => is_other_number(number),
        None => false,
    }
}
