//! Bytes as two lower-case hexadecimal digits each.

ghost use Rattle.std.specs.Prelude.{◌≡◌, ◌*◌, ◌++◌, ◌<◌, List, ℕ, length, true, IfSome, IsSomeAnd};
ghost use Rattle.hex.specs.Hex.{encode_lower};
ghost use Rattle.checkpoint_file.specs.Lines.{AreBytes};

use crate::reading::fronts::split;

// Reads the digits, upper-case ones too.
#[inline(always)]
#[tactic(auto, using(crate::proofs::DigitLemmas::decodes))]
fn is_decoded(digits: &[u8], value: &mut [u8]) -> bool
    ensures bytes { AreBytes (length value.old) value.new }
    ensures only { (bytes : List ℕ) → AreBytes (length value.old) bytes → «digits».now ≡ encode_lower bytes
        → (result ≡ true) × (value.new ≡ bytes) }
{
    hex::decode_to_slice(digits, value).is_ok()
}

// Whether the digits are a value's. `again` is where these are written.
#[inline(always)]
fn is_encoded(digits: &[u8], value: &[u8], again: &mut [u8]) -> bool
    requires { length again.old ≡ 2 * length value.now }
    ensures found { result ≡ true → «digits».now ≡ encode_lower value.now }
    ensures only { «digits».now ≡ encode_lower value.now → result ≡ true }
{
    hex::encode_to_slice(value, again).is_ok() && digits == &*again
}

/// Reads the digits into `value`, and says whether they are its one spelling: `again`, of the digits' length, is
/// where that is written.
#[inline(always)]
pub fn is_spelling(digits: &[u8], value: &mut [u8], again: &mut [u8]) -> bool
    requires { length again.old ≡ 2 * length value.old }
    ensures found { result ≡ true → «digits».now ≡ encode_lower value.new }
    ensures bytes { AreBytes (length value.old) value.new }
    ensures only { (bytes : List ℕ) → AreBytes (length value.old) bytes → «digits».now ≡ encode_lower bytes
        → (result ≡ true) × (value.new ≡ bytes) }
{
    is_decoded(digits, value) && is_encoded(digits, value, again)
}

/// Reads two digits for each byte of `value`, and gives what follows them. `again`, of the digits' length, is written.
#[inline(always)]
pub fn digits_at<'a>(bytes: &'a [u8], value: &mut [u8], again: &mut [u8]) -> Option<&'a [u8]>
    requires { length again.old ≡ 2 * length value.old }
    ensures found { IfSome result (λ rest. bytes.now ≡ encode_lower value.new ++ rest.now) }
    ensures fits { AreBytes (length value.old) value.new }
    ensures only { (text rest : List ℕ) → AreBytes (length value.old) text → bytes.now ≡ encode_lower text ++ rest
        → IsSomeAnd result (λ left. (left.now ≡ rest) × (value.new ≡ text)) }
{
    let count = again.len();
    match split(bytes, count) {
        Some((digits, rest)) => {
            if is_spelling(digits, value, again) {
                Some(rest)
            } else {
                None
            }
        }
        None => None,
    }
}
