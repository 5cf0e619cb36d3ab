//! Lines with a count.

ghost use Rattle.std.specs.Prelude.{◌≡◌, ◌++◌, ◌∷◌, ◌≤◌, ◌<◌, ◌^◌, List, ℕ, IfSome, IsSomeAnd};
ghost use Rattle.std.specs.Fmt.{decimal};
ghost use Rattle.checkpoint_file.specs.Lines.{count_line};

use crate::reading::fronts::after;
use itoa::Buffer;

/// The greatest count: 2^60.
const GREATEST: u64 = 1 << 60;

// The number at the front, where one of at most 2^60 stands in a line there.
#[tactic(auto, using(crate::proofs::CountLemmas::counts))]
fn number_at(bytes: &[u8]) -> u64
    ensures { (n : ℕ) (rest : List ℕ) → n ≤ 2 ^ 60 → bytes.now ≡ decimal n ++ (10 ∷ rest) → result ≡ n }
{
    let mut number = 0;
    let mut rest = bytes;
    while let [digit, others @ ..] = rest {
        if *digit < 48 || *digit > 57 || number > GREATEST {
            return number;
        }
        number = 10 * number + u64::from(*digit - 48);
        rest = others;
    }
    number
}

// The digits of a number and the end of the line, and what follows.
pub(crate) fn after_number(bytes: &[u8], number: u64) -> Option<&[u8]>
    ensures found { IfSome result (λ rest. bytes.now ≡ decimal number ++ (10 ∷ rest.now)) }
    ensures only { (rest : List ℕ) → bytes.now ≡ decimal number ++ (10 ∷ rest)
        → IsSomeAnd result (λ left. left.now ≡ rest) }
{
    let mut buffer = Buffer::new();
    let end = after(bytes, buffer.format(number).as_bytes())?;
    after(end, b"\n")
}

/// The line of a count up to 2^60, and what follows.
pub fn count_line_at(bytes: &[u8]) -> Option<(u64, &[u8])>
    ensures found { IfSome result (λ read. bytes.now ≡ count_line read.0 ++ read.1.now) }
    ensures bound { IfSome result (λ read. read.0 ≤ 2 ^ 60) }
    ensures only { (n : ℕ) (rest : List ℕ) → n ≤ 2 ^ 60 → bytes.now ≡ count_line n ++ rest
        → IsSomeAnd result (λ read. (read.0 ≡ n) × (read.1.now ≡ rest)) }
{
    let digits = after(bytes, b"count ")?;
    let number = number_at(digits);
    if number > GREATEST {
        return None;
    }
    let rest = after_number(digits, number)?;
    Some((number, rest))
}
