//! The lines of contexts.

ghost use Rattle.std.specs.Prelude.{◌≡◌, ◌+◌, ◌≤◌, ◌^◌, ◌∷◌, [], List, ℕ, IfSome, IsSomeAnd};
ghost use Rattle.checkpoint_file.specs.ContextLines.{HasContext, HasContexts, HasEightContexts};
ghost use Rattle.checkpoint_file.specs.PageLines.{IsNoPage};

use crate::reading::counts::{after_number, count_line_at};
use crate::reading::fronts::after;
use crate::reading::pages::{PageRoom, pages_at};
use crate::reading::registers::registers_at;
use crate::reading::words::word_line_at;

// The count of a context, and what follows its lines.
fn context_at<'a>(bytes: &'a [u8], number: u64, room: &mut PageRoom) -> Option<(u64, &'a [u8])>
    ensures found { IfSome result (λ read. HasContext number read.0 bytes.now read.1.now) }
    ensures only { (count : ℕ) (rest : List ℕ) → IsNoPage rest → HasContext number count bytes.now rest
        → IsSomeAnd result (λ read. (read.0 ≡ count) × (read.1.now ≡ rest)) }
{
    let heading = after(bytes, b"context ")?;
    let counted = after_number(heading, number)?;
    let (count, place) = count_line_at(counted)?;
    let (_, registers) = word_line_at(place, b"pc ")?;
    let pages = registers_at(registers)?;
    let rest = pages_at(pages, room)?;
    Some((count, rest))
}

// The counts of two contexts, and what follows them.
fn two_contexts_at<'a>(
    bytes: &'a [u8],
    number: u64,
    room: &mut PageRoom,
) -> Option<(u64, u64, &'a [u8])>
    requires { number ≤ 6 }
    ensures found { IfSome result (λ read. HasContexts number (read.0 ∷ read.1 ∷ []) bytes.now read.2.now) }
    ensures only { (a b : ℕ) (rest : List ℕ) → IsNoPage rest → HasContexts number (a ∷ b ∷ []) bytes.now rest
        → IsSomeAnd result (λ read. (read.0 ≡ a) × (read.1 ≡ b) × (read.2.now ≡ rest)) }
{
    let (first, next) = context_at(bytes, number, room)?;
    let (second, rest) = context_at(next, number + 1, room)?;
    Some((first, second, rest))
}

// The counts of four contexts, and what follows them.
fn four_contexts_at<'a>(
    bytes: &'a [u8],
    number: u64,
    room: &mut PageRoom,
) -> Option<(u64, u64, u64, u64, &'a [u8])>
    requires { number ≤ 4 }
    ensures found { IfSome result (λ read. HasContexts number (read.0 ∷ read.1 ∷ read.2 ∷ read.3 ∷ []) bytes.now
        read.4.now) }
    ensures only { (p q r s : ℕ) (rest : List ℕ) → IsNoPage rest
        → HasContexts number (p ∷ q ∷ r ∷ s ∷ []) bytes.now rest
        → IsSomeAnd result (λ read. (read.0 ≡ p) × (read.1 ≡ q) × (read.2 ≡ r) × (read.3 ≡ s) × (read.4.now ≡ rest)) }
{
    let (a, b, next) = two_contexts_at(bytes, number, room)?;
    let (c, d, rest) = two_contexts_at(next, number + 2, room)?;
    Some((a, b, c, d, rest))
}

/// The counts of contexts 0 to 7, and what follows them.
pub(crate) fn contexts_at<'a>(bytes: &'a [u8], room: &mut PageRoom) -> Option<([u64; 8], &'a [u8])>
    ensures found { IfSome result (λ read. HasEightContexts read.0 bytes.now read.1.now) }
    ensures only { (counts rest : List ℕ) → IsNoPage rest → HasEightContexts counts bytes.now rest
        → IsSomeAnd result (λ read. (read.0 ≡ counts) × (read.1.now ≡ rest)) }
{
    let (a, b, c, d, next) = four_contexts_at(bytes, 0, room)?;
    let (e, f, g, h, rest) = four_contexts_at(next, 4, room)?;
    Some(([a, b, c, d, e, f, g, h], rest))
}
