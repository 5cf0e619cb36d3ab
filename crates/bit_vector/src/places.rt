//! A word as the bits of a list, the first of which is bit 0. Its other bits are clear.

ghost use Rattle.std.specs.Prelude.{◌≡◌, ℕ, ◌<◌, ◌≤◌, IfSome, None, Bool, true, false, List, [], ◌∷◌, ◌++◌, length, take, drop, slice_set, slice_index, count_by};
ghost use Rattle.std.specs.Int.{bit_at};
ghost use Rattle.std.specs.Simd.Lanes.{mask_l};

use std::simd::prelude::*;

/// The word with a bit more, at its end.
#[inline(always)]
pub fn push(word: u64, place: usize, bit: bool) -> u64
    requires { place < 64 }
    ensures { (bits : List Bool) → word ≡ mask_l bits → place ≡ length bits → result ≡ mask_l (bits ++ bit ∷ []) }
{
    word | (u64::from(bit) << place)
}

/// The word with the bit of a place set.
#[inline(always)]
fn set(word: u64, place: usize) -> u64
    requires { place < 64 }
    ensures { (bits : List Bool) → word ≡ mask_l bits → place < length bits → result ≡ mask_l (slice_set bits place true) }
{
    word | (1 << place)
}

/// The word with the bit of a place clear.
#[inline(always)]
fn clear(word: u64, place: usize) -> u64
    requires { place < 64 }
    ensures { (bits : List Bool) → word ≡ mask_l bits → place < length bits → length bits ≤ 64 → result ≡ mask_l (slice_set bits place false) }
{
    word & !(1 << place)
}

/// The word with another bit at a place.
#[inline(always)]
pub fn assign(word: u64, place: usize, bit: bool) -> u64
    requires { place < 64 }
    ensures { (bits : List Bool) → word ≡ mask_l bits → place < length bits → length bits ≤ 64 → result ≡ mask_l (slice_set bits place bit) }
{
    // Without a jump on the bit.
    clear(word, place) | (u64::from(bit) << place)
}

/// The word without its first bit.
#[inline(always)]
pub fn without_first(word: u64) -> u64
    ensures { (bits : List Bool) → word ≡ mask_l bits → result ≡ mask_l (drop 1 bits) }
{
    word >> 1
}

/// Eight words without their first bits.
#[inline(always)]
pub fn without_first_of_each(words: [u64; 8]) -> [u64; 8]
    ensures { (i : ℕ) (bits : List Bool) → i < 8 → slice_index words i ≡ mask_l bits → slice_index result i ≡ mask_l (drop 1 bits) }
{
    let shifted = u64x8::from_array(words) >> u64x8::splat(1);
    shifted.to_array()
}

/// The first so many bits of the word.
#[inline(always)]
pub fn first(word: u64, count: usize) -> u64
    ensures { (bits : List Bool) → word ≡ mask_l bits → length bits ≤ 64 → result ≡ mask_l (take count bits) }
{
    if count >= 64 {
        return word;
    }
    word & ((1 << count) - 1)
}

/// How many bits are set.
#[inline(always)]
pub fn count(word: u64) -> usize
    ensures { (bits : List Bool) → word ≡ mask_l bits → result ≡ count_by (λ bit. bit) bits }
{
    word.count_ones() as usize
}

/// The first place whose bit is set, or 64 where there is none.
#[inline(always)]
pub fn lowest(word: u64) -> usize
    ensures within { result ≤ 64 }
    ensures clear { (i : ℕ) → i < result → bit_at word i ≡ 0 }
    ensures set { result < 64 → bit_at word result ≡ 1 }
{
    word.trailing_zeros() as usize
}

/// The bits up to the first that is set, with it; all where none is.
#[inline(always)]
pub fn up_to_first(word: u64) -> u64
    ensures set { (i : ℕ) → i < 64 → ((j : ℕ) → j < i → bit_at word j ≡ 0) → bit_at result i ≡ 1 }
    ensures clear { (i : ℕ) → bit_at result i ≡ 1 → (j : ℕ) → j < i → bit_at word j ≡ 0 }
{
    word ^ word.wrapping_sub(1)
}

/// Whether a word has a bit that another lacks.
#[inline(always)]
pub fn has_more(word: u64, other: u64) -> bool
    ensures none { result ≡ false → (i : ℕ) → bit_at word i ≡ 1 → bit_at other i ≡ 1 }
    ensures all { ((i : ℕ) → bit_at word i ≡ 1 → bit_at other i ≡ 1) → result ≡ false }
{
    word & !other != 0
}

/// Whether a word has a bit at a place or above it, and another word has the bit of that place.
// Without a jump on the one or the other.
#[inline(always)]
pub fn has_from(word: u64, place: usize, other: u64) -> bool
    requires { place < 64 }
    ensures none { result ≡ false → bit_at other place ≡ 1 → (i : ℕ) → place ≤ i → bit_at word i ≡ 0 }
    ensures place { result ≡ true → bit_at other place ≡ 1 }
    ensures some { ((i : ℕ) → place ≤ i → bit_at word i ≡ 0) → result ≡ false }
{
    // Where the bit is clear, that is the greatest number.
    let below = (other & (1 << place)).wrapping_sub(1);
    below < word
}

/// The bits that both words have.
#[inline(always)]
pub fn both(word: u64, other: u64) -> u64
    ensures set { (i : ℕ) → bit_at word i ≡ 1 → bit_at other i ≡ 1 → bit_at result i ≡ 1 }
    ensures first { (i : ℕ) → bit_at result i ≡ 1 → bit_at word i ≡ 1 }
    ensures second { (i : ℕ) → bit_at result i ≡ 1 → bit_at other i ≡ 1 }
{
    word & other
}

/// The first place from one on whose bit is set, or 64 where there is none.
#[inline(always)]
pub fn next(word: u64, from: usize) -> usize
    requires { from ≤ 64 }
    ensures from { from ≤ result }
    ensures within { result ≤ 64 }
    ensures clear { (i : ℕ) → from ≤ i → i < result → bit_at word i ≡ 0 }
    ensures set { result < 64 → bit_at word result ≡ 1 }
{
    if from == 64 {
        return 64;
    }
    let rest = word >> from;
    if rest == 0 {
        return 64;
    }
    from + rest.trailing_zeros() as usize
}

/// The last place below one whose bit is set.
#[inline(always)]
pub fn last(word: u64, before: usize) -> Option<usize>
    requires { before ≤ 64 }
    ensures below { IfSome result (λ place. place < before) }
    ensures set { IfSome result (λ place. bit_at word place ≡ 1) }
    ensures clear { IfSome result (λ place. (i : ℕ) → place < i → i < before → bit_at word i ≡ 0) }
    ensures none { result ≡ None → (i : ℕ) → i < before → bit_at word i ≡ 0 }
{
    if before == 0 {
        return None;
    }
    // The place right below is the top bit.
    let rest = word << (64 - before);
    if rest == 0 {
        return None;
    }
    Some(before - 1 - rest.leading_zeros() as usize)
}
