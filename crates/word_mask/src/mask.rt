//! The bits of a word.

ghost use Rattle.std.specs.Prelude.{◌≡◌, ℕ, ◌+◌, ◌<◌, true, false, not, ◌&&◌, ◌==◌, count_ones, if◌then◌else◌, slice_index};
ghost use Rattle.word_mask.specs.Mask.{has};

use std::simd::prelude::*;

/// Whether a word has the bit of a place.
pub fn has(word: u64, place: usize) -> bool
    ensures { result ≡ has word place }
{
    place < 64 && (word >> place as u32) & 1 == 1
}

/// The word with the bit of a place as told, and all others as they are.
pub fn assigned(word: u64, place: usize, flag: bool) -> u64
    requires { place < 64 }
    ensures { (p : ℕ) → has result p ≡ (if p == place then flag else has word p) }
{
    let bit = 1u64 << place as u32;
    if flag { word | bit } else { word & !bit }
}

/// The word, with the bit of a place where told so. It takes no jump.
#[inline(always)]
pub fn added(word: u64, place: usize, flag: bool) -> u64
    requires { place < 64 }
    ensures { (p : ℕ) → has result p ≡ (if (p == place) && flag then true else has word p) }
{
    word | (u64::from(flag) << place as u32)
}

/// The word, without the bit of a place where told so. It takes no jump.
#[inline(always)]
pub fn removed(word: u64, place: usize, flag: bool) -> u64
    requires { place < 64 }
    ensures { (p : ℕ) → has result p ≡ (if (p == place) && flag then false else has word p) }
{
    word & !(u64::from(flag) << place as u32)
}

/// The word without a bit that it has.
pub fn cleared(word: u64, place: usize) -> u64
    requires bound { place < 64 }
    requires set { has word place ≡ true }
    ensures bits { (p : ℕ) → has result p ≡ (has word p && not (p == place)) }
    ensures ones { count_ones result + 1 ≡ count_ones word }
{
    word & !(1u64 << place as u32)
}

/// The bits that both words have.
pub fn both(left: u64, right: u64) -> u64
    ensures { (p : ℕ) → has result p ≡ (has left p && has right p) }
{
    left & right
}

/// The bits of a word that another lacks.
pub fn without(word: u64, other: u64) -> u64
    ensures { (p : ℕ) → has result p ≡ (has word p && not (has other p)) }
{
    word & !other
}

/// The bits of each of eight words that another lacks.
pub fn without_each(words: &mut [u64; 8], other: u64)
    ensures { (i p : ℕ) → i < 8 → has (slice_index words.new i) p ≡ (has (slice_index words.old i) p && not (has other p)) }
{
    let [w0, w1, w2, w3, w4, w5, w6, w7] = *words;
    let kept = u64x8::from_array([w0, w1, w2, w3, w4, w5, w6, w7]) & u64x8::splat(!other);
    *words = kept.to_array();
}

/// The lowest place of a word that isn't 0.
pub fn lowest(word: u64) -> usize
    requires { 0 < word }
    ensures set { has word result ≡ true }
    ensures below { (p : ℕ) → p < result → has word p ≡ false }
    ensures bound { result < 64 }
{
    word.trailing_zeros() as usize
}

/// The lowest place that a word lacks.
pub fn lowest_clear(word: u64) -> usize
    requires { count_ones word < 64 }
    ensures clear { has word result ≡ false }
    ensures below { (p : ℕ) → p < result → has word p ≡ true }
    ensures bound { result < 64 }
{
    word.trailing_ones() as usize
}
