//! A word as bits of slots in a round: a bit may be set that need not be.

ghost use Rattle.std.specs.Prelude.{◌≢◌, ◌+◌, ◌%◌, ◌≡◌, ℕ, ◌<◌, ◌≤◌};
ghost use Rattle.std.specs.Int.{bit_at};

/// The word with the bit of a slot set.
#[inline(always)]
pub fn set_slot(word: u64, slot: usize) -> u64
    requires { slot < 64 }
    ensures set { bit_at result slot ≡ 1 }
    ensures others { (i : ℕ) → bit_at word i ≡ 1 → bit_at result i ≡ 1 }
    ensures unchanged { (i : ℕ) → i ≢ slot → bit_at result i ≡ bit_at word i }
{
    word | (1 << slot)
}

/// The word with the bit of a slot clear.
#[inline(always)]
pub fn clear_slot(word: u64, slot: usize) -> u64
    requires { slot < 64 }
    ensures clear { bit_at result slot ≡ 0 }
    ensures others { (i : ℕ) → i < 64 → i ≢ slot → bit_at result i ≡ bit_at word i }
{
    word & !(1 << slot)
}

/// The word turned, so that a slot comes first.
#[inline(always)]
pub fn turn(word: u64, base: usize) -> u64
    requires { base < 64 }
    ensures { (i : ℕ) → i < 64 → bit_at result i ≡ bit_at word ((base + i) % 64) }
{
    word.rotate_right(base as u32)
}

/// The first eight bits of the word, turned, so that a place comes first. The others are clear.
#[inline(always)]
pub fn turn_eight(word: u64, base: usize) -> u64
    requires { base < 8 }
    ensures turned { (i : ℕ) → i < 8 → bit_at result i ≡ bit_at word ((base + i) % 8) }
    ensures clear { (i : ℕ) → 8 ≤ i → bit_at result i ≡ 0 }
{
    // The eight bits stand twice in a row.
    let twice = word % 256 * 257;
    (twice >> base) % 256
}
