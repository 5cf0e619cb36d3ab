//! A word of what has yet to come to its turn, a bit each.

ghost use Rattle.std.specs.Prelude.{◌≡◌, ◌≢◌, ℕ, ◌<◌, false, IsTrue};
ghost use Rattle.std.specs.Int.{bit_at};

/// The word once its first bit had its turn: without it, unless it stays.
// It takes no jump: whether the bit goes would be guessed wrongly too often.
#[inline(always)]
pub fn after_first(word: u64, stays: bool) -> u64
    requires { 0 < word }
    ensures kept { IsTrue stays → result ≡ word }
    ensures clear { stays ≡ false → (t : ℕ) → bit_at word t ≡ 1 → ((i : ℕ) → i < t → bit_at word i ≡ 0) → bit_at result t ≡ 0 }
    ensures others { (t : ℕ) → bit_at word t ≡ 1 → ((i : ℕ) → i < t → bit_at word i ≡ 0) → (i : ℕ) → i ≢ t → bit_at result i ≡ bit_at word i }
{
    word & (word - 1 + u64::from(stays))
}
