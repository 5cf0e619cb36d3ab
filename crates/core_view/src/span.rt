//! Ranges of addresses that loads and stores touch, and the bytes of a store.
ghost use Rattle.std.specs.Prelude.{◌≡◌, ◌↔◌, ◌<◌, ◌/◌, ◌%◌, ◌^◌, ℕ, IsTrue};
ghost use Rattle.core_view.specs.Spans.{contains as contains_of, shares as shares_of, covers as covers_of, byte_after, part_of, number_in};

/// The bytes from an address upward that a load reads or a store writes.
#[derive(Clone, Copy, Debug, PartialEq, Eq)]
pub struct Span {
    /// The first address.
    pub address: u64,
    /// How many bytes: 1, 2, 4 or 8 of an access.
    pub size: u8,
}

impl Span {
    /// Whether an address is in the span.
    #[inline(always)]
    pub fn contains(self, address: u64) -> bool
        ensures { result ≡ contains_of self address }
    {
        self.address <= address && address - self.address < u64::from(self.size)
    }

    /// Whether some byte is in both spans.
    #[inline(always)]
    pub fn shares(self, other: Span) -> bool
        ensures is { result ≡ shares_of self other }
        ensures some { IsTrue result ↔
            ((x : ℕ) × IsTrue (contains_of self x) × IsTrue (contains_of other x)) }
    {
        let first = self.address.max(other.address);
        self.contains(first) && other.contains(first)
    }

    /// Whether every byte of another span is in this one.
    #[inline(always)]
    pub fn covers(self, other: Span) -> bool
        ensures is { result ≡ covers_of self other }
        ensures each { 0 < other.size → (IsTrue result ↔
            ((x : ℕ) → IsTrue (contains_of other x) → IsTrue (contains_of self x))) }
    {
        if other.address < self.address || self.size < other.size {
            return false;
        }
        other.address - self.address <= u64::from(self.size - other.size)
    }
}

/// What a store writes: the lowest bytes of a value, least first, over a span.
#[derive(Clone, Copy, Debug, PartialEq, Eq)]
pub struct Bytes {
    /// Where they stand.
    pub span: Span,
    /// Their value.
    pub value: u64,
}

impl Bytes {
    /// The number that these bytes spell at a span that theirs covers: what a load of it takes
    /// from the store.
    #[inline]
    pub fn part(self, span: Span) -> u64
        ensures is { result ≡ part_of self span }
        ensures read { IsTrue (covers_of self.span span) → (bytes : ℕ → ℕ) →
            result ≡ number_in (byte_after bytes self) span }
    {
        let below = span.address.saturating_sub(self.span.address);
        lowest(without_lowest(self.value, below), span.size)
    }
}

/// A number without so many of its lowest bytes.
#[inline(always)]
fn without_lowest(value: u64, count: u64) -> u64
    ensures { result ≡ value / 256 ^ count }
{
    if count < 8 { value >> (8 * count) } else { 0 }
}

/// So many of the lowest bytes of a number.
#[inline(always)]
fn lowest(value: u64, count: u8) -> u64
    ensures { result ≡ value % 256 ^ count }
{
    if count < 8 {
        value % (1 << (8 * count))
    } else {
        value
    }
}
