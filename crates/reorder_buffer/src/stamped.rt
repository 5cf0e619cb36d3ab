//! What an entry of a ring tells.

ghost use Rattle.std.specs.Prelude.{◌≡◌, ℕ};

/// A value with a stamp, which orders it among others.
pub trait Stamped: Drop {
    /// The stamp of a value.
    ghost stamp_of: { Self → ℕ };

    /// The stamp.
    fn stamp(&self) -> u64
        ensures { result ≡ stamp_of self.now };
}
