//! What may be wrong with the value of a key.

/// What is wrong with the value of a key.
#[derive(Clone, Copy, Debug, PartialEq, Eq)]
pub enum Wrong {
    /// It is of another kind than the key's.
    Kind,
    /// It is a number out of the key's range.
    Range,
    /// It names no policy.
    Policy,
}
