//! A call that a pass made.

/// What a pass did at one context, with the number of the pass.
#[derive(Clone, Copy, Debug, PartialEq, Eq)]
pub enum Call {
    /// The pass merged a mark of this count.
    Merge(u64, u64),
    /// The pass read a mark of this count.
    Read(u64, u64),
}
