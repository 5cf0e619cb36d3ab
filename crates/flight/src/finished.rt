//! What completed.

/// What an entry that completed gives.
#[derive(Clone, Copy)]
pub struct Finished {
    /// Its result.
    pub value: u64,
    /// Whether one that waits is behind no open guess any more.
    pub frees: bool,
    /// Whether one more may be due in the same cycle.
    pub more: bool,
}
