//! What a load gets.

/// What a load gets that asks for its bytes.
#[derive(Clone, Copy, Debug, PartialEq, Eq)]
pub enum LoadAnswer {
    /// The number that its bytes spell, least first.
    Ready {
        /// The number.
        value: u64,
    },
    /// It has to ask again: an older store has completed that has only some of its bytes.
    Wait,
}
