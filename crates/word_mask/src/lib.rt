//! Sets of at most 64 places as words of 64 bits: a place is in the set where the word has its bit.
#![tactic(auto)]

mod mask;

pub use mask::{
    added, assigned, both, cleared, has, lowest, lowest_clear, removed, without, without_each,
};
