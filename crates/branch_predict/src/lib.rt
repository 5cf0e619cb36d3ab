//! Where a branch or a jump is guessed to go on, before its sources have values.
//!
//! `Guess` is the trait of all guesses. A core asks one at fetch and tells it at retirement what came true, and is
//! right whatever the guesses are. `Tables` is the predictor with counters, return stacks and last targets.
#![tactic(auto)]

mod constant;
mod context_tables;
mod counter;
mod guess;
mod return_stack;
mod tables;

pub use constant::{Always, Sequential};
pub use guess::Guess;
pub use tables::Tables;
