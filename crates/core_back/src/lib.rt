//! The state of an out-of-order core, and the events of a cycle.
#![tactic(auto)]

mod completing;
mod fetching;
mod first;
mod issuing;
mod machine;
mod renaming;
mod retiring;
mod selection;

pub use completing::{Completion, complete};
pub use issuing::issue;
pub use machine::Machine;
pub use retiring::retire;
