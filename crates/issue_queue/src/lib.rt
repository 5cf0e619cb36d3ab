//! The issue queue that eight contexts share: entries that wait for their sources, and the order in which ready
//! ones are issued.
#![tactic(auto)]

mod arrivals;
mod entries;
mod entry;
mod order;
mod places;
mod queue;
mod selecting;
mod slots;
mod stamps;

pub use entry::{QueueView, Reading, Source, Waiting};
pub use order::{BranchFirst, NamedOrder, OldestFirst, Order, SpecLast};
pub use queue::{Queue, QueueFault};
