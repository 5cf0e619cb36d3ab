//! One context of an out-of-order core, and the events of a cycle on it and the data flow.
#![tactic(auto)]

mod accesses;
pub mod events;
mod fetching;
mod issuing;
mod track;

pub use entry_stages::Onward;
pub use fetching::fetch;
pub use track::Track;
