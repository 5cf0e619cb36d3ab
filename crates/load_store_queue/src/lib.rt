//! The loads and stores in flight of one context of an out-of-order core, in order of stamp.
//!
//! A load takes its bytes from the newest older store that shares a byte with it and has completed, where that
//! covers the load, else from memory. A store that completes names the oldest issued younger load that shares a byte
//! with it. The entries are lent: what is kept of a load or a store stands in its entry of the flight.
#![tactic(auto)]

mod answer;
mod fault;
mod load_store_queue;
mod reading;
mod search;

pub use answer::LoadAnswer;
pub use fault::QueueFault;
pub use load_store_queue::LoadStoreQueue;
