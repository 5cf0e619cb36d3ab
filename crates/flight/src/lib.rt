//! The instructions of a context in flight: an entry each, in order of stamp, and words with a bit an entry that answer
//! what is asked in each cycle.
#![tactic(auto)]

mod finished;
mod flight;
mod marks;

pub use finished::Finished;
pub use flight::Flight;
