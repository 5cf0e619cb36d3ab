//! Lists of at most so many items that grow at their end, and the length of one that isn't kept.
#![tactic(auto)]

mod list;
mod tally;

pub use list::Listing;
pub use tally::Tally;
