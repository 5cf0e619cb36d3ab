//! The texts of results: the block of a mark, the report of a laboratory's jobs, and how many cycles a plan's jobs need.
#![tactic(auto)]

mod blocks;
mod bound;
mod jobs;
mod reports;

pub use blocks::{context_block, word_text};
pub use bound::bounds;
pub use reports::report;
