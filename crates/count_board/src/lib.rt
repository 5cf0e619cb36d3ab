//! Eight counts, one for each context, that many threads raise and see without waiting.
//!
//! Each thread has a seat of its own. Where all seats are handed back, the board gives the greatest count of each
//! context.
#![tactic(auto)]

mod board;
mod fault;
mod known;
mod rule;

pub use board::{Board, Seat};
pub use fault::BoardFault;
