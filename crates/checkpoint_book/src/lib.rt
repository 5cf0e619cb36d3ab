//! A book of checkpoints: for each context the furthest mark, and the history of the calls that led to it.
#![tactic(auto)]

mod book;
mod call;
mod calls;
mod closing;
mod fault;
mod known;
mod lock;
mod locking;
mod opening;
mod page;
mod rule;

pub use book::{Book, Closed, Pass};
pub use call::Call;
pub use fault::BookFault;
use lock::{Lock, Seat};
use page::Page;
