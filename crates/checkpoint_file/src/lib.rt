//! Checkpoint files: the text of eight marks, written to a sink, and its form, read from the front.
#![tactic(auto)]

pub mod device;
mod fault;
mod input;
mod matching;
mod output;
mod reading;
mod writing;

pub use fault::FileFault;
pub use input::read;
pub use output::write;
