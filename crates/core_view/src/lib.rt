//! What an out-of-order core shows of itself: entries in flight with their outcomes, and notes of cycles.
#![tactic(auto)]

mod access;
mod computation;
mod decoded;
mod entry;
mod note;
mod operation;
mod outcome;
mod parts;
mod progress;
mod span;
mod status;

pub use access::{access_fault, write_access};
pub use decoded::{Decoded, OperationKind};
pub use entry::{Entry, Execution, Stage};
pub use note::{CycleNote, EntryId, Issue};
pub use operation::Operation;
pub use outcome::{Access, Outcome, Step, goes_to, loads_at, stores_at};
pub use progress::Progress;
pub use span::{Bytes, Span};
pub use status::Status;
