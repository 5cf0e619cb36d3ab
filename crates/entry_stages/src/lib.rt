//! What the stages of the core do with one entry, without the track that it stands in.
#![tactic(auto)]

mod accesses;
mod completion;
mod decoded_memory;
mod effects;
mod lags;
mod prediction;
mod renaming;
mod retirement;

pub use accesses::retire_access;
pub use completion::{fetch_pc_after, is_mispredicted};
pub use decoded_memory::DecodedMemory;
pub use effects::{computed, effect_at, span_of};
pub use lags::{ONE_CYCLE, address_of, due_after, kind_of, lag_of, refused};
pub use prediction::{Onward, followed, learn};
pub use renaming::{is_past_front, operands};
pub use retirement::{set_register, step_of, stop_of};
