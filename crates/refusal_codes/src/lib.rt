//! The codes of refusals, and what each means.
#![tactic(auto)]

mod code;
mod explanation;

pub use code::Code;
