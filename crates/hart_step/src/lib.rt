//! Plain RV64I: the effect of an instruction, and a hart that performs one after another.
#![tactic(auto)]

mod decode_cache;
mod effect;
mod environment;
mod hart;
mod mnemonic;
mod stop;
mod values;

pub use effect::{Effect, destination, execute, first_source, following, offset_by, second_source};
pub use environment::Environment;
pub use hart::{Hart, load_width, stop_of_fault, store_width};
pub use stop::Stop;
pub use values::{alu_value, extended, holds, loaded, low, word_value};
