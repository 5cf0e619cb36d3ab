//! What the instructions in flight compute with. A contract names no physical register.
#![tactic(auto)]

mod active_list;
mod data_flow;
mod operands;
mod slots;

pub use data_flow::DataFlow;
pub use operands::Operands;
