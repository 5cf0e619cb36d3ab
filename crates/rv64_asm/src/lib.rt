//! The assembler: text to the words and bytes of a program.
#![tactic(auto)]

mod assembly;
mod fault;
mod instruction;
mod label_iter;
mod labels;
mod layout;
mod lexing;
mod mnemonics;
mod names;
mod numbers;
mod operands;
mod place;
mod printed_forms;
mod printing;
mod program;
mod resolving;
mod statement;
mod targets;
mod words;
mod writing;

pub use assembly::{Assembly, assemble};
pub use fault::{AsmFault, LineFault};
pub use label_iter::LabelIter;
pub use labels::Labels;
pub use printing::show;
pub use program::Program;
