//! Renaming: the physical registers that eight contexts share.
//!
//! Each context has a committed register for each of x0 to x31, and a list of renames: which register
//! an instruction in flight writes in place of which. A source is the newest rename of its name, else
//! the committed register. A physical register stands in one place: it is committed, renamed to, or free.
#![tactic(auto)]

mod cells;
mod fault;
mod free_list;
mod physical_register;
mod registers;
mod rename_map;
mod renames;

pub use fault::RenameFault;
pub use physical_register::PhysicalRegister;
pub use registers::Registers;
pub use rename_map::Rename;
