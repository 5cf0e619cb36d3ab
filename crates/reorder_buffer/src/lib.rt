//! Reorder buffers: rings of fixed capacity, seen as lists whose stamps grow.
//!
//! Entries enter at the end and leave at the head, in order. A squash drops the entries of the end whose stamp is at
//! least a given one.
#![tactic(auto)]

mod fault;
mod ring;
mod stamped;

pub use fault::RingFault;
pub use ring::Ring;
pub use stamped::Stamped;
