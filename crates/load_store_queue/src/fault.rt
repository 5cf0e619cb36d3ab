//! Why a load or a store gets no place.
use std::error::Error;
use std::fmt;

/// Why a load or a store gets no place. It is printed as its code.
#[derive(Clone, Copy, Debug, PartialEq, Eq, Hash)]
pub enum QueueFault {
    /// L1: all places are taken.
    Full,
}

impl fmt::Display for QueueFault {
    ghost use Rattle.load_store_queue.specs.FaultText.{fault_text};

    ghost output = { fault_text };

    fn fmt<W: fmt::Write>(&self, f: &mut fmt::Formatter<W>) -> fmt::Result {
        match self {
            QueueFault::Full => write!(f, "L1"),
        }
    }
}

impl Error for QueueFault {}
