//! Why a ring is not made, or an entry not taken in.
use std::error::Error;
use std::fmt;

/// Why a ring is not made, or an entry not taken in. It is printed as its code.
#[derive(Clone, Copy, Debug, PartialEq, Eq, Hash)]
pub enum RingFault {
    /// B1: the ring is full.
    Full,
    /// B2: memory was asked for and refused.
    OutOfMemory,
}

impl fmt::Display for RingFault {
    ghost use Rattle.reorder_buffer.specs.FaultText.{fault_text};

    ghost output = { fault_text };

    fn fmt<W: fmt::Write>(&self, f: &mut fmt::Formatter<W>) -> fmt::Result {
        match self {
            RingFault::Full => write!(f, "B1"),
            RingFault::OutOfMemory => write!(f, "B2"),
        }
    }
}

impl Error for RingFault {}
