//! Why a mark is not made, or two are not joined.
use std::error::Error;
use std::fmt;

/// Why a mark is not made, or two are not joined. It is printed as its code.
#[derive(Clone, Copy, Debug, PartialEq, Eq, Hash)]
pub enum MarkFault {
    /// C1: the marks' origins differ.
    ForeignOrigin,
    /// C2: the marks are of one origin, and their contexts differ.
    OtherContext,
    /// C3: memory was asked for and refused.
    OutOfMemory,
}

impl fmt::Display for MarkFault {
    ghost use Rattle.checkpoint.specs.FaultText.{fault_text};

    ghost output = { fault_text };

    fn fmt<W: fmt::Write>(&self, f: &mut fmt::Formatter<W>) -> fmt::Result {
        match self {
            MarkFault::ForeignOrigin => write!(f, "C1"),
            MarkFault::OtherContext => write!(f, "C2"),
            MarkFault::OutOfMemory => write!(f, "C3"),
        }
    }
}

impl Error for MarkFault {}
