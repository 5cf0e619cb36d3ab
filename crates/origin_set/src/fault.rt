//! Why an origin or a hart of it is not made.
use std::error::Error;
use std::fmt;

/// Why an origin or a hart of it is not made. It is printed as its code.
#[derive(Clone, Copy, Debug, PartialEq, Eq, Hash)]
pub enum OriginFault {
    /// O1: a program has more than 64 pages of text (65536 words) or 256 pages of data (1048576 bytes).
    TooManyPages,
    /// O2: memory was asked for and refused.
    OutOfMemory,
}

impl fmt::Display for OriginFault {
    ghost use Rattle.origin_set.specs.FaultText.{fault_text};

    ghost output = { fault_text };

    fn fmt<W: fmt::Write>(&self, f: &mut fmt::Formatter<W>) -> fmt::Result {
        match self {
            OriginFault::TooManyPages => write!(f, "O1"),
            OriginFault::OutOfMemory => write!(f, "O2"),
        }
    }
}

impl Error for OriginFault {}
