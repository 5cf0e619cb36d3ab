//! Why registers are not made, or none is named.
use std::error::Error;
use std::fmt;

/// Why registers are not made, or none is named. It is printed as its code.
#[derive(Clone, Copy, Debug, PartialEq, Eq, Hash)]
pub enum RenameFault {
    /// N1: the extra registers are all in use.
    NoneFree,
    /// N2: memory was asked for and refused.
    OutOfMemory,
}

impl fmt::Display for RenameFault {
    ghost use Rattle.rename_file.specs.FaultText.{fault_text};

    ghost output = { fault_text };

    fn fmt<W: fmt::Write>(&self, f: &mut fmt::Formatter<W>) -> fmt::Result {
        match self {
            RenameFault::NoneFree => write!(f, "N1"),
            RenameFault::OutOfMemory => write!(f, "N2"),
        }
    }
}

impl Error for RenameFault {}
