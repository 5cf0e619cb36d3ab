//! Why a checkpoint file isn't written, read or admitted.
use std::error::Error;
use std::fmt;

/// Why a checkpoint file isn't written, read or admitted. It is printed as its code.
#[derive(Clone, Copy, Debug, PartialEq, Eq, Hash)]
pub enum FileFault {
    /// F1: the text isn't of the form.
    Form,
    /// F2: it is of another version.
    Version,
    /// F3: its seal isn't the digest of what stands before.
    Seal,
    /// F4: it is of another origin.
    ForeignOrigin,
    /// F5: plain RV64I doesn't reach a context's state in its count.
    NotReached,
    /// F6: a count is over the replay limit.
    OverLimit,
    /// F7: memory was asked for and refused.
    OutOfMemory,
    /// F8: the reader or writer failed, or the file is too long.
    DeviceFailed,
}

impl fmt::Display for FileFault {
    ghost use Rattle.checkpoint_file.specs.FaultText.{fault_text};

    ghost output = { fault_text };

    fn fmt<W: fmt::Write>(&self, f: &mut fmt::Formatter<W>) -> fmt::Result {
        match self {
            FileFault::Form => write!(f, "F1"),
            FileFault::Version => write!(f, "F2"),
            FileFault::Seal => write!(f, "F3"),
            FileFault::ForeignOrigin => write!(f, "F4"),
            FileFault::NotReached => write!(f, "F5"),
            FileFault::OverLimit => write!(f, "F6"),
            FileFault::OutOfMemory => write!(f, "F7"),
            FileFault::DeviceFailed => write!(f, "F8"),
        }
    }
}

impl Error for FileFault {}
