//! Why a book is not made, or a mark not merged or read.
use std::alloc::AllocError;
use std::error::Error;
use std::fmt;

/// Why a book is not made, or a mark not merged or read. It is printed as its code.
#[derive(Clone, Copy, Debug, PartialEq, Eq, Hash)]
pub enum BookFault {
    /// K1: the mark is of another origin than the book.
    ForeignOrigin,
    /// K2: memory was asked for and refused.
    OutOfMemory,
}

impl fmt::Display for BookFault {
    ghost use Rattle.checkpoint_book.specs.FaultText.{fault_text};

    ghost output = { fault_text };

    fn fmt<W: fmt::Write>(&self, f: &mut fmt::Formatter<W>) -> fmt::Result {
        match self {
            BookFault::ForeignOrigin => write!(f, "K1"),
            BookFault::OutOfMemory => write!(f, "K2"),
        }
    }
}

impl Error for BookFault {}

impl From<AllocError> for BookFault {
    ghost use Rattle.std.specs.Prelude.{◌≡◌};
    ghost use Rattle.checkpoint_book.specs.declared.fault.BookFault.TheVariants.{OutOfMemory};

    ghost from_gives = { λ _ e. e ≡ OutOfMemory };

    fn from(_refused: AllocError) -> BookFault {
        BookFault::OutOfMemory
    }
}
