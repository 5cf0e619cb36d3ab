//! Why a board is not made.
use std::alloc::AllocError;
use std::error::Error;
use std::fmt;

/// Why a board is not made. It is printed as its code.
#[derive(Clone, Copy, Debug, PartialEq, Eq, Hash)]
pub enum BoardFault {
    /// G1: memory was asked for and refused.
    OutOfMemory,
}

impl fmt::Display for BoardFault {
    ghost use Rattle.count_board.specs.FaultText.{fault_text};

    ghost output = { fault_text };

    fn fmt<W: fmt::Write>(&self, f: &mut fmt::Formatter<W>) -> fmt::Result {
        match self {
            BoardFault::OutOfMemory => write!(f, "G1"),
        }
    }
}

impl Error for BoardFault {}

impl From<AllocError> for BoardFault {
    ghost use Rattle.std.specs.Prelude.{◌≡◌};
    ghost use Rattle.count_board.specs.declared.fault.BoardFault.TheVariants.{OutOfMemory};

    ghost from_gives = { λ _ e. e ≡ OutOfMemory };

    fn from(_refused: AllocError) -> BoardFault {
        BoardFault::OutOfMemory
    }
}
