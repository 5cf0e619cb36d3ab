//! Why a text isn't assembled.

ghost use Rattle.std.specs.Prelude.{◌≡◌};
ghost use Rattle.rv64_asm.specs.Codes as codes;

use std::alloc::{AllocError, AllocFailed};
use std::error::Error;
use std::fmt;

/// What is wrong with a line.
#[derive(Clone, Copy, Debug, PartialEq, Eq)]
pub enum LineFault {
    /// A1: the word isn't known.
    UnknownWord,
    /// A2: the operands have none of the word's forms, or the word doesn't stand in this part.
    OperandForm,
    /// A3: a number is out of its range.
    OutOfRange,
    /// A4: no line has the label.
    UnknownLabel,
    /// A5: an earlier line has the label.
    LabelTwice,
    /// A6: a target is odd or too far.
    OffsetOutOfRange,
    /// A7: the text goes over 64 pages, or the data over 256.
    TooManyPages,
}

/// The code that a fault is printed by.
fn code_of(fault: LineFault) -> &'static str
    ensures { result.now ≡ codes.code_of fault }
{
    match fault {
        LineFault::UnknownWord => "A1",
        LineFault::OperandForm => "A2",
        LineFault::OutOfRange => "A3",
        LineFault::UnknownLabel => "A4",
        LineFault::LabelTwice => "A5",
        LineFault::OffsetOutOfRange => "A6",
        LineFault::TooManyPages => "A7",
    }
}

impl fmt::Display for LineFault {
    ghost use Rattle.std.specs.Prelude.{Some};
    ghost use Rattle.rv64_asm.specs.Codes.{code_of};

    ghost output = { λ fault. Some (code_of fault) };

    fn fmt<W: fmt::Write>(&self, f: &mut fmt::Formatter<W>) -> fmt::Result {
        f.write_str(code_of(*self))
    }
}

/// Why a text isn't assembled.
#[derive(Clone, Copy, Debug, PartialEq, Eq)]
pub enum AsmFault {
    /// The fault of the text, and its line, counted from 1.
    At { fault: LineFault, line: usize },
    /// A8: memory ran out.
    OutOfMemory,
}

impl fmt::Display for AsmFault {
    ghost use Rattle.std.specs.Prelude.{Some};
    ghost use Rattle.rv64_asm.specs.Codes.{fault_text};

    ghost output = { λ fault. Some (fault_text fault) };

    fn fmt<W: fmt::Write>(&self, f: &mut fmt::Formatter<W>) -> fmt::Result {
        match self {
            AsmFault::At { fault, line } => write!(f, "{fault} line {line}"),
            AsmFault::OutOfMemory => f.write_str("A8"),
        }
    }
}

impl Error for AsmFault {}

impl From<AllocError> for AsmFault {
    ghost use Rattle.std.specs.Prelude.{◌≡◌};
    ghost use Rattle.rv64_asm.specs.declared.fault.AsmFault.TheVariants.{OutOfMemory};

    ghost from_gives = { λ _ e. e ≡ OutOfMemory };

    fn from(_refused: AllocError) -> AsmFault {
        AsmFault::OutOfMemory
    }
}

impl<T: Drop> From<AllocFailed<T>> for AsmFault {
    ghost use Rattle.std.specs.Prelude.{◌≡◌};
    ghost use Rattle.rv64_asm.specs.declared.fault.AsmFault.TheVariants.{OutOfMemory};

    ghost from_gives = { λ _ e. e ≡ OutOfMemory };

    fn from(_refused: AllocFailed<T>) -> AsmFault {
        AsmFault::OutOfMemory
    }
}
