//! Why a hart stops.

ghost use Rattle.std.specs.Prelude.{◌≡◌};
ghost use Rattle.hart_step.specs.Causes.{cause_of};

/// Why an instruction stops its hart. It changes nothing and is not counted.
#[derive(Clone, Copy, Debug, PartialEq, Eq, Hash)]
pub enum Stop {
    /// The target of a jump or of a taken branch is no multiple of four.
    TargetMisaligned,
    /// The four bytes at the pc are not all executable.
    FetchAccess,
    /// The word at the pc is no instruction.
    Illegal,
    /// EBREAK.
    Ebreak,
    /// The address of a load is no multiple of its width.
    LoadMisaligned,
    /// A byte of a load is not mapped.
    LoadAccess,
    /// The address of a store is no multiple of its width.
    StoreMisaligned,
    /// A byte of a store is not writable.
    StoreAccess,
    /// ECALL.
    Ecall,
}

impl Stop {
    /// The number of the cause, from 0 to 8, as the privileged standard numbers exceptions.
    pub fn cause(self) -> u8
        ensures { result ≡ cause_of self }
    {
        match self {
            Stop::TargetMisaligned => 0,
            Stop::FetchAccess => 1,
            Stop::Illegal => 2,
            Stop::Ebreak => 3,
            Stop::LoadMisaligned => 4,
            Stop::LoadAccess => 5,
            Stop::StoreMisaligned => 6,
            Stop::StoreAccess => 7,
            Stop::Ecall => 8,
        }
    }
}
