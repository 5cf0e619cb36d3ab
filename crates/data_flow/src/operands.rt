//! The registers of an instruction in flight.

ghost use Rattle.std.specs.Prelude.{◌≡◌, ◌<◌, ◌==◌, not};

use rename_file::{PhysicalRegister, Rename};
use rv64_decode::Register;

/// The registers that an instruction in flight names: x0 where it has none.
#[derive(Clone, Copy, Debug, PartialEq, Eq)]
pub struct Operands {
    /// Its stamp, which grows within its context.
    pub stamp: u64,
    /// The register that its result goes to.
    pub destination: Register,
    /// The register of its first source.
    pub first: Register,
    /// The register of its second source.
    pub second: Register,
}

/// An instruction with the physical registers that these stand for.
#[derive(Clone, Copy)]
pub(crate) struct Renamed {
    /// The registers that it names.
    pub operands: Operands,
    /// The physical register of its result. It is of no use where it has no destination.
    pub destination: PhysicalRegister,
    /// The physical register of its first source.
    pub first: PhysicalRegister,
    /// The physical register of its second source.
    pub second: PhysicalRegister,
}

/// What is read of an instruction in flight: all but its stamp, and its source registers, for which the physical ones
/// stand.
#[derive(Clone, Copy)]
pub(crate) struct Slot {
    /// The register that its result goes to: x0 where it has no destination.
    pub name: Register,
    /// The physical register of its result. It is of no use where it has no destination.
    pub destination: PhysicalRegister,
    /// The physical register of its first source.
    pub first: PhysicalRegister,
    /// The physical register of its second source.
    pub second: PhysicalRegister,
}

impl Slot {
    /// Whether it has a result that others may read.
    pub fn has_destination(&self) -> bool
        ensures { result ≡ not (self.now.name == 0) }
    {
        self.name.index() != 0
    }

    /// Its destination with the physical register of its result.
    #[inline(always)]
    pub fn rename(&self) -> Rename
        ensures { result ≡ record { rd = self.now.name; register = self.now.destination } }
    {
        Rename {
            rd: self.name.index(),
            register: self.destination,
        }
    }

    /// All bits where it has a result that others may read, and none where it has not.
    #[inline(always)]
    pub fn result_mask(&self) -> u64
        ensures none { self.now.name ≡ 0 → result ≡ 0 }
        ensures all { 0 < self.now.name → result ≡ 18446744073709551615 }
    {
        let count = (u64::from(self.name.index()) + 31) / 32;
        0u64.wrapping_sub(count)
    }
}
