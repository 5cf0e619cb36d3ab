//! Where the instructions of an active list stand.

ghost use Rattle.std.specs.Prelude.{◌≡◌, ◌<◌};
ghost use Rattle.data_flow.specs.Slots.{slot_at, slot_of, with_slot};

use crate::operands::{Renamed, Slot};
use rename_file::PhysicalRegister;
use rv64_decode::Register;
use std::mem;
use std::snapshot::Snapshot;

// An array for each field: an instruction that enters has no padding to clear, and a slot is found without a
// multiplication.
#[derive(Drop)]
pub(crate) struct Slots {
    pub destinations: [Register; 64],
    pub renamed_destinations: [PhysicalRegister; 64],
    pub renamed_firsts: [PhysicalRegister; 64],
    pub renamed_seconds: [PhysicalRegister; 64],
    // Contracts see the stamp and the source registers, and no code reads them: a `Snapshot` has no bytes.
    pub unread: Snapshot<Unread>,
}

/// The stamp and the source registers of what was written to slots: of nothing, or of what was written before, then to
/// one slot.
#[derive(Drop)]
pub(crate) enum Unread {
    Nothing,
    After(Snapshot<Unread>, usize, u64, Register, Register),
}

impl Slots {
    /// Slots that all name x0.
    pub(crate) fn new() -> Slots {
        let zero = Register::new(0);
        let unused = PhysicalRegister::default();
        Slots {
            destinations: [zero; 64],
            renamed_destinations: [unused; 64],
            renamed_firsts: [unused; 64],
            renamed_seconds: [unused; 64],
            unread: Snapshot::of(&Unread::Nothing),
        }
    }

    /// What stands in a slot.
    #[inline(always)]
    pub(crate) fn read(&self, slot: usize) -> Slot
        requires { slot < 64 }
        ensures { result ≡ slot_of (slot_at self.now slot) }
    {
        Slot {
            name: self.destinations[slot],
            destination: self.renamed_destinations[slot],
            first: self.renamed_firsts[slot],
            second: self.renamed_seconds[slot],
        }
    }

    /// Puts an instruction into a slot.
    #[inline(always)]
    pub(crate) fn write(&mut self, slot: usize, renamed: Renamed)
        requires { slot < 64 }
        ensures { self.new ≡ with_slot self.old slot renamed }
    {
        let operands = renamed.operands;
        self.destinations[slot] = operands.destination;
        self.renamed_destinations[slot] = renamed.destination;
        self.renamed_firsts[slot] = renamed.first;
        self.renamed_seconds[slot] = renamed.second;
        let before = mem::replace(&mut self.unread, Snapshot::of(&Unread::Nothing));
        self.unread = Snapshot::of(&Unread::After(
            before,
            slot,
            operands.stamp,
            operands.first,
            operands.second,
        ));
    }
}
