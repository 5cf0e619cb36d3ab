//! The registers that are free.

ghost use Rattle.std.specs.Prelude.{◌≡◌, ◌-◌, ◌<◌, ◌≤◌, [], ◌∷◌, ◌++◌, Some, length, take, slice_get};

use crate::PhysicalRegister;
use join_law::Ctx;
use std::marker::Model;

// A stack. The register at a place stands in the slot after it, so that the slot of the newest can be read where none is
// free. A byte counts them: each count is a slot.
#[derive(Drop)]
pub(crate) struct FreeList {
    slots: [PhysicalRegister; 256],
    count: u8,
}

impl Model for FreeList {
    ghost use Rattle.std.specs.Prelude.{◌≡◌, ◌≤◌, ℕ, List, length};
    ghost use Rattle.rename_file.specs.Stacked.{stacked};

    ghost Value = { List ℕ };

    ghost view = { stacked };

    ghost invariant = { λ l. (length l.slots ≡ 256) × (l.count ≤ 255) };
}

impl FreeList {
    // No register is free.
    pub(crate) fn new() -> FreeList
        ensures { result ≡ [] }
    {
        FreeList {
            slots: [PhysicalRegister::default(); 256],
            count: 0,
        }
    }

    // How many registers are free.
    #[inline(always)]
    pub(crate) fn len(&self) -> usize
        ensures { result ≡ length self.now }
    {
        usize::from(self.count)
    }

    // The register for one of x1 to x31 is the newest, which is taken off. That for x0 is the context's own.
    #[inline(always)]
    pub(crate) fn take_for(&mut self, context: Ctx, rd: u8) -> PhysicalRegister
        requires narrow { rd < 32 }
        requires some { 0 < rd → 0 < length self.old }
        ensures newest { 0 < rd → slice_get self.old (length self.old - 1) ≡ Some result }
        ensures rest { 0 < rd → self.new ≡ take (length self.old - 1) self.old }
        ensures zero { rd ≡ 0 → result ≡ context }
        ensures same { rd ≡ 0 → self.new ≡ self.old }
    {
        let newest = self.slots[usize::from(self.count)];
        let count = needed(rd);
        self.count -= count;
        chosen(newest, context, count)
    }

    // One more register, the newest.
    #[inline(always)]
    pub(crate) fn push(&mut self, register: PhysicalRegister)
        requires { length self.old < 255 }
        ensures { self.new ≡ self.old ++ register ∷ [] }
    {
        self.count += 1;
        self.slots[usize::from(self.count)] = register;
    }
}

// How many registers a destination takes: one for x1 to x31, none for x0.
#[inline(always)]
fn needed(rd: u8) -> u8
    requires { rd < 32 }
    ensures one { 0 < rd → result ≡ 1 }
    ensures none { rd ≡ 0 → result ≡ 0 }
{
    (rd + 31) / 32
}

// A register, where one is needed, and the x0 of a context, where none is: by a mask, since of a choice the compiler
// makes a jump.
#[inline(always)]
fn chosen(register: PhysicalRegister, context: Ctx, count: u8) -> PhysicalRegister
    requires { count ≤ 1 }
    ensures one { count ≡ 1 → result ≡ register }
    ensures none { count ≡ 0 → result ≡ context }
{
    let mask = 0usize.wrapping_sub(usize::from(count));
    let number = register.index() & mask | context.index() & !mask;
    PhysicalRegister::at(number)
}
