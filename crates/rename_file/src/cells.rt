//! The values of the registers.

ghost use Rattle.std.specs.Prelude.{true, false, ◌≡◌, ◌↔◌, ◌<◌, ◌≤◌, length, replicate, slice_set, slice_index_or, IfOk, IsSome, IsTrue, Some, None};

use std::alloc::{AllocError, Allocator, Global};
use std::marker::Model;

// Whether the value of a register is still to come stands apart from the value, as in the busy table of a processor:
// to ask for it, or to take the value away, is one byte. There are at most 480 registers.
#[derive(Drop)]
pub(crate) struct Cells<A: Allocator = Global> {
    values: Vec<u64, A>,
    busy: [bool; 480],
}

impl<A: Allocator> Model for Cells<A> {
    ghost use Rattle.std.specs.Prelude.{◌≡◌, ◌≤◌, ℕ, List, Option, length};
    ghost use Rattle.rename_file.specs.Valued.{cells_of};

    ghost Value = { List (Option ℕ) };

    ghost view = { λ c. cells_of c.values.items c.busy };

    ghost invariant = { λ c. (length c.values.items ≤ 480) × (length c.busy ≡ 480) };
}

impl<A: Allocator> Cells<A> {
    // So many registers that hold 0.
    pub(crate) fn new(alloc: A, count: usize) -> Result<Cells<A>, AllocError>
        requires { count ≤ 480 }
        ensures { IfOk result (λ c. c ≡ replicate count (Some 0)) }
    {
        Ok(Cells {
            values: vec![in alloc; 0; count]?,
            busy: [false; 480],
        })
    }

    // Whether a register has its value.
    #[inline(always)]
    pub(crate) fn is_valued(&self, number: usize) -> bool
        requires { number < length self.now }
        ensures { IsTrue result ↔ IsSome (slice_index_or self.now number None) }
    {
        !self.busy[number]
    }

    // The value of a register, once it is there.
    #[inline(always)]
    pub(crate) fn read(&self, number: usize) -> Option<u64>
        requires { number < length self.now }
        ensures { result ≡ slice_index_or self.now number None }
    {
        if self.busy[number] {
            None
        } else {
            Some(self.values[number])
        }
    }

    // The value of a register that has it: without a test, which every operand of an instruction that issues would take.
    #[inline(always)]
    pub(crate) fn at(&self, number: usize) -> u64
        requires known { number < length self.now }
        requires valued { IsSome (slice_index_or self.now number None) }
        ensures { Some result ≡ slice_index_or self.now number None }
    {
        self.values[number]
    }

    // Gives a register its value.
    #[inline(always)]
    pub(crate) fn write(&mut self, number: usize, value: u64)
        requires { number < length self.old }
        ensures { self.new ≡ slice_set self.old number (Some value) }
    {
        self.values[number] = value;
        self.busy[number] = false;
    }

    // Takes the value of a register away, or leaves it there.
    #[inline(always)]
    pub(crate) fn mark(&mut self, number: usize, busy: bool)
        requires known { number < length self.old }
        requires valued { busy ≡ false → IsSome (slice_index_or self.old number None) }
        ensures busy { busy ≡ true → self.new ≡ slice_set self.old number None }
        ensures valued { busy ≡ false → self.new ≡ self.old }
    {
        self.busy[number] = busy;
    }
}
