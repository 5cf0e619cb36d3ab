//! The instructions of a context that are in flight, oldest first.

ghost use Rattle.std.specs.Prelude.{◌≡◌, ◌-◌, ◌<◌, ◌≤◌, [], ◌∷◌, ◌++◌, Some, option_map, length, take, drop, replicate, slice_get};
ghost use Rattle.circular_buffer.specs.Buffer.{buffer, last_item};
ghost use Rattle.data_flow.specs.Slots.{slot_of};

use crate::operands::{Renamed, Slot};
use crate::slots::Slots;
use std::marker::Model;

// Instructions are numbered modulo 256 as they enter, and each stands in the slot of its number modulo 64. Both are
// powers of two, so that a slot is found without a test. There is room for at most 64.
#[derive(Drop)]
pub(crate) struct ActiveList {
    // The number of the oldest.
    head: u8,
    // The number of the next that enters.
    tail: u8,
    slots: Slots,
    room: usize,
}

impl Model for ActiveList {
    ghost use Rattle.std.specs.Prelude.{◌≤◌};
    ghost use Rattle.circular_buffer.specs.Buffer.{Buffer};
    ghost use Rattle.data_flow.specs.declared.operands.Renamed.{Renamed};
    ghost use Rattle.data_flow.specs.Numbered.{count};
    ghost use Rattle.data_flow.specs.Listed.{listed};

    ghost Value = { Buffer Renamed };

    ghost view = { listed };

    ghost invariant = { λ l. (count l.head l.tail ≤ 64) × (l.room ≤ 64) };
}

impl ActiveList {
    /// Room for so many instructions, and none.
    pub(crate) fn new(room: usize) -> ActiveList
        requires { room ≤ 64 }
        ensures { result ≡ buffer [] room }
    {
        ActiveList {
            head: 0,
            tail: 0,
            slots: Slots::new(),
            room,
        }
    }

    /// How many instructions there are.
    #[inline(always)]
    pub(crate) fn len(&self) -> usize
        ensures value { result ≡ length self.now.items }
        ensures bound { result ≤ 64 }
    {
        usize::from(self.tail.wrapping_sub(self.head))
    }

    /// The instruction at a place, counted from the oldest.
    #[inline(always)]
    pub(crate) fn at(&self, place: usize) -> Slot
        requires { place < length self.now.items }
        ensures { option_map slot_of (slice_get self.now.items place) ≡ Some result }
    {
        self.slots.read((usize::from(self.head) + place) % 64)
    }

    /// One more instruction, the youngest.
    #[inline(always)]
    pub(crate) fn push(&mut self, renamed: Renamed)
        requires { length self.old.items < self.old.capacity }
        ensures { self.new ≡ buffer (self.old.items ++ renamed ∷ []) self.old.capacity }
    {
        self.slots.write(usize::from(self.tail % 64), renamed);
        self.tail = self.tail.wrapping_add(1);
    }

    /// The oldest instruction, which is taken off.
    #[inline(always)]
    pub(crate) fn pop_front(&mut self) -> Slot
        requires { 0 < length self.old.items }
        ensures oldest { option_map slot_of (slice_get self.old.items 0) ≡ Some result }
        ensures rest { self.new ≡ buffer (drop 1 self.old.items) self.old.capacity }
    {
        let oldest = self.at(0);
        self.head = self.head.wrapping_add(1);
        oldest
    }

    /// The youngest instruction, which is taken off.
    pub(crate) fn pop_back(&mut self) -> Slot
        requires { 0 < length self.old.items }
        ensures youngest { option_map slot_of (last_item self.old.items) ≡ Some result }
        ensures rest { self.new ≡ buffer (take (length self.old.items - 1) self.old.items) self.old.capacity }
    {
        let youngest = self.at(self.len() - 1);
        self.tail = self.tail.wrapping_sub(1);
        youngest
    }
}

/// Eight lists without an instruction.
pub(crate) fn first_lists(room: usize) -> [ActiveList; 8]
    requires { room ≤ 64 }
    ensures { result ≡ replicate 8 (buffer [] room) }
{
    [
        ActiveList::new(room),
        ActiveList::new(room),
        ActiveList::new(room),
        ActiveList::new(room),
        ActiveList::new(room),
        ActiveList::new(room),
        ActiveList::new(room),
        ActiveList::new(room),
    ]
}
