//! A ring of entries whose stamps grow.

ghost use Rattle.std.specs.Prelude.{◌≡◌, ◌↔◌, ◌++◌, ◌∷◌, [], ◌-◌, ◌<◌, ◌≤◌, length, take, drop, slice_get, slice_set, option_copied, IfOk, OnOk, OnErr, IsOk, IsTrue, Ok, Err};
ghost use Rattle.std.specs.Option.{ForSome};
ghost use Rattle.std.specs.Map.Iter.{ShowsInOrder, deref};
ghost use Rattle.circular_buffer.specs.Buffer.{buffer, last_item};
ghost use Rattle.reorder_buffer.specs.Growing.{IsGrowing, below};

use crate::{RingFault, Stamped};
use circular_buffer::{HeapCircularBuffer, Iter};
use std::alloc::{Allocator, Global};
use std::marker::Model;

/// Entries in order of stamp, at most as many as the ring was made for. A contract sees the list, oldest first, and
/// the capacity. No call but `new` takes memory.
#[derive(Drop)]
pub struct Ring<E: Stamped, A: Allocator = Global> {
    buffer: HeapCircularBuffer<E, A>,
}

impl<E: Stamped, A: Allocator> Model for Ring<E, A> {
    ghost use Rattle.circular_buffer.specs.Buffer.{Buffer};
    ghost use Rattle.reorder_buffer.specs.Growing.{IsGrowing};

    ghost Value = { Buffer E };

    ghost view = { λ r. r.buffer };

    ghost invariant = { λ r. IsGrowing E.stamp_of r.buffer.items };
}

impl<E: Stamped, A: Allocator> Ring<E, A> {
    /// An empty ring for so many entries.
    pub fn new(alloc: A, capacity: usize) -> Result<Self, RingFault>
        ensures ok { IfOk result (λ r. r ≡ buffer [] capacity) }
        ensures err { OnErr result (result ≡ Err RingFault.OutOfMemory) }
    {
        let Ok(buffer) = HeapCircularBuffer::with_capacity(alloc, capacity) else {
            return Err(RingFault::OutOfMemory);
        };
        Ok(Ring { buffer })
    }

    /// How many entries there are.
    pub fn len(&self) -> usize
        ensures len { result ≡ length self.now.items }
        ensures within { result ≤ self.now.capacity }
        ensures growing { IsGrowing E.stamp_of self.now.items }
    {
        self.buffer.len()
    }

    /// Whether there is no entry.
    pub fn is_empty(&self) -> bool
        ensures { IsTrue result ↔ (self.now.items ≡ []) }
    {
        self.buffer.is_empty()
    }

    /// How many entries there may be.
    pub fn capacity(&self) -> usize
        ensures { result ≡ self.now.capacity }
    {
        self.buffer.capacity()
    }

    /// Whether there are as many entries as there may be.
    pub fn is_full(&self) -> bool
        ensures { IsTrue result ↔ (length self.now.items ≡ self.now.capacity) }
    {
        self.buffer.is_full()
    }

    /// The oldest entry.
    pub fn head(&self) -> Option<&E>
        ensures { option_copied result ≡ slice_get self.now.items 0 }
    {
        self.buffer.front()
    }

    /// The youngest entry.
    pub fn last(&self) -> Option<&E>
        ensures { option_copied result ≡ last_item self.now.items }
    {
        self.buffer.back()
    }

    /// The entry at a place, counted from the oldest.
    pub fn get(&self, place: usize) -> Option<&E>
        ensures { option_copied result ≡ slice_get self.now.items place }
    {
        self.buffer.get(place)
    }

    /// The entries, oldest first.
    pub fn iter(&self) -> Iter<'_, E>
        ensures rest { result ≡ self.now.items }
        ensures runs { ShowsInOrder (deref {X = E}) }
    {
        self.buffer.iter()
    }

    /// Takes in an entry whose stamp is above the youngest one's. A full ring hands it back.
    pub fn push(&mut self, entry: E) -> Result<(), (E, RingFault)>
        requires { ForSome (last_item self.old.items) (λ e. E.stamp_of e < E.stamp_of entry) }
        ensures variant { IsOk result ↔ (length self.old.items < self.old.capacity) }
        ensures ok { OnOk result (self.new ≡ buffer (self.old.items ++ entry ∷ []) self.old.capacity) }
        ensures err { OnErr result ((result ≡ Err (entry, RingFault.Full)) × (self.new ≡ self.old)) }
        ensures growing { IsGrowing E.stamp_of self.new.items }
    {
        self.buffer
            .try_push_back(entry)
            .map_err(|entry| (entry, RingFault::Full))
    }

    /// Puts an entry in the place of one with the same stamp.
    pub fn set(&mut self, place: usize, entry: E)
        requires place { place < length self.old.items }
        requires stamp { ForSome (slice_get self.old.items place) (λ e. E.stamp_of e ≡ E.stamp_of entry) }
        ensures set { self.new ≡ buffer (slice_set self.old.items place entry) self.old.capacity }
        ensures growing { IsGrowing E.stamp_of self.new.items }
    {
        let Some(found) = self.buffer.get_mut(place) else {
            unreachable!();
        };
        *found = entry;
    }

    /// Takes the oldest entry out.
    pub fn retire(&mut self) -> Option<E>
        ensures oldest { result ≡ slice_get self.old.items 0 }
        ensures rest { self.new ≡ buffer (drop 1 self.old.items) self.old.capacity }
        ensures growing { IsGrowing E.stamp_of self.new.items }
    {
        self.buffer.pop_front()
    }

    /// Takes the youngest entry out.
    pub fn pop_last(&mut self) -> Option<E>
        ensures youngest { result ≡ last_item self.old.items }
        ensures rest { self.new ≡ buffer (take (length self.old.items - 1) self.old.items) self.old.capacity }
        ensures growing { IsGrowing E.stamp_of self.new.items }
    {
        self.buffer.pop_back()
    }

    /// Drops each entry whose stamp is at least this one: an end of the list. No other entry but one is looked at.
    pub fn cut_from(&mut self, stamp: u64)
        ensures below { self.new ≡ buffer (below E.stamp_of stamp self.old.items) self.old.capacity }
        ensures front { self.new.items ≡ take (length self.new.items) self.old.items }
        ensures growing { IsGrowing E.stamp_of self.new.items }
    {
        let keep = self.count_below(stamp);
        self.buffer.truncate_back(keep);
    }

    /// Drops each entry whose stamp is at least this one, past a place that is kept. No older one is looked at.
    pub fn cut_past(&mut self, place: usize, stamp: u64)
        requires place { place < length self.old.items }
        requires kept { ForSome (slice_get self.old.items place) (λ e. E.stamp_of e < stamp) }
        ensures below { self.new ≡ buffer (below E.stamp_of stamp self.old.items) self.old.capacity }
        ensures front { self.new.items ≡ take (length self.new.items) self.old.items }
        ensures growing { IsGrowing E.stamp_of self.new.items }
    {
        let kept = self.count_past(place, stamp);
        self.buffer.truncate_back(kept);
    }

    // How many entries have a stamp below this one, counted from the end.
    fn count_below(&self, stamp: u64) -> usize
        ensures within { result ≤ length self.now.items }
        ensures below { take result self.now.items ≡ below E.stamp_of stamp self.now.items }
    {
        let mut keep = self.len();
        while keep > 0 {
            let entry = self.buffer.get(keep - 1).unwrap();
            if entry.stamp() < stamp {
                return keep;
            }
            keep -= 1;
        }
        keep
    }

    // How many entries have a stamp below this one, counted from a place on whose entry has one.
    fn count_past(&self, place: usize, stamp: u64) -> usize
        requires place { place < length self.now.items }
        requires kept { ForSome (slice_get self.now.items place) (λ e. E.stamp_of e < stamp) }
        ensures within { result ≤ length self.now.items }
        ensures below { take result self.now.items ≡ below E.stamp_of stamp self.now.items }
    {
        let len = self.buffer.len();
        let mut keep = place + 1;
        while keep < len {
            let entry = self.buffer.get(keep).unwrap();
            if entry.stamp() >= stamp {
                return keep;
            }
            keep += 1;
        }
        keep
    }
}
