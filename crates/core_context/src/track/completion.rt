//! How an entry of a context completes, and what it squashes.

ghost use Rattle.std.specs.Prelude.{◌≡◌, ◌+◌, ◌-◌, ◌<◌, ◌≤◌, true, length, Some, None};
ghost use Rattle.reorder_buffer.specs.Growing.{IsGrowing};
ghost use Rattle.core_view.specs.Outcomes.{image_of};
ghost use Rattle.core_view.specs.Flight.{seen_of, IsSound};
ghost use Rattle.core_view.specs.Operations.{is_store, stops_at_fetch};
ghost use Rattle.core_view.specs.declared.entry.Entry.{Entry};
ghost use Rattle.core_view.specs.View.{entry_at};
ghost use Rattle.core_view.specs.Stages.{execution_of, IsIssued};
ghost use Rattle.core_context.specs.Ends.{IsEnd};
ghost use Rattle.core_context.specs.Track.{finished, cut_at, completed, cut_stamp};

use crate::track::Track;
use entry_stages::{fetch_pc_after, is_mispredicted};
use flight::Flight;
use std::alloc::Allocator;

impl<A: Allocator> Track<A> {
    /// The entry at a place, which is issued, completes, and squashes what it doesn't keep. Returns the stamp of the oldest
    /// entry that was squashed.
    pub(crate) fn complete(&mut self, place: usize) -> Option<u64>
        requires place { place < length self.old.context.flight }
        requires issued { IsIssued (entry_at self.old.context place).stage }
        requires sound { IsSound (image_of self.old.context.state) (seen_of self.old.context.state) self.old.context.state.pc self.old.context.flight }
        ensures completed { self.new ≡ completed self.old place (execution_of (entry_at self.old.context place).stage) }
        ensures cut { result ≡ cut_stamp self.old.context place (execution_of (entry_at self.old.context place).stage) }
    {
        let stamp = self.finish(place)?;
        self.cut_past(place, stamp);
        Some(stamp)
    }

    /// The entry at a place, which is issued, completes. Returns the stamp of the oldest entry that it doesn't keep.
    fn finish(&mut self, place: usize) -> Option<u64>
        requires place { place < length self.old.context.flight }
        requires issued { IsIssued (entry_at self.old.context place).stage }
        requires sound { IsSound (image_of self.old.context.state) (seen_of self.old.context.state) self.old.context.state.pc self.old.context.flight }
        ensures finished { self.new ≡ finished self.old place (execution_of (entry_at self.old.context place).stage) }
        ensures cut { result ≡ cut_stamp self.old.context place (execution_of (entry_at self.old.context place).stage) }
        ensures growing { IsGrowing (λ (e : Entry). e.stamp) self.new.context.flight }
        ensures bound { self.new.renamed ≤ length self.new.context.flight }
    {
        // How many there are is a bound of a place, and their stamps grow, before and after.
        let _len = self.flight.len();
        let entry = self.flight.get(place).unwrap();
        if entry.operation.is_store() {
            return self.finish_store(place);
        }
        let mispredicted = is_mispredicted(entry);
        self.flight.finish(place);
        self.fetch_pc = fetch_pc_after(&self.flight, place, self.fetch_pc);
        let _left = self.flight.len();
        let _renamed = self.flight.renamed_count();
        if !mispredicted {
            return None;
        }
        let next = self.flight.get(place + 1)?;
        Some(next.stamp)
    }

    /// The store at a place, which is issued, completes. Returns the stamp of the oldest entry that it doesn't keep.
    #[inline(always)]
    fn finish_store(&mut self, place: usize) -> Option<u64>
        requires place { place < length self.old.context.flight }
        requires issued { IsIssued (entry_at self.old.context place).stage }
        requires store { is_store (entry_at self.old.context place).operation ≡ true }
        requires sound { IsSound (image_of self.old.context.state) (seen_of self.old.context.state) self.old.context.state.pc self.old.context.flight }
        ensures finished { self.new ≡ finished self.old place (execution_of (entry_at self.old.context place).stage) }
        ensures cut { result ≡ cut_stamp self.old.context place (execution_of (entry_at self.old.context place).stage) }
        ensures growing { IsGrowing (λ (e : Entry). e.stamp) self.new.context.flight }
        ensures bound { self.new.renamed ≤ length self.new.context.flight }
    {
        // The stamps grow, before and after.
        let _len = self.flight.len();
        let conflict = self.queue.resolve_store(&mut self.flight, place);
        self.fetch_pc = fetch_pc_after(&self.flight, place, self.fetch_pc);
        let _left = self.flight.len();
        let _renamed = self.flight.renamed_count();
        conflict
    }

    /// The entries from a stamp on are dropped. The one at a place stays.
    fn cut_past(&mut self, place: usize, stamp: u64)
        requires place { place < length self.old.context.flight }
        requires kept { (entry_at self.old.context place).stamp < stamp }
        ensures { self.new ≡ cut_at self.old stamp }
    {
        self.queue.drop_from(&mut self.flight, place, stamp);
        (self.fetch_pc, self.goes_on) = end_of(&self.flight, self.pc);
    }
}

/// The end of a flight over a pc: the pc at which fetch goes on, and whether it does.
fn end_of<A: Allocator>(flight: &Flight<A>, pc: u64) -> (u64, bool)
    ensures { IsEnd pc result.0 result.1 flight.now.entries }
{
    match flight.last() {
        Some(entry) => (entry.followed, !entry.operation.stops_at_fetch()),
        None => (pc, true),
    }
}
