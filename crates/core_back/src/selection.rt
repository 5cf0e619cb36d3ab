//! What was selected and has not issued yet.

ghost use Rattle.std.specs.Prelude.{◌≡◌, ◌<◌, ◌≤◌, [], true, not, length, map, filter, drop, slice_index_or};
ghost use Rattle.issue_queue.specs.IsSelected.{IsSelected, is_among};
ghost use Rattle.issue_queue.specs.Views.{view_of};
ghost use Rattle.data_flow.specs.Flow.{queued};
ghost use Rattle.core_back.specs.Shown.{marked_among};

use arrayvec::ArrayVec;
use core_view::EntryId;
use data_flow::DataFlow;
use issue_queue::Order;
use std::alloc::Allocator;
use std::marker::Model;

/// The entries that were selected and have not issued yet, in order.
#[derive(Drop)]
pub(crate) struct Selection {
    entries: ArrayVec<EntryId, 8>,
    // How many of them have issued: what is left isn't moved.
    issued: usize,
}

impl Model for Selection {
    ghost use Rattle.std.specs.Prelude.{List, length, drop, ◌≤◌};
    ghost use Rattle.core_view.specs.declared.note.EntryId.{EntryId};

    ghost Value = { List EntryId };

    ghost view = { λ s. drop s.issued s.entries.items };

    ghost invariant = { λ s. s.issued ≤ length s.entries.items };
}

impl Selection {
    /// No entry.
    pub(crate) fn new() -> Selection
        ensures { result ≡ [] }
    {
        Selection {
            entries: ArrayVec::new(),
            issued: 0,
        }
    }

    /// Selects the first ready entries by an order, at most so many, in place of these, and holds them in the queue.
    #[inline(always)]
    pub(crate) fn hold_first<A: Allocator, O: Order>(
        &mut self,
        flow: &mut DataFlow<A>,
        order: &O,
        width: usize,
    )
        requires { width ≤ 8 }
        ensures flow { flow.new ≡ record flow.old { waiters = map (marked_among self.new true) flow.old.waiters } }
        ensures selected { IsSelected (λ e. O.key_of order.now (view_of e)) width (queued flow.old) (filter (λ e. not (is_among self.new e)) (queued flow.old)) self.new }
    {
        self.entries = ArrayVec::new();
        self.issued = 0;
        flow.hold_first(order, width, &mut self.entries);
    }

    /// Holds in the queue what has not issued, or lets it go.
    pub(crate) fn mark<A: Allocator>(&self, flow: &mut DataFlow<A>, held: bool)
        ensures { flow.new ≡ record flow.old { waiters = map (marked_among self.now held) flow.old.waiters } }
    {
        for place in 0..self.len() {
            let name = self.entries[self.issued + place];
            flow.hold(name.context, name.stamp, held);
        }
    }

    /// Nothing is selected any more.
    pub(crate) fn clear(&mut self)
        ensures { self.new ≡ [] }
    {
        self.issued = self.entries.len();
    }

    /// How many have not issued.
    #[inline(always)]
    pub(crate) fn len(&self) -> usize
        ensures { result ≡ length self.now }
    {
        self.entries.len() - self.issued
    }

    /// The first.
    #[inline(always)]
    pub(crate) fn first(&self) -> EntryId
        requires { 0 < length self.now }
        ensures { result ≡ slice_index_or self.now 0 result }
    {
        self.entries[self.issued]
    }

    /// Takes the first.
    #[inline(always)]
    pub(crate) fn take_first(&mut self) -> EntryId
        requires { 0 < length self.old }
        ensures value { result ≡ slice_index_or self.old 0 result }
        ensures rest { self.new ≡ drop 1 self.old }
    {
        let first = self.entries[self.issued];
        self.issued += 1;
        first
    }
}
