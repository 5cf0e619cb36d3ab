//! The queue.

ghost use Rattle.std.specs.Prelude.{◌≡◌, ◌↔◌, ℕ, ◌<◌, ◌≤◌, ◌==◌, ◌&&◌, true, false, [], ◌∷◌, ◌++◌, length, map, filter, not, count_by, IsTrue, IfSome, IsOk, OnOk, OnErr, IfErr};
ghost use Rattle.std.specs.List.{list_any};
ghost use Rattle.word_mask.specs.Mask.{has};
ghost use Rattle.issue_queue.specs.Entry.{is_named, is_ready_load};
ghost use Rattle.issue_queue.specs.Board.{waits_for};
ghost use Rattle.issue_queue.specs.IssueQueue.{awake, with_speculative, with_held, hold_among, released, is_from};
ghost use Rattle.issue_queue.specs.IsSelected.{IsSelected, is_among};
ghost use Rattle.issue_queue.specs.Stamps.{place_of_oldest};
ghost use Rattle.issue_queue.specs.Views.{AreAlike, entered, entry_of, view_of};

use crate::arrivals::Arrivals;
use crate::places::Places;
use crate::{Order, Reading, Waiting, selecting};
use arrayvec::ArrayVec;
use core_view::EntryId;
use join_law::Ctx;
use rename_file::PhysicalRegister;
use std::marker::Model;

/// Why an entry can't enter.
#[derive(Clone, Copy, Debug, PartialEq, Eq)]
pub enum QueueFault {
    /// Q1: the queue holds as many entries as its capacity.
    Full,
}

/// The issue queue of all contexts. No call takes memory.
#[derive(Drop)]
pub struct Queue {
    capacity: usize,
    places: Places,
    arrivals: Arrivals,
}

impl Model for Queue {
    ghost use Rattle.issue_queue.specs.IssueQueue.{IssueQueue};
    ghost use Rattle.issue_queue.specs.Board.{IsKept, entries_of};

    ghost Value = { IssueQueue };

    ghost view = { λ q. record { capacity = q.capacity; entries = entries_of q.places q.arrivals } };

    ghost invariant = { λ q. IsKept q.capacity q.places q.arrivals };
}

impl Queue {
    /// An empty queue of a capacity of at most 64 entries.
    pub fn new(capacity: usize) -> Queue
        requires { capacity ≤ 64 }
        ensures { result ≡ record { capacity = capacity; entries = [] } }
    {
        Queue {
            capacity,
            places: Places::new(),
            arrivals: Arrivals::new(),
        }
    }

    /// How many entries it holds.
    pub fn len(&self) -> usize
        ensures value { result ≡ length self.now.entries }
        ensures fits { result ≤ self.now.capacity }
    {
        self.places.len()
    }

    /// Whether it holds no entry.
    pub fn is_empty(&self) -> bool
        ensures { IsTrue result ↔ (self.now.entries ≡ []) }
    {
        self.len() == 0
    }

    /// How many entries it can hold.
    pub fn capacity(&self) -> usize
        ensures value { result ≡ self.now.capacity }
        ensures bound { result ≤ 64 }
    {
        self.capacity
    }

    /// Whether it holds as many entries as it can.
    pub fn is_full(&self) -> bool
        ensures { IsTrue result ↔ (length self.now.entries ≡ self.now.capacity) }
    {
        self.len() == self.capacity
    }

    /// Whether it holds the entry of a context and stamp.
    pub fn contains(&self, context: Ctx, stamp: u64) -> bool
        ensures { result ≡ list_any (is_named context stamp) self.now.entries }
    {
        self.places.find(context, stamp).is_some()
    }

    /// Puts an entry behind the others. It is not held.
    ///
    /// # Errors
    ///
    /// Q1, with the entry, exactly where the queue is full. The queue is then as it was.
    pub fn put(&mut self, waiting: Waiting) -> Result<(), (Waiting, QueueFault)>
        requires { list_any (is_named waiting.context waiting.stamp) self.old.entries ≡ false }
        ensures variant { IsOk result ↔ (length self.old.entries < self.old.capacity) }
        ensures ok { OnOk result (self.new ≡ record self.old { entries = self.old.entries ++ entry_of waiting ∷ [] }) }
        ensures err { OnErr result (self.new ≡ self.old) }
        ensures given_back { IfErr result (λ e. (e.0 ≡ waiting) × (e.1 ≡ QueueFault.Full)) }
    {
        if self.len() >= self.capacity {
            return Err((waiting, QueueFault::Full));
        }
        self.enter(waiting.reading());
        Ok(())
    }

    /// Puts an entry behind the others of a queue that isn't full. It is not held, and waits for those of the registers that
    /// it reads that have no value yet.
    #[inline(always)]
    pub fn enter(&mut self, reading: Reading)
        requires fresh { list_any (is_named reading.context reading.stamp) self.old.entries ≡ false }
        requires room { length self.old.entries < self.old.capacity }
        requires alike { AreAlike reading }
        ensures { self.new ≡ record self.old { entries = self.old.entries ++ entered reading ∷ [] } }
    {
        let place = self.arrivals.push(self.places.valid);
        self.places.put(place, &reading);
    }

    /// No entry waits for a register any more. Gives how many places it looked at: those that waited for it.
    pub fn wake(&mut self, register: PhysicalRegister) -> usize
        ensures entries { self.new ≡ record self.old { entries = map (awake register) self.old.entries } }
        ensures looked { result ≡ count_by (waits_for register) self.old.entries }
    {
        self.places.wake(register)
    }

    /// Tells whether an older guessed entry of its context has not completed, of the entry of a context and stamp.
    pub fn speculate(&mut self, context: Ctx, stamp: u64, speculative: bool)
        ensures { self.new ≡ record self.old { entries = map (with_speculative context stamp speculative) self.old.entries } }
    {
        let Some(place) = self.places.find(context, stamp) else {
            return;
        };
        self.places.set_speculative(place, speculative);
    }

    /// Holds the load of a context and stamp, or lets it go. A held entry is not ready.
    pub fn hold(&mut self, context: Ctx, stamp: u64, held: bool)
        ensures { self.new ≡ record self.old { entries = map (with_held context stamp held) self.old.entries } }
    {
        let Some(place) = self.places.find(context, stamp) else {
            return;
        };
        self.places.set_held(place, held);
    }

    /// Lets all loads go.
    pub fn release(&mut self)
        ensures { self.new ≡ record self.old { entries = map released self.old.entries } }
    {
        self.places.release();
    }

    /// Removes the first ready entries by (key, stamp), at most `width` of them, and gives their names in that
    /// order. The others stay in theirs.
    pub fn select<O: Order>(&mut self, order: &O, width: usize) -> ArrayVec<EntryId, 8>
        requires { width ≤ 8 }
        ensures capacity { self.new.capacity ≡ self.old.capacity }
        ensures selected { IsSelected (λ e. O.key_of order.now (view_of e)) width self.old.entries self.new.entries result.items }
    {
        let mut names = ArrayVec::new();
        self.select_into(order, width, &mut names);
        names
    }

    /// Removes the first ready entries, as `select`, and puts their names into a list that is passed.
    #[inline(always)]
    pub fn select_into<O: Order>(
        &mut self,
        order: &O,
        width: usize,
        names: &mut ArrayVec<EntryId, 8>,
    )
        requires width { width ≤ 8 }
        requires empty { names.old.items ≡ [] }
        ensures capacity { self.new.capacity ≡ self.old.capacity }
        ensures selected { IsSelected (λ e. O.key_of order.now (view_of e)) width self.old.entries self.new.entries names.new.items }
    {
        let ready = self.places.ready();
        let above = self.arrivals.above;
        let first = selecting::list_first(names, &self.places.slots, ready, order, width, above);
        self.places.free_ready(first);
    }

    /// Lists the first ready entries by (key, stamp), at most `width` of them, in that order, and holds them. No entry
    /// leaves.
    #[inline(always)]
    pub fn hold_first<O: Order>(
        &mut self,
        order: &O,
        width: usize,
        names: &mut ArrayVec<EntryId, 8>,
    )
        requires width { width ≤ 8 }
        requires empty { names.old.items ≡ [] }
        ensures capacity { self.new.capacity ≡ self.old.capacity }
        ensures held { self.new.entries ≡ map (hold_among names.new.items) self.old.entries }
        ensures selected { IsSelected (λ e. O.key_of order.now (view_of e)) width self.old.entries (filter (λ e. not (is_among names.new.items e)) self.old.entries) names.new.items }
    {
        let ready = self.places.ready();
        let above = self.arrivals.above;
        let first = selecting::list_first(names, &self.places.slots, ready, order, width, above);
        self.places.hold_all(first);
    }

    /// Drops what is held.
    #[inline(always)]
    pub fn drop_held(&mut self)
        ensures { self.new ≡ record self.old { entries = filter (λ e. not e.held) self.old.entries } }
    {
        self.places.free_held();
    }

    /// Drops the entries of a context that have at least this stamp.
    pub fn drop_from(&mut self, context: Ctx, stamp: u64)
        ensures { self.new ≡ record self.old { entries = filter (λ e. not (is_from context stamp e)) self.old.entries } }
    {
        self.places.free_from(context, stamp);
    }

    /// How many entries of a context it holds.
    pub fn count(&self, context: Ctx) -> usize
        ensures { result ≡ count_by (λ e. e.context == context) self.now.entries }
    {
        self.places.count(context)
    }

    /// How many guessed entries of a context it holds.
    pub fn guessed_count(&self, context: Ctx) -> usize
        ensures { result ≡ count_by (λ e. (e.context == context) && e.guessed) self.now.entries }
    {
        self.places.guessed_count(context)
    }

    /// The contexts that have a ready load, as the bits of a word.
    #[inline(always)]
    pub fn contexts_with_ready_load(&self) -> u64
        ensures known { (c : ℕ) → has result c ≡ true → c < 8 }
        ensures value { (c : ℕ) → has result c ≡ list_any (is_ready_load c) self.now.entries }
    {
        self.places.slots.contexts_of(self.places.ready_loads())
    }

    /// How many entries are older than the oldest entry of a context, or `None` where it has none.
    pub fn oldest_place(&self, context: Ctx) -> Option<usize>
        ensures place { result ≡ place_of_oldest context self.now.entries }
        ensures bound { IfSome result (λ place. place ≤ 64) }
    {
        self.places.oldest_place(context)
    }
}
