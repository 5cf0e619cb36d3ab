//! The load queue and the store queue of one context.

ghost use Rattle.std.specs.Prelude.{◌≡◌, ℕ, ◌↔◌, ◌<◌, [], ◌∷◌, ◌++◌, length, map, true, false, None, Err, is_some, IfSome, OnOk, OnErr, IsOk, IsTrue};
ghost use Rattle.reorder_buffer.specs.Growing.{below};
ghost use Rattle.paged_memory.specs.Cells.{byte_at, bytes_of};
ghost use Rattle.core_view.specs.Outcomes.{load_span};
ghost use Rattle.core_view.specs.Spans.{number_in};
ghost use Rattle.core_view.specs.declared.span.Span.{Span};
ghost use Rattle.core_view.specs.declared.entry.Entry.{Entry};
ghost use Rattle.core_view.specs.declared.entry.Stage.TheVariants.{Queued};
ghost use Rattle.core_view.specs.Flight.{bytes_in, span_in};
ghost use Rattle.core_view.specs.Operations.{is_load, is_store, stops_at_fetch};
ghost use Rattle.core_view.specs.Queues.{loads_of, stores_of, is_clear_in, value_seen_in, conflict_in};
ghost use Rattle.core_view.specs.Stages.{execution_of, IsIssued};
ghost use Rattle.flight.specs.Marked.{is_completed_store};
ghost use Rattle.flight.specs.Flights.{entry_in, NoneRenamedBelow, IsPlain, Frees, is_due, renamed_one, issued_one, finished_one, retired_one, cut_at};
ghost use Rattle.load_store_queue.specs.Queues.{HasPlace, load_stamp, store_stamp, with_span, slot_with_bytes, without_oldest};
ghost use Rattle.load_store_queue.specs.Answered.{number_answered};

use crate::answer::LoadAnswer;
use crate::fault::QueueFault;
use crate::reading::{number, span_of};
use crate::search::{conflict, newest_sharing};
use core_view::{Decoded, Execution, Span};
use flight::{Finished, Flight};
use paged_memory::{Memory, Width};
use std::alloc::Allocator;
use std::marker::Model;

/// More entries than can be renamed.
const NO_LIMIT: usize = 65;

/// The load queue and the store queue of one context, oldest first: the renamed loads and stores of its flight, which
/// each call is lent. What is kept of a load or a store stands in its entry alone, so that these are how many there may
/// be of each. No call takes memory.
#[derive(Drop)]
pub struct LoadStoreQueue {
    // How many renamed entries there may be of each kind.
    limits: [usize; 6],
}

impl Model for LoadStoreQueue {
    ghost use Rattle.load_store_queue.specs.Queues.{Places, limits_of};
    ghost use Rattle.std.specs.Prelude.{◌≡◌, slice_index_or};

    ghost Value = { Places };

    ghost view = { λ q. record { load_places = slice_index_or q.limits 3 0; store_places = slice_index_or q.limits 4 0 } };

    ghost invariant = { λ q. q.limits ≡ limits_of (slice_index_or q.limits 3 0) (slice_index_or q.limits 4 0) };
}

impl LoadStoreQueue {
    /// Queues of so many places for loads and for stores.
    pub fn new(load_places: usize, store_places: usize) -> LoadStoreQueue
        ensures { result ≡ record { load_places = load_places; store_places = store_places } }
    {
        LoadStoreQueue {
            limits: [
                NO_LIMIT,
                NO_LIMIT,
                NO_LIMIT,
                load_places,
                store_places,
                NO_LIMIT,
            ],
        }
    }

    /// Whether there is a place for one more of an operation: a load needs one of the load queue, a store one of the
    /// store queue, and what is neither needs none.
    #[inline(always)]
    pub fn has_place<A: Allocator>(&self, flight: &Flight<A>, operation: &Decoded) -> bool
        ensures { IsTrue result ↔ HasPlace self.now flight.now.entries operation.now }
    {
        // How many are renamed is at most 64, and they are the oldest.
        let _renamed = flight.renamed_count();
        let kind = operation.kind();
        flight.kind_count(kind) < self.limits[kind.index()]
    }

    /// Whether no store has completed, so that each load is clear.
    #[inline(always)]
    pub fn has_no_completed_store<A: Allocator>(&self, flight: &Flight<A>) -> bool
        ensures none { IsTrue result ↔ NoneRenamedBelow is_completed_store flight.now 64 }
        ensures clear { IsTrue result → (place : ℕ) (span : Span) → place < flight.now.renamed → is_clear_in (stores_of flight.now.entries) (entry_in flight.now.entries place).stamp span ≡ true }
    {
        // The renamed entries are the oldest, at most 64, and the stamps grow.
        let _renamed = flight.renamed_count();
        let _len = flight.len();
        flight.last_completed_store(64).is_none()
    }

    /// The oldest fetched entry, which is a load, is renamed: it is the youngest load, and has not issued.
    ///
    /// # Errors
    ///
    /// L1 where all places for loads are taken.
    pub fn place_load<A: Allocator>(&self, flight: &mut Flight<A>) -> Result<(), QueueFault>
        requires some { flight.old.renamed < length flight.old.entries }
        requires few { flight.old.renamed < 64 }
        requires load { is_load (entry_in flight.old.entries flight.old.renamed).operation ≡ true }
        ensures variant { IsOk result ↔ (length (loads_of flight.old.entries) < self.now.load_places) }
        ensures renamed { OnOk result ((cycle : ℕ) → flight.new ≡ renamed_one cycle flight.old) }
        ensures loads { OnOk result (loads_of flight.new.entries ≡ loads_of flight.old.entries ++ record { stamp = (entry_in flight.old.entries flight.old.renamed).stamp; span = None } ∷ []) }
        ensures stores { OnOk result (stores_of flight.new.entries ≡ stores_of flight.old.entries) }
        ensures err { OnErr result ((result ≡ Err QueueFault.Full) × (flight.new ≡ flight.old)) }
    {
        // The renamed entries are the oldest.
        let _renamed = flight.renamed_count();
        self.place(flight)
    }

    /// The oldest fetched entry, which is a store, is renamed: it is the youngest store, and has not completed.
    ///
    /// # Errors
    ///
    /// L1 where all places for stores are taken.
    pub fn place_store<A: Allocator>(&self, flight: &mut Flight<A>) -> Result<(), QueueFault>
        requires some { flight.old.renamed < length flight.old.entries }
        requires few { flight.old.renamed < 64 }
        requires store { is_store (entry_in flight.old.entries flight.old.renamed).operation ≡ true }
        ensures variant { IsOk result ↔ (length (stores_of flight.old.entries) < self.now.store_places) }
        ensures renamed { OnOk result ((cycle : ℕ) → flight.new ≡ renamed_one cycle flight.old) }
        ensures loads { OnOk result (loads_of flight.new.entries ≡ loads_of flight.old.entries) }
        ensures stores { OnOk result (stores_of flight.new.entries ≡ stores_of flight.old.entries ++ record { stamp = (entry_in flight.old.entries flight.old.renamed).stamp; bytes = None } ∷ []) }
        ensures err { OnErr result ((result ≡ Err QueueFault.Full) × (flight.new ≡ flight.old)) }
    {
        // The renamed entries are the oldest.
        let _renamed = flight.renamed_count();
        self.place(flight)
    }

    /// The oldest fetched entry, which doesn't stop at fetch, is renamed, if there is a place for it.
    fn place<A: Allocator>(&self, flight: &mut Flight<A>) -> Result<(), QueueFault>
        requires some { flight.old.renamed < length flight.old.entries }
        requires few { flight.old.renamed < 64 }
        requires goes { stops_at_fetch (entry_in flight.old.entries flight.old.renamed).operation ≡ false }
        ensures variant { IsOk result ↔ HasPlace self.now flight.old.entries (entry_in flight.old.entries flight.old.renamed).operation }
        ensures renamed { OnOk result ((cycle : ℕ) → flight.new ≡ renamed_one cycle flight.old) }
        ensures err { OnErr result ((result ≡ Err QueueFault.Full) × (flight.new ≡ flight.old)) }
    {
        let entry = flight.get(flight.renamed_count()).unwrap();
        if !self.has_place(flight, &entry.operation) {
            return Err(QueueFault::Full);
        }
        flight.rename_waiting();
        Ok(())
    }

    /// The load at a place, which waits for issue, issues: it has read the span of its execution, or none where it stops.
    #[inline(always)]
    pub fn issue_load<A: Allocator>(
        &self,
        flight: &mut Flight<A>,
        place: usize,
        execution: Execution,
    )
        requires place { place < length flight.old.entries }
        requires queued { (entry_in flight.old.entries place).stage ≡ Queued }
        requires load { is_load (entry_in flight.old.entries place).operation ≡ true }
        ensures issued { flight.new ≡ issued_one flight.old place execution }
        ensures loads { loads_of flight.new.entries ≡ map (with_span (entry_in flight.old.entries place).stamp (span_in execution.outcome)) (loads_of flight.old.entries) }
        ensures stores { stores_of flight.new.entries ≡ stores_of flight.old.entries }
    {
        // The stamps of the entries grow.
        let _len = flight.len();
        flight.issue(place, execution);
    }

    /// The store at a place, which is issued, completes, with its bytes unless it stops. Gives the stamp of the oldest
    /// issued younger load that shares a byte with it.
    // The bytes are read ahead of what is written into the entry, which would have to be looked for again.
    #[inline(always)]
    pub fn resolve_store<A: Allocator>(&self, flight: &mut Flight<A>, place: usize) -> Option<u64>
        requires place { place < length flight.old.entries }
        requires issued { IsIssued (entry_in flight.old.entries place).stage }
        requires store { is_store (entry_in flight.old.entries place).operation ≡ true }
        ensures completed { flight.new ≡ finished_one flight.old place (execution_of (entry_in flight.old.entries place).stage) }
        ensures loads { loads_of flight.new.entries ≡ loads_of flight.old.entries }
        ensures stores { stores_of flight.new.entries ≡ map (slot_with_bytes (entry_in flight.old.entries place).stamp (bytes_in (execution_of (entry_in flight.old.entries place).stage).outcome)) (stores_of flight.old.entries) }
        ensures conflict { result ≡ conflict_in (loads_of flight.old.entries) (entry_in flight.old.entries place).stamp (bytes_in (execution_of (entry_in flight.old.entries place).stage).outcome) }
    {
        // The stamps of the entries grow, and the renamed ones are the oldest.
        let _len = flight.len();
        let _renamed = flight.renamed_count();
        let Some(stored) = flight.get(place).unwrap().stage.bytes_to_come() else {
            flight.finish(place);
            return None;
        };
        flight.finish(place);
        conflict(flight, place, stored)
    }

    /// The entry at a place, which is issued, completes, if it is plain: fetch went on after it where it goes, and it is no
    /// store behind which a load has issued, so that it conflicts with none.
    #[inline(always)]
    pub fn finish_plain<A: Allocator>(
        &self,
        flight: &mut Flight<A>,
        place: usize,
        cycle: u64,
    ) -> Option<Finished>
        requires place { place < length flight.old.entries }
        requires issued { IsIssued (entry_in flight.old.entries place).stage }
        ensures none { result ≡ None → flight.new ≡ flight.old }
        ensures plain { IfSome result (IsPlain flight.old place) }
        ensures done { IfSome result (λ _. flight.new ≡ finished_one flight.old place (execution_of (entry_in flight.old.entries place).stage)) }
        ensures conflict { IfSome result (λ _. is_store (entry_in flight.old.entries place).operation ≡ true → conflict_in (loads_of flight.old.entries) (entry_in flight.old.entries place).stamp (bytes_in (execution_of (entry_in flight.old.entries place).stage).outcome) ≡ None) }
        ensures frees { IfSome result (Frees flight.old flight.new place) }
        ensures more { IfSome result (λ f. f.more ≡ false → (i : ℕ) → is_due cycle (entry_in flight.new.entries i) ≡ false) }
    {
        // What is issued is renamed, and the stamps grow.
        let _renamed = flight.renamed_count();
        let _len = flight.len();
        flight.finish_plain(place, cycle)
    }

    /// What the load at a place gets that asks for a width at an address. It sees each byte of the newest older store
    /// that has completed and covers it, else memory's; a store that hasn't completed is passed. It waits where the newest
    /// of these that shares a byte with it has only some of its bytes.
    #[inline]
    pub fn ask_load<A: Allocator>(
        &self,
        flight: &Flight<A>,
        memory: &Memory<A>,
        place: usize,
        address: u64,
        width: Width,
    ) -> LoadAnswer
        requires { place < flight.now.renamed }
        ensures clear { is_some (number_answered result) ≡ is_clear_in (stores_of flight.now.entries) (entry_in flight.now.entries place).stamp (load_span address (bytes_of width)) }
        ensures seen { IfSome (number_answered result) (λ value. value ≡ value_seen_in (byte_at memory.now) (stores_of flight.now.entries) (entry_in flight.now.entries place).stamp (load_span address (bytes_of width))) }
    {
        let span = span_of(address, width);
        self.forward(flight, place, span, number(memory, address, width))
    }

    /// What the load at a place gets of a span at which memory has a number.
    #[inline(always)]
    pub fn forward<A: Allocator>(
        &self,
        flight: &Flight<A>,
        place: usize,
        span: Span,
        number: u64,
    ) -> LoadAnswer
        requires { place < flight.now.renamed }
        ensures clear { is_some (number_answered result) ≡ is_clear_in (stores_of flight.now.entries) (entry_in flight.now.entries place).stamp span }
        ensures seen { (memory : ℕ → ℕ) → number ≡ number_in memory span → IfSome (number_answered result) (λ value. value ≡ value_seen_in memory (stores_of flight.now.entries) (entry_in flight.now.entries place).stamp span) }
    {
        let Some(store) = newest_sharing(flight, place, span) else {
            return LoadAnswer::Ready { value: number };
        };
        if store.span.covers(span) {
            LoadAnswer::Ready {
                value: store.part(span),
            }
        } else {
            LoadAnswer::Wait
        }
    }

    /// The oldest entry leaves, and its place in a queue with it.
    #[inline(always)]
    pub fn retire<A: Allocator>(&self, flight: &mut Flight<A>)
        requires { 0 < flight.old.renamed }
        ensures retired { flight.new ≡ retired_one flight.old }
        ensures loads { loads_of flight.new.entries ≡ without_oldest load_stamp (entry_in flight.old.entries 0).stamp (loads_of flight.old.entries) }
        ensures stores { stores_of flight.new.entries ≡ without_oldest store_stamp (entry_in flight.old.entries 0).stamp (stores_of flight.old.entries) }
    {
        // The stamps of the entries grow.
        let _len = flight.len();
        flight.retire();
    }

    /// The entries from a stamp on leave, and their places with them. The entry at a place stays.
    pub fn drop_from<A: Allocator>(&self, flight: &mut Flight<A>, place: usize, stamp: u64)
        requires place { place < length flight.old.entries }
        requires kept { (entry_in flight.old.entries place).stamp < stamp }
        ensures cut { flight.new ≡ cut_at flight.old stamp }
        ensures loads { loads_of flight.new.entries ≡ below load_stamp stamp (loads_of flight.old.entries) }
        ensures stores { stores_of flight.new.entries ≡ below store_stamp stamp (stores_of flight.old.entries) }
    {
        flight.cut_past(place, stamp);
    }
}
