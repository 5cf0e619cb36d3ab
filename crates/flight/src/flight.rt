//! The entries of a context in flight.

ghost use Rattle.std.specs.Prelude.{◌≡◌, ◌≢◌, ℕ, List, ◌+◌, ◌-◌, ◌<◌, ◌≤◌, ◌%◌, Bool, true, false, [], ◌∷◌, ◌++◌, length, take, drop, slice_get, slice_set, option_copied, None, Some, IfOk, IfSome, IsTrue, MatchOption, All, count_by, nat_lt};
ghost use Rattle.std.specs.Int.{bit_at};
ghost use Rattle.std.specs.List.{list_any};
ghost use Rattle.circular_buffer.specs.Buffer.{buffer, last_item};
ghost use Rattle.reorder_buffer.specs.Growing.{IsGrowing, below};
ghost use Rattle.core_view.specs.declared.entry.Stage.TheVariants.{Fetched, Queued, Issued};
ghost use Rattle.core_view.specs.Events.{due_at, with_stage, completed_entry};
ghost use Rattle.core_view.specs.declared.entry.Entry.{Entry};
ghost use Rattle.core_view.specs.declared.entry.Execution.{Execution};
ghost use Rattle.core_view.specs.declared.outcome.Step.{Step};
ghost use Rattle.core_view.specs.declared.outcome.Outcome.TheVariants.{Goes};
ghost use Rattle.core_view.specs.Flight.{GoesOnAt, is_done, is_open_guess, is_missed_load, result_in};
ghost use Rattle.core_view.specs.Operations.{is_guessed, is_load, is_store, stops_at_fetch};
ghost use Rattle.core_view.specs.Kinds.{kind_index};
ghost use Rattle.core_view.specs.Queues.{is_renamed};
ghost use Rattle.flight.specs.declared.finished.Finished.{Finished};
ghost use Rattle.flight.specs.Marked.{is_of_kind, is_waiting, is_waiting_load, is_issued_load, is_completed_store, word_of};
ghost use Rattle.core_view.specs.Stages.{execution_of, IsIssued};
ghost use Rattle.flight.specs.Flights.{entry_in, empty_flight, fetched_one, renamed_one, issued_one, finished_one, retired_one, none_left, cut_at, guesses_ahead, is_due, NoneFrom, IsNext, NoneRenamedFrom, IsNextRenamed, NoneRenamedBelow, IsLastRenamed, IsPlain, NoneOpenBelow, Frees};

use crate::finished::Finished;
use crate::marks::{Marks, is_waiting};
use bit_vector::{
    both, clear_slot, count, has_from, has_more, last, lowest, next, set_slot, turn, up_to_first,
};
use core_view::{Entry, Execution, OperationKind, Step};
use hint::assert_unchecked;
use reorder_buffer::Ring;
use std::alloc::{AllocError, Allocator, Global};
use std::marker::Model;

/// The entries of a context in flight, of which the oldest, at most 64, are renamed.
#[derive(Drop)]
pub struct Flight<A: Allocator = Global> {
    ring: Ring<Entry, A>,
    renamed: usize,
    marks: Marks,
    // How many of the entries that are not renamed are guessed.
    guessed: usize,
    // How many entries have left as the oldest, modulo 256: modulo 64 it is the slot of the oldest.
    base: u8,
    // A word a cycle modulo 64, with a bit a slot: what is due then has its bit.
    hints: [u64; 64],
    // The slot of what was renamed last of a stamp modulo 256.
    slots: [u8; 256],
}

impl<A: Allocator> Model for Flight<A> {
    ghost use Rattle.std.specs.Prelude.{◌≡◌};
    ghost use Rattle.flight.specs.Flights.{Flight, IsFlight, guesses_ahead};
    ghost use Rattle.flight.specs.FlightCode.{coded_flight};

    ghost Value = { Flight };

    ghost view = { λ f. record { entries = f.ring.items; renamed = f.renamed; capacity = f.ring.capacity } };

    ghost invariant = { λ f. IsFlight f.ring.items f.renamed f.base f.marks f.hints × (f.guessed ≡ guesses_ahead f.renamed f.ring.items) };

    ghost coded = { coded_flight };
}

impl<A: Allocator> Flight<A> {
    /// No entry, with room for so many.
    pub fn new(alloc: A, capacity: usize) -> Result<Self, AllocError>
        ensures { IfOk result (λ f. f ≡ empty_flight capacity) }
    {
        let Ok(ring) = Ring::new(alloc, capacity) else {
            return Err(AllocError);
        };
        Ok(Flight {
            ring,
            renamed: 0,
            marks: Marks::new(),
            guessed: 0,
            base: 0,
            hints: [0; 64],
            slots: [0; 256],
        })
    }

    /// How many entries there are.
    pub fn len(&self) -> usize
        ensures value { result ≡ length self.now.entries }
        ensures bound { result ≤ self.now.capacity }
        ensures growing { IsGrowing (λ (e : Entry). e.stamp) self.now.entries }
    {
        self.ring.len()
    }

    /// How many of them are renamed: the oldest.
    pub fn renamed_count(&self) -> usize
        ensures value { result ≡ self.now.renamed }
        ensures within { result ≤ length self.now.entries }
        ensures few { result ≤ 64 }
        ensures oldest { (i : ℕ) → is_renamed (entry_in self.now.entries i).stage ≡ nat_lt i result }
    {
        self.renamed
    }

    /// The oldest entry.
    pub fn head(&self) -> Option<&Entry>
        ensures { option_copied result ≡ slice_get self.now.entries 0 }
    {
        self.ring.head()
    }

    /// Whether the oldest entry is done.
    #[inline(always)]
    pub fn is_head_done(&self) -> bool
        ensures { result ≡ is_done (entry_in self.now.entries 0).stage }
    {
        self.marks.done % 2 == 1
    }

    /// Whether the entry after the oldest is done.
    #[inline(always)]
    pub fn is_next_done(&self) -> bool
        ensures { result ≡ is_done (entry_in self.now.entries 1).stage }
    {
        self.marks.done / 2 % 2 == 1
    }

    /// The youngest entry.
    pub fn last(&self) -> Option<&Entry>
        ensures { option_copied result ≡ last_item self.now.entries }
    {
        self.ring.last()
    }

    /// The entry at a place, counted from the oldest.
    pub fn get(&self, place: usize) -> Option<&Entry>
        ensures { option_copied result ≡ slice_get self.now.entries place }
    {
        self.ring.get(place)
    }

    /// An entry is fetched, guessed or not: it is the youngest. That it is guessed is passed beside it, since what reads a
    /// part of an entry has it copied in parts.
    #[inline(always)]
    pub fn push(&mut self, entry: Entry, guessed: bool)
        requires room { length self.old.entries < self.old.capacity }
        requires younger { All (λ e. e.stamp < entry.stamp) self.old.entries }
        requires fetched { entry.stage ≡ Fetched }
        requires guessed { guessed ≡ is_guessed entry.operation }
        ensures { self.new ≡ fetched_one self.old entry }
    {
        push_in(&mut self.ring, entry);
        // How many there are is a bound of how many are guessed.
        let _len = self.ring.len();
        self.guessed += usize::from(guessed);
    }

    /// The oldest fetched entry is renamed in a cycle.
    pub fn rename(&mut self, cycle: u64)
        requires some { self.old.renamed < length self.old.entries }
        requires few { self.old.renamed < 64 }
        ensures { self.new ≡ renamed_one cycle self.old }
    {
        let _len = self.ring.len();
        let entry = at(&self.ring, self.renamed).renamed(cycle);
        set_in(&mut self.ring, self.renamed, entry);
        self.marks.push(self.renamed, &entry);
        self.slots[(entry.stamp % 256) as usize] = slot_of(self.base, self.renamed) as u8;
        self.renamed += 1;
        self.guessed = guesses_left(self.guessed, entry.operation.is_guessed());
    }

    /// The oldest fetched entry, which doesn't stop at fetch, is renamed: it waits for issue.
    #[inline(always)]
    pub fn rename_waiting(&mut self)
        requires some { self.old.renamed < length self.old.entries }
        requires few { self.old.renamed < 64 }
        requires goes { stops_at_fetch (entry_in self.old.entries self.old.renamed).operation ≡ false }
        ensures { (cycle : ℕ) → self.new ≡ renamed_one cycle self.old }
    {
        let _len = self.ring.len();
        let place = self.renamed;
        let entry = at(&self.ring, place).queued();
        queue_in(&mut self.ring, place);
        self.marks.push_queued(place, &entry);
        self.slots[(entry.stamp % 256) as usize] = slot_of(self.base, place) as u8;
        self.renamed = place + 1;
        self.guessed = guesses_left(self.guessed, entry.operation.is_guessed());
    }

    /// The entry at a place, which waits for issue, issues.
    #[inline(always)]
    pub fn issue(&mut self, place: usize, execution: Execution)
        requires place { place < length self.old.entries }
        requires queued { (entry_in self.old.entries place).stage ≡ Queued }
        ensures { self.new ≡ issued_one self.old place execution }
    {
        let entry = at(&self.ring, place).issued(execution);
        issue_in(&mut self.ring, place, execution);
        self.marks.issue(place, &entry);
        let cycle = (execution.due % 64) as usize;
        self.hints[cycle] = set_slot(self.hints[cycle], slot_of(self.base, place));
    }

    /// The entry at a place, which waits for issue and is no load, issues.
    #[inline(always)]
    pub fn issue_other(&mut self, place: usize, execution: Execution)
        requires place { place < length self.old.entries }
        requires queued { (entry_in self.old.entries place).stage ≡ Queued }
        requires other { is_load (entry_in self.old.entries place).operation ≡ false }
        ensures { self.new ≡ issued_one self.old place execution }
    {
        issue_in(&mut self.ring, place, execution);
        self.marks.issue_other(place);
        let word = (execution.due % 64) as usize;
        self.hints[word] = set_slot(self.hints[word], slot_of(self.base, place));
    }

    /// The entry at a place, which is issued, completes. Nothing is cut.
    #[inline(always)]
    pub fn finish(&mut self, place: usize)
        requires place { place < length self.old.entries }
        requires issued { IsIssued (entry_in self.old.entries place).stage }
        ensures { self.new ≡ finished_one self.old place (execution_of (entry_in self.old.entries place).stage) }
    {
        self.finish_where(place, false);
    }

    /// The entry at a place completes; a flag may say that fetch went on after it where it goes, or that it stops.
    #[inline(always)]
    fn finish_where(&mut self, place: usize, followed: bool)
        requires place { place < length self.old.entries }
        requires issued { IsIssued (entry_in self.old.entries place).stage }
        requires followed { followed ≡ true → GoesOnAt (entry_in self.old.entries place).followed (execution_of (entry_in self.old.entries place).stage).outcome }
        ensures { self.new ≡ finished_one self.old place (execution_of (entry_in self.old.entries place).stage) }
    {
        let due = done_in(&mut self.ring, place, followed);
        self.marks.finish(place);
        let cycle = (due % 64) as usize;
        self.hints[cycle] = clear_slot(self.hints[cycle], slot_of(self.base, place));
    }

    /// The oldest entry leaves.
    pub fn retire(&mut self)
        requires { 0 < self.old.renamed }
        ensures { self.new ≡ retired_one self.old }
    {
        let Some(_oldest) = self.ring.retire() else {
            assert_unchecked(false);
            unreachable!();
        };
        self.marks.retire();
        self.renamed -= 1;
        self.base = self.base.wrapping_add(1);
    }

    /// The entries from a stamp on leave. The one at a place stays.
    pub fn cut_past(&mut self, place: usize, stamp: u64)
        requires place { place < length self.old.entries }
        requires kept { (entry_in self.old.entries place).stamp < stamp }
        ensures { self.new ≡ cut_at self.old stamp }
    {
        cut_in(&mut self.ring, place, stamp);
        self.renamed = self.renamed.min(self.ring.len());
        self.marks.keep(self.renamed);
        self.guessed = guesses_from(&self.ring, self.renamed);
    }

    /// All entries leave.
    pub fn clear(&mut self)
        ensures { self.new ≡ none_left self.old }
    {
        self.ring.cut_from(0);
        self.marks = Marks::new();
        self.renamed = 0;
        self.guessed = 0;
    }

    /// Whether one of the renamed entries is guessed and has not completed.
    pub fn has_open_guess(&self) -> bool
        ensures { result ≡ list_any is_open_guess (take self.now.renamed self.now.entries) }
    {
        self.marks.open_guesses() != 0
    }

    /// How many loads were issued, have not completed, and missed.
    pub fn missed_loads(&self) -> usize
        ensures { result ≡ count_by is_missed_load (take self.now.renamed self.now.entries) }
    {
        self.marks.missed_count()
    }

    /// How many of the entries that are not renamed are guessed.
    pub fn guesses_ahead(&self) -> usize
        ensures value { result ≡ guesses_ahead self.now.renamed self.now.entries }
        ensures bound { result ≤ length self.now.entries }
    {
        self.guessed
    }

    /// The place of the oldest renamed entry that is guessed and has not completed, or 64.
    pub fn first_open_guess(&self) -> usize
        ensures before { (i : ℕ) → i < result → i < self.now.renamed → is_open_guess (entry_in self.now.entries i) ≡ false }
        ensures here { result < self.now.renamed → is_open_guess (entry_in self.now.entries result) ≡ true }
        ensures few { result ≤ 64 }
    {
        next(self.marks.open_guesses(), 0)
    }

    /// The place of the entry with a stamp that waits for issue, where the slot that is known of the stamp is its own.
    #[inline(always)]
    pub fn known_waiting(&self, stamp: u64) -> Option<usize>
        ensures within { IfSome result (λ place. place < length self.now.entries) }
        ensures stamp { IfSome result (λ place. (entry_in self.now.entries place).stamp ≡ stamp) }
        ensures waits { IfSome result (λ place. is_waiting (entry_in self.now.entries place) ≡ true) }
    {
        let place = place_of(self.base, self.slots[(stamp % 256) as usize]);
        let entry = self.get(place)?;
        if entry.stamp == stamp && is_waiting(entry) {
            Some(place)
        } else {
            None
        }
    }

    /// The first place from one on whose entry waits for issue.
    pub fn next_waiting(&self, from: usize) -> Option<usize>
        requires { from ≤ 64 }
        ensures next { MatchOption result (NoneFrom is_waiting self.now.entries from) (λ place. IsNext is_waiting self.now.entries from place) }
        ensures renamed { IfSome result (λ place. place < self.now.renamed) }
    {
        self.next_marked(self.marks.waiting(), from)
    }

    /// The first place from one on whose entry is a load that waits for issue.
    pub fn next_waiting_load(&self, from: usize) -> Option<usize>
        requires { from ≤ 64 }
        ensures next { MatchOption result (NoneFrom is_waiting_load self.now.entries from) (λ place. IsNext is_waiting_load self.now.entries from place) }
        ensures renamed { IfSome result (λ place. place < self.now.renamed) }
    {
        self.next_marked(self.marks.waiting_loads(), from)
    }

    /// How many renamed entries are of a kind.
    #[inline(always)]
    pub fn kind_count(&self, kind: OperationKind) -> usize
        ensures value { result ≡ count_by (is_of_kind (kind_index kind)) (take self.now.renamed self.now.entries) }
    {
        count(self.marks.of_kind(kind))
    }

    /// Whether the oldest entry, which is renamed, is of a kind.
    #[inline(always)]
    pub fn head_is(&self, kind: OperationKind) -> bool
        requires { 0 < self.now.renamed }
        ensures { result ≡ is_of_kind (kind_index kind) (entry_in self.now.entries 0) }
    {
        self.marks.of_kind(kind) % 2 == 1
    }

    /// The first place from one on whose entry is a load that has issued.
    #[inline(always)]
    pub fn next_issued_load(&self, from: usize) -> Option<usize>
        requires { from ≤ 64 }
        ensures { MatchOption result (NoneRenamedFrom is_issued_load self.now from) (λ place. IsNextRenamed is_issued_load self.now from place) }
    {
        // What has its bit is renamed.
        let place = next(self.marks.issued_loads(), from);
        if place < 64 { Some(place) } else { None }
    }

    /// The last place below one whose entry is a store that has completed.
    #[inline(always)]
    pub fn last_completed_store(&self, before: usize) -> Option<usize>
        requires { before ≤ 64 }
        ensures { MatchOption result (NoneRenamedBelow is_completed_store self.now before) (λ place. IsLastRenamed is_completed_store self.now before place) }
    {
        last(self.marks.completed_stores(), before)
    }

    /// The first place from one on whose entry has its bit in a word.
    #[inline]
    fn next_marked(&self, word: u64, from: usize) -> Option<usize>
        requires { from ≤ 64 }
        ensures next { (test : Entry → Bool) → word ≡ word_of test (take self.now.renamed self.now.entries) → ((e : Entry) → e.stage ≡ Fetched → test e ≡ false) →
            MatchOption result (NoneFrom test self.now.entries from) (λ place. IsNext test self.now.entries from place) }
        ensures few { IfSome result (λ place. place < 64) }
    {
        let place = next(word, from);
        if place < self.renamed {
            Some(place)
        } else {
            None
        }
    }

    /// Whether an entry may be due in a cycle.
    #[inline(always)]
    pub fn may_be_due(&self, cycle: u64) -> bool
        ensures { result ≡ false → (i : ℕ) → is_due cycle (entry_in self.now.entries i) ≡ false }
    {
        self.hints[(cycle % 64) as usize] != 0
    }

    /// The place of the oldest entry that is due in a cycle, if its hint comes first.
    #[inline(always)]
    pub fn first_due(&self, cycle: u64) -> Option<usize>
        ensures { IfSome result (IsNext (is_due cycle) self.now.entries 0) }
    {
        let place = self.first_hint(cycle);
        if self.is_due(cycle, place) {
            Some(place)
        } else {
            None
        }
    }

    /// The entry at a place, which is issued, completes, if it is plain: fetch went on after it where it goes, and it is no
    /// store behind which a load has issued. Nothing is cut.
    #[inline(always)]
    pub fn finish_plain(&mut self, place: usize, cycle: u64) -> Option<Finished>
        requires place { place < length self.old.entries }
        requires issued { IsIssued (entry_in self.old.entries place).stage }
        ensures none { result ≡ None → self.new ≡ self.old }
        ensures plain { IfSome result (IsPlain self.old place) }
        ensures done { IfSome result (λ _. self.new ≡ finished_one self.old place (execution_of (entry_in self.old.entries place).stage)) }
        ensures frees { IfSome result (Frees self.old self.new place) }
        ensures more { IfSome result (λ f. f.more ≡ false → (i : ℕ) → is_due cycle (entry_in self.new.entries i) ≡ false) }
    {
        let value = plain_result(at(&self.ring, place))?;
        if self.may_be_read(place) {
            return None;
        }
        let frees = self.finish_followed(place);
        let more = self.may_be_due(cycle);
        Some(Finished { value, frees, more })
    }

    /// Whether the entry at a place is a store behind which a load has issued.
    #[inline(always)]
    fn may_be_read(&self, place: usize) -> bool
        requires { place < self.now.renamed }
        ensures { result ≡ false → is_store (entry_in self.now.entries place).operation ≡ true → NoneRenamedFrom is_issued_load self.now (place + 1) }
    {
        let stores = self.marks.of_kind(OperationKind::Store);
        has_from(self.marks.issued_loads(), place, stores)
    }

    /// The entry at a place, which is issued, completes, where fetch went on after it where it goes, or it stops. Returns
    /// whether one that waits is behind no open guess any more.
    #[inline(always)]
    fn finish_followed(&mut self, place: usize) -> bool
        requires place { place < length self.old.entries }
        requires issued { IsIssued (entry_in self.old.entries place).stage }
        requires followed { GoesOnAt (entry_in self.old.entries place).followed (execution_of (entry_in self.old.entries place).stage).outcome }
        ensures done { self.new ≡ finished_one self.old place (execution_of (entry_in self.old.entries place).stage) }
        ensures frees { (f : Finished) → f.frees ≡ result → Frees self.old self.new place f }
    {
        let before = self.unguarded();
        self.finish_where(place, true);
        has_more(self.unguarded(), before)
    }

    /// A word with a bit for each entry that waits behind no guessed one that has not completed.
    #[inline(always)]
    fn unguarded(&self) -> u64
        ensures set { (i : ℕ) → i < self.now.renamed → is_waiting (entry_in self.now.entries i) ≡ true → NoneOpenBelow self.now.entries i → bit_at result i ≡ 1 }
        ensures within { (i : ℕ) → bit_at result i ≡ 1 → i < self.now.renamed }
        ensures waits { (i : ℕ) → bit_at result i ≡ 1 → is_waiting (entry_in self.now.entries i) ≡ true }
        ensures none_open { (i : ℕ) → bit_at result i ≡ 1 → NoneOpenBelow self.now.entries i }
    {
        both(self.marks.waiting(), up_to_first(self.marks.open_guesses()))
    }

    /// The first place from one on whose entry is due in a cycle. Bits of what was cut are cleared on the way.
    pub fn next_due(&mut self, cycle: u64, from: usize) -> Option<usize>
        requires { from ≤ 64 }
        ensures next { MatchOption result (NoneFrom (is_due cycle) self.old.entries from) (λ place. IsNext (is_due cycle) self.old.entries from place) }
        ensures renamed { IfSome result (λ place. place < self.old.renamed) }
        ensures same { self.new ≡ self.old }
    {
        // What is not renamed, as all from place 64 on, is fetched.
        let _ring = &self.ring;
        let mut place = self.next_hint(cycle, from);
        while place < 64 {
            if self.is_due(cycle, place) {
                return Some(place);
            }
            self.clear_hint(cycle, place);
            place = self.next_hint(cycle, place + 1);
        }
        None
    }

    /// Whether the entry at a place is renamed and due in a cycle.
    #[inline]
    fn is_due(&self, cycle: u64, place: usize) -> bool
        ensures value { result ≡ is_due cycle (entry_in self.now.entries place) }
        ensures renamed { IsTrue result → place < self.now.renamed }
        ensures within { IsTrue result → place < length self.now.entries }
    {
        place < self.renamed_count() && at(&self.ring, place).stage.is_due(cycle)
    }

    /// The first place from one on that may be due in a cycle, or 64.
    #[inline]
    fn next_hint(&self, cycle: u64, from: usize) -> usize
        requires { from ≤ 64 }
        ensures from { from ≤ result }
        ensures within { result ≤ 64 }
        ensures none { (i : ℕ) → from ≤ i → i < result → is_due cycle (entry_in self.now.entries i) ≡ false }
    {
        next(
            turn(self.hints[(cycle % 64) as usize], slot_of(self.base, 0)),
            from,
        )
    }

    /// The first place that may be due in a cycle, or 64.
    #[inline(always)]
    fn first_hint(&self, cycle: u64) -> usize
        ensures within { result ≤ 64 }
        ensures none { (i : ℕ) → i < result → is_due cycle (entry_in self.now.entries i) ≡ false }
    {
        lowest(turn(self.hints[(cycle % 64) as usize], slot_of(self.base, 0)))
    }

    /// Whether the entry at a place may be due a number of times 64 cycles from a cycle, as it is if it is issued and due
    /// then.
    #[inline]
    fn is_due_in_round(&self, cycle: u64, place: usize) -> bool
        ensures { result ≡ false → (x : Execution) → (entry_in self.now.entries place).stage ≡ Issued x → x.due % 64 ≢ cycle % 64 }
    {
        place < self.renamed_count() && is_due_in_round(at(&self.ring, place), cycle)
    }

    /// The entry at a place that isn't due in a cycle loses its bit there, unless it is due so many times 64 later.
    #[inline]
    fn clear_hint(&mut self, cycle: u64, place: usize)
        requires { place < 64 }
        ensures { self.new ≡ self.old }
    {
        if self.is_due_in_round(cycle, place) {
            return;
        }
        let word = (cycle % 64) as usize;
        self.hints[word] = clear_slot(self.hints[word], slot_of(self.base, place));
    }
}

/// The slot of the entry at a place, after so many have left.
#[inline(always)]
fn slot_of(base: u8, place: usize) -> usize
    requires { place ≤ 64 }
    ensures { result ≡ (base + place) % 64 }
{
    (usize::from(base) + place) % 64
}

/// The place of the entry in a slot, after so many have left.
#[inline(always)]
fn place_of(base: u8, slot: u8) -> usize
    ensures within { result < 64 }
    ensures slot { (base + result) % 64 ≡ slot % 64 }
{
    usize::from(slot.wrapping_sub(base) % 64)
}

/// The entry at a place that is there.
#[inline]
fn at<A: Allocator>(ring: &Ring<Entry, A>, place: usize) -> &Entry
    requires { place < length ring.now.items }
    ensures { result.now ≡ entry_in ring.now.items place }
{
    let Some(entry) = ring.get(place) else {
        assert_unchecked(false);
        unreachable!();
    };
    entry
}

/// An entry is pushed into a ring with room.
#[inline]
fn push_in<A: Allocator>(ring: &mut Ring<Entry, A>, entry: Entry)
    requires room { length ring.old.items < ring.old.capacity }
    requires younger { All (λ e. e.stamp < entry.stamp) ring.old.items }
    ensures { ring.new ≡ buffer (ring.old.items ++ entry ∷ []) ring.old.capacity }
{
    let Ok(_pushed) = ring.push(entry) else {
        assert_unchecked(false);
        unreachable!();
    };
}

/// The entries from a stamp on leave a ring. The one at a place stays.
#[inline(always)]
fn cut_in<A: Allocator>(ring: &mut Ring<Entry, A>, place: usize, stamp: u64)
    requires place { place < length ring.old.items }
    requires kept { (entry_in ring.old.items place).stamp < stamp }
    ensures below { ring.new ≡ buffer (below (λ (e : Entry). e.stamp) stamp ring.old.items) ring.old.capacity }
    ensures front { ring.new.items ≡ take (length ring.new.items) ring.old.items }
{
    ring.cut_past(place, stamp);
}

/// An entry takes the place of one with its stamp.
#[inline]
fn set_in<A: Allocator>(ring: &mut Ring<Entry, A>, place: usize, entry: Entry)
    requires place { place < length ring.old.items }
    requires stamp { (entry_in ring.old.items place).stamp ≡ entry.stamp }
    ensures { ring.new ≡ buffer (slice_set ring.old.items place entry) ring.old.capacity }
{
    ring.set(place, entry);
}

// What these functions write is what stands there, but for the stage. So that no other part of an entry is written back,
// the compiler has to see this before it is put in line where something is known of these parts: hence `inline`, and not
// `inline(always)`.

/// The entry at a place, which is fetched, waits for issue.
#[inline]
fn queue_in<A: Allocator>(ring: &mut Ring<Entry, A>, place: usize)
    requires place { place < length ring.old.items }
    requires fetched { (entry_in ring.old.items place).stage ≡ Fetched }
    ensures { ring.new ≡ buffer (slice_set ring.old.items place (with_stage (entry_in ring.old.items place) Queued)) ring.old.capacity }
{
    let entry = at(ring, place).queued();
    set_in(ring, place, entry);
}

/// The entry at a place issues.
#[inline]
fn issue_in<A: Allocator>(ring: &mut Ring<Entry, A>, place: usize, execution: Execution)
    requires { place < length ring.old.items }
    ensures { ring.new ≡ buffer (slice_set ring.old.items place (with_stage (entry_in ring.old.items place) (Issued execution))) ring.old.capacity }
{
    let entry = at(ring, place).issued(execution);
    set_in(ring, place, entry);
}

/// The entry at a place, which is issued, is done. Returns the cycle in which it was due.
#[inline]
fn complete_in<A: Allocator>(ring: &mut Ring<Entry, A>, place: usize) -> u64
    requires place { place < length ring.old.items }
    requires issued { IsIssued (entry_in ring.old.items place).stage }
    ensures ring { ring.new ≡ buffer (slice_set ring.old.items place (completed_entry (entry_in ring.old.items place) (execution_of (entry_in ring.old.items place).stage))) ring.old.capacity }
    ensures due { result ≡ (execution_of (entry_in ring.old.items place).stage).due }
{
    let entry = at(ring, place).completed();
    set_in(ring, place, entry);
    entry.stage.due()
}

/// The entry at a place is done, where fetch went on after it where it goes, or it stops.
#[inline]
fn settle_in<A: Allocator>(ring: &mut Ring<Entry, A>, place: usize) -> u64
    requires place { place < length ring.old.items }
    requires issued { IsIssued (entry_in ring.old.items place).stage }
    requires followed { GoesOnAt (entry_in ring.old.items place).followed (execution_of (entry_in ring.old.items place).stage).outcome }
    ensures ring { ring.new ≡ buffer (slice_set ring.old.items place (completed_entry (entry_in ring.old.items place) (execution_of (entry_in ring.old.items place).stage))) ring.old.capacity }
    ensures due { result ≡ (execution_of (entry_in ring.old.items place).stage).due }
{
    let entry = at(ring, place).settled();
    set_in(ring, place, entry);
    entry.stage.due()
}

/// The entry at a place is done; a flag may say that fetch went on after it where it goes, or that it stops.
#[inline(always)]
fn done_in<A: Allocator>(ring: &mut Ring<Entry, A>, place: usize, followed: bool) -> u64
    requires place { place < length ring.old.items }
    requires issued { IsIssued (entry_in ring.old.items place).stage }
    requires followed { followed ≡ true → GoesOnAt (entry_in ring.old.items place).followed (execution_of (entry_in ring.old.items place).stage).outcome }
    ensures ring { ring.new ≡ buffer (slice_set ring.old.items place (completed_entry (entry_in ring.old.items place) (execution_of (entry_in ring.old.items place).stage))) ring.old.capacity }
    ensures due { result ≡ (execution_of (entry_in ring.old.items place).stage).due }
{
    if followed {
        settle_in(ring, place)
    } else {
        complete_in(ring, place)
    }
}

/// The result of an entry that is issued, if fetch went on after it where it goes.
#[inline(always)]
fn plain_result(entry: &Entry) -> Option<u64>
    ensures followed { IfSome result (λ _. (step : Step) → (execution_of entry.now.stage).outcome ≡ Goes step → entry.now.followed ≡ step.next) }
    ensures goes_on { IfSome result (λ _. GoesOnAt entry.now.followed (execution_of entry.now.stage).outcome) }
    ensures result { IfSome result (λ value. result_in (execution_of entry.now.stage).outcome ≡ Some value) }
{
    let step = entry.stage.step()?;
    if !goes_where_followed(entry, &step) {
        return None;
    }
    Some(step.result)
}

/// Whether fetch went on after an entry where a step goes.
#[inline(always)]
fn goes_where_followed(entry: &Entry, step: &Step) -> bool
    ensures { IsTrue result → entry.now.followed ≡ step.now.next }
{
    entry.followed == step.next
}

/// How many of the entries ahead are guessed, of so many, without the first of them, guessed or not.
#[inline(always)]
fn guesses_left(guessed: usize, first: bool) -> usize
    ensures { (r : ℕ) (es : List Entry) → guessed ≡ guesses_ahead r es → r < length es → first ≡ is_guessed (entry_in es r).operation → result ≡ guesses_ahead (r + 1) es }
{
    guessed.wrapping_sub(usize::from(first))
}

/// How many entries from a place on are guessed.
fn guesses_from<A: Allocator>(ring: &Ring<Entry, A>, from: usize) -> usize
    ensures { result ≡ guesses_ahead from ring.now.items }
{
    let mut count = 0;
    for place in from..ring.len() {
        count += usize::from(at(ring, place).operation.is_guessed());
    }
    count
}

/// Whether an entry may be due a number of times 64 cycles from a cycle, as it is if it is issued and due then.
#[inline]
fn is_due_in_round(entry: &Entry, cycle: u64) -> bool
    ensures { result ≡ false → (x : Execution) → entry.now.stage ≡ Issued x → x.due % 64 ≢ cycle % 64 }
{
    entry.stage.due() % 64 == cycle % 64
}
