//! Eight contexts, and the data flow that they share.

ghost use Rattle.std.specs.Prelude.{◌≡◌, ℕ, get_or, slice_set, if◌then◌else◌, ◌+◌, ◌-◌, ◌<◌, ◌≤◌, ◌^◌, ◌&&◌, ◌==◌, false, not, length, drop, count_by, slice_get, slice_index, [], IfOk, IfSome, IsSome, MatchOption, Some, None, true, is_some, option_map, min, IsTrue, ◌↔◌};
ghost use Rattle.core_view.specs.declared.outcome.Outcome.TheVariants.{Stops};
ghost use Rattle.core_view.specs.Events.{retire_event, stop_event, complete_event};
ghost use Rattle.core_view.specs.Operations.{is_guessed};
ghost use Rattle.core_view.specs.View.{entry_at, IsLive, IsSoundView};
ghost use Rattle.lawful_cycle.specs.Rename.{CanRename, of_all, oldest_fetched};
ghost use Rattle.core_view.specs.Flight.{is_queued, is_missed_load, is_open};
ghost use Rattle.lawful_cycle.specs.Fetch.{front_places, is_fetched, is_eligible, oldest_place};
ghost use Rattle.origin_set.specs.Start.{start};
ghost use Rattle.core_back.specs.Machine.{IsAlike, context_at, in_flight, with_context, with_cycle, IsNextOf};
ghost use Rattle.core_view.specs.Stages.{execution_of, IsIssued as IsIssuedStage};
ghost use Rattle.flight.specs.Flights.{is_due, NoneFrom, IsNext};
ghost use Rattle.core_context.specs.FrontLists.{front_fill};
ghost use Rattle.core_context.specs.Heads.{IsGoing, first_done, step_on};
ghost use Rattle.core_back.specs.Selected.{IsChosen, IsChosenOf, IsSuppliedPlace};
ghost use Rattle.core_back.specs.Shown.{flow_left};
ghost use Rattle.core_back.specs.Issued.{IsIssuedBy, IsHeadWaiting};
ghost use Rattle.lawful_cycle.specs.Queries.{IsLagBy, when_shown};
ghost use Rattle.core_back.specs.Fetched.{IsRenamedRun, IsPickTurn};
ghost use Rattle.core_back.specs.Renamable.{front_stops};
ghost use Rattle.core_back.specs.First.{IsFirst, IsTarget, AreMarksAt};
ghost use Rattle.checkpoint.specs.Aligned.{IsAligned};
ghost use Rattle.join_law.specs.Eight.{place_of};
ghost use Rattle.word_mask.specs.Mask.{has};
ghost use Rattle.lawful_cycle.specs.Steps.{GoesBy, IsFollowedAt};

use crate::fetching::fetch_block;
use crate::first::{first_fills, first_flow, first_tracks, marks_of, origins_of};
use crate::renaming::rename_entries;
use crate::selection::Selection;
use branch_predict::Guess;
use checkpoint::Mark;
use core_context::events::Retired;
use core_context::{Track, events};
use core_profile::Profile;
use core_view::{Entry, EntryId, Issue, Outcome, Status};
use data_flow::DataFlow;
use data_tags::{Delay, Lag};
use fetch_policy::FRONT_ROOM;
use hart_step::Stop;
use hint::assert_unchecked;
use issue_queue::Order;
use join_law::{Ctx, Eight};
use listing::Listing;
use origin_set::Origin;
use paged_memory::Memory;
use std::alloc::{AllocError, Allocator, Global};
use std::marker::Model;
use std::sync::Arc;

/// Eight contexts in flight. A contract sees the origin, the view, and what was selected and has not issued yet.
#[derive(Drop)]
pub struct Machine<A: Allocator = Global> {
    cycle: u64,
    stamp: u64,
    tracks: Vec<Track<A>, A>,
    profile: Profile,
    fetch_room: u8,
    flow: DataFlow<A>,
    selected: Selection,
    origins: Eight<Arc<Origin<A>, A>>,
    // How full each front list is: fetch reads all eight at once, which are in eight tracks.
    fills: [u16; 8],
}

impl<A: Allocator> Model for Machine<A> {
    ghost use Rattle.core_back.specs.Machine.{Machine};
    ghost use Rattle.core_back.specs.Shown.{machine_of, IsMachine};
    ghost use Rattle.std.specs.Coded.{codes};
    ghost use Rattle.core_view.specs.ViewCode.{coded_view};

    ghost Value = { Machine };

    ghost coded = { Prim.hlevel (codes, coded_view) };

    ghost view = { machine_of };

    ghost invariant = { IsMachine };
}

impl<A: Allocator + Copy> Machine<A> {
    /// Eight contexts by a profile that start at eight marks of one origin, each with the count that it is to reach.
    pub fn new(
        alloc: A,
        profile: &Profile,
        marks: &Eight<Mark<A>>,
        targets: &[u64; 8],
    ) -> Result<Self, AllocError>
        requires aligned { IsAligned marks.now }
        requires targets { (c : ℕ) → c < 8 → IsTarget (place_of marks.now c) (slice_index targets.now c) }
        ensures { IfOk result (IsFirst profile.now marks.now targets.now) }
    {
        let origins = origins_of(marks)?;
        let flow = first_flow(alloc, marks, profile)?;
        let tracks = first_tracks(alloc, marks, targets, profile)?;
        let fills = first_fills(tracks.as_slice());
        Ok(Machine {
            origins,
            flow,
            tracks,
            fills,
            selected: Selection::new(),
            cycle: 0,
            stamp: 0,
            fetch_room: 8,
            profile: *profile,
        })
    }
}

impl<A: Allocator> Machine<A> {
    /// Eight marks where the contexts are. It takes no memory.
    pub fn into_marks(self) -> Eight<Mark<A>>
        ensures { AreMarksAt self result }
    {
        marks_of(self.origins, self.tracks)
    }

    /// The number of the cycle that comes. Each context is live: plain RV64I reaches its state in as many instructions
    /// from the start as it retired, and its flight is sound.
    pub fn cycle(&self) -> u64
        ensures value { result ≡ self.now.view.cycle }
        ensures live { (c : ℕ) → c < 8 → IsLive (start self.now.origin c) self.now.view.stamp (context_at self.now c) }
        ensures sound { IsSoundView self.now.view }
        ensures contexts { length self.now.view.contexts ≡ 8 }
        ensures few { (c : ℕ) → c < 8 → length (context_at self.now c).flight ≤ 80 }
    {
        self.cycle
    }

    /// How many instructions a context has retired. Plain RV64I reaches its state in as many from the start.
    pub fn retired(&self, context: Ctx) -> u64
        ensures count { result ≡ (context_at self.now context).count }
        ensures live { IsLive (start self.now.origin context) self.now.view.stamp (context_at self.now context) }
    {
        let track = &self.tracks[context.index()];
        track.count()
    }

    /// How many entries of a context are in flight.
    pub fn len(&self, context: Ctx) -> usize
        ensures value { result ≡ length (context_at self.now context).flight }
        ensures contexts { length self.now.view.contexts ≡ 8 }
        ensures bound { result ≤ 80 }
    {
        let track = &self.tracks[context.index()];
        track.len()
    }

    /// The parameters.
    pub fn profile(&self) -> Profile
        ensures { result ≡ self.now.view.profile }
    {
        self.profile
    }

    /// The registers of a context after what it retired.
    pub fn registers(&self, context: Ctx) -> &[u64; 32]
        ensures { result.now ≡ (context_at self.now context).state.registers }
    {
        let track = &self.tracks[context.index()];
        track.registers()
    }

    /// The pc of a context after what it retired.
    pub fn pc(&self, context: Ctx) -> u64
        ensures { result ≡ (context_at self.now context).state.pc }
    {
        let track = &self.tracks[context.index()];
        track.pc()
    }

    /// The memory of a context after what it retired.
    pub fn memory(&self, context: Ctx) -> &Memory<A>
        ensures { result.now ≡ (context_at self.now context).state.memory }
    {
        let track = &self.tracks[context.index()];
        track.memory()
    }

    /// The entry of a context at a place of its flight, oldest first, where there is one.
    pub fn entry(&self, context: Ctx, place: usize) -> Option<Entry>
        ensures { result ≡ slice_get (context_at self.now context).flight place }
    {
        let track = &self.tracks[context.index()];
        track.entry(place).copied()
    }

    /// Whether a context runs.
    pub fn status(&self, context: Ctx) -> Status
        ensures { result ≡ (context_at self.now context).status }
    {
        let track = &self.tracks[context.index()];
        track.status()
    }

    /// The outcome of the oldest entry of a context, where it is done: what plain RV64I does next in the context's state.
    pub fn head(&self, context: Ctx) -> Option<Outcome>
        ensures value { result ≡ first_done (context_at self.now context).flight }
        ensures next { IfSome result (IsNextOf (context_at self.now context)) }
    {
        let track = &self.tracks[context.index()];
        track.head()
    }

    /// Why the oldest entry of a context, which is done, stops it, if it does.
    #[inline(always)]
    pub fn head_stop(&self, context: Ctx) -> Option<Stop>
        requires { IsSome (first_done (context_at self.now context).flight) }
        ensures goes { result ≡ None → IsGoing (first_done (context_at self.now context).flight) }
        ensures stops { IfSome result (λ why. first_done (context_at self.now context).flight ≡ Some (Stops why)) }
    {
        let track = &self.tracks[context.index()];
        track.head_stop()
    }

    /// Whether the oldest entry of a context is done.
    #[inline(always)]
    pub fn is_head_done(&self, context: Ctx) -> bool
        ensures { result ≡ is_some (first_done (context_at self.now context).flight) }
    {
        let track = &self.tracks[context.index()];
        track.is_head_done()
    }

    /// Whether the entry after the oldest of a context is done.
    #[inline(always)]
    pub fn is_next_done(&self, context: Ctx) -> bool
        ensures { result ≡ is_some (first_done (drop 1 (context_at self.now context).flight)) }
    {
        let track = &self.tracks[context.index()];
        track.is_next_done()
    }

    /// The oldest entry of a context, which is done with a step, retires. A branch or jump is shown to the guess. At its
    /// target the context is parked, and its younger entries are dropped.
    #[inline(always)]
    pub fn retire<G: Guess>(&mut self, guess: &mut G, context: Ctx) -> Retired
        requires done { IsGoing (first_done (context_at self.old context).flight) }
        requires idle { self.old.names ≡ [] }
        ensures retired { let x = context_at self.old context in
            self.new ≡ with_context self.old context (retire_event x (step_on (first_done x.flight))) }
        ensures stamp { result.stamp ≡ (entry_at (context_at self.old context) 0).stamp }
        ensures dropped { result.dropped + 1 + in_flight self.new ≡ in_flight self.old }
        ensures bound { result.dropped ≤ 80 }
        ensures state { let x = context_at self.old context in
            guess.new ≡ when_shown (entry_at x 0).operation (λ insn. G.after_learn guess.old context (entry_at x 0).pc insn (step_on (first_done x.flight)).next) guess.old }
    {
        let track = &mut self.tracks[context.index()];
        // How many there are bounds how many are dropped.
        let _len = track.len();
        let retired = events::retire(&mut self.flow, track, guess, context);
        close_parked(&mut self.fills, context, retired.parked);
        retired
    }

    /// The oldest entry of a context, which is done with a stop, stops it. Returns how many entries are dropped: all.
    pub fn stop(&mut self, context: Ctx, why: Stop) -> usize
        requires done { first_done (context_at self.old context).flight ≡ Some (Stops why) }
        requires idle { self.old.names ≡ [] }
        ensures stopped { self.new ≡ with_context self.old context (stop_event (context_at self.old context) why) }
        ensures dropped { result + in_flight self.new ≡ in_flight self.old }
        ensures bound { result ≤ 80 }
    {
        let track = &mut self.tracks[context.index()];
        let dropped = track.len();
        events::stop(&mut self.flow, track, context, why);
        self.fills[context.index()] = FRONT_ROOM;
        dropped
    }

    /// Whether an entry of a context may be due in this cycle.
    #[inline(always)]
    pub fn may_be_due(&self, context: Ctx) -> bool
        ensures { result ≡ false → NoneFrom (is_due self.now.view.cycle) (context_at self.now context).flight 0 }
    {
        let track = &self.tracks[context.index()];
        track.may_be_due(self.cycle)
    }

    /// The place of the oldest entry of a context that is due in this cycle, if its hint comes first.
    #[inline(always)]
    pub fn first_due(&self, context: Ctx) -> Option<usize>
        ensures { IfSome result (IsNext (is_due self.now.view.cycle) (context_at self.now context).flight 0) }
    {
        let track = &self.tracks[context.index()];
        track.first_due(self.cycle)
    }

    /// The entry of a context at a place, which is issued, completes, if it is plain: it squashes nothing. Returns whether
    /// one more may be due in this cycle.
    #[inline(always)]
    pub fn complete_plain(&mut self, context: Ctx, place: usize) -> Option<bool>
        requires idle { self.old.names ≡ [] }
        requires place { place < length (context_at self.old context).flight }
        requires issued { IsIssuedStage (entry_at (context_at self.old context) place).stage }
        ensures none { result ≡ None → self.new ≡ self.old }
        ensures completed { IfSome result (λ _. self.new ≡ with_context self.old context (complete_event (context_at self.old context) place (execution_of (entry_at (context_at self.old context) place).stage))) }
        ensures kept { IfSome result (λ _. length (context_at self.new context).flight ≡ length (context_at self.old context).flight) }
        ensures more { IfSome result (λ more. more ≡ false → NoneFrom (is_due self.new.view.cycle) (context_at self.new context).flight 0) }
    {
        let track = &mut self.tracks[context.index()];
        events::complete_plain(&mut self.flow, track, context, place, self.cycle)
    }

    /// The first place from one on of a context's flight whose entry is due in this cycle.
    pub fn next_due(&mut self, context: Ctx, from: usize) -> Option<usize>
        requires { from ≤ 64 }
        ensures next { let es = (context_at self.old context).flight in MatchOption result (NoneFrom (is_due self.old.view.cycle) es from) (λ place. IsNext (is_due self.old.view.cycle) es from place) }
        ensures few { IfSome result (λ place. place < 64) }
        ensures same { self.new ≡ self.old }
    {
        let cycle = self.cycle;
        let track = &mut self.tracks[context.index()];
        track.next_due(cycle, from)
    }

    /// The entry of a context at a place, which is issued, completes, and squashes what it doesn't keep. Returns how many
    /// entries are squashed.
    pub fn complete(&mut self, context: Ctx, place: usize) -> usize
        requires idle { self.old.names ≡ [] }
        requires place { place < length (context_at self.old context).flight }
        requires issued { IsIssuedStage (entry_at (context_at self.old context) place).stage }
        ensures completed { self.new ≡ with_context self.old context (complete_event (context_at self.old context) place (execution_of (entry_at (context_at self.old context) place).stage)) }
        ensures cut { result + length (context_at self.new context).flight ≡ length (context_at self.old context).flight }
    {
        let track = &mut self.tracks[context.index()];
        let cut = events::complete(&mut self.flow, track, context, place);
        self.fills[context.index()] = track.front_fill();
        cut
    }

    /// Selects the first entries by an order that are queued and have the values of their sources, at most so many. A load
    /// may have to wait: that is asked as it issues.
    #[inline(always)]
    pub fn select<O: Order>(&mut self, order: &O, width: usize)
        requires width { width ≤ 8 }
        requires idle { self.old.names ≡ [] }
        ensures selected { self.new ≡ record self.old { names = self.new.names } }
        ensures most { length self.new.names ≤ width }
        ensures choice { IsChosenOf (IsSuppliedPlace self.old.view) (O.key_of order.now) width self.old.view self.new.names }
    {
        self.selected.hold_first(&mut self.flow, order, width);
    }

    /// What was selected and has not issued goes back, and the first ready entries by an order are selected, at most so
    /// many. A load that isn't clear isn't ready.
    #[cold]
    #[inline(never)]
    pub fn select_anew<O: Order>(&mut self, order: &O, width: usize)
        requires width { width ≤ 8 }
        requires some { 0 < length self.old.names }
        ensures selected { self.new ≡ record self.old { names = self.new.names } }
        ensures most { length self.new.names ≤ width }
        ensures choice { IsChosen (O.key_of order.now) width self.old.view self.new.names }
    {
        self.give_back();
        self.select_clear(order, width);
    }

    /// What was selected and has not issued goes back.
    fn give_back(&mut self)
        requires { 0 < length self.old.names }
        ensures { self.new ≡ record self.old { names = [] } }
    {
        self.selected.mark(&mut self.flow, false);
        // What is held still has issued.
        self.flow.drop_held();
        self.selected.clear();
    }

    /// Selects the first ready entries by an order, at most so many. A load that isn't clear isn't ready.
    fn select_clear<O: Order>(&mut self, order: &O, width: usize)
        requires width { width ≤ 8 }
        requires idle { self.old.names ≡ [] }
        ensures selected { self.new ≡ record self.old { names = self.new.names } }
        ensures most { length self.new.names ≤ width }
        ensures choice { IsChosen (O.key_of order.now) width self.old.view self.new.names }
    {
        // Only a ready load may have to wait.
        let mut left = self.flow.contexts_with_ready_load();
        while left != 0 {
            let context = first_context(left);
            let track = &self.tracks[context.index()];
            events::hold_loads(&mut self.flow, track, context);
            left = word_mask::cleared(left, context.index());
        }
        self.selected.hold_first(&mut self.flow, order, width);
        // What had to wait isn't held any more, and what was selected is.
        self.flow.release();
        self.selected.mark(&mut self.flow, true);
    }

    /// How many entries are selected that have not issued yet.
    #[inline(always)]
    pub fn selected_count(&self) -> usize
        ensures { result ≡ length self.now.names }
    {
        self.selected.len()
    }

    /// The first of the selected entries issues, after the lag that a delay gives. A load that has to wait for an older
    /// store doesn't: `None`, and all stays as it is.
    #[inline(always)]
    pub fn issue_next<D: Delay>(&mut self, delay: &mut D) -> Option<Issue>
        requires some { 0 < length self.old.names }
        requires cycle { self.old.view.cycle < 2 ^ 56 }
        ensures issued { IfSome result (IsIssuedBy (IsLagBy (D.may_answer delay.old) D.answer D.after_delay delay.old delay.new) self.old self.new) }
        ensures waits { result ≡ None → IsHeadWaiting self.old }
        ensures same { result ≡ None → self.new ≡ self.old }
        ensures unasked { result ≡ None → delay.new ≡ delay.old }
    {
        let name = self.selected.first();
        let track = &mut self.tracks[name.context.index()];
        let lag = events::issue(
            &self.flow,
            track,
            name.context,
            name.stamp,
            self.cycle,
            delay,
        )?;
        let _first = self.selected.take_first();
        drop_issued(&mut self.flow, &self.selected);
        Some(issue_of(name, lag))
    }

    /// Whether a context has an entry that is fetched and not yet renamed: without one, none can be.
    pub fn has_fetched(&self, context: Ctx) -> bool
        ensures { result ≡ is_some (oldest_fetched (context_at self.now context)) }
    {
        let track = &self.tracks[context.index()];
        track.has_fetched()
    }

    /// The stamp of the entry that is fetched next.
    pub fn next_stamp(&self) -> u64
        ensures value { result ≡ self.now.view.stamp }
        ensures bound { result < 2 ^ 64 }
    {
        self.stamp
    }

    /// The stamp of the oldest fetched entry of a context, if it has one: no other entry of it can be renamed.
    pub fn front_stamp(&self, context: Ctx) -> Option<u64>
        ensures value { result ≡ option_map (λ (e : Entry). e.stamp) (oldest_fetched (context_at self.now context)) }
        ensures bound { IfSome result (λ stamp. stamp + 1 < 2 ^ 64) }
    {
        // The stamps of the entries are below the next one.
        let _next = self.next_stamp();
        let track = &self.tracks[context.index()];
        events::front_stamp(track)
    }

    /// Whether more of a context can be fetched behind its youngest entry, if it has one: that doesn't stop at fetch, and no
    /// older one does.
    #[inline(always)]
    pub fn is_open(&self, context: Ctx) -> bool
        ensures { result ≡ is_open (context_at self.now context).flight }
    {
        let track = &self.tracks[context.index()];
        track.is_open()
    }

    /// Whether the oldest fetched entry of a context, if it has one, stops at fetch.
    #[inline(always)]
    pub fn front_stops(&self, context: Ctx) -> bool
        ensures { result ≡ front_stops (context_at self.now context) }
    {
        let track = &self.tracks[context.index()];
        events::front_stops(track)
    }

    /// Whether one more entry can wait for issue. What stops at fetch doesn't wait.
    #[inline(always)]
    pub fn has_queue_place(&self) -> bool
        requires { self.now.names ≡ [] }
        ensures { IsTrue result ↔ (of_all (λ (e : Entry). is_queued e.stage) self.now.view < self.now.view.profile.issue_queue) }
    {
        self.flow.has_place()
    }

    /// The oldest fetched entries of a context are renamed, one by one, for as long as they can be, their stamps are no
    /// greater than a limit, and fewer than a width are listed. What is renamed is listed in order.
    // It stays out of line: in a caller's loop its conditional moves become jumps, which are guessed wrongly.
    #[inline(never)]
    pub fn rename_run<L: Listing<EntryId, 8>>(
        &mut self,
        context: Ctx,
        limit: u64,
        width: usize,
        renamed: &mut L,
    )
        requires idle { self.old.names ≡ [] }
        requires width { width ≤ 8 }
        requires room { length (L.items renamed.old) ≤ width }
        ensures run { IsRenamedRun context limit width self.old self.new (L.items renamed.old) (L.items renamed.new) }
        ensures cannot { length (L.items renamed.new) < width → (e : Entry) → e.stamp ≤ limit → ¬ (CanRename self.new.view context e) }
        ensures flights { in_flight self.new ≡ in_flight self.old }
        ensures alike { IsAlike self.old self.new }
        ensures idle { self.new.names ≡ [] }
    {
        let before = renamed.len();
        let track = &mut self.tracks[context.index()];
        rename_entries(
            &mut self.flow,
            track,
            context,
            self.cycle,
            &self.profile,
            limit,
            width,
            renamed,
        );
        let place = context.index();
        self.fills[place] -= (renamed.len() - before) as u16;
    }

    /// How full each context's front list is, as fetch counts it: with a whole list more where nothing can be fetched into
    /// it, since the context doesn't run or waits.
    #[inline(always)]
    pub fn front_fills(&self) -> [u16; 8]
        ensures { (c : ℕ) → c < 8 → get_or result c 0 ≡ front_fill (context_at self.now c) }
    {
        let Machine { fills, .. } = self;
        *fills
    }

    /// How many entries of a context are fetched and not yet renamed.
    pub fn fetched_count(&self, context: Ctx) -> usize
        ensures value { result ≡ count_by is_fetched (context_at self.now context).flight }
        ensures bound { result ≤ 80 }
    {
        let track = &self.tracks[context.index()];
        track.len() - track.renamed_count()
    }

    /// How many of these are guessed.
    pub fn guessed_ahead(&self, context: Ctx) -> usize
        ensures value { result ≡ count_by (λ e. is_fetched e && is_guessed e.operation) (context_at self.now context).flight }
        ensures bound { result ≤ 80 }
    {
        let track = &self.tracks[context.index()];
        track.guessed_ahead()
    }

    /// How many loads of a context were issued, have not completed, and missed.
    pub fn missed_loads(&self, context: Ctx) -> usize
        ensures value { result ≡ count_by is_missed_load (context_at self.now context).flight }
        ensures bound { result ≤ 80 }
    {
        let track = &self.tracks[context.index()];
        track.missed_loads()
    }

    /// How many entries of a context wait for issue.
    pub fn waiting_count(&self, context: Ctx) -> usize
        requires { self.now.names ≡ [] }
        ensures value { result ≡ count_by (λ e. is_queued e.stage) (context_at self.now context).flight }
        ensures bound { result ≤ 80 }
    {
        self.flow.waiting_count(context)
    }

    /// How many guessed entries of a context wait for issue.
    pub fn waiting_guessed(&self, context: Ctx) -> usize
        requires { self.now.names ≡ [] }
        ensures value { result ≡ count_by (λ e. is_queued e.stage && is_guessed e.operation) (context_at self.now context).flight }
        ensures bound { result ≤ 80 }
    {
        self.flow.guessed_count(context)
    }

    /// How many entries that wait for issue are older than the oldest one of a context, if one of it waits.
    pub fn oldest_place(&self, context: Ctx) -> Option<usize>
        requires { self.now.names ≡ [] }
        ensures { result ≡ oldest_place self.now.view (context_at self.now context) }
    {
        self.flow.oldest_place(context)
    }

    /// Whether one more entry of a context can be fetched: it runs, doesn't wait, and its front list has room.
    pub fn can_fetch(&self, context: Ctx) -> bool
        ensures { result ≡ is_eligible (context_at self.now context) }
    {
        let asked = &self.tracks[context.index()];
        asked.can_fetch()
    }

    /// A context that may fetch does so in its turn, at most so many entries and up to the end of a block, at most eight of
    /// all contexts in a cycle. What is fetched is listed in order.
    #[inline(always)]
    pub fn fetch_block<G: Guess, L: Listing<EntryId, 8>>(
        &mut self,
        context: Ctx,
        num2: u8,
        guess: &mut G,
        fetched: &mut L,
    )
        requires idle { self.old.names ≡ [] }
        requires cycle { self.old.view.cycle < 2 ^ 56 }
        requires room { self.old.fetch_room + length (L.items fetched.old) ≡ 8 }
        requires eligible { is_eligible (context_at self.old context) ≡ true }
        ensures turn { IsPickTurn (G.may_answer guess.old) self.old self.new context num2 (L.items fetched.old) (L.items fetched.new) }
        ensures queried { GoesBy (IsFollowedAt G.answer G.after_guess context) (drop (length (context_at self.old context).flight) (context_at self.new context).flight) guess.old guess.new }
        ensures room { self.new.fetch_room + length (L.items fetched.new) ≡ 8 }
        ensures idle { self.new.names ≡ [] }
        ensures flights { in_flight self.new + length (L.items fetched.old) ≡ in_flight self.old + length (L.items fetched.new) }
    {
        let Machine {
            tracks,
            cycle,
            stamp,
            fetch_room,
            fills,
            ..
        } = self;
        let track = &mut tracks[context.index()];
        let most = most_in_turn(num2, *fetch_room, track.front_room());
        let number = fetch_block(track, context, guess, *stamp, *cycle, most, fetched);
        *stamp += number as u64;
        *fetch_room -= number as u8;
        fills[context.index()] = track.front_fill();
    }

    /// The next cycle begins.
    pub fn tick(&mut self)
        requires { self.old.view.cycle < 2 ^ 56 }
        ensures next { self.new ≡ with_cycle self.old }
        ensures flights { in_flight self.new ≡ in_flight self.old }
    {
        self.cycle += 1;
        self.fetch_room = 8;
    }
}

/// The first context of a word.
#[inline(always)]
pub(crate) fn first_context(word: u64) -> Ctx
    requires some { 0 < word }
    requires known { (c : ℕ) → has word c ≡ true → c < 8 }
    ensures { has word result ≡ true }
{
    let Some(context) = Ctx::new(word_mask::lowest(word)) else {
        assert_unchecked(false);
        unreachable!();
    };
    context
}

/// Nothing can be fetched into the front list of a context that is parked: it is as full as can be.
#[inline(always)]
fn close_parked(fills: &mut [u16; 8], context: Ctx, parked: bool)
    ensures { fills.new ≡ (if parked then slice_set fills.old context front_places else fills.old) }
{
    if parked {
        fills[context.index()] = FRONT_ROOM;
    }
}

/// What is held leaves the queue, once all that was selected has issued.
#[inline(always)]
fn drop_issued<A: Allocator>(flow: &mut DataFlow<A>, selected: &Selection)
    ensures { flow.new ≡ flow_left selected.now flow.old }
{
    if selected.len() == 0 {
        flow.drop_held();
    }
}

/// An entry that issued, and its lag.
#[inline(always)]
fn issue_of(entry: EntryId, lag: Lag) -> Issue
    ensures { result ≡ record { entry = entry; latency = lag.cycles; miss = lag.miss } }
{
    Issue {
        entry,
        latency: lag.cycles,
        miss: lag.miss,
    }
}

/// How many entries a context fetches in its turn at most: as many as it may, as the cycle has left, and as its front list
/// has room for.
#[inline(always)]
fn most_in_turn(num2: u8, fetch_room: u8, front_room: usize) -> usize
    ensures { result ≡ min (min num2 fetch_room) front_room }
{
    usize::from(num2.min(fetch_room)).min(front_room)
}
