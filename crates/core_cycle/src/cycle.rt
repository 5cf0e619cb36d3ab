//! The core.

ghost use Rattle.std.specs.Prelude.{◌≡◌, ℕ, ◌+◌, ◌<◌, ◌≤◌, ◌^◌, [], length, slice_get, slice_index, IfOk, IfErr, IfSome, None, Some};
ghost use Rattle.arrayvec.specs.ArrayVec.{array_vec_len};
ghost use Rattle.join_law.specs.Eight.{place_of};
ghost use Rattle.checkpoint.specs.Aligned.{IsAligned};
ghost use Rattle.core_view.specs.View.{IsLive, IsSoundFlight, IsSoundView, StatusHolds};
ghost use Rattle.hart_step.specs.Next.{after};
ghost use Rattle.origin_set.specs.Start.{start};
ghost use Rattle.lawful_cycle.specs.Cycle.{IsLawfulCycle, laws_of};
ghost use Rattle.lawful_cycle.specs.Timing.{AreTimely};
ghost use Rattle.lawful_cycle.specs.Distance.{NeverStalls, GoesOn, PutsSureFirst};
ghost use Rattle.core_back.specs.Machine.{context_at, in_flight, IsAlike};
ghost use Rattle.core_back.specs.First.{IsFirst, AreMarksAt};
ghost use Rattle.core_cycle.specs.Faults.{IsBehind, IsRefusal};
ghost use Rattle.lawful_cycle.specs.Steps.{IsSteppedCycle, steps_of};

use crate::contexts::Contexts;
use crate::counts::CycleCounts;
use crate::fault::CoreFault;
use branch_predict::Guess;
use checkpoint::Mark;
use core_back::Machine;
use core_profile::Profile;
use core_view::{CycleNote, Entry, Status};
use data_tags::Delay;
use fetch_policy::Pick;
use issue_queue::Order;
use join_law::{Ctx, Eight};
use listing::Tally;
use paged_memory::Memory;
use std::alloc::{Allocator, Global};

/// A core of eight contexts, over any guess, pick, order and delay.
#[derive(Drop)]
pub struct Core<
    G: Guess + Drop,
    P: Pick + Drop,
    O: Order + Drop,
    D: Delay + Drop,
    A: Allocator = Global,
> {
    contexts: Contexts<A>,
    guess: G,
    pick: P,
    order: O,
    delay: D,
}

impl<G: Guess + Drop, P: Pick + Drop, O: Order + Drop, D: Delay + Drop, A: Allocator + Copy> Core<
    G,
    P,
    O,
    D,
    A,
> {
    ghost use Rattle.core_cycle.specs.Shown.{shown};

    /// A core by a profile whose contexts start at eight marks of one origin, each with the count that it is to reach.
    /// Under an order that puts sure entries first, as OLDEST_FIRST and SPEC_LAST do, it never stalls, and `cycle` keeps
    /// that.
    ///
    /// # Errors
    ///
    /// X1 exactly where a target is below its mark's count, with the lowest such context; X2 where memory was asked
    /// for and refused. Both give the marks back.
    pub fn new(
        alloc: A,
        profile: &Profile,
        marks: Eight<Mark<A>>,
        targets: [u64; 8],
        guess: G,
        pick: P,
        order: O,
        delay: D,
    ) -> Result<Self, (Eight<Mark<A>>, CoreFault)>
        requires aligned { IsAligned marks }
        requires targets { (c : ℕ) → c < 8 → slice_index targets c ≤ 2 ^ 60 }
        ensures first { IfOk result (λ core. IsFirst profile.now marks targets (shown core)) }
        ensures guess { IfOk result (λ core. core.guess ≡ guess) }
        ensures pick { IfOk result (λ core. core.pick ≡ pick) }
        ensures order { IfOk result (λ core. core.order ≡ order) }
        ensures delay { IfOk result (λ core. core.delay ≡ delay) }
        ensures never_stalls { IfOk result (λ core. PutsSureFirst (O.key_of order) → NeverStalls (O.key_of order) (D.greatest_lag delay) (shown core).view) }
        ensures refused { IfErr result (λ back. (back.0 ≡ marks) × IsRefusal marks targets back.1) }
    {
        if let Some(context) = behind_start(&marks, &targets) {
            return Err((marks, CoreFault::TargetBehindStart { context }));
        }
        let Ok(machine) = Machine::new(alloc, profile, &marks, &targets) else {
            return Err((marks, CoreFault::OutOfMemory));
        };
        drop(marks);
        // `greatest` ensures that the greatest lag is at least 1.
        let _greatest = delay.greatest();
        Ok(Core {
            contexts: Contexts::new(machine),
            guess,
            pick,
            order,
            delay,
        })
    }
}

/// The lowest context whose target is below its mark's count.
fn behind_start<A: Allocator>(marks: &Eight<Mark<A>>, targets: &[u64; 8]) -> Option<Ctx>
    ensures behind { IfSome result (IsBehind marks.now targets.now) }
    ensures none { result ≡ None → (d : ℕ) → d < 8 → (place_of marks.now d).count ≤ slice_index targets.now d }
{
    for number in 0..8usize {
        let context = Ctx::new(number).unwrap();
        if targets[number] < marks.place(context).count() {
            return Some(context);
        }
    }
    None
}

impl<G: Guess + Drop, P: Pick + Drop, O: Order + Drop, D: Delay + Drop, A: Allocator> Core<
    G,
    P,
    O,
    D,
    A,
> {
    ghost use Rattle.core_cycle.specs.Notes.{note_of};
    ghost use Rattle.core_cycle.specs.Shown.{shown};

    /// One cycle: entries retire, complete, issue, are renamed and are fetched. It takes no memory. Returns what was
    /// done. Whatever is guessed, picked and ordered, and however long it takes, each context is then where plain
    /// RV64I is after as many instructions as it retired, and its flight is sound. What was in flight or fetched is in
    /// flight then, retired, or was squashed.
    pub fn cycle(&mut self) -> CycleNote
        requires { (shown self.old).view.cycle < 2 ^ 56 }
        ensures live { (c : ℕ) → c < 8 → IsLive (start (shown self.new).origin c) (shown self.new).view.stamp (context_at (shown self.new) c) }
        ensures cycle { (shown self.new).view.cycle ≡ (shown self.old).view.cycle + 1 }
        ensures origin { (shown self.new).origin ≡ (shown self.old).origin }
        ensures profile { (shown self.new).view.profile ≡ (shown self.old).view.profile }
        ensures idle { (shown self.new).names ≡ [] }
        ensures room { (shown self.new).fetch_room ≡ 8 }
        ensures targets { (c : ℕ) → c < 8 → (context_at (shown self.new) c).target ≡ (context_at (shown self.old) c).target }
        ensures guess { G.may_answer self.new.guess ≡ G.may_answer self.old.guess }
        ensures delay { D.may_answer self.new.delay ≡ D.may_answer self.old.delay }
        ensures greatest { D.greatest_lag self.new.delay ≡ D.greatest_lag self.old.delay }
        ensures pick { self.new.pick ≡ self.old.pick }
        ensures order { self.new.order ≡ self.old.order }
        ensures lawful { IsLawfulCycle (laws_of (P.key_of self.old.pick) (O.key_of self.old.order) (G.may_answer self.old.guess) (D.may_answer self.old.delay)) (shown self.old).view (shown self.new).view result }
        ensures stepped { IsSteppedCycle (steps_of G.answer G.after_guess G.after_learn D.answer D.after_delay) (laws_of (P.key_of self.old.pick) (O.key_of self.old.order) (G.may_answer self.old.guess) (D.may_answer self.old.delay)) self.old.guess self.new.guess self.old.delay self.new.delay (shown self.old).view (shown self.new).view result }
        ensures timely { AreTimely (shown self.new).view.cycle (shown self.new).view }
        ensures goes_on { NeverStalls (O.key_of self.old.order) (D.greatest_lag self.old.delay) (shown self.old).view → GoesOn (O.key_of self.old.order) (D.greatest_lag self.old.delay) (shown self.old).view (shown self.new).view result }
        ensures flights { result.cut + array_vec_len result.retired + in_flight (shown self.new) ≡ in_flight (shown self.old) + array_vec_len result.fetched }
    {
        let mut note = CycleNote::new();
        let counts = self.contexts.cycle(
            &mut self.guess,
            &self.pick,
            &self.order,
            &mut self.delay,
            &mut note.fetched,
            &mut note.renamed,
            &mut note.issued,
            &mut note.retired,
        );
        note.completed = counts.completed;
        note.cut = counts.cut;
        note
    }

    /// One cycle, as `cycle`, whose note is returned as counts alone.
    pub fn cycle_counted(&mut self) -> CycleCounts
        requires { (shown self.old).view.cycle < 2 ^ 56 }
        ensures live { (c : ℕ) → c < 8 → IsLive (start (shown self.new).origin c) (shown self.new).view.stamp (context_at (shown self.new) c) }
        ensures cycle { (shown self.new).view.cycle ≡ (shown self.old).view.cycle + 1 }
        ensures origin { (shown self.new).origin ≡ (shown self.old).origin }
        ensures profile { (shown self.new).view.profile ≡ (shown self.old).view.profile }
        ensures idle { (shown self.new).names ≡ [] }
        ensures room { (shown self.new).fetch_room ≡ 8 }
        ensures targets { (c : ℕ) → c < 8 → (context_at (shown self.new) c).target ≡ (context_at (shown self.old) c).target }
        ensures guess { G.may_answer self.new.guess ≡ G.may_answer self.old.guess }
        ensures delay { D.may_answer self.new.delay ≡ D.may_answer self.old.delay }
        ensures greatest { D.greatest_lag self.new.delay ≡ D.greatest_lag self.old.delay }
        ensures pick { self.new.pick ≡ self.old.pick }
        ensures order { self.new.order ≡ self.old.order }
        ensures lawful { IsLawfulCycle (laws_of (P.key_of self.old.pick) (O.key_of self.old.order) (G.may_answer self.old.guess) (D.may_answer self.old.delay)) (shown self.old).view (shown self.new).view (note_of result) }
        ensures stepped { IsSteppedCycle (steps_of G.answer G.after_guess G.after_learn D.answer D.after_delay) (laws_of (P.key_of self.old.pick) (O.key_of self.old.order) (G.may_answer self.old.guess) (D.may_answer self.old.delay)) self.old.guess self.new.guess self.old.delay self.new.delay (shown self.old).view (shown self.new).view (note_of result) }
        ensures timely { AreTimely (shown self.new).view.cycle (shown self.new).view }
        ensures goes_on { NeverStalls (O.key_of self.old.order) (D.greatest_lag self.old.delay) (shown self.old).view → GoesOn (O.key_of self.old.order) (D.greatest_lag self.old.delay) (shown self.old).view (shown self.new).view (note_of result) }
        ensures flights { result.cut + length result.retired + in_flight (shown self.new) ≡ in_flight (shown self.old) + length result.fetched }
    {
        // Each by itself: in one struct that is lent field by field they stand in memory, and not in registers.
        let mut fetched = Tally::new();
        let mut renamed = Tally::new();
        let mut issued = Tally::new();
        let mut retired = Tally::new();
        let counts = self.contexts.cycle(
            &mut self.guess,
            &self.pick,
            &self.order,
            &mut self.delay,
            &mut fetched,
            &mut renamed,
            &mut issued,
            &mut retired,
        );
        CycleCounts {
            fetched,
            renamed,
            issued,
            retired,
            completed: counts.completed,
            cut: counts.cut,
        }
    }

    /// The number of the cycle that comes. Each context is live and the view sound, at most 80 of its entries are in
    /// flight, each was fetched by that cycle, and what was issued is due in it or later.
    pub fn cycles(&self) -> u64
        ensures value { result ≡ (shown self.now).view.cycle }
        ensures live { (c : ℕ) → c < 8 → IsLive (start (shown self.now).origin c) (shown self.now).view.stamp (context_at (shown self.now) c) }
        ensures sound { IsSoundView (shown self.now).view }
        ensures contexts { length (shown self.now).view.contexts ≡ 8 }
        ensures few { (c : ℕ) → c < 8 → length (context_at (shown self.now) c).flight ≤ 80 }
        ensures timely { AreTimely result (shown self.now).view }
    {
        self.contexts.machine().cycle()
    }

    /// How many instructions a context has retired: plain RV64I reaches its registers, pc and memory in as many from
    /// the start, and its flight is sound.
    pub fn retired(&self, context: Ctx) -> u64
        ensures count { result ≡ (context_at (shown self.now) context).count }
        ensures live { IsLive (start (shown self.now).origin context) (shown self.now).view.stamp (context_at (shown self.now) context) }
    {
        self.contexts.machine().retired(context)
    }

    /// Whether a context runs: it is parked exactly at its target, and stopped where its next instruction stops.
    pub fn state(&self, context: Ctx) -> Status
        ensures value { result ≡ (context_at (shown self.now) context).status }
        ensures holds { StatusHolds result (context_at (shown self.now) context) }
    {
        // `retired` ensures that the context is live.
        let _live = self.contexts.machine().retired(context);
        self.contexts.machine().status(context)
    }

    /// The registers, the pc and the memory of a context after what it retired: those of plain RV64I after as many
    /// instructions from the start.
    pub fn arch(&self, context: Ctx) -> (&[u64; 32], u64, &Memory<A>)
        ensures registers { result.0.now ≡ (context_at (shown self.now) context).state.registers }
        ensures pc { result.1 ≡ (context_at (shown self.now) context).state.pc }
        ensures memory { result.2.now ≡ (context_at (shown self.now) context).state.memory }
        ensures plain { let x = context_at (shown self.now) context in after x.count (start (shown self.now).origin context) ≡ Some x.state }
    {
        // `retired` ensures that the context is live.
        let _live = self.contexts.machine().retired(context);
        (
            self.contexts.machine().registers(context),
            self.contexts.machine().pc(context),
            self.contexts.machine().memory(context),
        )
    }

    /// The memory of a context after what it retired.
    pub fn memory(&self, context: Ctx) -> &Memory<A>
        ensures { result.now ≡ (context_at (shown self.now) context).state.memory }
    {
        self.contexts.machine().memory(context)
    }

    /// How many entries of a context are in flight. They are sound over its state.
    pub fn in_flight(&self, context: Ctx) -> usize
        ensures value { result ≡ length (context_at (shown self.now) context).flight }
        ensures sound { IsSoundFlight (shown self.now).view.stamp (context_at (shown self.now) context) }
    {
        // `retired` ensures that the context is live.
        let _live = self.contexts.machine().retired(context);
        self.contexts.machine().len(context)
    }

    /// The entry of a context at a place of its flight, oldest first, where there is one.
    pub fn entry(&self, context: Ctx, place: usize) -> Option<Entry>
        ensures { result ≡ slice_get (context_at (shown self.now) context).flight place }
    {
        self.contexts.machine().entry(context, place)
    }

    /// Eight marks where the contexts are.
    pub fn into_marks(self) -> Eight<Mark<A>>
        ensures { AreMarksAt (shown self) result }
    {
        self.contexts.into_machine().into_marks()
    }
}
