//! The data flow of eight contexts: registers, renaming, and the queue of what waits for its sources.

ghost use Rattle.std.specs.Prelude.{◌≡◌, ℕ, ◌+◌, ◌-◌, ◌<◌, ◌≤◌, ◌↔◌, [], ◌∷◌, ◌++◌, true, false, None, length, map, filter, All, IfOk, OnErr, IsOk, IsSome, IsTrue, Err, not, is_some, slice_set, count_by, ◌==◌, ◌&&◌};
ghost use Rattle.std.specs.List.{list_any};
ghost use Rattle.word_mask.specs.Mask.{has};
ghost use Rattle.issue_queue.specs.Entry.{is_named, is_ready_load};
ghost use Rattle.issue_queue.specs.Views.{view_of};
ghost use Rattle.issue_queue.specs.IsSelected.{IsSelected, is_among};
ghost use Rattle.issue_queue.specs.Stamps.{place_of_oldest};
ghost use Rattle.rename_file.specs.File.{IsFile, bank};
ghost use Rattle.data_flow.specs.Banks.{bank_with, CellsWith, IsNamed};
ghost use Rattle.data_flow.specs.Wired.{cell_of, waiting_entry};
ghost use Rattle.data_flow.specs.Flow.{lane, node_at, sources_at, with_lane, with_register, with_node, with_result, without_oldest, without_newest, kept, cut_flow, left_in, takes, taken, waits_in, waits_to_load, with_speculative, with_held, hold_among, released, queued, first_flow};

use crate::active_list::{ActiveList, first_lists};
use crate::operands::{Operands, Renamed};
use arrayvec::ArrayVec;
use core_view::EntryId;
use issue_queue::{Order, Queue, Reading, Source};
use join_law::Ctx;
use rename_file::{PhysicalRegister, Registers, RenameFault};
use rv64_decode::Register;
use std::alloc::{AllocError, Allocator, Global};
use std::marker::Model;

/// What the instructions in flight compute with. No call but `new` takes memory.
#[derive(Drop)]
pub struct DataFlow<A: Allocator = Global> {
    queue: Queue,
    registers: Registers<A>,
    renamed: [ActiveList; 8],
}

impl<A: Allocator> Model for DataFlow<A> {
    ghost use Rattle.data_flow.specs.Flow.{Flow};
    ghost use Rattle.data_flow.specs.Wired.{flow, IsWiredUp};

    ghost Value = { Flow };

    ghost view = { flow };

    ghost invariant = { IsWiredUp };
}

impl<A: Allocator + Copy> DataFlow<A> {
    /// Eight contexts with all registers 0, so many extra registers for all, room for so many instructions in flight
    /// in each context, and a queue of so many places.
    pub fn new(alloc: A, extra: usize, room: usize, places: usize) -> Result<Self, AllocError>
        requires extra { (32 ≤ extra) × (extra ≤ 224) }
        requires room { room ≤ 64 }
        requires places { places ≤ 64 }
        ensures { IfOk result (λ d. d ≡ first_flow extra room places) }
    {
        let Ok(registers) = Registers::new(alloc, extra) else {
            return Err(AllocError);
        };
        Ok(DataFlow {
            registers,
            queue: Queue::new(places),
            renamed: first_lists(room),
        })
    }
}

impl<A: Allocator> DataFlow<A> {
    /// Sets a committed register, which isn't x0.
    pub fn set_register(&mut self, context: Ctx, register: Register, value: u64)
        requires { 0 < register }
        ensures { self.new ≡ with_lane self.old context (with_register (lane self.old context) register value) }
    {
        // A context's number is below 8.
        let _number = context.index();
        self.registers
            .set_committed(context, register.index(), value);
    }

    /// How many more instructions with a destination there may be.
    pub fn free_count(&self) -> usize
        ensures { result + taken self.now ≡ self.now.extra }
    {
        self.registers.free_count()
    }

    /// The values of the sources of the instruction at a place, once both are there.
    pub fn sources(&self, context: Ctx, place: usize) -> Option<(u64, u64)>
        requires { place < length (lane self.now context).nodes }
        ensures { result ≡ sources_at (lane self.now context) place }
    {
        let renamed = self.renamed[context.index()].at(place);
        let first = self.registers.value(renamed.first)?;
        let second = self.registers.value(renamed.second)?;
        Some((first, second))
    }

    /// The values of the sources of the instruction at a place, which are both there.
    // Without a test, which every instruction that issues would take.
    #[inline(always)]
    pub fn read_sources(&self, context: Ctx, place: usize) -> (u64, u64)
        requires place { place < length (lane self.now context).nodes }
        requires supplied { IsSome (sources_at (lane self.now context) place) }
        ensures { Some result ≡ sources_at (lane self.now context) place }
    {
        let renamed = self.renamed[context.index()].at(place);
        let first = self.registers.read(renamed.first);
        let second = self.registers.read(renamed.second);
        (first, second)
    }

    /// One more instruction of a context, the youngest.
    pub fn rename(&mut self, context: Ctx, operands: Operands)
        requires younger { All (λ n. n.operands.stamp < operands.stamp) (lane self.old context).nodes }
        requires room { length (lane self.old context).nodes < (lane self.old context).room }
        requires free { 0 < operands.destination → taken self.old < self.old.extra }
        ensures { self.new ≡ with_lane self.old context (with_node (lane self.old context) operands) }
    {
        let renamed = named(&mut self.registers, context, operands);
        self.renamed[context.index()].push(renamed);
    }

    /// One more instruction of a context, the youngest, which waits for issue.
    #[inline(always)]
    pub fn rename_waiting(
        &mut self,
        context: Ctx,
        operands: Operands,
        guessed: bool,
        load: bool,
        speculative: bool,
    )
        requires younger { All (λ n. n.operands.stamp < operands.stamp) (lane self.old context).nodes }
        requires room { length (lane self.old context).nodes < (lane self.old context).room }
        requires free { 0 < operands.destination → taken self.old < self.old.extra }
        requires fresh { waits_in self.old context operands.stamp ≡ false }
        requires place { length self.old.waiters < self.old.places }
        ensures { self.new ≡ record (with_lane self.old context (with_node (lane self.old context) operands)) {
          waiters = self.old.waiters ++ record {
            stamp = operands.stamp;
            context = context;
            guessed = guessed;
            load = load;
            speculative = speculative;
            held = false;
          } ∷ [];
        } }
    {
        let newest = named(&mut self.registers, context, operands);
        self.renamed[context.index()].push(newest);
        let queue = &mut self.queue;
        put_in(
            queue,
            &self.registers,
            context,
            &newest,
            guessed,
            load,
            speculative,
        );
    }

    /// The instruction at a place has its result.
    #[inline(always)]
    pub fn finish(&mut self, context: Ctx, place: usize, value: u64)
        requires { place < length (lane self.old context).nodes }
        ensures { self.new ≡ with_lane self.old context (with_result (lane self.old context) place value) }
    {
        let renamed = self.renamed[context.index()].at(place);
        let (destination, mask) = (renamed.destination, renamed.result_mask());
        let register = self.registers.write_masked(destination, value, mask);
        self.queue.wake(register);
    }

    /// The oldest instruction of a context is committed.
    pub fn commit(&mut self, context: Ctx)
        requires some { 0 < length (lane self.old context).nodes }
        requires done { 0 < (node_at (lane self.old context) 0).operands.destination → IsSome (node_at (lane self.old context) 0).result }
        requires idle { waits_in self.old context (node_at (lane self.old context) 0).operands.stamp ≡ false }
        ensures { self.new ≡ with_lane self.old context (without_oldest (lane self.old context)) }
    {
        let oldest = self.renamed[context.index()].pop_front();
        if oldest.has_destination() {
            self.registers.commit(context, oldest.rename());
        }
    }

    /// The instructions of a context from a stamp on are forgotten, youngest first. It is lent how many stay in flight.
    pub fn cut_from(&mut self, context: Ctx, stamp: u64, left: usize)
        requires { left ≡ left_in self.old context stamp }
        ensures { self.new ≡ cut_flow self.old context stamp }
    {
        self.queue.drop_from(context, stamp);
        self.keep_oldest(context, left);
    }

    // The instructions of a context but so many of the oldest, which don't wait, are forgotten.
    fn keep_oldest(&mut self, context: Ctx, left: usize)
        requires within { left ≤ length (lane self.old context).nodes }
        requires idle { (i : ℕ) → left ≤ i → i < length (lane self.old context).nodes → waits_in self.old context (node_at (lane self.old context) i).operands.stamp ≡ false }
        ensures { self.new ≡ with_lane self.old context (kept (lane self.old context) left) }
    {
        let len = self.renamed[context.index()].len();
        for _done in left..len {
            self.undo_newest(context);
        }
    }

    // The youngest instruction of a context, which doesn't wait, is forgotten.
    fn undo_newest(&mut self, context: Ctx)
        requires some { 0 < length (lane self.old context).nodes }
        requires idle { waits_in self.old context (node_at (lane self.old context) (length (lane self.old context).nodes - 1)).operands.stamp ≡ false }
        ensures { self.new ≡ with_lane self.old context (without_newest (lane self.old context)) }
    {
        let newest = self.renamed[context.index()].pop_back();
        if newest.has_destination() {
            self.registers.undo(context, newest.rename());
        }
    }

    /// Lists the first instructions by an order that have the values of their sources, at most so many, in that order,
    /// and holds them. All of them still wait.
    #[inline(always)]
    pub fn hold_first<O: Order>(
        &mut self,
        order: &O,
        width: usize,
        names: &mut ArrayVec<EntryId, 8>,
    )
        requires width { width ≤ 8 }
        requires empty { names.old.items ≡ [] }
        ensures flow { self.new ≡ record self.old { waiters = map (hold_among names.new.items) self.old.waiters } }
        ensures selected { IsSelected (λ e. O.key_of order.now (view_of e)) width (queued self.old) (filter (λ e. not (is_among names.new.items e)) (queued self.old)) names.new.items }
    {
        self.queue.hold_first(order, width, names);
    }

    /// What is held no longer waits.
    #[inline(always)]
    pub fn drop_held(&mut self)
        ensures { self.new ≡ record self.old { waiters = filter (λ w. not w.held) self.old.waiters } }
    {
        self.queue.drop_held();
    }

    /// Tells whether an older guessed instruction of its context has not completed, of one that waits.
    pub fn speculate(&mut self, context: Ctx, stamp: u64, speculative: bool)
        ensures { self.new ≡ record self.old { waiters = map (with_speculative context stamp speculative) self.old.waiters } }
    {
        self.queue.speculate(context, stamp, speculative);
    }

    /// Holds a load that waits, or lets it go.
    pub fn hold(&mut self, context: Ctx, stamp: u64, held: bool)
        ensures { self.new ≡ record self.old { waiters = map (with_held context stamp held) self.old.waiters } }
    {
        self.queue.hold(context, stamp, held);
    }

    /// Lets all loads go.
    pub fn release(&mut self)
        ensures { self.new ≡ record self.old { waiters = map released self.old.waiters } }
    {
        self.queue.release();
    }

    /// Whether one more instruction can wait.
    pub fn has_place(&self) -> bool
        ensures { IsTrue result ↔ (length self.now.waiters < self.now.places) }
    {
        self.queue.len() < self.queue.capacity()
    }

    /// How many instructions of a context wait.
    pub fn waiting_count(&self, context: Ctx) -> usize
        ensures { result ≡ count_by (λ w. w.context == context) self.now.waiters }
    {
        self.queue.count(context)
    }

    /// How many guessed instructions of a context wait.
    pub fn guessed_count(&self, context: Ctx) -> usize
        ensures { result ≡ count_by (λ w. (w.context == context) && w.guessed) self.now.waiters }
    {
        self.queue.guessed_count(context)
    }

    /// The contexts that have a load that waits, has the values of its sources and isn't held, as the bits of a word.
    #[inline(always)]
    pub fn contexts_with_ready_load(&self) -> u64
        ensures known { (c : ℕ) → has result c ≡ true → c < 8 }
        ensures value { (c : ℕ) → has result c ≡ list_any (is_ready_load c) (queued self.now) }
        ensures lacking { (c place : ℕ) → has result c ≡ false → place < length (lane self.now c).nodes →
            waits_to_load self.now c (node_at (lane self.now c) place).operands.stamp ≡ true → sources_at (lane self.now c) place ≡ None }
    {
        self.queue.contexts_with_ready_load()
    }

    /// How many instructions that wait are older than the oldest of a context, or `None` where none of it waits.
    pub fn oldest_place(&self, context: Ctx) -> Option<usize>
        ensures { result ≡ place_of_oldest context (queued self.now) }
    {
        self.queue.oldest_place(context)
    }
}

/// The physical register for the result of one more instruction: one that was free, where it has a destination.
fn rename_in<A: Allocator>(
    registers: &mut Registers<A>,
    context: Ctx,
    destination: Register,
) -> PhysicalRegister
    requires { 0 < destination → 0 < length registers.old.free }
    ensures banks { registers.new.banks ≡ slice_set registers.old.banks context (bank_with (bank registers.old context) destination result) }
    ensures cells { CellsWith registers.old registers.new destination result }
    ensures narrow { destination < 32 }
    ensures file { IsFile registers.old → IsFile registers.new }
{
    registers.rename_destination(context, destination.index())
}

/// The physical registers of one more instruction.
#[inline(always)]
fn named<A: Allocator>(registers: &mut Registers<A>, context: Ctx, operands: Operands) -> Renamed
    requires { 0 < operands.destination → 0 < length registers.old.free }
    ensures new { IsNamed registers.old context operands result }
    ensures banks { registers.new.banks ≡ slice_set registers.old.banks context (bank_with (bank registers.old context) operands.destination result.destination) }
    ensures cells { CellsWith registers.old registers.new operands.destination result.destination }
    ensures file { IsFile registers.old → IsFile registers.new }
{
    let first = registers.source(context, operands.first.index());
    let second = registers.source(context, operands.second.index());
    let destination = rename_in(registers, context, operands.destination);
    Renamed {
        operands,
        destination,
        first,
        second,
    }
}

/// One more instruction that waits, in a queue with room.
#[inline(always)]
fn put_in<A: Allocator>(
    queue: &mut Queue,
    registers: &Registers<A>,
    context: Ctx,
    renamed: &Renamed,
    guessed: bool,
    load: bool,
    speculative: bool,
)
    requires first { renamed.now.first < length registers.now.cells }
    requires second { renamed.now.second < length registers.now.cells }
    requires fresh { list_any (is_named context renamed.now.operands.stamp) queue.old.entries ≡ false }
    requires room { length queue.old.entries < queue.old.capacity }
    ensures { queue.new ≡ record queue.old { entries = queue.old.entries ++ waiting_entry registers.now.cells context renamed.now guessed load speculative ∷ [] } }
{
    let first = source_in(registers, renamed.first);
    let second = source_in(registers, renamed.second);
    queue.enter(Reading {
        context,
        stamp: renamed.operands.stamp,
        guessed,
        load,
        speculative,
        first,
        second,
    });
}

/// A register as a source: it is waited for where it has no value yet.
#[inline(always)]
fn source_in<A: Allocator>(registers: &Registers<A>, register: PhysicalRegister) -> Source
    requires { register < length registers.now.cells }
    ensures register { result.register ≡ register }
    ensures awaited { result.awaited ≡ not (is_some (cell_of registers.now.cells register)) }
{
    Source {
        register,
        awaited: !registers.ready(register),
    }
}
