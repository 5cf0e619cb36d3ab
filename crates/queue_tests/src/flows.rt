//! A worked flow.
ghost use Rattle.std.specs.Prelude.{◌≡◌, ◌<◌, IsSome, length};
ghost use Rattle.data_flow.specs.Flow.{lane, node_at, with_lane, without_oldest};
ghost use Rattle.queue_tests.specs.Worked.{named, with_x1, with_x5, of_three, finished};

use crate::equal::assert_equal;
use crate::selected::has_stamps;
use arrayvec::ArrayVec;
use data_flow::{DataFlow, Operands};
use issue_queue::{OldestFirst, Order, SpecLast};
use join_law::Ctx;
use rv64_decode::Register;
use std::alloc::Global;
use std::process::Abort;

// The registers of an instruction, by their numbers.
fn named(stamp: u64, destination: u8, first: u8, second: u8) -> Operands
    requires destination { destination < 32 }
    requires first { first < 32 }
    requires second { second < 32 }
    ensures { result ≡ named stamp destination first second }
{
    Operands {
        stamp,
        destination: Register::new(destination),
        first: Register::new(first),
        second: Register::new(second),
    }
}

// Contexts 0 and 1 hold 10 and 20 in x1.
fn with_x1(rt: &impl Abort, alloc: Global) -> DataFlow
    ensures { result ≡ with_x1 }
{
    let mut flow = DataFlow::new(alloc, 32, 4, 8).expect(rt, "memory");
    let [first, second, ..] = Ctx::all();
    flow.set_register(first, Register::new(1), 10);
    flow.set_register(second, Register::new(1), 20);
    flow
}

// In context 0 an instruction makes x5 of x1, and the next makes x5 of that. A load of context 1 makes x6 of x1.
fn of_three(rt: &impl Abort, alloc: Global) -> DataFlow
    ensures { result ≡ of_three }
{
    let mut flow = with_x1(rt, alloc);
    let [first, second, ..] = Ctx::all();
    flow.rename_waiting(first, named(1, 5, 1, 0), false, false, false);
    flow.rename_waiting(first, named(2, 5, 5, 1), true, false, false);
    flow.rename_waiting(second, named(3, 6, 1, 1), false, true, false);
    flow
}

// By an order these are listed of what waits, first to last, and held.
fn assert_held<O: Order>(rt: &impl Abort, flow: &mut DataFlow, order: &O, stamps: &[u64])
    ensures { flow.new ≡ record flow.old { waiters = flow.new.waiters } }
{
    let mut held = ArrayVec::new();
    flow.hold_first(order, 8, &mut held);
    assert!(rt; has_stamps(held.as_slice(), stamps));
}

// How many registers are free, how many of a context wait, and how many of these are guessed.
fn counts(flow: &DataFlow, context: Ctx) -> [usize; 3] {
    [
        flow.free_count(),
        flow.waiting_count(context),
        flow.guessed_count(context),
    ]
}

// The values of the sources of the instruction at a place, read where they are there.
fn read(flow: &DataFlow, context: Ctx, place: usize) -> Option<(u64, u64)>
    requires { place < length (lane flow.now context).nodes }
{
    flow.sources(context, place)?;
    Some(flow.read_sources(context, place))
}

// Commits the oldest of a context of which none waits.
fn commit(rt: &impl Abort, flow: &mut DataFlow, context: Ctx)
    requires some { 0 < length (lane flow.old context).nodes }
    requires done { 0 < (node_at (lane flow.old context) 0).operands.destination → IsSome (node_at (lane flow.old context) 0).result }
    ensures { flow.new ≡ with_lane flow.old context (without_oldest (lane flow.old context)) }
{
    assert!(rt; flow.waiting_count(context) == 0);
    flow.commit(context);
}

// Both instructions of context 0 are issued and finished, the second once it has the result of the first.
fn finish_two(rt: &impl Abort, flow: &mut DataFlow)
    requires { flow.old ≡ of_three }
    ensures lanes { flow.new.lanes ≡ finished.lanes }
    ensures extra { flow.new.extra ≡ 32 }
{
    let [first, second, ..] = Ctx::all();
    let sources = [
        flow.sources(first, 0),
        flow.sources(first, 1),
        flow.sources(second, 0),
    ];
    assert_held(rt, flow, &OldestFirst, &[1, 3]);
    flow.drop_held();
    flow.finish(first, 0, 15);
    let [of_first, of_second, of_third] = sources;
    assert_equal(
        rt,
        [of_first, of_second, of_third, flow.sources(first, 1)],
        [Some((10, 0)), None, Some((20, 20)), Some((15, 10))],
    );
    assert_held(rt, flow, &OldestFirst, &[2]);
    flow.drop_held();
    flow.finish(first, 1, 25);
}

#[test]
fn waits_for_an_older_result(rt: HostRuntime) {
    let mut flow = of_three(&rt, rt.alloc());
    let [first, ..] = Ctx::all();
    finish_two(&rt, &mut flow);
    commit(&rt, &mut flow, first);
    commit(&rt, &mut flow, first);
    let free = flow.free_count();
    flow.rename(first, named(4, 0, 5, 1));
    assert_equal(&rt, (free, read(&flow, first, 0)), (31, Some((25, 10))));
}

// In context 0 an instruction makes x5 of x1, and has its result.
fn with_x5(rt: &impl Abort, alloc: Global) -> DataFlow
    ensures { result ≡ with_x5 }
{
    let mut flow = with_x1(rt, alloc);
    let [first, ..] = Ctx::all();
    flow.rename(first, named(1, 5, 1, 0));
    flow.finish(first, 0, 15);
    flow
}

// An instruction that makes x5 anew is forgotten.
fn forget_the_second(flow: &mut DataFlow, context: Ctx)
    requires flow { flow.old ≡ with_x5 }
    requires context { context ≡ 0 }
    ensures { flow.new ≡ with_x5 }
{
    flow.rename(context, named(2, 5, 5, 1));
    flow.cut_from(context, 2, 1);
}

#[test]
fn restores_an_older_value(rt: HostRuntime) {
    let mut flow = with_x5(&rt, rt.alloc());
    let [first, ..] = Ctx::all();
    forget_the_second(&mut flow, first);
    flow.rename(first, named(3, 0, 5, 1));
    let restored = flow.sources(first, 1);
    flow.cut_from(first, 1, 0);
    flow.rename(first, named(4, 0, 5, 1));
    assert_equal(
        &rt,
        [restored, flow.sources(first, 0)],
        [Some((15, 10)), Some((0, 10))],
    );
}

#[test]
fn counts_what_waits(rt: HostRuntime) {
    let mut flow = of_three(&rt, rt.alloc());
    let [first, second, third, ..] = Ctx::all();
    let places = [flow.oldest_place(second), flow.oldest_place(third)];
    assert_equal(&rt, (flow.has_place(), places), (true, [Some(2), None]));
    let before = counts(&flow, first);
    flow.cut_from(first, 2, 1);
    assert_equal(
        &rt,
        [before, counts(&flow, first)],
        [[29, 2, 1], [30, 1, 0]],
    );
}

#[test]
fn leaves_a_held_one(rt: HostRuntime) {
    let mut flow = of_three(&rt, rt.alloc());
    let [_, second, ..] = Ctx::all();
    let let_go = flow.contexts_with_ready_load();
    flow.hold(second, 3, true);
    assert_equal(&rt, [let_go, flow.contexts_with_ready_load()], [0b10, 0]);
    assert_held(&rt, &mut flow, &OldestFirst, &[1]);
    flow.hold(second, 3, false);
    assert_held(&rt, &mut flow, &OldestFirst, &[3]);
}

#[test]
fn holds_what_it_lists(rt: HostRuntime) {
    let mut flow = of_three(&rt, rt.alloc());
    let [first, second, ..] = Ctx::all();
    assert_held(&rt, &mut flow, &OldestFirst, &[1, 3]);
    let all = [flow.waiting_count(first), flow.waiting_count(second)];
    flow.hold(second, 3, false);
    flow.drop_held();
    let left = [flow.waiting_count(first), flow.waiting_count(second)];
    assert_equal(&rt, [all, left], [[2, 1], [1, 1]]);
    assert_held(&rt, &mut flow, &OldestFirst, &[3]);
}

#[test]
fn takes_a_speculative_one_last(rt: HostRuntime) {
    let mut flow = of_three(&rt, rt.alloc());
    let [first, ..] = Ctx::all();
    flow.speculate(first, 1, true);
    assert_held(&rt, &mut flow, &SpecLast, &[3, 1]);
}
