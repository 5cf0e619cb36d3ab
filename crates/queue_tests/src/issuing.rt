//! The worked examples.

use crate::equal::assert_equal;
use crate::selected::has_stamps;
use arrayvec::ArrayVec;
use core_profile::IssuePolicy;
use issue_queue::{
    BranchFirst, NamedOrder, OldestFirst, Order, Queue, QueueFault, SpecLast, Waiting,
};
use join_law::Ctx;
use rename_file::PhysicalRegister;
use std::process::Abort;

fn context(rt: &impl Abort, number: usize) -> Ctx {
    Ctx::new(number).expect(rt, "a context")
}

fn register(rt: &impl Abort, number: usize) -> PhysicalRegister {
    PhysicalRegister::new(number).expect(rt, "a register")
}

// The register with this number, if there is to be one.
fn source(rt: &impl Abort, number: Option<usize>) -> Option<PhysicalRegister> {
    Some(register(rt, number?))
}

// An entry of a context that waits for these registers.
fn waiting(rt: &impl Abort, number: usize, stamp: u64, sources: [Option<usize>; 2]) -> Waiting {
    let [first, second] = sources;
    Waiting {
        context: context(rt, number),
        stamp,
        guessed: false,
        load: false,
        speculative: false,
        sources: [source(rt, first), source(rt, second)],
    }
}

fn put(rt: &impl Abort, queue: &mut Queue, entry: Waiting) {
    assert!(rt; !queue.contains(entry.context, entry.stamp));
    assert!(rt; queue.put(entry).is_ok());
}

fn put_ready(rt: &impl Abort, queue: &mut Queue, number: usize, stamp: u64) {
    put(rt, queue, waiting(rt, number, stamp, [None, None]));
}

// A guessed entry that is ready.
fn put_branch(rt: &impl Abort, queue: &mut Queue, number: usize, stamp: u64) {
    let mut branch = waiting(rt, number, stamp, [None, None]);
    branch.guessed = true;
    put(rt, queue, branch);
}

// A load that waits for a register, or for none.
fn put_load(rt: &impl Abort, queue: &mut Queue, number: usize, stamp: u64, source: Option<usize>) {
    let mut load = waiting(rt, number, stamp, [source, None]);
    load.load = true;
    put(rt, queue, load);
}

// By an order these are taken, first to last, at most eight.
fn assert_selected<O: Order>(rt: &impl Abort, queue: &mut Queue, order: &O, stamps: &[u64]) {
    let selected = queue.select(order, 8);
    assert!(rt; has_stamps(selected.as_slice(), stamps));
}

// So many of the oldest are held, at most eight: these, first to last.
fn assert_held(rt: &impl Abort, queue: &mut Queue, width: usize, stamps: &[u64]) {
    let mut held = ArrayVec::new();
    queue.hold_first(&OldestFirst, width.min(8), &mut held);
    assert!(rt; has_stamps(held.as_slice(), stamps));
}

// Ready entries 10 (context 0), 11 (context 1, guessed), 12 (context 1, speculative), 13 (context 0).
fn four_ready(rt: &impl Abort) -> Queue {
    let mut queue = Queue::new(8);
    put_ready(rt, &mut queue, 0, 13);
    put_ready(rt, &mut queue, 1, 12);
    put_branch(rt, &mut queue, 1, 11);
    put_ready(rt, &mut queue, 0, 10);
    queue.speculate(context(rt, 1), 12, true);
    queue
}

fn assert_order<O: Order>(rt: &impl Abort, order: &O, stamps: &[u64]) {
    let mut queue = four_ready(rt);
    let selected = queue.select(order, 3);
    assert!(rt; has_stamps(selected.as_slice(), stamps) && queue.len() == 1);
}

// An order and that of its name in a profile take these of four ready entries.
fn assert_orders<O: Order>(rt: &impl Abort, order: &O, policy: IssuePolicy, stamps: &[u64]) {
    assert_order(rt, order, stamps);
    assert_order(rt, &NamedOrder::from(policy), stamps);
}

#[test]
fn orders_ready_entries(rt: HostRuntime) {
    assert_orders(&rt, &OldestFirst, IssuePolicy::OldestFirst, &[10, 11, 12]);
    assert_orders(&rt, &SpecLast, IssuePolicy::SpecLast, &[10, 11, 13]);
    assert_orders(&rt, &BranchFirst, IssuePolicy::BranchFirst, &[11, 10, 12]);
}

/// A step of a script, and what it shows. Contexts and registers go by their numbers, entries by context and stamp.
enum Step {
    /// An entry is put, which waits for these registers.
    Puts(usize, u64, [Option<usize>; 2]),
    /// A guessed entry is put, which is ready.
    PutsBranch(usize, u64),
    /// A load is put, which waits for a register, or for none.
    PutsLoad(usize, u64, Option<usize>),
    /// An entry that is ready is handed back, as the queue is full.
    Refuses(usize, u64),
    /// So many entries of a context are put, with stamps below this one, that wait for a register.
    PutsBelow(usize, u64, u64, usize),
    /// The entries that wait for a register are told that it is there: so many.
    Wakes(usize, usize),
    /// The oldest that are ready are taken: these.
    Selects(&'static [u64]),
    /// A load is held, or let go.
    Holds(usize, u64, bool),
    /// So many of the oldest that are ready are held where they stand: these.
    HoldsFirst(usize, &'static [u64]),
    /// What is held is dropped.
    DropsHeld,
    /// The entries of a context from a stamp on are dropped.
    DropsFrom(usize, u64),
    /// There are so many entries.
    Has(usize),
    /// These contexts have a ready load, as the bits of a word.
    HasReadyLoads(u64),
    /// A context has so many entries, and so many that are guessed.
    Counts(usize, usize, usize),
    /// So many entries are older than the oldest of a context, if it has one.
    OldestIsAt(usize, Option<usize>),
}

use Step::{
    Counts, DropsFrom, DropsHeld, Has, HasReadyLoads, Holds, HoldsFirst, OldestIsAt, Puts,
    PutsBelow, PutsBranch, PutsLoad, Refuses, Selects, Wakes,
};

const READY: [Option<usize>; 2] = [None, None];

const WAKES_63_OF_64: &[Step] = &[
    PutsBelow(3, 201, 63, 479),
    Puts(4, 1, [Some(0), None]),
    Has(64),
    Selects(&[]),
    Wakes(479, 63),
    Selects(&[138, 139, 140, 141, 142, 143, 144, 145]),
    Has(56),
];

const FORGETS_THE_WAITS_OF_A_DROPPED_ENTRY: &[Step] = &[
    Puts(0, 7, [Some(5), None]),
    DropsFrom(0, 7),
    Has(0),
    Puts(0, 8, [Some(6), None]),
    Wakes(5, 0),
    Selects(&[]),
    Wakes(6, 1),
    Selects(&[8]),
];

const WAITS_FOR_BOTH_SOURCES: &[Step] = &[
    Puts(0, 3, [Some(1), Some(2)]),
    Puts(0, 4, [Some(2), Some(2)]),
    Wakes(2, 2),
    Selects(&[4]),
    Wakes(1, 1),
    Selects(&[3]),
];

const REFUSES_WHERE_FULL: &[Step] = &[
    Puts(2, 0, READY),
    Puts(2, 1, READY),
    Puts(2, 2, READY),
    Puts(2, 3, READY),
    Puts(2, 4, READY),
    Puts(2, 5, READY),
    Puts(2, 6, READY),
    Puts(2, 7, READY),
    Has(8),
    Refuses(2, 8),
    Has(8),
    DropsFrom(2, 5),
    Has(5),
];

const LEAVES_A_HELD_ENTRY: &[Step] = &[
    PutsLoad(0, 1, None),
    Puts(0, 2, READY),
    Holds(0, 1, true),
    Selects(&[2]),
    Holds(0, 1, false),
    Selects(&[1]),
];

/// Of two that are held one is let go again.
const HOLDS_WHAT_IT_LISTS: &[Step] = &[
    Puts(0, 3, READY),
    Puts(1, 2, READY),
    Puts(0, 1, READY),
    Puts(2, 0, [Some(7), None]),
    HoldsFirst(2, &[1, 2]),
    Has(4),
    Selects(&[3]),
    Holds(1, 2, false),
    DropsHeld,
    Has(2),
    Selects(&[2]),
    Has(1),
];

const TELLS_WHICH_CONTEXTS_HAVE_A_READY_LOAD: &[Step] = &[
    Puts(0, 1, READY),
    PutsLoad(2, 2, None),
    PutsLoad(6, 3, Some(40)),
    HasReadyLoads(0b100),
    Wakes(40, 1),
    HasReadyLoads(0b100_0100),
    Holds(2, 2, true),
    HasReadyLoads(0b100_0000),
    Selects(&[1, 3]),
    HasReadyLoads(0),
];

/// Five ready entries, by stamp of contexts 2, 2, 5, 0 and 5, the last of them guessed.
const COUNTS_THE_ENTRIES_OF_A_CONTEXT: &[Step] = &[
    PutsBranch(5, 34),
    Puts(2, 31, READY),
    Puts(2, 30, READY),
    Puts(0, 33, READY),
    Puts(5, 32, READY),
    Counts(5, 2, 1),
    OldestIsAt(2, Some(0)),
    OldestIsAt(5, Some(2)),
    OldestIsAt(0, Some(3)),
    OldestIsAt(1, None),
];

fn put_below(
    rt: &impl Abort,
    queue: &mut Queue,
    number: usize,
    stamp: u64,
    count: u64,
    register: usize,
) {
    for k in 0..count {
        let below = stamp.saturating_sub(k).saturating_sub(1);
        put(
            rt,
            queue,
            waiting(rt, number, below, [None, Some(register)]),
        );
    }
}

/// The queue takes the step, and shows what it says.
fn assert_step(rt: &impl Abort, queue: &mut Queue, step: &Step) {
    match *step {
        Puts(number, stamp, sources) => put(rt, queue, waiting(rt, number, stamp, sources)),
        PutsBranch(number, stamp) => put_branch(rt, queue, number, stamp),
        PutsLoad(number, stamp, source) => put_load(rt, queue, number, stamp, source),
        PutsBelow(number, stamp, count, source) => {
            put_below(rt, queue, number, stamp, count, source)
        }
        Refuses(number, stamp) => assert_refused(rt, queue, number, stamp),
        Wakes(number, count) => assert_equal(rt, queue.wake(register(rt, number)), count),
        Selects(stamps) => assert_selected(rt, queue, &OldestFirst, stamps),
        Holds(number, stamp, held) => queue.hold(context(rt, number), stamp, held),
        HoldsFirst(width, stamps) => assert_held(rt, queue, width, stamps),
        DropsHeld => queue.drop_held(),
        DropsFrom(number, stamp) => queue.drop_from(context(rt, number), stamp),
        Has(len) => assert_len(rt, queue, len),
        HasReadyLoads(contexts) => assert_equal(rt, queue.contexts_with_ready_load(), contexts),
        Counts(number, count, guessed) => assert_counts(rt, queue, number, [count, guessed]),
        OldestIsAt(number, place) => {
            assert_equal(
                rt,
                (number, queue.oldest_place(context(rt, number))),
                (number, place),
            )
        }
    }
}

// What a queue hands back, and why.
fn refusal(rt: &impl Abort, queue: &mut Queue, entry: Waiting) -> Option<(Waiting, QueueFault)> {
    assert!(rt; !queue.contains(entry.context, entry.stamp));
    queue.put(entry).err()
}

fn assert_refused(rt: &impl Abort, queue: &mut Queue, number: usize, stamp: u64) {
    let found = refusal(rt, queue, waiting(rt, number, stamp, READY));
    let want = waiting(rt, number, stamp, READY);
    assert_equal(rt, found, Some((want, QueueFault::Full)));
}

fn assert_len(rt: &impl Abort, queue: &Queue, len: usize) {
    assert_equal(
        rt,
        (queue.len(), queue.is_empty(), queue.is_full()),
        (len, len == 0, len == queue.capacity()),
    );
}

fn assert_counts(rt: &impl Abort, queue: &Queue, number: usize, want: [usize; 2]) {
    let context = context(rt, number);
    assert_equal(
        rt,
        [queue.count(context), queue.guessed_count(context)],
        want,
    );
}

/// An empty queue with so many places shows what the script says.
fn assert_script(rt: &impl Abort, places: usize, script: &[Step]) {
    let mut queue = Queue::new(places.min(64));
    for step in script {
        assert_step(rt, &mut queue, step);
    }
}

#[test]
fn wakes_refuses_holds_and_counts(rt: HostRuntime) {
    assert_script(&rt, 64, WAKES_63_OF_64);
    for script in [
        FORGETS_THE_WAITS_OF_A_DROPPED_ENTRY,
        WAITS_FOR_BOTH_SOURCES,
        REFUSES_WHERE_FULL,
        LEAVES_A_HELD_ENTRY,
        HOLDS_WHAT_IT_LISTS,
        TELLS_WHICH_CONTEXTS_HAVE_A_READY_LOAD,
        COUNTS_THE_ENTRIES_OF_A_CONTEXT,
    ] {
        assert_script(&rt, 8, script);
    }
}
