//! A ring at a concrete type.
ghost use Rattle.std.specs.Prelude.{◌≡◌};

use crate::equal::assert_equal;
use reorder_buffer::{Ring, RingFault, Stamped};
use std::alloc::Global;
use std::process::Abort;

// An instruction in flight: its stamp, and whether it is done.
#[derive(Clone, Copy, Drop)]
struct Entry {
    stamp: u64,
    done: bool,
}

impl Stamped for Entry {
    ghost stamp_of = { λ e. e.stamp };

    fn stamp(&self) -> u64 {
        self.stamp
    }
}

fn queued(stamp: u64) -> Entry
    ensures { result.stamp ≡ stamp }
{
    Entry { stamp, done: false }
}

// What an entry holds.
fn held(entry: Option<Entry>) -> Option<(u64, bool)> {
    let entry = entry?;
    Some((entry.stamp, entry.done))
}

fn stamp_of(entry: Option<&Entry>) -> Option<u64> {
    Some(entry?.stamp)
}

// Pushes an entry with this stamp, and tells why not, if its stamp is above the last.
fn try_push(ring: &mut Ring<Entry>, stamp: u64) -> Option<RingFault> {
    let entry = queued(stamp);
    let Some(last) = ring.last() else {
        return fault_of(ring.push(entry));
    };
    if last.stamp >= stamp {
        return None;
    }
    fault_of(ring.push(entry))
}

fn fault_of(pushed: Result<(), (Entry, RingFault)>) -> Option<RingFault> {
    match pushed {
        Ok(()) => None,
        Err((_, fault)) => Some(fault),
    }
}

// Pushes entries with these stamps, of which none is refused.
fn push_each(rt: &impl Abort, ring: &mut Ring<Entry>, stamps: &[u64]) {
    for &stamp in stamps {
        assert_equal(rt, (stamp, try_push(ring, stamp)), (stamp, None));
    }
}

// Pushes so many entries with stamps from 10 on.
fn push_from_10(rt: &impl Abort, ring: &mut Ring<Entry>, count: u64) {
    for k in 0..count {
        push_each(rt, ring, &[k.saturating_add(10)]);
    }
}

// Whether the entries are those with these stamps, in this order.
fn has_entries(ring: &Ring<Entry>, stamps: &[u64]) -> bool {
    let mut left = stamps.iter();
    for entry in ring.iter() {
        if left.next().copied() != Some(entry.stamp) {
            return false;
        }
    }
    left.next().is_none()
}

/// A step of a script, and what it shows. Entries go by their stamps.
enum Step {
    /// Entries with these stamps are pushed, and none is refused.
    Pushes(&'static [u64]),
    /// So many entries are pushed, with stamps from 10 on.
    PushesFrom10(u64),
    /// The ring is full, and hands an entry back.
    Refuses(u64),
    /// The oldest entry retires, if there is one: its stamp, and whether it is done.
    Retires(Option<(u64, bool)>),
    /// The youngest entry is taken out, if there is one: its stamp, and whether it is done.
    PopsLast(Option<(u64, bool)>),
    /// The entries from a stamp on are squashed.
    CutsFrom(u64),
    /// The oldest entry is done.
    Finishes,
    /// There are so many entries, with these stamps at the head, at a place and at the end.
    Shows(usize, usize, [Option<u64>; 3]),
    /// The entries are these, in this order.
    Holds(&'static [u64]),
}

use Step::{CutsFrom, Finishes, Holds, PopsLast, Pushes, PushesFrom10, Refuses, Retires, Shows};

const A_FULL_RING_HANDS_THE_ENTRY_BACK: &[Step] = &[
    Shows(0, 0, [None, None, None]),
    PushesFrom10(64),
    Refuses(100),
    Shows(64, 63, [Some(10), Some(73), Some(73)]),
    // Behind place 63 there is nothing to squash, from it on one entry.
    CutsFrom(74),
    Shows(64, 63, [Some(10), Some(73), Some(73)]),
    CutsFrom(73),
    Shows(63, 62, [Some(10), Some(72), Some(72)]),
];

const A_RING_WRAPS_ROUND_AND_IS_CUT_IN_THE_MIDDLE: &[Step] = &[
    Pushes(&[1, 2, 3, 4]),
    Retires(Some((1, false))),
    Retires(Some((2, false))),
    Pushes(&[8, 9]),
    Shows(4, 2, [Some(3), Some(8), Some(9)]),
    Holds(&[3, 4, 8, 9]),
    // No entry has the stamp 6.
    CutsFrom(6),
    Shows(2, 2, [Some(3), None, Some(4)]),
    CutsFrom(0),
    Retires(None),
];

const THE_YOUNGEST_ENTRY_IS_TAKEN_OUT: &[Step] = &[
    Pushes(&[1, 2, 3]),
    Retires(Some((1, false))),
    Pushes(&[4]),
    PopsLast(Some((4, false))),
    Holds(&[2, 3]),
    CutsFrom(0),
    PopsLast(None),
];

const AN_ENTRY_IS_REPLACED: &[Step] = &[Pushes(&[5]), Finishes, Retires(Some((5, true)))];

// The oldest entry is done.
fn finish(rt: &impl Abort, ring: &mut Ring<Entry>) {
    let mut entry = ring.head().copied().expect(rt, "an entry");
    entry.done = true;
    ring.set(0, entry);
}

// So many entries, with these stamps at the head, at a place and at the end.
fn assert_ring(
    rt: &impl Abort,
    ring: &Ring<Entry>,
    len: usize,
    place: usize,
    stamps: [Option<u64>; 3],
) {
    let found = [
        stamp_of(ring.head()),
        stamp_of(ring.get(place)),
        stamp_of(ring.last()),
    ];
    assert_equal(
        rt,
        (ring.len(), ring.is_empty(), ring.is_full()),
        (len, len == 0, len == ring.capacity()),
    );
    assert_equal(rt, found, stamps);
}

/// The ring takes the step, and shows what it says.
fn assert_step(rt: &impl Abort, ring: &mut Ring<Entry>, step: &Step) {
    match *step {
        Pushes(stamps) => push_each(rt, ring, stamps),
        PushesFrom10(count) => push_from_10(rt, ring, count),
        Refuses(stamp) => assert_equal(rt, try_push(ring, stamp), Some(RingFault::Full)),
        Retires(oldest) => assert_equal(rt, held(ring.retire()), oldest),
        PopsLast(youngest) => assert_equal(rt, held(ring.pop_last()), youngest),
        CutsFrom(stamp) => ring.cut_from(stamp),
        Finishes => finish(rt, ring),
        Shows(len, place, stamps) => assert_ring(rt, ring, len, place, stamps),
        Holds(stamps) => assert!(rt; has_entries(ring, stamps)),
    }
}

/// An empty ring with so many places shows what the script says.
fn assert_script(rt: &impl Abort, alloc: Global, capacity: usize, script: &[Step]) {
    let mut ring = Ring::new(alloc, capacity).expect(rt, "memory");
    assert_equal(rt, ring.capacity(), capacity);
    for step in script {
        assert_step(rt, &mut ring, step);
    }
}

#[test]
fn rings_fill_wrap_and_are_cut(rt: HostRuntime) {
    for (capacity, script) in [
        (64, A_FULL_RING_HANDS_THE_ENTRY_BACK),
        (4, A_RING_WRAPS_ROUND_AND_IS_CUT_IN_THE_MIDDLE),
        (3, THE_YOUNGEST_ENTRY_IS_TAKEN_OUT),
        (8, AN_ENTRY_IS_REPLACED),
    ] {
        assert_script(&rt, rt.alloc(), capacity, script);
    }
}
