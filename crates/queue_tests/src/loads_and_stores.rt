//! The queues on a few loads and stores. The values follow from the bytes, least first.
use crate::accesses::{Accesses, LOAD, NOP, STORE};
use crate::equal::assert_equal;
use load_store_queue::{LoadAnswer, QueueFault};
use paged_memory::{Memory, Width};
use std::alloc::Global;
use std::process::Abort;

/// The first address of the data.
const DATA: u64 = 0x10_0000;

/// The last address.
const LAST: u64 = 0xFFFF_FFFF_FFFF_FFFF;

/// A step of a script, with the stamp of the entry that it is of, and what it shows.
enum Step {
    /// A store issues and completes with a value at an address, of so many bytes, or stops: the load that conflicts.
    Completes(u64, Option<(u64, u8, u64)>, Option<u64>),
    /// A load issues from an address, of so many bytes, or stops.
    Issues(u64, Option<(u64, u8)>),
    /// A load of an address gets this number, or has to wait.
    Loads(u64, u64, Width, Option<u64>),
    /// The oldest entry, which has this stamp, retires.
    Retires(u64),
    /// It is dropped, and all that is younger.
    DropsFrom(u64),
    /// A load is fetched and takes its place.
    Places(u64),
    /// Whether a load has a place, and whether no store has completed.
    Has(bool, bool),
}

use Step::{Completes, DropsFrom, Has, Issues, Loads, Places, Retires};

/// Stores 1 and 3 between loads 0, 2 and 4, of which none has issued.
const TWO_STORES: &[(u64, u32)] = &[(0, LOAD), (1, STORE), (2, LOAD), (3, STORE), (4, LOAD)];

/// Store 3 between loads 2, 4 and 5, of which none has issued, behind what is neither.
const THREE_LOADS: &[(u64, u32)] = &[(1, NOP), (2, LOAD), (3, STORE), (4, LOAD), (5, LOAD)];

/// A load.
const NO_STORE: &[(u64, u32)] = &[(0, LOAD)];

const THE_NEWEST_OLDER_STORE_IS_FORWARDED: &[Step] = &[
    Completes(1, Some((DATA, 8, 0xAAAA_AAAA_BBBB_BBBB)), None),
    Completes(3, Some((DATA, 8, 0xCCCC_CCCC_DDDD_DDDD)), None),
    // Load 4 comes after both stores, load 2 between them, load 0 before both.
    Loads(4, DATA + 4, Width::Word, Some(0xCCCC_CCCC)),
    Loads(2, DATA, Width::Half, Some(0xBBBB)),
    Loads(0, DATA, Width::Byte, Some(0x88)),
];

const A_STORE_OF_A_PART_IS_WAITED_FOR: &[Step] = &[
    Completes(1, Some((DATA, 8, 0)), None),
    Completes(3, Some((DATA + 1, 1, 0xEE)), None),
    // The newest store has only one of the eight bytes, though an older one has all.
    Loads(4, DATA, Width::Double, None),
    Loads(4, DATA + 1, Width::Byte, Some(0xEE)),
    Loads(4, DATA + 2, Width::Half, Some(0)),
];

const A_STORE_THAT_HAS_NOT_COMPLETED_IS_PASSED: &[Step] = &[
    // Neither has completed: the bytes are memory's.
    Loads(4, DATA, Width::Word, Some(0x5566_7788)),
    Completes(3, Some((DATA, 4, 7)), None),
    // Load 4 comes after both stores, load 2 between them. What asks as a store doesn't see that store.
    Loads(4, DATA, Width::Word, Some(7)),
    Loads(3, DATA, Width::Word, Some(0x5566_7788)),
    Loads(2, DATA, Width::Word, Some(0x5566_7788)),
    Loads(1, DATA, Width::Byte, Some(0x88)),
    // Store 1 stops: it shares a byte with nothing.
    Completes(1, None, None),
    Loads(4, DATA, Width::Word, Some(7)),
    Loads(2, DATA, Width::Word, Some(0x5566_7788)),
    Loads(1, DATA, Width::Byte, Some(0x88)),
];

const MEMORY_ANSWERS_WHERE_NO_STORE_SHARES_A_BYTE: &[Step] = &[
    Completes(1, Some((DATA + 8, 8, 9)), None),
    Completes(3, None, None),
    Loads(4, DATA, Width::Double, Some(0x1122_3344_5566_7788)),
];

/// Misaligned: 0x77, 0x66, 0x55, 0x44; two of data and two past them; one before text, and text;
/// not mapped, and past the last address.
const REFUSED_LOADS_READ_BYTE_BY_BYTE: &[Step] = &[
    Loads(0, DATA + 1, Width::Word, Some(0x4455_6677)),
    Loads(0, DATA + 6, Width::Word, Some(0x1122)),
    Loads(0, 0xFFFF, Width::Half, Some(0x7300)),
    Loads(0, 0x20_0000, Width::Double, Some(0)),
    Loads(0, LAST, Width::Double, Some(0)),
];

const AN_ISSUED_YOUNGER_LOAD_THAT_SHARES_NO_BYTE_IS_NONE: &[Step] = &[
    // Load 2 is older, 4 has not issued, 5 begins past the store.
    Issues(2, Some((DATA, 8))),
    Issues(5, Some((DATA + 4, 4))),
    Completes(3, Some((DATA, 4, 1)), None),
];

const THE_ISSUED_YOUNGER_LOAD_CONFLICTS: &[Step] = &[
    Issues(2, Some((DATA, 8))),
    Issues(5, Some((DATA + 4, 4))),
    Completes(3, Some((DATA + 4, 1, 1)), Some(5)),
];

const THE_OLDEST_ISSUED_YOUNGER_LOAD_CONFLICTS: &[Step] = &[
    Issues(2, Some((DATA, 8))),
    Issues(5, Some((DATA + 4, 4))),
    Issues(4, Some((DATA, 8))),
    Completes(3, Some((DATA + 4, 1, 1)), Some(4)),
];

const A_LOAD_THAT_STOPS_CONFLICTS_WITH_NOTHING: &[Step] = &[
    Issues(2, Some((DATA, 8))),
    Issues(5, Some((DATA + 4, 4))),
    // Load 4 stops: it has read nothing.
    Issues(4, None),
    Completes(3, Some((DATA + 4, 1, 1)), Some(5)),
];

const THE_OLDEST_RETIRE: &[Step] = &[
    Has(false, true),
    // What is neither leaves no place.
    Retires(1),
    Has(false, true),
    Retires(2),
    Has(true, true),
    // Store 3 stays: once it has completed load 4 gets its bytes. Then it retires.
    Completes(3, Some((DATA, 1, 1)), None),
    Has(true, false),
    Loads(4, DATA, Width::Byte, Some(1)),
    Retires(3),
    Has(true, true),
    Loads(4, DATA, Width::Byte, Some(0x88)),
];

const A_CUT_DROPS_THE_YOUNGEST_LOADS_AND_STORES_ALIKE: &[Step] = &[
    Issues(5, Some((DATA, 1))),
    DropsFrom(5),
    Has(true, true),
    Completes(3, Some((DATA, 1, 1)), None),
    Has(true, false),
    Loads(4, DATA, Width::Byte, Some(1)),
    DropsFrom(3),
    Has(true, true),
    // A load that is fetched behind the cut sees memory.
    Places(6),
    Loads(6, DATA, Width::Byte, Some(0x88)),
];

/// The number that a load gets, if it need not wait.
fn number_of(answer: LoadAnswer) -> Option<u64> {
    match answer {
        LoadAnswer::Ready { value } => Some(value),
        LoadAnswer::Wait => None,
    }
}

/// One word of text and eight bytes of data, which spell 0x1122334455667788.
fn small_memory(rt: &impl Abort, alloc: Global) -> Memory {
    let data = [0x88, 0x77, 0x66, 0x55, 0x44, 0x33, 0x22, 0x11];
    Memory::new(alloc, &[0x73], &data).expect(rt, "memory")
}

/// The entries and their queues take the step, and show what it says.
fn assert_step(rt: &impl Abort, accesses: &mut Accesses, memory: &Memory, step: &Step) {
    match *step {
        Completes(stamp, bytes, conflict) => {
            let found = accesses.complete_store(rt, stamp, bytes);
            assert_equal(rt, (stamp, found), (stamp, conflict));
        }
        Issues(stamp, span) => accesses.issue_load(rt, stamp, span),
        Loads(stamp, address, width, number) => {
            let found = number_of(accesses.load(rt, memory, stamp, address, width));
            assert_equal(rt, (stamp, address, found), (stamp, address, number));
        }
        Retires(stamp) => accesses.retire(rt, stamp),
        DropsFrom(stamp) => accesses.drop_from(rt, stamp),
        Places(stamp) => accesses.put(rt, stamp, LOAD),
        Has(place, none_completed) => {
            let found = (accesses.has_place(LOAD), accesses.has_no_completed_store());
            assert_equal(rt, found, (place, none_completed));
        }
    }
}

/// Entries, renamed in queues of so many places for loads and for stores, show what the script says, over the small
/// memory.
fn assert_script(
    rt: &impl Abort,
    alloc: Global,
    places: [usize; 2],
    entries: &[(u64, u32)],
    script: &[Step],
) {
    let memory = small_memory(rt, alloc);
    let [load_places, store_places] = places;
    let mut accesses = Accesses::new(rt, alloc, load_places, store_places);
    for &(stamp, word) in entries {
        accesses.put(rt, stamp, word);
    }
    for step in script {
        assert_step(rt, &mut accesses, &memory, step);
    }
}

#[test]
fn loads_see_the_stores_before_them(rt: HostRuntime) {
    for script in [
        THE_NEWEST_OLDER_STORE_IS_FORWARDED,
        A_STORE_OF_A_PART_IS_WAITED_FOR,
        A_STORE_THAT_HAS_NOT_COMPLETED_IS_PASSED,
        MEMORY_ANSWERS_WHERE_NO_STORE_SHARES_A_BYTE,
    ] {
        assert_script(&rt, rt.alloc(), [4, 4], TWO_STORES, script);
    }
    let refused = REFUSED_LOADS_READ_BYTE_BY_BYTE;
    assert_script(&rt, rt.alloc(), [1, 1], NO_STORE, refused);
}

#[test]
fn loads_conflict_retire_and_are_dropped(rt: HostRuntime) {
    for script in [
        AN_ISSUED_YOUNGER_LOAD_THAT_SHARES_NO_BYTE_IS_NONE,
        THE_ISSUED_YOUNGER_LOAD_CONFLICTS,
        THE_OLDEST_ISSUED_YOUNGER_LOAD_CONFLICTS,
        A_LOAD_THAT_STOPS_CONFLICTS_WITH_NOTHING,
        THE_OLDEST_RETIRE,
        A_CUT_DROPS_THE_YOUNGEST_LOADS_AND_STORES_ALIKE,
    ] {
        assert_script(&rt, rt.alloc(), [3, 2], THREE_LOADS, script);
    }
}

/// What an entry gets that finds no place.
const FULL: Result<(), QueueFault> = Err(QueueFault::Full);

/// These entries are fetched and renamed one by one, with two places for loads and one for a store, and get what is said.
fn assert_places(rt: &impl Abort, alloc: Global, entries: &[(u64, u32, Result<(), QueueFault>)]) {
    let mut accesses = Accesses::new(rt, alloc, 2, 1);
    for &(stamp, word, want) in entries {
        accesses.fetch(rt, stamp, word);
        let has_place = accesses.has_place(word);
        let renamed = accesses.rename(rt);
        assert_equal(rt, (stamp, has_place, renamed), (stamp, want.is_ok(), want));
    }
}

#[test]
fn loads_and_stores_are_refused_exactly_at_the_capacity(rt: HostRuntime) {
    let stores = &[(1, STORE, Ok(())), (2, NOP, Ok(())), (4, STORE, FULL)];
    assert_places(&rt, rt.alloc(), stores);
    // That the one place for a store is taken leaves the places for loads.
    let loads = &[
        (1, STORE, Ok(())),
        (2, LOAD, Ok(())),
        (3, LOAD, Ok(())),
        (4, LOAD, FULL),
    ];
    assert_places(&rt, rt.alloc(), loads);
}
