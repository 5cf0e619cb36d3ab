//! A program of words and data, read and written at the edges of its pages. The values follow from
//! the bytes, least first; the four words are those of a countdown.

use crate::equal::assert_equal;
use paged_memory::{Fault, Memory, Width};
use std::alloc::Global;
use std::process::Abort;

const COUNTDOWN: [u32; 4] = [0x00A0_0293, 0xFFF2_8293, 0xFE02_9EE3, 0x0000_0073];

const DATA: [u8; 8] = [0x88, 0x77, 0x66, 0x55, 0x44, 0x33, 0x22, 0x11];

/// The memory of the countdown and of the data.
fn worked(rt: &impl Abort, alloc: Global) -> Memory {
    Memory::new(alloc, &COUNTDOWN, &DATA).expect(rt, "memory")
}

/// What is fetched from text alone.
const FETCHES: &[(u64, Result<u32, Fault>)] = &[
    (0x1_0000, Ok(0x00A0_0293)),
    (0x1_0008, Ok(0xFE02_9EE3)),
    (0x1_000C, Ok(0x0000_0073)),
    // the rest of the page, and its last word
    (0x1_0010, Ok(0)),
    (0x1_0FFC, Ok(0)),
    (0, Err(Fault::FetchAccess)),
    (0xFFFC, Err(Fault::FetchAccess)),
    (0x1_1000, Err(Fault::FetchAccess)),
    (0x10_0000, Err(Fault::FetchAccess)),
    (0x20_0000, Err(Fault::FetchAccess)),
    (0xFFFF_FFFF_FFFF_FFFC, Err(Fault::FetchAccess)),
];

/// What is loaded, least byte first.
const LOADS: &[(u64, Width, Result<u64, Fault>)] = &[
    (0x10_0000, Width::Byte, Ok(0x88)),
    (0x10_0007, Width::Byte, Ok(0x11)),
    (0x10_0002, Width::Half, Ok(0x5566)),
    (0x10_0004, Width::Word, Ok(0x1122_3344)),
    (0x10_0000, Width::Double, Ok(0x1122_3344_5566_7788)),
    (0x10_0008, Width::Double, Ok(0)),
    (0x10_0FF8, Width::Double, Ok(0)),
    (0x10_0FFF, Width::Byte, Ok(0)),
    // Text may be read: 93 02 a0 00 93 82 f2 ff.
    (0x1_0000, Width::Byte, Ok(0x93)),
    (0x1_0002, Width::Half, Ok(0x00A0)),
    (0x1_0000, Width::Double, Ok(0xFFF2_8293_00A0_0293)),
    // Mapped or not, a misaligned address is refused as that.
    (0x10_0001, Width::Half, Err(Fault::LoadMisaligned)),
    (0x10_0002, Width::Word, Err(Fault::LoadMisaligned)),
    (0x10_0004, Width::Double, Err(Fault::LoadMisaligned)),
    (0x10_0FFF, Width::Half, Err(Fault::LoadMisaligned)),
    (1, Width::Double, Err(Fault::LoadMisaligned)),
    (
        0xFFFF_FFFF_FFFF_FFFF,
        Width::Half,
        Err(Fault::LoadMisaligned),
    ),
    (
        0xFFFF_FFFF_FFFF_FFFE,
        Width::Word,
        Err(Fault::LoadMisaligned),
    ),
    (0, Width::Double, Err(Fault::LoadAccess)),
    (0xFFFF, Width::Byte, Err(Fault::LoadAccess)),
    (0x1_1000, Width::Word, Err(Fault::LoadAccess)),
    (0xF_FFF8, Width::Double, Err(Fault::LoadAccess)),
    (0x10_1000, Width::Byte, Err(Fault::LoadAccess)),
    (0x1_0000_0001_0000, Width::Byte, Err(Fault::LoadAccess)),
    (0xFFFF_FFFF_FFFF_FFFF, Width::Byte, Err(Fault::LoadAccess)),
    (0xFFFF_FFFF_FFFF_FFF8, Width::Double, Err(Fault::LoadAccess)),
];

/// Bytes one by one.
const BYTES: &[(u64, u8)] = &[
    (0x10_0000, 0x88),
    (0x10_0007, 0x11),
    (0x10_0008, 0),
    (0x1_0004, 0x93),
    (0x1_0005, 0x82),
    (0x1_1000, 0),
    (0xFFFF_FFFF_FFFF_FFFF, 0),
];

/// What is loaded of a memory is what the table says.
fn loads(rt: &impl Abort, memory: &Memory, table: &[(u64, Width, Result<u64, Fault>)]) {
    for &(address, width, want) in table {
        let found = memory.load(address, width);
        assert_equal(rt, (address, width, found), (address, width, want));
    }
}

#[test]
fn fetches_loads_and_bytes(rt: HostRuntime) {
    let memory = worked(&rt, rt.alloc());
    for &(address, want) in FETCHES {
        assert_equal(&rt, (address, memory.fetch(address)), (address, want));
    }
    loads(&rt, &memory, LOADS);
    for &(address, want) in BYTES {
        assert_equal(&rt, (address, memory.byte(address)), (address, want));
    }
    drop(memory);
}

#[test]
fn widths_in_bytes(rt: HostRuntime) {
    let [byte, half] = [Width::Byte.bytes(), Width::Half.bytes()];
    let [word, double] = [Width::Word.bytes(), Width::Double.bytes()];
    assert_equal(&rt, [byte, half, word, double], [1, 2, 4, 8]);
}

/// Stores that are refused: misalignment before access.
const REFUSED: &[(u64, Width, Fault)] = &[
    (0x10_0001, Width::Half, Fault::StoreMisaligned),
    (0x1_0001, Width::Word, Fault::StoreMisaligned),
    (0xFFFF_FFFF_FFFF_FFFC, Width::Double, Fault::StoreMisaligned),
    (0x1_0000, Width::Byte, Fault::StoreAccess),
    (0x1_0FF8, Width::Double, Fault::StoreAccess),
    (0xF_FFFF, Width::Byte, Fault::StoreAccess),
    (0x10_1000, Width::Double, Fault::StoreAccess),
    (0xFFFF_FFFF_FFFF_FFF8, Width::Double, Fault::StoreAccess),
];

/// What stands where text and data begin.
const UNTOUCHED: &[(u64, Width, Result<u64, Fault>)] = &[
    (0x1_0000, Width::Double, Ok(0xFFF2_8293_00A0_0293)),
    (0x10_0000, Width::Double, Ok(0x1122_3344_5566_7788)),
];

/// Stores one after the other, and the first doubleword after each.
const STORES: &[(u64, Width, u64, u64)] = &[
    (
        0x10_0000,
        Width::Byte,
        0xFFFF_FFFF_FFFF_FFAA,
        0x1122_3344_5566_77AA,
    ),
    (0x10_0002, Width::Half, 0x1_BBCC, 0x1122_3344_BBCC_77AA),
    (0x10_0004, Width::Word, 0x9_DDEE_FF00, 0xDDEE_FF00_BBCC_77AA),
    (
        0x10_0000,
        Width::Double,
        0x0102_0304_0506_0708,
        0x0102_0304_0506_0708,
    ),
];

#[test]
fn stores_the_lowest_bytes_or_nothing(rt: HostRuntime) {
    let mut memory = worked(&rt, rt.alloc());
    for &(address, width, want) in REFUSED {
        let found = memory.store(address, width, 0xFF);
        assert_equal(&rt, (address, width, found), (address, width, Err(want)));
    }
    loads(&rt, &memory, UNTOUCHED);
    for &(address, width, value, want) in STORES {
        let stored = memory.store(address, width, value);
        let loaded = memory.load(0x10_0000, Width::Double);
        assert_equal(&rt, (width, stored, loaded), (width, Ok(()), Ok(want)));
    }
    let stored = memory.store(0x10_0FF8, Width::Double, u64::MAX);
    let last = memory.load(0x10_0FFF, Width::Byte);
    let before = memory.load(0x10_0FF0, Width::Double);
    assert_equal(&rt, (stored, last, before), (Ok(()), Ok(0xFF), Ok(0)));
    drop(memory);
}

/// Addresses of pages, and their bytes 0, 1, 3 and 4.
const PAGES: [(u64, [u8; 4]); 4] = [
    (0x1_0000, [0x13, 0, 0, 0x13]),
    (0x1_1000, [0x13, 0, 0, 0]),
    (0x10_0000, [7, 7, 7, 7]),
    (0x10_1000, [7, 0, 0, 0]),
];

#[test]
fn shows_its_pages_in_order(rt: HostRuntime) {
    let words = vec![in rt.alloc(); 0x13u32; 1025].expect(&rt, "memory");
    let bytes = vec![in rt.alloc(); 7u8; 4097].expect(&rt, "memory");
    let memory = Memory::new(rt.alloc(), &words, &bytes).expect(&rt, "memory");
    let pages = memory.pages();
    for (page, (address, bytes)) in pages.iter().zip(&PAGES) {
        let b = page.bytes();
        let found = [b[0], b[1], b[3], b[4]];
        assert_equal(&rt, (page.address(), found), (*address, *bytes));
    }
    let [_, _, third, fourth] = pages else {
        panic!(rt; "not four pages");
    };
    let last = [third.bytes()[4095], fourth.bytes()[4095]];
    assert_equal(&rt, last, [7, 0]);
    drop(memory);
    drop(bytes);
    drop(words);
}

#[test]
fn copies_apart(rt: HostRuntime) {
    let mut memory = worked(&rt, rt.alloc());
    let copy = memory.try_clone(rt.alloc()).expect(&rt, "memory");
    let stored = memory.store(0x10_0000, Width::Double, 0);
    loads(&rt, &memory, &[(0x10_0000, Width::Double, Ok(0))]);
    loads(&rt, &copy, UNTOUCHED);
    let fetched = copy.fetch(0x1_0004);
    assert_equal(
        &rt,
        (stored, fetched, copy.pages().len()),
        (Ok(()), Ok(0xFFF2_8293), 2),
    );
    drop(copy);
    drop(memory);
}

#[test]
fn holds_none(rt: HostRuntime) {
    let empty = Memory::new(rt.alloc(), &[], &[]).expect(&rt, "memory");
    let fetched = empty.fetch(0x1_0000);
    let loaded = empty.load(0x10_0000, Width::Byte);
    assert_equal(
        &rt,
        (fetched, loaded, empty.pages().is_empty()),
        (Err(Fault::FetchAccess), Err(Fault::LoadAccess), true),
    );
    drop(empty);
}

#[test]
fn holds_the_most(rt: HostRuntime) {
    let words = vec![in rt.alloc(); 0x73u32; 65536].expect(&rt, "memory");
    let bytes = vec![in rt.alloc(); 9u8; 1_048_576].expect(&rt, "memory");
    let mut full = Memory::new(rt.alloc(), &words, &bytes).expect(&rt, "memory");
    let fetched = [full.fetch(0x4_FFFC), full.fetch(0x5_0000)];
    assert_equal(&rt, fetched, [Ok(0x73), Err(Fault::FetchAccess)]);
    let stored = [
        full.store(0x1F_FFF8, Width::Double, 1),
        full.store(0x20_0000, Width::Byte, 1),
    ];
    assert_equal(&rt, stored, [Ok(()), Err(Fault::StoreAccess)]);
    let loaded = [
        full.load(0x1F_FFF8, Width::Double),
        full.load(0x1F_FFF0, Width::Byte),
    ];
    assert_equal(&rt, (loaded, full.pages().len()), ([Ok(1), Ok(9)], 320));
    let faults = [
        full.store_fault(0x1F_FFF8, Width::Double),
        full.store_fault(0x20_0000, Width::Byte),
        full.store_fault(0x1_0001, Width::Half),
    ];
    assert_equal(
        &rt,
        faults,
        [None, Some(Fault::StoreAccess), Some(Fault::StoreMisaligned)],
    );
    drop(full);
    drop(bytes);
    drop(words);
}

/// Also run with `rt try --test --fail-alloc N`, which refuses the Nth growth: a refusal is told, and the memory that
/// was to be copied stays.
#[test]
fn tells_refused_growths(rt: HostRuntime) {
    let Ok(memory) = Memory::new(rt.alloc(), &COUNTDOWN, &DATA) else {
        return;
    };
    if let Ok(copy) = memory.try_clone(rt.alloc()) {
        assert_equal(&rt, copy.pages().len(), 2);
        drop(copy);
    }
    assert_equal(
        &rt,
        (
            memory.fetch(0x1_0004),
            memory.load(0x10_0000, Width::Double),
        ),
        (Ok(0xFFF2_8293), Ok(0x1122_3344_5566_7788)),
    );
    drop(memory);
}
