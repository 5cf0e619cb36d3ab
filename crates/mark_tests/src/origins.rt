//! Digests, comparisons and starts of small origins.
//!
//! What a function holds is dropped where it ends, and each drop of an origin has a cost in proof: so a helper that
//! holds one drops it by a call, returns plain data, and ends the test where memory runs out.

use crate::equal::assert_equal;
use crate::programs::{COUNTDOWN, program};
use hart_step::{Environment, Hart, Stop};
use join_law::Ctx;
use origin_set::{Origin, OriginFault};
use paged_memory::{Fault, Width};
use rv64_asm::Program;
use std::alloc::Global;
use std::process::Abort;
use std::sync::Arc;

/// The origin with a program at context 0 and another at context 7.
fn outer(first: Option<Program>, last: Option<Program>) -> Result<Origin, OriginFault> {
    Origin::new(
        [first, None, None, None, None, None, None, last],
        Environment::One,
    )
}

/// That origin, behind a pointer: what holds a whole origin has a cost in proof.
fn shared(
    rt: &impl Abort,
    alloc: Global,
    first: Option<Program>,
    last: Option<Program>,
) -> Arc<Origin> {
    let origin = outer(first, last).expect(rt, "an origin");
    Arc::new(alloc, origin).expect(rt, "memory")
}

/// The words and bytes of a program.
struct Source {
    words: &'static [u32],
    bytes: &'static [u8],
}

/// The programs of contexts 0 and 7.
struct Sketch {
    first: Option<Source>,
    last: Option<Source>,
}

/// The program of the words and bytes, where there are any.
fn program_of(rt: &impl Abort, alloc: Global, source: &Option<Source>) -> Option<Program> {
    match source {
        None => None,
        Some(source) => Some(program(alloc, source.words, source.bytes).expect(rt, "memory")),
    }
}

fn origin_of(rt: &impl Abort, alloc: Global, sketch: &Sketch) -> Arc<Origin> {
    let first = program_of(rt, alloc, &sketch.first);
    let last = program_of(rt, alloc, &sketch.last);
    shared(rt, alloc, first, last)
}

fn digest_of(rt: &impl Abort, alloc: Global, sketch: &Sketch) -> [u8; 32] {
    let origin = origin_of(rt, alloc, sketch);
    let digest = origin.digest();
    drop(origin);
    digest
}

const NOTHING: Sketch = Sketch {
    first: None,
    last: None,
};

struct Digested {
    sketch: Sketch,
    digest: [u8; 32],
}

const DIGESTS: &[Digested] = &[
    Digested {
        sketch: NOTHING,
        digest: [
            0xa5, 0x36, 0xaa, 0x3c, 0xed, 0xe6, 0xea, 0x3c, 0x1f, 0x3e, 0x03, 0x57, 0xc3, 0xc6,
            0x0e, 0x0f, 0x21, 0x6a, 0x8c, 0x89, 0xb8, 0x53, 0xdf, 0x13, 0xb2, 0x9d, 0xaa, 0x8f,
            0x85, 0x06, 0x5d, 0xfb,
        ],
    },
    Digested {
        sketch: Sketch {
            first: Some(Source {
                words: &COUNTDOWN,
                bytes: &[],
            }),
            last: None,
        },
        digest: [
            0xd5, 0xaf, 0x67, 0x45, 0x16, 0xf8, 0x32, 0x5f, 0x59, 0x35, 0x52, 0xca, 0xca, 0x3c,
            0x9c, 0x37, 0xbb, 0xfa, 0x70, 0x8a, 0x31, 0xc4, 0x33, 0xa7, 0xa3, 0x37, 0xba, 0x9d,
            0x51, 0x95, 0x16, 0xf5,
        ],
    },
    // an ECALL at context 7
    Digested {
        sketch: Sketch {
            first: Some(Source {
                words: &COUNTDOWN,
                bytes: &[],
            }),
            last: Some(Source {
                words: &[0x0000_0073],
                bytes: &[1, 2, 3],
            }),
        },
        digest: [
            104, 224, 59, 120, 185, 228, 53, 78, 116, 241, 171, 35, 30, 21, 33, 124, 135, 4, 82,
            199, 162, 74, 10, 171, 244, 53, 1, 90, 28, 164, 155, 83,
        ],
    },
];

#[test]
fn digests(rt: HostRuntime) {
    for it in DIGESTS {
        assert_equal(&rt, digest_of(&rt, rt.alloc(), &it.sketch), it.digest);
    }
}

/// The origin whose only program, that of context 7, is the countdown with the data 1, 2.
const COUNTDOWN_OF_1_2: Sketch = Sketch {
    first: None,
    last: Some(Source {
        words: &COUNTDOWN,
        bytes: &[1, 2],
    }),
};

/// The origin whose only program, that of context 7, is empty.
const EMPTY_AT_7: Sketch = Sketch {
    first: None,
    last: Some(Source {
        words: &[],
        bytes: &[],
    }),
};

struct Compared {
    left: Sketch,
    right: Sketch,
    are_same: bool,
}

const COMPARED: &[Compared] = &[
    Compared {
        left: COUNTDOWN_OF_1_2,
        right: COUNTDOWN_OF_1_2,
        are_same: true,
    },
    // another byte
    Compared {
        left: COUNTDOWN_OF_1_2,
        right: Sketch {
            first: None,
            last: Some(Source {
                words: &COUNTDOWN,
                bytes: &[1, 3],
            }),
        },
        are_same: false,
    },
    // no ECALL
    Compared {
        left: COUNTDOWN_OF_1_2,
        right: Sketch {
            first: None,
            last: Some(Source {
                words: &[0x00A0_0293, 0xFFF2_8293, 0xFE02_9EE3],
                bytes: &[1, 2],
            }),
        },
        are_same: false,
    },
    // the empty program at another context
    Compared {
        left: EMPTY_AT_7,
        right: Sketch {
            first: Some(Source {
                words: &[],
                bytes: &[],
            }),
            last: None,
        },
        are_same: false,
    },
    // no program
    Compared {
        left: EMPTY_AT_7,
        right: NOTHING,
        are_same: false,
    },
];

/// Whether the origins of two sketches are the same.
fn are_same(rt: &impl Abort, alloc: Global, left: &Sketch, right: &Sketch) -> bool {
    let left = origin_of(rt, alloc, left);
    let right = origin_of(rt, alloc, right);
    let same = left.same(&right);
    drop(left);
    drop(right);
    same
}

#[test]
fn compares_programs_and_contexts(rt: HostRuntime) {
    for it in COMPARED {
        let found = are_same(&rt, rt.alloc(), &it.left, &it.right);
        assert_equal(&rt, found, it.are_same);
    }
}

/// A program of so many words `addi x0, x0, 0` and bytes of 0.
fn sized(rt: &impl Abort, alloc: Global, words: usize, bytes: usize) -> Program {
    Program::new(
        vec![in alloc; 0x0000_0013; words].expect(rt, "memory"),
        vec![in alloc; 0; bytes].expect(rt, "memory"),
    )
}

/// Why a program of so many words and bytes has no origin, if it has none.
fn refusal_of(rt: &impl Abort, alloc: Global, words: usize, bytes: usize) -> Option<OriginFault> {
    outer(None, Some(sized(rt, alloc, words, bytes))).err()
}

/// What is loaded at the last places of full pages and behind them, of text and then of data.
type AtTheEnds = [Result<u64, Fault>; 4];

fn loaded_at_ends(hart: &Hart) -> AtTheEnds {
    let memory = hart.memory();
    [
        memory.load(0x4FFFC, Width::Word),
        memory.load(0x50000, Width::Word),
        memory.load(0x1F_FFF8, Width::Double),
        memory.load(0x20_0000, Width::Byte),
    ]
}

/// What is loaded at these places from the start of an origin's context 7.
fn loaded_of_last(rt: &impl Abort, alloc: Global, origin: &Arc<Origin>) -> AtTheEnds {
    let [.., last] = Ctx::all();
    let hart = origin.hart(alloc, last).expect(rt, "a hart");
    let loaded = loaded_at_ends(&hart);
    drop(hart);
    loaded
}

#[test]
fn full_pages_and_one_page_too_many(rt: HostRuntime) {
    let alloc = rt.alloc();
    assert_equal(
        &rt,
        [
            refusal_of(&rt, alloc, 65_537, 0),
            refusal_of(&rt, alloc, 0, 1_048_577),
            refusal_of(&rt, alloc, 65_536, 1_048_576),
        ],
        [
            Some(OriginFault::TooManyPages),
            Some(OriginFault::TooManyPages),
            None,
        ],
    );
    let program = sized(&rt, alloc, 65_536, 1_048_576);
    let origin = shared(&rt, alloc, None, Some(program));
    assert_equal(
        &rt,
        loaded_of_last(&rt, alloc, &origin),
        [
            Ok(0x13),
            Err(Fault::LoadAccess),
            Ok(0),
            Err(Fault::LoadAccess),
        ],
    );
    drop(origin);
}

/// A context with the countdown and the data byte 7 starts with all registers 0, and runs to the stop.
fn assert_start(rt: &impl Abort, alloc: Global, origin: &Arc<Origin>, context: Ctx) {
    let mut hart = origin.hart(alloc, context).expect(rt, "a hart");
    assert_equal(rt, *hart.regs(), [0; 32]);
    let pc = hart.pc();
    let first_data = hart.memory().load(0x10_0000, Width::Word);
    assert_equal(
        rt,
        (pc, first_data, hart.run(100)),
        (0x10000, Ok(7), (21, Some(Stop::Ecall))),
    );
    drop(hart);
}

/// A context without a program stops at once.
fn assert_no_program(rt: &impl Abort, alloc: Global, origin: &Arc<Origin>, context: Ctx) {
    let mut hart = origin.hart(alloc, context).expect(rt, "a hart");
    assert_equal(rt, hart.run(100), (0, Some(Stop::FetchAccess)));
    drop(hart);
}

#[test]
fn starts_with_and_without_a_program(rt: HostRuntime) {
    let alloc = rt.alloc();
    let [first, second, ..] = Ctx::all();
    let countdown = program(alloc, &COUNTDOWN, &[7]).expect(&rt, "memory");
    let origin = shared(&rt, alloc, Some(countdown), None);
    assert_start(&rt, alloc, &origin, first);
    assert_no_program(&rt, alloc, &origin, second);
    drop(origin);
}

/// A fault is printed as this code.
fn assert_code(rt: &impl Abort, alloc: Global, fault: OriginFault, code: &str) {
    let printed = fault.to_string(alloc).expect(rt, "memory");
    assert!(rt; printed.as_str() == code);
}

#[test]
fn environments_and_codes(rt: HostRuntime) {
    let alloc = rt.alloc();
    let origin = shared(&rt, alloc, None, None);
    assert!(rt; origin.environment() == Environment::One);
    assert_code(&rt, alloc, OriginFault::TooManyPages, "O1");
    assert_code(&rt, alloc, OriginFault::OutOfMemory, "O2");
    drop(origin);
}
