//! Programs whose end is known from the standard's text.

use crate::equal::assert_equal;
use hart_step::{
    Effect, Environment, Hart, Stop, destination, execute, first_source, following, load_width,
    loaded, offset_by, second_source, store_width,
};
use paged_memory::{Memory, Width};
use rv64_decode::{LoadKind, StoreWidth, decode};
use std::alloc::Global;
use std::process::Abort;

const ECALL: u32 = 0x0000_0073;
/// `lui x5, 0x100`: the address of the first data page.
const X5_TO_DATA: u32 = 0x0010_02B7;
/// `lui x5, 0x10`: the address of the first text page.
const X5_TO_TEXT: u32 = 0x0001_02B7;

/// The words of the countdown of x5 from 10: 21 instructions and an ECALL.
const COUNTDOWN: &[u32] = &[0x00A0_0293, 0xFFF2_8293, 0xFE02_9EE3, ECALL];
/// `lui x5, 0x80000; addiw x5, x5, -1; addiw x5, x5, 1`.
const ADDIW: &[u32] = &[0x8000_02B7, 0xFFF2_829B, 0x0012_829B];
/// `addi x6, x0, 255; sb x6, 0(x5); ld x7, 0(x5)`, x5 at the first data page.
const BYTE_IN_A_DOUBLEWORD: &[u32] = &[X5_TO_DATA, 0x0FF0_0313, 0x0062_8023, 0x0002_B383, ECALL];

/// A program, how many instructions it goes on, and what it shows then: the count, the stop that
/// comes next, the pc, and a register with its value.
struct Example {
    words: &'static [u32],
    bytes: &'static [u8],
    goes_on: u64,
    count: u64,
    stop: Option<Stop>,
    pc: u64,
    register: (usize, u64),
}

const EXAMPLES: &[Example] = &[
    Example {
        words: COUNTDOWN,
        bytes: &[],
        goes_on: 7,
        count: 7,
        stop: None,
        pc: 0x10004,
        register: (5, 7),
    },
    Example {
        words: COUNTDOWN,
        bytes: &[],
        goes_on: 100,
        count: 21,
        stop: Some(Stop::Ecall),
        pc: 0x1000C,
        register: (5, 0),
    },
    // addi x0, x0, 5; lui x5, 0x80000
    Example {
        words: &[0x0050_0013, 0x8000_02B7, ECALL],
        bytes: &[],
        goes_on: 9,
        count: 2,
        stop: Some(Stop::Ecall),
        pc: 0x10008,
        register: (5, 0xFFFF_FFFF_8000_0000),
    },
    Example {
        words: ADDIW,
        bytes: &[],
        goes_on: 2,
        count: 2,
        stop: None,
        pc: 0x10008,
        register: (5, 0x7FFF_FFFF),
    },
    Example {
        words: ADDIW,
        bytes: &[],
        goes_on: 9,
        count: 3,
        stop: Some(Stop::Illegal),
        pc: 0x1000C,
        register: (5, 0xFFFF_FFFF_8000_0000),
    },
    // jalr x1, 2(x5)
    Example {
        words: &[X5_TO_TEXT, 0x0022_80E7],
        bytes: &[],
        goes_on: 5,
        count: 1,
        stop: Some(Stop::TargetMisaligned),
        pc: 0x10004,
        register: (1, 0),
    },
    // jalr x1, 1(x5): the target's lowest bit is dropped
    Example {
        words: &[X5_TO_TEXT, 0x0012_80E7],
        bytes: &[],
        goes_on: 2,
        count: 2,
        stop: None,
        pc: 0x10000,
        register: (1, 0x10008),
    },
    // sd x0, 0(x5)
    Example {
        words: &[X5_TO_TEXT, 0x0002_B023],
        bytes: &[],
        goes_on: 9,
        count: 1,
        stop: Some(Stop::StoreAccess),
        pc: 0x10004,
        register: (5, 0x10000),
    },
    // sd x0, 1(x5)
    Example {
        words: &[X5_TO_DATA, 0x0002_B0A3],
        bytes: &[0; 8],
        goes_on: 9,
        count: 1,
        stop: Some(Stop::StoreMisaligned),
        pc: 0x10004,
        register: (5, 0x100000),
    },
    Example {
        words: BYTE_IN_A_DOUBLEWORD,
        bytes: &[0x88, 0x77, 0x66, 0x55, 0x44, 0x33, 0x22, 0x11],
        goes_on: 9,
        count: 4,
        stop: Some(Stop::Ecall),
        pc: 0x10010,
        register: (7, 0x1122_3344_5566_77FF),
    },
    // no program
    Example {
        words: &[],
        bytes: &[],
        goes_on: 5,
        count: 0,
        stop: Some(Stop::FetchAccess),
        pc: 0x10000,
        register: (5, 0),
    },
];

/// The hart of a program before its first instruction.
fn hart_at_start(rt: &impl Abort, alloc: Global, words: &[u32], bytes: &[u8]) -> Hart {
    assert!(rt; words.len() <= 65536);
    assert!(rt; bytes.len() <= 1_048_576);
    let memory = Memory::new(alloc, words, bytes).expect(rt, "memory");
    Hart::new([0; 32], 0x10000, memory, Environment::One)
}

/// The hart of a program after so many instructions.
fn hart_after(rt: &impl Abort, alloc: Global, words: &[u32], bytes: &[u8], count: u64) -> Hart {
    let mut hart = hart_at_start(rt, alloc, words, bytes);
    hart.run(count);
    hart
}

/// The pc, the stop there, a register and x0.
fn end(hart: &Hart, register: usize) -> (u64, Option<Stop>, Option<u64>, u64) {
    let registers = hart.regs();
    (
        hart.pc(),
        hart.stop_here(),
        registers.get(register).copied(),
        registers[0],
    )
}

/// An example shows what it says.
fn assert_example(rt: &impl Abort, alloc: Global, it: &Example) {
    let mut hart = hart_at_start(rt, alloc, it.words, it.bytes);
    let (register, value) = it.register;
    let answer = hart.run(it.goes_on);
    assert_equal(
        rt,
        (answer, end(&hart, register)),
        ((it.count, it.stop), (it.pc, it.stop, Some(value), 0)),
    );
    drop(hart);
}

#[test]
fn examples(rt: HostRuntime) {
    for it in EXAMPLES {
        assert_example(&rt, rt.alloc(), it);
    }
}

#[test]
fn steps(rt: HostRuntime) {
    let data = 0x1122_3344_5566_7788u64.to_le_bytes();
    let mut hart = hart_after(&rt, rt.alloc(), BYTE_IN_A_DOUBLEWORD, &data, 2);
    let answer = hart.step();
    let stored = hart.memory().load(0x100000, Width::Double);
    assert_equal(
        &rt,
        (answer, hart.pc(), hart.regs()[6], stored),
        (Ok(()), 0x1000C, 255, Ok(0x1122_3344_5566_77FF)),
    );
    drop(hart);
}

#[test]
fn steps_at_the_stop(rt: HostRuntime) {
    let mut hart = hart_after(&rt, rt.alloc(), COUNTDOWN, &[], 21);
    let answer = hart.step();
    assert_equal(&rt, (answer, hart.pc()), (Err(Stop::Ecall), 0x1000C));
    assert_equal(&rt, *hart.regs(), [0; 32]);
    drop(hart);
}

/// The pc, x5 and the stop there.
type Shown = (u64, u64, Option<Stop>);

fn shown(hart: &Hart) -> Shown {
    (hart.pc(), hart.regs()[5], hart.stop_here())
}

/// A copy of the countdown after 7 instructions stays there, with its environment and its words, once the hart itself is
/// at its stop.
#[test]
fn copies(rt: HostRuntime) {
    let mut hart = hart_after(&rt, rt.alloc(), COUNTDOWN, &[], 7);
    let copy = hart.try_clone(rt.alloc()).expect(&rt, "memory");
    hart.run(100);
    assert_equal(
        &rt,
        [shown(&copy), shown(&hart)],
        [(0x10004, 7, None), (0x1000C, 0, Some(Stop::Ecall))],
    );
    let environment = copy.environment();
    assert_equal(
        &rt,
        (
            environment,
            environment.number(),
            copy.memory().fetch(0x10000),
        ),
        (Environment::One, 1, Ok(0x00A0_0293)),
    );
    drop(copy);
    drop(hart);
}

/// The word of an instruction, its registers, and its effect at 0x10000 on the values of its sources.
struct WorkedEffect {
    word: u32,
    first_source: u8,
    second_source: u8,
    destination: u8,
    values: (u64, u64),
    effect: Effect,
}

const WORKED_EFFECTS: &[WorkedEffect] = &[
    // add x3, x1, x2
    WorkedEffect {
        word: 0x0020_81B3,
        first_source: 1,
        second_source: 2,
        destination: 3,
        values: (u64::MAX, 2),
        effect: Effect::Writes {
            value: 1,
            target: 0x10004,
        },
    },
    // sw x2, 8(x1)
    WorkedEffect {
        word: 0x0020_A423,
        first_source: 1,
        second_source: 2,
        destination: 0,
        values: (0x100000, 7),
        effect: Effect::Stores {
            width: StoreWidth::Word,
            address: 0x100008,
            value: 7,
        },
    },
];

/// The registers of the instruction of a word, and its effect at 0x10000 on the values of its sources.
fn effect_of(word: u32, values: (u64, u64)) -> Option<(u8, u8, u8, Effect)> {
    let insn = decode(word)?;
    Some((
        first_source(&insn).index(),
        second_source(&insn).index(),
        destination(&insn).index(),
        execute(&insn, 0x10000, values.0, values.1),
    ))
}

#[test]
fn effects(rt: HostRuntime) {
    for it in WORKED_EFFECTS {
        let want = (it.first_source, it.second_source, it.destination, it.effect);
        assert_equal(&rt, effect_of(it.word, it.values), Some(want));
    }
}

#[test]
fn values(rt: HostRuntime) {
    assert_equal(
        &rt,
        [
            following(u64::MAX - 3),
            offset_by(2, -4),
            loaded(LoadKind::Byte, 0x80),
            loaded(LoadKind::ByteUnsigned, 0x180),
        ],
        [0, u64::MAX - 1, 0xFFFF_FFFF_FFFF_FF80, 0x80],
    );
    assert_equal(
        &rt,
        [
            load_width(LoadKind::WordUnsigned),
            store_width(StoreWidth::Half),
        ],
        [Width::Word, Width::Half],
    );
}

#[test]
fn causes(rt: HostRuntime) {
    let stops = [
        Stop::TargetMisaligned,
        Stop::FetchAccess,
        Stop::Illegal,
        Stop::Ebreak,
        Stop::LoadMisaligned,
        Stop::LoadAccess,
        Stop::StoreMisaligned,
        Stop::StoreAccess,
        Stop::Ecall,
    ];
    for (number, stop) in stops.iter().enumerate() {
        assert_equal(&rt, usize::from(stop.cause()), number);
    }
}
