//! Operations, outcomes and entries of programs whose figures are known.
ghost use Rattle.std.specs.Prelude.{◌≡◌};

use crate::equal::assert_equal;
use core_view::{
    Access, Bytes, CycleNote, Decoded, Entry, Execution, Operation, OperationKind, Outcome,
    Progress, Span, Stage, Status, Step, access_fault, goes_to, write_access,
};
use hart_step::{Effect, Environment, Stop, execute};
use paged_memory::{Fault, Memory, Width};
use rv64_decode::{LoadKind, StoreWidth, decode};
use std::alloc::Global;
use std::process::Abort;

const ADDI_X5_10: u32 = 0x00A0_0293;

const ADDI_X5_LESS_1: u32 = 0xFFF2_8293;

const BNE_X5_BACK: u32 = 0xFE02_9EE3;

const ECALL: u32 = 0x0000_0073;

/// lw x10, 0(x11)
const LW: u32 = 0x0005_A503;

/// sw x10, 4(x11)
const SW: u32 = 0x00A5_A223;

/// ld x7, 0(x5)
const LD: u32 = 0x0002_B383;

/// sd x6, 0(x5)
const SD: u32 = 0x0062_B023;

/// jal x0, 8
const JAL: u32 = 0x0080_006F;

/// jalr x0, 0(x1)
const JALR: u32 = 0x0000_8067;

/// A memory of these words and of one doubleword.
fn memory_of(rt: &impl Abort, alloc: Global, words: &[u32]) -> Memory {
    assert!(rt; words.len() <= 65536);
    let data = 0x1122_3344_5566_7788u64.to_le_bytes();
    Memory::new(alloc, words, &data).expect(rt, "memory")
}

fn performs(word: u32) -> Operation {
    match decode(word) {
        Some(insn) => Operation::Performs { insn },
        None => Operation::Stops { why: Stop::Illegal },
    }
}

/// The operation that performs a word, or stops.
fn operation(it: Result<u32, Stop>) -> Operation {
    match it {
        Ok(word) => performs(word),
        Err(why) => Operation::Stops { why },
    }
}

const COUNTDOWN: &[u32] = &[ADDI_X5_10, ADDI_X5_LESS_1, BNE_X5_BACK, ECALL];

/// ebreak; jal x0, 2
const STOPS: &[u32] = &[0x0010_0073, 0x0020_006F];

/// Texts, and what stands at a pc of each.
const STANDS: &[(&[u32], u64, Result<u32, Stop>)] = &[
    (COUNTDOWN, 0x10000, Ok(ADDI_X5_10)),
    (COUNTDOWN, 0x10008, Ok(BNE_X5_BACK)),
    (COUNTDOWN, 0x1000C, Err(Stop::Ecall)),
    (COUNTDOWN, 0x10010, Err(Stop::Illegal)),
    (COUNTDOWN, 0x11000, Err(Stop::FetchAccess)),
    (COUNTDOWN, 0x100000, Err(Stop::FetchAccess)),
    (STOPS, 0x10000, Err(Stop::Ebreak)),
    (STOPS, 0x10004, Err(Stop::TargetMisaligned)),
];

/// What stands at a pc of a text.
fn operation_at(rt: &impl Abort, alloc: Global, words: &[u32], pc: u64) -> Operation {
    assert!(rt; pc % 4 == 0);
    Operation::at(&memory_of(rt, alloc, words), pc)
}

#[test]
fn operations_of_texts(rt: HostRuntime) {
    for (words, pc, wanted) in STANDS {
        let found = operation_at(&rt, rt.alloc(), *words, *pc);
        assert_equal(&rt, (*pc, found), (*pc, operation(*wanted)));
    }
}

/// Words and their kinds: the last is no instruction.
const KINDS: &[(u32, OperationKind)] = &[
    (ADDI_X5_10, OperationKind::Plain),
    (BNE_X5_BACK, OperationKind::Guessed),
    (LW, OperationKind::Load),
    (SW, OperationKind::Store),
    (JAL, OperationKind::Jump),
    (JALR, OperationKind::Guessed),
    (0, OperationKind::Stop),
];

#[test]
fn what_a_decoded_operation_tells(rt: HostRuntime) {
    for (word, kind) in KINDS {
        assert_equal(&rt, Decoded::new(performs(*word)).kind(), *kind);
    }
    let it = Decoded::new(performs(SW));
    let others = [
        it.is_load(),
        it.is_guessed(),
        it.may_turn(),
        it.stops_at_fetch(),
    ];
    assert!(rt; it.is_store() && others == [false; 4]);
    let [first, second] = [it.first_source(), it.second_source()];
    assert_equal(
        &rt,
        [first.index(), second.index(), it.destination().index()],
        [11, 10, 0],
    );
    assert_equal(&rt, *it.operation(), performs(SW));
}

/// A word at a pc on the values of its sources, and the value and the next pc that it computes.
type Computed = (u32, u64, u64, u64, Option<(u64, u64)>);

const COMPUTED: &[Computed] = &[
    (ADDI_X5_LESS_1, 0x10004, 10, 0, Some((9, 0x10008))),
    (BNE_X5_BACK, 0x10008, 9, 0, Some((0, 0x10004))),
    (BNE_X5_BACK, 0x10008, 0, 0, Some((0, 0x1000C))),
    // sub x5, x6, x7; addw x5, x6, x7
    (
        0x4073_02B3,
        0x10000,
        5,
        7,
        Some((0xFFFF_FFFF_FFFF_FFFE, 0x10004)),
    ),
    (
        0x0073_02BB,
        0x10000,
        0x7FFF_FFFF,
        1,
        Some((0xFFFF_FFFF_8000_0000, 0x10004)),
    ),
    // srai x5, x6, 4; sraiw x5, x6, 31; sltiu x5, x6, -1
    (
        0x4043_5293,
        0x10000,
        1 << 63,
        0,
        Some((0xF800_0000_0000_0000, 0x10004)),
    ),
    (
        0x41F3_529B,
        0x10000,
        0x8000_0000,
        0,
        Some((0xFFFF_FFFF_FFFF_FFFF, 0x10004)),
    ),
    (0xFFF3_3293, 0x10000, 5, 0, Some((1, 0x10004))),
    // lui x5, 0x80000; auipc x5, 1
    (
        0x8000_02B7,
        0x10000,
        0,
        0,
        Some((0xFFFF_FFFF_8000_0000, 0x10004)),
    ),
    (0x0000_1297, 0x10000, 0, 0, Some((0x11000, 0x10004))),
    (JAL, 0x10000, 0, 0, Some((0x10004, 0x10008))),
    (JALR, 0x10000, 0x10011, 0, Some((0x10004, 0x10010))),
    (JALR, 0x10000, 0x10012, 0, None),
    // fence
    (0x0FF0_000F, 0x10000, 0, 0, Some((0, 0x10004))),
    (LW, 0x10000, 0, 0, None),
    (SW, 0x10000, 0, 0, None),
    (ECALL, 0x10000, 0, 0, None),
    (0, 0x10000, 0, 0, None),
];

#[test]
fn what_a_decoded_operation_computes(rt: HostRuntime) {
    for (word, pc, first, second, wanted) in COMPUTED {
        let it = Decoded::new(performs(*word));
        let found = it.compute(*pc, *first, *second);
        assert_equal(&rt, (*word, *pc, found), (*word, *pc, *wanted));
    }
}

/// What an operation tells by itself.
struct Told {
    it: Result<u32, Stop>,
    pc: u64,
    unguessed_next: u64,
    stops_at_fetch: bool,
    is_guessed: bool,
    is_load: bool,
    is_store: bool,
    /// Its sources and its destination.
    registers: [u8; 3],
}

/// A plain operation at 0x10000.
const PLAIN: Told = Told {
    it: Ok(0x0000_0013),
    pc: 0x10000,
    unguessed_next: 0x10004,
    stops_at_fetch: false,
    is_guessed: false,
    is_load: false,
    is_store: false,
    registers: [0, 0, 0],
};

const OPERATIONS: &[Told] = &[
    PLAIN,
    Told {
        it: Err(Stop::TargetMisaligned),
        pc: 0x10004,
        unguessed_next: 0x10008,
        stops_at_fetch: true,
        ..PLAIN
    },
    Told {
        it: Ok(JAL),
        pc: 0x10008,
        unguessed_next: 0x10010,
        ..PLAIN
    },
    Told {
        it: Ok(LD),
        is_load: true,
        registers: [5, 0, 7],
        ..PLAIN
    },
    Told {
        it: Ok(SD),
        is_store: true,
        registers: [5, 6, 0],
        ..PLAIN
    },
    Told {
        it: Ok(BNE_X5_BACK),
        is_guessed: true,
        registers: [5, 0, 0],
        ..PLAIN
    },
];

impl Told {
    /// Whether the operation tells this.
    fn holds(&self) -> bool {
        let it = operation(self.it);
        let registers = [it.first_source(), it.second_source(), it.destination()];
        it.unguessed_next(self.pc) == self.unguessed_next
            && it.stops_at_fetch() == self.stops_at_fetch
            && it.is_guessed() == self.is_guessed
            && it.is_load() == self.is_load
            && it.is_store() == self.is_store
            && registers[0].index() == self.registers[0]
            && registers[1].index() == self.registers[1]
            && registers[2].index() == self.registers[2]
    }
}

#[test]
fn what_an_operation_tells(rt: HostRuntime) {
    for told in OPERATIONS {
        assert!(rt; told.holds(), "at {}", told.pc);
    }
}

fn value_and_next(value: u64, next: u64) -> Step {
    Step {
        result: value,
        next,
        access: Access::Free,
    }
}

fn goes(value: u64, next: u64) -> Outcome {
    Outcome::Goes {
        step: value_and_next(value, next),
    }
}

/// Words, the pc of each and its first source, and its value and where it goes on, or why it stops.
const OUTCOMES: &[(u32, u64, u64, Result<(u64, u64), Stop>)] = &[
    (ADDI_X5_10, 0x10000, 0, Ok((10, 0x10004))),
    // with x5 9 the branch is taken; with 0 it isn't
    (BNE_X5_BACK, 0x10008, 9, Ok((0, 0x10004))),
    (BNE_X5_BACK, 0x10008, 0, Ok((0, 0x1000C))),
    // jalr x1, 2(x5); jalr x1, 1(x5)
    (0x0022_80E7, 0x10004, 0x10000, Err(Stop::TargetMisaligned)),
    (0x0012_80E7, 0x10004, 0x10000, Ok((0x10008, 0x10000))),
];

/// The outcome of an instruction that asks nothing of memory.
fn outcome(word: u32, pc: u64, source: u64) -> Option<Outcome> {
    let effect = execute(&decode(word)?, pc, source, 0);
    Some(Outcome::of_effect(pc, effect, Ok(0)))
}

#[test]
fn outcomes(rt: HostRuntime) {
    for (word, pc, source, wanted) in OUTCOMES {
        let wanted = match *wanted {
            Ok((value, next)) => goes(value, next),
            Err(why) => Outcome::Stops { why },
        };
        let found = outcome(*word, *pc, *source);
        assert_equal(&rt, (*word, found), (*word, Some(wanted)));
    }
}

fn due_in(due: u64, outcome: Outcome) -> Execution {
    Execution {
        due,
        miss: false,
        outcome,
    }
}

/// The first instruction of the countdown is fetched in cycle 0, renamed and issued in cycle 2, and done in 3.
#[test]
fn stages_of_the_first(rt: HostRuntime) {
    let execution = Execution {
        due: 3,
        miss: false,
        outcome: goes_to(10, 0x10004),
    };
    let fetched = Entry::new(0, 0, 0x10000, Decoded::new(performs(ADDI_X5_10)), 0x10004);
    let renamed = fetched.renamed(2);
    let issued = renamed.issued(execution);
    let done = issued.completed();
    assert_eq!(rt; fetched.queued(), renamed);
    assert_eq!(rt; issued.settled(), done);
    assert_equal(
        &rt,
        [fetched, renamed, issued, done].map(|entry| entry.stage.to_stage()),
        [
            Stage::Fetched,
            Stage::Queued,
            Stage::Issued { execution },
            Stage::Done { execution },
        ],
    );
    assert_equal(
        &rt,
        [2, 3].map(|cycle| issued.stage.is_due(cycle)),
        [false, true],
    );
    assert_equal(
        &rt,
        (issued.stage.due(), issued.stage.has_missed()),
        (3, false),
    );
    assert_equal(
        &rt,
        (done.stage.step(), done.stage.stop()),
        (Some(value_and_next(10, 0x10004)), None),
    );
    assert!(rt; !issued.stage.is_done() && done.stage.is_done() && done.followed == 0x10004);
}

#[test]
fn branch_and_end_of_countdown(rt: HostRuntime) {
    let branch = Decoded::new(performs(BNE_X5_BACK));
    let entry = Entry::new(2, 0, 0x10008, branch, 0x1000C);
    let back = entry.is_mispredicted(&value_and_next(0, 0x10004));
    let on = entry.is_mispredicted(&value_and_next(0, 0x1000C));
    assert_equal(&rt, [back, on], [true, false]);
    let turned = entry.issued(due_in(5, goes(0, 0x10004))).completed();
    let stop = Decoded::new(Operation::Stops { why: Stop::Ecall });
    let done = Entry::new(3, 0, 0x1000C, stop, 0x10010).renamed(2);
    let execution = due_in(2, Outcome::Stops { why: Stop::Ecall });
    assert_equal(
        &rt,
        (done.stage.to_stage(), done.stage.step(), done.stage.stop()),
        (Stage::Done { execution }, None, Some(Stop::Ecall)),
    );
    assert_equal(&rt, [turned.followed, done.followed], [0x10004, 0x10010]);
}

fn store_of(width: StoreWidth, address: u64, value: u64) -> Effect {
    Effect::Stores {
        width,
        address,
        value,
    }
}

/// The outcome of what goes on with a value for its destination to a next pc.
fn accessing(value: u64, next: u64, access: Access) -> Outcome {
    let step = Step {
        access,
        ..value_and_next(value, next)
    };
    Outcome::Goes { step }
}

fn fault_at(memory: &Memory, address: u64) -> Option<Fault> {
    let store = store_of(StoreWidth::Double, address, 0);
    access_fault(Environment::One, memory, store)
}

#[test]
fn store_faults(rt: HostRuntime) {
    let memory = memory_of(&rt, rt.alloc(), &[ECALL]);
    let found = [
        fault_at(&memory, 0x10000),
        fault_at(&memory, 0x100001),
        fault_at(&memory, 0x100000),
    ];
    assert_equal(
        &rt,
        found,
        [Some(Fault::StoreAccess), Some(Fault::StoreMisaligned), None],
    );
    let text = store_of(StoreWidth::Double, 0x10000, 0);
    let why = Stop::StoreAccess;
    assert_equal(
        &rt,
        Outcome::of_effect(0x10004, text, Err(Fault::StoreAccess)),
        Outcome::Stops { why },
    );
}

/// What a store of the byte 255 at the first data address writes.
fn one_byte() -> Bytes
    ensures { result.span.size ≡ 1 }
{
    Bytes {
        span: Span {
            address: 0x100000,
            size: 1,
        },
        value: 255,
    }
}

#[test]
fn byte_over_a_doubleword(rt: HostRuntime) {
    let mut memory = memory_of(&rt, rt.alloc(), &[ECALL]);
    write_access(
        Environment::One,
        &mut memory,
        Access::Writes { bytes: one_byte() },
    );
    let loaded = memory.load(0x100000, Width::Double);
    assert_equal(&rt, loaded, Ok(0x1122_3344_5566_77FF));
}

#[test]
fn spans_and_bytes_of_accesses(rt: HostRuntime) {
    let stored = Outcome::of_effect(0x10008, store_of(StoreWidth::Byte, 0x100000, 255), Ok(0));
    // the sign-extended byte 0x80, the last of the first doubleword
    let kind = LoadKind::Byte;
    let address = 0x100007;
    let loaded = Outcome::of_effect(0x10000, Effect::Loads { kind, address }, Ok(0x80));
    let span = Span { address, size: 1 };
    let execution = due_in(9, loaded);
    let issued = Progress::issued(execution);
    let bytes = one_byte();
    let writes = Access::Writes { bytes };
    let reads = Access::Reads { span };
    let stores = accessing(0, 0x1000C, writes);
    let loads = accessing(0xFFFF_FFFF_FFFF_FF80, 0x10004, reads);
    assert_equal(&rt, [stored, loaded], [stores, loads]);
    assert_equal(&rt, [writes.bytes(), issued.bytes()], [Some(bytes), None]);
    assert_equal(&rt, [issued.span(), reads.span()], [Some(span); 2]);
    assert_equal(&rt, [writes.span(), Access::Free.span()], [None; 2]);
}

#[test]
fn statuses_and_an_empty_note(rt: HostRuntime) {
    let stopped = Status::Stopped { why: Stop::Ecall };
    assert_equal(
        &rt,
        [Status::at(3, 4), Status::at(4, 4)],
        [Status::Running, Status::Parked],
    );
    assert!(rt; Status::at(0, 1).is_running() && !stopped.is_running());
    let note = CycleNote::new();
    let entries = [note.fetched.len(), note.renamed.len(), note.retired.len()];
    assert!(rt; entries == [0; 3] && note.issued.is_empty());
    assert_equal(&rt, (note.completed, note.cut), (0, 0));
}
