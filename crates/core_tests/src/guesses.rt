//! The predictor's table, by the guesses that it gives.

use crate::equal::assert_equal;
use branch_predict::{Always, Guess, Sequential, Tables};
use join_law::Ctx;
use rv64_decode::{AluOp, BranchCondition, BranchOffset, Immediate, Insn, JumpOffset, Register};
use std::alloc::Global;
use std::process::Abort;

const PC: u64 = 0x10000;
/// Where a branch at `PC` goes on if it is taken.
const TAKEN: u64 = PC + 64;
/// Where one goes on that isn't.
const LINE: u64 = PC + 4;

/// An instruction of a script.
enum Kind {
    /// `beq x0, x0` to the instruction 64 bytes on.
    Branch,
    /// `jal rd` to the instruction 16 bytes on.
    Jal(u8),
    /// `jalr rd, 8(rs1)`.
    Jalr(u8, u8),
    /// `add x1, x0, x0`.
    Add,
}

fn insn_of(kind: &Kind) -> Insn {
    match kind {
        Kind::Branch => Insn::Branch {
            condition: BranchCondition::Equal,
            rs1: Register::new(0),
            rs2: Register::new(0),
            offset: BranchOffset::new(64),
        },
        Kind::Jal(rd) => Insn::Jal {
            rd: Register::new(*rd % 32),
            offset: JumpOffset::new(16),
        },
        Kind::Jalr(rd, rs1) => Insn::Jalr {
            rd: Register::new(*rd % 32),
            rs1: Register::new(*rs1 % 32),
            immediate: Immediate::new(8),
        },
        Kind::Add => Insn::Alu {
            op: AluOp::Add,
            rd: Register::new(1),
            rs1: Register::new(0),
            rs2: Register::new(0),
        },
    }
}

/// A step of a script: the pc of an instruction, the instruction, and where it goes on.
enum Step {
    /// Context 0 fetches it, and goes on there by the guess.
    Fetches(u64, Kind, u64),
    /// Context 7 does.
    LastFetches(u64, Kind, u64),
    /// An instruction of context 0 retired and went on there, so often.
    Retires(u64, Kind, u64, u32),
}

use Kind::{Add, Branch, Jal, Jalr};
use Step::{Fetches, LastFetches, Retires};

const COUNTERS_START_AT_1_AND_STOP_AT_0_AND_3: &[Step] = &[
    Fetches(PC, Branch, LINE),
    Retires(PC, Branch, TAKEN, 1),
    Fetches(PC, Branch, TAKEN),
    Retires(PC, Branch, LINE, 1),
    Fetches(PC, Branch, LINE),
    Retires(PC, Branch, LINE, 5),
    Fetches(PC, Branch, LINE),
    Retires(PC, Branch, TAKEN, 1),
    Fetches(PC, Branch, LINE),
    Retires(PC, Branch, TAKEN, 1),
    Fetches(PC, Branch, TAKEN),
    Retires(PC, Branch, TAKEN, 5),
    Fetches(PC, Branch, TAKEN),
    Retires(PC, Branch, LINE, 1),
    Fetches(PC, Branch, TAKEN),
    Retires(PC, Branch, LINE, 1),
    Fetches(PC, Branch, LINE),
];

const BRANCHES_1024_BYTES_APART_SHARE_A_COUNTER: &[Step] = &[
    Retires(PC, Branch, PC + 64, 1),
    Fetches(PC + 1024, Branch, PC + 1088),
    Fetches(PC + 1020, Branch, PC + 1024),
    Fetches(PC + 4, Branch, PC + 8),
    Fetches(PC + 256, Branch, PC + 260),
];

/// Nine calls, the returns from the last eight, and one more: the stack is empty.
const A_NINTH_RETURN_ADDRESS_DROPS_THE_OLDEST: &[Step] = &[
    Fetches(PC, Jal(1), PC + 16),
    Fetches(PC + 256, Jal(1), PC + 272),
    Fetches(PC + 512, Jal(1), PC + 528),
    Fetches(PC + 768, Jal(1), PC + 784),
    Fetches(PC + 1024, Jal(1), PC + 1040),
    Fetches(PC + 1280, Jal(1), PC + 1296),
    Fetches(PC + 1536, Jal(1), PC + 1552),
    Fetches(PC + 1792, Jal(1), PC + 1808),
    Fetches(PC + 2048, Jal(1), PC + 2064),
    Fetches(PC, Jalr(0, 1), PC + 2052),
    Fetches(PC, Jalr(0, 1), PC + 1796),
    Fetches(PC, Jalr(0, 1), PC + 1540),
    Fetches(PC, Jalr(0, 1), PC + 1284),
    Fetches(PC, Jalr(0, 1), PC + 1028),
    Fetches(PC, Jalr(0, 1), PC + 772),
    Fetches(PC, Jalr(0, 1), PC + 516),
    Fetches(PC, Jalr(0, 1), PC + 260),
    Fetches(PC, Jalr(0, 1), PC + 4),
];

/// A squash isn't shown to a guess: what was fetched past it stays pushed.
const A_CUT_LEAVES_THE_STACK: &[Step] = &[
    Fetches(PC, Jal(1), PC + 16),
    Fetches(PC + 32, Jalr(1, 5), PC + 36),
    Retires(PC, Jal(1), PC + 16, 1),
    Fetches(PC + 64, Jalr(0, 1), PC + 36),
    Fetches(PC + 64, Jalr(0, 1), PC + 4),
    Fetches(PC + 64, Jalr(0, 1), PC + 68),
];

/// A return writes no target.
const OTHER_JUMPS_GO_BY_THEIR_LAST_TARGETS: &[Step] = &[
    Fetches(PC, Jalr(1, 5), PC + 4),
    Fetches(PC, Jalr(1, 1), PC + 4),
    Fetches(PC, Jalr(0, 5), PC + 4),
    Fetches(PC, Jalr(5, 1), PC + 4),
    Retires(PC, Jalr(0, 1), 0x20000, 1),
    Fetches(PC, Jalr(0, 5), PC + 4),
    Retires(PC, Jalr(1, 5), 0x30000, 1),
    Fetches(PC, Jalr(0, 5), 0x30000),
    Fetches(PC + 256, Jalr(0, 5), 0x30000),
    Fetches(PC + 4, Jalr(0, 5), PC + 8),
];

const CONTEXTS_ARE_APART: &[Step] = &[
    Retires(PC, Branch, PC + 64, 1),
    Retires(PC, Jalr(0, 5), 0x30000, 1),
    Fetches(PC + 128, Jal(1), PC + 144),
    LastFetches(PC, Branch, PC + 4),
    LastFetches(PC, Jalr(0, 5), PC + 4),
    LastFetches(PC, Jalr(0, 1), PC + 4),
    Fetches(PC, Jalr(0, 1), PC + 132),
];

const WHAT_IS_NO_CALL_PUSHES_NOTHING: &[Step] = &[
    Fetches(PC, Jal(0), PC + 16),
    Fetches(PC, Jal(5), PC + 16),
    Fetches(PC, Jalr(5, 6), PC + 4),
    Fetches(PC, Branch, PC + 4),
    Fetches(PC, Add, PC + 4),
    Fetches(PC + 64, Jalr(0, 1), PC + 68),
];

const ALWAYS_LEARNS_NOTHING: &[Step] = &[
    Retires(PC, Branch, PC + 64, 2),
    Fetches(PC, Branch, u64::MAX),
    Retires(PC, Jal(1), PC + 64, 2),
    Fetches(PC, Jal(1), u64::MAX),
    Retires(PC, Jalr(0, 1), PC + 64, 2),
    Fetches(PC, Jalr(0, 1), u64::MAX),
];

const SEQUENTIAL_LEARNS_NOTHING: &[Step] = &[
    Retires(PC, Branch, PC + 64, 2),
    Fetches(PC, Branch, PC + 4),
    Retires(PC, Jal(1), PC + 64, 2),
    Fetches(PC, Jal(1), PC + 4),
    Retires(PC, Jalr(0, 1), PC + 64, 2),
    Fetches(PC, Jalr(0, 1), PC + 4),
    Fetches(u64::MAX - 3, Branch, 0),
];

/// Where a step goes on by the guess, and where by the script.
fn goes_on<G: Guess>(guess: &mut G, step: &Step) -> (u64, u64) {
    let [first, .., last] = Ctx::all();
    match step {
        Fetches(pc, kind, next) => (guess.guess(first, *pc, &insn_of(kind)), *next),
        LastFetches(pc, kind, next) => (guess.guess(last, *pc, &insn_of(kind)), *next),
        Retires(pc, kind, next, times) => {
            for k in 0..*times {
                guess.learn(first, *pc, &insn_of(kind), *next);
            }
            (*next, *next)
        }
    }
}

/// A guess gives the script's guesses.
fn assert_script<G: Guess>(rt: &impl Abort, guess: &mut G, script: &[Step]) {
    for (number, step) in script.iter().enumerate() {
        let (found, want) = goes_on(guess, step);
        assert_equal(rt, (number, found), (number, want));
    }
}

/// New tables give the script's guesses.
fn assert_tables(rt: &impl Abort, alloc: Global, script: &[Step]) {
    let mut tables = Tables::new(alloc).expect(rt, "memory");
    assert_script(rt, &mut tables, script);
}

#[test]
fn tables_guess_by_what_they_learned(rt: HostRuntime) {
    for script in [
        COUNTERS_START_AT_1_AND_STOP_AT_0_AND_3,
        BRANCHES_1024_BYTES_APART_SHARE_A_COUNTER,
        A_NINTH_RETURN_ADDRESS_DROPS_THE_OLDEST,
        A_CUT_LEAVES_THE_STACK,
        OTHER_JUMPS_GO_BY_THEIR_LAST_TARGETS,
        CONTEXTS_ARE_APART,
        WHAT_IS_NO_CALL_PUSHES_NOTHING,
    ] {
        assert_tables(&rt, rt.alloc(), script);
    }
}

#[test]
fn constant_guesses_learn_nothing(rt: HostRuntime) {
    assert_script(&rt, &mut Always(u64::MAX), ALWAYS_LEARNS_NOTHING);
    assert_script(&rt, &mut Sequential, SEQUENTIAL_LEARNS_NOTHING);
}
