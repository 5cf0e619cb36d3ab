//! Programs whose figures are known, cycle by cycle.
ghost use Rattle.std.specs.Prelude.{◌≡◌, ◌≤◌};
ghost use Rattle.checkpoint.specs.Aligned.{IsAligned};

use crate::cores::{core_of, front_delay, starts_with, tables_of};
use branch_predict::{Always, Guess, Sequential};
use checkpoint::Mark;
use core_cycle::Core;
use core_profile::Profile;
use core_view::Status;
use data_tags::{Delay, Flat, Latencies};
use fetch_policy::RoundRobin;
use hart_step::Stop;
use issue_queue::OldestFirst;
use join_law::{Ctx, Eight};
use paged_memory::Width;
use std::alloc::Global;
use std::test::Fail;

/// Counts x5 from 10 down to 0: 21 instructions and an ECALL.
const COUNTDOWN: [u32; 4] = [0x00A0_0293, 0xFFF2_8293, 0xFE02_9EE3, 0x0000_0073];

/// The doubleword 1.
const ONE: [u8; 8] = [1, 0, 0, 0, 0, 0, 0, 0];

/// Context 0 is to retire 100 instructions.
const TARGETS: [u64; 8] = [100, 0, 0, 0, 0, 0, 0, 0];

/// Cycles, and entries that were fetched, renamed, issued, retired and squashed.
type Figures = [u64; 6];

/// What a core shows of context 0 once it stopped.
#[derive(Debug, PartialEq, Eq, Drop)]
struct Ending {
    figures: Figures,
    status: Status,
    retired: u64,
    registers: [u64; 9],
    first_data: Option<u64>,
}

/// Runs a core until context 0 stops, at most a thousand cycles.
fn run<G: Guess + Drop, D: Delay + Drop>(
    core: &mut Core<G, RoundRobin, OldestFirst, D>,
) -> Figures {
    let [context, ..] = Ctx::all();
    let mut figures = [0; 6];
    for _cycle in 0..1000 {
        if !core.state(context).is_running() || core.cycles() >= 1000 {
            return figures;
        }
        let note = core.cycle();
        figures = [
            core.cycles(),
            figures[1].saturating_add(note.fetched.len() as u64),
            figures[2].saturating_add(note.renamed.len() as u64),
            figures[3].saturating_add(note.issued.len() as u64),
            figures[4].saturating_add(note.retired.len() as u64),
            figures[5].saturating_add(u64::from(note.cut)),
        ];
    }
    figures
}

/// What a core shows at the end, from marks, by a profile, a guess and a delay.
fn end_by<G: Guess + Drop, D: Delay + Drop>(
    alloc: Global,
    profile: &Profile,
    marks: Eight<Mark>,
    guess: G,
    delay: D,
) -> Result<Ending, Fail>
    requires { IsAligned marks }
{
    let mut core = core_of(
        alloc,
        profile,
        marks,
        TARGETS,
        guess,
        RoundRobin,
        OldestFirst,
        delay,
    )?;
    let figures = run(&mut core);
    Ok(ending_of(&core, figures))
}

/// What a core shows at the end of a program, with flat delays, and the doubleword 1 as data.
fn end_of<G: Guess + Drop>(
    alloc: Global,
    profile: &Profile,
    words: &[u32],
    guess: G,
) -> Result<Ending, Fail> {
    let delay = Flat::new(Latencies::from(profile));
    let marks = starts_with(alloc, words, &ONE)?;
    end_by(alloc, profile, marks, guess, delay)
}

/// What a core shows at the end of a program, by the default profile, with its predictor and data tags.
fn end_by_tables(alloc: Global, words: &[u32], bytes: &[u8]) -> Result<Ending, Fail> {
    let profile = Profile::default();
    let (guess, delay) = tables_of(alloc, &profile)?;
    let marks = starts_with(alloc, words, bytes)?;
    end_by(alloc, &profile, marks, guess, delay)
}

/// What a core shows of context 0.
fn ending_of<G: Guess + Drop, D: Delay + Drop>(
    core: &Core<G, RoundRobin, OldestFirst, D>,
    figures: Figures,
) -> Ending {
    let [context, ..] = Ctx::all();
    let (registers, _, _) = core.arch(context);
    let [x0, x1, x2, x3, x4, x5, x6, x7, x8, ..] = *registers;
    Ending {
        figures,
        status: core.state(context),
        retired: core.retired(context),
        registers: [x0, x1, x2, x3, x4, x5, x6, x7, x8],
        first_data: core.memory(context).load(0x10_0000, Width::Double).ok(),
    }
}

/// The end at an ECALL.
fn ends(figures: Figures, retired: u64, registers: [u64; 9], first_data: u64) -> Ending {
    Ending {
        figures,
        status: Status::Stopped { why: Stop::Ecall },
        retired,
        registers,
        first_data: Some(first_data),
    }
}

#[test]
fn lone_ecall(rt: HostRuntime) -> Result<(), Fail> {
    let end = end_of(rt.alloc(), &front_delay(1)?, &[0x0000_0073], Sequential)?;
    assert_eq!(rt; end, ends([3, 1, 1, 0, 0, 1], 0, [0; 9], 1));
    Ok(())
}

#[test]
fn nop_then_ecall(rt: HostRuntime) -> Result<(), Fail> {
    let end = end_of(
        rt.alloc(),
        &front_delay(1)?,
        &[0x0000_0013, 0x0000_0073],
        Sequential,
    )?;
    assert_eq!(rt; end, ends([5, 2, 2, 1, 1, 1], 1, [0; 9], 1));
    Ok(())
}

#[test]
fn countdown_in_line(rt: HostRuntime) -> Result<(), Fail> {
    let end = end_of(rt.alloc(), &Profile::default(), &COUNTDOWN, Sequential)?;
    assert_eq!(rt; end, ends([53, 31, 31, 21, 21, 10], 21, [0; 9], 1));
    Ok(())
}

#[test]
fn countdown_of_wrong_guesses(rt: HostRuntime) -> Result<(), Fail> {
    let least = end_of(rt.alloc(), &Profile::default(), &COUNTDOWN, Always(0))?;
    assert_eq!(rt; least, ends(least.figures, 21, [0; 9], 1));
    let greatest = end_of(
        rt.alloc(),
        &Profile::default(),
        &COUNTDOWN,
        Always(u64::MAX),
    )?;
    assert_eq!(rt; greatest, ends(greatest.figures, 21, [0; 9], 1));
    Ok(())
}

#[test]
fn countdown_by_tables(rt: HostRuntime) -> Result<(), Fail> {
    let end = end_by_tables(rt.alloc(), &COUNTDOWN, &ONE)?;
    assert_eq!(rt; end, ends([27, 32, 28, 22, 21, 11], 21, [0; 9], 1));
    Ok(())
}

/// A call, a call by register, and a function that goes on by register and returns.
///
/// | pc | Instruction | |
/// |---|---|---|
/// | 0x10000 | `lui x7, 0x10` | |
/// | 0x10004 | `jal x1, 0x10010` | pushes 0x10008 |
/// | 0x10008 | `jalr x1, 16(x7)` | pushes 0x1000c, and is guessed to go there |
/// | 0x1000c | `ecall` | |
/// | 0x10010 | `jalr x0, 24(x7)` | guessed to go to 0x10014, then, once one retired, to 0x10018 |
/// | 0x10014 | `ecall` | reached by a wrong guess alone |
/// | 0x10018 | `jalr x0, 0(x1)` | a return |
///
/// Cycle by cycle: 0x10010 is squashed in 5 and 0x10008 in 10, each with one ECALL behind it; the second 0x10010 is
/// fetched in 10, the second return in 11 and the ECALL in 12, all by right guesses; that is the head in 16. A predictor
/// that isn't shown the JAL guesses the first return wrong, and one that never learns the second 0x10010: both take 20
/// cycles, in which 11 are fetched and 4 squashed.
const CALLS_AND_RETURNS: [u32; 7] = [
    0x0001_03B7,
    0x00C0_00EF,
    0x0103_80E7,
    0x0000_0073,
    0x0183_8067,
    0x0000_0073,
    0x0000_8067,
];

#[test]
fn calls_and_returns(rt: HostRuntime) -> Result<(), Fail> {
    let end = end_by_tables(rt.alloc(), &CALLS_AND_RETURNS, &ONE)?;
    let registers = [0, 0x1_000C, 0, 0, 0, 0, 0, 0x1_0000, 0];
    assert_eq!(rt; end, ends([17, 10, 10, 7, 7, 3], 7, registers, 1));
    Ok(())
}

/// These calls with two sums in the function, the first of which is passed over: so a return is fetched behind the first
/// wrong guess too, and takes what the call has pushed.
///
/// | pc | Instruction | |
/// |---|---|---|
/// | 0x10010 | `jalr x0, 24(x7)` | as above |
/// | 0x10014 | `addi x6, x6, 16` | reached by a wrong guess alone |
/// | 0x10018 | `addi x6, x6, 1` | |
/// | 0x1001c | `jalr x0, 0(x1)` | a return |
///
/// Cycle by cycle: in 1 the return behind the wrong guess pops 0x10008, in 2 the call there pushes 0x1000c; in 5 five
/// are squashed, but not what the stack holds: the first return that stays pops 0x1000c, so one is squashed in 9. One
/// more is behind the call by register in 13, and the last return, fetched in 14, is guessed right. The ECALL is the
/// head in 19. A predictor that isn't shown the JAL fetches 16, of which 7 are squashed; one that never learns takes 25
/// cycles.
const RETURN_ON_A_WRONG_PATH: [u32; 8] = [
    0x0001_03B7,
    0x00C0_00EF,
    0x0103_80E7,
    0x0000_0073,
    0x0183_8067,
    0x0103_0313,
    0x0013_0313,
    0x0000_8067,
];

#[test]
fn return_on_a_wrong_path(rt: HostRuntime) -> Result<(), Fail> {
    let end = end_by_tables(rt.alloc(), &RETURN_ON_A_WRONG_PATH, &ONE)?;
    let registers = [0, 0x1_000C, 0, 0, 0, 0, 2, 0x1_0000, 0];
    assert_eq!(rt; end, ends([20, 17, 17, 11, 9, 8], 9, registers, 1));
    Ok(())
}

/// A store behind a branch that is guessed not taken, and a load behind it.
const WRONG_PATH: [u32; 6] = [
    0x0070_0313,
    0x0010_02B7,
    0x0000_0663,
    0x0062_B023,
    0x0000_3383,
    0x0000_0073,
];

#[test]
fn wrong_path_store(rt: HostRuntime) -> Result<(), Fail> {
    let end = end_by_tables(rt.alloc(), &WRONG_PATH, &ONE)?;
    let registers = [0, 0, 0, 0, 0, 0x10_0000, 7, 0, 0];
    assert_eq!(rt; end, ends([8, 7, 7, 4, 3, 4], 3, registers, 1));
    Ok(())
}

/// A byte is stored over the first of a doubleword, which is loaded then.
const PARTIAL_FORWARD: [u32; 5] = [
    0x0010_02B7,
    0x0FF0_0313,
    0x0062_8023,
    0x0002_B383,
    0x0000_0073,
];

#[test]
fn load_of_more_than_a_store_has(rt: HostRuntime) -> Result<(), Fail> {
    let data = [0x88, 0x77, 0x66, 0x55, 0x44, 0x33, 0x22, 0x11];
    let end = end_by_tables(rt.alloc(), &PARTIAL_FORWARD, &data)?;
    let loaded = 0x1122_3344_5566_77FF;
    let registers = [0, 0, 0, 0, 0, 0x10_0000, 255, loaded, 0];
    assert_eq!(rt; end, ends([11, 7, 7, 5, 4, 3], 4, registers, loaded));
    Ok(())
}

/// A store to an address that was loaded, and a load of what it stores.
const LATE_STORE: [u32; 6] = [
    0x0010_02B7,
    0x0070_0313,
    0x0002_B383,
    0x0063_B023,
    0x0082_B403,
    0x0000_0073,
];

#[test]
fn load_behind_a_late_store(rt: HostRuntime) -> Result<(), Fail> {
    let data = [8, 0, 0x10, 0, 0, 0, 0, 0, 1, 0, 0, 0, 0, 0, 0, 0];
    let end = end_by_tables(rt.alloc(), &LATE_STORE, &data)?;
    let registers = [0, 0, 0, 0, 0, 0x10_0000, 7, 0x10_0008, 7];
    assert_eq!(rt; end, ends([31, 8, 8, 6, 5, 3], 5, registers, 0x10_0008));
    Ok(())
}
