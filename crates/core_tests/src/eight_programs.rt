//! Eight programs at once, under guesses, orders and delays that make no sense.
ghost use Rattle.std.specs.Prelude.{◌≡◌, ◌≤◌};

use crate::cores::{core_of, origin_of, program_of};
use branch_predict::Guess;
use checkpoint::{Mark, starts};
use core_cycle::Core;
use core_profile::{Profile, ProfileFields};
use data_tags::Alternating;
use fetch_policy::NamedPick;
use hart_step::{Hart, following};
use issue_queue::{Order, QueueView};
use join_law::Ctx;
use origin_set::Origin;
use paged_memory::{Fault, Width};
use rv64_asm::Program;
use rv64_decode::Insn;
use std::alloc::Global;
use std::sync::Arc;
use std::test::Fail;

/// A loop over a sum that is stored, a count that is stored and loaded, and a jump through a register.
const LOOP: [u32; 12] = [
    0x0010_03B7,
    0x0032_8293,
    0x0053_B423,
    0x0013_0313,
    0x0103_B403,
    0x0054_C4B3,
    0x0063_B823,
    0x0000_0517,
    0x00C5_00E7,
    0x0015_8593,
    0x0016_0613,
    0xFC03_1CE3,
];

/// Guesses that go round a fixed list of odd numbers, and then in line.
#[derive(Drop)]
struct OddGuess {
    next: usize,
}

impl Guess for OddGuess {
    ghost use Rattle.std.specs.Prelude.{◌+◌, ◌%◌, true, [], ◌∷◌, slice_get, unwrap_or, refl};
    ghost use Rattle.hart_step.specs.State.{following};

    ghost may_answer = { λ s context pc insn next. true };

    ghost answer = { λ s context pc insn. unwrap_or (slice_get (1 ∷ 3 ∷ 0x1_0005 ∷ 0xffff_ffff_ffff_ffff ∷ 0x1_0004 ∷ 0x1_0014 ∷ 7 ∷ []) (s.next % 8)) (following pc) };

    ghost after_guess = { λ s context pc insn. record s { next = (s.next % 8 + 1) % 8 } };

    ghost after_learn = { λ s context pc insn next. s };

    ghost guess_keeps = { λ s context pc insn. refl };

    ghost learn_keeps = { λ s context pc insn next. refl };

    fn guess(&mut self, _context: Ctx, pc: u64, _insn: &Insn) -> u64 {
        let table = [1, 3, 0x1_0005, u64::MAX, 0x1_0004, 0x1_0014, 7];
        let place = self.next % 8;
        self.next = (place + 1) % 8;
        match table.get(place) {
            Some(answer) => *answer,
            None => following(pc),
        }
    }

    fn learn(&mut self, _context: Ctx, _pc: u64, _insn: &Insn, _next: u64) {}
}

/// Orders by the stamp's remainder.
#[derive(Drop)]
struct OddOrder;

impl Order for OddOrder {
    ghost use Rattle.std.specs.Prelude.{◌%◌};

    ghost key_of = { λ order view. view.stamp % 5 };

    fn key(&self, view: &QueueView) -> u64 {
        view.stamp % 5
    }
}

type OddCore = Core<OddGuess, NamedPick, OddOrder, Alternating>;

/// The loop with another step.
fn loop_of(alloc: Global, step: u32) -> Result<Program, Fail>
    requires { step ≤ 100 }
{
    let mut words = LOOP;
    words[1] = 0x0002_8293 + step * 0x10_0000;
    program_of(alloc, &words, &[1; 24])
}

/// The loop by two steps.
fn two_loops(alloc: Global, a: u32, b: u32) -> Result<(Program, Program), Fail>
    requires a { a ≤ 100 }
    requires b { b ≤ 100 }
{
    let first = loop_of(alloc, a)?;
    let second = loop_of(alloc, b)?;
    Ok((first, second))
}

/// The loop by four steps, each two more than the one before.
fn four_loops(alloc: Global, step: u32) -> Result<(Program, Program, Program, Program), Fail>
    requires { step ≤ 50 }
{
    let (first, second) = two_loops(alloc, step, step + 2)?;
    let (third, fourth) = two_loops(alloc, step + 4, step + 6)?;
    Ok((first, second, third, fourth))
}

/// The origin with the loop at each context, by eight steps.
fn loops(alloc: Global) -> Result<Arc<Origin>, Fail> {
    let (p0, p1, p2, p3) = four_loops(alloc, 1)?;
    let (p4, p5, p6, p7) = four_loops(alloc, 9)?;
    origin_of(
        alloc,
        [
            Some(p0),
            Some(p1),
            Some(p2),
            Some(p3),
            Some(p4),
            Some(p5),
            Some(p6),
            Some(p7),
        ],
    )
}

/// The default profile with so many places in reorder buffers and issue queue, half as many in the queues of loads and
/// stores, and 32 extra registers.
fn profile_of(places: u64) -> Result<Profile, Fail> {
    let fields = ProfileFields {
        reorder_buffer: places,
        issue_queue: places,
        load_queue: places / 2,
        store_queue: places / 2,
        extra_registers: 32,
        ..ProfileFields::default()
    };
    Profile::checked(fields).map_err(|_| "a profile".into())
}

/// A core by a profile at the starts of an origin.
fn odd_core(alloc: Global, profile: &Profile, origin: &Arc<Origin>) -> Result<OddCore, Fail> {
    let marks = starts(alloc, origin)?;
    core_of(
        alloc,
        profile,
        marks,
        [300, 200, 100, 50, 400, 500, 600, 700],
        OddGuess { next: 0 },
        NamedPick::Misscount,
        OddOrder,
        Alternating { long: false },
    )
}

/// Runs a core so many cycles more.
fn run(core: &mut OddCore, cycles: u64) {
    for _cycle in 0..cycles {
        if core.cycles() < 1_000_000 {
            let _note = core.cycle();
        }
    }
}

/// How many instructions were performed, the registers, the pc, and the two doublewords that the loop stores.
#[derive(Debug, PartialEq, Eq, Drop)]
struct Place {
    count: u64,
    registers: [u64; 32],
    pc: u64,
    sum: Result<u64, Fault>,
    stored_count: Result<u64, Fault>,
}

/// Where a context of a core is.
fn place_of_core(core: &OddCore, context: Ctx) -> Place {
    let (registers, pc, memory) = core.arch(context);
    Place {
        count: core.retired(context),
        registers: *registers,
        pc,
        sum: memory.load(0x10_0008, Width::Double),
        stored_count: memory.load(0x10_0010, Width::Double),
    }
}

/// Where a hart is after so many instructions.
fn place_of_hart(hart: &Hart, count: u64) -> Place {
    Place {
        count,
        registers: *hart.regs(),
        pc: hart.pc(),
        sum: hart.memory().load(0x10_0008, Width::Double),
        stored_count: hart.memory().load(0x10_0010, Width::Double),
    }
}

/// Where at most so many plain steps lead from the start of a context.
fn place_after(alloc: Global, origin: &Arc<Origin>, context: Ctx, count: u64) -> Result<Place, Fail>
    requires { count ≤ 10000 }
{
    let mut mark = Mark::start(alloc, origin, context)?;
    let (done, _) = mark.advance(count)?;
    let hart = mark.hart(alloc)?;
    Ok(place_of_hart(&hart, done))
}

/// Whether a context of a core is where plain steps are.
fn agrees(alloc: Global, core: &OddCore, origin: &Arc<Origin>, context: Ctx) -> Result<bool, Fail> {
    let retired = core.retired(context);
    if retired > 10_000 {
        return Err("a target".into());
    }
    let plain = place_after(alloc, origin, context, retired)?;
    Ok(place_of_core(core, context) == plain)
}

/// Whether all contexts are.
fn all_agree(alloc: Global, core: &OddCore, origin: &Arc<Origin>) -> Result<bool, Fail> {
    for context in Ctx::all() {
        if !agrees(alloc, core, origin, context)? {
            return Ok(false);
        }
    }
    Ok(true)
}

/// Whether all contexts are where plain steps are at four points of a run.
fn points_agree(alloc: Global, core: &mut OddCore, origin: &Arc<Origin>) -> Result<bool, Fail> {
    for _point in 0..4 {
        run(core, 1500);
        if !all_agree(alloc, core, origin)? {
            return Ok(false);
        }
    }
    Ok(true)
}

/// Whether the contexts of a core with a profile, at the starts of an origin, are where plain steps are.
fn stays_plain_by(alloc: Global, profile: &Profile, origin: &Arc<Origin>) -> Result<bool, Fail> {
    let mut core = odd_core(alloc, profile, origin)?;
    points_agree(alloc, &mut core, origin)
}

/// Whether the contexts of a core with so many places, which runs the eight loops, are where plain steps are.
fn stays_plain(alloc: Global, places: u64) -> Result<bool, Fail> {
    let profile = profile_of(places)?;
    let origin = loops(alloc)?;
    stays_plain_by(alloc, &profile, &origin)
}

#[test]
fn eight_contexts_with_few_places(rt: HostRuntime) -> Result<(), Fail> {
    assert!(rt; stays_plain(rt.alloc(), 8)?);
    Ok(())
}

#[test]
fn eight_contexts_with_all_places(rt: HostRuntime) -> Result<(), Fail> {
    assert!(rt; stays_plain(rt.alloc(), 64)?);
    Ok(())
}
