//! Marks of countdowns, for the tests of books.

ghost use Rattle.std.specs.Prelude.{◌≡◌};
ghost use Rattle.std.specs.Arc.{arc_value};
ghost use Rattle.checkpoint.specs.Aligned.{IsAligned};

use checkpoint::{Mark, Shared, starts};
use hart_step::Environment;
use join_law::{Ctx, Eight};
use origin_set::Origin;
use rv64_asm::Program;
use std::alloc::Global;
use std::process::Abort;
use std::sync::Arc;

/// Counts x5 from 10 down to 0: 21 instructions and an ECALL.
const COUNTDOWN: [u32; 4] = [0x00A0_0293, 0xFFF2_8293, 0xFE02_9EE3, 0x0000_0073];

/// The countdown, with one data byte.
fn countdown(rt: &impl Abort, alloc: Global, byte: u8) -> Option<Program> {
    let words = Vec::from_slice(alloc, &COUNTDOWN).expect(rt, "memory");
    let bytes = Vec::from_slice(alloc, &[byte]).expect(rt, "memory");
    Some(Program::new(words, bytes))
}

/// The origin with the countdown at each context, and this data byte at context 0.
pub fn origin_with(rt: &impl Abort, alloc: Global, byte: u8) -> Arc<Origin> {
    let programs = [
        countdown(rt, alloc, byte),
        countdown(rt, alloc, 0),
        countdown(rt, alloc, 0),
        countdown(rt, alloc, 0),
        countdown(rt, alloc, 0),
        countdown(rt, alloc, 0),
        countdown(rt, alloc, 0),
        countdown(rt, alloc, 0),
    ];
    let origin = Origin::new(programs, Environment::One).expect(rt, "an origin");
    Arc::new(alloc, origin).expect(rt, "memory")
}

/// A mark that many hold.
fn shared(rt: &impl Abort, alloc: Global, mark: Mark) -> Shared
    ensures { result ≡ mark }
{
    let Ok(shared) = Shared::new(alloc, mark) else {
        panic!(rt; "there is no memory for a mark");
    };
    shared
}

/// The mark of a context after so many instructions, at most 21.
pub fn mark_at(
    rt: &impl Abort,
    alloc: Global,
    origin: &Arc<Origin>,
    context: Ctx,
    count: u64,
) -> Shared {
    let mut mark = Mark::start(alloc, origin, context).expect(rt, "a mark");
    let done = mark.advance(count.min(21));
    assert!(rt; done == Ok((count, None)));
    shared(rt, alloc, mark)
}

/// The marks at the starts of the origin's contexts.
pub fn opening_of(rt: &impl Abort, alloc: Global, origin: &Arc<Origin>) -> Eight<Shared>
    ensures { IsAligned result }
{
    let Eight {
        c0,
        c1,
        c2,
        c3,
        c4,
        c5,
        c6,
        c7,
    } = starts(alloc, origin).expect(rt, "marks");
    Eight {
        c0: shared(rt, alloc, c0),
        c1: shared(rt, alloc, c1),
        c2: shared(rt, alloc, c2),
        c3: shared(rt, alloc, c3),
        c4: shared(rt, alloc, c4),
        c5: shared(rt, alloc, c5),
        c6: shared(rt, alloc, c6),
        c7: shared(rt, alloc, c7),
    }
}

/// The counts of eight marks.
pub fn counts_of(marks: &Eight<Shared>) -> [u64; 8] {
    [
        marks.c0.mark().count(),
        marks.c1.mark().count(),
        marks.c2.mark().count(),
        marks.c3.mark().count(),
        marks.c4.mark().count(),
        marks.c5.mark().count(),
        marks.c6.mark().count(),
        marks.c7.mark().count(),
    ]
}
