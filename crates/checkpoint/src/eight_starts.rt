//! The starts of an origin's contexts.
ghost use Rattle.std.specs.Prelude.{◌≡◌, IfOk, OnErr, Err};
ghost use Rattle.std.specs.Arc.{arc_value};
ghost use Rattle.checkpoint.specs.Aligned.{IsAligned};
ghost use Rattle.checkpoint.specs.Starts.{start_of, starts_of};

use crate::{Mark, MarkFault};
use join_law::{Ctx, Eight};
use origin_set::Origin;
use std::alloc::Allocator;
use std::sync::Arc;

// Two marks. A struct is dropped by one call where memory is refused, and a tuple part by part.
#[derive(Drop)]
struct Two<A: Allocator> {
    first: Mark<A>,
    second: Mark<A>,
}

// Four marks.
#[derive(Drop)]
struct Four<A: Allocator> {
    low: Two<A>,
    high: Two<A>,
}

/// The start of each context, at its place. C3 is the only refusal.
pub fn starts<A: Allocator + Copy>(
    alloc: A,
    origin: &Arc<Origin<A>, A>,
) -> Result<Eight<Mark<A>>, MarkFault>
    ensures ok { IfOk result (λ marks. marks ≡ starts_of (arc_value origin.now)) }
    ensures aligned { IfOk result (λ marks. IsAligned marks) }
    ensures err { OnErr result (result ≡ Err MarkFault.OutOfMemory) }
{
    let low = low_starts(alloc, origin)?;
    let high = high_starts(alloc, origin)?;
    Ok(eight_of(low, high))
}

// The starts of contexts 0 to 3.
fn low_starts<A: Allocator + Copy>(
    alloc: A,
    origin: &Arc<Origin<A>, A>,
) -> Result<Four<A>, MarkFault>
    ensures ok { IfOk result (λ marks.
        (marks.low.first ≡ start_of (arc_value origin.now) 0) ×
        (marks.low.second ≡ start_of (arc_value origin.now) 1) ×
        (marks.high.first ≡ start_of (arc_value origin.now) 2) ×
        (marks.high.second ≡ start_of (arc_value origin.now) 3)) }
    ensures err { OnErr result (result ≡ Err MarkFault.OutOfMemory) }
{
    let [n0, n1, n2, n3, ..] = Ctx::all();
    four_starts(alloc, origin, n0, n1, n2, n3)
}

// The starts of contexts 4 to 7.
fn high_starts<A: Allocator + Copy>(
    alloc: A,
    origin: &Arc<Origin<A>, A>,
) -> Result<Four<A>, MarkFault>
    ensures ok { IfOk result (λ marks.
        (marks.low.first ≡ start_of (arc_value origin.now) 4) ×
        (marks.low.second ≡ start_of (arc_value origin.now) 5) ×
        (marks.high.first ≡ start_of (arc_value origin.now) 6) ×
        (marks.high.second ≡ start_of (arc_value origin.now) 7)) }
    ensures err { OnErr result (result ≡ Err MarkFault.OutOfMemory) }
{
    let [.., n4, n5, n6, n7] = Ctx::all();
    four_starts(alloc, origin, n4, n5, n6, n7)
}

// Two times four marks, in order.
fn eight_of<A: Allocator>(low: Four<A>, high: Four<A>) -> Eight<Mark<A>>
    ensures { result ≡ record {
      c0 = low.low.first;
      c1 = low.low.second;
      c2 = low.high.first;
      c3 = low.high.second;
      c4 = high.low.first;
      c5 = high.low.second;
      c6 = high.high.first;
      c7 = high.high.second;
    } }
{
    Eight {
        c0: low.low.first,
        c1: low.low.second,
        c2: low.high.first,
        c3: low.high.second,
        c4: high.low.first,
        c5: high.low.second,
        c6: high.high.first,
        c7: high.high.second,
    }
}

// The starts of four contexts.
fn four_starts<A: Allocator + Copy>(
    alloc: A,
    origin: &Arc<Origin<A>, A>,
    a: Ctx,
    b: Ctx,
    c: Ctx,
    d: Ctx,
) -> Result<Four<A>, MarkFault>
    ensures ok { IfOk result (λ marks.
        (marks.low.first ≡ start_of (arc_value origin.now) a) ×
        (marks.low.second ≡ start_of (arc_value origin.now) b) ×
        (marks.high.first ≡ start_of (arc_value origin.now) c) ×
        (marks.high.second ≡ start_of (arc_value origin.now) d)) }
    ensures err { OnErr result (result ≡ Err MarkFault.OutOfMemory) }
{
    let low = two_starts(alloc, origin, a, b)?;
    let high = two_starts(alloc, origin, c, d)?;
    Ok(Four { low, high })
}

// The starts of two contexts.
fn two_starts<A: Allocator + Copy>(
    alloc: A,
    origin: &Arc<Origin<A>, A>,
    a: Ctx,
    b: Ctx,
) -> Result<Two<A>, MarkFault>
    ensures ok { IfOk result (λ marks.
        (marks.first ≡ start_of (arc_value origin.now) a) ×
        (marks.second ≡ start_of (arc_value origin.now) b)) }
    ensures err { OnErr result (result ≡ Err MarkFault.OutOfMemory) }
{
    let first = Mark::start(alloc, origin, a)?;
    let second = Mark::start(alloc, origin, b)?;
    Ok(Two { first, second })
}
