//! A load or a store issues.

ghost use Rattle.std.specs.Prelude.{◌≡◌, ◌<◌, ◌^◌, length, take, true, false};
ghost use Rattle.hart_step.specs.declared.effect.Effect.TheVariants.{Loads, Stores};
ghost use Rattle.core_view.specs.declared.entry.Stage.TheVariants.{Queued};
ghost use Rattle.core_view.specs.Loads.{may_issue};
ghost use Rattle.core_view.specs.Operations.{is_load};
ghost use Rattle.core_view.specs.View.{entry_at};
ghost use Rattle.data_tags.specs.declared.delay.Kind.TheVariants.{Load, Store};
ghost use Rattle.core_context.specs.Issuable.{IsAnswered, effected_at};
ghost use Rattle.core_context.specs.Performed.{HasIssuedWith};
ghost use Rattle.lawful_cycle.specs.Queries.{IsLagBy};

use crate::track::Track;
use core_view::{loads_at, stores_at};
use data_tags::{Delay, Kind, Lag};
use entry_stages::{ONE_CYCLE, due_after, lag_of, refused, span_of};
use hart_step::Effect;
use hint::assert_unchecked;
use join_law::Ctx;
use load_store_queue::LoadAnswer;
use rv64_decode::{LoadKind, StoreWidth};
use std::alloc::Allocator;

/// The entry at a place, which is queued and a load from an address, issues: its bytes are those of older stores that
/// have completed, else memory's.
#[inline(always)]
pub(crate) fn perform_load<A: Allocator, D: Delay>(
    track: &mut Track<A>,
    place: usize,
    pc: u64,
    kind: LoadKind,
    address: u64,
    context: Ctx,
    cycle: u64,
    delay: &mut D,
) -> Lag
    requires place { place < length track.old.context.flight }
    requires pc { pc ≡ (entry_at track.old.context place).pc }
    requires queued { (entry_at track.old.context place).stage ≡ Queued }
    requires load { is_load (entry_at track.old.context place).operation ≡ true }
    requires answered { IsAnswered track.old.context place }
    requires clear { may_issue (take place track.old.context.flight) (Loads kind address) ≡ true }
    requires cycle { cycle < 2 ^ 56 }
    ensures { HasIssuedWith (IsLagBy (D.may_answer delay.old) D.answer D.after_delay delay.old delay.new context) Load address (effected_at track.old.context place (Loads kind address)) cycle place track.old track.new result }
{
    let number = match track.read(kind, address) {
        Ok(number) => number,
        Err(fault) => {
            track.issue_load(place, refused(fault, cycle));
            return ONE_CYCLE;
        }
    };
    let LoadAnswer::Ready { value } = track.ask(place, span_of(kind, address), number) else {
        assert_unchecked(false);
        unreachable!();
    };
    let outcome = loads_at(pc, kind, address, value);
    let lag = lag_of(delay, context, Kind::Load, address, &outcome);
    track.issue_load(place, due_after(cycle, lag, outcome));
    lag
}

/// The entry at a place, which is queued and a store of a value at an address, issues.
#[inline(always)]
pub(crate) fn perform_store<A: Allocator, D: Delay>(
    track: &mut Track<A>,
    place: usize,
    pc: u64,
    width: StoreWidth,
    address: u64,
    value: u64,
    context: Ctx,
    cycle: u64,
    delay: &mut D,
) -> Lag
    requires place { place < length track.old.context.flight }
    requires pc { pc ≡ (entry_at track.old.context place).pc }
    requires queued { (entry_at track.old.context place).stage ≡ Queued }
    requires store { is_load (entry_at track.old.context place).operation ≡ false }
    requires cycle { cycle < 2 ^ 56 }
    ensures { HasIssuedWith (IsLagBy (D.may_answer delay.old) D.answer D.after_delay delay.old delay.new context) Store address (effected_at track.old.context place (Stores width address value)) cycle place track.old track.new result }
{
    let effect = Effect::Stores {
        width,
        address,
        value,
    };
    if let Some(fault) = track.access_fault(effect) {
        track.issue_other(place, refused(fault, cycle));
        return ONE_CYCLE;
    }
    let outcome = stores_at(pc, width, address, value);
    let lag = lag_of(delay, context, Kind::Store, address, &outcome);
    track.issue_other(place, due_after(cycle, lag, outcome));
    lag
}
