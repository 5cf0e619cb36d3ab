//! The part of a cycle in which entries retire.

ghost use Rattle.std.specs.Prelude.{◌≡◌, ℕ, ◌+◌, ◌<◌, ◌≤◌, [], IsSome, IsTrue, None, length};
ghost use Rattle.std.specs.Int.{bit_at};
ghost use Rattle.core_view.specs.declared.note.EntryId.{EntryId};
ghost use Rattle.core_context.specs.Heads.{first_done, IsGoing};
ghost use Rattle.fetch_policy.specs.Lawful.{turn as turn_of};
ghost use Rattle.lawful_cycle.specs.Retire.{IsRetire};
ghost use Rattle.core_back.specs.Machine.{IsAlike, in_flight, context_at, with_context};
ghost use Rattle.core_back.specs.Turn.{IsStepOfTurn, ended};
ghost use Rattle.core_back.specs.Learned.{HasLearned};
ghost use Rattle.lawful_cycle.specs.Steps.{GoesBy, IsLearnedAt, OfNamed};

use crate::machine::Machine;
use bit_vector::{after_first, next, push, turn_eight};
use branch_predict::Guess;
use core_view::EntryId;
use join_law::Ctx;
use listing::Listing;
use std::alloc::Allocator;

/// The oldest entries retire, at most as many as the retire width in all. Contexts are taken from the cycle's number
/// upwards, and each goes on while its oldest entry is done. One that is done with a stop stops its context, and takes no
/// place of the width. What retires is listed in order. Returns how many entries were dropped: all of a context that
/// stops, and what is left of one that is parked.
pub fn retire<A: Allocator, G: Guess, L: Listing<EntryId, 16>>(
    machine: &mut Machine<A>,
    guess: &mut G,
    retired: &mut L,
) -> usize
    requires idle { machine.old.names ≡ [] }
    requires fresh { L.items retired.old ≡ [] }
    ensures alike { IsAlike machine.old machine.new }
    ensures idle { machine.new.names ≡ [] }
    ensures learns { GoesBy (OfNamed (IsLearnedAt G.after_learn) machine.old.view) (L.items retired.new) guess.old guess.new }
    ensures dropped { result + length (L.items retired.new) + in_flight machine.new ≡ in_flight machine.old }
    ensures bound { result ≤ 10880 }
    ensures lawful { IsRetire machine.old.view machine.new.view (L.items retired.new) }
{
    let first = machine.cycle();
    let mut waiting = done_in_turn(machine, first);
    let mut left = retire_width(machine);
    let mut dropped = 0;
    let mut turn = next(waiting, 0);
    while waiting != 0 {
        let context = context_in_turn(first, turn);
        let after = retire_oldest(machine, guess, context, left, dropped, retired);
        left = after.left;
        dropped = after.dropped;
        // A context that goes on is the next again.
        waiting = after_first(waiting, after.goes_on);
        turn = next(waiting, 0);
    }
    // `cycle` ensures that each context is live.
    let _live = machine.cycle();
    dropped
}

/// How many entries may retire in a cycle.
#[inline(always)]
fn retire_width<A: Allocator>(machine: &Machine<A>) -> usize
    ensures value { result ≡ machine.now.view.profile.retire_width }
    ensures bound { result ≤ 16 }
{
    usize::from(machine.profile().retire_width)
}

/// A bit a turn, the first eight: whether the oldest entry of the context whose turn it is is done.
#[inline(always)]
fn done_in_turn<A: Allocator>(machine: &Machine<A>, cycle: u64) -> u64
    ensures none { (t c : ℕ) → t < 8 → c < 8 → turn_of cycle c ≡ t → bit_at result t ≡ 0 → first_done (context_at machine.now c).flight ≡ None }
    ensures some { (t c : ℕ) → t < 8 → c < 8 → turn_of cycle c ≡ t → bit_at result t ≡ 1 → IsSome (first_done (context_at machine.now c).flight) }
    ensures eight { (t : ℕ) → 8 ≤ t → bit_at result t ≡ 0 }
{
    // By number of context first, then turned: each look is at a place that is known ahead.
    let mut word = 0;
    for number in 0..8usize {
        let context = Ctx::new(number).unwrap();
        word = push(word, number, machine.is_head_done(context));
    }
    turn_eight(word, (cycle % 8) as usize)
}

/// What is left of the width once the oldest entry of a context had its turn, how many entries were dropped so far, and
/// whether the next one of the context has its turn then.
#[derive(Clone, Copy)]
struct Turn {
    left: usize,
    dropped: usize,
    goes_on: bool,
}

/// The context whose turn comes in a cycle after so many others.
fn context_in_turn(cycle: u64, turn: usize) -> Ctx
    requires { turn < 8 }
    ensures small { result < 8 }
    ensures turn { turn_of cycle result ≡ turn }
{
    let number = (cycle % 8 + turn as u64) % 8;
    Ctx::new(number as usize).unwrap()
}

/// The oldest entry of a context, which is done, retires, where something is left of the width, or stops the context.
#[inline(always)]
fn retire_oldest<A: Allocator, G: Guess, L: Listing<EntryId, 16>>(
    machine: &mut Machine<A>,
    guess: &mut G,
    context: Ctx,
    left: usize,
    dropped: usize,
    retired: &mut L,
) -> Turn
    requires idle { machine.old.names ≡ [] }
    requires done { IsSome (first_done (context_at machine.old context).flight) }
    requires room { length (L.items retired.old) + left ≤ 16 }
    requires few { dropped ≤ 6400 }
    ensures step { IsStepOfTurn machine.old machine.new context left result.left result.goes_on dropped result.dropped (L.items retired.old) (L.items retired.new) }
    ensures width { length (L.items retired.new) + result.left ≤ 16 }
    ensures fewer { result.left ≤ left }
    ensures one_fewer { IsTrue result.goes_on → result.left + 1 ≡ left }
    ensures trained { HasLearned G.after_learn machine.old machine.new (L.items retired.old) (L.items retired.new) guess.old guess.new }
{
    if left == 0 {
        let stopped = stop_done(machine, context);
        return Turn {
            left,
            dropped: with_dropped(dropped, stopped),
            goes_on: false,
        };
    }
    match machine.head_stop(context) {
        None => retire_going(machine, guess, context, left, dropped, retired),
        Some(why) => {
            let stopped = machine.stop(context, why);
            Turn {
                left,
                dropped: with_dropped(dropped, stopped),
                goes_on: false,
            }
        }
    }
}

/// The oldest entry of a context, which is done with a step, retires, and takes a place of the width.
// Whether the context goes on is known before: the next entry is the oldest then, unless the context is parked, which
// drops it. So nothing is read that the retirement has just written.
#[inline(always)]
fn retire_going<A: Allocator, G: Guess, L: Listing<EntryId, 16>>(
    machine: &mut Machine<A>,
    guess: &mut G,
    context: Ctx,
    left: usize,
    dropped: usize,
    retired: &mut L,
) -> Turn
    requires idle { machine.old.names ≡ [] }
    requires going { IsGoing (first_done (context_at machine.old context).flight) }
    requires some { 0 < left }
    requires room { length (L.items retired.old) + left ≤ 16 }
    requires few { dropped ≤ 6400 }
    ensures step { IsStepOfTurn machine.old machine.new context left result.left result.goes_on dropped result.dropped (L.items retired.old) (L.items retired.new) }
    ensures one { length (L.items retired.new) ≡ length (L.items retired.old) + 1 }
    ensures left { result.left + 1 ≡ left }
    ensures trained { HasLearned G.after_learn machine.old machine.new (L.items retired.old) (L.items retired.new) guess.old guess.new }
{
    let next = machine.is_next_done(context);
    let gone = machine.retire(guess, context);
    let dropped = with_dropped(dropped, gone.dropped);
    let goes_on = next && gone.dropped == 0;
    retired.push(EntryId {
        context,
        stamp: gone.stamp,
    });
    Turn {
        left: left - 1,
        dropped,
        goes_on,
    }
}

/// How many entries were dropped, with so many more. Where a turn drops none, as nearly each does, the number is left alone.
#[inline(always)]
fn with_dropped(dropped: usize, more: usize) -> usize
    requires { dropped + more ≤ 10880 }
    ensures { result ≡ dropped + more }
{
    if more == 0 {
        return dropped;
    }
    add_dropped(dropped, more)
}

/// How many entries were dropped, with those of a turn that drops some.
#[cold]
fn add_dropped(dropped: usize, more: usize) -> usize
    requires { dropped + more ≤ 10880 }
    ensures { result ≡ dropped + more }
{
    dropped + more
}

/// A context whose oldest entry, which is done, is done with a stop is stopped. Returns how many entries are dropped.
fn stop_done<A: Allocator>(machine: &mut Machine<A>, context: Ctx) -> usize
    requires idle { machine.old.names ≡ [] }
    requires done { IsSome (first_done (context_at machine.old context).flight) }
    ensures alike { IsAlike machine.old machine.new }
    ensures idle { machine.new.names ≡ [] }
    ensures stopped { machine.new ≡ with_context machine.old context (ended (context_at machine.old context)) }
    ensures dropped { result + in_flight machine.new ≡ in_flight machine.old }
    ensures bound { result ≤ 80 }
{
    match machine.head_stop(context) {
        Some(why) => machine.stop(context, why),
        None => 0,
    }
}
