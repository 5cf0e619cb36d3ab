//! The part of a cycle in which entries complete.

ghost use Rattle.std.specs.Prelude.{◌≡◌, ℕ, ◌+◌, ◌-◌, ◌<◌, ◌≤◌, true, false, [], map, IsTrue};
ghost use Rattle.flight.specs.Flights.{is_due, NoneFrom, IsNext};
ghost use Rattle.lawful_cycle.specs.Complete.{IsComplete};
ghost use Rattle.word_mask.specs.Mask.{has};
ghost use Rattle.core_back.specs.Completing.{IsTurn};
ghost use Rattle.core_back.specs.Machine.{IsAlike, context_at, in_flight, with_contexts, completed_context};

use crate::machine::{Machine, first_context};
use join_law::Ctx;
use std::alloc::Allocator;

/// How many entries completed, and how many these squashed.
#[derive(Clone, Copy)]
pub struct Completion {
    /// How many completed.
    pub completed: usize,
    /// How many were squashed.
    pub cut: usize,
}

/// All entries that are due complete. One that an older one squashes doesn't. Each turn is for one entry of the first
/// context that is left, so that no jump depends on how many a context has.
pub fn complete<A: Allocator>(machine: &mut Machine<A>) -> Completion
    requires { machine.old.names ≡ [] }
    ensures alike { IsAlike machine.old machine.new }
    ensures idle { machine.new.names ≡ [] }
    ensures completed { machine.new ≡ with_contexts machine.old (map (completed_context machine.old.view.cycle) machine.old.view.contexts) }
    ensures cut { result.cut + in_flight machine.new ≡ in_flight machine.old }
    ensures bound { result.completed ≤ 640 }
    ensures cut_bound { result.cut ≤ 640 }
    ensures lawful { IsComplete machine.old.view machine.new.view result.completed }
{
    // There are eight contexts, with few entries each.
    let _cycle = machine.cycle();
    let mut completed = 0;
    let mut cut = 0;
    let mut left = hinted(machine);
    while left != 0 {
        let context = first_context(left);
        let turn = complete_next(machine, context, cut);
        completed += turn.completed;
        cut = turn.cut;
        left = word_mask::removed(left, context.index(), turn.last);
    }
    Completion { completed, cut }
}

/// A word with a bit for each context an entry of which may be due.
#[inline(always)]
fn hinted<A: Allocator>(machine: &Machine<A>) -> u64
    ensures known { (c : ℕ) → has result c ≡ true → c < 8 }
    ensures none { (c : ℕ) → c < 8 → has result c ≡ false → NoneFrom (is_due machine.now.view.cycle) (context_at machine.now c).flight 0 }
{
    let mut word = 0;
    for context in Ctx::all() {
        word = word_mask::assigned(word, context.index(), machine.may_be_due(context));
    }
    word
}

/// Whether one more entry of a context may be due, after so many completed.
#[inline(always)]
fn may_have_more<A: Allocator>(machine: &Machine<A>, context: Ctx, completed: usize) -> bool
    ensures more { IsTrue result → 0 < completed }
    ensures none { result ≡ false → 0 < completed → NoneFrom (is_due machine.now.view.cycle) (context_at machine.now context).flight 0 }
{
    completed != 0 && machine.may_be_due(context)
}

/// What a turn did, and whether no other entry of its context is due.
#[derive(Clone, Copy)]
pub struct Completed {
    /// How many entries completed: one, or none.
    pub completed: usize,
    /// How many were squashed.
    pub cut: usize,
    /// Whether the context has no other turn.
    pub last: bool,
}

/// The oldest entry of a context that is due completes, if there is one. Counts what is squashed together with what was
/// squashed before, so that a completion which squashes nothing leaves the count alone.
#[inline(always)]
fn complete_next<A: Allocator>(machine: &mut Machine<A>, context: Ctx, cut: usize) -> Completed
    requires idle { machine.old.names ≡ [] }
    requires few { cut ≤ 640 }
    ensures turn { IsTurn machine.old machine.new context result.completed (result.cut - cut) }
    ensures counted { cut ≤ result.cut }
    ensures more { result.last ≡ false → 0 < result.completed }
    ensures none { IsTrue result.last → 0 < result.completed → NoneFrom (is_due machine.new.view.cycle) (context_at machine.new context).flight 0 }
{
    let Some(place) = machine.first_due(context) else {
        let turn = search_turn(machine, context);
        return counted(turn, cut);
    };
    let Some(more) = machine.complete_plain(context, place) else {
        let turn = complete_other(machine, context, place);
        return counted(turn, cut);
    };
    Completed {
        completed: 1,
        cut,
        last: !more,
    }
}

/// A turn, with what was squashed before it.
#[inline(always)]
fn counted(turn: Completed, cut: usize) -> Completed
    requires few { cut + turn.cut ≤ 720 }
    ensures { result ≡ record turn { cut = cut + turn.cut } }
{
    Completed {
        completed: turn.completed,
        cut: cut + turn.cut,
        last: turn.last,
    }
}

/// A turn in which the entry at a place completes, which may squash others.
#[inline(always)]
fn complete_other<A: Allocator>(machine: &mut Machine<A>, context: Ctx, place: usize) -> Completed
    requires idle { machine.old.names ≡ [] }
    requires next { IsNext (is_due machine.old.view.cycle) (context_at machine.old context).flight 0 place }
    ensures turn { IsTurn machine.old machine.new context result.completed result.cut }
    ensures bound { result.cut ≤ 80 }
    ensures more { 0 < result.completed }
    ensures none { IsTrue result.last → NoneFrom (is_due machine.new.view.cycle) (context_at machine.new context).flight 0 }
{
    // How many there are bounds how many are squashed.
    let _len = machine.len(context);
    let cut = machine.complete(context, place);
    Completed {
        completed: 1,
        cut,
        last: !machine.may_be_due(context),
    }
}

/// A turn whose entry is found by a search.
#[inline(always)]
fn search_turn<A: Allocator>(machine: &mut Machine<A>, context: Ctx) -> Completed
    requires idle { machine.old.names ≡ [] }
    ensures turn { IsTurn machine.old machine.new context result.completed result.cut }
    ensures bound { result.cut ≤ 80 }
    ensures more { result.last ≡ false → 0 < result.completed }
    ensures none { IsTrue result.last → 0 < result.completed → NoneFrom (is_due machine.new.view.cycle) (context_at machine.new context).flight 0 }
{
    // How many there are bounds how many are squashed.
    let _len = machine.len(context);
    let done = complete_found(machine, context);
    let more = may_have_more(machine, context, done.completed);
    Completed {
        completed: done.completed,
        cut: done.cut,
        last: !more,
    }
}

/// The oldest entry of a context that is due, by a search, completes, if there is one.
fn complete_found<A: Allocator>(machine: &mut Machine<A>, context: Ctx) -> Completion
    requires idle { machine.old.names ≡ [] }
    ensures { IsTurn machine.old machine.new context result.completed result.cut }
{
    let Some(place) = machine.next_due(context, 0) else {
        return Completion {
            completed: 0,
            cut: 0,
        };
    };
    let cut = machine.complete(context, place);
    Completion { completed: 1, cut }
}
