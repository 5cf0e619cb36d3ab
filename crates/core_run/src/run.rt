//! A run of a core.

ghost use Rattle.std.specs.Prelude.{◌≡◌, ◌↔◌, ◌+◌, ◌≤◌, ◌^◌, IsTrue, false};
ghost use Rattle.lawful_cycle.specs.Cycle.{laws_of};
ghost use Rattle.lawful_cycle.specs.Runs.{SomeRuns};
ghost use Rattle.lawful_cycle.specs.Distance.{NeverStalls, IsBoundedRun};
ghost use Rattle.core_cycle.specs.Shown.{shown};
ghost use Rattle.core_run.specs.Told.{figures_of};
ghost use Rattle.core_run.specs.Ended.{IsRunFrom, IsRunOf, IsSteppedRunOf, is_reached};
ghost use Rattle.lawful_cycle.specs.Steps.{IsSteppedRunTo, steps_of};

use crate::figures::Figures;
use branch_predict::Guess;
use checkpoint::Mark;
use core_cycle::Core;
use data_tags::Delay;
use fetch_policy::Pick;
use issue_queue::Order;
use join_law::{Ctx, Eight};
use std::alloc::{Allocator, Global};

/// How a run ended.
#[derive(Clone, Copy, Debug, PartialEq, Eq)]
pub enum Outcome {
    /// No context runs: each has reached its target, or stopped.
    Reached,
    /// A context runs, and the limit of cycles is used up.
    CycleLimit,
}

/// What a run leaves.
#[derive(Drop)]
pub struct Run<A: Allocator = Global> {
    /// How it ended.
    pub outcome: Outcome,
    /// What it did.
    pub figures: Figures,
    /// Where its contexts are.
    pub marks: Eight<Mark<A>>,
}

/// Runs a core until no context runs, at most so many cycles. It takes no memory.
pub fn run_to<G: Guess + Drop, P: Pick + Drop, O: Order + Drop, D: Delay + Drop, A: Allocator>(
    core: Core<G, P, O, D, A>,
    limit: u64,
) -> Run<A>
    requires { (shown core).view.cycle + limit ≤ 2 ^ 56 }
    ensures run { IsRunOf (laws_of (P.key_of core.pick) (O.key_of core.order) (G.may_answer core.guess) (D.may_answer core.delay)) (shown core) limit result.outcome (figures_of result.figures) result.marks }
    ensures stepped { IsSteppedRunOf (steps_of G.answer G.after_guess G.after_learn D.answer D.after_delay) (laws_of (P.key_of core.pick) (O.key_of core.order) (G.may_answer core.guess) (D.may_answer core.delay)) core.guess core.delay (shown core) limit result.outcome (figures_of result.figures) result.marks }
    ensures no_stall { NeverStalls (O.key_of core.order) (D.greatest_lag core.delay) (shown core).view → IsBoundedRun (D.greatest_lag core.delay) limit (shown core).view (figures_of result.figures) (is_reached result.outcome) }
{
    let mut core = core;
    let (outcome, figures) = advance(&mut core, limit);
    Run {
        outcome,
        figures,
        marks: core.into_marks(),
    }
}

/// Cycles until no context runs, at most so many. Returns how that ended, and what was done.
fn advance<G: Guess + Drop, P: Pick + Drop, O: Order + Drop, D: Delay + Drop, A: Allocator>(
    core: &mut Core<G, P, O, D, A>,
    limit: u64,
) -> (Outcome, Figures)
    requires { (shown core.old).view.cycle + limit ≤ 2 ^ 56 }
    ensures run { IsRunFrom (laws_of (P.key_of core.old.pick) (O.key_of core.old.order) (G.may_answer core.old.guess) (D.may_answer core.old.delay)) (shown core.old) (shown core.new) limit result.0 (figures_of result.1) }
    ensures stepped { IsSteppedRunTo (steps_of G.answer G.after_guess G.after_learn D.answer D.after_delay) (laws_of (P.key_of core.old.pick) (O.key_of core.old.order) (G.may_answer core.old.guess) (D.may_answer core.old.delay)) limit core.old.guess core.new.guess core.old.delay core.new.delay (shown core.old).view (shown core.new).view (figures_of result.1) (is_reached result.0) }
{
    // `cycles` ensures that what is in flight can be counted.
    let _first = core.cycles();
    let mut figures = Figures::new();
    for _cycle in 0..limit {
        if !some_runs(core) {
            return (Outcome::Reached, figures);
        }
        let counts = core.cycle_counted();
        figures.add(&counts);
    }
    (outcome_at_limit(core), figures)
}

/// How a run ends whose cycles are used up.
fn outcome_at_limit<
    G: Guess + Drop,
    P: Pick + Drop,
    O: Order + Drop,
    D: Delay + Drop,
    A: Allocator,
>(core: &Core<G, P, O, D, A>) -> Outcome
    ensures { is_reached result ≡ false ↔ SomeRuns (shown core.now).view }
{
    if some_runs(core) {
        Outcome::CycleLimit
    } else {
        Outcome::Reached
    }
}

/// Whether a context runs.
fn some_runs<G: Guess + Drop, P: Pick + Drop, O: Order + Drop, D: Delay + Drop, A: Allocator>(
    core: &Core<G, P, O, D, A>,
) -> bool
    ensures { IsTrue result ↔ SomeRuns (shown core.now).view }
{
    for number in 0..8usize {
        let context = Ctx::new(number).unwrap();
        if core.state(context).is_running() {
            return true;
        }
    }
    false
}
