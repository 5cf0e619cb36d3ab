//! Marks: how far contexts have come, each always on its trajectory of plain RV64I.
#![tactic(auto)]

ghost use Rattle.std.specs.Prelude.{◌≡◌, ◌↔◌, ◌+◌, ◌^◌, ◌≤◌, ℕ, max, IsTrue, IfOk, IfErr, OnErr, Some, Err};
ghost use Rattle.std.specs.Arc.{arc_value};
ghost use Rattle.checkpoint.specs.Further.{MarkKin, IsUnjoinable, further, mark_laws};
ghost use Rattle.checkpoint.specs.Furthest.{IsFurthest};
ghost use Rattle.checkpoint.specs.MarkValue.{Advances, state_of};
ghost use Rattle.origin_set.specs.OriginValue.{OriginValue};
ghost use Rattle.origin_set.specs.Start.{start};

mod best;
mod eight_starts;
mod eights;
mod fault;
mod pairs;
mod run;
mod shared;

pub use best::{furthest, furthest_each, furthest_leaf, furthest_leaf_each};
pub use eight_starts::starts;
pub use eights::aligned;
pub use fault::MarkFault;
use hart_step::{Hart, Stop};
use join_law::{Ctx, Join};
use origin_set::Origin;
pub use shared::Shared;
use std::alloc::{Allocator, Global};
use std::marker::Model;
use std::sync::Arc;

/// A context of an origin, so many instructions from its start. A contract sees origin, context and count; the state
/// is plain RV64I's after that count, whoever made the mark.
#[derive(Drop)]
pub struct Mark<A: Allocator = Global> {
    origin: Arc<Origin<A>, A>,
    context: Ctx,
    count: u64,
    hart: Hart<A>,
}

impl<A: Allocator> Model for Mark<A> {
    ghost use Rattle.std.specs.Prelude.{◌≡◌, ◌≤◌, ◌^◌, Some};
    ghost use Rattle.std.specs.Arc.{arc_value};
    ghost use Rattle.checkpoint.specs.MarkValue.{MarkValue};
    ghost use Rattle.hart_step.specs.Next.{after};
    ghost use Rattle.origin_set.specs.Start.{start};

    ghost Value = { MarkValue };

    ghost view = { λ m. record { origin = arc_value m.origin; context = m.context; count = m.count } };

    ghost invariant = { λ m. (m.count ≤ 2 ^ 60) × (after m.count (start (arc_value m.origin) m.context) ≡ Some m.hart) };
}

impl<A: Allocator> Mark<A> {
    /// The start of a context, at count 0. C3 is the only refusal.
    pub fn start(alloc: A, origin: &Arc<Origin<A>, A>, context: Ctx) -> Result<Self, MarkFault>
        ensures ok { IfOk result (λ mark. mark ≡ record { origin = arc_value origin.now; context = context; count = 0 }) }
        ensures err { OnErr result (result ≡ Err MarkFault.OutOfMemory) }
    {
        let hart = start_state(alloc, origin, context)?;
        Mark::sharing(origin, context, 0, hart)
    }

    /// The mark of a hart that plain RV64I reaches from the context's start in that count.
    pub fn from_core(origin: Arc<Origin<A>, A>, context: Ctx, count: u64, hart: Hart<A>) -> Self
        requires bound { count ≤ 2 ^ 60 }
        requires reached { state_of (record { origin = arc_value origin; context = context; count = count }) ≡ Some hart }
        ensures { result ≡ record { origin = arc_value origin; context = context; count = count } }
    {
        Mark {
            origin,
            context,
            count,
            hart,
        }
    }

    /// A second mark of the same. C3 is the only refusal.
    pub fn try_clone(&self, alloc: A) -> Result<Self, MarkFault>
        ensures ok { IfOk result (λ copy. copy ≡ self.now) }
        ensures err { OnErr result (result ≡ Err MarkFault.OutOfMemory) }
    {
        let hart = self.hart(alloc)?;
        Mark::sharing(&self.origin, self.context, self.count, hart)
    }

    // The mark of a hart, as `from_core` makes it, with a share of the origin.
    fn sharing(
        origin: &Arc<Origin<A>, A>,
        context: Ctx,
        count: u64,
        hart: Hart<A>,
    ) -> Result<Self, MarkFault>
        requires bound { count ≤ 2 ^ 60 }
        requires reached { state_of (record { origin = arc_value origin.now; context = context; count = count }) ≡ Some hart }
        ensures ok { IfOk result (λ mark. mark ≡ record { origin = arc_value origin.now; context = context; count = count }) }
        ensures err { OnErr result (result ≡ Err MarkFault.OutOfMemory) }
    {
        match Arc::try_clone(origin) {
            Ok(origin) => Ok(Mark::from_core(origin, context, count, hart)),
            Err(_) => Err(MarkFault::OutOfMemory),
        }
    }

    /// How many instructions it is from the start, at most 2^60.
    pub fn count(&self) -> u64
        ensures value { result ≡ self.now.count }
        ensures bound { result ≤ 2 ^ 60 }
    {
        self.count
    }

    /// The context.
    pub fn context(&self) -> Ctx
        ensures { result ≡ self.now.context }
    {
        self.context
    }

    /// The origin.
    pub fn origin(&self) -> &Arc<Origin<A>, A>
        ensures { arc_value result.now ≡ self.now.origin }
    {
        &self.origin
    }

    /// A copy of the state. C3 is the only refusal.
    pub fn hart(&self, alloc: A) -> Result<Hart<A>, MarkFault>
        ensures ok { IfOk result (λ hart. state_of self.now ≡ Some hart) }
        ensures err { OnErr result (result ≡ Err MarkFault.OutOfMemory) }
    {
        match self.hart.try_clone(alloc) {
            Ok(copy) => Ok(copy),
            Err(_) => Err(MarkFault::OutOfMemory),
        }
    }

    /// The state.
    pub fn state(&self) -> &Hart<A>
        ensures { state_of self.now ≡ Some result.now }
    {
        &self.hart
    }

    /// Whether the origins have the same contents.
    pub fn same_origin(&self, other: &Mark<A>) -> bool
        ensures { IsTrue result ↔ (self.now.origin ≡ other.now.origin) }
    {
        self.origin.same(&other.origin)
    }

    /// Goes on by `n` instructions, or as many as there are before a stop, and says how many and why it stopped.
    /// C3 is the only refusal, before any step.
    pub fn advance(&mut self, n: u64) -> Result<(u64, Option<Stop>), MarkFault>
        requires { self.old.count + n ≤ 2 ^ 60 }
        ensures ok { IfOk result (λ ran. Advances n self.old ran.0 ran.1 self.new) }
        ensures furthest { IfOk result (λ _. self.old.count ≡ 0 → IsFurthest self.old.origin self.old.context n self.new) }
        ensures err { IfErr result (λ fault. (fault ≡ MarkFault.OutOfMemory) × (self.new ≡ self.old)) }
    {
        Ok(self.run(n))
    }

    /// The further of two marks of one origin and context. Else both are handed back, with C1 where the origins
    /// differ, and with C2 where they agree and the contexts differ.
    pub fn try_join(self, other: Mark<A>) -> Result<Mark<A>, (Mark<A>, Mark<A>, MarkFault)>
        ensures joined { IfOk result (λ mark. MarkKin self other × (mark ≡ further self other)) }
        ensures furthest { IfOk result (λ mark. (origin : OriginValue) (context n m : ℕ) →
            IsFurthest origin context n self → IsFurthest origin context m other →
            IsFurthest origin context (max n m) mark) }
        ensures refused { IfErr result (λ back. (back.0 ≡ self) × (back.1 ≡ other) × IsUnjoinable self other back.2) }
    {
        match self.unjoinable(&other) {
            Some(fault) => Err((self, other, fault)),
            None => Ok(self.join(other)),
        }
    }
}

// The state of a context at its start.
fn start_state<A: Allocator>(
    alloc: A,
    origin: &Origin<A>,
    context: Ctx,
) -> Result<Hart<A>, MarkFault>
    ensures ok { IfOk result (λ hart. hart ≡ start origin.now context) }
    ensures err { OnErr result (result ≡ Err MarkFault.OutOfMemory) }
{
    match origin.hart(alloc, context) {
        Ok(hart) => Ok(hart),
        Err(_) => Err(MarkFault::OutOfMemory),
    }
}

/// Marks of one origin and context join to the further. At equal counts the two are equal, so either may be kept.
impl<A: Allocator> Join for Mark<A> {
    ghost is_kin = { MarkKin };

    ghost joined = { further };

    ghost laws = { mark_laws };

    fn kin(&self, other: &Mark<A>) -> bool {
        self.same_origin(other) && self.same_context(other)
    }

    fn join(self, other: Mark<A>) -> Mark<A> {
        if self.is_behind(&other) { other } else { self }
    }
}
