//! The owner of a deque.
ghost use Rattle.std.specs.Prelude.{◌≡◌, ◌+◌, ◌++◌, ◌∷◌, ◌<◌, ℕ, [], IfOk, MatchOption};
ghost use Rattle.std.specs.List.{sum_by};
ghost use Rattle.crossbeam_deque.specs.Handles.{worker_deque, worker_view, worker_flavor};
ghost use Rattle.worker_pool.specs.Rule.{AllTaken, hand};
ghost use Rattle.worker_pool.specs.Owners.{parts};

use crate::hand::Hand;
use crate::rule::{Deals, Draws, Fair};
use crossbeam_deque::Worker;
use std::alloc::{AllocError, Global};

/// The end of a deque that pushes jobs at the back and pops them at the front.
pub type Owner = Worker<usize, Global, Hand, Fair>;

/// Deals a job to a deque.
pub(crate) fn deal_one(owner: &mut Owner, job: usize) -> Result<(), AllocError>
    requires { 0 < parts owner.old }
    ensures same { (worker_deque owner.new ≡ worker_deque owner.old) × (worker_flavor owner.new ≡ worker_flavor owner.old) }
    ensures view { IfOk result (λ _. worker_view owner.new ≡ hand (parts owner.old) ((worker_view owner.old).dealt ++ job ∷ []) (worker_view owner.old).taken) }
{
    match owner.push_as::<Deals>(job) {
        Ok(()) => Ok(()),
        Err(_) => Err(AllocError),
    }
}

/// The first job of a deque, unless it was found empty.
pub(crate) fn take_first(owner: &mut Owner) -> Option<usize>
    requires fifo { worker_flavor owner.old ≡ 0 }
    requires part { 0 < parts owner.old }
    ensures same { (worker_deque owner.new ≡ worker_deque owner.old) × (worker_flavor owner.new ≡ worker_flavor owner.old) }
    ensures view { MatchOption result ((worker_view owner.new ≡ worker_view owner.old) × AllTaken (worker_view owner.old)) (λ job. worker_view owner.new ≡ hand (parts owner.old) (worker_view owner.old).dealt ((worker_view owner.old).taken ++ job ∷ [])) }
{
    owner.pop_as::<Draws>()
}
