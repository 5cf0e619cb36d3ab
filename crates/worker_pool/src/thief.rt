//! A thief of a deque.
ghost use Rattle.std.specs.Prelude.{◌≡◌, ◌+◌, ℕ, []};
ghost use Rattle.std.specs.List.{sum_by};
ghost use Rattle.crossbeam_deque.specs.Handles.{view, IsPassOf, stealer_deque};
ghost use Rattle.worker_pool.specs.Weights.{weight_of};

use crate::hand::Hand;
use crate::rule::{Fair, Steals};
use crossbeam_deque::{Pass, Steal, Stealer};
use std::alloc::Global;
use std::sync::Wait;

/// A stealer with its pass.
#[derive(Drop)]
pub struct Thief {
    pub(crate) stealer: Stealer<usize, Global, Hand, Fair>,
    pub(crate) pass: Pass<usize, Hand>,
    ghost own: { IsPassOf (stealer_deque stealer) pass },
    ghost part: { (view pass).parts ≡ 1 },
    ghost takes: { (view pass).dealt ≡ [] },
}

impl Thief {
    /// Steals the first job of the deque, unless it was found empty.
    pub fn steal<R: Wait>(&mut self, rt: &R) -> Option<usize>
        ensures same { stealer_deque self.new.stealer ≡ stealer_deque self.old.stealer }
        ensures taken { (h : ℕ → ℕ) → sum_by h (view self.new.pass).taken ≡ sum_by h (view self.old.pass).taken + weight_of h result }
    {
        for _ in rt.forever() {
            match self.stealer.steal_as::<Steals>(&mut self.pass) {
                Steal::Success(job) => return Some(job),
                Steal::Empty => return None,
                Steal::Retry => {}
            }
        }
        unreachable!()
    }
}
