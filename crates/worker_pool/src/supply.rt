//! What a worker takes jobs from.
ghost use Rattle.std.specs.Prelude.{◌≡◌, ◌<◌, length};
ghost use Rattle.crossbeam_deque.specs.Handles.{worker_flavor};
ghost use Rattle.worker_pool.specs.Owners.{parts};

use crate::owner::{Owner, take_first};
use crate::row::steal_one;
use crate::thief::Thief;
use std::sync::Wait;

/// The owner of a worker's own deque, a thief for each deque, and the own deque's place among them.
#[derive(Drop)]
pub struct Supply {
    pub(crate) owner: Owner,
    pub(crate) row: Vec<Thief>,
    pub(crate) own: usize,
    ghost fifo: { worker_flavor owner ≡ 0 },
    ghost part: { 0 < parts owner },
    ghost place: { own < length row.items },
}

impl Supply {
    ghost use Rattle.std.specs.Prelude.{◌≡◌, ◌+◌, ℕ};
    ghost use Rattle.worker_pool.specs.Weights.{weight_of};
    ghost use Rattle.worker_pool.specs.Supplies.{SameDeques, taken_from};

    /// A job of the worker's own deque, or else of another's. There is none where each deque was found empty.
    pub fn find_job<R: Wait>(&mut self, rt: &R) -> Option<usize>
        ensures same { SameDeques self.old self.new }
        ensures taken { (h : ℕ → ℕ) → taken_from h self.new ≡ taken_from h self.old + weight_of h result }
    {
        match take_first(&mut self.owner) {
            Some(job) => Some(job),
            None => steal_one(rt, &mut self.row, self.own),
        }
    }
}
