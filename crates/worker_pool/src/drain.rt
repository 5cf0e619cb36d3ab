//! What is left on the deques once all workers ended.
ghost use Rattle.std.specs.Prelude.{◌≡◌, ◌+◌, ℕ, All, IfOk};
ghost use Rattle.std.specs.List.{sum_by};
ghost use Rattle.crossbeam_deque.specs.Handles.{worker_view};
ghost use Rattle.worker_pool.specs.Owners.{IsOwner, dealt_in, taken_by};
ghost use Rattle.worker_pool.specs.Rule.{whole};

use crate::owner::{Owner, take_first};
use std::alloc::{AllocError, Global};
use std::sync::Wait;

/// The jobs that nobody took.
pub(crate) fn drain<R: Wait>(
    rt: &R,
    alloc: Global,
    owners: Vec<Owner>,
) -> Result<Vec<usize>, AllocError>
    requires { All (IsOwner whole) owners.items }
    ensures { IfOk result (λ v. (h : ℕ → ℕ) → sum_by h v.items + taken_by h owners.items ≡ dealt_in h owners.items) }
{
    let mut left = Vec::new(alloc);
    for owner in owners {
        left = drain_one(rt, owner, left)?;
    }
    Ok(left)
}

// Takes what is left on a deque.
fn drain_one<R: Wait>(rt: &R, owner: Owner, left: Vec<usize>) -> Result<Vec<usize>, AllocError>
    requires { IsOwner whole owner }
    ensures { IfOk result (λ v. (h : ℕ → ℕ) → sum_by h v.items + sum_by h (worker_view owner).taken ≡ sum_by h left.items + sum_by h (worker_view owner).dealt) }
{
    let mut owner = owner;
    let mut left = left;
    for _ in rt.forever() {
        left.reserve(1)?;
        match take_first(&mut owner) {
            None => return Ok(left),
            Some(job) => left.push_reserved(job),
        }
    }
    unreachable!()
}
