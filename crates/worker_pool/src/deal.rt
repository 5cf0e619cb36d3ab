//! Jobs dealt to deques.
ghost use Rattle.std.specs.Prelude.{◌≡◌, ◌<◌, ◌≤◌, ℕ, All, IfOk, vec_len};
ghost use Rattle.std.specs.List.{sum_by};
ghost use Rattle.worker_pool.specs.Numbers.{numbers};
ghost use Rattle.worker_pool.specs.Owners.{IsOwner, dealt_in, taken_by};
ghost use Rattle.worker_pool.specs.Rule.{whole};

use crate::owner::{Owner, deal_one};
use std::alloc::{AllocError, Global};

/// So many deques, to which the jobs are dealt in turn.
pub(crate) fn deal(alloc: Global, jobs: usize, workers: usize) -> Result<Vec<Owner>, AllocError>
    requires workers { 0 < workers }
    requires jobs { jobs ≤ 4096 }
    ensures len { IfOk result (λ v. vec_len v ≡ workers) }
    ensures owners { IfOk result (λ v. All (IsOwner whole) v.items) }
    ensures dealt { IfOk result (λ v. (h : ℕ → ℕ) → dealt_in h v.items ≡ sum_by h (numbers 0 jobs)) }
    ensures taken { IfOk result (λ v. (h : ℕ → ℕ) → taken_by h v.items ≡ 0) }
{
    let mut owners = owners(alloc, workers, jobs / workers + 1)?;
    for job in 0..jobs {
        deal_one(&mut owners[job % workers], job)?;
    }
    Ok(owners)
}

// So many deques that hold nothing.
fn owners(alloc: Global, workers: usize, capacity: usize) -> Result<Vec<Owner>, AllocError>
    ensures len { IfOk result (λ v. vec_len v ≡ workers) }
    ensures owners { IfOk result (λ v. All (IsOwner whole) v.items) }
    ensures dealt { IfOk result (λ v. (h : ℕ → ℕ) → dealt_in h v.items ≡ 0) }
    ensures taken { IfOk result (λ v. (h : ℕ → ℕ) → taken_by h v.items ≡ 0) }
{
    let mut owners = Vec::with_capacity(alloc, workers)?;
    for _ in 0..workers {
        let owner = Owner::fifo_as(alloc, capacity)?;
        owners.push_reserved(owner);
    }
    Ok(owners)
}
