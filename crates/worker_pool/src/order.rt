//! The ends of all jobs, in order of job.
ghost use Rattle.std.specs.Prelude.{◌≡◌, ℕ, Option, IfOk, vec_len};
ghost use Rattle.std.specs.List.{sum_by};
ghost use Rattle.worker_pool.specs.Numbers.{numbers, ended, jobs_of, numbered};

use std::alloc::{AllocError, Global};

/// The ends of the jobs from 0 on, each of which is there once.
pub(crate) fn in_order<N: Drop>(
    alloc: Global,
    jobs: usize,
    ends: Vec<(usize, Option<N>)>,
) -> Result<Vec<Option<N>>, AllocError>
    requires { (h : ℕ → ℕ) → ended h ends.items ≡ sum_by h (numbers 0 jobs) }
    ensures many { IfOk result (λ v. vec_len v ≡ jobs) }
    ensures each_once { IfOk result (λ v. (w : ℕ × Option N → ℕ) → sum_by w ends.items ≡ sum_by w (numbered 0 v.items)) }
{
    let mut ends = ends;
    ends.sort_unstable_by_key(|end| end.0);
    only_ends(alloc, jobs, ends)
}

/// The ends without their jobs, which are those from 0 on.
pub(crate) fn only_ends<N: Drop>(
    alloc: Global,
    jobs: usize,
    ends: Vec<(usize, Option<N>)>,
) -> Result<Vec<Option<N>>, AllocError>
    requires { jobs_of ends.items ≡ numbers 0 jobs }
    ensures many { IfOk result (λ v. vec_len v ≡ jobs) }
    ensures ends { IfOk result (λ v. numbered 0 v.items ≡ ends.items) }
{
    let mut only = Vec::with_capacity(alloc, jobs)?;
    for end in ends {
        let (_, end) = end;
        only.push_reserved(end);
    }
    Ok(only)
}
