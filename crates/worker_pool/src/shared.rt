//! Jobs shared by several workers.
ghost use Rattle.std.specs.Prelude.{◌≡◌, ◌<◌, ◌≤◌, ℕ, All, IfOk, vec_len};
ghost use Rattle.std.specs.List.{sum_by};
ghost use Rattle.worker_pool.specs.Numbers.{numbers, ended};
ghost use Rattle.worker_pool.specs.Results.{AllResultsKin, IsTotal};
ghost use Rattle.worker_pool.specs.Seats.{HasRoom, AreNewRuns};

use crate::collect::{Sum, collect};
use crate::crew::{kits, run_kits};
use crate::deal::deal;
use crate::drain::drain;
use crate::gate::Gate;
use crate::gather::{Gathered, gather};
use crate::rows::{absorb_rows, cut_rows};
use crate::work::Work;
use join_law::Join;
use std::alloc::{AllocError, Global};
use std::sync::Wait;
use std::thread::Threads;

/// Deals the jobs to the workers' deques, and runs each worker in a thread, where one can be made.
pub(crate) fn run_shared<
    J: Join + Send,
    W: Work<J> + Sync,
    G: Gate + Sync,
    R: Threads + Wait + Sync,
>(
    rt: &R,
    alloc: Global,
    jobs: usize,
    workers: usize,
    opening: J,
    work: &W,
    seats: Vec<W::Seat>,
    gate: &G,
) -> Result<Sum<W::Seat, J, W::Note>, AllocError>
where
    W::Seat: Drop + Send,
    W::Note: Drop + Send,
    requires jobs { jobs ≤ 4096 }
    requires workers { (0 < workers) × (workers ≤ 64) }
    requires many { vec_len seats ≡ workers }
    requires seats { All (HasRoom (W.is_own work.now) W.room jobs) seats.items }
    requires kin { (k : ℕ) (r : J) → W.gives work.now k r → J.is_kin opening r }
    ensures own { IfOk result (λ s. All (W.is_own work.now) s.seats.items) }
    ensures runs { IfOk result (λ s. AreNewRuns W.runs seats.items s.seats.items s.ends.items) }
    ensures jobs { IfOk result (λ s. (h : ℕ → ℕ) → ended h s.ends.items ≡ sum_by h (numbers 0 jobs)) }
    ensures total { IfOk result (λ s. IsTotal (W.gives work.now) J.is_kin J.joined opening s.ends.items s.total) }
{
    know_kin(work, &opening);
    let mut owners = deal(alloc, jobs, workers)?;
    let rows = cut_rows(alloc, &mut owners, workers)?;
    let kits = kits(alloc, owners, rows, seats)?;
    let shifts = run_kits(rt, alloc, work, gate, jobs, kits)?;
    let gathered = gather(alloc, shifts)?;
    let Gathered {
        mut owners,
        rows,
        turns,
    } = gathered;
    absorb_rows(&mut owners, rows);
    let left = drain(rt, alloc, owners)?;
    collect(rt, alloc, work, gate, jobs, opening, left, turns)
}

// Results that are kin to the opening are kin.
fn know_kin<J: Join, W: Work<J>>(_work: &W, _opening: &J)
    requires { (k : ℕ) (r : J) → W.gives _work.now k r → J.is_kin _opening.now r }
    ensures { AllResultsKin (W.gives _work.now) J.is_kin }
{}
