//! Jobs run by 1 to 64 workers.
ghost use Rattle.std.specs.Prelude.{◌≡◌, ◌<◌, ◌≤◌, ◌⊎◌, ◌↔◌, ℕ, All, IfOk, IfErr, vec_len};
ghost use Rattle.worker_pool.specs.declared.fault.PoolFault.TheVariants.{Workers};
ghost use Rattle.worker_pool.specs.Seats.{HasRoom};
ghost use Rattle.worker_pool.specs.Done.{IsDone};

use crate::PoolFault;
use crate::alone::run_alone;
use crate::collect::Sum;
use crate::done::Done;
use crate::gate::Gate;
use crate::order::{in_order, only_ends};
use crate::shared::run_shared;
use crate::work::Work;
use join_law::Join;
use std::alloc::{AllocError, Global};
use std::sync::Wait;
use std::thread::Threads;

/// Runs the jobs from 0 on by so many workers, each with a seat, and joins the opening and all results.
///
/// # Errors
/// E1, where memory was refused to what shares the jobs, and E2, where there are fewer workers than 1 or more than 64. No seat is given back; with E2 no job was run.
pub fn run_all<J: Join + Send, W: Work<J> + Sync, G: Gate + Sync, R: Threads + Wait + Sync>(
    rt: &R,
    alloc: Global,
    jobs: usize,
    workers: usize,
    opening: J,
    work: &W,
    seats: Vec<W::Seat>,
    gate: &G,
) -> Result<Done<W::Seat, J, W::Note>, PoolFault>
where
    W::Seat: Drop + Send,
    W::Note: Drop + Send,
    requires jobs { jobs ≤ 4096 }
    requires many { vec_len seats ≡ workers }
    requires seats { All (HasRoom (W.is_own work.now) W.room jobs) seats.items }
    requires kin { (k : ℕ) (r : J) → W.gives work.now k r → J.is_kin opening r }
    ensures workers { IfOk result (λ _. (0 < workers) × (workers ≤ 64)) }
    ensures fault { IfErr result (λ e. (e ≡ Workers) ↔ ((workers ≡ 0) ⊎ (64 < workers))) }
    ensures own { IfOk result (λ d. All (W.is_own work.now) d.seats.items) }
    ensures done { IfOk result (λ d. IsDone W.runs (W.gives work.now) J.is_kin J.joined jobs workers seats.items opening d) }
{
    if workers == 0 || workers > 64 {
        return Err(PoolFault::Workers);
    }
    match run(rt, alloc, jobs, workers, opening, work, seats, gate) {
        Ok(done) => Ok(done),
        Err(_) => Err(PoolFault::OutOfMemory),
    }
}

// Runs the jobs by 1 to 64 workers.
fn run<J: Join + Send, W: Work<J> + Sync, G: Gate + Sync, R: Threads + Wait + Sync>(
    rt: &R,
    alloc: Global,
    jobs: usize,
    workers: usize,
    opening: J,
    work: &W,
    seats: Vec<W::Seat>,
    gate: &G,
) -> Result<Done<W::Seat, J, W::Note>, AllocError>
where
    W::Seat: Drop + Send,
    W::Note: Drop + Send,
    requires jobs { jobs ≤ 4096 }
    requires workers { (0 < workers) × (workers ≤ 64) }
    requires many { vec_len seats ≡ workers }
    requires seats { All (HasRoom (W.is_own work.now) W.room jobs) seats.items }
    requires kin { (k : ℕ) (r : J) → W.gives work.now k r → J.is_kin opening r }
    ensures own { IfOk result (λ d. All (W.is_own work.now) d.seats.items) }
    ensures done { IfOk result (λ d. IsDone W.runs (W.gives work.now) J.is_kin J.joined jobs workers seats.items opening d) }
{
    if workers == 1 {
        let sum = run_alone(rt, alloc, jobs, opening, work, seats, gate)?;
        let Sum { seats, ends, total } = sum;
        let ends = only_ends(alloc, jobs, ends)?;
        Ok(Done { total, ends, seats })
    } else {
        let sum = run_shared(rt, alloc, jobs, workers, opening, work, seats, gate)?;
        let Sum { seats, ends, total } = sum;
        let ends = in_order(alloc, jobs, ends)?;
        Ok(Done { total, ends, seats })
    }
}
