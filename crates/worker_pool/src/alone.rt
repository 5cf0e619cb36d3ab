//! Jobs run by one worker.
ghost use Rattle.std.specs.Prelude.{◌≡◌, ℕ, All, IfOk, vec_len};
ghost use Rattle.worker_pool.specs.Numbers.{numbers, jobs_of};
ghost use Rattle.worker_pool.specs.Results.{IsTotal};
ghost use Rattle.worker_pool.specs.Seats.{HasRoom, AreNewRuns};

use crate::collect::{Sum, added};
use crate::gate::Gate;
use crate::log::Log;
use crate::turn::Turn;
use crate::work::Work;
use crate::worker::run_each;
use join_law::Join;
use std::alloc::{AllocError, Global};
use std::sync::Wait;

/// Runs the jobs in their order on the calling thread.
pub(crate) fn run_alone<J: Join, W: Work<J>, G: Gate, R: Wait>(
    rt: &R,
    alloc: Global,
    jobs: usize,
    opening: J,
    work: &W,
    seats: Vec<W::Seat>,
    gate: &G,
) -> Result<Sum<W::Seat, J, W::Note>, AllocError>
where
    W::Seat: Drop,
    W::Note: Drop,
    requires one { vec_len seats ≡ 1 }
    requires seats { All (HasRoom (W.is_own work.now) W.room jobs) seats.items }
    requires kin { (k : ℕ) (r : J) → W.gives work.now k r → J.is_kin opening r }
    ensures own { IfOk result (λ s. All (W.is_own work.now) s.seats.items) }
    ensures runs { IfOk result (λ s. AreNewRuns W.runs seats.items s.seats.items s.ends.items) }
    ensures jobs { IfOk result (λ s. jobs_of s.ends.items ≡ numbers 0 jobs) }
    ensures total { IfOk result (λ s. IsTotal (W.gives work.now) J.is_kin J.joined opening s.ends.items s.total) }
{
    let mut seats = seats;
    let seat = seats.pop().unwrap();
    let log = Log {
        ends: Vec::new(alloc),
        total: None,
    };
    let all = all_jobs(alloc, jobs)?;
    let turn = run_each(rt, work, gate, all, Turn { seat, log })?;
    let Turn { seat, log } = turn;
    let Log { ends, total } = log;
    seats.push_reserved(seat);
    let total = added(work, opening, total);
    Ok(Sum { seats, ends, total })
}

// The jobs from 0 on.
fn all_jobs(alloc: Global, jobs: usize) -> Result<Vec<usize>, AllocError>
    ensures { IfOk result (λ v. v.items ≡ numbers 0 jobs) }
{
    let mut all = Vec::with_capacity(alloc, jobs)?;
    for job in 0..jobs {
        all.push_reserved(job);
    }
    Ok(all)
}
