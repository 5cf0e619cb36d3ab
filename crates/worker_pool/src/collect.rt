//! What all workers did, put together.
ghost use Rattle.std.specs.Prelude.{◌≡◌, ◌+◌, ◌++◌, ◌<◌, ℕ, List, All, IfOk, Option, vec_len};
ghost use Rattle.std.specs.List.{sum_by};
ghost use Rattle.join_law.specs.JoinOf.{IsJoinOf};
ghost use Rattle.worker_pool.specs.declared.turn.Turn.{Turn};
ghost use Rattle.worker_pool.specs.Numbers.{numbers, ended};
ghost use Rattle.worker_pool.specs.Results.{AllResultsKin, IsSumOf, IsTotal};
ghost use Rattle.worker_pool.specs.Logs.{IsLogOf};
ghost use Rattle.worker_pool.specs.Turns.{turns_ended, Each, IsTurn};
ghost use Rattle.worker_pool.specs.Seats.{AreNewRuns};

use crate::gate::Gate;
use crate::log::Log;
use crate::turn::Turn;
use crate::work::Work;
use crate::worker::run_each;
use join_law::Join;
use std::alloc::{AllocError, Global};
use std::sync::Wait;

/// The seats, the ends in the order of the seats, and the join of the opening and all results.
#[derive(Drop)]
pub(crate) struct Sum<S: Drop, J: Drop, N: Drop> {
    pub(crate) seats: Vec<S>,
    pub(crate) ends: Vec<(usize, Option<N>)>,
    pub(crate) total: J,
}

/// A total and the join of more results.
pub(crate) fn added<J: Join, W: Work<J>>(_work: &W, total: J, sum: Option<J>) -> J
    requires kin { (k : ℕ) (r : J) → W.gives _work.now k r → J.is_kin total r }
    requires sum { (rs : List J) × IsSumOf (W.gives _work.now) J.is_kin J.joined rs sum }
    ensures kin { (k : ℕ) (r : J) → W.gives _work.now k r → J.is_kin result r }
    ensures join { (before rs : List J) → IsJoinOf J.is_kin J.joined before total → IsSumOf (W.gives _work.now) J.is_kin J.joined rs sum → IsJoinOf J.is_kin J.joined (before ++ rs) result }
{
    match sum {
        None => total,
        Some(sum) => total.join(sum),
    }
}

/// Runs the jobs that are left, and puts all turns together.
pub(crate) fn collect<J: Join, W: Work<J>, G: Gate, R: Wait>(
    rt: &R,
    alloc: Global,
    work: &W,
    gate: &G,
    jobs: usize,
    opening: J,
    left: Vec<usize>,
    turns: Vec<Turn<W::Seat, J, W::Note>>,
) -> Result<Sum<W::Seat, J, W::Note>, AllocError>
where
    W::Seat: Drop,
    W::Note: Drop,
    requires some { 0 < vec_len turns }
    requires turns { All (IsTurn (W.is_own work.now) W.room (W.gives work.now) J.is_kin J.joined jobs) turns.items }
    requires jobs { (h : ℕ → ℕ) → turns_ended h turns.items + sum_by h left.items ≡ sum_by h (numbers 0 jobs) }
    requires kin { AllResultsKin (W.gives work.now) J.is_kin }
    requires opening { (k : ℕ) (r : J) → W.gives work.now k r → J.is_kin opening r }
    ensures own { IfOk result (λ s. All (W.is_own work.now) s.seats.items) }
    ensures runs { IfOk result (λ s. (before : List W.Seat) → Each (λ (b : W.Seat) (t : Turn W.Seat J W.Note). IsLogOf (W.is_own work.now) W.room W.runs (W.gives work.now) J.is_kin J.joined b t.seat t.log) before turns.items → AreNewRuns W.runs before s.seats.items s.ends.items) }
    ensures jobs { IfOk result (λ s. (h : ℕ → ℕ) → ended h s.ends.items ≡ sum_by h (numbers 0 jobs)) }
    ensures total { IfOk result (λ s. IsTotal (W.gives work.now) J.is_kin J.joined opening s.ends.items s.total) }
{
    let mut seats = Vec::with_capacity(alloc, turns.len())?;
    let mut ends = Vec::with_capacity(alloc, jobs)?;
    let mut total = opening;
    let mut left = left;
    for turn in turns {
        let ran = run_each(rt, work, gate, left, turn)?;
        left = Vec::new(alloc);
        let Turn { seat, log } = ran;
        let Log {
            ends: mut more,
            total: sum,
        } = log;
        ends.append(&mut more)?;
        total = added(work, total, sum);
        seats.push_reserved(seat);
    }
    Ok(Sum { seats, ends, total })
}
