//! A worker.
ghost use Rattle.std.specs.Prelude.{◌≡◌, ◌+◌, ◌++◌, ◌∷◌, ◌<◌, ◌≤◌, ℕ, [], List, Option, Some, IfOk, length, vec_len, vec_capacity};
ghost use Rattle.worker_pool.specs.Results.{IsSumOfEnds, IsSumOf, AllResultsKin};
ghost use Rattle.worker_pool.specs.Shifts.{IsShiftOf};
ghost use Rattle.worker_pool.specs.Logs.{IsLogOf};
ghost use Rattle.worker_pool.specs.Numbers.{ended, jobs_of};
ghost use Rattle.worker_pool.specs.declared.kit.Kit.{Kit};

use crate::gate::Gate;
use crate::kit::Kit;
use crate::log::Log;
use crate::shift::Shift;
use crate::turn::Turn;
use crate::work::Work;
use join_law::Join;
use std::alloc::{AllocError, Global};
use std::sync::Wait;

// The join of one result more.
fn summed<J: Join, W: Work<J>>(_work: &W, job: usize, total: Option<J>, value: J) -> J
    requires kin { AllResultsKin (W.gives _work.now) J.is_kin }
    requires gives { W.gives _work.now job value }
    requires so_far { (rs : List J) × IsSumOf (W.gives _work.now) J.is_kin J.joined rs total }
    ensures { (rs : List J) → IsSumOf (W.gives _work.now) J.is_kin J.joined rs total → IsSumOf (W.gives _work.now) J.is_kin J.joined (rs ++ value ∷ []) (Some result) }
{
    match total {
        None => value,
        Some(total) => total.join(value),
    }
}

/// Runs a job and logs it. The log has room.
pub(crate) fn run_one<J: Join, W: Work<J>, G: Gate, R: Wait>(
    rt: &R,
    work: &W,
    gate: &G,
    seat: &mut W::Seat,
    log: Log<J, W::Note>,
    job: usize,
) -> Log<J, W::Note>
where
    W::Note: Drop,
    requires own { W.is_own work.now seat.old }
    requires room { 0 < W.room seat.old }
    requires log_room { vec_len log.ends < vec_capacity log.ends }
    requires kin { AllResultsKin (W.gives work.now) J.is_kin }
    requires logged { IsSumOfEnds (W.gives work.now) J.is_kin J.joined log.ends.items log.total }
    ensures own { W.is_own work.now seat.new }
    ensures room { W.room seat.new + 1 ≡ W.room seat.old }
    ensures runs { (end : Option W.Note) × (W.runs seat.new ≡ W.runs seat.old ++ (job, end) ∷ []) × (result.ends.items ≡ log.ends.items ++ (job, end) ∷ []) }
    ensures logged { IsSumOfEnds (W.gives work.now) J.is_kin J.joined result.ends.items result.total }
{
    gate.enter(rt, job);
    let end = work.run(rt, seat, job);
    gate.leave(rt, job);
    let Log { mut ends, total } = log;
    match end {
        Ok((result, note)) => {
            ends.push_reserved((job, Some(note)));
            Log {
                ends,
                total: Some(summed(work, job, total, result)),
            }
        }
        Err(_) => {
            ends.push_reserved((job, None));
            Log { ends, total }
        }
    }
}

// Finds a job and runs it, and says whether it did.
fn run_next<J: Join, W: Work<J>, G: Gate, R: Wait>(
    rt: &R,
    work: &W,
    gate: &G,
    shift: Shift<W::Seat, J, W::Note>,
) -> (Shift<W::Seat, J, W::Note>, bool)
where
    W::Seat: Drop,
    W::Note: Drop,
    requires own { W.is_own work.now shift.seat }
    requires room { 0 < W.room shift.seat }
    requires kin { AllResultsKin (W.gives work.now) J.is_kin }
    requires logged { IsSumOfEnds (W.gives work.now) J.is_kin J.joined shift.log.ends.items shift.log.total }
    ensures did { (kit : Kit W.Seat) → IsShiftOf (W.is_own work.now) W.room W.runs (W.gives work.now) J.is_kin J.joined kit shift → IsShiftOf (W.is_own work.now) W.room W.runs (W.gives work.now) J.is_kin J.joined kit result.0 }
    ensures few { ended (λ _. 1) result.0.log.ends.items ≤ ended (λ _. 1) shift.log.ends.items + 1 }
{
    let mut shift = shift;
    if shift.log.ends.reserve(1).is_err() {
        shift.refused = true;
        return (shift, false);
    }
    match shift.supply.find_job(rt) {
        None => (shift, false),
        Some(job) => {
            let Shift {
                mut seat,
                supply,
                log,
                refused,
            } = shift;
            let log = run_one(rt, work, gate, &mut seat, log, job);
            let ran = Shift {
                seat,
                supply,
                log,
                refused,
            };
            (ran, true)
        }
    }
}

/// Runs jobs until each deque was found empty.
pub(crate) fn run_kit<J: Join, W: Work<J>, G: Gate, R: Wait>(
    rt: &R,
    alloc: Global,
    work: &W,
    gate: &G,
    jobs: usize,
    kit: Kit<W::Seat>,
) -> Shift<W::Seat, J, W::Note>
where
    W::Seat: Drop,
    W::Note: Drop,
    requires own { W.is_own work.now kit.seat }
    requires room { jobs ≤ W.room kit.seat }
    requires kin { AllResultsKin (W.gives work.now) J.is_kin }
    ensures { IsShiftOf (W.is_own work.now) W.room W.runs (W.gives work.now) J.is_kin J.joined kit result }
{
    let Kit { seat, supply } = kit;
    let log = Log {
        ends: Vec::new(alloc),
        total: None,
    };
    let mut shift = Shift {
        seat,
        supply,
        log,
        refused: false,
    };
    for _ in 0..jobs {
        let (next, more) = run_next(rt, work, gate, shift);
        shift = next;
        if !more {
            break;
        }
    }
    shift
}

/// Runs jobs in their order.
pub(crate) fn run_each<J: Join, W: Work<J>, G: Gate, R: Wait>(
    rt: &R,
    work: &W,
    gate: &G,
    jobs: Vec<usize>,
    turn: Turn<W::Seat, J, W::Note>,
) -> Result<Turn<W::Seat, J, W::Note>, AllocError>
where
    W::Seat: Drop,
    W::Note: Drop,
    requires own { W.is_own work.now turn.seat }
    requires room { length jobs.items ≤ W.room turn.seat }
    requires kin { AllResultsKin (W.gives work.now) J.is_kin }
    requires logged { IsSumOfEnds (W.gives work.now) J.is_kin J.joined turn.log.ends.items turn.log.total }
    ensures ran { IfOk result (λ t. (before : W.Seat) → IsLogOf (W.is_own work.now) W.room W.runs (W.gives work.now) J.is_kin J.joined before turn.seat turn.log → IsLogOf (W.is_own work.now) W.room W.runs (W.gives work.now) J.is_kin J.joined before t.seat t.log) }
    ensures own { IfOk result (λ t. W.is_own work.now t.seat) }
    ensures logged { IfOk result (λ t. IsSumOfEnds (W.gives work.now) J.is_kin J.joined t.log.ends.items t.log.total) }
    ensures jobs { IfOk result (λ t. jobs_of t.log.ends.items ≡ jobs_of turn.log.ends.items ++ jobs.items) }
{
    let Turn { mut seat, mut log } = turn;
    for job in jobs {
        log.ends.reserve(1)?;
        log = run_one(rt, work, gate, &mut seat, log, job);
    }
    Ok(Turn { seat, log })
}
