//! Kits for workers, and workers in threads.
ghost use Rattle.std.specs.Prelude.{◌≡◌, ◌<◌, ℕ, All, IfOk, length, vec_len, slice_index_or};
ghost use Rattle.worker_pool.specs.declared.kit.Kit.{Kit};
ghost use Rattle.worker_pool.specs.declared.shift.Shift.{Shift};
ghost use Rattle.worker_pool.specs.Owners.{IsOwner, owned};
ghost use Rattle.worker_pool.specs.Results.{AllResultsKin};
ghost use Rattle.worker_pool.specs.Kits.{IsKit, IsReady, seats_of, owners_of};
ghost use Rattle.worker_pool.specs.Shifts.{IsShiftOf};
ghost use Rattle.worker_pool.specs.Thieves.{IsNewRow};

use crate::gate::Gate;
use crate::kit::Kit;
use crate::owner::Owner;
use crate::shift::Shift;
use crate::supply::Supply;
use crate::thief::Thief;
use crate::work::Work;
use crate::worker::run_kit;
use join_law::Join;
use std::alloc::{AllocError, Global};
use std::sync::Wait;
use std::thread;
use std::thread::Threads;

/// A kit for each seat: an owner and a row.
pub(crate) fn kits<S: Drop>(
    alloc: Global,
    owners: Vec<Owner>,
    rows: Vec<Vec<Thief>>,
    seats: Vec<S>,
) -> Result<Vec<Kit<S>>, AllocError>
    requires many { (vec_len owners ≡ vec_len seats) × (vec_len rows ≡ vec_len seats) }
    requires owners { (p : ℕ) × (0 < p) × All (IsOwner p) owners.items }
    requires rows { All (IsNewRow (owned owners.items)) rows.items }
    ensures seats { IfOk result (λ v. seats_of v.items ≡ seats.items) }
    ensures owners { IfOk result (λ v. owners_of v.items ≡ owners.items) }
    ensures rows { IfOk result (λ v. All (IsKit (owned owners.items)) v.items) }
{
    let mut kits = Vec::with_capacity(alloc, seats.len())?;
    for (seat, (owner, row)) in seats.into_iter().zip(owners.into_iter().zip(rows)) {
        let own = kits.len();
        let supply = Supply { owner, row, own };
        kits.push_reserved(Kit { seat, supply });
    }
    Ok(kits)
}

/// Runs each kit in a thread of its own, where one can be made.
pub(crate) fn run_kits<J: Join + Send, W: Work<J> + Sync, G: Gate + Sync, R: Threads + Wait + Sync>(
    rt: &R,
    alloc: Global,
    work: &W,
    gate: &G,
    jobs: usize,
    kits: Vec<Kit<W::Seat>>,
) -> Result<Vec<Shift<W::Seat, J, W::Note>>, AllocError>
where
    W::Seat: Drop + Send,
    W::Note: Drop + Send,
    requires ready { All (IsReady (W.is_own work.now) W.room jobs) kits.items }
    requires kin { AllResultsKin (W.gives work.now) J.is_kin }
    ensures len { IfOk result (λ v. vec_len v ≡ vec_len kits) }
    ensures did { IfOk result (λ v. (i : ℕ) (k : Kit W.Seat) (l : Shift W.Seat J W.Note) → i < length kits.items → IsShiftOf (W.is_own work.now) W.room W.runs (W.gives work.now) J.is_kin J.joined (slice_index_or kits.items i k) (slice_index_or v.items i l)) }
{
    thread::map_vec(
        rt,
        kits,
        &|kit: Kit<W::Seat>| -> Shift<W::Seat, J, W::Note>
            requires { IsReady (W.is_own work.now) W.room jobs kit × AllResultsKin (W.gives work.now) J.is_kin }
            ensures { IsShiftOf (W.is_own work.entry.now) W.room W.runs (W.gives work.entry.now) J.is_kin J.joined kit result }
        { run_kit(rt, alloc, work, gate, jobs, kit) },
    )
}
