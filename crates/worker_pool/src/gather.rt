//! What the workers left.
ghost use Rattle.std.specs.Prelude.{◌≡◌, IfOk};
ghost use Rattle.worker_pool.specs.Shifts.{owners_in, rows_in, turns_of};

use crate::owner::Owner;
use crate::shift::Shift;
use crate::supply::Supply;
use crate::thief::Thief;
use crate::turn::Turn;
use std::alloc::{AllocError, Global};

/// The owners, the rows and the turns of all workers.
#[derive(Drop)]
pub(crate) struct Gathered<S: Drop, J: Drop, N: Drop> {
    pub(crate) owners: Vec<Owner>,
    pub(crate) rows: Vec<Vec<Thief>>,
    pub(crate) turns: Vec<Turn<S, J, N>>,
}

/// Takes what the workers left apart. At `Err` memory was refused, here or to a worker.
pub(crate) fn gather<S: Drop, J: Drop, N: Drop>(
    alloc: Global,
    shifts: Vec<Shift<S, J, N>>,
) -> Result<Gathered<S, J, N>, AllocError>
    ensures owners { IfOk result (λ g. g.owners.items ≡ owners_in shifts.items) }
    ensures rows { IfOk result (λ g. g.rows.items ≡ rows_in shifts.items) }
    ensures turns { IfOk result (λ g. g.turns.items ≡ turns_of shifts.items) }
{
    let mut owners = Vec::with_capacity(alloc, shifts.len())?;
    let mut rows = Vec::with_capacity(alloc, shifts.len())?;
    let mut turns = Vec::with_capacity(alloc, shifts.len())?;
    for shift in shifts {
        if shift.refused {
            return Err(AllocError);
        }
        let Shift {
            seat,
            supply,
            log,
            refused: _,
        } = shift;
        let Supply { owner, row, own: _ } = supply;
        owners.push_reserved(owner);
        rows.push_reserved(row);
        turns.push_reserved(Turn { seat, log });
    }
    Ok(Gathered {
        owners,
        rows,
        turns,
    })
}
