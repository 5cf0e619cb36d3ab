//! Rows of thieves, cut off from the owners and absorbed again.
ghost use Rattle.std.specs.Prelude.{◌≡◌, ◌+◌, ◌-◌, ◌<◌, ◌≤◌, ℕ, suc, [], All, IfOk, length, vec_len};
ghost use Rattle.std.specs.List.{sum_by};
ghost use Rattle.crossbeam_deque.specs.Handles.{view, worker_deque, worker_view, worker_flavor, stealer_deque};
ghost use Rattle.worker_pool.specs.Rule.{whole, hand, both};
ghost use Rattle.worker_pool.specs.Thieves.{taken_in, deques_of, IsRowOf, IsNewRow, taken_in_rows};
ghost use Rattle.worker_pool.specs.Owners.{IsOwner, dealt_in, taken_by, owned, parts};

use crate::owner::Owner;
use crate::rule::{Parting, Together};
use crate::thief::Thief;
use std::alloc::{AllocError, Global};

// Cuts a thief off.
fn cut_one(owner: &mut Owner) -> Result<Thief, AllocError>
    requires { 1 < parts owner.old }
    ensures deque { IfOk result (λ t. stealer_deque t.stealer ≡ worker_deque owner.old) }
    ensures none { IfOk result (λ t. (view t.pass).taken ≡ []) }
    ensures same { (worker_deque owner.new ≡ worker_deque owner.old) × (worker_flavor owner.new ≡ worker_flavor owner.old) }
    ensures jobs { ((worker_view owner.new).dealt ≡ (worker_view owner.old).dealt) × ((worker_view owner.new).taken ≡ (worker_view owner.old).taken) }
    ensures part { IfOk result (λ t. parts owner.new + 1 ≡ parts owner.old) }
{
    let stealer = owner.stealer()?;
    let pass = owner.another::<Parting>();
    Ok(Thief { stealer, pass })
}

// Cuts a thief off from each owner.
fn cut_row(alloc: Global, owners: &mut Vec<Owner>) -> Result<Vec<Thief>, AllocError>
    requires { (p : ℕ) × (0 < p) × All (IsOwner (suc p)) owners.old.items }
    ensures row { IfOk result (λ row. deques_of row.items ≡ owned owners.old.items) }
    ensures none { IfOk result (λ row. (h : ℕ → ℕ) → taken_in h row.items ≡ 0) }
    ensures same { IfOk result (λ row. owned owners.new.items ≡ owned owners.old.items) }
    ensures jobs { IfOk result (λ row. (h : ℕ → ℕ) → (dealt_in h owners.new.items ≡ dealt_in h owners.old.items) × (taken_by h owners.new.items ≡ taken_by h owners.old.items)) }
    ensures parts { IfOk result (λ row. (p : ℕ) → All (IsOwner (suc p)) owners.old.items → All (IsOwner p) owners.new.items) }
{
    let mut row = Vec::with_capacity(alloc, owners.len())?;
    let mut next = 0;
    while next < owners.len() {
        let thief = cut_one(&mut owners[next])?;
        row.push_reserved(thief);
        next += 1;
    }
    Ok(row)
}

// Absorbs a thief.
fn absorb_one(owner: &mut Owner, thief: Thief)
    requires own { stealer_deque thief.stealer ≡ worker_deque owner.old }
    requires part { 0 < parts owner.old }
    ensures same { (worker_deque owner.new ≡ worker_deque owner.old) × (worker_flavor owner.new ≡ worker_flavor owner.old) }
    ensures dealt { (h : ℕ → ℕ) → sum_by h (worker_view owner.new).dealt ≡ sum_by h (worker_view owner.old).dealt }
    ensures taken { (h : ℕ → ℕ) → sum_by h (worker_view owner.new).taken ≡ sum_by h (worker_view owner.old).taken + sum_by h (view thief.pass).taken }
    ensures part { parts owner.new ≡ parts owner.old + 1 }
{
    let Thief { stealer: _, pass } = thief;
    owner.absorb::<Together>(pass);
}

// Absorbs each owner's thief.
fn absorb_row(owners: &mut Vec<Owner>, row: Vec<Thief>)
    requires row { deques_of row.items ≡ owned owners.old.items }
    requires part { (p : ℕ) × (0 < p) × All (IsOwner p) owners.old.items }
    ensures same { owned owners.new.items ≡ owned owners.old.items }
    ensures dealt { (h : ℕ → ℕ) → dealt_in h owners.new.items ≡ dealt_in h owners.old.items }
    ensures taken { (h : ℕ → ℕ) → taken_by h owners.new.items ≡ taken_by h owners.old.items + taken_in h row.items }
    ensures parts { (p : ℕ) → All (IsOwner p) owners.old.items → All (IsOwner (suc p)) owners.new.items }
{
    let mut next = 0;
    for thief in row {
        absorb_one(&mut owners[next], thief);
        next += 1;
    }
}

/// Cuts so many rows off, each of which has a thief for each owner.
pub(crate) fn cut_rows(
    alloc: Global,
    owners: &mut Vec<Owner>,
    many: usize,
) -> Result<Vec<Vec<Thief>>, AllocError>
    requires few { many ≤ 64 }
    requires owners { All (IsOwner whole) owners.old.items }
    ensures many { IfOk result (λ v. vec_len v ≡ many) }
    ensures rows { IfOk result (λ v. All (IsNewRow (owned owners.old.items)) v.items) }
    ensures same { IfOk result (λ v. owned owners.new.items ≡ owned owners.old.items) }
    ensures jobs { IfOk result (λ v. (h : ℕ → ℕ) → (dealt_in h owners.new.items ≡ dealt_in h owners.old.items) × (taken_by h owners.new.items ≡ taken_by h owners.old.items)) }
    ensures parts { IfOk result (λ v. All (IsOwner (whole - many)) owners.new.items) }
{
    let mut rows = Vec::with_capacity(alloc, many)?;
    for _ in 0..many {
        let row = cut_row(alloc, owners)?;
        rows.push_reserved(row);
    }
    Ok(rows)
}

/// Absorbs all rows.
pub(crate) fn absorb_rows(owners: &mut Vec<Owner>, rows: Vec<Vec<Thief>>)
    requires rows { All (IsRowOf (owned owners.old.items)) rows.items }
    requires few { vec_len rows < whole }
    requires parts { All (IsOwner (whole - vec_len rows)) owners.old.items }
    ensures dealt { (h : ℕ → ℕ) → dealt_in h owners.new.items ≡ dealt_in h owners.old.items }
    ensures taken { (h : ℕ → ℕ) → taken_by h owners.new.items ≡ taken_by h owners.old.items + taken_in_rows h rows.items }
    ensures parts { All (IsOwner whole) owners.new.items }
{
    for row in rows {
        absorb_row(owners, row);
    }
}
