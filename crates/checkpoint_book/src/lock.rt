//! A lock and its seats.
ghost use Rattle.std.specs.Prelude.{◌≡◌};

use crate::Page;
use crate::known::{Known, Start};
use crate::rule::OneHistory;
use atomic_table::Table;
use std::alloc::Global;

/// One word, 0 exactly where the slot with the page is at home.
#[derive(Drop)]
pub struct Lock {
    pub(crate) table: Table<Option<Page>, Known, Start, OneHistory, Global>,
    ghost sized: { (table.shared.table_id.words ≡ 1) × (table.shared.table_id.slots ≡ 1) },
}

/// What a pass takes the lock by. It has no bytes.
#[derive(Drop)]
pub struct Seat {
    pub(crate) place: atomic_table::Seat<Option<Page>, Known>,
}
