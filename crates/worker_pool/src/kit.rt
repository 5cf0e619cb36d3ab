//! What a worker begins with.

use crate::supply::Supply;

/// A seat, and what jobs are taken from.
#[derive(Drop)]
pub struct Kit<S: Drop> {
    pub(crate) seat: S,
    pub(crate) supply: Supply,
}
