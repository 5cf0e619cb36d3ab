//! A worker at its jobs.

use crate::log::Log;
use crate::supply::Supply;

/// A seat, what jobs are taken from, the log so far, and whether memory for the log was refused.
#[derive(Drop)]
pub struct Shift<S: Drop, J: Drop, N: Drop> {
    pub(crate) seat: S,
    pub(crate) supply: Supply,
    pub(crate) log: Log<J, N>,
    pub(crate) refused: bool,
}
