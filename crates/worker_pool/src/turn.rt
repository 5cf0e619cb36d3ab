//! What is left of a worker.

use crate::log::Log;

/// A seat, and the log of the jobs that were run with it.
#[derive(Drop)]
pub struct Turn<S: Drop, J: Drop, N: Drop> {
    pub(crate) seat: S,
    pub(crate) log: Log<J, N>,
}
