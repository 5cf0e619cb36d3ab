//! What a seat knows, and what a lock is made with. No value of `Known` is made.
use crate::Call;
use checkpoint::Shared;
use std::collections::LinkedList;
use std::snapshot::Snapshot;

/// The opening mark, the passes that the seat stands for, each with its calls, and while it holds the page the history that
/// it found there.
pub struct Known {
    pub opening: Shared,
    pub passes: LinkedList<(u64, LinkedList<Call>)>,
    pub holds: bool,
    pub found: LinkedList<Call>,
}

/// The opening mark, and the number of passes.
#[derive(Drop)]
pub struct Start {
    pub opening: Snapshot<Shared>,
    pub passes: usize,
}
