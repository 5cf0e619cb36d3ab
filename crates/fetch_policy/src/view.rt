//! What fetch sees of a core.

use join_law::Eight;

/// What fetch sees of a context, before any fetch of the cycle.
#[derive(Clone, Copy, Debug, PartialEq, Eq, Drop)]
pub struct FetchContext {
    /// Whether the context may fetch: it runs, doesn't wait, and its front list has room.
    pub eligible: bool,
    /// Its entries in its front list and in the issue queue.
    pub entries: u64,
    /// The guessed entries among these: conditional branches and JALRs.
    pub guessed: u64,
    /// Its loads that were issued, have not completed, and whose delay was a miss.
    pub missed_loads: u64,
    /// The place in the issue queue of its oldest entry there, counted from 0 by stamp over all contexts; none
    /// without one. Places are below 64.
    pub oldest_place: Option<u64>,
}

/// What fetch sees of a core in a cycle.
#[derive(Debug, PartialEq, Eq, Drop)]
pub struct FetchView {
    /// The number of the cycle.
    pub cycle: u64,
    /// The eight contexts.
    pub contexts: Eight<FetchContext>,
}

/// A count of a context that a key may be.
#[derive(Clone, Copy, Debug, PartialEq, Eq)]
pub enum Count {
    /// 0 for each context.
    Nothing,
    /// Its `entries`.
    Entries,
    /// Its `guessed`.
    Guessed,
    /// Its `missed_loads`.
    MissedLoads,
}
