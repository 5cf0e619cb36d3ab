//! A book, its passes, and what it leaves.
ghost use Rattle.std.specs.Prelude.{◌≡◌, ◌<◌, ℕ};
ghost use Rattle.join_law.specs.Eight.{place_of};
ghost use Rattle.checkpoint_book.specs.Locks.{HavePasses, AreAligned};

use crate::{Call, Lock, Seat};
use checkpoint::Shared;
use join_law::Eight;

/// For each context the furthest mark and the history of the calls that led to it, each under a lock of its own.
#[derive(Drop)]
pub struct Book {
    pub(crate) locks: Eight<Lock>,
    pub(crate) passes: usize,
    ghost counted: { HavePasses passes locks },
    ghost aligned: { AreAligned locks },
}

/// The right of one worker to merge and read marks. A contract sees its number and, at each context, its calls.
#[derive(Drop)]
pub struct Pass {
    pub(crate) number: u64,
    pub(crate) seats: Eight<Seat>,
}

/// What a closed book leaves: at each context the mark and the history.
#[derive(Drop)]
pub struct Closed {
    pub marks: Eight<Shared>,
    pub histories: Eight<Vec<Call>>,
}
