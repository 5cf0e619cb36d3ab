//! Entries in flight.
ghost use Rattle.std.specs.Prelude.{◌≡◌};
ghost use Rattle.core_view.specs.Stages.{IsIssued, execution_of};
ghost use Rattle.core_view.specs.Flight.{GoesOnAt};
ghost use Rattle.core_view.specs.Events.{is_mispredicted as is_mispredicted_of, fetched_entry, renamed_stage, with_stage, completed_entry};
ghost use Rattle.core_view.specs.declared.entry.Stage.TheVariants.{Fetched, Queued, Issued};

use crate::decoded::Decoded;
use crate::operation::Operation;
use crate::outcome::{Outcome, Step};
use crate::progress::Progress;
use reorder_buffer::Stamped;

/// What is known of an instruction from its issue on.
#[derive(Clone, Copy, Debug, PartialEq, Eq)]
pub struct Execution {
    /// The cycle in which it completes.
    pub due: u64,
    /// Whether its delay was a miss.
    pub miss: bool,
    /// What it does.
    pub outcome: Outcome,
}

/// How far an entry has come.
#[derive(Clone, Copy, Debug, PartialEq, Eq)]
pub enum Stage {
    /// Fetched, and not yet renamed.
    Fetched,
    /// Renamed, and waiting for issue.
    Queued,
    /// Issued, and not yet due.
    Issued { execution: Execution },
    /// Completed. What stops at fetch is done as it is renamed.
    Done { execution: Execution },
}

/// An instruction or a stop at fetch, in flight.
#[derive(Clone, Copy, Debug, PartialEq, Eq)]
pub struct Entry {
    /// What stands there.
    pub operation: Decoded,
    /// Its number among all that were fetched, over all contexts.
    pub stamp: u64,
    /// Its address.
    pub pc: u64,
    /// The cycle in which it was fetched.
    pub fetched: u64,
    /// The pc at which fetch went on after it: a guess until it is done.
    pub followed: u64,
    /// How far it has come.
    pub stage: Progress,
}

impl Entry {
    /// An entry as it is fetched in a cycle.
    #[inline]
    pub fn new(stamp: u64, cycle: u64, pc: u64, operation: Decoded, followed: u64) -> Entry
        ensures { result ≡ fetched_entry stamp cycle pc operation followed }
    {
        Entry {
            stamp,
            pc,
            operation,
            fetched: cycle,
            followed,
            stage: Progress::fetched(),
        }
    }

    /// The entry as it is renamed in a cycle: one that stops at fetch is done.
    #[inline]
    pub fn renamed(&self, cycle: u64) -> Entry
        ensures { result ≡ with_stage self.now (renamed_stage cycle self.now.operation) }
    {
        let stage = match *self.operation.operation() {
            Operation::Performs { .. } => Progress::queued(),
            Operation::Stops { why } => {
                let execution = Execution {
                    due: cycle,
                    miss: false,
                    outcome: Outcome::Stops { why },
                };
                Progress::issued(execution).complete()
            }
        };
        Entry { stage, ..*self }
    }

    /// The entry, which is fetched and doesn't stop there, as it is renamed: it waits for issue.
    #[inline(always)]
    pub fn queued(&self) -> Entry
        requires { self.now.stage ≡ Fetched }
        ensures { result ≡ with_stage self.now Queued }
    {
        Entry {
            stage: self.stage.queue(),
            ..*self
        }
    }

    /// The entry as it issues.
    #[inline(always)]
    pub fn issued(&self, execution: Execution) -> Entry
        ensures { result ≡ with_stage self.now (Issued execution) }
    {
        Entry {
            stage: Progress::issued(execution),
            ..*self
        }
    }

    /// The entry, which is issued, as it completes: fetch goes on at its true next pc, if it doesn't stop.
    #[inline(always)]
    pub fn completed(&self) -> Entry
        requires { IsIssued self.now.stage }
        ensures { result ≡ completed_entry self.now (execution_of self.now.stage) }
    {
        Entry {
            followed: self.stage.next_after(self.followed),
            stage: self.stage.complete(),
            ..*self
        }
    }

    /// The entry, which is issued, as it completes, where fetch went on at its true next pc already, or it stops.
    #[inline(always)]
    pub fn settled(&self) -> Entry
        requires issued { IsIssued self.now.stage }
        requires followed { GoesOnAt self.now.followed (execution_of self.now.stage).outcome }
        ensures { result ≡ completed_entry self.now (execution_of self.now.stage) }
    {
        let stage = self.stage.complete();
        Entry { stage, ..*self }
    }

    /// Whether its next pc was guessed, and wrongly: then nothing younger is kept.
    #[inline]
    pub fn is_mispredicted(&self, step: &Step) -> bool
        ensures { result ≡ is_mispredicted_of self.now step.now }
    {
        self.operation.is_guessed() && self.followed != step.next
    }
}

impl Stamped for Entry {
    ghost stamp_of = { λ e. e.stamp };

    #[inline]
    fn stamp(&self) -> u64 {
        self.stamp
    }
}
