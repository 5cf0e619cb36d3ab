//! The parts of a stage, side by side.

ghost use Rattle.std.specs.Prelude.{◌≡◌, ◌<◌};
ghost use Rattle.core_view.specs.declared.entry.Stage.TheVariants.{Issued};
ghost use Rattle.core_view.specs.Events.{followed_by};
ghost use Rattle.core_view.specs.Stages.{access_in, step_in, stop_in, parts_of, stage_of, outcome_kept};

use crate::entry::Execution;
use crate::outcome::{Access, Outcome, Step};
use crate::span::{Bytes, Span};
use hart_step::Stop;

/// The name of a stage.
#[derive(Clone, Copy, Debug, PartialEq, Eq)]
pub enum StageName {
    /// Fetched, and not yet renamed.
    Fetched,
    /// Renamed, and waiting for issue.
    Queued,
    /// Issued, and not yet due.
    Issued,
    /// Completed.
    Done,
}

/// The name of an outcome, by what it accesses.
#[derive(Clone, Copy, Debug, PartialEq, Eq)]
pub enum OutcomeName {
    /// It stops.
    Stops,
    /// It goes on, and accesses nothing.
    Free,
    /// It goes on, and reads a span.
    Reads,
    /// It goes on, and writes bytes.
    Writes,
}

/// What a stage has, and 0 for what it hasn't. The names and the size take eight bytes together, without padding, so
/// that they are written at once.
#[derive(Clone, Copy, Debug, PartialEq, Eq)]
pub struct Parts {
    /// The stage's name.
    pub name: StageName,
    /// The outcome's name.
    pub outcome: OutcomeName,
    /// Why it stops.
    pub why: Stop,
    /// Whether its delay was a miss.
    pub miss: bool,
    /// How many bytes it reads or writes.
    pub size: u32,
    /// The cycle in which it completes.
    pub due: u64,
    /// The value for the destination.
    pub result: u64,
    /// The next pc.
    pub next: u64,
    /// The first address that it reads or writes.
    pub address: u64,
    /// The value that it writes.
    pub value: u64,
}

/// The parts of what is fetched.
pub const FETCHED: Parts = Parts {
    name: StageName::Fetched,
    outcome: OutcomeName::Stops,
    why: Stop::TargetMisaligned,
    miss: false,
    size: 0,
    due: 0,
    result: 0,
    next: 0,
    address: 0,
    value: 0,
};

impl Parts {
    /// Of what is issued.
    #[inline(always)]
    pub fn issued(execution: Execution) -> Parts
        ensures stage { stage_of result ≡ Issued execution }
        ensures kept { parts_of (stage_of result) ≡ result }
        ensures size { result.size < 256 }
    {
        let issued = Parts {
            name: StageName::Issued,
            miss: execution.miss,
            due: execution.due,
            ..FETCHED
        };
        match execution.outcome {
            Outcome::Stops { why } => Parts { why, ..issued },
            Outcome::Goes { step } => {
                let going = Parts {
                    outcome: OutcomeName::Free,
                    result: step.result,
                    next: step.next,
                    ..issued
                };
                match step.access {
                    Access::Free => going,
                    Access::Reads { span } => Parts {
                        outcome: OutcomeName::Reads,
                        address: span.address,
                        size: u32::from(span.size),
                        ..going
                    },
                    Access::Writes { bytes } => Parts {
                        outcome: OutcomeName::Writes,
                        address: bytes.span.address,
                        size: u32::from(bytes.span.size),
                        value: bytes.value,
                        ..going
                    },
                }
            }
        }
    }

    /// Why it stops, if it does.
    #[inline(always)]
    pub fn stop(&self) -> Option<Stop>
        ensures { result ≡ stop_in (outcome_kept self.now) }
    {
        if matches!(self.outcome, OutcomeName::Stops) {
            Some(self.why)
        } else {
            None
        }
    }

    /// The pc at which fetch goes on after it, where it went on at one before.
    #[inline(always)]
    pub fn next_after(&self, followed: u64) -> u64
        ensures { result ≡ followed_by followed (outcome_kept self.now) }
    {
        if matches!(self.outcome, OutcomeName::Stops) {
            followed
        } else {
            self.next
        }
    }

    /// What it does, if it doesn't stop.
    #[inline(always)]
    pub fn step(&self) -> Option<Step>
        requires { self.now.size < 256 }
        ensures { result ≡ step_in (outcome_kept self.now) }
    {
        if matches!(self.outcome, OutcomeName::Stops) {
            return None;
        }
        Some(Step {
            result: self.result,
            next: self.next,
            access: self.access(),
        })
    }

    /// What it reads or writes of memory.
    #[inline(always)]
    pub fn access(&self) -> Access
        requires { self.now.size < 256 }
        ensures { result ≡ access_in (outcome_kept self.now) }
    {
        let span = Span {
            address: self.address,
            size: self.size as u8,
        };
        match self.outcome {
            OutcomeName::Stops | OutcomeName::Free => Access::Free,
            OutcomeName::Reads => Access::Reads { span },
            OutcomeName::Writes => Access::Writes {
                bytes: Bytes {
                    span,
                    value: self.value,
                },
            },
        }
    }
}
