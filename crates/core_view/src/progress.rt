//! How far an entry has come, kept flat.

ghost use Rattle.std.specs.Prelude.{◌≡◌, is_some};
ghost use Rattle.core_view.specs.declared.entry.Stage.TheVariants.{Fetched, Queued, Issued, Done};
ghost use Rattle.core_view.specs.Flight.{bytes_in, bytes_done, span_read};
ghost use Rattle.core_view.specs.Flight.{is_done as is_done_of, is_queued as is_queued_of};
ghost use Rattle.core_view.specs.Events.{due_at, followed_by};
ghost use Rattle.core_view.specs.Stages.{IsIssued, execution_of, step_in, stop_in};

use crate::entry::{Execution, Stage};
use crate::outcome::{Outcome, Step};
use crate::parts::{FETCHED, Parts, StageName};
use crate::span::{Bytes, Span};
use hart_step::Stop;
use std::marker::Model;

/// How far an entry has come, with all parts of its stage side by side, so that an entry which is renamed or completes
/// changes by one byte. A contract sees the stage.
#[derive(Clone, Copy, Debug, PartialEq, Eq)]
pub struct Progress {
    parts: Parts,
}

impl Model for Progress {
    ghost use Rattle.std.specs.Prelude.{◌≡◌, ◌<◌};
    ghost use Rattle.std.proofs.Common.{ap};
    ghost use Rattle.core_view.specs.declared.entry.Stage.{Stage};
    ghost use Rattle.core_view.specs.Stages.{stage_of, parts_of};

    ghost Value = { Stage };

    ghost view = { λ p. stage_of p.parts };

    ghost invariant = { λ p. (parts_of (stage_of p.parts) ≡ p.parts) × (p.parts.size < 256) };

    ghost inverse = { λ s. record { parts = parts_of s } };

    ghost inverse_ok = { λ p h. ap (λ parts. record { parts = parts }) h.0 };
}

impl Progress {
    /// Of what is fetched.
    #[inline(always)]
    pub fn fetched() -> Progress
        ensures { result ≡ Fetched }
    {
        Progress { parts: FETCHED }
    }

    /// Of what waits for issue.
    #[inline(always)]
    pub fn queued() -> Progress
        ensures { result ≡ Queued }
    {
        Progress::fetched().queue()
    }

    /// Of what is issued.
    #[inline(always)]
    pub fn issued(execution: Execution) -> Progress
        ensures { result ≡ Issued execution }
    {
        Progress {
            parts: Parts::issued(execution),
        }
    }

    /// What is fetched, as it waits for issue.
    #[inline(always)]
    pub fn queue(&self) -> Progress
        requires { self.now ≡ Fetched }
        ensures { result ≡ Queued }
    {
        Progress {
            parts: Parts {
                name: StageName::Queued,
                ..self.parts
            },
        }
    }

    /// What is issued, as it is done.
    #[inline(always)]
    pub fn complete(&self) -> Progress
        requires { IsIssued self.now }
        ensures { result ≡ Done (execution_of self.now) }
    {
        Progress {
            parts: Parts {
                name: StageName::Done,
                ..self.parts
            },
        }
    }

    /// The stage.
    pub fn to_stage(&self) -> Stage
        ensures { result ≡ self.now }
    {
        match self.parts.name {
            StageName::Fetched => Stage::Fetched,
            StageName::Queued => Stage::Queued,
            StageName::Issued => Stage::Issued {
                execution: self.execution(),
            },
            StageName::Done => Stage::Done {
                execution: self.execution(),
            },
        }
    }

    /// What is known from issue on.
    fn execution(&self) -> Execution
        ensures { result ≡ execution_of self.now }
    {
        let outcome = match self.step() {
            Some(step) => Outcome::Goes { step },
            None => Outcome::Stops {
                why: self.parts.why,
            },
        };
        Execution {
            due: self.parts.due,
            miss: self.parts.miss,
            outcome,
        }
    }

    /// Whether it waits for issue.
    #[inline(always)]
    pub fn is_queued(&self) -> bool
        ensures { result ≡ is_queued_of self.now }
    {
        matches!(self.parts.name, StageName::Queued)
    }

    /// Whether it has completed, with a stop or without.
    #[inline(always)]
    pub fn is_done(&self) -> bool
        ensures { result ≡ is_done_of self.now }
    {
        matches!(self.parts.name, StageName::Done)
    }

    /// Whether it is issued, and due in a cycle.
    #[inline(always)]
    pub fn is_due(&self, cycle: u64) -> bool
        ensures { result ≡ is_some (due_at cycle self.now) }
    {
        matches!(self.parts.name, StageName::Issued) && self.parts.due == cycle
    }

    /// The cycle in which it completes, from its issue on.
    #[inline(always)]
    pub fn due(&self) -> u64
        ensures { result ≡ (execution_of self.now).due }
    {
        self.parts.due
    }

    /// Whether its delay was a miss, from its issue on.
    #[inline(always)]
    pub fn has_missed(&self) -> bool
        ensures { result ≡ (execution_of self.now).miss }
    {
        self.parts.miss
    }

    /// What it does, from its issue on, if it doesn't stop.
    #[inline(always)]
    pub fn step(&self) -> Option<Step>
        ensures { result ≡ step_in (execution_of self.now).outcome }
    {
        self.parts.step()
    }

    /// Why it stops, from its issue on, if it does.
    #[inline(always)]
    pub fn stop(&self) -> Option<Stop>
        ensures { result ≡ stop_in (execution_of self.now).outcome }
    {
        self.parts.stop()
    }

    /// The pc at which fetch goes on after it, from its issue on: the next one, or where it went on before if it stops.
    #[inline(always)]
    pub fn next_after(&self, followed: u64) -> u64
        ensures { result ≡ followed_by followed (execution_of self.now).outcome }
    {
        self.parts.next_after(followed)
    }

    /// The bytes that a store writes, from its issue on, unless it stops.
    #[inline(always)]
    pub fn bytes_to_come(&self) -> Option<Bytes>
        ensures { result ≡ bytes_in (execution_of self.now).outcome }
    {
        self.parts.access().bytes()
    }

    /// The bytes of a store that is done without a stop.
    #[inline(always)]
    pub fn bytes(&self) -> Option<Bytes>
        ensures { result ≡ bytes_done self.now }
    {
        if self.is_done() {
            self.bytes_to_come()
        } else {
            None
        }
    }

    /// The span that a load read, from its issue on. One that stops read none.
    #[inline(always)]
    pub fn span(&self) -> Option<Span>
        ensures { result ≡ span_read self.now }
    {
        self.parts.access().span()
    }
}
