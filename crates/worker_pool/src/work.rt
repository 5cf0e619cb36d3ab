//! The work that many workers share.
ghost use Rattle.std.specs.Prelude.{◌≡◌, ◌+◌, ◌++◌, ◌∷◌, ◌<◌, ℕ, [], List, Option, IfOk};
ghost use Rattle.worker_pool.specs.Results.{note_of};

use join_law::Join;
use std::alloc::AllocError;
use std::sync::Wait;

/// Numbered jobs, each of which gives a result and a note.
pub trait Work<J: Join> {
    /// What a worker runs jobs with.
    type Seat;
    /// What is kept of a job beside its result.
    type Note;

    /// Which seats are the work's own.
    ghost is_own: { Self → Self.Seat → Type 0 };

    /// For how many jobs a seat has room.
    ghost room: { Self.Seat → ℕ };

    /// The jobs that were run with a seat, in their order, each with its end: its note, or none where it was refused.
    ghost runs: { Self.Seat → List (ℕ × Option Self.Note) };

    /// Which results a job may give.
    ghost gives: { Self → ℕ → J → Type 0 };

    /// Runs a job.
    ///
    /// # Errors
    /// Memory was refused. The job is then one of the seat's runs too.
    fn run<R: Wait>(
        &self,
        rt: &R,
        seat: &mut Self::Seat,
        job: usize,
    ) -> Result<(J, Self::Note), AllocError>
        requires own { is_own self.now seat.old }
        requires room { 0 < room seat.old }
        ensures own { is_own self.now seat.new }
        ensures room { room seat.new + 1 ≡ room seat.old }
        ensures runs { runs seat.new ≡ runs seat.old ++ (job, note_of result) ∷ [] }
        ensures gives { IfOk result (λ end. gives self.now job end.0) };
}
