//! The rule of a deque, and what each step does to a pass.
ghost use Rattle.std.specs.Prelude.{[]};
ghost use Rattle.worker_pool.specs.Rule.{Balanced, whole, hand, Drawn, AllTaken, Put, both, keeps_rest, one_part};

use crate::hand::Hand;
use crossbeam_deque::protocol::{Join, Outcome, Protocol, Split};

/// What was dealt is what was taken and what the deque holds.
pub struct Fair;

impl Protocol<usize, Hand> for Fair {
    ghost holds = { Balanced };

    ghost first = { hand whole [] [] };

    ghost guest = { hand 0 [] [] };
}

/// A thief takes a job.
pub struct Steals;

impl Outcome<usize, Hand> for Steals {
    ghost then = { Drawn };
}

/// The owner takes a job. With every part it knows of an empty deque that all was taken.
pub struct Draws;

impl Outcome<usize, Hand> for Draws {
    ghost then = { Drawn };

    ghost empty = { AllTaken };
}

/// The owner deals a job.
pub struct Deals;

impl Outcome<usize, Hand> for Deals {
    ghost then = { Put };
}

/// One part is cut off.
pub struct Parting;

impl Split<Hand> for Parting {
    ghost left = { keeps_rest };

    ghost right = { one_part };
}

/// What two passes know.
pub struct Together;

impl Join<Hand> for Together {
    ghost both = { both };

    ghost spent = { hand 0 [] [] };
}
