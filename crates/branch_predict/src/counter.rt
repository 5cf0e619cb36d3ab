//! The two-bit counter of a conditional branch.

ghost use Rattle.std.specs.Prelude.{◌≡◌, ◌≤◌, ℕ};
ghost use Rattle.branch_predict.specs.Predictor.{says_taken, trained_counter};

use std::marker::Model;

/// A counter from 0 to 3, which says taken from 2 on.
#[derive(Clone, Copy)]
pub(crate) struct Counter {
    number: u8,
}

impl Model for Counter {
    ghost Value = { ℕ };

    ghost view = { λ c. c.number };

    ghost invariant = { λ c. c.number ≤ 3 };

    ghost inverse = { λ n. record { number = n } };
}

impl Counter {
    /// The counter of a branch that was never seen.
    pub(crate) fn new() -> Counter
        ensures { result ≡ 1 }
    {
        Counter { number: 1 }
    }

    /// Whether it says that the branch is taken.
    pub(crate) fn says_taken(self) -> bool
        ensures { result ≡ says_taken self }
    {
        self.number >= 2
    }

    /// The counter after the branch was taken or not.
    pub(crate) fn trained(self, taken: bool) -> Counter
        ensures { result ≡ trained_counter self taken }
    {
        // A look-up takes no jump: branches go either way.
        let after = [[0, 1], [0, 2], [1, 3], [2, 3]];
        Counter {
            number: after[usize::from(self.number)][usize::from(taken)],
        }
    }
}
