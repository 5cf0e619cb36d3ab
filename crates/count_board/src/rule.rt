//! The rule of a board, and what each step tells.
ghost use Rattle.count_board.specs.Views.{fresh, spent, rest, one, both};
ghost use Rattle.count_board.specs.GreatestCounts.{HasGreatestCounts, RaisesWord, SeesWord, StandsForNone};

use crate::known::{Known, Start};
use atomic_table::{Join, Play, Split, TableRule};

/// Each word is the greatest of the opening count and what the seats raised there.
pub struct Greatest;

impl TableRule<(), Known, Start> for Greatest {
    ghost holds = { HasGreatestCounts };

    ghost first = { λ key. fresh key.seats };
}

/// A count is raised.
pub struct Raise;

impl Play<(), Known> for Raise {
    ghost then = { RaisesWord };
}

/// A count is seen.
pub struct Look;

impl Play<(), Known> for Look {
    ghost then = { SeesWord };
}

/// A seat arrives that stands for none.
pub struct Arrive;

impl Play<(), Known> for Arrive {
    ghost then = { StandsForNone };
}

/// One seat is cut off.
pub struct Parting;

impl Split<Known> for Parting {
    ghost left = { rest };

    ghost right = { one };
}

/// One seat stands for two.
pub struct Together;

impl Join<Known> for Together {
    ghost both = { both };

    ghost spent = { spent };
}
