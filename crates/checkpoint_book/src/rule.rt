//! The rule of a lock, and what each step changes of the seat that makes it.
ghost use Rattle.checkpoint_book.specs.OneHistory.{HasOneHistory};
ghost use Rattle.checkpoint_book.specs.Steps.{TakesPage, GivesPage, StandsForNone};
ghost use Rattle.checkpoint_book.specs.Views.{idle_view, passes_below, first_view, rest_view, joint_view, spent_view};

use crate::Page;
use crate::known::{Known, Start};
use atomic_table::{Join, Play, Split, TableRule};

/// One history, in the page at home or as its holder found it, of which each pass knows its own calls.
pub struct OneHistory;

impl TableRule<Option<Page>, Known, Start> for OneHistory {
    ghost holds = { HasOneHistory };

    ghost first = { λ key. idle_view key.opening.value (passes_below key.passes) };
}

/// A seat takes the page, where it is at home.
pub struct Take;

impl Play<Option<Page>, Known> for Take {
    ghost then = { TakesPage };
}

/// A seat gives the page back.
pub struct Give;

impl Play<Option<Page>, Known> for Give {
    ghost then = { GivesPage };
}

/// A new seat stands for no pass.
pub struct Arrive;

impl Play<Option<Page>, Known> for Arrive {
    ghost then = { StandsForNone };
}

/// The first pass gets a seat of its own.
pub struct Parting;

impl Split<Known> for Parting {
    ghost left = { rest_view };

    ghost right = { first_view };
}

/// One seat stands for the passes of two.
pub struct Together;

impl Join<Known> for Together {
    ghost both = { joint_view };

    ghost spent = { spent_view };
}
