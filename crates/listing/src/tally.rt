//! The length of a list that isn't kept.

ghost use Rattle.std.specs.Prelude.{◌≡◌, []};

use crate::list::Listing;
use std::marker::Model;
use std::mem;
use std::snapshot::Snapshot;

/// How long a list of at most `N` items is, without the list. A contract sees the list.
#[derive(Drop)]
pub struct Tally<T, const N: usize> {
    count: usize,
    pushed: Snapshot<Pushed<T>>,
}

/// What a list holds: nothing, or an item after what it held before. A `Snapshot` has no bytes, so no list is kept of it.
#[derive(Drop)]
enum Pushed<T> {
    Nothing,
    After(Snapshot<Pushed<T>>, T),
}

impl<T, const N: usize> Model for Tally<T, N> {
    ghost use Rattle.std.specs.Prelude.{◌≡◌, ◌≤◌, List, length};
    ghost use Rattle.std.specs.Coded.{coded_list};

    ghost Value = { List T };

    ghost coded = { coded_list T.code };

    ghost use Rattle.listing.specs.Pushed.{items_of};

    ghost view = { λ t. items_of t.pushed.value };

    ghost invariant = { λ t. (t.count ≡ length (items_of t.pushed.value)) × (t.count ≤ N) };
}

impl<T: Drop, const N: usize> Tally<T, N> {
    /// The length of an empty list.
    #[inline(always)]
    pub fn new() -> Self
        ensures { result ≡ [] }
    {
        Tally {
            count: 0,
            pushed: Snapshot::of(&Pushed::Nothing),
        }
    }
}

impl<T: Drop, const N: usize> Listing<T, N> for Tally<T, N> {
    ghost items = { λ t. t };

    #[inline(always)]
    fn len(&self) -> usize {
        self.count
    }

    #[inline(always)]
    fn push(&mut self, item: T) {
        let before = mem::replace(&mut self.pushed, Snapshot::of(&Pushed::Nothing));
        self.pushed = Snapshot::of(&Pushed::After(before, item));
        self.count += 1;
    }
}
