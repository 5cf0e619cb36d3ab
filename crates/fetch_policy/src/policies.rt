//! The fetch policies.

ghost use Rattle.std.specs.Prelude.{◌≡◌, ℕ, false, IfSome};
ghost use Rattle.join_law.specs.Eight.{place_of};
ghost use Rattle.fetch_policy.specs.Counts.{count_in};
ghost use Rattle.fetch_policy.specs.Keys.{brcount_key, icount_key, iqposn_key, misscount_key, round_robin_key};

use crate::view::{Count, FetchView};
use join_law::Ctx;

/// A fetch policy: contexts are picked by the least key, and among equal keys by turn.
pub trait Pick {
    ghost use Rattle.fetch_policy.specs.declared.view.FetchView.{FetchView};
    ghost use Rattle.fetch_policy.specs.Places.{without_places};

    /// The function of view and context that the policy is.
    ghost key_of: { Self → FetchView → ℕ → ℕ };

    /// The key of a context.
    fn key(&self, view: &FetchView, context: Ctx) -> u64
        ensures { result ≡ key_of self.now view.now context };

    /// The count that a context's key is, where it is one. A core then shows no view, and takes the counts for keys.
    fn count(&self) -> Option<Count>
        ensures { IfSome result (λ count. (view : FetchView) (context : ℕ) → key_of self.now view context ≡ count_in count (place_of view.contexts context)) }
    {
        None
    }

    /// Whether keys may depend on the contexts' `oldest_place`. Where they don't, a core may show none in its place.
    fn reads_places(&self) -> bool
        ensures { result ≡ false → (view : FetchView) (context : ℕ) → key_of self.now (without_places view) context ≡ key_of self.now view context }
    {
        true
    }
}

/// RR: contexts take turns.
#[derive(Clone, Copy, Debug, PartialEq, Eq)]
pub struct RoundRobin;

/// ICOUNT: the fewest entries in front list and issue queue first.
#[derive(Clone, Copy, Debug, PartialEq, Eq)]
pub struct Icount;

/// BRCOUNT: the fewest guessed entries in front list and issue queue first.
#[derive(Clone, Copy, Debug, PartialEq, Eq)]
pub struct Brcount;

/// MISSCOUNT: the fewest loads that missed and have not completed first.
#[derive(Clone, Copy, Debug, PartialEq, Eq)]
pub struct Misscount;

/// IQPOSN: those with no entry in the issue queue first, then those whose oldest entry is farthest from its front.
#[derive(Clone, Copy, Debug, PartialEq, Eq)]
pub struct Iqposn;

impl Pick for RoundRobin {
    ghost key_of = { λ _. round_robin_key };

    fn key(&self, _view: &FetchView, _context: Ctx) -> u64 {
        0
    }

    fn count(&self) -> Option<Count> {
        Some(Count::Nothing)
    }

    fn reads_places(&self) -> bool {
        false
    }
}

impl Pick for Icount {
    ghost key_of = { λ _. icount_key };

    fn key(&self, view: &FetchView, context: Ctx) -> u64 {
        view.contexts.place(context).entries
    }

    fn count(&self) -> Option<Count> {
        Some(Count::Entries)
    }

    fn reads_places(&self) -> bool {
        false
    }
}

impl Pick for Brcount {
    ghost key_of = { λ _. brcount_key };

    fn key(&self, view: &FetchView, context: Ctx) -> u64 {
        view.contexts.place(context).guessed
    }

    fn count(&self) -> Option<Count> {
        Some(Count::Guessed)
    }

    fn reads_places(&self) -> bool {
        false
    }
}

impl Pick for Misscount {
    ghost key_of = { λ _. misscount_key };

    fn key(&self, view: &FetchView, context: Ctx) -> u64 {
        view.contexts.place(context).missed_loads
    }

    fn count(&self) -> Option<Count> {
        Some(Count::MissedLoads)
    }

    fn reads_places(&self) -> bool {
        false
    }
}

impl Pick for Iqposn {
    ghost key_of = { λ _. iqposn_key };

    fn key(&self, view: &FetchView, context: Ctx) -> u64 {
        match view.contexts.place(context).oldest_place {
            None => 0,
            Some(place) => 64_u64.saturating_sub(place),
        }
    }
}
