//! The fetch policy that a profile names.

ghost use Rattle.std.specs.Prelude.{◌≡◌};
ghost use Rattle.fetch_policy.specs.Keys.{named_as, named_key};

use crate::policies::{Brcount, Icount, Iqposn, Misscount, Pick, RoundRobin};
use crate::view::{Count, FetchView};
use core_profile::FetchPolicy;
use join_law::Ctx;

/// The fetch policy that a profile names.
#[derive(Clone, Copy, Debug, PartialEq, Eq)]
pub enum NamedPick {
    /// Contexts take turns.
    RoundRobin,
    /// The fewest entries in front list and issue queue first.
    Icount,
    /// The fewest guessed entries in front list and issue queue first.
    Brcount,
    /// The fewest loads that missed and have not completed first.
    Misscount,
    /// Those with no entry in the issue queue first, then those whose oldest entry is farthest from its front.
    Iqposn,
}

impl Pick for NamedPick {
    ghost key_of = { named_key };

    fn key(&self, view: &FetchView, context: Ctx) -> u64 {
        match self {
            NamedPick::RoundRobin => RoundRobin.key(view, context),
            NamedPick::Icount => Icount.key(view, context),
            NamedPick::Brcount => Brcount.key(view, context),
            NamedPick::Misscount => Misscount.key(view, context),
            NamedPick::Iqposn => Iqposn.key(view, context),
        }
    }

    fn count(&self) -> Option<Count> {
        [
            RoundRobin.count(),
            Icount.count(),
            Brcount.count(),
            Misscount.count(),
            Iqposn.count(),
        ][*self as usize]
    }

    fn reads_places(&self) -> bool {
        match self {
            NamedPick::RoundRobin => RoundRobin.reads_places(),
            NamedPick::Icount => Icount.reads_places(),
            NamedPick::Brcount => Brcount.reads_places(),
            NamedPick::Misscount => Misscount.reads_places(),
            NamedPick::Iqposn => Iqposn.reads_places(),
        }
    }
}

impl From<FetchPolicy> for NamedPick {
    ghost from_gives = { λ policy pick. pick ≡ named_as policy };

    fn from(policy: FetchPolicy) -> NamedPick {
        match policy {
            FetchPolicy::RoundRobin => NamedPick::RoundRobin,
            FetchPolicy::Icount => NamedPick::Icount,
            FetchPolicy::Brcount => NamedPick::Brcount,
            FetchPolicy::Misscount => NamedPick::Misscount,
            FetchPolicy::Iqposn => NamedPick::Iqposn,
        }
    }
}
