//! A job of a plan.

ghost use Rattle.std.specs.Prelude.{ℕ, ◌≤◌, All};

use crate::start::JobStart;
use core_profile::Profile;

/// A run of the core: from where, how far at most, to which counts, and with which parameters.
#[derive(Clone, Copy, Debug, PartialEq, Eq)]
pub struct Job {
    /// Where it starts.
    pub start: JobStart,
    /// The most cycles that it takes, at most 2^40.
    pub limit: u64,
    /// The count of instructions at which each context parks, at most 2^40.
    pub targets: [u64; 8],
    /// The parameters of its core.
    pub profile: Profile,
    pub ghost limit_in_range: { limit ≤ 1099511627776 },
    pub ghost targets_in_range: { All (λ t. t ≤ 1099511627776) targets },
}
