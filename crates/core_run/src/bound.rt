//! How many cycles suffice for a run.

ghost use Rattle.std.specs.Prelude.{◌≡◌, ℕ, ◌*◌, ◌+◌, ◌<◌, ◌≤◌, ◌^◌, slice_index};
ghost use Rattle.lawful_cycle.specs.Distance.{stall_bound};
ghost use Rattle.core_run.specs.Needed.{cycles_needed, left_between};

use core_profile::{IssuePolicy, Profile};

/// The limit of cycles with which `run_to` is sure to answer `Reached`, whatever the core guesses and picks: for a core
/// of this profile whose lags have at most `greatest` cycles, and whose contexts go from these starts to these targets,
/// counts of instructions. The targets are at most 2^40; one below its start counts as equal to it. For BRANCH_FIRST
/// there is none, since a core may stall under it.
pub fn needed(profile: &Profile, greatest: u8, starts: &[u64; 8], targets: &[u64; 8]) -> Option<u64>
    requires { (c : ℕ) → c < 8 → slice_index targets.now c ≤ 2 ^ 40 }
    ensures { result ≡ cycles_needed profile.now greatest starts.now targets.now }
{
    match profile.issue {
        IssuePolicy::BranchFirst => None,
        IssuePolicy::OldestFirst => Some(cycles_for(profile, greatest, left(starts, targets))),
        IssuePolicy::SpecLast => Some(cycles_for(profile, greatest, left(starts, targets))),
    }
}

/// The stall bound, times eight more than this many instructions.
fn cycles_for(profile: &Profile, greatest: u8, left: u64) -> u64
    requires { left ≤ 8 * 2 ^ 40 }
    ensures { result ≡ stall_bound profile.now greatest * (left + 8) }
{
    let bound = u64::from(profile.front_delay) + u64::from(greatest) + 8;
    bound * (left + 8)
}

/// How many instructions are to retire from these starts to these targets; a target below its start counts as equal.
fn left(starts: &[u64; 8], targets: &[u64; 8]) -> u64
    requires { (c : ℕ) → c < 8 → slice_index targets.now c ≤ 2 ^ 40 }
    ensures value { result ≡ left_between starts.now targets.now }
    ensures few { result ≤ 8 * 2 ^ 40 }
{
    let mut sum = 0;
    for place in 0..8usize {
        sum += targets[place].saturating_sub(starts[place]);
    }
    sum
}
