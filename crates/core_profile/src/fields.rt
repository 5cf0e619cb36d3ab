//! The fields of a profile before they are checked.

use crate::policy::{FetchPolicy, IssuePolicy};
use crate::profile::Profile;

/// The fields of a profile, each number in any range. The default has the fields of the default profile.
#[derive(Clone, Copy, Debug, PartialEq, Eq)]
pub struct ProfileFields {
    /// How contexts are picked for fetch.
    pub fetch: FetchPolicy,
    /// In which order ready entries are issued.
    pub issue: IssuePolicy,
    /// Contexts picked in a cycle.
    pub num1: u64,
    /// Entries fetched for a picked context.
    pub num2: u64,
    /// Entries renamed in a cycle.
    pub rename_width: u64,
    /// Entries issued in a cycle.
    pub issue_width: u64,
    /// Entries retired in a cycle.
    pub retire_width: u64,
    /// Places of the issue queue.
    pub issue_queue: u64,
    /// Places of a context's reorder buffer.
    pub reorder_buffer: u64,
    /// Places of a context's load queue.
    pub load_queue: u64,
    /// Places of a context's store queue.
    pub store_queue: u64,
    /// Physical registers beyond the 256 of the eight contexts.
    pub extra_registers: u64,
    /// Cycles from fetch to the earliest rename.
    pub front_delay: u64,
    /// Cycles of an instruction that isn't a branch, jump, load or store.
    pub alu_latency: u64,
    /// Cycles of a branch or jump.
    pub branch_latency: u64,
    /// Cycles of a store.
    pub store_latency: u64,
    /// Cycles of a load that hits.
    pub hit_latency: u64,
    /// Cycles of a load that misses.
    pub miss_latency: u64,
}

impl From<Profile> for ProfileFields {
    ghost use Rattle.std.specs.Prelude.{◌≡◌};
    ghost use Rattle.core_profile.specs.Fields.{fields_of};

    ghost from_gives = { λ p f. f ≡ fields_of p };

    fn from(profile: Profile) -> ProfileFields {
        ProfileFields {
            fetch: profile.fetch,
            issue: profile.issue,
            num1: u64::from(profile.num1),
            num2: u64::from(profile.num2),
            rename_width: u64::from(profile.rename_width),
            issue_width: u64::from(profile.issue_width),
            retire_width: u64::from(profile.retire_width),
            issue_queue: u64::from(profile.issue_queue),
            reorder_buffer: u64::from(profile.reorder_buffer),
            load_queue: u64::from(profile.load_queue),
            store_queue: u64::from(profile.store_queue),
            extra_registers: u64::from(profile.extra_registers),
            front_delay: u64::from(profile.front_delay),
            alu_latency: u64::from(profile.alu_latency),
            branch_latency: u64::from(profile.branch_latency),
            store_latency: u64::from(profile.store_latency),
            hit_latency: u64::from(profile.hit_latency),
            miss_latency: u64::from(profile.miss_latency),
        }
    }
}

impl Default for ProfileFields {
    ghost use Rattle.std.specs.Prelude.{◌≡◌};
    ghost use Rattle.toml.specs.Data.{no_members};
    ghost use Rattle.core_profile.specs.Fields.{fields_at};

    ghost is_default = { λ f. f ≡ fields_at no_members };

    fn default() -> ProfileFields {
        ProfileFields::from(Profile::default())
    }
}
