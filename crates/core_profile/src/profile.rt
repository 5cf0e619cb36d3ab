//! The parameters of a core, all in their ranges.

ghost use Rattle.std.specs.Prelude.{ℕ, ◌≡◌, ◌≢◌, ◌≤◌};

use crate::policy::{FetchPolicy, IssuePolicy};

/// The parameters of a core. Each number is in its range, which the ghost facts state.
#[derive(Clone, Copy, Debug, PartialEq, Eq)]
pub struct Profile {
    /// How contexts are picked for fetch.
    pub fetch: FetchPolicy,
    /// In which order ready entries are issued.
    pub issue: IssuePolicy,
    /// Contexts picked in a cycle: 1, 2 or 4.
    pub num1: u8,
    /// Entries fetched for a picked context, 1 to 8.
    pub num2: u8,
    /// Entries renamed in a cycle, 1 to 8.
    pub rename_width: u8,
    /// Entries issued in a cycle, 1 to 8.
    pub issue_width: u8,
    /// Entries retired in a cycle, 1 to 16.
    pub retire_width: u8,
    /// Places of the issue queue, 8 to 64.
    pub issue_queue: u8,
    /// Places of a context's reorder buffer, 8 to 64.
    pub reorder_buffer: u8,
    /// Places of a context's load queue, 4 to 32.
    pub load_queue: u8,
    /// Places of a context's store queue, 4 to 32.
    pub store_queue: u8,
    /// Physical registers beyond the 256 of the eight contexts, 32 to 224.
    pub extra_registers: u8,
    /// Cycles from fetch to the earliest rename, 1 to 8.
    pub front_delay: u8,
    /// Cycles of an instruction that isn't a branch, jump, load or store, 1 to 200.
    pub alu_latency: u8,
    /// Cycles of a branch or jump, 1 to 200.
    pub branch_latency: u8,
    /// Cycles of a store, 1 to 200.
    pub store_latency: u8,
    /// Cycles of a load that hits, 1 to 200.
    pub hit_latency: u8,
    /// Cycles of a load that misses, 1 to 200.
    pub miss_latency: u8,
    pub ghost num1_in_range: { (1 ≤ num1) × (num1 ≤ 4) × (num1 ≢ 3) },
    pub ghost num2_in_range: { (1 ≤ num2) × (num2 ≤ 8) },
    pub ghost rename_width_in_range: { (1 ≤ rename_width) × (rename_width ≤ 8) },
    pub ghost issue_width_in_range: { (1 ≤ issue_width) × (issue_width ≤ 8) },
    pub ghost retire_width_in_range: { (1 ≤ retire_width) × (retire_width ≤ 16) },
    pub ghost issue_queue_in_range: { (8 ≤ issue_queue) × (issue_queue ≤ 64) },
    pub ghost reorder_buffer_in_range: { (8 ≤ reorder_buffer) × (reorder_buffer ≤ 64) },
    pub ghost load_queue_in_range: { (4 ≤ load_queue) × (load_queue ≤ 32) },
    pub ghost store_queue_in_range: { (4 ≤ store_queue) × (store_queue ≤ 32) },
    pub ghost extra_registers_in_range: { (32 ≤ extra_registers) × (extra_registers ≤ 224) },
    pub ghost front_delay_in_range: { (1 ≤ front_delay) × (front_delay ≤ 8) },
    pub ghost alu_latency_in_range: { (1 ≤ alu_latency) × (alu_latency ≤ 200) },
    pub ghost branch_latency_in_range: { (1 ≤ branch_latency) × (branch_latency ≤ 200) },
    pub ghost store_latency_in_range: { (1 ≤ store_latency) × (store_latency ≤ 200) },
    pub ghost hit_latency_in_range: { (1 ≤ hit_latency) × (hit_latency ≤ 200) },
    pub ghost miss_latency_in_range: { (1 ≤ miss_latency) × (miss_latency ≤ 200) },
}

impl Default for Profile {
    ghost use Rattle.toml.specs.Data.{no_members};
    ghost use Rattle.core_profile.specs.Fields.{fields_at, fields_of};

    ghost is_default = { λ p. fields_of p ≡ fields_at no_members };

    fn default() -> Profile {
        Profile {
            fetch: FetchPolicy::Icount,
            issue: IssuePolicy::OldestFirst,
            num1: 2,
            num2: 8,
            rename_width: 8,
            issue_width: 8,
            retire_width: 8,
            issue_queue: 32,
            reorder_buffer: 32,
            load_queue: 16,
            store_queue: 16,
            extra_registers: 100,
            front_delay: 2,
            alu_latency: 1,
            branch_latency: 1,
            store_latency: 1,
            hit_latency: 1,
            miss_latency: 20,
        }
    }
}
