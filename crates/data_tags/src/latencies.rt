//! The latencies of a core.

ghost use Rattle.std.specs.Prelude.{◌≡◌, ◌≤◌, if◌then◌else◌};

use crate::delay::{Kind, Lag};
use core_profile::Profile;

/// How many cycles an instruction takes by its kind, each 1 to 200.
#[derive(Clone, Copy, Debug, PartialEq, Eq)]
pub struct Latencies {
    /// Of an instruction that is no branch, jump, load or store.
    pub alu: u8,
    /// Of a branch or jump.
    pub branch: u8,
    /// Of a store.
    pub store: u8,
    /// Of a load that hits.
    pub hit: u8,
    /// Of a load that misses.
    pub miss: u8,
    pub ghost alu_in_range: { (1 ≤ alu) × (alu ≤ 200) },
    pub ghost branch_in_range: { (1 ≤ branch) × (branch ≤ 200) },
    pub ghost store_in_range: { (1 ≤ store) × (store ≤ 200) },
    pub ghost hit_in_range: { (1 ≤ hit) × (hit ≤ 200) },
    pub ghost miss_in_range: { (1 ≤ miss) × (miss ≤ 200) },
}

/// Those of a profile.
impl From<&Profile> for Latencies {
    ghost use Rattle.data_tags.specs.Latency.{HasLatenciesOf};

    ghost from_gives = { λ profile latencies. HasLatenciesOf profile.now latencies };

    fn from(profile: &Profile) -> Latencies {
        Latencies {
            alu: profile.alu_latency,
            branch: profile.branch_latency,
            store: profile.store_latency,
            hit: profile.hit_latency,
            miss: profile.miss_latency,
        }
    }
}

impl Latencies {
    ghost use Rattle.data_tags.specs.Latency.{IsWithin, greatest_latency, lag_of};

    /// The greatest of the five.
    pub fn greatest(&self) -> u8
        ensures value { result ≡ greatest_latency self.now }
        ensures least { 1 ≤ result }
        ensures most { result ≤ 200 }
    {
        self.alu
            .max(self.branch)
            .max(self.store)
            .max(self.hit.max(self.miss))
    }

    /// The lag of a kind of instruction, for a load with whether it misses, which the other kinds don't look at.
    pub fn lag(&self, kind: Kind, misses: bool) -> Lag
        ensures value { result ≡ lag_of self.now kind misses }
        ensures within { IsWithin (greatest_latency self.now) result }
    {
        let load = self.of_load(misses);
        let cycles = match kind {
            Kind::Branch => self.branch,
            Kind::Load => load,
            Kind::Store => self.store,
            Kind::Alu => self.alu,
        };
        Lag {
            cycles,
            miss: misses && kind == Kind::Load,
        }
    }

    /// The cycles of a load that misses or hits.
    #[inline(always)]
    fn of_load(&self, misses: bool) -> u8
        ensures { result ≡ (if misses then self.now.miss else self.now.hit) }
    {
        if misses { self.miss } else { self.hit }
    }
}
