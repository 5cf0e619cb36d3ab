//! The keys of a profile.

ghost use Rattle.std.specs.Prelude.{◌≡◌};
ghost use Rattle.core_profile.specs.Tables as spec;
ghost use Rattle.core_profile.specs.Tables.{AreInOrder};

use std::fmt;

/// A key of a profile, in the order of the bytes of the names.
#[derive(Clone, Copy, Debug, PartialEq, Eq, Hash)]
pub enum Key {
    /// Cycles of an instruction that isn't a branch, jump, load or store.
    AluLatency,
    /// Cycles of a branch or jump.
    BranchLatency,
    /// Physical registers beyond the 256 of the eight contexts.
    ExtraRegisters,
    /// The fetch policy.
    Fetch,
    /// Cycles from fetch to the earliest rename.
    FrontDelay,
    /// Cycles of a load that hits.
    HitLatency,
    /// The issue policy.
    Issue,
    /// Places of the issue queue.
    IssueQueue,
    /// Entries issued in a cycle.
    IssueWidth,
    /// Places of a context's load queue.
    LoadQueue,
    /// Cycles of a load that misses.
    MissLatency,
    /// Contexts picked in a cycle.
    Num1,
    /// Entries fetched for a picked context.
    Num2,
    /// Entries renamed in a cycle.
    RenameWidth,
    /// Places of a context's reorder buffer.
    ReorderBuffer,
    /// Entries retired in a cycle.
    RetireWidth,
    /// Cycles of a store.
    StoreLatency,
    /// Places of a context's store queue.
    StoreQueue,
}

impl Key {
    /// The keys, in the order of the bytes of their names.
    pub fn all() -> [Key; 18]
        ensures keys { result ≡ spec.keys }
        ensures in_order { AreInOrder result }
    {
        [
            Key::AluLatency,
            Key::BranchLatency,
            Key::ExtraRegisters,
            Key::Fetch,
            Key::FrontDelay,
            Key::HitLatency,
            Key::Issue,
            Key::IssueQueue,
            Key::IssueWidth,
            Key::LoadQueue,
            Key::MissLatency,
            Key::Num1,
            Key::Num2,
            Key::RenameWidth,
            Key::ReorderBuffer,
            Key::RetireWidth,
            Key::StoreLatency,
            Key::StoreQueue,
        ]
    }

    /// The name that a profile's text has.
    pub fn name(self) -> &'static str
        ensures { result.now ≡ spec.name_of self }
    {
        match self {
            Key::AluLatency => "alu_latency",
            Key::BranchLatency => "branch_latency",
            Key::ExtraRegisters => "extra_registers",
            Key::Fetch => "fetch",
            Key::FrontDelay => "front_delay",
            Key::HitLatency => "hit_latency",
            Key::Issue => "issue",
            Key::IssueQueue => "issue_queue",
            Key::IssueWidth => "issue_width",
            Key::LoadQueue => "load_queue",
            Key::MissLatency => "miss_latency",
            Key::Num1 => "num1",
            Key::Num2 => "num2",
            Key::RenameWidth => "rename_width",
            Key::ReorderBuffer => "reorder_buffer",
            Key::RetireWidth => "retire_width",
            Key::StoreLatency => "store_latency",
            Key::StoreQueue => "store_queue",
        }
    }

    /// The key of a name, if it is one.
    pub fn from_name(name: &str) -> Option<Key>
        ensures { result ≡ spec.key_named name.now }
    {
        for key in Key::all() {
            if key.name() == name {
                return Some(key);
            }
        }
        None
    }

    /// Whether a number may stand at the key.
    #[tactic(auto, unfolding(crate::specs::Tables::allows))]
    pub fn allows(self, number: u64) -> bool
        ensures { result ≡ spec.allows (spec.range_of self) number }
    {
        match self {
            Key::Fetch | Key::Issue => false,
            Key::Num1 => number == 1 || number == 2 || number == 4,
            Key::Num2 | Key::RenameWidth | Key::IssueWidth | Key::FrontDelay => {
                1 <= number && number <= 8
            }
            Key::RetireWidth => 1 <= number && number <= 16,
            Key::IssueQueue | Key::ReorderBuffer => 8 <= number && number <= 64,
            Key::LoadQueue | Key::StoreQueue => 4 <= number && number <= 32,
            Key::ExtraRegisters => 32 <= number && number <= 224,
            Key::AluLatency
            | Key::BranchLatency
            | Key::StoreLatency
            | Key::HitLatency
            | Key::MissLatency => 1 <= number && number <= 200,
        }
    }
}

impl fmt::Display for Key {
    ghost use Rattle.std.specs.Prelude.{Some};

    ghost output = { λ key. Some (spec.name_of key) };

    fn fmt<W: fmt::Write>(&self, f: &mut fmt::Formatter<W>) -> fmt::Result {
        f.write_str(self.name())
    }
}
