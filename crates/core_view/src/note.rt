//! What a cycle did.
ghost use Rattle.std.specs.Prelude.{◌≡◌, []};

use arrayvec::ArrayVec;
use join_law::Ctx;

/// An entry by its context and stamp.
#[derive(Clone, Copy, Debug, PartialEq, Eq)]
pub struct EntryId {
    /// The context.
    pub context: Ctx,
    /// The stamp.
    pub stamp: u64,
}

impl Default for EntryId {
    fn default() -> EntryId {
        let [context, ..] = Ctx::all();
        EntryId { context, stamp: 0 }
    }
}

/// An entry that issued.
#[derive(Clone, Copy, Debug, PartialEq, Eq, Default)]
pub struct Issue {
    /// Which one.
    pub entry: EntryId,
    /// After how many cycles it completes.
    pub latency: u8,
    /// Whether that is a miss.
    pub miss: bool,
}

/// What a cycle did. It takes no memory.
#[derive(Debug, PartialEq, Eq, Drop)]
pub struct CycleNote {
    /// What was fetched, in order.
    pub fetched: ArrayVec<EntryId, 8>,
    /// What was renamed, in order.
    pub renamed: ArrayVec<EntryId, 8>,
    /// What issued, in the order of selection.
    pub issued: ArrayVec<Issue, 8>,
    /// What retired, in order.
    pub retired: ArrayVec<EntryId, 16>,
    /// How many entries completed.
    pub completed: u32,
    /// How many entries left the flights without retiring.
    pub cut: u32,
}

impl CycleNote {
    /// The note of a cycle in which nothing was done yet.
    pub fn new() -> CycleNote
        ensures { result ≡ record {
          fetched = record { items = [] };
          renamed = record { items = [] };
          issued = record { items = [] };
          retired = record { items = [] };
          completed = 0;
          cut = 0;
        } }
    {
        CycleNote {
            fetched: ArrayVec::new(),
            renamed: ArrayVec::new(),
            issued: ArrayVec::new(),
            retired: ArrayVec::new(),
            completed: 0,
            cut: 0,
        }
    }
}
