//! What entered at each of the 64 places of the queue.

ghost use Rattle.std.specs.Prelude.{◌≡◌, ℕ, ◌<◌, ◌==◌, false, slice_set, if◌then◌else◌};
ghost use Rattle.word_mask.specs.Mask.{has};
ghost use Rattle.issue_queue.specs.Entries.{AreWide, entry_at};

use crate::entry::Queued;
use join_law::Ctx;
use rename_file::PhysicalRegister;

// An array for each field: an entry has no padding to clear, its place takes no multiplication, and what is read apart
// is loaded alone. The words of loads and of guesses stand apart: side by side they are made a vector of at each entry,
// which takes more than two words do.
#[derive(Drop)]
pub(crate) struct Entries {
    pub stamps: [u64; 64],
    pub contexts: [Ctx; 64],
    /// The places of loads. None of them is free.
    pub loads: u64,
    pub firsts: [PhysicalRegister; 64],
    pub seconds: [PhysicalRegister; 64],
    /// The places of conditional branches and JALRs. None of them is free, so that an entry that enters has no bit to clear.
    pub guesses: u64,
    pub speculative: [bool; 64],
}

impl Entries {
    /// Blank entries.
    pub(crate) fn new() -> Entries
        ensures guesses { result.guesses ≡ 0 }
        ensures loads { result.loads ≡ 0 }
    {
        let [context, ..] = Ctx::all();
        let register = PhysicalRegister::default();
        Entries {
            stamps: [0; 64],
            contexts: [context; 64],
            loads: 0,
            firsts: [register; 64],
            seconds: [register; 64],
            guesses: 0,
            speculative: [false; 64],
        }
    }

    /// What entered at a place.
    #[inline(always)]
    pub(crate) fn read(&self, place: usize) -> Queued
        requires { place < 64 }
        ensures { result ≡ entry_at self.now place }
    {
        Queued {
            stamp: self.stamps[place],
            context: self.contexts[place],
            first: self.firsts[place],
            second: self.seconds[place],
            guessed: word_mask::has(self.guesses, place),
            load: word_mask::has(self.loads, place),
            speculative: self.speculative[place],
        }
    }

    /// An entry enters at a place that is neither guessed nor a load.
    #[inline(always)]
    pub(crate) fn write(&mut self, place: usize, entry: Queued)
        requires bound { place < 64 }
        requires unguessed { has self.old.guesses place ≡ false }
        requires no_load { has self.old.loads place ≡ false }
        ensures { (p : ℕ) → entry_at self.new p ≡ (if p == place then entry else entry_at self.old p) }
    {
        self.stamps[place] = entry.stamp;
        self.contexts[place] = entry.context;
        self.firsts[place] = entry.first;
        self.seconds[place] = entry.second;
        self.guesses = word_mask::added(self.guesses, place, entry.guessed);
        self.loads = word_mask::added(self.loads, place, entry.load);
        self.speculative[place] = entry.speculative;
    }

    /// Marks the entry at a place as speculative or not.
    pub(crate) fn set_speculative(&mut self, place: usize, speculative: bool)
        requires { place < 64 }
        ensures wide { AreWide self.old }
        ensures entries { self.new ≡ record self.old { speculative = slice_set self.old.speculative place speculative } }
    {
        self.speculative[place] = speculative;
    }
}
