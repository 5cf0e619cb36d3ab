//! What stands at each of the 64 places of the queue.

ghost use Rattle.std.specs.Prelude.{◌≡◌, ℕ, ◌<◌, ◌==◌, ◌&&◌, ◌||◌, not, true, false, length, slice_index, slice_set, if◌then◌else◌};
ghost use Rattle.std.specs.List.{list_any};
ghost use Rattle.word_mask.specs.Mask.{has};
ghost use Rattle.issue_queue.specs.Board.{slot, unflagged, waits_for};
ghost use Rattle.issue_queue.specs.Entries.{entry_at};
ghost use Rattle.issue_queue.specs.IssueQueue.{awake, released};
ghost use Rattle.issue_queue.specs.Views.{AreAlike, awaited_of, entered, reads_of};

use crate::entries::Entries;
use crate::entry::Queued;
use crate::{Reading, Source};
use rename_file::PhysicalRegister;

/// An entry at each place, which of them are held, and which wait for a register. An entry waits for those of the
/// registers that it reads whose words have its place.
#[derive(Drop)]
pub(crate) struct Slots {
    /// The places of loads that are held. None of them is free, so that an entry that enters has no bit to clear.
    held: u64,
    /// What entered at each place; at one that is free, what stood there last, as an entry that is neither guessed nor a load.
    entries: Entries,
    /// The places that wait for each physical register.
    waiters: [u64; 480],
}

/// Sets the bit of a place in the word of an index, or clears it.
pub(crate) fn mark(words: &mut [u64], index: usize, place: usize, flag: bool)
    requires index { index < length words.old }
    requires place { place < 64 }
    ensures words { (i p : ℕ) → has (slice_index words.new i) p ≡ (if (p == place) && (i == index) then flag else has (slice_index words.old i) p) }
    ensures length { length words.new ≡ length words.old }
{
    words[index] = word_mask::assigned(words[index], place, flag);
}

/// Clears the bit of a place in the word of each register that an entry reads.
fn clear_sources(words: &mut [u64; 480], entry: &Queued, place: usize)
    requires { place < 64 }
    ensures { (i p : ℕ) → has (slice_index words.new i) p ≡ (if (p == place) && list_any (λ r. r == i) (reads_of entry.now) then false else has (slice_index words.old i) p) }
{
    let [first, second] = entry.sources();
    mark(words, first.index(), place, false);
    mark(words, second.index(), place, false);
}

/// Sets the bit of a place in the word of a source, if it is waited for, without a jump.
#[inline(always)]
fn add_source(words: &mut [u64], source: &Source, place: usize)
    requires length { length words.old ≡ 480 }
    requires place { place < 64 }
    ensures words { (i p : ℕ) → has (slice_index words.new i) p ≡ (if (p == place) && list_any (λ r. r == i) (awaited_of source.now) then true else has (slice_index words.old i) p) }
    ensures length { length words.new ≡ length words.old }
{
    let index = source.register.index();
    words[index] = word_mask::added(words[index], place, source.awaited);
}

/// Sets the bit of a place in the word of each source of an entry that is waited for.
#[inline(always)]
fn add_sources(words: &mut [u64; 480], reading: &Reading, place: usize)
    requires { place < 64 }
    ensures { (i p : ℕ) → has (slice_index words.new i) p ≡ (if (p == place) && list_any (λ r. r == i) (entered reading.now).waits then true else has (slice_index words.old i) p) }
{
    add_source(words, &reading.first, place);
    add_source(words, &reading.second, place);
}

/// The bits that one of two words has.
pub(crate) fn either(left: u64, right: u64) -> u64
    ensures { (p : ℕ) → has result p ≡ (has left p || has right p) }
{
    left | right
}

impl Slots {
    /// Blank entries, none of them held.
    pub(crate) fn new() -> Slots
        ensures held { result.held ≡ 0 }
        ensures guesses { result.entries.guesses ≡ 0 }
        ensures loads { result.entries.loads ≡ 0 }
        ensures waiters { (r : ℕ) → r < 480 → slice_index result.waiters r ≡ 0 }
    {
        Slots {
            entries: Entries::new(),
            held: 0,
            waiters: [0; 480],
        }
    }

    /// What entered at a place.
    #[inline(always)]
    pub(crate) fn at(&self, place: usize) -> Queued
        requires { place < 64 }
        ensures { result ≡ entry_at self.now.entries place }
    {
        self.entries.read(place)
    }

    /// The places whose entries are held.
    pub(crate) fn held(&self) -> u64
        ensures { (p : ℕ) → has result p ≡ (slot self.now p).held }
    {
        self.held
    }

    /// The places whose entries are guessed.
    pub(crate) fn guesses(&self) -> u64
        ensures { (p : ℕ) → has result p ≡ (slot self.now p).guessed }
    {
        self.entries.guesses
    }

    /// The places whose entries are loads.
    pub(crate) fn loads(&self) -> u64
        ensures { (p : ℕ) → has result p ≡ (slot self.now p).load }
    {
        self.entries.loads
    }

    /// The contexts of the entries at the places of a word, as the bits of one.
    #[inline(always)]
    pub(crate) fn contexts_of(&self, word: u64) -> u64
        ensures known { (c : ℕ) → has result c ≡ true → c < 8 }
        ensures found { (c : ℕ) → has result c ≡ true → (p : ℕ) × (has word p ≡ true) × ((slot self.now p).context ≡ c) }
        ensures all { (p : ℕ) → has word p ≡ true → has result (slot self.now p).context ≡ true }
    {
        let mut contexts = 0u64;
        let mut left = word;
        while left != 0 {
            let place = word_mask::lowest(left);
            left = word_mask::cleared(left, place);
            let context = self.at(place).context();
            contexts = word_mask::assigned(contexts, context.index(), true);
        }
        contexts
    }

    /// An entry enters at a place that no word has.
    #[inline(always)]
    pub(crate) fn put(&mut self, place: usize, reading: &Reading)
        requires bound { place < 64 }
        requires free { (r : ℕ) → has (slice_index self.old.waiters r) place ≡ false }
        requires let_go { has self.old.held place ≡ false }
        requires unguessed { has self.old.entries.guesses place ≡ false }
        requires no_load { has self.old.entries.loads place ≡ false }
        requires alike { AreAlike reading.now }
        ensures slots { (p : ℕ) → slot self.new p ≡ (if p == place then entered reading.now else slot self.old p) }
        ensures waiters { (r p : ℕ) → has (slice_index self.new.waiters r) p ≡ (if (p == place) && waits_for r (entered reading.now) then true else has (slice_index self.old.waiters r) p) }
    {
        self.entries.write(place, Queued::new(reading));
        add_sources(&mut self.waiters, reading, place);
    }

    /// The bit of a place leaves the word of each register that its entry reads, and those of guessed entries and of loads.
    pub(crate) fn forget(&mut self, place: usize)
        requires { place < 64 }
        ensures slots { (p : ℕ) → (p == place) ≡ false → slot self.new p ≡ slot self.old p }
        ensures unguessed { (slot self.new place).guessed ≡ false }
        ensures no_load { (slot self.new place).load ≡ false }
        ensures waiters { (r p : ℕ) → has (slice_index self.new.waiters r) p ≡ (if (p == place) && list_any (λ w. w == r) (reads_of (entry_at self.old.entries place)) then false else has (slice_index self.old.waiters r) p) }
    {
        let entry = self.entries.read(place);
        clear_sources(&mut self.waiters, &entry, place);
        self.entries.guesses = word_mask::assigned(self.entries.guesses, place, false);
        self.entries.loads = word_mask::assigned(self.entries.loads, place, false);
    }

    /// The bits of a word leave those of guessed entries and of loads.
    pub(crate) fn forget_flags(&mut self, word: u64)
        ensures slots { (p : ℕ) → slot self.new p ≡ unflagged (has word p) (slot self.old p) }
        ensures waiters { self.new.waiters ≡ self.old.waiters }
    {
        self.entries.guesses = word_mask::without(self.entries.guesses, word);
        self.entries.loads = word_mask::without(self.entries.loads, word);
    }

    /// No entry waits for a register any more. Gives the places of those that did.
    pub(crate) fn wake(&mut self, register: PhysicalRegister) -> u64
        ensures word { result ≡ slice_index self.old.waiters register }
        ensures slots { (p : ℕ) → slot self.new p ≡ awake register (slot self.old p) }
        ensures waiters { self.new.waiters ≡ slice_set self.old.waiters register 0 }
    {
        let index = register.index();
        let word = self.waiters[index];
        self.waiters[index] = 0;
        word
    }

    /// Marks whether an older guessed entry of its context has not completed, of the entry at a place.
    pub(crate) fn set_speculative(&mut self, place: usize, speculative: bool)
        requires { place < 64 }
        ensures slots { (p : ℕ) → slot self.new p ≡ (if p == place then record (slot self.old p) { speculative = speculative } else slot self.old p) }
        ensures waiters { self.new.waiters ≡ self.old.waiters }
    {
        self.entries.set_speculative(place, speculative);
    }

    /// Holds the entry at a place, or lets it go.
    pub(crate) fn set_held(&mut self, place: usize, held: bool)
        requires { place < 64 }
        ensures slots { (p : ℕ) → slot self.new p ≡ (if p == place then record (slot self.old p) { held = held } else slot self.old p) }
        ensures waiters { self.new.waiters ≡ self.old.waiters }
    {
        self.held = word_mask::assigned(self.held, place, held);
    }

    /// Holds the entries at the places of a word, beside those that are held.
    pub(crate) fn hold_all(&mut self, word: u64)
        ensures slots { (p : ℕ) → slot self.new p ≡ (if has word p then record (slot self.old p) { held = true } else slot self.old p) }
        ensures waiters { self.new.waiters ≡ self.old.waiters }
    {
        self.held = either(self.held, word);
    }

    /// Lets all entries go.
    pub(crate) fn release(&mut self)
        ensures slots { (p : ℕ) → slot self.new p ≡ released (slot self.old p) }
        ensures waiters { self.new.waiters ≡ self.old.waiters }
    {
        self.held = 0;
    }
}
