//! The 64 places of the queue, and words with a bit for each.

ghost use Rattle.std.specs.Prelude.{◌≡◌, ℕ, ◌<◌, true, false, not, ◌&&◌, ◌||◌, ◌==◌, ◌^◌, slice_index, count_ones, if◌then◌else◌, IfSome, IfNone};
ghost use Rattle.word_mask.specs.Mask.{has};
ghost use Rattle.issue_queue.specs.Board.{InStep, IsMask, is_of, slot};
ghost use Rattle.issue_queue.specs.Entry.{is_named, is_ready, is_supplied, waits_for_two};
ghost use Rattle.issue_queue.specs.IssueQueue.{awake, is_from, released};
ghost use Rattle.issue_queue.specs.Stamps.{IsPlaceOfOldest};
ghost use Rattle.issue_queue.specs.Views.{AreAlike, entered};

use crate::slots::{Slots, either, mark};
use crate::{Reading, stamps};
use join_law::Ctx;
use rename_file::PhysicalRegister;

/// Sixty-four places for entries, and of each word the bit of a place.
// Apart from the others stands the word of those that wait for two registers: beside the word of those that wait for
// nothing the two become a vector at each entry, which takes more than two words do, and behind the contexts' words it is
// read with them right after it is written.
#[derive(Drop)]
pub(crate) struct Places {
    /// The places that are taken.
    pub(crate) valid: u64,
    /// Those that wait for nothing.
    pub(crate) supplied: u64,
    /// Those of each context.
    pub(crate) contexts: [u64; 8],
    /// What stands at each place.
    pub(crate) slots: Slots,
    /// Those that wait for two registers.
    pub(crate) two: u64,
}

/// The bit of a place, where told so.
#[inline(always)]
fn bit(place: usize, flag: bool) -> u64
    requires { place < 64 }
    ensures { (p : ℕ) → has result p ≡ ((p == place) && flag) }
{
    word_mask::added(0, place, flag)
}

/// The bit of a place, where an entry that enters there waits for nothing.
#[inline(always)]
fn supplied_bit(place: usize, reading: &Reading) -> u64
    requires { place < 64 }
    ensures { (p : ℕ) → has result p ≡ ((p == place) && is_supplied (entered reading.now)) }
{
    let first = bit(place, reading.first.awaited);
    let second = bit(place, reading.second.awaited);
    word_mask::without(bit(place, true), either(first, second))
}

/// The bit of a place, where an entry that enters there waits for two registers.
#[inline(always)]
fn two_bit(place: usize, reading: &Reading) -> u64
    requires { place < 64 }
    ensures { (p : ℕ) → has result p ≡ ((p == place) && waits_for_two (entered reading.now)) }
{
    let first = bit(place, reading.first.awaited);
    let second = bit(place, reading.second.awaited);
    if reading.first.register == reading.second.register {
        0
    } else {
        word_mask::both(first, second)
    }
}

impl Places {
    /// Sixty-four free places.
    pub(crate) fn new() -> Places
        ensures step { InStep result }
        ensures free { result.valid ≡ 0 }
    {
        Places {
            slots: Slots::new(),
            valid: 0,
            supplied: 0,
            contexts: [0; 8],
            two: 0,
        }
    }

    /// How many places are taken.
    pub(crate) fn len(&self) -> usize
        ensures value { result ≡ count_ones self.now.valid }
        ensures fits { self.now.valid < 2 ^ 64 }
    {
        self.valid.count_ones() as usize
    }

    /// Puts an entry into a free place.
    #[inline(always)]
    pub(crate) fn put(&mut self, place: usize, reading: &Reading)
        requires step { InStep self.old }
        requires bound { place < 64 }
        requires free { has self.old.valid place ≡ false }
        requires alike { AreAlike reading.now }
        ensures step { InStep self.new }
        ensures valid { (p : ℕ) → has self.new.valid p ≡ (has self.old.valid p || (p == place)) }
        ensures slots { (p : ℕ) → slot self.new.slots p ≡ (if p == place then entered reading.now else slot self.old.slots p) }
    {
        self.slots.put(place, reading);
        self.valid = word_mask::assigned(self.valid, place, true);
        self.supplied = either(self.supplied, supplied_bit(place, reading));
        self.two = either(self.two, two_bit(place, reading));
        mark(&mut self.contexts, reading.context.index(), place, true);
    }

    /// Frees a place. It leaves every word.
    pub(crate) fn free(&mut self, place: usize)
        requires step { InStep self.old }
        requires bound { place < 64 }
        requires set { has self.old.valid place ≡ true }
        ensures step { InStep self.new }
        ensures valid { (p : ℕ) → has self.new.valid p ≡ (has self.old.valid p && not (p == place)) }
        ensures slots { (p : ℕ) → (p == place) ≡ false → slot self.new.slots p ≡ slot self.old.slots p }
    {
        let context = self.slots.at(place).context();
        self.slots.forget(place);
        self.slots.set_held(place, false);
        self.valid = word_mask::cleared(self.valid, place);
        self.supplied = word_mask::assigned(self.supplied, place, false);
        self.two = word_mask::assigned(self.two, place, false);
        mark(&mut self.contexts, context.index(), place, false);
    }

    /// No entry waits for a register any more. Gives how many places it looked at.
    pub(crate) fn wake(&mut self, register: PhysicalRegister) -> usize
        requires step { InStep self.old }
        ensures step { InStep self.new }
        ensures valid { self.new.valid ≡ self.old.valid }
        ensures slots { (p : ℕ) → slot self.new.slots p ≡ awake register (slot self.old.slots p) }
        ensures looked { result ≡ count_ones (slice_index self.old.slots.waiters register) }
    {
        let word = self.slots.wake(register);
        self.supplied = either(self.supplied, word_mask::without(word, self.two));
        self.two = word_mask::without(self.two, word);
        word.count_ones() as usize
    }

    /// Holds the entry of a place, or lets it go.
    pub(crate) fn set_held(&mut self, place: usize, held: bool)
        requires step { InStep self.old }
        requires bound { place < 64 }
        requires set { has self.old.valid place ≡ true }
        ensures step { InStep self.new }
        ensures valid { self.new.valid ≡ self.old.valid }
        ensures slots { (p : ℕ) → slot self.new.slots p ≡ (if p == place then record (slot self.old.slots p) { held = held } else slot self.old.slots p) }
    {
        self.slots.set_held(place, held);
    }

    /// Holds the entries of the places of a word, beside those that are held.
    pub(crate) fn hold_all(&mut self, word: u64)
        requires step { InStep self.old }
        requires taken { (p : ℕ) → has word p ≡ true → has self.old.valid p ≡ true }
        ensures step { InStep self.new }
        ensures valid { self.new.valid ≡ self.old.valid }
        ensures slots { (p : ℕ) → slot self.new.slots p ≡ (if has word p then record (slot self.old.slots p) { held = true } else slot self.old.slots p) }
    {
        self.slots.hold_all(word);
    }

    /// Lets all entries go.
    pub(crate) fn release(&mut self)
        requires step { InStep self.old }
        ensures step { InStep self.new }
        ensures valid { self.new.valid ≡ self.old.valid }
        ensures slots { (p : ℕ) → slot self.new.slots p ≡ released (slot self.old.slots p) }
    {
        self.slots.release();
    }

    /// Marks the entry of a place as speculative or not.
    pub(crate) fn set_speculative(&mut self, place: usize, speculative: bool)
        requires step { InStep self.old }
        requires bound { place < 64 }
        ensures step { InStep self.new }
        ensures valid { self.new.valid ≡ self.old.valid }
        ensures slots { (p : ℕ) → slot self.new.slots p ≡ (if p == place then record (slot self.old.slots p) { speculative = speculative } else slot self.old.slots p) }
    {
        self.slots.set_speculative(place, speculative);
    }

    /// The place of the entry of a context and stamp.
    pub(crate) fn find(&self, context: Ctx, stamp: u64) -> Option<usize>
        requires { InStep self.now }
        ensures found { IfSome result (λ p. (p < 64) × (has self.now.valid p ≡ true) × (is_named context stamp (slot self.now.slots p) ≡ true)) }
        ensures missing { IfNone result ((p : ℕ) → has self.now.valid p ≡ true → is_named context stamp (slot self.now.slots p) ≡ false) }
    {
        let mut left = self.contexts[context.index()];
        while left != 0 {
            let place = word_mask::lowest(left);
            if self.slots.at(place).is_named(context, stamp) {
                return Some(place);
            }
            left = word_mask::cleared(left, place);
        }
        None
    }

    /// Frees the places of the entries of a context that have at least this stamp.
    pub(crate) fn free_from(&mut self, context: Ctx, stamp: u64)
        requires { InStep self.old }
        ensures step { InStep self.new }
        ensures valid { (p : ℕ) → has self.new.valid p ≡ (has self.old.valid p && not (is_from context stamp (slot self.old.slots p))) }
        ensures slots { (p : ℕ) → has self.new.valid p ≡ true → slot self.new.slots p ≡ slot self.old.slots p }
    {
        let mut left = self.contexts[context.index()];
        while left != 0 {
            let place = word_mask::lowest(left);
            left = word_mask::cleared(left, place);
            if self.slots.at(place).is_from(context, stamp) {
                self.free(place);
            }
        }
    }

    /// How many entries of a context there are.
    pub(crate) fn count(&self, context: Ctx) -> usize
        requires { InStep self.now }
        ensures { (word : ℕ) × (word < 2 ^ 64) × (result ≡ count_ones word) × IsMask (λ e. e.context == context) self.now.valid self.now.slots word }
    {
        self.contexts[context.index()].count_ones() as usize
    }

    /// How many guessed entries of a context there are.
    pub(crate) fn guessed_count(&self, context: Ctx) -> usize
        requires { InStep self.now }
        ensures { (word : ℕ) × (word < 2 ^ 64) × (result ≡ count_ones word) × IsMask (λ e. (e.context == context) && e.guessed) self.now.valid self.now.slots word }
    {
        word_mask::both(self.contexts[context.index()], self.slots.guesses()).count_ones() as usize
    }

    /// The places that are ready: they wait for nothing and are not held.
    pub(crate) fn ready(&self) -> u64
        requires { InStep self.now }
        ensures { IsMask is_ready self.now.valid self.now.slots result }
    {
        word_mask::without(self.supplied, self.slots.held())
    }

    /// The places of loads that are ready.
    #[inline(always)]
    pub(crate) fn ready_loads(&self) -> u64
        requires { InStep self.now }
        ensures { IsMask (λ e. is_ready e && e.load) self.now.valid self.now.slots result }
    {
        word_mask::both(self.ready(), self.slots.loads())
    }

    /// How many entries are older than the oldest entry of a context, or `None` where it has none.
    pub(crate) fn oldest_place(&self, context: Ctx) -> Option<usize>
        requires { InStep self.now }
        ensures some { IfSome result (IsPlaceOfOldest context self.now.valid self.now.slots) }
        ensures none { IfNone result ((p : ℕ) → has self.now.valid p ≡ true → is_of context (slot self.now.slots p) ≡ false) }
    {
        let own = self.contexts[context.index()];
        if own == 0 {
            return None;
        }
        let oldest = stamps::oldest(&self.slots, own);
        let others = word_mask::without(self.valid, own);
        let older = stamps::older(&self.slots, others, oldest);
        Some(older.count_ones() as usize)
    }

    /// Frees the places of a word, whose entries are ready.
    pub(crate) fn free_ready(&mut self, word: u64)
        requires step { InStep self.old }
        requires ready { (p : ℕ) → has word p ≡ true → is_ready (slot self.old.slots p) ≡ true }
        ensures step { InStep self.new }
        ensures valid { (p : ℕ) → has self.new.valid p ≡ (has self.old.valid p && not (has word p)) }
        ensures slots { (p : ℕ) → has self.new.valid p ≡ true → slot self.new.slots p ≡ slot self.old.slots p }
    {
        self.valid = word_mask::without(self.valid, word);
        self.supplied = word_mask::without(self.supplied, word);
        self.two = word_mask::without(self.two, word);
        word_mask::without_each(&mut self.contexts, word);
        self.slots.forget_flags(word);
    }

    /// Frees the places of a word one by one, whatever their entries wait for.
    #[cold]
    #[inline(never)]
    fn free_each(&mut self, word: u64)
        requires step { InStep self.old }
        requires taken { (p : ℕ) → has word p ≡ true → has self.old.valid p ≡ true }
        ensures step { InStep self.new }
        ensures valid { (p : ℕ) → has self.new.valid p ≡ (has self.old.valid p && not (has word p)) }
        ensures slots { (p : ℕ) → has self.new.valid p ≡ true → slot self.new.slots p ≡ slot self.old.slots p }
    {
        let mut left = word;
        while left != 0 {
            let place = word_mask::lowest(left);
            left = word_mask::cleared(left, place);
            self.free(place);
        }
    }

    /// Frees the places whose entries are held. What waits for nothing, as nearly all of it does, leaves by words alone.
    #[inline(always)]
    pub(crate) fn free_held(&mut self)
        requires { InStep self.old }
        ensures step { InStep self.new }
        ensures valid { (p : ℕ) → has self.new.valid p ≡ (has self.old.valid p && not (slot self.old.slots p).held) }
        ensures slots { (p : ℕ) → has self.new.valid p ≡ true → slot self.new.slots p ≡ slot self.old.slots p }
    {
        let held = self.slots.held();
        let supplied = word_mask::both(held, self.supplied);
        let waiting = word_mask::without(held, self.supplied);
        self.release();
        self.free_ready(supplied);
        if waiting != 0 {
            self.free_each(waiting);
        }
    }
}
