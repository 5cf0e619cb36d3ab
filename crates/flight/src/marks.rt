//! The words of a flight.

ghost use Rattle.std.specs.Prelude.{◌≡◌, ℕ, Bool, false, ◌&&◌, not, ◌<◌, ◌≤◌, List, [], ◌∷◌, ◌++◌, length, take, drop, slice_set, count_by};
ghost use Rattle.core_view.specs.declared.entry.Entry.{Entry};
ghost use Rattle.core_view.specs.declared.entry.Execution.{Execution};
ghost use Rattle.core_view.specs.declared.entry.Stage.TheVariants.{Queued, Issued, Done};
ghost use Rattle.core_view.specs.Operations.{is_load};
ghost use Rattle.core_view.specs.Kinds.{kind_index};
ghost use Rattle.core_view.specs.Flight.{is_open_guess, is_missed_load};
ghost use Rattle.flight.specs.Marked.{marks_of, kinds_of, words_of, word_of, is_of_kind, is_waiting, is_waiting_load, is_issued_load, is_completed_store, is_load_that_missed, missed_at_issue};
ghost use Rattle.flight.specs.Flights.{entry_in};

use bit_vector::{assign, count, first, push, without_first, without_first_of_each};
use core_view::{Entry, OperationKind};

/// The word after those of the six kinds: it waits for issue.
const WAITING: usize = 6;
/// The one after that: it is a load that was issued and missed, done or not.
const MISSED_LOADS: usize = 7;

/// A bit a renamed entry, bit 0 for the oldest.
#[derive(Clone, Copy)]
pub(crate) struct Marks {
    // A word a kind of operation: it is of this kind. Then the two named above. They stand side by side since a retirement
    // shifts them as whole vectors: what is stored in halves and read back whole waits in the processor.
    words: [u64; 8],
    /// It is done.
    pub(crate) done: u64,
}

impl Marks {
    /// Of no entry.
    pub(crate) fn new() -> Marks
        ensures { result ≡ marks_of [] }
    {
        Marks {
            words: [0; 8],
            done: 0,
        }
    }

    /// With an entry more, the youngest.
    #[inline]
    pub(crate) fn push(&mut self, place: usize, entry: &Entry)
        requires { place < 64 }
        ensures { (es : List Entry) → self.old ≡ marks_of es → place ≡ length es → self.new ≡ marks_of (es ++ entry.now ∷ []) }
    {
        push_kind(&mut self.words, place, entry);
        push_waiting(&mut self.words, place, is_waiting(entry));
        let missed = is_load_that_missed(entry);
        self.words[MISSED_LOADS] = push(self.words[MISSED_LOADS], place, missed);
        self.done = push(self.done, place, entry.stage.is_done());
    }

    /// With an entry more, the youngest, which waits for issue.
    #[inline(always)]
    pub(crate) fn push_queued(&mut self, place: usize, entry: &Entry)
        requires { place < 64 }
        ensures { (es : List Entry) → self.old ≡ marks_of es → place ≡ length es → entry.now.stage ≡ Queued → self.new ≡ marks_of (es ++ entry.now ∷ []) }
    {
        // The other bits at the place are clear already.
        push_kind(&mut self.words, place, entry);
        push_waiting(&mut self.words, place, true);
    }

    /// With an entry at a place that has issued, where it waited.
    #[inline]
    pub(crate) fn issue(&mut self, place: usize, entry: &Entry)
        requires { place < 64 }
        ensures { (es : List Entry) (x : Execution) → self.old ≡ marks_of es → (entry_in es place).stage ≡ Queued → (entry_in es place).operation ≡ entry.now.operation → entry.now.stage ≡ Issued x →
            place < length es → length es ≤ 64 → self.new ≡ marks_of (slice_set es place entry.now) }
    {
        self.words[WAITING] = assign(self.words[WAITING], place, false);
        let missed = is_load_that_missed(entry);
        self.words[MISSED_LOADS] = assign(self.words[MISSED_LOADS], place, missed);
    }

    /// With another entry at a place, which is no load and has issued, where it waited.
    #[inline]
    pub(crate) fn issue_other(&mut self, place: usize)
        requires { place < 64 }
        ensures { (es : List Entry) (e : Entry) (x : Execution) → self.old ≡ marks_of es → (entry_in es place).stage ≡ Queued → (entry_in es place).operation ≡ e.operation → is_load e.operation ≡ false → e.stage ≡ Issued x →
            place < length es → length es ≤ 64 → self.new ≡ marks_of (slice_set es place e) }
    {
        let waiting = self.words[WAITING];
        self.words[WAITING] = assign(waiting, place, false);
    }

    /// With another entry at a place, which was issued and is done now: it waits neither before nor after.
    #[inline]
    pub(crate) fn finish(&mut self, place: usize)
        requires { place < 64 }
        ensures { (es : List Entry) (e : Entry) (x : Execution) → self.old ≡ marks_of es → place < length es → length es ≤ 64 → (entry_in es place).stage ≡ Issued x → (entry_in es place).operation ≡ e.operation → e.stage ≡ Done x →
            self.new ≡ marks_of (slice_set es place e) }
    {
        self.done = assign(self.done, place, true);
    }

    /// Without the oldest entry.
    #[inline]
    pub(crate) fn retire(&mut self)
        ensures { (es : List Entry) → self.old ≡ marks_of es → self.new ≡ marks_of (drop 1 es) }
    {
        drop_oldest(&mut self.words);
        self.done = without_first(self.done);
    }

    /// Of the oldest entries.
    #[inline]
    pub(crate) fn keep(&mut self, count: usize)
        ensures { (es : List Entry) → self.old ≡ marks_of es → length es ≤ 64 → self.new ≡ marks_of (take count es) }
    {
        let [plain, jump, guessed, load, store, stop, waiting, missed] = self.words;
        self.words = [
            first(plain, count),
            first(jump, count),
            first(guessed, count),
            first(load, count),
            first(store, count),
            first(stop, count),
            first(waiting, count),
            first(missed, count),
        ];
        self.done = first(self.done, count);
    }

    /// The word of a kind.
    #[inline(always)]
    pub(crate) fn of_kind(&self, kind: OperationKind) -> u64
        ensures { (es : List Entry) → self.now ≡ marks_of es → result ≡ word_of (is_of_kind (kind_index kind)) es }
    {
        self.words[kind.index()]
    }

    /// A word of those of a kind that have their bit in another word.
    #[inline(always)]
    fn of_kind_in(&self, kind: OperationKind, word: u64) -> u64
        ensures { (es : List Entry) (test both : Entry → Bool) → self.now ≡ marks_of es → word ≡ word_of test es → ((e : Entry) → (is_of_kind (kind_index kind) e && test e) ≡ both e) →
            result ≡ word_of both es }
    {
        self.of_kind(kind) & word
    }

    /// A word of those of a kind that don't have their bit in another word.
    #[inline(always)]
    fn of_kind_but(&self, kind: OperationKind, word: u64) -> u64
        ensures { (es : List Entry) (test rest : Entry → Bool) → self.now ≡ marks_of es → length es ≤ 64 → word ≡ word_of test es → ((e : Entry) → (is_of_kind (kind_index kind) e && not (test e)) ≡ rest e) →
            result ≡ word_of rest es }
    {
        self.of_kind(kind) & !word
    }

    /// A word of those that wait for issue.
    #[inline(always)]
    pub(crate) fn waiting(&self) -> u64
        ensures { (es : List Entry) → self.now ≡ marks_of es → result ≡ word_of is_waiting es }
    {
        self.words[WAITING]
    }

    /// A word of the loads that wait for issue.
    #[inline(always)]
    pub(crate) fn waiting_loads(&self) -> u64
        ensures { (es : List Entry) → self.now ≡ marks_of es → length es ≤ 64 → result ≡ word_of is_waiting_load es }
    {
        self.of_kind_in(OperationKind::Load, self.waiting())
    }

    /// A word of the loads that have issued.
    #[inline(always)]
    pub(crate) fn issued_loads(&self) -> u64
        ensures { (es : List Entry) → self.now ≡ marks_of es → length es ≤ 64 → result ≡ word_of is_issued_load es }
    {
        self.of_kind_but(OperationKind::Load, self.waiting())
    }

    /// A word of the stores that have completed.
    #[inline(always)]
    pub(crate) fn completed_stores(&self) -> u64
        ensures { (es : List Entry) → self.now ≡ marks_of es → result ≡ word_of is_completed_store es }
    {
        self.of_kind_in(OperationKind::Store, self.done)
    }

    /// A word of those that are guessed and have not completed.
    #[inline(always)]
    pub(crate) fn open_guesses(&self) -> u64
        ensures { (es : List Entry) → self.now ≡ marks_of es → length es ≤ 64 → result ≡ word_of is_open_guess es }
    {
        self.of_kind_but(OperationKind::Guessed, self.done)
    }

    /// How many loads were issued, have not completed, and missed.
    #[inline]
    pub(crate) fn missed_count(&self) -> usize
        ensures { (es : List Entry) → self.now ≡ marks_of es → length es ≤ 64 → result ≡ count_by is_missed_load es }
    {
        count(self.words[MISSED_LOADS] & !self.done)
    }
}

/// The word of an entry's kind gets its bit, the youngest. The bits of the other kinds at its place are clear already, and
/// the words after those of the kinds stay.
#[inline(always)]
fn push_kind(words: &mut [u64; 8], place: usize, entry: &Entry)
    requires { place < 64 }
    ensures { (es : List Entry) (others : List ℕ) → words.old ≡ kinds_of es ++ others → place ≡ length es → words.new ≡ kinds_of (es ++ entry.now ∷ []) ++ others }
{
    let kind = entry.operation.kind().index();
    words[kind] = push(words[kind], place, true);
}

/// The word of what waits for issue gets the bit of the youngest entry.
#[inline(always)]
fn push_waiting(words: &mut [u64; 8], place: usize, waits: bool)
    requires { place < 64 }
    ensures { (es fs : List Entry) (e : Entry) (more : ℕ) → words.old ≡ kinds_of fs ++ word_of is_waiting es ∷ more ∷ [] → place ≡ length es → waits ≡ is_waiting e →
        words.new ≡ kinds_of fs ++ word_of is_waiting (es ++ e ∷ []) ∷ more ∷ [] }
{
    words[WAITING] = push(words[WAITING], place, waits);
}

/// The oldest entry leaves the words.
#[inline(always)]
fn drop_oldest(words: &mut [u64; 8])
    ensures { (es : List Entry) → words.old ≡ words_of es → words.new ≡ words_of (drop 1 es) }
{
    *words = without_first_of_each(*words);
}

/// Whether an entry waits for issue.
#[inline]
pub(crate) fn is_waiting(entry: &Entry) -> bool
    ensures { result ≡ is_waiting entry.now }
{
    entry.stage.is_queued()
}

/// Whether an entry is a load that was issued and missed, done or not.
#[inline]
fn is_load_that_missed(entry: &Entry) -> bool
    ensures { result ≡ is_load_that_missed entry.now }
{
    entry.operation.is_load() && entry.stage.has_missed()
}
