//! Books: what passes merge and read, in one thread and in two, a foreign mark, and a book that is closed too early.

ghost use Rattle.std.specs.Prelude.{◌≡◌, ◌<◌, All};
ghost use Rattle.std.specs.Thread.{IsSync};
ghost use Rattle.checkpoint_book.specs.Passes.{IsPassOf};

use crate::equal::assert_equal;
use crate::marks::{counts_of, mark_at, opening_of, origin_with};
use checkpoint::Shared;
use checkpoint_book::{Book, BookFault, Call, Closed, Pass};
use join_law::Ctx;
use origin_set::Origin;
use std::alloc::Global;
use std::process::Abort;
use std::sync::{Arc, Wait};
use std::thread::{Threads, join};

/// A book that begins at the starts of the origin's contexts, and its passes.
fn new_book(
    rt: &impl Abort,
    alloc: Global,
    origin: &Arc<Origin>,
    passes: usize,
) -> (Book, Vec<Pass>)
    requires { 0 < passes }
    ensures { All (IsPassOf result.0) result.1.items }
{
    let opening = opening_of(rt, alloc, origin);
    Book::new(alloc, opening, passes).expect(rt, "a book")
}

/// A book with one pass, number 0.
fn book_of_one(rt: &impl Abort, alloc: Global, origin: &Arc<Origin>) -> (Book, Pass)
    ensures { IsPassOf result.0 result.1 }
{
    let (book, mut passes) = new_book(rt, alloc, origin, 1);
    let pass = passes.pop().expect(rt, "a pass");
    drop(passes);
    (book, pass)
}

/// A book with two passes, numbers 0 and 1.
fn book_of_two(rt: &impl Abort, alloc: Global, origin: &Arc<Origin>) -> (Book, Pass, Pass)
    ensures { IsPassOf result.0 result.1 × IsPassOf result.0 result.2 }
{
    let (book, mut passes) = new_book(rt, alloc, origin, 2);
    let a = passes.pop().expect(rt, "pass A");
    let b = passes.pop().expect(rt, "pass B");
    drop(passes);
    (book, a, b)
}

/// What a book with one pass leaves.
fn closed(rt: &impl Abort, alloc: Global, book: Book, pass: Pass) -> Closed
    requires { IsPassOf book pass }
{
    let mut passes = Vec::new(alloc);
    passes.push(pass).expect(rt, "memory");
    let Ok(closed) = book.close(passes) else {
        panic!(rt; "the book has its pass");
    };
    closed
}

/// What a book with two passes leaves.
fn closed_with_both(rt: &impl Abort, alloc: Global, book: Book, a: Pass, b: Pass) -> Closed
    requires { IsPassOf book a × IsPassOf book b }
{
    let mut passes = Vec::new(alloc);
    passes.push(a).expect(rt, "memory");
    passes.push(b).expect(rt, "memory");
    let Ok(closed) = book.close(passes) else {
        panic!(rt; "the book has both passes");
    };
    closed
}

/// A book with two passes isn't closed with one of them. It is handed back, and so is the pass.
fn kept_open(rt: &impl Abort, alloc: Global, book: Book, pass: Pass) -> (Book, Pass)
    requires { IsPassOf book pass }
    ensures { (result.0 ≡ book) × (result.1 ≡ pass) }
{
    let mut passes = Vec::new(alloc);
    passes.push(pass).expect(rt, "memory");
    let Err((book, mut passes)) = book.close(passes) else {
        panic!(rt; "the book was closed with one pass of two");
    };
    assert_equal(rt, passes.len(), 1);
    let pass = passes.pop().expect(rt, "the pass");
    drop(passes);
    (book, pass)
}

/// A pass merges a mark.
fn merge<R: Abort + Wait>(rt: &R, book: &Book, pass: &mut Pass, mark: Shared)
    requires { IsPassOf book.now pass.old }
    ensures { IsPassOf book.now pass.new }
{
    let Ok(()) = book.merge(rt, pass, mark) else {
        panic!(rt; "the mark is merged");
    };
}

/// The count that a pass reads at a context.
fn count_read<R: Abort + Wait>(rt: &R, book: &Book, pass: &mut Pass, context: Ctx) -> u64
    requires { IsPassOf book.now pass.old }
    ensures { IsPassOf book.now pass.new }
{
    let mark = book.furthest(rt, pass, context).expect(rt, "a mark");
    assert_equal(rt, mark.mark().context(), context);
    mark.mark().count()
}

/// What a book leaves of contexts 0, 1 and 2: all counts, and the histories of these three.
fn assert_left(rt: &impl Abort, left: Closed, counts: [u64; 8], first: &[Call], second: &[Call]) {
    assert_equal(rt, counts_of(&left.marks), counts);
    assert_equal(rt, left.histories.c0.as_slice(), first);
    assert_equal(rt, left.histories.c1.as_slice(), second);
    assert_equal(rt, left.histories.c2.len(), 0);
    drop(left);
}

/// Pass A merges count 5 at context 0, and pass B reads it there and merges a lesser count, in the same thread.
fn merge_and_read<R: Abort + Wait>(
    rt: &R,
    book: &Book,
    a: &mut Pass,
    b: &mut Pass,
    five: Shared,
    three: Shared,
)
    requires { IsPassOf book.now a.old × IsPassOf book.now b.old }
    ensures { IsPassOf book.now a.new × IsPassOf book.now b.new }
{
    let [first, second, ..] = Ctx::all();
    merge(rt, book, a, five);
    assert_equal(rt, count_read(rt, book, b, first), 5);
    merge(rt, book, b, three);
    assert_equal(rt, count_read(rt, book, a, first), 5);
    assert_equal(rt, count_read(rt, book, a, second), 0);
}

/// What one pass merges another reads before the book is closed. Without pass B the book isn't closed. Then it leaves the
/// furthest mark and all calls.
#[test]
fn passes_share_the_marks(rt: HostRuntime) {
    let origin = origin_with(&rt, rt.alloc(), 0);
    let [first, ..] = Ctx::all();
    let five = mark_at(&rt, rt.alloc(), &origin, first, 5);
    let three = mark_at(&rt, rt.alloc(), &origin, first, 3);
    let (book, mut a, mut b) = book_of_two(&rt, rt.alloc(), &origin);
    drop(origin);
    merge_and_read(&rt, &book, &mut a, &mut b, five, three);
    let (book, a) = kept_open(&rt, rt.alloc(), book, a);
    let left = closed_with_both(&rt, rt.alloc(), book, a, b);
    assert_left(
        &rt,
        left,
        [5, 0, 0, 0, 0, 0, 0, 0],
        &[
            Call::Merge(0, 5),
            Call::Read(1, 5),
            Call::Merge(1, 3),
            Call::Read(0, 5),
        ],
        &[Call::Read(0, 0)],
    );
}

/// A merge of a mark of another origin hands it back, with its count.
fn refuse<R: Abort + Wait>(rt: &R, book: &Book, pass: &mut Pass, foreign: Shared)
    requires { IsPassOf book.now pass.old }
    ensures { IsPassOf book.now pass.new }
{
    let count = foreign.mark().count();
    let Err((back, fault)) = book.merge(rt, pass, foreign) else {
        panic!(rt; "the foreign mark was merged");
    };
    assert_equal(rt, fault, BookFault::ForeignOrigin);
    assert_equal(rt, back.mark().count(), count);
    drop(back);
}

/// A mark of an origin that differs in one data byte is refused, and the history is unchanged.
#[test]
fn a_foreign_mark_is_refused(rt: HostRuntime) {
    let origin = origin_with(&rt, rt.alloc(), 0);
    let other = origin_with(&rt, rt.alloc(), 1);
    let [first, ..] = Ctx::all();
    let foreign = mark_at(&rt, rt.alloc(), &other, first, 5);
    drop(other);
    let (book, mut pass) = book_of_one(&rt, rt.alloc(), &origin);
    drop(origin);
    refuse(&rt, &book, &mut pass, foreign);
    let left = closed(&rt, rt.alloc(), book, pass);
    assert_left(&rt, left, [0; 8], &[], &[]);
}

/// A pass that merged a mark.
fn merged<R: Abort + Wait>(rt: &R, book: &Book, pass: Pass, mark: Shared) -> Pass
    requires { IsPassOf book.now pass }
    ensures { IsPassOf book.now result }
{
    let mut pass = pass;
    merge(rt, book, &mut pass, mark);
    pass
}

/// Two passes merge a mark each, in a thread of its own.
fn merge_in_threads<R: Abort + Wait + Threads + Sync>(
    rt: &R,
    book: &Book,
    a: Pass,
    b: Pass,
    five: Shared,
    seven: Shared,
) -> (Pass, Pass)
    requires { IsPassOf book.now a × IsPassOf book.now b }
    ensures { IsPassOf book.now result.0 × IsPassOf book.now result.1 }
{
    join(
        rt,
        move || -> Pass
            requires { IsSync R.row × IsPassOf book.now a }
            ensures { IsPassOf book.entry.now result }
        { merged(rt, book, a, five) },
        move || -> Pass
            requires { IsSync R.row × IsPassOf book.now b }
            ensures { IsPassOf book.entry.now result }
        { merged(rt, book, b, seven) },
    )
}

/// Two threads merge at one context. Whichever comes first, the further mark is left, and both calls.
#[test]
fn threads_share_the_marks(rt: HostRuntime) {
    let origin = origin_with(&rt, rt.alloc(), 0);
    let [first, ..] = Ctx::all();
    let five = mark_at(&rt, rt.alloc(), &origin, first, 5);
    let seven = mark_at(&rt, rt.alloc(), &origin, first, 7);
    let (book, a, b) = book_of_two(&rt, rt.alloc(), &origin);
    drop(origin);
    let (a, b) = merge_in_threads(&rt, &book, a, b, five, seven);
    let left = closed_with_both(&rt, rt.alloc(), book, a, b);
    let history = left.histories.c0.as_slice();
    let a_came_first = history == [Call::Merge(0, 5), Call::Merge(1, 7)].as_slice();
    let b_came_first = history == [Call::Merge(1, 7), Call::Merge(0, 5)].as_slice();
    assert_equal(
        &rt,
        (counts_of(&left.marks), a_came_first != b_came_first),
        ([7, 0, 0, 0, 0, 0, 0, 0], true),
    );
    drop(left);
}

/// A pass merges a mark at each context, of count 1 at context 0 and of one more at each after it.
fn merge_each<R: Abort + Wait>(
    rt: &R,
    alloc: Global,
    book: &Book,
    pass: &mut Pass,
    origin: &Arc<Origin>,
)
    requires { IsPassOf book.now pass.old }
    ensures { IsPassOf book.now pass.new }
{
    for context in Ctx::all() {
        let mark = mark_at(rt, alloc, origin, context, context.index() as u64 + 1);
        merge(rt, book, pass, mark);
    }
}

/// Each context has a mark and a history of its own.
#[test]
fn contexts_are_apart(rt: HostRuntime) {
    let origin = origin_with(&rt, rt.alloc(), 0);
    let (book, mut pass) = book_of_one(&rt, rt.alloc(), &origin);
    merge_each(&rt, rt.alloc(), &book, &mut pass, &origin);
    drop(origin);
    let left = closed(&rt, rt.alloc(), book, pass);
    assert_equal(&rt, counts_of(&left.marks), [1, 2, 3, 4, 5, 6, 7, 8]);
    assert_equal(&rt, left.histories.c0.as_slice(), &[Call::Merge(0, 1)]);
    assert_equal(&rt, left.histories.c7.as_slice(), &[Call::Merge(0, 8)]);
    drop(left);
}
