//! A countdown's marks: their counts, their stop and their copies, joins and what they refuse, trees and lists.

ghost use Rattle.std.specs.Prelude.{◌≡◌, All};
ghost use Rattle.std.specs.Arc.{arc_value};
ghost use Rattle.checkpoint.specs.Aligned.{AreMarksOf};
ghost use Rattle.join_law.specs.Tree.{leaves};

use crate::equal::assert_equal;
use crate::programs::{COUNTDOWN, program};
use crate::trees::{join_of, listed, merge, with_place_1};
use checkpoint::{
    Mark, MarkFault, aligned, furthest, furthest_each, furthest_leaf, furthest_leaf_each, starts,
};
use hart_step::{Environment, Stop};
use join_law::{Ctx, Eight, Tree};
use origin_set::Origin;
use std::alloc::Global;
use std::process::Abort;
use std::sync::Arc;

/// The origin with the countdown at contexts 0 and 1, and a data byte at context 1.
fn origin_of(alloc: Global, byte: u8) -> Option<Arc<Origin>> {
    let first = program(alloc, &COUNTDOWN, &[]).ok()?;
    let second = program(alloc, &COUNTDOWN, &[byte]).ok()?;
    let programs = [
        Some(first),
        Some(second),
        None,
        None,
        None,
        None,
        None,
        None,
    ];
    let origin = Origin::new(programs, Environment::One).ok()?;
    Arc::new(alloc, origin).ok()
}

/// The mark of a context at its start.
fn start(rt: &impl Abort, alloc: Global, origin: &Arc<Origin>, context: Ctx) -> Mark
    ensures { result ≡ record { origin = arc_value origin.now; context = context; count = 0 } }
{
    Mark::start(alloc, origin, context).expect(rt, "a mark")
}

/// Takes a mark from its start so many instructions further, at most 1000.
fn go_on(mark: &mut Mark, count: u64)
    requires { mark.old.count ≡ 0 }
    ensures origin { mark.new.origin ≡ mark.old.origin }
    ensures context { mark.new.context ≡ mark.old.context }
{
    let Ok(_) = mark.advance(count.min(1000)) else {
        return;
    };
}

/// The mark of a context after so many instructions, at most 1000.
fn mark_at(rt: &impl Abort, alloc: Global, origin: &Arc<Origin>, context: Ctx, count: u64) -> Mark
    ensures origin { result.origin ≡ arc_value origin.now }
    ensures context { result.context ≡ context }
{
    let mut mark = start(rt, alloc, origin, context);
    go_on(&mut mark, count);
    mark
}

/// The count, the pc and x5 of a mark.
type Shown = (u64, u64, u64);

fn shown(mark: &Mark) -> Shown {
    let state = mark.state();
    (mark.count(), state.pc(), state.regs()[5])
}

/// A mark that went on to the stop shows this, and so does a copy of it from before.
fn assert_stop(rt: &impl Abort, alloc: Global, mark: &mut Mark, want: [Shown; 2]) {
    assert!(rt; mark.count() <= 1000);
    let copy = mark.try_clone(alloc).expect(rt, "memory");
    let _ = mark.advance(100);
    assert_equal(rt, [shown(mark), shown(&copy)], want);
    drop(copy);
}

/// What a mark shows at its start and after 7 instructions, and what the mark and its copy show once the mark has gone on
/// to its stop.
fn assert_countdown(rt: &impl Abort, alloc: Global, origin: &Arc<Origin>, context: Ctx) {
    let mut mark = start(rt, alloc, origin, context);
    let begun = shown(&mark);
    let _ = mark.advance(7);
    assert_equal(
        rt,
        [begun, shown(&mark)],
        [(0, 0x10000, 0), (7, 0x10004, 7)],
    );
    assert_stop(rt, alloc, &mut mark, [(21, 0x1000c, 0), (7, 0x10004, 7)]);
    drop(mark);
}

/// An advance by so many instructions, at most 1000, returns this. The mark keeps its origin and context.
fn assert_advance(
    rt: &impl Abort,
    alloc: Global,
    origin: &Arc<Origin>,
    count: u64,
    want: Result<(u64, Option<Stop>), MarkFault>,
) {
    let [first, ..] = Ctx::all();
    let mut mark = start(rt, alloc, origin, first);
    let answer = mark.advance(count.min(1000));
    assert_equal(
        rt,
        (answer, mark.context(), mark.origin().same(origin)),
        (want, first, true),
    );
    drop(mark);
}

/// The join of the marks of context 0 after these counts shows this.
fn assert_join(
    rt: &impl Abort,
    alloc: Global,
    origin: &Arc<Origin>,
    counts: (u64, u64),
    want: Shown,
) {
    let [first, ..] = Ctx::all();
    let left = mark_at(rt, alloc, origin, first, counts.0);
    let right = mark_at(rt, alloc, origin, first, counts.1);
    let mark = join_of(left, right).expect(rt, "kin");
    assert_equal(rt, shown(&mark), want);
    drop(mark);
}

/// The marks with those counts, at most 1000, at contexts 0 and 1, and 0 at the others.
fn grid(rt: &impl Abort, alloc: Global, origin: &Arc<Origin>, counts: (u64, u64)) -> Eight<Mark>
    ensures { AreMarksOf (arc_value origin.now) result }
{
    let mut marks = starts(alloc, origin).expect(rt, "marks");
    go_on(&mut marks.c0, counts.0);
    go_on(&mut marks.c1, counts.1);
    marks
}

/// The leaf of the grid with these counts.
fn leaf(
    rt: &impl Abort,
    alloc: Global,
    origin: &Arc<Origin>,
    counts: (u64, u64),
) -> Tree<Eight<Mark>>
    ensures { All (AreMarksOf (arc_value origin.now)) (leaves result) }
{
    Tree::Leaf(grid(rt, alloc, origin, counts))
}

/// The tree of two grids.
fn two(
    rt: &impl Abort,
    alloc: Global,
    origin: &Arc<Origin>,
    left: (u64, u64),
    right: (u64, u64),
) -> Tree<Eight<Mark>>
    ensures { All (AreMarksOf (arc_value origin.now)) (leaves result) }
{
    let left = leaf(rt, alloc, origin, left);
    merge(rt, alloc, left, leaf(rt, alloc, origin, right))
}

/// What eight marks show: the counts at contexts 0 and 1, and whether they are aligned.
type ShownGrid = ((u64, u64), bool);

/// The marks are dropped here, by a call: each drop of a whole grid has a cost in proof.
fn shown_grid(grid: Eight<Mark>) -> ShownGrid {
    let shown = ((grid.c0.count(), grid.c1.count()), aligned(&grid));
    drop(grid);
    shown
}

/// What a folded tree of grids of the origin shows.
fn folded(
    rt: &impl Abort,
    alloc: Global,
    origin: &Arc<Origin>,
    tree: Tree<Eight<Mark>>,
) -> ShownGrid
    requires { All (AreMarksOf (arc_value origin.now)) (leaves tree) }
{
    let _ = origin;
    shown_grid(furthest_leaf_each(tree))
}

const FIVE_THREE: (u64, u64) = (5, 3);

const TWO_NINE: (u64, u64) = (2, 9);

/// Two grids, merged.
fn folded_two(
    rt: &impl Abort,
    alloc: Global,
    origin: &Arc<Origin>,
    left: (u64, u64),
    right: (u64, u64),
) -> ShownGrid {
    folded(rt, alloc, origin, two(rt, alloc, origin, left, right))
}

/// Three grids, grouped to the left.
fn folded_to_the_left(
    rt: &impl Abort,
    alloc: Global,
    origin: &Arc<Origin>,
    counts: [(u64, u64); 3],
) -> ShownGrid {
    let [first, second, third] = counts;
    let both = two(rt, alloc, origin, first, second);
    let last = leaf(rt, alloc, origin, third);
    folded(rt, alloc, origin, merge(rt, alloc, both, last))
}

/// Three grids, grouped to the right.
fn folded_to_the_right(
    rt: &impl Abort,
    alloc: Global,
    origin: &Arc<Origin>,
    counts: [(u64, u64); 3],
) -> ShownGrid {
    let [first, second, third] = counts;
    let first = leaf(rt, alloc, origin, first);
    let both = two(rt, alloc, origin, second, third);
    folded(rt, alloc, origin, merge(rt, alloc, first, both))
}

/// Two grids, merged in both ways.
fn folded_both_ways(
    rt: &impl Abort,
    alloc: Global,
    origin: &Arc<Origin>,
    one: (u64, u64),
    other: (u64, u64),
) -> ShownGrid {
    let left = two(rt, alloc, origin, one, other);
    let right = two(rt, alloc, origin, other, one);
    folded(rt, alloc, origin, merge(rt, alloc, left, right))
}

/// The furthest of the marks of context 0 after 2 and 9 instructions, as a list and then as a leaf.
fn furthest_of_list(rt: &impl Abort, alloc: Global, origin: &Arc<Origin>) -> u64 {
    let [context, ..] = Ctx::all();
    let first = mark_at(rt, alloc, origin, context, 2);
    let others = listed(rt, alloc, mark_at(rt, alloc, origin, context, 9));
    let mark = furthest_leaf(Tree::<Mark>::Leaf(furthest(first, others)));
    let count = mark.count();
    drop(mark);
    count
}

/// The furthest of two grids, as a list.
fn furthest_counts(rt: &impl Abort, alloc: Global, origin: &Arc<Origin>) -> ShownGrid {
    let first = grid(rt, alloc, origin, FIVE_THREE);
    let others = listed(rt, alloc, grid(rt, alloc, origin, TWO_NINE));
    shown_grid(furthest_each(first, others))
}

/// Marks of the countdown of context 0 count, stop, and join to the further.
fn assert_marks(rt: &impl Abort, alloc: Global, origin: &Arc<Origin>) {
    let [first, ..] = Ctx::all();
    assert_countdown(rt, alloc, origin, first);
    assert_advance(rt, alloc, origin, 7, Ok((7, None)));
    assert_advance(rt, alloc, origin, 30, Ok((21, Some(Stop::Ecall))));
    assert_join(rt, alloc, origin, (4, 7), (7, 0x10004, 7));
    assert_join(rt, alloc, origin, (7, 4), (7, 0x10004, 7));
    assert_join(rt, alloc, origin, (7, 7), (7, 0x10004, 7));
    assert_join(rt, alloc, origin, (30, 0), (21, 0x1000c, 0));
    assert_equal(rt, furthest_of_list(rt, alloc, origin), 9);
}

/// The registers of the hart of context 0 at its stop, and its pc.
fn assert_hart_at_stop(rt: &impl Abort, alloc: Global, origin: &Arc<Origin>) {
    let [first, ..] = Ctx::all();
    let mark = mark_at(rt, alloc, origin, first, 30);
    let hart = mark.hart(alloc).expect(rt, "a hart");
    assert_equal(rt, *hart.regs(), [0; 32]);
    assert_equal(rt, hart.pc(), 0x1000c);
    drop(hart);
    drop(mark);
}

/// The furthest of both grids, merged both ways, doubled and regrouped, and as a list.
fn furthest_of_grids(rt: &impl Abort, alloc: Global, origin: &Arc<Origin>) -> [ShownGrid; 6] {
    [
        folded_two(rt, alloc, origin, FIVE_THREE, TWO_NINE),
        folded_two(rt, alloc, origin, TWO_NINE, FIVE_THREE),
        folded_to_the_left(rt, alloc, origin, [FIVE_THREE, TWO_NINE, FIVE_THREE]),
        folded_to_the_right(rt, alloc, origin, [TWO_NINE, TWO_NINE, FIVE_THREE]),
        folded_both_ways(rt, alloc, origin, TWO_NINE, FIVE_THREE),
        furthest_counts(rt, alloc, origin),
    ]
}

#[test]
fn marks_of_a_countdown(rt: HostRuntime) {
    let origin = origin_of(rt.alloc(), 1).expect(&rt, "an origin");
    assert_marks(&rt, rt.alloc(), &origin);
    assert_hart_at_stop(&rt, rt.alloc(), &origin);
    let grids = furthest_of_grids(&rt, rt.alloc(), &origin);
    assert_equal(&rt, grids, [((5, 9), true); 6]);
    drop(origin);
}

/// What a mark's refused copy and hart give, and what the mark shows then; none where the mark itself is refused.
type RefusedGrowths = (Option<MarkFault>, Option<MarkFault>, Shown);

fn refused_growths(alloc: Global, origin: &Arc<Origin>) -> Option<RefusedGrowths> {
    let [first, ..] = Ctx::all();
    let mark = Mark::start(alloc, origin, first).ok()?;
    let copy = mark.try_clone(alloc).err();
    let hart = mark.hart(alloc).err();
    let shown = shown(&mark);
    drop(mark);
    Some((copy, hart, shown))
}

fn refused_growths_of_a_countdown(alloc: Global) -> Option<RefusedGrowths> {
    let origin = origin_of(alloc, 1)?;
    let growths = refused_growths(alloc, &origin);
    drop(origin);
    growths
}

/// Also run with `rt try --test --fail-alloc N`, which refuses the Nth growth: C3 is returned, and the mark stays.
#[test]
fn returns_c3_for_refused_growths(rt: HostRuntime) {
    let Some((copy, hart, mark)) = refused_growths_of_a_countdown(rt.alloc()) else {
        return;
    };
    assert!(rt; matches!(&copy, None | Some(MarkFault::OutOfMemory)));
    assert!(rt; matches!(&hart, None | Some(MarkFault::OutOfMemory)));
    assert_equal(&rt, mark, (0, 0x10000, 0));
}

/// The counts of two marks that `try_join` hands back, in its order, with its refusal.
fn refused(left: Mark, right: Mark) -> Option<(u64, u64, MarkFault)> {
    match left.try_join(right) {
        Ok(mark) => {
            drop(mark);
            None
        }
        Err((left, right, fault)) => {
            let counts = (left.count(), right.count());
            drop(left);
            drop(right);
            Some((counts.0, counts.1, fault))
        }
    }
}

/// Of the marks after 5 instructions of a context, and after 8 of another, this is refused.
fn assert_refused(
    rt: &impl Abort,
    alloc: Global,
    origins: (&Arc<Origin>, &Arc<Origin>),
    contexts: (Ctx, Ctx),
    fault: Option<MarkFault>,
) {
    let left = mark_at(rt, alloc, origins.0, contexts.0, 5);
    let right = mark_at(rt, alloc, origins.1, contexts.1, 8);
    let want = match fault {
        Some(fault) => Some((5, 8, fault)),
        None => None,
    };
    assert_equal(rt, refused(left, right), want);
}

/// Whether eight marks at the starts of an origin are aligned once that at place 1 is replaced by the start of a context
/// of another.
fn aligned_with(
    rt: &impl Abort,
    alloc: Global,
    origin: &Arc<Origin>,
    other: &Arc<Origin>,
    context: Ctx,
) -> bool {
    let marks = starts(alloc, origin).expect(rt, "marks");
    let marks = with_place_1(marks, start(rt, alloc, other, context));
    let (_counts, is_aligned) = shown_grid(marks);
    is_aligned
}

/// Marks of two origins are handed back, those of both, those of two contexts, and those of both and of two contexts;
/// those of none of these are joined. Eight with one of the other origin aren't aligned.
fn assert_foreign(rt: &impl Abort, alloc: Global, origin: &Arc<Origin>, other: &Arc<Origin>) {
    let [first, second, ..] = Ctx::all();
    let foreign = Some(MarkFault::ForeignOrigin);
    assert_refused(rt, alloc, (origin, other), (first, first), foreign);
    let context = Some(MarkFault::OtherContext);
    assert_refused(rt, alloc, (origin, origin), (first, second), context);
    assert_refused(rt, alloc, (origin, other), (first, second), foreign);
    assert_refused(rt, alloc, (origin, origin), (first, first), None);
    assert!(rt; !aligned_with(rt, alloc, origin, other, second));
}

#[test]
fn hands_back_what_it_refuses(rt: HostRuntime) {
    let origin = origin_of(rt.alloc(), 1).expect(&rt, "an origin");
    let other = origin_of(rt.alloc(), 2).expect(&rt, "an origin");
    assert_foreign(&rt, rt.alloc(), &origin, &other);
    drop(other);
    drop(origin);
}

/// Eight marks are aligned with one of the same context of an equal origin, and not with one of another context.
fn assert_aligned(rt: &impl Abort, alloc: Global, origin: &Arc<Origin>, equal: &Arc<Origin>) {
    let [first, second, ..] = Ctx::all();
    let same = aligned_with(rt, alloc, origin, equal, second);
    let other = aligned_with(rt, alloc, origin, equal, first);
    assert_equal(rt, [same, other], [true, false]);
}

#[test]
fn aligns(rt: HostRuntime) {
    let origin = origin_of(rt.alloc(), 1).expect(&rt, "an origin");
    let equal = origin_of(rt.alloc(), 1).expect(&rt, "an origin");
    assert_aligned(&rt, rt.alloc(), &origin, &equal);
    drop(equal);
    drop(origin);
}

/// A fault is printed as this code.
fn assert_code(rt: &impl Abort, alloc: Global, fault: MarkFault, code: &str) {
    let printed = fault.to_string(alloc).expect(rt, "memory");
    assert!(rt; printed.as_str() == code);
}

#[test]
fn codes(rt: HostRuntime) {
    assert_code(&rt, rt.alloc(), MarkFault::ForeignOrigin, "C1");
    assert_code(&rt, rt.alloc(), MarkFault::OtherContext, "C2");
    assert_code(&rt, rt.alloc(), MarkFault::OutOfMemory, "C3");
}
