//! Worked joins at concrete types, through the bound.

use crate::equal::assert_equal;
use crate::trees::{join_of, merge};
use join_law::{Ctx, Eight, Join, Tree, fold_eights, fold_tree, join_all, join_eights};
use std::alloc::Global;
use std::fmt::Debug;
use std::process::Abort;

/// The greater counts of both.
const FURTHEST: [u64; 8] = [5, 9, 0, 0, 0, 0, 0, 1];

fn furthest() -> Eight<u64> {
    Eight::from_array(FURTHEST)
}

// Counts 5 and 3 at contexts 0 and 1.
fn ahead_at_0() -> Eight<u64> {
    Eight::from_array([5, 3, 0, 0, 0, 0, 0, 0])
}

// Counts 2 and 9 at contexts 0 and 1.
fn ahead_at_1() -> Eight<u64> {
    Eight::from_array([2, 9, 0, 0, 0, 0, 0, 1])
}

/// The join of two values, as a caller with a bound alone asks for it, is this one.
fn assert_join<J: Join + PartialEq + Debug>(rt: &impl Abort, left: J, right: J, want: J) {
    assert_eq!(rt; join_of(left, right), Some(want));
}

#[test]
fn joins_of_values(rt: HostRuntime) {
    // Numbers join to the greater.
    for (left, right, want) in [(3, 5, 5), (5, 3, 5), (7, 7, 7), (0, u64::MAX, u64::MAX)] {
        assert_join(&rt, left, right, want);
    }
    // `None` is neutral.
    let pairs: [(Option<u64>, Option<u64>, Option<u64>); 5] = [
        (None, None, None),
        (None, Some(4), Some(4)),
        (Some(4), None, Some(4)),
        (Some(0), None, Some(0)),
        (Some(9), Some(4), Some(9)),
    ];
    for (left, right, want) in pairs {
        assert_join(&rt, left, right, want);
    }
    // Pairs join part by part, eights place by place.
    let left: (u64, Option<u64>) = (1, Some(5));
    assert_join(&rt, left, (2, None), (2, Some(5)));
    assert_join(&rt, ahead_at_0(), ahead_at_1(), furthest());
    assert_join(&rt, ahead_at_1(), ahead_at_0(), furthest());
}

#[test]
fn eights_join_place_by_place(rt: HostRuntime) {
    let joined = ahead_at_0().join(ahead_at_1());
    assert_equal(&rt, joined.into_array(), FURTHEST);
}

/// The number of the context with this number.
fn index_of(number: usize) -> Option<usize> {
    Some(Ctx::new(number)?.index())
}

#[test]
fn contexts_are_the_numbers_below_eight(rt: HostRuntime) {
    assert_equal(&rt, [index_of(7), index_of(8)], [Some(7), None]);
    let all = Ctx::all();
    assert_equal(&rt, all.len(), 8);
    for (number, context) in all.iter().enumerate() {
        assert_equal(
            &rt,
            (context.index(), Ctx::new(number)),
            (number, Some(*context)),
        );
    }
}

#[test]
fn each_context_has_its_place(rt: HostRuntime) {
    let mut eight = Eight::from_array([10, 11, 12, 13, 14, 15, 16, 17]);
    for context in Ctx::all() {
        let number = context.index() as u64;
        assert_equal(&rt, *eight.place(context), number + 10);
        *eight.place_mut(context) = number + 20;
    }
    assert_equal(&rt, eight.into_array(), [20, 21, 22, 23, 24, 25, 26, 27]);
}

fn leaf_0() -> Tree<Eight<u64>> {
    Tree::Leaf(ahead_at_0())
}

fn leaf_1() -> Tree<Eight<u64>> {
    Tree::Leaf(ahead_at_1())
}

// What a tree folds to.
fn folded(tree: Tree<Eight<u64>>) -> [u64; 8] {
    fold_tree(tree).into_array()
}

// What a tree of both leaves folds to, its mirror, one that repeats a leaf, and two that are grouped otherwise, the last
// as one of eights.
fn folded_trees(rt: &impl Abort, alloc: Global) -> [[u64; 8]; 5] {
    let repeated = merge(rt, alloc, leaf_0(), leaf_0());
    let both = merge(rt, alloc, leaf_0(), leaf_1());
    let regrouped = merge(rt, alloc, leaf_0(), leaf_1());
    [
        folded(merge(rt, alloc, leaf_0(), leaf_1())),
        folded(merge(rt, alloc, leaf_1(), leaf_0())),
        folded(merge(rt, alloc, repeated, both)),
        folded(merge(rt, alloc, regrouped, leaf_0())),
        fold_eights(merge(rt, alloc, leaf_1(), leaf_0())).into_array(),
    ]
}

#[test]
fn leaves_alone_decide_a_tree(rt: HostRuntime) {
    assert_equal(&rt, folded_trees(&rt, rt.alloc()), [FURTHEST; 5]);
}

// The tree of depth 1000 that merges the numbers below 1001 on the right.
fn deep_on_the_right(rt: &impl Abort, alloc: Global) -> Tree<u64> {
    let mut tree = Tree::Leaf(0);
    for count in 1..1001 {
        tree = merge(rt, alloc, tree, Tree::Leaf(count));
    }
    tree
}

// The one that merges them on the left.
fn deep_on_the_left(rt: &impl Abort, alloc: Global) -> Tree<u64> {
    let mut tree = Tree::Leaf(0);
    for count in 1..1001 {
        tree = merge(rt, alloc, Tree::Leaf(count), tree);
    }
    tree
}

// The join of a number and others.
fn joined(rt: &impl Abort, alloc: Global, first: u64, others: &[u64]) -> u64 {
    join_all(first, others.to_vec(alloc).expect(rt, "memory"))
}

// The join of eights as a list.
fn joined_eights(rt: &impl Abort, alloc: Global) -> [u64; 8] {
    let others = vec![in alloc; ahead_at_1(), ahead_at_0(), ahead_at_1()].expect(rt, "memory");
    join_eights(ahead_at_0(), others).into_array()
}

#[test]
fn joins_lists_and_a_deep_tree(rt: HostRuntime) {
    let alloc = rt.alloc();
    drop(deep_on_the_left(&rt, alloc));
    assert_equal(
        &rt,
        [
            joined(&rt, alloc, 4, &[9, 2, 9]),
            joined(&rt, alloc, 9, &[2, 4]),
            joined(&rt, alloc, 4, &[]),
            fold_tree(deep_on_the_right(&rt, alloc)),
        ],
        [9, 9, 4, 1000],
    );
    assert_equal(&rt, joined_eights(&rt, alloc), FURTHEST);
}
