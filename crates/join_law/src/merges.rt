//! Trees and lists of merges. What they give depends on the set of their values alone.

ghost use Rattle.std.specs.Prelude.{◌≡◌, ◌∷◌};
ghost use Rattle.join_law.specs.JoinOf.{AllKin, IsJoinOf, IsJoinOfSet};
ghost use Rattle.join_law.specs.Tree.{leaves, merged};

use crate::Join;
use std::alloc::{Allocator, Global};

/// A tree of merges, with values at its ends. Folding and dropping one recurse as deep as it is.
#[derive(Drop)]
pub enum Tree<J, A: Allocator = Global> {
    /// A value.
    Leaf(J),
    /// A merge of what two trees give.
    Merge(Box<Tree<J, A>, A>, Box<Tree<J, A>, A>),
}

/// The join of a tree's leaves, all of which are kin. Each tree with the same set of leaves gives the same value,
/// in whatever order, grouping and repetition they stand.
pub fn fold_tree<J: Join, A: Allocator>(tree: Tree<J, A>) -> J
    requires { AllKin J.is_kin (leaves tree) }
    ensures merged { result ≡ merged J.joined tree }
    ensures joined { IsJoinOf J.is_kin J.joined (leaves tree) result }
    ensures set_alone { IsJoinOfSet J.is_kin J.joined (leaves tree) result }
{
    merge(tree)
}

// The merges of a tree, one by one.
fn merge<J: Join, A: Allocator>(tree: Tree<J, A>) -> J
    requires kin { AllKin J.is_kin (leaves tree) }
    ensures { result ≡ merged J.joined tree }
{
    match tree {
        Tree::Leaf(value) => value,
        Tree::Merge(left, right) => {
            let first = merge(Box::into_inner(left));
            let second = merge(Box::into_inner(right));
            join_two(first, second)
        }
    }
}

// The join of two values that are kin.
#[inline(always)]
fn join_two<J: Join>(first: J, second: J) -> J
    requires { J.is_kin first second }
    ensures { result ≡ J.joined first second }
{
    first.join(second)
}

/// The join of a value and others, all of which are kin. Each list with the same set of values gives the same value,
/// in whatever order, grouping and repetition they stand.
pub fn join_all<J: Join, A: Allocator>(first: J, others: Vec<J, A>) -> J
    requires { AllKin J.is_kin (first ∷ others.items) }
    ensures joined { IsJoinOf J.is_kin J.joined (first ∷ others.items) result }
    ensures set_alone { IsJoinOfSet J.is_kin J.joined (first ∷ others.items) result }
{
    join_each(first, others)
}

// The others joined to the first, one by one.
fn join_each<J: Join, A: Allocator>(first: J, others: Vec<J, A>) -> J
    requires { AllKin J.is_kin (first ∷ others.items) }
    ensures { IsJoinOf J.is_kin J.joined (first ∷ others.items) result }
{
    let mut total = first;
    for value in others {
        total = total.join(value);
    }
    total
}
