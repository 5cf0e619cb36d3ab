//! The furthest of many marks.
ghost use Rattle.std.specs.Prelude.{◌∷◌};
ghost use Rattle.checkpoint.specs.Best.{AreBest, IsBest};
ghost use Rattle.checkpoint.specs.Further.{MarkKin};
ghost use Rattle.join_law.specs.Eight.{EightKin};
ghost use Rattle.join_law.specs.JoinOf.{AllKin};
ghost use Rattle.join_law.specs.Tree.{leaves};

use crate::Mark;
use join_law::{Eight, Tree, fold_eights, fold_tree, join_all, join_eights};
use std::alloc::Allocator;

/// The furthest of marks of one origin and context.
pub fn furthest<A: Allocator, B: Allocator>(first: Mark<A>, others: Vec<Mark<A>, B>) -> Mark<A>
    requires { AllKin MarkKin (first ∷ others.items) }
    ensures { IsBest (first ∷ others.items) result }
{
    join_all(first, others)
}

/// The furthest of a tree's marks, which are of one origin and context.
pub fn furthest_leaf<A: Allocator, B: Allocator>(tree: Tree<Mark<A>, B>) -> Mark<A>
    requires { AllKin MarkKin (leaves tree) }
    ensures { IsBest (leaves tree) result }
{
    fold_tree(tree)
}

/// The furthest of each context's marks, which are of one origin and context.
pub fn furthest_each<A: Allocator, B: Allocator>(
    first: Eight<Mark<A>>,
    others: Vec<Eight<Mark<A>>, B>,
) -> Eight<Mark<A>>
    requires { AllKin (EightKin MarkKin) (first ∷ others.items) }
    ensures { AreBest (first ∷ others.items) result }
{
    join_eights(first, others)
}

/// The furthest of each context's marks in a tree, which are of one origin and context.
pub fn furthest_leaf_each<A: Allocator, B: Allocator>(
    tree: Tree<Eight<Mark<A>>, B>,
) -> Eight<Mark<A>>
    requires { AllKin (EightKin MarkKin) (leaves tree) }
    ensures { AreBest (leaves tree) result }
{
    fold_eights(tree)
}
