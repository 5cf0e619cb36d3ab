//! Lists and trees of eights.

ghost use Rattle.std.specs.Prelude.{◌<◌, ◌∷◌, ℕ, map};
ghost use Rattle.join_law.specs.Eight.{EightKin, place_of};
ghost use Rattle.join_law.specs.JoinOf.{AllKin, IsJoinOf};
ghost use Rattle.join_law.specs.Tree.{leaves};

use crate::{Eight, Join, Tree, fold_tree, join_all};
use std::alloc::Allocator;

/// The join of an eight and others, all of which are kin: at each context the join of the values there.
pub fn join_eights<J: Join, A: Allocator>(first: Eight<J>, others: Vec<Eight<J>, A>) -> Eight<J>
    requires { AllKin (EightKin J.is_kin) (first ∷ others.items) }
    ensures { (i : ℕ) → i < 8 → IsJoinOf J.is_kin J.joined (map (λ e. place_of e i) (first ∷ others.items)) (place_of result i) }
{
    join_all(first, others)
}

/// The join of a tree's leaves, all of which are kin: at each context the join of the values there.
pub fn fold_eights<J: Join, A: Allocator>(tree: Tree<Eight<J>, A>) -> Eight<J>
    requires { AllKin (EightKin J.is_kin) (leaves tree) }
    ensures { (i : ℕ) → i < 8 → IsJoinOf J.is_kin J.joined (map (λ e. place_of e i) (leaves tree)) (place_of result i) }
{
    fold_tree(tree)
}
