//! Values of any type, merged, listed and joined, so that this is proved once, and not for each type.

ghost use Rattle.std.specs.Prelude.{◌≡◌, ◌∷◌, ◌++◌, []};
ghost use Rattle.join_law.specs.Tree.{leaves};

use join_law::{Eight, Join, Tree};
use std::alloc::Global;
use std::process::Abort;

/// The tree that merges two.
pub fn merge<J: Drop>(rt: &impl Abort, alloc: Global, left: Tree<J>, right: Tree<J>) -> Tree<J>
    ensures { leaves result ≡ leaves left ++ leaves right }
{
    let left = Box::new(alloc, left).expect(rt, "memory");
    let right = Box::new(alloc, right).expect(rt, "memory");
    Tree::Merge(left, right)
}

/// The list of one value.
pub fn listed<J: Drop>(rt: &impl Abort, alloc: Global, value: J) -> Vec<J>
    ensures { result.items ≡ value ∷ [] }
{
    let mut list = Vec::new(alloc);
    list.push(value).expect(rt, "memory");
    list
}

/// The join of two values where they are kin, as a caller with a bound alone asks for it.
pub fn join_of<J: Join>(left: J, right: J) -> Option<J> {
    if left.kin(&right) {
        Some(left.join(right))
    } else {
        None
    }
}

/// Eight values with another at place 1.
pub fn with_place_1<J: Drop>(mut values: Eight<J>, value: J) -> Eight<J> {
    values.c1 = value;
    values
}
