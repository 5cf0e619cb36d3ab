//! Eight marks that belong together.
ghost use Rattle.std.specs.Prelude.{◌↔◌, IsTrue};
ghost use Rattle.checkpoint.specs.Aligned.{IsAligned, IsMarkOf};
ghost use Rattle.checkpoint.specs.AlignedParts.{EachIsMarkOf};

use crate::Mark;
use join_law::Eight;
use std::alloc::Allocator;

/// Whether the marks are of one origin, and context i stands at place i.
pub fn aligned<A: Allocator>(marks: &Eight<Mark<A>>) -> bool
    ensures { IsTrue result ↔ IsAligned marks.now }
{
    are_marks_of_first(marks)
}

// Whether each mark is of the first one's origin, and of its place's context.
fn are_marks_of_first<A: Allocator>(marks: &Eight<Mark<A>>) -> bool
    ensures { IsTrue result ↔ EachIsMarkOf marks.now.c0.origin marks.now }
{
    let first = &marks.c0;
    is_mark_of(first, 0, &marks.c0)
        && is_mark_of(first, 1, &marks.c1)
        && is_mark_of(first, 2, &marks.c2)
        && is_mark_of(first, 3, &marks.c3)
        && is_mark_of(first, 4, &marks.c4)
        && is_mark_of(first, 5, &marks.c5)
        && is_mark_of(first, 6, &marks.c6)
        && is_mark_of(first, 7, &marks.c7)
}

// Whether the mark is of the first one's origin, and of the context.
fn is_mark_of<A: Allocator>(first: &Mark<A>, context: usize, mark: &Mark<A>) -> bool
    ensures { IsTrue result ↔ IsMarkOf first.now.origin context mark.now }
{
    mark.same_origin(first) && mark.context().index() == context
}
