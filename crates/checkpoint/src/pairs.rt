//! What two marks are to each other.
ghost use Rattle.std.specs.Prelude.{◌≡◌, ◌↔◌, ◌<◌, IsTrue, IfNone, IfSome};
ghost use Rattle.checkpoint.specs.Further.{MarkKin, IsUnjoinable};

use crate::{Mark, MarkFault};
use std::alloc::Allocator;

impl<A: Allocator> Mark<A> {
    // Why another mark isn't joined with this one, if it isn't.
    pub(crate) fn unjoinable(&self, other: &Mark<A>) -> Option<MarkFault>
        ensures some { IfSome result (IsUnjoinable self.now other.now) }
        ensures none { IfNone result (MarkKin self.now other.now) }
    {
        if !self.same_origin(other) {
            return Some(MarkFault::ForeignOrigin);
        }
        if !self.same_context(other) {
            return Some(MarkFault::OtherContext);
        }
        None
    }

    // Whether the contexts are the same.
    pub(crate) fn same_context(&self, other: &Mark<A>) -> bool
        ensures { IsTrue result ↔ (self.now.context ≡ other.now.context) }
    {
        self.context == other.context
    }

    // Whether it has fewer instructions behind it than another.
    #[inline(always)]
    pub(crate) fn is_behind(&self, other: &Mark<A>) -> bool
        ensures { IsTrue result ↔ (self.now.count < other.now.count) }
    {
        self.count < other.count
    }
}
