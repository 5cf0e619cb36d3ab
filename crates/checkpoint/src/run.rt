//! How a mark goes on.
ghost use Rattle.std.specs.Prelude.{◌≡◌, ◌+◌, ◌^◌, ◌<◌, ◌≤◌};
ghost use Rattle.checkpoint.specs.MarkValue.{Advances};
ghost use Rattle.hart_step.specs.Next.{Ran};

use crate::Mark;
use hart_step::{Hart, Stop};
use std::alloc::Allocator;

impl<A: Allocator> Mark<A> {
    // Goes on by `n` instructions, or as many as there are before a stop: how many, and why it stopped.
    #[inline(always)]
    pub(crate) fn run(&mut self, n: u64) -> (u64, Option<Stop>)
        requires { self.old.count + n ≤ 2 ^ 60 }
        ensures { Advances n self.old result.0 result.1 self.new }
    {
        run_counted(&mut self.hart, &mut self.count, n)
    }
}

// Runs a hart for `n` instructions, or as many as there are before a stop, and adds how many there were to the count.
#[inline(always)]
fn run_counted<A: Allocator>(hart: &mut Hart<A>, count: &mut u64, n: u64) -> (u64, Option<Stop>)
    requires { count.old + n < 2 ^ 64 }
    ensures ran { Ran n hart.old result.0 result.1 hart.new }
    ensures count { count.new ≡ count.old + result.0 }
{
    let (done, why) = hart.run(n);
    *count += done;
    (done, why)
}
