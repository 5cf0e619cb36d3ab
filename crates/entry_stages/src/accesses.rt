//! The access of an entry that retires.

ghost use Rattle.std.specs.Prelude.{◌≡◌, None, false};
ghost use Rattle.core_view.specs.Outcomes.{memory_after, bytes_written, IsSized};
ghost use Rattle.entry_stages.specs.Heads.{IsGoing, done_outcome, step_on};

use crate::decoded_memory::DecodedMemory;
use crate::retirement::step_of;
use core_view::Entry;
use hart_step::Environment;
use std::alloc::Allocator;

/// The access of an entry that retires, a store or not: memory gets what it writes.
#[inline(always)]
pub fn retire_access<A: Allocator>(
    memory: &mut DecodedMemory<A>,
    environment: Environment,
    entry: &Entry,
    is_store: bool,
)
    requires done { IsGoing (done_outcome entry.now.stage) }
    requires sized { IsSized (step_on (done_outcome entry.now.stage)).access }
    requires unwritten { is_store ≡ false → bytes_written (step_on (done_outcome entry.now.stage)).access ≡ None }
    ensures { memory.new ≡ memory_after environment memory.old (step_on (done_outcome entry.now.stage)).access }
{
    // What anything else does is looked at no further.
    if is_store {
        memory.write(environment, &step_of(entry).access);
    }
}
