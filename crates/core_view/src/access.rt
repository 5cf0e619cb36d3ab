//! What instructions in flight ask of memory.
ghost use Rattle.std.specs.Prelude.{◌≡◌};
ghost use Rattle.paged_memory.specs.Cells.{bytes_of, rights_at};
ghost use Rattle.paged_memory.specs.Stored.{IsFetchedAlike};
ghost use Rattle.core_view.specs.Outcomes.{fault_of, memory_after, IsWidth, IsSized};

use crate::outcome::Access;
use hart_step::{Effect, Environment, load_width, store_width};
use paged_memory::{Fault, Memory, Width};
use std::alloc::Allocator;

/// Why memory refuses the access of an effect, if it does. It depends on address and rights, and
/// never on bytes.
#[inline(always)]
pub fn access_fault<A: Allocator>(
    environment: Environment,
    memory: &Memory<A>,
    effect: Effect,
) -> Option<Fault>
    ensures { result ≡ fault_of environment (rights_at memory.now) effect }
{
    match (effect, environment) {
        (Effect::Loads { kind, address }, Environment::One) => {
            memory.load(address, load_width(kind)).err()
        }
        (Effect::Stores { width, address, .. }, Environment::One) => {
            memory.store_fault(address, store_width(width))
        }
        _ => None,
    }
}

/// The width of so many bytes.
#[inline(always)]
fn width_of(size: u8) -> Width
    requires { IsWidth size }
    ensures { bytes_of result ≡ size }
{
    match size {
        1 => Width::Byte,
        2 => Width::Half,
        4 => Width::Word,
        _ => Width::Double,
    }
}

/// Writes what an access writes, as its store retires. Where memory would refuse it, which it
/// doesn't for an access of an outcome, nothing is written.
pub fn write_access<A: Allocator>(environment: Environment, memory: &mut Memory<A>, access: Access)
    requires { IsSized access }
    ensures written { memory.new ≡ memory_after environment memory.old access }
    ensures fetched { IsFetchedAlike memory.old memory.new }
{
    match (access, environment) {
        (Access::Writes { bytes }, Environment::One) => {
            let _stored = memory.store(bytes.span.address, width_of(bytes.span.size), bytes.value);
        }
        _ => {}
    }
}
