//! Desks at which no job was run.

ghost use Rattle.std.specs.Prelude.{◌≡◌, All, vec_len};
ghost use Rattle.worker_pool.specs.Seats.{HasRoom};
ghost use Rattle.pool_tests.specs.Desks.{IsFree, places};

use crate::desks::Desk;
use std::alloc::Global;
use std::process::Abort;

// A desk with room for so many jobs.
fn free_desk(rt: &impl Abort, alloc: Global, jobs: usize) -> Desk
    ensures { HasRoom IsFree places jobs result }
{
    let ends = Vec::with_capacity(alloc, jobs).expect(rt, "memory");
    Desk { ends }
}

/// So many desks, each with room for so many jobs.
pub fn desks(rt: &impl Abort, alloc: Global, many: usize, jobs: usize) -> Vec<Desk>
    ensures many { vec_len result ≡ many }
    ensures room { All (HasRoom IsFree places jobs) result.items }
{
    let mut desks = Vec::with_capacity(alloc, many).expect(rt, "memory");
    for _ in 0..many {
        let free = free_desk(rt, alloc, jobs);
        desks.push_reserved(free);
    }
    desks
}
