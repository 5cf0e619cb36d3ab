//! What an entry comes to as it completes.

ghost use Rattle.std.specs.Prelude.{◌≡◌, ◌+◌, ◌<◌, length};
ghost use Rattle.core_view.specs.Stages.{execution_of, IsIssued};
ghost use Rattle.flight.specs.Flights.{entry_in};
ghost use Rattle.entry_stages.specs.Mispredicted.{is_mispredicted_by};

use core_view::Entry;
use flight::Flight;
use std::alloc::Allocator;

/// Whether the next pc of an issued entry was guessed, and wrongly: then nothing younger is kept.
pub fn is_mispredicted(entry: &Entry) -> bool
    requires { IsIssued entry.now.stage }
    ensures { result ≡ is_mispredicted_by entry.now (execution_of entry.now.stage).outcome }
{
    match entry.stage.step() {
        Some(step) => entry.is_mispredicted(&step),
        None => false,
    }
}

/// The pc at which fetch goes on once the entry at a place has completed, where it went on at another before.
#[inline(always)]
pub fn fetch_pc_after<A: Allocator>(flight: &Flight<A>, place: usize, fetch_pc: u64) -> u64
    requires { place < length flight.now.entries }
    ensures last { place + 1 ≡ length flight.now.entries → result ≡ (entry_in flight.now.entries place).followed }
    ensures before { place + 1 < length flight.now.entries → result ≡ fetch_pc }
{
    let count = flight.len();
    if place + 1 < count {
        return fetch_pc;
    }
    let entry = flight.get(place).unwrap();
    entry.followed
}
