//! Looks among the loads and the stores of a flight.

ghost use Rattle.std.specs.Prelude.{◌≡◌, ◌<◌, length, Some};
ghost use Rattle.core_view.specs.Spans.{shares};
ghost use Rattle.core_view.specs.Queues.{loads_of, stores_of, newest_in, conflict_in};
ghost use Rattle.flight.specs.Flights.{entry_in};

use core_view::{Bytes, Span};
use flight::Flight;
use std::alloc::Allocator;

/// The newest store below a place that has completed without a stop and shares a byte with a span. No store that is
/// older than it is looked at.
#[inline(always)]
pub(crate) fn newest_sharing<A: Allocator>(
    flight: &Flight<A>,
    place: usize,
    span: Span,
) -> Option<Bytes>
    requires { place < flight.now.renamed }
    ensures { result ≡ newest_in (λ b. shares b.span span) (stores_of flight.now.entries) (entry_in flight.now.entries place).stamp }
{
    // How many are renamed is at most 64 and at most how many there are, whose stamps grow.
    let _renamed = flight.renamed_count();
    let _len = flight.len();
    let mut below = place;
    while let Some(older) = flight.last_completed_store(below) {
        let store = flight.get(older).unwrap();
        if let Some(bytes) = store.stage.bytes() {
            if bytes.span.shares(span) {
                return Some(bytes);
            }
        }
        below = older;
    }
    None
}

/// The stamp of the oldest load behind a place that has issued without a stop and shares a byte with these. No load
/// that is younger than it is looked at.
#[inline(always)]
pub(crate) fn conflict<A: Allocator>(flight: &Flight<A>, place: usize, bytes: Bytes) -> Option<u64>
    requires { place < flight.now.renamed }
    ensures { result ≡ conflict_in (loads_of flight.now.entries) (entry_in flight.now.entries place).stamp (Some bytes) }
{
    // How many are renamed is at most 64 and at most how many there are, whose stamps grow.
    let _renamed = flight.renamed_count();
    let _len = flight.len();
    let mut from = place + 1;
    while let Some(younger) = flight.next_issued_load(from) {
        let load = flight.get(younger).unwrap();
        if let Some(span) = load.stage.span() {
            if bytes.span.shares(span) {
                return Some(load.stamp);
            }
        }
        from = younger + 1;
    }
    None
}
