//! What is asked of an entry as it is renamed.

ghost use Rattle.std.specs.Prelude.{◌≡◌, ◌↔◌, ◌+◌, ◌≤◌, IsTrue};
ghost use Rattle.entry_stages.specs.Operands.{operands_of};

use core_profile::Profile;
use core_view::Entry;
use data_flow::Operands;

/// Whether an entry was fetched as many cycles ago as the front delay says.
pub fn is_past_front(entry: &Entry, cycle: u64, profile: &Profile) -> bool
    ensures { IsTrue result ↔ (entry.now.fetched + profile.now.front_delay ≤ cycle) }
{
    match cycle.checked_sub(u64::from(profile.front_delay)) {
        Some(latest) => entry.fetched <= latest,
        None => false,
    }
}

/// The registers that an entry names.
pub fn operands(entry: &Entry) -> Operands
    ensures { result ≡ operands_of entry.now }
{
    Operands {
        stamp: entry.stamp,
        destination: entry.operation.destination(),
        first: entry.operation.first_source(),
        second: entry.operation.second_source(),
    }
}
