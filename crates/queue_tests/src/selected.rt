//! What a queue selects.

use core_view::EntryId;

/// Whether the entries are those with these stamps, in this order.
pub fn has_stamps(entries: &[EntryId], stamps: &[u64]) -> bool {
    let mut left = stamps.iter();
    for entry in entries {
        if left.next().copied() != Some(entry.stamp) {
            return false;
        }
    }
    left.next().is_none()
}
