//! The labels one by one.

ghost use Rattle.std.specs.Prelude.{◌≡◌, ◌≤◌, length};

use crate::labels::Labels;
use std::alloc::Allocator;

/// The labels in order of line, each with its address.
#[derive(Drop)]
pub struct LabelIter<'a, A: Allocator> {
    labels: &'a Labels<A>,
    index: usize,
    ghost within: { index ≤ length labels.now },
}

impl<'a, A: Allocator> LabelIter<'a, A> {
    ghost use Rattle.rv64_asm.specs.LabelIter.{labels_left};

    pub(crate) fn new(labels: &'a Labels<A>) -> Self
        ensures { labels_left result ≡ labels.now }
    {
        LabelIter { labels, index: 0 }
    }
}

impl<'a, A: Allocator> Iterator for LabelIter<'a, A> {
    ghost use Rattle.std.specs.Iterator.{YieldsFirstBy, item_count};
    ghost use Rattle.rv64_asm.specs.LabelIter.{labels_left};

    type Item = (&'a [u8], u64);

    ghost next_gives = { YieldsFirstBy (λ x. (x.0.now, x.1)) labels_left };

    ghost remaining = { item_count labels_left };

    fn next(&mut self) -> Option<(&'a [u8], u64)> {
        let labels = self.labels;
        if self.index == labels.len() {
            return None;
        }
        let label = labels.at(self.index);
        self.index += 1;
        Some(label)
    }
}
