//! Spans that touch at their ends, and what loads take of stores. The values follow from the
//! addresses and from the bytes of a value, least first.

use crate::equal::assert_equal;
use core_view::{Bytes, Span};

/// The last address.
const LAST: u64 = 0xFFFF_FFFF_FFFF_FFFF;

/// Where a span begins, and its size.
type Ends = (u64, u8);

fn span(ends: Ends) -> Span {
    let (address, size) = ends;
    Span { address, size }
}

/// Spans, addresses, and whether they hold them.
const HOLDS: &[(Ends, u64, bool)] = &[
    ((0x10_0006, 2), 0x10_0005, false),
    ((0x10_0006, 2), 0x10_0006, true),
    ((0x10_0006, 2), 0x10_0007, true),
    ((0x10_0006, 2), 0x10_0008, false),
    ((LAST, 1), LAST, true),
    ((LAST, 8), 0, false),
];

#[test]
fn spans_hold_their_addresses(rt: HostRuntime) {
    for (it, address, want) in HOLDS {
        let found = span(*it).contains(*address);
        assert_equal(&rt, (*address, found), (*address, *want));
    }
}

/// Spans, and whether they share a byte, whichever is named first.
const SHARES: &[(Ends, Ends, bool)] = &[
    ((0x10_0000, 8), (0x10_0000, 1), true),
    ((0x10_0000, 8), (0x10_0007, 1), true),
    ((0x10_0000, 8), (0x10_0008, 1), false),
    ((0x10_0000, 4), (0x10_0004, 4), false),
    ((0x10_0002, 2), (0x10_0000, 8), true),
    ((LAST - 7, 8), (LAST, 1), true),
    ((LAST - 7, 4), (LAST - 3, 4), false),
    ((LAST, 8), (0, 8), false),
];

#[test]
fn spans_share_a_first_or_last_byte(rt: HostRuntime) {
    for (one, other, want) in SHARES {
        let [left, right] = [span(*one), span(*other)];
        let found = [left.shares(right), right.shares(left)];
        assert_equal(&rt, (*one, found), (*one, [*want; 2]));
    }
}

/// Spans, and whether the first has all bytes of the second.
const COVERS: &[(Ends, Ends, bool)] = &[
    ((0x10_0000, 8), (0x10_0000, 8), true),
    ((0x10_0000, 8), (0x10_0006, 2), true),
    ((0x10_0000, 8), (0x10_0007, 2), false),
    ((0x10_0001, 1), (0x10_0000, 1), false),
    ((0x10_0000, 1), (0x10_0000, 2), false),
    ((LAST - 7, 8), (LAST, 1), true),
    ((LAST, 1), (LAST - 7, 8), false),
];

#[test]
fn spans_cover_what_lies_within(rt: HostRuntime) {
    for (one, other, want) in COVERS {
        let found = span(*one).covers(span(*other));
        assert_equal(&rt, (*other, found), (*other, *want));
    }
}

/// Spans that are stored, the values, spans that are loaded, and what they take.
const TAKES: &[(Ends, u64, Ends, u64)] = &[
    (
        (0x10_0000, 8),
        0x8877_6655_4433_2211,
        (0x10_0000, 8),
        0x8877_6655_4433_2211,
    ),
    (
        (0x10_0000, 8),
        0x8877_6655_4433_2211,
        (0x10_0004, 4),
        0x8877_6655,
    ),
    (
        (0x10_0000, 8),
        0x8877_6655_4433_2211,
        (0x10_0002, 2),
        0x4433,
    ),
    ((0x10_0000, 8), 0x8877_6655_4433_2211, (0x10_0000, 1), 0x11),
    ((0x10_0000, 8), 0x8877_6655_4433_2211, (0x10_0007, 1), 0x88),
    ((LAST, 1), 0x1234, (LAST, 1), 0x34),
];

#[test]
fn loads_take_their_part(rt: HostRuntime) {
    for (stored, value, loaded, want) in TAKES {
        let store = Bytes {
            span: span(*stored),
            value: *value,
        };
        let found = store.part(span(*loaded));
        assert_equal(&rt, (*loaded, found), (*loaded, *want));
    }
}
