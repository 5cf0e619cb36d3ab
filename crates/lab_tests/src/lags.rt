//! Lags by the table of kinds and tags.
use crate::equal::assert_equal;
use core_profile::Profile;
use data_tags::{Alternating, Delay, Flat, Kind, Lag, Latencies, Tags};
use join_law::Ctx;
use std::alloc::Global;
use std::process::Abort;

// Five latencies that differ.
fn latencies() -> Latencies {
    Latencies {
        alu: 3,
        branch: 5,
        store: 7,
        hit: 2,
        miss: 20,
    }
}

/// What a context issues, in order, and the cycles that it takes; whether it is a load that missed.
struct Issued {
    context: usize,
    kind: Kind,
    address: u64,
    cycles: u8,
    miss: bool,
}

/// A load of context 0 that hits.
const HIT: Issued = Issued {
    context: 0,
    kind: Kind::Load,
    address: 0,
    cycles: 2,
    miss: false,
};

/// A load of context 0 that misses.
const MISS: Issued = Issued {
    cycles: 20,
    miss: true,
    ..HIT
};

const BRANCH: Issued = Issued {
    kind: Kind::Branch,
    cycles: 5,
    ..HIT
};

const STORE: Issued = Issued {
    kind: Kind::Store,
    cycles: 7,
    ..HIT
};

const ALU: Issued = Issued {
    kind: Kind::Alu,
    cycles: 3,
    ..HIT
};

/// One latency a kind, twice.
const FLAT: &[Issued] = &[
    Issued {
        address: 64,
        ..BRANCH
    },
    Issued { address: 64, ..HIT },
    Issued {
        address: 64,
        ..STORE
    },
    Issued { address: 64, ..ALU },
    Issued {
        address: 64,
        ..BRANCH
    },
    Issued { address: 64, ..HIT },
    Issued {
        address: 64,
        ..STORE
    },
    Issued { address: 64, ..ALU },
];

/// The lags go by turns.
const ALTERNATING: &[Issued] = &[
    Issued { cycles: 1, ..HIT },
    Issued {
        cycles: 200,
        ..MISS
    },
    Issued { cycles: 1, ..ALU },
    Issued { cycles: 200, ..ALU },
];

/// The line is loaded once, and so is the next, which is another.
const A_LOAD_MISSES_ONCE: &[Issued] = &[
    Issued {
        address: 0x100000,
        ..MISS
    },
    Issued {
        address: 0x100000,
        ..HIT
    },
    Issued {
        address: 0x10003F,
        ..HIT
    },
    Issued {
        address: 0x100008,
        ..HIT
    },
    Issued {
        address: 0x100040,
        ..MISS
    },
    Issued {
        address: 0x100000,
        ..HIT
    },
];

const LOADS_4096_BYTES_APART_SHARE_A_LINE: &[Issued] = &[
    Issued {
        address: 0x100000,
        ..MISS
    },
    Issued {
        address: 0x101000,
        ..MISS
    },
    Issued {
        address: 0x100000,
        ..MISS
    },
    Issued { address: 0, ..MISS },
    Issued { address: 63, ..HIT },
];

const CONTEXTS_SHARE_THE_TABLE_AND_NO_TAG: &[Issued] = &[
    Issued {
        address: 0x100000,
        ..MISS
    },
    Issued {
        context: 7,
        address: 0x100000,
        ..MISS
    },
    Issued {
        address: 0x100000,
        ..MISS
    },
    Issued {
        address: 0x100000,
        ..HIT
    },
];

/// No store leaves a tag, and none takes one.
const OTHER_KINDS_TOUCH_NO_TAG: &[Issued] = &[
    STORE,
    BRANCH,
    ALU,
    MISS,
    Issued {
        address: 4096,
        ..STORE
    },
    HIT,
];

// The lags are those of the table.
fn assert_lags<D: Delay>(rt: &impl Abort, delay: &mut D, table: &[Issued]) {
    for it in table {
        let lag = delay.delay(Ctx::all()[it.context % 8], it.kind, it.address);
        assert_equal(
            rt,
            (it.address, lag.cycles, lag.miss),
            (it.address, it.cycles, it.miss),
        );
    }
}

#[test]
fn lags_of_no_table(rt: HostRuntime) {
    let mut flat = Flat::new(latencies());
    let mut alternating = Alternating { long: false };
    assert_equal(&rt, [flat.greatest(), alternating.greatest()], [20, 200]);
    assert_lags(&rt, &mut flat, FLAT);
    assert_lags(&rt, &mut alternating, ALTERNATING);
}

// New tags give the lags of the table.
fn assert_tags(rt: &impl Abort, alloc: Global, table: &[Issued]) {
    let mut tags = Tags::new(alloc, latencies()).expect(rt, "memory");
    assert!(rt; tags.greatest() == 20);
    assert_lags(rt, &mut tags, table);
}

#[test]
fn lags_by_tags(rt: HostRuntime) {
    for table in [
        A_LOAD_MISSES_ONCE,
        LOADS_4096_BYTES_APART_SHARE_A_LINE,
        CONTEXTS_SHARE_THE_TABLE_AND_NO_TAG,
        OTHER_KINDS_TOUCH_NO_TAG,
    ] {
        assert_tags(&rt, rt.alloc(), table);
    }
}

// The cycles of each kind, and last of a load that misses.
fn cycles(latencies: &Latencies) -> [u8; 5] {
    [
        latencies.lag(Kind::Alu, false).cycles,
        latencies.lag(Kind::Branch, false).cycles,
        latencies.lag(Kind::Store, false).cycles,
        latencies.lag(Kind::Load, false).cycles,
        latencies.lag(Kind::Load, true).cycles,
    ]
}

// The defaults are 1 but for a miss of 20.
#[test]
fn a_default_profile_has_its_latencies(rt: HostRuntime) {
    let latencies = Latencies::from(&Profile::default());
    assert_equal(&rt, cycles(&latencies), [1, 1, 1, 1, 20]);
    assert!(rt; latencies.greatest() == 20);
}

// The greatest of five latencies of which that at this place is 9, and the others are 1.
fn greatest_with_9_at(place: u8) -> u8 {
    let pick = |k: u8| if k == place { 9 } else { 1 };
    let latencies = Latencies {
        alu: pick(0),
        branch: pick(1),
        store: pick(2),
        hit: pick(3),
        miss: pick(4),
    };
    latencies.greatest()
}

#[test]
fn greatest_is_that_of_five(rt: HostRuntime) {
    for place in 0..5 {
        assert_equal(&rt, (place, greatest_with_9_at(place)), (place, 9));
    }
}
