//! Profiles by their tables: ranges, defaults, names and refusals.

use crate::equal::assert_equal;
use core_profile::{FetchPolicy, IssuePolicy, Key, Profile, ProfileFault, ProfileFields};
use std::alloc::Global;

/// The numbers of the table of keys: the least, the greatest and the default.
const RANGES: [(Key, u64, u64, u64); 16] = [
    (Key::AluLatency, 1, 200, 1),
    (Key::BranchLatency, 1, 200, 1),
    (Key::ExtraRegisters, 32, 224, 100),
    (Key::FrontDelay, 1, 8, 2),
    (Key::HitLatency, 1, 200, 1),
    (Key::IssueQueue, 8, 64, 32),
    (Key::IssueWidth, 1, 8, 8),
    (Key::LoadQueue, 4, 32, 16),
    (Key::MissLatency, 1, 200, 20),
    (Key::Num1, 1, 4, 2),
    (Key::Num2, 1, 8, 8),
    (Key::RenameWidth, 1, 8, 8),
    (Key::ReorderBuffer, 8, 64, 32),
    (Key::RetireWidth, 1, 16, 8),
    (Key::StoreLatency, 1, 200, 1),
    (Key::StoreQueue, 4, 32, 16),
];

/// The line of text that gives a key this number.
fn line_of(alloc: Global, key: Key, number: u64) -> Option<String> {
    format!(in alloc; "{key} = {number}").ok()
}

/// What a profile's text is refused by, or `ok`.
fn refusal_of(alloc: Global, text: &str) -> Option<String> {
    let table = toml::table_from_str(alloc, text).ok()?;
    match Profile::from_table(alloc, &table) {
        Ok(_) => String::from_str(alloc, "ok").ok(),
        Err(fault) => format!(in alloc; "{fault}").ok(),
    }
}

/// Whether a profile's text is refused by this, or is `ok`.
fn is_refused_by(alloc: Global, text: &str, wanted: &str) -> Option<bool> {
    let refusal = refusal_of(alloc, text)?;
    Some(refusal.as_str() == wanted)
}

/// The profile of a text that is accepted.
fn profile_of(alloc: Global, text: &str) -> Option<Profile> {
    let table = toml::table_from_str(alloc, text).ok()?;
    Profile::from_table(alloc, &table).ok()
}

/// Whether a key's number is refused as out of range.
fn is_out_of_range(alloc: Global, key: Key, number: u64) -> Option<bool> {
    let line = line_of(alloc, key, number)?;
    let wanted = format!(in alloc; "P3 {key}").ok()?;
    is_refused_by(alloc, line.as_str(), wanted.as_str())
}

/// Whether a key's number is accepted.
fn is_accepted(alloc: Global, key: Key, number: u64) -> Option<bool> {
    let line = line_of(alloc, key, number)?;
    is_refused_by(alloc, line.as_str(), "ok")
}

/// Whether the bounds of a key's range and its default are accepted, and a number past each bound is refused.
fn has_range(alloc: Global, key: Key, low: u64, high: u64, default: u64) -> [Option<bool>; 5] {
    [
        is_accepted(alloc, key, low),
        is_accepted(alloc, key, high),
        is_accepted(alloc, key, default),
        is_out_of_range(alloc, key, low.saturating_sub(1)),
        is_out_of_range(alloc, key, high.saturating_add(1)),
    ]
}

#[test]
fn accepts_the_bounds_of_each_range_and_none_past_them(rt: HostRuntime) {
    for (key, low, high, default) in RANGES {
        let found = has_range(rt.alloc(), key, low, high, default);
        assert_equal(&rt, (key, found), (key, [Some(true); 5]));
    }
}

/// Texts and what they are refused by.
const REFUSALS: [(&str, &str); 14] = [
    // The first key in byte order is named.
    ("num1 = 3", "P3 num1"),
    ("num1 = 3\nfetch = \"FIFO\"", "P4 fetch"),
    ("widht = 1", "P1 widht"),
    ("num2 = \"8\"", "P2 num2"),
    ("widht = 1\nnum1 = 3", "P3 num1"),
    ("num1 = 3\nfetches = 1", "P1 fetches"),
    // Kinds are told from names and ranges.
    ("fetch = 3", "P2 fetch"),
    ("fetch = \"\"", "P4 fetch"),
    ("issue = \"oldest_first\"", "P4 issue"),
    ("num1 = true", "P2 num1"),
    ("num1 = 2.0", "P2 num1"),
    ("num2 = -1", "P3 num2"),
    ("num2 = 264", "P3 num2"),
    ("\"\" = 1", "P1 "),
];

#[test]
fn names_what_it_refuses(rt: HostRuntime) {
    let alloc = rt.alloc();
    for (text, wanted) in REFUSALS {
        assert!(rt; is_refused_by(alloc, text, wanted) == Some(true), "{text}");
    }
}

#[test]
fn num1_may_be_2_and_no_3(rt: HostRuntime) {
    let alloc = rt.alloc();
    let found = [
        is_accepted(alloc, Key::Num1, 2),
        is_out_of_range(alloc, Key::Num1, 3),
    ];
    assert_equal(&rt, found, [Some(true); 2]);
}

/// The fields of the default profile.
const DEFAULTS: ProfileFields = ProfileFields {
    fetch: FetchPolicy::Icount,
    issue: IssuePolicy::OldestFirst,
    num1: 2,
    num2: 8,
    rename_width: 8,
    issue_width: 8,
    retire_width: 8,
    issue_queue: 32,
    reorder_buffer: 32,
    load_queue: 16,
    store_queue: 16,
    extra_registers: 100,
    front_delay: 2,
    alu_latency: 1,
    branch_latency: 1,
    store_latency: 1,
    hit_latency: 1,
    miss_latency: 20,
};

#[test]
fn the_empty_table_gives_the_defaults(rt: HostRuntime) {
    assert_eq!(rt; profile_of(rt.alloc(), ""), Some(Profile::default()));
    assert_eq!(rt; ProfileFields::from(Profile::default()), DEFAULTS);
}

#[test]
fn reads_policies_and_numbers(rt: HostRuntime) {
    let text = "fetch = \"RR\"\nissue = \"BRANCH_FIRST\"\nnum1 = 4";
    let it = profile_of(rt.alloc(), text).expect(&rt, "a profile");
    assert_equal(
        &rt,
        (it.fetch, it.issue, it.num1, it.num2),
        (FetchPolicy::RoundRobin, IssuePolicy::BranchFirst, 4, 8),
    );
}

/// The name of the fetch policy of a name.
fn fetch_name(name: &str) -> Option<&'static str> {
    Some(FetchPolicy::from_name(name)?.name())
}

/// The name of the issue policy of a name.
fn issue_name(name: &str) -> Option<&'static str> {
    Some(IssuePolicy::from_name(name)?.name())
}

#[test]
fn reads_every_policy(rt: HostRuntime) {
    for name in ["RR", "ICOUNT", "BRCOUNT", "MISSCOUNT", "IQPOSN"] {
        assert!(rt; fetch_name(name) == Some(name));
    }
    for name in ["OLDEST_FIRST", "SPEC_LAST", "BRANCH_FIRST"] {
        assert!(rt; issue_name(name) == Some(name));
    }
}

/// The key whose number is out of range in these fields, and the profile where there is none.
fn checked(fields: ProfileFields) -> (Option<Key>, Option<Profile>) {
    match Profile::checked(fields) {
        Ok(profile) => (None, Some(profile)),
        Err(ProfileFault::OutOfRange(key)) => (Some(key), None),
        Err(_) => (None, None),
    }
}

#[test]
fn checks_fields(rt: HostRuntime) {
    let fields = ProfileFields {
        num2: 9,
        miss_latency: 0,
        ..ProfileFields::default()
    };
    assert_eq!(rt; checked(fields), (Some(Key::MissLatency), None));
    let default = (None, Some(Profile::default()));
    assert_eq!(rt; checked(ProfileFields::default()), default);
}

#[test]
fn keys_are_in_byte_order(rt: HostRuntime) {
    let mut last = "";
    for key in Key::all() {
        let name = key.name();
        assert!(rt; last < name && Key::from_name(name) == Some(key), "{key}");
        last = name;
    }
}
