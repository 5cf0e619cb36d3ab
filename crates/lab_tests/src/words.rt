//! The words of a command line.

use lab_commands::run::{Invocation, Request, words};
use refusal_codes::Code;
use std::alloc::Global;

/// Words and the request that they make.
const REQUESTS: &[(&[&str], Request<'_>)] = &[
    (&["asm", "--", "-.s"], Request::Asm { file: "-.s" }),
    (
        &["step", "a.s", "--count", "7"],
        Request::Step {
            file: "a.s",
            count: 7,
            with: None,
        },
    ),
    (&["run", "mix.toml"], Request::Run { plan: "mix.toml" }),
    (&["bound", "mix.toml"], Request::Bound { plan: "mix.toml" }),
    (
        &["run", "--workers", "1", "mix.toml"],
        Request::Run { plan: "mix.toml" },
    ),
    (
        &["step", "--with=0", "--count", "+1099511627776", "--", "-.s"],
        Request::Step {
            file: "-.s",
            count: 1_099_511_627_776,
            with: Some(0),
        },
    ),
];

#[test]
fn words_that_make_a_request(rt: HostRuntime) {
    let alloc = rt.alloc();
    for (given, request) in REQUESTS {
        let made = words(alloc, *given).ok();
        assert!(rt; made == Some(Invocation::Serve(*request)));
    }
    let files = [
        REQUESTS[0].1.file(),
        REQUESTS[2].1.file(),
        REQUESTS[3].1.file(),
    ];
    assert_eq!(rt; files, ["-.s", "mix.toml", "mix.toml"]);
}

/// Words and the code that they ask for.
const CODES: &[(&[&str], Code)] = &[
    (&["explain", "J1"], Code::J1),
    (&["explain", "s2"], Code::S2),
    (&["explain", "--", "A8"], Code::A8),
];

#[test]
fn words_that_ask_for_a_code(rt: HostRuntime) {
    let alloc = rt.alloc();
    for (given, code) in CODES {
        let made = words(alloc, *given).ok();
        assert!(rt; made == Some(Invocation::Explain(*code)));
    }
}

/// Words that are wrong.
const WRONG: &[&[&str]] = &[
    &[],
    &["asm"],
    &["asm", "a", "b"],
    &["asm", "a", "--count", "7"],
    &["step"],
    &["step", "a"],
    &["step", "--count", "7"],
    &["step", "a", "--count", "1099511627777"],
    &["step", "a", "--count", "-1"],
    &["step", "a", "--count=-1"],
    &["step", "a", "--count", "7", "--count", "7"],
    &["step", "a", "--count", "0x7"],
    &["step", "a", "b", "--count", "7"],
    &["step", "-a", "--count", "7"],
    &["halt", "a"],
    &["run"],
    &["run", "a", "b"],
    &["run", "a", "--workers", "0"],
    &["run", "a", "--workers", "2"],
    &["run", "a", "--count", "7"],
    &["bound"],
    &["bound", "a", "b"],
    &["bound", "a", "--workers", "1"],
    &["explain"],
    &["explain", "Q9"],
    &["explain", "J"],
    &["explain", "J1 "],
    &["explain", ""],
    &["explain", "J1", "J2"],
];

/// Words that ask for help or the version.
const HELPS: &[&[&str]] = &[
    &["--help"],
    &["-h"],
    &["help"],
    &["step", "--help"],
    &["asm", "-h"],
    &["run", "--help"],
    &["bound", "--help"],
    &["explain", "--help"],
    &["--version"],
    &["-V"],
];

/// Whether the text for words that make no request goes to standard error, and the status.
fn refused(alloc: Global, given: &[&str]) -> Option<(bool, i32)> {
    let error = words(alloc, given).err()?;
    Some((error.use_stderr(), error.exit_code()))
}

#[test]
fn words_that_make_none(rt: HostRuntime) {
    let alloc = rt.alloc();
    for given in WRONG {
        assert_eq!(rt; refused(alloc, *given), Some((true, 2)));
    }
    for given in HELPS {
        assert_eq!(rt; refused(alloc, *given), Some((false, 0)));
    }
}
