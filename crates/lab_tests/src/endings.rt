//! How the program ends: what it prints on standard error, its status, and the help.

use lab_commands::device::Watched;
use lab_commands::run::{Failure, show_help, status, tell, unread, words};
use std::alloc::Global;
use std::process::{Abort, ExitCode};
use std::str;

/// Standard error gets this text, or one that begins so, and the status is this.
fn assert_ends(
    rt: &impl Abort,
    alloc: &Global,
    outcome: Result<(), Failure<&Global>>,
    text: Text,
    code: u8,
) {
    let mut errors = Vec::new(*alloc);
    let told = tell(&outcome, &mut errors).is_ok();
    let ends = told && status(&outcome) == ExitCode::from(code);
    assert!(rt; ends && text.is(&errors));
}

/// What is written.
#[derive(Clone, Copy)]
enum Text {
    /// This.
    Whole(&'static str),
    /// What begins with this.
    Beginning(&'static str),
}

impl Text {
    fn is(self, bytes: &[u8]) -> bool {
        match self {
            Text::Whole(text) => bytes == text.as_bytes(),
            Text::Beginning(text) => bytes.starts_with(text.as_bytes()),
        }
    }
}

/// What is written to standard output and to standard error, and the status, where the words ask for no command.
fn assert_shown(
    rt: &impl Abort,
    alloc: &Global,
    given: &[&str],
    output: Text,
    errors: Text,
    code: u8,
) {
    let error = words(*alloc, given).err().expect(rt, "a request");
    let name = String::from_str(alloc, "-").expect(rt, "memory");
    let mut sink = Watched::new(Vec::new(alloc), name);
    let outcome = show_help(alloc, error, &mut sink);
    assert!(rt; output.is(&sink.into_inner()));
    assert_ends(rt, alloc, outcome, errors, code);
}

#[test]
fn endings_of_outcomes(rt: HostRuntime) {
    let alloc = rt.alloc();
    assert_ends(&rt, &alloc, Ok(()), Text::Whole(""), 0);
    let refused = Err(Failure::Refused(unread(&alloc, "a.s")));
    assert_ends(&rt, &alloc, refused, Text::Whole("refused S1 a.s\n"), 1);
    let line = "error: invalid UTF-8 was detected in one or more arguments\n";
    assert_ends(&rt, &alloc, Err(Failure::NotUnicode), Text::Whole(line), 2);
}

const ABOUT: &str =
    "Simulates a simultaneous multithreading out-of-order RV64I core, cycle by cycle\n";

/// The beginning of what is printed for a code that isn't there.
const NO_CODE: &str =
    "error: invalid value 'Q9' for '<CODE>'\n  [possible values: A1, A2, A3, A4, A5, A6, \
A7, A8, C3, E1, J1, J2, J3, J4, J5, J6, P1, P2, P3, P4, P5, S1, S2]\n";

#[test]
fn help_and_wrong_words(rt: HostRuntime) {
    let alloc = rt.alloc();
    let none = Text::Whole("");
    let unknown = Text::Beginning("error: unrecognized subcommand 'halt'\n");
    assert_shown(&rt, &alloc, &["halt"], none, unknown, 2);
    let codes = Text::Beginning(NO_CODE);
    assert_shown(&rt, &alloc, &["explain", "Q9"], none, codes, 2);
    assert_shown(&rt, &alloc, &["--help"], Text::Beginning(ABOUT), none, 0);
    let version = Text::Whole("smt-lab 0.1.0\n");
    assert_shown(&rt, &alloc, &["--version"], version, none, 0);
}
