//! What `explain` writes for codes: the paragraphs of docs/formats.md.

use crate::devices::Writer;
use lab_commands::device::Watched;
use lab_commands::run::explain;
use refusal_codes::Code;
use std::alloc::Global;
use std::process::Abort;
use std::str;

/// A writer that takes at most so many bytes a call, and fails at this call.
fn writer(alloc: &Global, at_once: usize, fails_at: usize, by_error: bool) -> Writer {
    Writer {
        held: Vec::new(*alloc),
        at_once,
        fails_at,
        calls: 0,
        by_error,
    }
}

/// What a writer holds after a code was explained, and after it the line of the refusal, where there is one.
fn explained(rt: &impl Abort, alloc: &Global, code: Code, writer: Writer) -> String {
    let mut output = Watched::new(writer, String::from_str(alloc, "-").expect(rt, "memory"));
    let line = match explain(alloc, code, &mut output) {
        Ok(()) => String::new(*alloc),
        Err(refusal) => refusal.to_string(*alloc).expect(rt, "memory"),
    };
    let writer = output.into_inner();
    let written = str::from_utf8(&writer.held).expect(rt, "a text");
    format!(in *alloc; "{written}{line}").expect(rt, "memory")
}

const S2: &str = "\
The file can't be written, as where the disk is full or the reader of a pipe has gone. `-` is\n\
standard output.\n";

const J3: &str = "The plan has more than 4096 jobs. Make two plans of it.\n";

#[test]
fn paragraphs_of_codes(rt: HostRuntime) {
    let alloc = rt.alloc();
    let whole = explained(&rt, &alloc, Code::S2, Writer::new(alloc));
    assert_eq!(rt; whole.as_str(), S2);
    let by_three = writer(&alloc, 3, usize::MAX, true);
    let whole = explained(&rt, &alloc, Code::J3, by_three);
    assert_eq!(rt; whole.as_str(), J3);
}

#[test]
fn a_writer_that_fails(rt: HostRuntime) {
    let alloc = rt.alloc();
    for by_error in [true, false] {
        let cut = explained(&rt, &alloc, Code::J3, writer(&alloc, 8, 1, by_error));
        assert_eq!(rt; cut.as_str(), "The planrefused S2 -");
    }
}
