//! Devices in memory: what requests write over them, and readers and writers that fail.

ghost use Rattle.lab_commands.specs.CommandLine.{IsBounded};

use crate::blocks::{COUNTDOWN, FOUR_WITH_SEVEN};
use crate::listings::{LISTED, PROGRAM};
use crate::reports::RUN;
use lab_commands::device::{Sink, Source, Watched};
use lab_commands::run::{Request, serve};
use std::alloc::Global;
use std::io::{ErrorKind, Read, Write};
use std::process::Abort;
use std::{io, str};

/// A reader that gives at most so many bytes a call, and fails at call `fails_at`, counted from 0.
#[derive(Drop)]
pub struct Reader<'a> {
    pub rest: &'a [u8],
    pub at_once: usize,
    pub fails_at: usize,
    pub calls: usize,
}

impl<'a> Reader<'a> {
    /// A reader that gives all at once.
    pub fn new(bytes: &'a [u8]) -> Reader<'a> {
        Reader {
            rest: bytes,
            at_once: usize::MAX,
            fails_at: usize::MAX,
            calls: 0,
        }
    }
}

impl Read for Reader<'_> {
    fn read(&mut self, buffer: &mut [u8]) -> io::Result<usize> {
        let call = self.calls;
        self.calls = call.wrapping_add(1);
        if call == self.fails_at {
            let kinds = [ErrorKind::Other, ErrorKind::Interrupted];
            return Err(io::Error::from(kinds[call % 2]));
        }
        let count = self.rest.len().min(buffer.len()).min(self.at_once);
        let (first, rest) = self.rest.split_at(count);
        buffer[..count].copy_from_slice(first);
        self.rest = rest;
        Ok(count)
    }
}

/// A writer that takes at most so many bytes a call, and fails at call `fails_at`, counted from 0: by an
/// error, or by taking none.
#[derive(Drop)]
pub struct Writer {
    pub held: Vec<u8>,
    pub at_once: usize,
    pub fails_at: usize,
    pub calls: usize,
    pub by_error: bool,
}

impl Writer {
    /// A writer that takes all at once.
    pub fn new(alloc: Global) -> Writer {
        Writer {
            held: Vec::new(alloc),
            at_once: usize::MAX,
            fails_at: usize::MAX,
            calls: 0,
            by_error: true,
        }
    }
}

impl Write for Writer {
    fn write(&mut self, bytes: &[u8]) -> io::Result<usize> {
        let call = self.calls;
        self.calls = call.wrapping_add(1);
        if call == self.fails_at {
            if self.by_error {
                return Err(io::Error::from(ErrorKind::Other));
            }
            return Ok(0);
        }
        let count = bytes.len().min(self.at_once);
        self.held.extend_from_slice(&bytes[..count])?;
        Ok(count)
    }

    fn flush(&mut self) -> io::Result<()> {
        Ok(())
    }
}

/// What a request writes, and after it the line of its refusal, where it refuses: that alone has no end
/// of line. A device has failed exactly where its reader or writer has.
fn answer_over(
    rt: &impl Abort,
    alloc: &Global,
    request: Request<'_>,
    name: &str,
    reader: Reader<'_>,
    writer: Writer,
) -> String
    requires { IsBounded request }
{
    let fails = [reader.fails_at, writer.fails_at];
    let mut input = Watched::new(reader, String::from_str(alloc, name).expect(rt, "memory"));
    let mut output = Watched::new(writer, String::from_str(alloc, "-").expect(rt, "memory"));
    let line = match serve(alloc, *alloc, request, &mut input, &mut output) {
        Ok(()) => String::new(*alloc),
        Err(refusal) => refusal.to_string(*alloc).expect(rt, "memory"),
    };
    let failed = [input.failed(), output.failed()];
    let reader = input.into_inner();
    let writer = output.into_inner();
    let met = [fails[0] < reader.calls, fails[1] < writer.calls];
    assert_eq!(rt; failed, met);
    let written = str::from_utf8(&writer.held).expect(rt, "a text");
    format!(in *alloc; "{written}{line}").expect(rt, "memory")
}

/// What a request writes for a file of this name and these bytes, or the line of its refusal.
pub fn answer(
    rt: &impl Abort,
    alloc: &Global,
    request: Request<'_>,
    name: &str,
    bytes: &[u8],
) -> String
    requires { IsBounded request }
{
    answer_over(
        rt,
        alloc,
        request,
        name,
        Reader::new(bytes),
        Writer::new(*alloc),
    )
}

/// Whether a text is these parts, one after the other.
fn is_made_of(text: &str, parts: &[&str]) -> bool {
    let mut rest = text;
    for part in parts {
        match rest.strip_prefix(*part) {
            Some(next) => rest = next,
            None => return false,
        }
    }
    rest.is_empty()
}

/// A request writes these parts for a file of this name and these bytes, or the line of a refusal.
pub fn assert_answer(
    rt: &impl Abort,
    alloc: &Global,
    request: Request<'_>,
    name: &str,
    bytes: &[u8],
    parts: &[&str],
)
    requires { IsBounded request }
{
    let found = answer(rt, alloc, request, name, bytes);
    assert!(rt; is_made_of(found.as_str(), parts), "{found}");
}

/// A line, so many times.
pub fn repeated(rt: &impl Abort, alloc: Global, line: &str, times: usize) -> String {
    let mut text = String::new(alloc);
    for _ in 0..times {
        text.push_str(line).expect(rt, "memory");
    }
    text
}

/// A request over a reader that fails at each of its calls in turn, and the calls that it needs:
/// it is refused as long as it meets the failure, and then writes all.
fn assert_over_readers(rt: &impl Abort, alloc: &Global, request: Request<'_>, bytes: &[u8])
    requires { IsBounded request }
{
    let whole = answer(rt, alloc, request, "in", bytes);
    // 17 bytes a call, and the call that gives none
    let calls = bytes.len().div_ceil(17).wrapping_add(1);
    for fails_at in 0..calls.saturating_add(1) {
        let reader = Reader {
            rest: bytes,
            at_once: 17,
            fails_at,
            calls: 0,
        };
        let found = answer_over(rt, alloc, request, "in", reader, Writer::new(*alloc));
        let wanted = if fails_at < calls {
            "refused S1 in"
        } else {
            whole.as_str()
        };
        assert_eq!(rt; found.as_str(), wanted, "at {fails_at}");
    }
}

/// Whether it is all that a request writes, or, where that is more bytes than these, so many of them
/// and the line of the refusal.
fn is_cut(found: &str, whole: &str, bytes: usize) -> bool {
    match found.strip_suffix("refused S2 -") {
        Some(held) => held.len() == bytes && bytes < whole.len() && whole.starts_with(held),
        None => found == whole && whole.len() <= bytes,
    }
}

/// A request over writers that fail at each of so many calls, by an error or by taking nothing:
/// what was written is a beginning of the whole.
fn assert_over_writers(
    rt: &impl Abort,
    alloc: &Global,
    request: Request<'_>,
    bytes: &[u8],
    calls: usize,
)
    requires { IsBounded request }
{
    let whole = answer(rt, alloc, request, "in", bytes);
    for fails_at in 0..calls {
        for by_error in [true, false] {
            let writer = Writer {
                held: Vec::new(*alloc),
                at_once: 20,
                fails_at,
                calls: 0,
                by_error,
            };
            let found = answer_over(rt, alloc, request, "in", Reader::new(bytes), writer);
            let held = fails_at.saturating_mul(20);
            assert!(rt;
                is_cut(found.as_str(), whole.as_str(), held),
                "at {fails_at}"
            );
        }
    }
}

#[test]
fn readers_that_fail_at_each_call(rt: HostRuntime) {
    let alloc = rt.alloc();
    assert_over_readers(&rt, &alloc, FOUR_WITH_SEVEN, COUNTDOWN.as_bytes());
    assert_over_readers(&rt, &alloc, LISTED, PROGRAM.as_bytes());
    assert_over_readers(&rt, &alloc, RUN, b"contexts = ['']\n");
}

#[test]
fn writers_that_fail_at_each_call(rt: HostRuntime) {
    let alloc = rt.alloc();
    // 142 bytes, 20 a call
    assert_over_writers(&rt, &alloc, FOUR_WITH_SEVEN, COUNTDOWN.as_bytes(), 9);
    assert_over_writers(&rt, &alloc, LISTED, PROGRAM.as_bytes(), 40);
    // 17 bytes and eight blocks of 118, 20 a call
    assert_over_writers(&rt, &alloc, RUN, b"", 49);
}
