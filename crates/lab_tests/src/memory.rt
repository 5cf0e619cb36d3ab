//! The refusals where memory runs out, over heaps of every size up to the one that suffices.

ghost use Rattle.lab_commands.specs.CommandLine.{IsBounded};

use crate::bounds::BOUND;
use crate::listings::LISTED;
use lab_commands::device::Watched;
use lab_commands::run::{Request, serve};
use linked_list_allocator::LocalHeap;
use std::alloc::Global;
use std::process::Abort;

const PROGRAM: &str = ".word 0x00A00293\n.word 0xFFF28293\n.word 0xFE029EE3\n.word 0x00000073\n";

const PLAN: &str = "[[jobs]]\nlimit = 7\n[[jobs]]\nlimit = 7\n";

/// What a request ends with for a text over a heap of so many bytes: its refusal's line, or `written`.
fn ending(rt: &impl Abort, alloc: Global, request: Request<'_>, text: &str, size: usize) -> String
    requires { IsBounded request }
{
    let heap = LocalHeap::new(alloc, size).expect(rt, "memory");
    let name = String::from_str(alloc, "in").expect(rt, "memory");
    let mut input = Watched::new(text.as_bytes(), name);
    let name = String::from_str(alloc, "-").expect(rt, "memory");
    let mut output = Watched::new(Vec::new(alloc), name);
    match serve(&heap, alloc, request, &mut input, &mut output) {
        Ok(()) => String::from_str(alloc, "written").expect(rt, "memory"),
        Err(refusal) => refusal.to_string(alloc).expect(rt, "memory"),
    }
}

/// Over heaps that grow up to 16 times this size a request ends so for a text, each ending once for all sizes in a row
/// that have it.
fn assert_endings(
    rt: &impl Abort,
    alloc: Global,
    request: Request<'_>,
    text: &str,
    most: usize,
    wanted: &str,
)
    requires { IsBounded request }
{
    let mut all = String::new(alloc);
    let mut last = String::new(alloc);
    for size in 2..most.min(4096) {
        let next = ending(rt, alloc, request, text, 16 * size);
        if next.as_str() != last.as_str() {
            write!(all, "{next}\n").expect(rt, "memory");
            last = next;
        }
    }
    assert_eq!(rt; all.as_str(), wanted);
}

const SEVEN_WITH_FOUR: Request<'_> = Request::Step {
    file: "in",
    count: 7,
    with: Some(4),
};

#[test]
fn codes_over_growing_heaps(rt: HostRuntime) {
    // read, assembled, its origin shared, marked twice; the block takes less than the mark that the
    // join dropped
    let stepped = "refused E1\nrefused A8\nrefused E1\nrefused C3\nwritten\n";
    assert_endings(&rt, rt.alloc(), SEVEN_WITH_FOUR, PROGRAM, 4096, stepped);
    // read, assembled, listed; the instruction of a line is shown by the assembler
    let listed = "refused E1\nrefused A8\nrefused E1\nrefused A8\nrefused E1\nwritten\n";
    assert_endings(&rt, rt.alloc(), LISTED, PROGRAM, 4096, listed);
    // read, and its lines; the plan is kept elsewhere
    let bounded = "refused E1\nwritten\n";
    assert_endings(&rt, rt.alloc(), BOUND, PLAN, 128, bounded);
}
