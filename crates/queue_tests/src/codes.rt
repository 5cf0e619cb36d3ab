//! Refusals, printed as their codes.

use load_store_queue::QueueFault;
use rename_file::RenameFault;
use reorder_buffer::RingFault;
use std::alloc::Global;
use std::fmt::Display;
use std::process::Abort;

/// A refusal is printed as this code.
fn assert_code(rt: &impl Abort, alloc: Global, refusal: &impl Display, code: &str) {
    let printed = refusal.to_string(alloc).expect(rt, "memory");
    assert!(rt; printed.as_str() == code);
}

#[test]
fn refusals_are_printed_as_their_codes(rt: HostRuntime) {
    let alloc = rt.alloc();
    assert_code(&rt, alloc, &RenameFault::NoneFree, "N1");
    assert_code(&rt, alloc, &RenameFault::OutOfMemory, "N2");
    assert_code(&rt, alloc, &RingFault::Full, "B1");
    assert_code(&rt, alloc, &RingFault::OutOfMemory, "B2");
    assert_code(&rt, alloc, &QueueFault::Full, "L1");
}
