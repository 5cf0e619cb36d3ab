//! A thousand jobs, whose ends and join are the same for any number of workers.

use crate::desks::{Desk, Numbers};
use crate::equal::assert_equal;
use crate::new_desks::desks;
use std::alloc::Global;
use std::process::Abort;
use std::sync::Wait;
use std::thread::Threads;
use worker_pool::{Done, Open, run_all};

const JOBS: usize = 1000;

// What is left of a thousand jobs, of which none is refused.
fn done_by<R: Threads + Wait + Abort + Sync>(
    rt: &R,
    alloc: Global,
    workers: usize,
) -> Done<Desk, u64, u64> {
    let work = Numbers { refused: JOBS };
    let seats = desks(rt, alloc, workers, JOBS);
    run_all(rt, alloc, JOBS, workers, 7, &work, seats, &Open).expect(rt, "memory")
}

// Each job ends with its number, and is run at one desk.
fn check<R: Threads + Wait + Abort + Sync>(rt: &R, alloc: Global, workers: usize) {
    let done = done_by(rt, alloc, workers);
    assert_equal(rt, done.total, 999);
    assert_equal(rt, done.seats.len(), workers);
    let mut sum = 0u64;
    let mut job = 0u64;
    for end in done.ends.iter() {
        assert_equal(rt, *end, Some(job));
        sum = sum.wrapping_add(job);
        job = job.wrapping_add(1);
    }
    assert_equal(rt, sum, 499500);
    let mut runs = 0usize;
    for desk in done.seats.iter() {
        runs = runs.wrapping_add(desk.ends.len());
    }
    assert_equal(rt, runs, JOBS);
}

#[test]
fn one_worker(rt: HostRuntime) {
    check(&rt, rt.alloc(), 1);
}

#[test]
fn two_workers(rt: HostRuntime) {
    check(&rt, rt.alloc(), 2);
}

#[test]
fn eight_workers(rt: HostRuntime) {
    check(&rt, rt.alloc(), 8);
}

#[test]
fn sixty_four_workers(rt: HostRuntime) {
    check(&rt, rt.alloc(), 64);
}

/// One worker runs the jobs in their order.
#[test]
fn one_worker_keeps_the_order(rt: HostRuntime) {
    let mut done = done_by(&rt, rt.alloc(), 1);
    let desk = done.seats.pop().expect(&rt, "a desk");
    let mut next = 0usize;
    for end in desk.ends.iter() {
        assert_equal(&rt, end.0, next);
        next = next.wrapping_add(1);
    }
    assert_equal(&rt, next, JOBS);
}
