//! Workers out of range, a job that is refused, and no job at all.

use crate::desks::Numbers;
use crate::equal::assert_equal;
use crate::new_desks::desks;
use std::sync::Wait;
use std::sync::atomic::{AtomicU64, Ordering};
use worker_pool::{Gate, Open, PoolFault, run_all};

/// A gate that counts the jobs that enter it.
#[derive(Drop)]
struct Counter {
    entered: AtomicU64,
}

impl Gate for Counter {
    fn enter<R: Wait>(&self, _rt: &R, _job: usize) {
        self.entered.fetch_add(1, Ordering::SeqCst);
    }

    fn leave<R: Wait>(&self, _rt: &R, _job: usize) {}
}

/// By no worker no job is run.
#[test]
fn no_worker(rt: HostRuntime) {
    let gate = Counter {
        entered: AtomicU64::new(0),
    };
    let work = Numbers { refused: 1 };
    let seats = desks(&rt, rt.alloc(), 0, 1);
    let Err(fault) = run_all(&rt, rt.alloc(), 1, 0, 0, &work, seats, &gate) else {
        panic!(rt; "a job was run by no worker");
    };
    assert_equal(&rt, fault, PoolFault::Workers);
    assert_equal(&rt, gate.entered.load(Ordering::SeqCst), 0);
}

/// By 65 workers no job is run.
#[test]
fn sixty_five_workers(rt: HostRuntime) {
    let gate = Counter {
        entered: AtomicU64::new(0),
    };
    let work = Numbers { refused: 1 };
    let seats = desks(&rt, rt.alloc(), 65, 1);
    let Err(fault) = run_all(&rt, rt.alloc(), 1, 65, 0, &work, seats, &gate) else {
        panic!(rt; "a job was run by 65 workers");
    };
    assert_equal(&rt, fault, PoolFault::Workers);
    assert_equal(&rt, gate.entered.load(Ordering::SeqCst), 0);
}

/// The result of a refused job, which would be the greatest, isn't joined.
#[test]
fn a_refused_job(rt: HostRuntime) {
    let work = Numbers { refused: 9 };
    let seats = desks(&rt, rt.alloc(), 2, 10);
    let mut done = run_all(&rt, rt.alloc(), 10, 2, 7, &work, seats, &Open).expect(&rt, "memory");
    assert_equal(&rt, done.total, 8);
    assert_equal(&rt, done.ends.len(), 10);
    assert_equal(&rt, done.ends.pop(), Some(None));
    assert_equal(&rt, done.ends.pop(), Some(Some(8)));
}

/// With no job the opening is the join.
#[test]
fn no_job(rt: HostRuntime) {
    let work = Numbers { refused: 0 };
    let seats = desks(&rt, rt.alloc(), 2, 0);
    let done = run_all(&rt, rt.alloc(), 0, 2, 7, &work, seats, &Open).expect(&rt, "memory");
    assert_equal(&rt, done.total, 7);
    assert_equal(&rt, done.ends.len(), 0);
    assert_equal(&rt, done.seats.len(), 2);
}
