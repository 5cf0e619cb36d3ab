//! Two jobs that wait for each other at the gate, so that both are under way at the same time, and a job that is stolen.

use crate::desks::Numbers;
use crate::equal::assert_equal;
use crate::new_desks::desks;
use std::rt::Clock;
use std::sync::Wait;
use std::sync::atomic::{AtomicU64, Ordering};
use std::thread;
use std::time::Duration;
use worker_pool::{Gate, run_all};

const TURNS: usize = 10000;

/// A gate at which each of two jobs raises its flag and waits for the other's, at most so many turns of a millisecond.
#[derive(Drop)]
struct Meeting<'a, C: Clock> {
    clock: &'a C,
    first: AtomicU64,
    second: AtomicU64,
    missed: AtomicU64,
}

impl<'a, C: Clock> Gate for Meeting<'a, C> {
    fn enter<R: Wait>(&self, _rt: &R, job: usize) {
        let (own, other) = if job == 0 {
            (&self.first, &self.second)
        } else {
            (&self.second, &self.first)
        };
        own.store(1, Ordering::SeqCst);
        for _ in 0..TURNS {
            if other.load(Ordering::SeqCst) == 1 {
                return;
            }
            thread::sleep(self.clock, Duration::from_millis(1));
        }
        self.missed.store(1, Ordering::SeqCst);
    }

    fn leave<R: Wait>(&self, _rt: &R, _job: usize) {}
}

#[test]
fn gate_meeting(rt: HostRuntime) {
    let gate = Meeting {
        clock: &rt,
        first: AtomicU64::new(0),
        second: AtomicU64::new(0),
        missed: AtomicU64::new(0),
    };
    let work = Numbers { refused: 2 };
    let seats = desks(&rt, rt.alloc(), 2, 2);
    let done = run_all(&rt, rt.alloc(), 2, 2, 0, &work, seats, &gate).expect(&rt, "memory");
    assert_equal(&rt, gate.missed.load(Ordering::SeqCst), 0);
    assert_equal(&rt, done.ends.len(), 2);
}

/// A gate at which job 0 waits until so many jobs have left, at most so many turns of a millisecond.
#[derive(Drop)]
struct Held<'a, C: Clock> {
    clock: &'a C,
    others: u64,
    left: AtomicU64,
    missed: AtomicU64,
}

impl<'a, C: Clock> Gate for Held<'a, C> {
    fn enter<R: Wait>(&self, _rt: &R, job: usize) {
        if job != 0 {
            return;
        }
        for _ in 0..TURNS {
            if self.left.load(Ordering::SeqCst) == self.others {
                return;
            }
            thread::sleep(self.clock, Duration::from_millis(1));
        }
        self.missed.store(1, Ordering::SeqCst);
    }

    fn leave<R: Wait>(&self, _rt: &R, job: usize) {
        if job != 0 {
            self.left.fetch_add(1, Ordering::SeqCst);
        }
    }
}

/// Jobs 0 and 2 are dealt to one worker. While it is at job 0, the other one takes job 2.
#[test]
fn a_job_is_stolen(rt: HostRuntime) {
    let gate = Held {
        clock: &rt,
        others: 3,
        left: AtomicU64::new(0),
        missed: AtomicU64::new(0),
    };
    let work = Numbers { refused: 4 };
    let seats = desks(&rt, rt.alloc(), 2, 4);
    let done = run_all(&rt, rt.alloc(), 4, 2, 0, &work, seats, &gate).expect(&rt, "memory");
    assert_equal(&rt, gate.missed.load(Ordering::SeqCst), 0);
    assert_equal(&rt, done.ends.len(), 4);
}
