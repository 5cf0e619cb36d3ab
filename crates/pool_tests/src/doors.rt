//! Each job is run between `enter` and `leave`.

ghost use Rattle.pool_tests.specs.Desks.{IsFree, places, IsNumber};

use crate::desks::Desk;
use crate::equal::assert_equal;
use crate::new_desks::desks;
use std::alloc::AllocError;
use std::sync::Wait;
use std::sync::atomic::{AtomicU64, Ordering};
use worker_pool::{Gate, Work, run_all};

/// A gate that knows which job entered last, and which one left. Each job is counted from 1.
#[derive(Drop)]
struct Doors {
    entered: AtomicU64,
    left: AtomicU64,
}

impl Gate for Doors {
    fn enter<R: Wait>(&self, _rt: &R, job: usize) {
        self.entered
            .store((job as u64).wrapping_add(1), Ordering::SeqCst);
    }

    fn leave<R: Wait>(&self, _rt: &R, job: usize) {
        self.left
            .store((job as u64).wrapping_add(1), Ordering::SeqCst);
    }
}

/// Jobs that look which job entered last, less which one left: one job more. A job that sees this isn't refused.
#[derive(Drop)]
struct Looks<'a> {
    doors: &'a Doors,
}

impl<'a> Work<u64> for Looks<'a> {
    type Seat = Desk;

    type Note = u64;

    ghost is_own = { λ w. IsFree };

    ghost room = { places };

    ghost runs = { λ s. s.ends.items };

    ghost gives = { λ w. IsNumber };

    fn run<R: Wait>(&self, _rt: &R, desk: &mut Desk, job: usize) -> Result<(u64, u64), AllocError> {
        let number = job as u64;
        let entered = self.doors.entered.load(Ordering::SeqCst);
        let left = self.doors.left.load(Ordering::SeqCst);
        if entered.wrapping_sub(1) == number && left == number {
            desk.ends.push_reserved((job, Some(number)));
            Ok((number, number))
        } else {
            desk.ends.push_reserved((job, None));
            Err(AllocError)
        }
    }
}

#[test]
fn jobs_are_run_between_the_doors(rt: HostRuntime) {
    let doors = Doors {
        entered: AtomicU64::new(0),
        left: AtomicU64::new(0),
    };
    let work = Looks { doors: &doors };
    let seats = desks(&rt, rt.alloc(), 1, 5);
    let done = run_all(&rt, rt.alloc(), 5, 1, 0, &work, seats, &doors).expect(&rt, "memory");
    let mut job = 0u64;
    for end in done.ends.iter() {
        assert_equal(&rt, *end, Some(job));
        job = job.wrapping_add(1);
    }
    assert_equal(&rt, job, 5);
    assert_equal(&rt, doors.left.load(Ordering::SeqCst), 5);
}
