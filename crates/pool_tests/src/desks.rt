//! Jobs that give their numbers, and desks at which they are run.

ghost use Rattle.pool_tests.specs.Desks.{IsFree, places, IsNumber};

use std::alloc::AllocError;
use std::sync::Wait;
use worker_pool::Work;

/// The jobs that were run at a desk, each with its end.
#[derive(Drop)]
pub struct Desk {
    pub ends: Vec<(usize, Option<u64>)>,
}

/// Jobs of which job k gives k, as its result and as its note. The job of one number is refused.
#[derive(Drop)]
pub struct Numbers {
    pub refused: usize,
}

impl Work<u64> for Numbers {
    type Seat = Desk;

    type Note = u64;

    ghost is_own = { λ w. IsFree };

    ghost room = { places };

    ghost runs = { λ s. s.ends.items };

    ghost gives = { λ w. IsNumber };

    fn run<R: Wait>(&self, _rt: &R, desk: &mut Desk, job: usize) -> Result<(u64, u64), AllocError> {
        if job == self.refused {
            desk.ends.push_reserved((job, None));
            return Err(AllocError);
        }
        let number = job as u64;
        desk.ends.push_reserved((job, Some(number)));
        Ok((number, number))
    }
}
