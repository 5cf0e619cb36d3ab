//! A row of thieves, one for each deque.
ghost use Rattle.std.specs.Prelude.{◌≡◌, ◌+◌, ◌<◌, ℕ, map, length};
ghost use Rattle.std.specs.List.{sum_by};
ghost use Rattle.crossbeam_deque.specs.Handles.{stealer_deque};
ghost use Rattle.worker_pool.specs.Thieves.{taken_in, deques_of};
ghost use Rattle.worker_pool.specs.Weights.{weight_of};

use crate::thief::Thief;
use std::sync::Wait;

// The place so many after another, round a row.
fn turned(first: usize, passed: usize, many: usize) -> usize
    requires { (first < many) × (passed < many) }
    ensures { result < many }
{
    let room = many - first;
    if passed < room {
        first + passed
    } else {
        passed - room
    }
}

/// A job of another deque than the own, the next ones first. There is none where each was found empty.
pub(crate) fn steal_one<R: Wait>(rt: &R, row: &mut Vec<Thief>, own: usize) -> Option<usize>
    requires { own < length row.old.items }
    ensures same { deques_of row.new.items ≡ deques_of row.old.items }
    ensures taken { (h : ℕ → ℕ) → taken_in h row.new.items ≡ taken_in h row.old.items + weight_of h result }
{
    let many = row.len();
    let mut passed = 1;
    while passed < many {
        if let Some(job) = row[turned(own, passed, many)].steal(rt) {
            return Some(job);
        }
        passed += 1;
    }
    None
}
