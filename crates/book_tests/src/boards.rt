//! Boards: what seats raise and see, in one thread and in two, and a board that is closed too early.

ghost use Rattle.std.specs.Prelude.{◌≡◌};
ghost use Rattle.count_board.specs.Seats.{IsSeatOf};

use crate::equal::assert_equal;
use count_board::{Board, Seat};
use join_law::Ctx;
use std::process::Abort;
use std::thread::join;

const OPENING: [u64; 8] = [3, 0, 0, 0, 0, 0, 0, 0];

const RAISED: [u64; 8] = [5, 0, 0, 0, 0, 0, 0, 0];

fn context(rt: &impl Abort, number: usize) -> Ctx {
    Ctx::new(number).expect(rt, "a context")
}

/// Seat A raises context 0 to 5, seat B to 4. Each is shown what the other did before it.
#[test]
fn seats_share_the_words(rt: HostRuntime) {
    let (board, mut seats) = Board::new(rt.alloc(), OPENING, 2).expect(&rt, "a board");
    let mut a = seats.pop().expect(&rt, "seat A");
    let mut b = seats.pop().expect(&rt, "seat B");
    let first = context(&rt, 0);
    assert_equal(&rt, board.raise(&mut a, first, 5), 3);
    assert_equal(&rt, board.raise(&mut b, first, 4), 5);
    assert_equal(&rt, board.seen(&mut b, first), 5);
    seats.push(a).expect(&rt, "memory");
    // Seat B is kept back.
    let Err((board, mut seats)) = board.close(seats) else {
        panic!(rt; "the board was closed without seat B");
    };
    assert_equal(&rt, seats.len(), 1);
    seats.push(b).expect(&rt, "memory");
    let Ok(counts) = board.close(seats) else {
        panic!(rt; "the board has all its seats");
    };
    assert_equal(&rt, counts, RAISED);
}

/// A seat raises the first context.
fn raised(board: &Board, seat: Seat, first: Ctx, count: u64) -> Seat
    requires { IsSeatOf board.now seat }
    ensures { IsSeatOf board.now result }
{
    let mut seat = seat;
    board.raise(&mut seat, first, count);
    seat
}

/// Two threads raise one word. Whichever comes first, the greater count is left.
#[test]
fn threads_share_the_words(rt: HostRuntime) {
    let (board, mut seats) = Board::new(rt.alloc(), OPENING, 2).expect(&rt, "a board");
    let a = seats.pop().expect(&rt, "seat A");
    let b = seats.pop().expect(&rt, "seat B");
    let first = context(&rt, 0);
    let shared = &board;
    let (a, b) = join(
        &rt,
        move || -> Seat
            requires { IsSeatOf shared.now a }
            ensures { IsSeatOf shared.entry.now result }
        { raised(shared, a, first, 5) },
        move || -> Seat
            requires { IsSeatOf shared.now b }
            ensures { IsSeatOf shared.entry.now result }
        { raised(shared, b, first, 4) },
    );
    seats.push(a).expect(&rt, "memory");
    seats.push(b).expect(&rt, "memory");
    let Ok(counts) = board.close(seats) else {
        panic!(rt; "the board has all its seats");
    };
    assert_equal(&rt, counts, RAISED);
}
