//! One load that is fetched, renamed and squashed.

use crate::equal::assert_equal;
use core_view::{Decoded, Entry, Operation};
use flight::Flight;
use hart_step::Stop;
use rv64_decode::decode;

/// LW a0, 0(a1), or what stands where that is no instruction.
fn load() -> Decoded {
    let operation = match decode(0x0005_a503) {
        Some(insn) => Operation::Performs { insn },
        None => Operation::Stops { why: Stop::Illegal },
    };
    Decoded::new(operation)
}

#[test]
fn a_load_waits_and_is_cut(rt: HostRuntime) {
    let mut flight = Flight::new(rt.alloc(), 80).expect(&rt, "memory");
    let operation = load();
    let guessed = operation.is_guessed();
    flight.push(Entry::new(7, 1, 0x1000, operation, 0x1004), guessed);
    flight.push(Entry::new(9, 1, 0x1004, operation, 0x1008), guessed);
    flight.rename(5);
    let waits = (flight.next_waiting_load(0), flight.known_waiting(7));
    let due = (
        flight.may_be_due(70),
        flight.next_due(70, 0),
        flight.first_due(70),
    );
    let stage = flight.get(0).map(|entry| entry.stage);
    flight.cut_past(0, 9);
    let length = flight.len();
    drop(flight);
    assert_equal(&rt, waits, (Some(0), Some(0)));
    assert_equal(&rt, due, (false, None, None));
    assert_equal(&rt, stage.map(|it| it.is_done()), Some(false));
    assert_equal(&rt, length, 1);
}
