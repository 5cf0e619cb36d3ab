//! Renames at concrete values.
ghost use Rattle.std.specs.Prelude.{◌<◌};

use crate::equal::assert_equal;
use join_law::Ctx;
use rename_file::{PhysicalRegister, Registers, Rename};
use std::process::Abort;

// The value that a source reads, once it is there.
fn read(registers: &Registers, context: Ctx, rs: u8) -> Option<u64>
    requires { rs < 32 }
{
    let register = registers.source(context, rs);
    registers.value(register)
}

// The value that a source reads, where it is there.
fn read_ready(registers: &Registers, context: Ctx, rs: u8) -> Option<u64>
    requires { rs < 32 }
{
    let register = registers.source(context, rs);
    if !registers.ready(register) {
        return None;
    }
    Some(registers.read(register))
}

// Renames rd of the context and writes the value. Tells whether a register was free.
fn produce(registers: &mut Registers, context: Ctx, rd: u8, value: u64) -> bool {
    if rd == 0 || rd >= 32 {
        return false;
    }
    let Ok(register) = registers.rename(context, rd) else {
        return false;
    };
    registers.write(register, value);
    true
}

// The number of the register with this number.
fn index_of(number: usize) -> Option<usize> {
    Some(PhysicalRegister::new(number)?.index())
}

#[test]
fn a_register_has_its_number(rt: HostRuntime) {
    assert_equal(&rt, [index_of(479), index_of(480)], [Some(479), None]);
}

// Of a renamed register: whether it is there, and what x5 reads, before it is written and then.
#[test]
fn a_result_is_read_once_it_is_written(rt: HostRuntime) {
    let mut registers = Registers::new(rt.alloc(), 32).expect(&rt, "memory");
    let [first, ..] = Ctx::all();
    registers.set_committed(first, 5, 70);
    let register = registers.rename(first, 5).expect(&rt, "a free register");
    let before = (registers.ready(register), read(&registers, first, 5));
    registers.write(register, 71);
    let after = (registers.ready(register), read_ready(&registers, first, 5));
    assert_equal(&rt, [before, after], [(false, None), (true, Some(71))]);
}

// What x5 holds beside a rename that is written, and what that of another context reads.
#[test]
fn a_rename_is_of_its_context_alone(rt: HostRuntime) {
    let mut registers = Registers::new(rt.alloc(), 32).expect(&rt, "memory");
    let [first, second, ..] = Ctx::all();
    registers.set_committed(first, 5, 70);
    let was_free = produce(&mut registers, first, 5, 71);
    assert_equal(
        &rt,
        (
            was_free,
            registers.committed(first, 5),
            read(&registers, second, 5),
        ),
        (true, 70, Some(0)),
    );
}

// What x5 reads before a rename is undone and after it, and how many registers are free then.
#[test]
fn an_undone_rename_leaves_the_value_before_it(rt: HostRuntime) {
    let mut registers = Registers::new(rt.alloc(), 32).expect(&rt, "memory");
    let [context, ..] = Ctx::all();
    registers.set_committed(context, 5, 70);
    let register = registers.rename(context, 5).expect(&rt, "a free register");
    registers.write(register, 71);
    let before = read(&registers, context, 5);
    registers.undo(context, Rename { rd: 5, register });
    assert_equal(
        &rt,
        (before, read(&registers, context, 5), registers.free_count()),
        (Some(71), Some(70), 32),
    );
}

// What x31 holds once its rename is committed, how many registers are free then, and what x0 reads.
#[test]
fn a_committed_rename_sets_its_register(rt: HostRuntime) {
    let mut registers = Registers::new(rt.alloc(), 32).expect(&rt, "memory");
    let [_, context, ..] = Ctx::all();
    let register = registers.rename(context, 31).expect(&rt, "a free register");
    registers.write(register, 9);
    registers.commit(context, Rename { rd: 31, register });
    assert_equal(
        &rt,
        (
            registers.committed(context, 31),
            registers.free_count(),
            read(&registers, context, 0),
        ),
        (9, 32, Some(0)),
    );
}

// Renames x1 to x31 of the context, and writes 0 to 30.
fn produce_each(rt: &impl Abort, registers: &mut Registers, context: Ctx) {
    for k in 0..31 {
        assert!(rt; produce(registers, context, 1 + k as u8, k));
    }
}

#[test]
fn none_is_free_once_the_extra_ones_are_in_use(rt: HostRuntime) {
    let mut registers = Registers::new(rt.alloc(), 32).expect(&rt, "memory");
    let [.., context] = Ctx::all();
    produce_each(&rt, &mut registers, context);
    let is_last = produce(&mut registers, context, 1, 100);
    let free = registers.free_count();
    let is_one_more = produce(&mut registers, context, 2, 101);
    assert_equal(&rt, (is_last, free, is_one_more), (true, 0, false));
    assert_equal(
        &rt,
        [read(&registers, context, 1), read(&registers, context, 31)],
        [Some(100), Some(30)],
    );
}
