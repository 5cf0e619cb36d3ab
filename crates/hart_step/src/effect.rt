//! The effect of an instruction on the values of its sources.

ghost use Rattle.std.specs.Prelude.{◌≡◌, ◌*◌, ◌/◌, ◌%◌, ◌^◌, if◌then◌else◌};
ghost use Rattle.hart_step.specs.State.{following as following_of};
ghost use Rattle.hart_step.specs.Values.{bits, low as low_of, extended as extended_of, sum, offset_from, condition_holds};
ghost use Rattle.hart_step.specs.Effects.{first_source as first_source_of, second_source as second_source_of, destination as destination_of, went_to as went_to_of, linked_to as linked_to_of, value_at as value_at_of, effect_of, LeadsToAligned};

use crate::stop::Stop;
use crate::values::{
    alu_value, extended, holds, imm_value, low, shift_value, shift_word_value, word_value,
};
use rv64_decode::{
    BranchCondition, BranchOffset, Immediate, Insn, LoadKind, Register, StoreWidth, UpperImmediate,
};

/// What an instruction does, once its sources have values and before memory is asked.
#[derive(Clone, Copy, Debug, PartialEq, Eq)]
pub enum Effect {
    /// Goes on at an address.
    Goes {
        target: u64,
    },
    /// Gives a value to the destination and goes on at an address.
    Writes {
        value: u64,
        target: u64,
    },
    /// Loads from an address to the destination, and goes on at the next instruction in line.
    Loads {
        kind: LoadKind,
        address: u64,
    },
    /// Stores the low bytes of a value at an address, and goes on at the next instruction in line.
    Stores {
        width: StoreWidth,
        address: u64,
        value: u64,
    },
    /// Stops, and changes nothing.
    Stops {
        why: Stop,
    },
}

/// The register of an instruction's first source, x0 where it has none.
#[inline(always)]
pub fn first_source(insn: &Insn) -> Register
    ensures { result ≡ first_source_of insn.now }
{
    match *insn {
        Insn::Jalr { rs1, .. }
        | Insn::Branch { rs1, .. }
        | Insn::Load { rs1, .. }
        | Insn::Store { rs1, .. }
        | Insn::Imm { rs1, .. }
        | Insn::ShiftImm { rs1, .. }
        | Insn::Alu { rs1, .. }
        | Insn::AddImmWord { rs1, .. }
        | Insn::ShiftImmWord { rs1, .. }
        | Insn::AluWord { rs1, .. } => rs1,
        Insn::Lui { .. }
        | Insn::Auipc { .. }
        | Insn::Jal { .. }
        | Insn::Fence { .. }
        | Insn::Ecall
        | Insn::Ebreak => Register::new(0),
    }
}

/// The register of an instruction's second source, x0 where it has none.
#[inline(always)]
pub fn second_source(insn: &Insn) -> Register
    ensures { result ≡ second_source_of insn.now }
{
    match *insn {
        Insn::Branch { rs2, .. }
        | Insn::Store { rs2, .. }
        | Insn::Alu { rs2, .. }
        | Insn::AluWord { rs2, .. } => rs2,
        _ => Register::new(0),
    }
}

/// The register that an instruction's result goes to, x0 where it has none.
#[inline(always)]
pub fn destination(insn: &Insn) -> Register
    ensures { result ≡ destination_of insn.now }
{
    match *insn {
        Insn::Lui { rd, .. }
        | Insn::Auipc { rd, .. }
        | Insn::Jal { rd, .. }
        | Insn::Jalr { rd, .. }
        | Insn::Load { rd, .. }
        | Insn::Imm { rd, .. }
        | Insn::ShiftImm { rd, .. }
        | Insn::Alu { rd, .. }
        | Insn::AddImmWord { rd, .. }
        | Insn::ShiftImmWord { rd, .. }
        | Insn::AluWord { rd, .. } => rd,
        Insn::Branch { .. }
        | Insn::Store { .. }
        | Insn::Fence { .. }
        | Insn::Ecall
        | Insn::Ebreak => Register::new(0),
    }
}

/// The address of the next instruction in line.
#[inline(always)]
pub fn following(pc: u64) -> u64
    ensures { result ≡ following_of pc }
{
    pc.wrapping_add(4)
}

/// A value, and on to the next instruction in line.
#[inline(always)]
pub(crate) fn value_at(pc: u64, value: u64) -> Effect
    ensures { result ≡ value_at_of pc value }
{
    Effect::Writes {
        value,
        target: following(pc),
    }
}

/// On at a target, which four has to divide.
#[inline(always)]
fn went_to(target: u64) -> Effect
    ensures { result ≡ went_to_of target }
{
    if target % 4 == 0 {
        Effect::Goes { target }
    } else {
        Effect::Stops {
            why: Stop::TargetMisaligned,
        }
    }
}

/// On at a target, which four has to divide, with the address of the next instruction in line as the value.
#[inline(always)]
pub(crate) fn linked_to(pc: u64, target: u64) -> Effect
    ensures { result ≡ linked_to_of pc target }
{
    if target % 4 == 0 {
        Effect::Writes {
            value: following(pc),
            target,
        }
    } else {
        Effect::Stops {
            why: Stop::TargetMisaligned,
        }
    }
}

/// The address at a signed offset from a base, a pc or the value of a register. The sum wraps.
#[inline(always)]
pub fn offset_by(base: u64, offset: i64) -> u64
    ensures { result ≡ offset_from base offset }
{
    base.wrapping_add(offset.cast_unsigned())
}

/// The value of an upper immediate, with its sign.
#[inline(always)]
pub(crate) fn upper(immediate: UpperImmediate) -> u64
    ensures { result ≡ extended_of (immediate * 2 ^ 12) }
{
    extended(immediate.value() << 12)
}

/// The target of `jalr`, whose bit 0 is cleared.
#[inline(always)]
fn register_target(a: u64, immediate: Immediate) -> u64
    ensures { result ≡ offset_from a immediate / 2 * 2 }
{
    offset_by(a, i64::from(immediate.value())) / 2 * 2
}

/// On at the target of `jalr`, with the address of the next instruction in line as the value.
#[inline(always)]
pub(crate) fn jumped_from(pc: u64, a: u64, immediate: Immediate) -> Effect
    ensures { result ≡ linked_to_of pc (offset_from a immediate / 2 * 2) }
{
    linked_to(pc, register_target(a, immediate))
}

/// The low 32 bits of a sum, with their sign.
#[inline(always)]
pub(crate) fn word_sum(a: u64, immediate: Immediate) -> u64
    ensures { result ≡ extended_of (low_of (sum a (bits immediate))) }
{
    extended(low(offset_by(a, i64::from(immediate.value()))))
}

/// On at the target of a branch where its condition holds, else at the next instruction in line.
#[inline(always)]
pub(crate) fn branched(
    condition: BranchCondition,
    offset: BranchOffset,
    pc: u64,
    a: u64,
    b: u64,
) -> Effect
    ensures effect { result ≡ (if condition_holds condition a b then went_to_of (offset_from pc offset) else Effect.Goes (following_of pc)) }
    ensures aligned { pc % 4 ≡ 0 → LeadsToAligned result }
{
    if holds(condition, a, b) {
        went_to(offset_by(pc, i64::from(offset.value())))
    } else {
        Effect::Goes {
            target: following(pc),
        }
    }
}

/// The effect of an instruction at a pc, where its sources have the values `a` and `b`.
#[inline(always)]
pub fn execute(insn: &Insn, pc: u64, a: u64, b: u64) -> Effect
    ensures effect { result ≡ effect_of insn.now pc a b }
    ensures aligned { pc % 4 ≡ 0 → LeadsToAligned result }
{
    match *insn {
        Insn::Lui { immediate, .. } => value_at(pc, upper(immediate)),
        Insn::Auipc { immediate, .. } => value_at(pc, pc.wrapping_add(upper(immediate))),
        Insn::Jal { offset, .. } => linked_to(pc, offset_by(pc, i64::from(offset.value()))),
        Insn::Jalr { immediate, .. } => jumped_from(pc, a, immediate),
        Insn::Branch {
            condition,
            offset,
            ..
        } => branched(condition, offset, pc, a, b),
        Insn::Load {
            kind,
            immediate,
            ..
        } => Effect::Loads {
            kind,
            address: offset_by(a, i64::from(immediate.value())),
        },
        Insn::Store {
            width,
            immediate,
            ..
        } => Effect::Stores {
            width,
            address: offset_by(a, i64::from(immediate.value())),
            value: b,
        },
        Insn::Imm { op, immediate, .. } => value_at(
            pc,
            imm_value(op, a, i64::from(immediate.value()).cast_unsigned()),
        ),
        Insn::ShiftImm { op, amount, .. } => {
            value_at(pc, shift_value(op, a, u32::from(amount.value())))
        }
        Insn::Alu { op, .. } => value_at(pc, alu_value(op, a, b)),
        Insn::AddImmWord { immediate, .. } => value_at(pc, word_sum(a, immediate)),
        Insn::ShiftImmWord { op, amount, .. } => value_at(
            pc,
            extended(shift_word_value(op, low(a), u32::from(amount.value()))),
        ),
        Insn::AluWord { op, .. } => value_at(pc, extended(word_value(op, low(a), low(b)))),
        Insn::Fence { .. } => Effect::Goes {
            target: following(pc),
        },
        Insn::Ecall => Effect::Stops { why: Stop::Ecall },
        Insn::Ebreak => Effect::Stops { why: Stop::Ebreak },
    }
}
