//! What instructions compute on 64-bit values.

ghost use Rattle.std.specs.Prelude.{◌≡◌, ◌<◌};
ghost use Rattle.hart_step.specs.Values.{condition_holds, extended as extended_of, low as low_of, shifted_right as shifted_right_of, shifted_right_word as shifted_right_word_of, imm_result, shift_result, shift_word_result, alu_result, word_result, loaded as loaded_of};

use rv64_decode::{AluOp, BranchCondition, ImmOp, LoadKind, ShiftOp, WordOp};

/// Whether a branch is taken.
#[inline(always)]
pub fn holds(condition: BranchCondition, a: u64, b: u64) -> bool
    ensures { result ≡ condition_holds condition a b }
{
    match condition {
        BranchCondition::Equal => a == b,
        BranchCondition::NotEqual => a != b,
        BranchCondition::Less => a.cast_signed() < b.cast_signed(),
        BranchCondition::NotLess => a.cast_signed() >= b.cast_signed(),
        BranchCondition::LessUnsigned => a < b,
        BranchCondition::NotLessUnsigned => a >= b,
    }
}

/// 32 bits, sign-extended to 64.
#[inline(always)]
pub fn extended(x: u32) -> u64
    ensures { result ≡ extended_of x }
{
    i64::from(x.cast_signed()).cast_unsigned()
}

/// The low 32 bits.
#[inline(always)]
pub fn low(x: u64) -> u32
    ensures { result ≡ low_of x }
{
    (x % 0x1_0000_0000) as u32
}

/// A right shift into which the sign comes.
#[inline(always)]
fn shifted_right(x: u64, by: u32) -> u64
    requires { by < 64 }
    ensures { result ≡ shifted_right_of x by }
{
    (x.cast_signed() >> by).cast_unsigned()
}

/// A right shift of 32 bits into which the sign comes.
#[inline(always)]
fn shifted_right_word(x: u32, by: u32) -> u32
    requires { by < 32 }
    ensures { result ≡ shifted_right_word_of x by }
{
    (x.cast_signed() >> by).cast_unsigned()
}

/// The result on a source and an immediate.
#[inline(always)]
pub fn imm_value(op: ImmOp, a: u64, b: u64) -> u64
    ensures { result ≡ imm_result op a b }
{
    match op {
        ImmOp::Add => a.wrapping_add(b),
        ImmOp::SetLess => u64::from(a.cast_signed() < b.cast_signed()),
        ImmOp::SetLessUnsigned => u64::from(a < b),
        ImmOp::Xor => a ^ b,
        ImmOp::Or => a | b,
        ImmOp::And => a & b,
    }
}

/// The result of a shift by an amount in the instruction.
#[inline(always)]
pub fn shift_value(op: ShiftOp, a: u64, by: u32) -> u64
    requires { by < 64 }
    ensures { result ≡ shift_result op a by }
{
    match op {
        ShiftOp::Left => a << by,
        ShiftOp::Right => a >> by,
        ShiftOp::RightArithmetic => shifted_right(a, by),
    }
}

/// The result of a shift of 32 bits by an amount in the instruction.
#[inline(always)]
pub fn shift_word_value(op: ShiftOp, a: u32, by: u32) -> u32
    requires { by < 32 }
    ensures { result ≡ shift_word_result op a by }
{
    match op {
        ShiftOp::Left => a << by,
        ShiftOp::Right => a >> by,
        ShiftOp::RightArithmetic => shifted_right_word(a, by),
    }
}

/// The result on two sources.
#[inline(always)]
pub fn alu_value(op: AluOp, a: u64, b: u64) -> u64
    ensures { result ≡ alu_result op a b }
{
    match op {
        AluOp::Add => a.wrapping_add(b),
        AluOp::Sub => a.wrapping_sub(b),
        AluOp::ShiftLeft => a << ((b % 64) as u32),
        AluOp::SetLess => u64::from(a.cast_signed() < b.cast_signed()),
        AluOp::SetLessUnsigned => u64::from(a < b),
        AluOp::Xor => a ^ b,
        AluOp::ShiftRight => a >> ((b % 64) as u32),
        AluOp::ShiftRightArithmetic => shifted_right(a, (b % 64) as u32),
        AluOp::Or => a | b,
        AluOp::And => a & b,
    }
}

/// The result on two sources of 32 bits.
#[inline(always)]
pub fn word_value(op: WordOp, a: u32, b: u32) -> u32
    ensures { result ≡ word_result op a b }
{
    match op {
        WordOp::Add => a.wrapping_add(b),
        WordOp::Sub => a.wrapping_sub(b),
        WordOp::ShiftLeft => a << (b % 32),
        WordOp::ShiftRight => a >> (b % 32),
        WordOp::ShiftRightArithmetic => shifted_right_word(a, b % 32),
    }
}

/// What a load makes of the number of its bytes.
#[inline(always)]
pub fn loaded(kind: LoadKind, x: u64) -> u64
    ensures { result ≡ loaded_of kind x }
{
    match kind {
        LoadKind::Byte => i64::from(((x % 256) as u8).cast_signed()).cast_unsigned(),
        LoadKind::Half => i64::from(((x % 65536) as u16).cast_signed()).cast_unsigned(),
        LoadKind::Word => extended(low(x)),
        LoadKind::Double => x,
        LoadKind::ByteUnsigned => x % 256,
        LoadKind::HalfUnsigned => x % 65536,
        LoadKind::WordUnsigned => u64::from(low(x)),
    }
}
