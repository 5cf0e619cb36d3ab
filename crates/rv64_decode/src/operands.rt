//! The fields of a word: its registers and its immediates (2.2, 2.3).

ghost use Rattle.std.specs.Prelude.{◌≡◌, ◌*◌, ◌<◌};
ghost use Rattle.rv64_decode.specs.Spelling.{field as field_of, opcode as opcode_of, rd_of, rs1_of, rs2_of, imm_i, imm_s, imm_b, imm_j, upper_of};

use crate::fields::{BranchOffset, Immediate, JumpOffset, Register, ShiftAmount, UpperImmediate};

/// So many bits of a word from bit `low` upward.
#[inline(always)]
pub(crate) fn field(word: u32, low: u32, count: u32) -> u32
    requires low { low < 32 }
    requires count { count < 32 }
    ensures { result ≡ field_of low count word }
{
    (word >> low) & ((1 << count) - 1)
}

/// Bits 6..0.
#[inline(always)]
pub(crate) fn opcode(word: u32) -> u32
    ensures { result ≡ opcode_of word }
{
    word & 0x7f
}

/// Bits 11..7.
#[inline(always)]
pub(crate) fn rd(word: u32) -> Register
    ensures { result ≡ rd_of word }
{
    Register::new(field(word, 7, 5) as u8)
}

/// Bits 19..15.
#[inline(always)]
pub(crate) fn rs1(word: u32) -> Register
    ensures { result ≡ rs1_of word }
{
    Register::new(field(word, 15, 5) as u8)
}

/// Bits 24..20.
#[inline(always)]
pub(crate) fn rs2(word: u32) -> Register
    ensures { result ≡ rs2_of word }
{
    Register::new(field(word, 20, 5) as u8)
}

/// The immediate of the I form.
#[inline(always)]
pub(crate) fn immediate(word: u32) -> Immediate
    ensures { result ≡ imm_i word }
{
    Immediate::from_bits(field(word, 20, 12) as u16)
}

/// The immediate of the S form.
#[inline(always)]
pub(crate) fn store_immediate(word: u32) -> Immediate
    ensures { result ≡ imm_s word }
{
    Immediate::from_bits(((field(word, 25, 7) << 5) + field(word, 7, 5)) as u16)
}

/// The immediate of the B form.
#[inline(always)]
pub(crate) fn branch_offset(word: u32) -> BranchOffset
    ensures { result ≡ imm_b word }
{
    let low = (field(word, 25, 6) << 5) + (field(word, 8, 4) << 1);
    let high = (field(word, 31, 1) << 12) + (field(word, 7, 1) << 11);
    BranchOffset::from_bits((high + low) as u16)
}

/// The immediate of the J form.
#[inline(always)]
pub(crate) fn jump_offset(word: u32) -> JumpOffset
    ensures { result ≡ imm_j word }
{
    let low = (field(word, 20, 1) << 11) + (field(word, 21, 10) << 1);
    let high = (field(word, 31, 1) << 20) + (field(word, 12, 8) << 12);
    JumpOffset::from_bits(high + low)
}

/// The immediate of the U form.
#[inline(always)]
pub(crate) fn upper_immediate(word: u32) -> UpperImmediate
    ensures { result ≡ upper_of word }
{
    UpperImmediate::new(field(word, 12, 20))
}

/// The amount of a shift of 64 bits: bits 25..20 (5.2).
#[inline(always)]
pub(crate) fn shift_amount(word: u32) -> ShiftAmount
    ensures { result ≡ field_of 20 6 word }
{
    ShiftAmount::new(field(word, 20, 6) as u8)
}

/// funct7 of a shift of 64 bits, taken with a 0 at bit 25, which belongs to the amount (5.2).
#[inline(always)]
pub(crate) fn shift_funct7(word: u32) -> u32
    ensures { result ≡ field_of 26 6 word * 2 }
{
    field(word, 26, 6) << 1
}
