//! Words of each form, put together from their fields (2.2, 2.3).

ghost use Rattle.std.specs.Prelude.{◌≡◌, ◌+◌, ◌*◌, ◌<◌, ◌^◌};
ghost use Rattle.rv64_decode.specs.Spelling.{opcode as opcode_of, field, rd_of, rs1_of, rs2_of, funct3 as funct3_of, funct7 as funct7_of, imm_i, imm_s, imm_b, imm_j, upper_of, condition_code, store_code, shift_code, shift_top};

use crate::codes::{condition_bits, shift_bits, store_bits};
use crate::fields::{BranchOffset, FenceBits, Immediate, JumpOffset, Register};
use crate::insn::{BranchCondition, ShiftOp, StoreWidth};

/// A word of these six fields.
fn pack(opcode: u32, rd: u32, funct3: u32, rs1: u32, rs2: u32, funct7: u32) -> u32
    requires opcode_fits { opcode < 128 }
    requires rd_fits { rd < 32 }
    requires funct3_fits { funct3 < 8 }
    requires rs1_fits { rs1 < 32 }
    requires rs2_fits { rs2 < 32 }
    requires funct7_fits { funct7 < 128 }
    ensures { result ≡ opcode + rd * 2 ^ 7 + funct3 * 2 ^ 12 + rs1 * 2 ^ 15 + rs2 * 2 ^ 20 + funct7 * 2 ^ 25 }
{
    opcode + (rd << 7) + (funct3 << 12) + (rs1 << 15) + (rs2 << 20) + (funct7 << 25)
}

/// A word of the R form with these codes, funct3 and bit 30.
pub(crate) fn register_form(
    opcode: u32,
    codes: (u32, u32),
    rd: Register,
    rs1: Register,
    rs2: Register,
) -> u32
    requires opcode_fits { opcode < 128 }
    requires funct3_fits { codes.0 < 8 }
    requires top_fits { codes.1 < 2 }
    ensures opcode { opcode_of result ≡ opcode }
    ensures funct3 { funct3_of result ≡ codes.0 }
    ensures funct7 { funct7_of result ≡ codes.1 * 0b0100000 }
    ensures rd { rd_of result ≡ rd }
    ensures rs1 { rs1_of result ≡ rs1 }
    ensures rs2 { rs2_of result ≡ rs2 }
{
    let (funct3, top) = codes;
    pack(
        opcode,
        u32::from(rd.index()),
        funct3,
        u32::from(rs1.index()),
        u32::from(rs2.index()),
        top * 32,
    )
}

/// A word of the I form, whose upper 12 bits are these.
pub(crate) fn upper_bits_form(
    opcode: u32,
    funct3: u32,
    rd: Register,
    rs1: Register,
    bits: u32,
) -> u32
    requires opcode_fits { opcode < 128 }
    requires funct3_fits { funct3 < 8 }
    requires bits_fit { bits < 2 ^ 12 }
    ensures opcode { opcode_of result ≡ opcode }
    ensures funct3 { funct3_of result ≡ funct3 }
    ensures rd { rd_of result ≡ rd }
    ensures rs1 { rs1_of result ≡ rs1 }
    ensures bits { field 20 12 result ≡ bits }
{
    pack(
        opcode,
        u32::from(rd.index()),
        funct3,
        u32::from(rs1.index()),
        bits % 32,
        bits / 32,
    )
}

/// A word of the I form with an immediate.
pub(crate) fn immediate_form(
    opcode: u32,
    funct3: u32,
    rd: Register,
    rs1: Register,
    immediate: Immediate,
) -> u32
    requires opcode_fits { opcode < 128 }
    requires funct3_fits { funct3 < 8 }
    ensures opcode { opcode_of result ≡ opcode }
    ensures funct3 { funct3_of result ≡ funct3 }
    ensures rd { rd_of result ≡ rd }
    ensures rs1 { rs1_of result ≡ rs1 }
    ensures immediate { immediate ≡ imm_i result }
{
    upper_bits_form(opcode, funct3, rd, rs1, u32::from(immediate.bits()))
}

/// A word of the I form that shifts by an amount.
pub(crate) fn shift_form(opcode: u32, op: ShiftOp, rd: Register, rs1: Register, amount: u8) -> u32
    requires opcode_fits { opcode < 128 }
    requires amount_fits { amount < 64 }
    ensures opcode { opcode_of result ≡ opcode }
    ensures funct3 { funct3_of result ≡ shift_code op }
    ensures rd { rd_of result ≡ rd }
    ensures rs1 { rs1_of result ≡ rs1 }
    ensures bits { field 20 12 result ≡ shift_top op * 2 ^ 10 + amount }
{
    let (funct3, top) = shift_bits(op);
    upper_bits_form(opcode, funct3, rd, rs1, top * 1024 + u32::from(amount))
}

/// The word of a FENCE.
pub(crate) fn fence_form(rd: Register, rs1: Register, bits: FenceBits) -> u32
    ensures opcode { opcode_of result ≡ 0b0001111 }
    ensures funct3 { funct3_of result ≡ 0 }
    ensures rd { rd_of result ≡ rd }
    ensures rs1 { rs1_of result ≡ rs1 }
    ensures bits { field 20 12 result ≡ bits }
{
    upper_bits_form(0b000_1111, 0, rd, rs1, u32::from(bits.value()))
}

/// The word of a store, of the S form.
pub(crate) fn store_form(
    width: StoreWidth,
    rs1: Register,
    rs2: Register,
    immediate: Immediate,
) -> u32
    ensures opcode { opcode_of result ≡ 0b0100011 }
    ensures funct3 { funct3_of result ≡ store_code width }
    ensures rs1 { rs1_of result ≡ rs1 }
    ensures rs2 { rs2_of result ≡ rs2 }
    ensures immediate { immediate ≡ imm_s result }
{
    let bits = u32::from(immediate.bits());
    pack(
        0b010_0011,
        bits % 32,
        store_bits(width),
        u32::from(rs1.index()),
        u32::from(rs2.index()),
        bits / 32,
    )
}

/// The word of a branch, of the B form.
pub(crate) fn branch_form(
    condition: BranchCondition,
    rs1: Register,
    rs2: Register,
    offset: BranchOffset,
) -> u32
    ensures opcode { opcode_of result ≡ 0b1100011 }
    ensures funct3 { funct3_of result ≡ condition_code condition }
    ensures rs1 { rs1_of result ≡ rs1 }
    ensures rs2 { rs2_of result ≡ rs2 }
    ensures offset { offset ≡ imm_b result }
{
    let bits = u32::from(offset.bits());
    let low = bits % 32 + bits / 2048 % 2;
    let high = bits / 32 % 64 + bits / 4096 * 64;
    pack(
        0b110_0011,
        low,
        condition_bits(condition),
        u32::from(rs1.index()),
        u32::from(rs2.index()),
        high,
    )
}

/// A word of the U form, whose upper 20 bits are these.
pub(crate) fn upper_form(opcode: u32, rd: Register, bits: u32) -> u32
    requires opcode_fits { opcode < 128 }
    requires bits_fit { bits < 2 ^ 20 }
    ensures opcode { opcode_of result ≡ opcode }
    ensures rd { rd_of result ≡ rd }
    ensures bits { upper_of result ≡ bits }
{
    opcode + (u32::from(rd.index()) << 7) + (bits << 12)
}

/// A word of the J form.
pub(crate) fn jump_form(rd: Register, offset: JumpOffset) -> u32
    ensures opcode { opcode_of result ≡ 0b1101111 }
    ensures rd { rd_of result ≡ rd }
    ensures offset { offset ≡ imm_j result }
{
    let bits = offset.bits();
    let low = bits / 4096 % 256 + bits / 2048 % 2 * 256;
    let high = bits / 2 % 1024 + bits / 1_048_576 * 1024;
    upper_form(0b110_1111, rd, low + high * 512)
}
