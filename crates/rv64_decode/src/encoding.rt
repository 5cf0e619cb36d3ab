//! The word of an instruction.

ghost use Rattle.std.specs.Prelude.{◌≡◌, ◌<◌, ◌^◌, ℕ, Some};
ghost use Rattle.rv64_decode.specs.Spelling.{Spells};
ghost use Rattle.rv64_decode.specs.Table.{instruction_of};

use crate::codes::{alu_bits, imm_bits, load_bits, word_bits};
use crate::forms::{
    branch_form, fence_form, immediate_form, jump_form, register_form, shift_form, store_form,
    upper_form,
};
use crate::insn::Insn;

/// The word that spells an instruction: there is one alone, and `decode` gives the instruction back.
#[tactic(auto, using(crate::proofs::SpellingLemmas::word_spelled, crate::proofs::TableLemmas::instruction_spelled))]
pub fn encode(insn: &Insn) -> u32
    ensures spells { Spells result insn.now }
    ensures only { (word : ℕ) → word < 2 ^ 32 → Spells word insn.now → word ≡ result }
    ensures instruction { instruction_of result ≡ Some insn.now }
{
    word(insn)
}

/// A word that spells an instruction.
fn word(insn: &Insn) -> u32
    ensures { Spells result insn.now }
{
    match *insn {
        Insn::Lui { rd, immediate } => upper_form(0b011_0111, rd, immediate.value()),
        Insn::Auipc { rd, immediate } => upper_form(0b001_0111, rd, immediate.value()),
        Insn::Jal { rd, offset } => jump_form(rd, offset),
        Insn::Jalr { rd, rs1, immediate } => immediate_form(0b110_0111, 0, rd, rs1, immediate),
        Insn::Branch {
            condition,
            rs1,
            rs2,
            offset,
        } => branch_form(condition, rs1, rs2, offset),
        Insn::Load {
            kind,
            rd,
            rs1,
            immediate,
        } => immediate_form(0b000_0011, load_bits(kind), rd, rs1, immediate),
        Insn::Store {
            width,
            rs1,
            rs2,
            immediate,
        } => store_form(width, rs1, rs2, immediate),
        Insn::Imm {
            op,
            rd,
            rs1,
            immediate,
        } => immediate_form(0b001_0011, imm_bits(op), rd, rs1, immediate),
        Insn::ShiftImm {
            op,
            rd,
            rs1,
            amount,
        } => shift_form(0b001_0011, op, rd, rs1, amount.value()),
        Insn::Alu { op, rd, rs1, rs2 } => register_form(0b011_0011, alu_bits(op), rd, rs1, rs2),
        Insn::AddImmWord { rd, rs1, immediate } => immediate_form(
            0b001_1011, 0, rd, rs1, immediate,
        ),
        Insn::ShiftImmWord {
            op,
            rd,
            rs1,
            amount,
        } => shift_form(0b001_1011, op, rd, rs1, amount.value()),
        Insn::AluWord { op, rd, rs1, rs2 } => register_form(
            0b011_1011,
            word_bits(op),
            rd,
            rs1,
            rs2,
        ),
        Insn::Fence { rd, rs1, bits } => fence_form(rd, rs1, bits),
        Insn::Ecall => 0x0000_0073,
        Insn::Ebreak => 0x0010_0073,
    }
}
