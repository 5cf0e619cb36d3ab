//! The instruction of a word: a row of the table for each opcode (chapter 24).
//!
//! All is inlined. Where `decode` has several callers the compiler would else keep it out of an
//! interpreter's loop, which then builds and takes apart each `Insn`.

ghost use Rattle.std.specs.Prelude.{◌≡◌, ◌⊎◌, IfSome, IfNone};
ghost use Rattle.rv64_decode.specs.Spelling.{opcode, funct3, Spells};
ghost use Rattle.rv64_decode.specs.Table.{load_row, store_row, branch_row, jalr_row, fence_row, system_row, alu_row, alu_word_row, shift_row, imm_row, imm_word_row, instruction_of};
ghost use Rattle.rv64_decode.specs.declared.insn.Insn.{Insn};

use crate::codes::{alu_op, condition, imm_op, load_kind, shift_op, store_width, word_op};
use crate::fields::{FenceBits, WordShiftAmount};
use crate::insn::Insn;
use crate::operands::{
    branch_offset, field, immediate, jump_offset, opcode, rd, rs1, rs2, shift_amount, shift_funct7,
    store_immediate, upper_immediate,
};

/// The instruction that a word spells, or `None` where none does: such a word is illegal.
///
/// Words of extensions and reserved words are illegal, as FENCE.I, each access to a control and
/// status register, and SLLIW with bit 25 set (5.2). But FENCE has all values of its fields (2.7).
#[inline(always)]
#[tactic(auto, using(crate::proofs::TableLemmas::instruction_spelled))]
pub fn decode(word: u32) -> Option<Insn>
    ensures instruction { result ≡ instruction_of word }
    ensures spelled { IfSome result (Spells word) }
    ensures only { (insn : Insn) → Spells word insn → result ≡ Some insn }
    ensures illegal { IfNone result ((insn : Insn) → ¬ Spells word insn) }
{
    by_opcode(word)
}

/// The instruction of a word, by its opcode.
#[inline(always)]
#[tactic(auto, unfolding(crate::specs::Table::instruction_of))]
fn by_opcode(word: u32) -> Option<Insn>
    ensures exact { result ≡ instruction_of word }
    ensures spelled { IfSome result (Spells word) }
{
    match opcode(word) {
        0b011_0111 => Some(Insn::Lui {
            rd: rd(word),
            immediate: upper_immediate(word),
        }),
        0b001_0111 => Some(Insn::Auipc {
            rd: rd(word),
            immediate: upper_immediate(word),
        }),
        0b110_1111 => Some(Insn::Jal {
            rd: rd(word),
            offset: jump_offset(word),
        }),
        0b110_0111 => jalr(word),
        0b110_0011 => branch(word),
        0b000_0011 => load(word),
        0b010_0011 => store(word),
        0b001_0011 => register_immediate(word),
        0b011_0011 => alu(word),
        0b001_1011 => imm_word(word),
        0b011_1011 => alu_word(word),
        0b000_1111 => fence(word),
        0b111_0011 => system(word),
        _ => None,
    }
}

/// JALR (2.5).
#[inline(always)]
#[tactic(auto, unfolding(crate::specs::Table::jalr_row))]
fn jalr(word: u32) -> Option<Insn>
    requires { opcode word ≡ 0b1100111 }
    ensures exact { result ≡ jalr_row word }
    ensures spelled { IfSome result (Spells word) }
{
    if field(word, 12, 3) != 0 {
        return None;
    }
    Some(Insn::Jalr {
        rd: rd(word),
        rs1: rs1(word),
        immediate: immediate(word),
    })
}

/// BRANCH (2.5).
#[inline(always)]
#[tactic(auto, unfolding(crate::specs::Table::branch_row))]
fn branch(word: u32) -> Option<Insn>
    requires { opcode word ≡ 0b1100011 }
    ensures exact { result ≡ branch_row word }
    ensures spelled { IfSome result (Spells word) }
{
    let condition = condition(field(word, 12, 3))?;
    Some(Insn::Branch {
        condition,
        rs1: rs1(word),
        rs2: rs2(word),
        offset: branch_offset(word),
    })
}

/// LOAD (2.6, 5.3).
#[inline(always)]
#[tactic(auto, unfolding(crate::specs::Table::load_row))]
fn load(word: u32) -> Option<Insn>
    requires { opcode word ≡ 0b0000011 }
    ensures exact { result ≡ load_row word }
    ensures spelled { IfSome result (Spells word) }
{
    let kind = load_kind(field(word, 12, 3))?;
    Some(Insn::Load {
        kind,
        rd: rd(word),
        rs1: rs1(word),
        immediate: immediate(word),
    })
}

/// STORE (2.6, 5.3).
#[inline(always)]
#[tactic(auto, unfolding(crate::specs::Table::store_row))]
fn store(word: u32) -> Option<Insn>
    requires { opcode word ≡ 0b0100011 }
    ensures exact { result ≡ store_row word }
    ensures spelled { IfSome result (Spells word) }
{
    let width = store_width(field(word, 12, 3))?;
    Some(Insn::Store {
        width,
        rs1: rs1(word),
        rs2: rs2(word),
        immediate: store_immediate(word),
    })
}

/// The shifts of OP-IMM, whose amounts have six bits (5.2).
#[inline(always)]
#[tactic(auto, unfolding(crate::specs::Table::shift_row))]
fn shift(word: u32) -> Option<Insn>
    requires row { opcode word ≡ 0b0010011 }
    requires kind { (funct3 word ≡ 0b001) ⊎ (funct3 word ≡ 0b101) }
    ensures exact { result ≡ shift_row word }
    ensures spelled { IfSome result (Spells word) }
{
    let op = shift_op(field(word, 12, 3), shift_funct7(word))?;
    Some(Insn::ShiftImm {
        op,
        rd: rd(word),
        rs1: rs1(word),
        amount: shift_amount(word),
    })
}

/// OP-IMM (2.4).
#[inline(always)]
#[tactic(auto, unfolding(crate::specs::Table::imm_row))]
fn register_immediate(word: u32) -> Option<Insn>
    requires { opcode word ≡ 0b0010011 }
    ensures exact { result ≡ imm_row word }
    ensures spelled { IfSome result (Spells word) }
{
    match field(word, 12, 3) {
        1 | 5 => shift(word),
        funct3 => {
            let op = imm_op(funct3)?;
            Some(Insn::Imm {
                op,
                rd: rd(word),
                rs1: rs1(word),
                immediate: immediate(word),
            })
        }
    }
}

/// OP (2.4).
#[inline(always)]
#[tactic(auto, unfolding(crate::specs::Table::alu_row))]
fn alu(word: u32) -> Option<Insn>
    requires { opcode word ≡ 0b0110011 }
    ensures exact { result ≡ alu_row word }
    ensures spelled { IfSome result (Spells word) }
{
    let op = alu_op(field(word, 12, 3), field(word, 25, 7))?;
    Some(Insn::Alu {
        op,
        rd: rd(word),
        rs1: rs1(word),
        rs2: rs2(word),
    })
}

/// OP-IMM-32 (5.2).
#[inline(always)]
#[tactic(auto, unfolding(crate::specs::Table::imm_word_row))]
fn imm_word(word: u32) -> Option<Insn>
    requires { opcode word ≡ 0b0011011 }
    ensures exact { result ≡ imm_word_row word }
    ensures spelled { IfSome result (Spells word) }
{
    let funct3 = field(word, 12, 3);
    if funct3 == 0 {
        return Some(Insn::AddImmWord {
            rd: rd(word),
            rs1: rs1(word),
            immediate: immediate(word),
        });
    }
    let op = shift_op(funct3, field(word, 25, 7))?;
    Some(Insn::ShiftImmWord {
        op,
        rd: rd(word),
        rs1: rs1(word),
        amount: WordShiftAmount::new(field(word, 20, 5) as u8),
    })
}

/// OP-32 (5.2).
#[inline(always)]
#[tactic(auto, unfolding(crate::specs::Table::alu_word_row))]
fn alu_word(word: u32) -> Option<Insn>
    requires { opcode word ≡ 0b0111011 }
    ensures exact { result ≡ alu_word_row word }
    ensures spelled { IfSome result (Spells word) }
{
    let op = word_op(field(word, 12, 3), field(word, 25, 7))?;
    Some(Insn::AluWord {
        op,
        rd: rd(word),
        rs1: rs1(word),
        rs2: rs2(word),
    })
}

/// MISC-MEM (2.7): FENCE alone.
#[inline(always)]
#[tactic(auto, unfolding(crate::specs::Table::fence_row))]
fn fence(word: u32) -> Option<Insn>
    requires { opcode word ≡ 0b0001111 }
    ensures exact { result ≡ fence_row word }
    ensures spelled { IfSome result (Spells word) }
{
    if field(word, 12, 3) != 0 {
        return None;
    }
    Some(Insn::Fence {
        rd: rd(word),
        rs1: rs1(word),
        bits: FenceBits::new(field(word, 20, 12) as u16),
    })
}

/// SYSTEM (2.8): ECALL and EBREAK alone.
#[inline(always)]
#[tactic(auto, unfolding(crate::specs::Table::system_row))]
fn system(word: u32) -> Option<Insn>
    requires { opcode word ≡ 0b1110011 }
    ensures exact { result ≡ system_row word }
    ensures spelled { IfSome result (Spells word) }
{
    match word {
        0x0000_0073 => Some(Insn::Ecall),
        0x0010_0073 => Some(Insn::Ebreak),
        _ => None,
    }
}
