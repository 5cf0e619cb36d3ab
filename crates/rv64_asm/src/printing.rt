//! One instruction as one line of assembler text.

ghost use Rattle.std.specs.Prelude.{◌≡◌, IfOk, IfErr, string_bytes};
ghost use Rattle.rv64_asm.specs.Shown as spec;
ghost use Rattle.rv64_asm.specs.Shown.{IsRanged, Rereads};

use crate::fault::AsmFault;
use crate::mnemonics::{
    alu_name, condition_name, imm_name, load_name, shift_name, shift_word_name, store_name,
    word_name,
};
use crate::printed_forms::{
    target, three_registers, with_amount, with_hex, with_number, with_place, with_target, word_line,
};
use rv64_decode::{FenceBits, Insn, Register, encode};
use std::alloc::{AllocError, Allocator};

type Shown<A> = Result<String<A>, AllocError>;

/// Whether this is the one FENCE that has a line of its own.
fn is_full_fence(rd: Register, rs1: Register, bits: FenceBits) -> bool
    ensures full { result ≡ spec.is_full_fence rd rs1 bits }
    ensures ranged { IsRanged (Insn.Fence rd rs1 bits) }
{
    let rd = rd.index();
    let rs1 = rs1.index();
    let bits = bits.value();
    rd == 0 && rs1 == 0 && bits == 255
}

/// `fence` for the one of all sets, and any other by its word.
#[tactic(auto, unfolding(crate::specs::Shown::shown))]
fn fence<A: Allocator + Copy>(alloc: A, rd: Register, rs1: Register, bits: FenceBits) -> Shown<A>
    ensures text { IfOk result (λ t. string_bytes t ≡ spec.shown (Insn.Fence rd rs1 bits) 0) }
    ensures ranged { IsRanged (Insn.Fence rd rs1 bits) }
{
    if is_full_fence(rd, rs1, bits) {
        return String::from_str(alloc, "fence");
    }
    word_line(alloc, encode(&Insn::Fence { rd, rs1, bits }))
}

/// The line of an instruction.
#[tactic(auto, unfolding(crate::specs::Shown::shown))]
fn text_of<A: Allocator + Copy>(alloc: A, insn: &Insn, pc: u64) -> Shown<A>
    ensures text { IfOk result (λ t. string_bytes t ≡ spec.shown insn.now pc) }
    ensures ranged { IsRanged insn.now }
{
    match *insn {
        Insn::Lui { rd, immediate } => with_hex(alloc, "lui", rd, immediate.value().into()),
        Insn::Auipc { rd, immediate } => with_hex(alloc, "auipc", rd, immediate.value().into()),
        Insn::Jal { rd, offset } => {
            with_hex(alloc, "jal", rd, target(pc, offset.value().into()))
        }
        Insn::Jalr { rd, rs1, immediate } => with_place(alloc, "jalr", rd, immediate, rs1),
        Insn::Branch {
            condition,
            rs1,
            rs2,
            offset,
        } => {
            let address = target(pc, offset.value().into());
            with_target(alloc, condition_name(condition), rs1, rs2, address)
        }
        Insn::Load {
            kind,
            rd,
            rs1,
            immediate,
        } => { with_place(alloc, load_name(kind), rd, immediate, rs1) }
        Insn::Store {
            width,
            rs1,
            rs2,
            immediate,
        } => { with_place(alloc, store_name(width), rs2, immediate, rs1) }
        Insn::Imm {
            op,
            rd,
            rs1,
            immediate,
        } => { with_number(alloc, imm_name(op), rd, rs1, immediate) }
        Insn::ShiftImm {
            op,
            rd,
            rs1,
            amount,
        } => { with_amount(alloc, shift_name(op), rd, rs1, amount.value()) }
        Insn::Alu { op, rd, rs1, rs2 } => three_registers(alloc, alu_name(op), rd, rs1, rs2),
        Insn::AddImmWord { rd, rs1, immediate } => {
            with_number(alloc, "addiw", rd, rs1, immediate)
        }
        Insn::ShiftImmWord {
            op,
            rd,
            rs1,
            amount,
        } => { with_amount(alloc, shift_word_name(op), rd, rs1, amount.value()) }
        Insn::AluWord { op, rd, rs1, rs2 } => three_registers(alloc, word_name(op), rd, rs1, rs2),
        Insn::Fence { rd, rs1, bits } => fence(alloc, rd, rs1, bits),
        Insn::Ecall => String::from_str(alloc, "ecall"),
        Insn::Ebreak => String::from_str(alloc, "ebreak"),
    }
}

/// One line that assembles at pc to the word of the instruction: its first form, with the names
/// x0 to x31, and targets as addresses. A FENCE other than `fence` is written by its word.
pub fn show<A: Allocator + Copy>(alloc: A, insn: &Insn, pc: u64) -> Result<String<A>, AsmFault>
    ensures text { IfOk result (λ t. string_bytes t ≡ spec.shown insn.now pc) }
    ensures rereads { IfOk result (λ t. Rereads (string_bytes t) insn.now pc) }
    ensures refused { IfErr result (λ e. e ≡ AsmFault.OutOfMemory) }
{
    let text = text_of(alloc, insn, pc)?;
    Ok(text)
}
