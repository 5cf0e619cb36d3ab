//! Instructions without a target, by their mnemonics and operands.

ghost use Rattle.std.specs.Prelude.{◌≡◌, ◌≤ℤ◌, pos, negsuc};
ghost use Rattle.rv64_asm.specs.Statements as spec;
ghost use Rattle.rv64_asm.specs.Returned.{seen};

use crate::fault::LineFault;
use crate::lexing::Operands;
use crate::operands::{
    alone, fence, jalr, one_register, three_registers, two_registers, with_immediate, with_place,
    with_shift_amount, with_upper, with_word_shift_amount,
};
use crate::words::Shape;
use rv64_decode::{AluOp, ImmOp, Immediate, Insn, LoadKind, Register, ShiftOp, StoreWidth, WordOp};

type Given = Result<Insn, LineFault>;

fn load(kind: LoadKind, operands: Operands<&[u8]>) -> Given
    ensures { result ≡ spec.load kind (seen operands.entry) }
{
    let (rd, rs1, immediate) = with_place(operands)?;
    Ok(Insn::Load {
        kind,
        rd,
        rs1,
        immediate,
    })
}

fn store(width: StoreWidth, operands: Operands<&[u8]>) -> Given
    ensures { result ≡ spec.store width (seen operands.entry) }
{
    let (rs2, rs1, immediate) = with_place(operands)?;
    Ok(Insn::Store {
        width,
        rs1,
        rs2,
        immediate,
    })
}

fn imm(op: ImmOp, operands: Operands<&[u8]>) -> Given
    ensures { result ≡ spec.imm op (seen operands.entry) }
{
    let (rd, rs1, immediate) = with_immediate(operands)?;
    Ok(Insn::Imm {
        op,
        rd,
        rs1,
        immediate,
    })
}

fn shift_imm(op: ShiftOp, operands: Operands<&[u8]>) -> Given
    ensures { result ≡ spec.shift_imm op (seen operands.entry) }
{
    let (rd, rs1, amount) = with_shift_amount(operands)?;
    Ok(Insn::ShiftImm {
        op,
        rd,
        rs1,
        amount,
    })
}

fn shift_imm_word(op: ShiftOp, operands: Operands<&[u8]>) -> Given
    ensures { result ≡ spec.shift_imm_word op (seen operands.entry) }
{
    let (rd, rs1, amount) = with_word_shift_amount(operands)?;
    Ok(Insn::ShiftImmWord {
        op,
        rd,
        rs1,
        amount,
    })
}

fn any_fence(operands: Operands<&[u8]>) -> Given
    ensures { result ≡ spec.any_fence (seen operands.entry) }
{
    let bits = fence(operands)?;
    Ok(Insn::Fence {
        rd: Register::new(0),
        rs1: Register::new(0),
        bits,
    })
}

/// `rd, rs` with an immediate that the mnemonic fixes.
fn fixed_imm(op: ImmOp, number: i16, operands: Operands<&[u8]>) -> Given
    requires low { negsuc 2047 ≤ℤ number }
    requires high { number ≤ℤ pos 2047 }
    ensures { result ≡ spec.fixed_imm op number (seen operands.entry) }
{
    let (rd, rs1) = two_registers(operands)?;
    Ok(Insn::Imm {
        op,
        rd,
        rs1,
        immediate: Immediate::new(number),
    })
}

/// `rd, rs` with x0 as the first source.
fn from_zero(op: AluOp, operands: Operands<&[u8]>) -> Given
    ensures { result ≡ spec.from_zero op (seen operands.entry) }
{
    let (rd, rs2) = two_registers(operands)?;
    Ok(Insn::Alu {
        op,
        rd,
        rs1: Register::new(0),
        rs2,
    })
}

fn lui(operands: Operands<&[u8]>) -> Given
    ensures { result ≡ spec.upper (λ rd n. Insn.Lui rd n) (seen operands.entry) }
{
    let (rd, immediate) = with_upper(operands)?;
    Ok(Insn::Lui { rd, immediate })
}

fn auipc(operands: Operands<&[u8]>) -> Given
    ensures { result ≡ spec.upper (λ rd n. Insn.Auipc rd n) (seen operands.entry) }
{
    let (rd, immediate) = with_upper(operands)?;
    Ok(Insn::Auipc { rd, immediate })
}

fn jump_register(operands: Operands<&[u8]>) -> Given
    ensures { result ≡ spec.jump_register (seen operands.entry) }
{
    let (rd, rs1, immediate) = jalr(operands)?;
    Ok(Insn::Jalr { rd, rs1, immediate })
}

fn add_imm_word(operands: Operands<&[u8]>) -> Given
    ensures { result ≡ spec.add_imm_word (seen operands.entry) }
{
    let (rd, rs1, immediate) = with_immediate(operands)?;
    Ok(Insn::AddImmWord { rd, rs1, immediate })
}

fn alu(op: AluOp, operands: Operands<&[u8]>) -> Given
    ensures { result ≡ spec.with_registers (λ d s t. Insn.Alu op d s t) (seen operands.entry) }
{
    let (rd, rs1, rs2) = three_registers(operands)?;
    Ok(Insn::Alu { op, rd, rs1, rs2 })
}

fn alu_word(op: WordOp, operands: Operands<&[u8]>) -> Given
    ensures { result ≡ spec.with_registers (λ d s t. Insn.AluWord op d s t) (seen operands.entry) }
{
    let (rd, rs1, rs2) = three_registers(operands)?;
    Ok(Insn::AluWord { op, rd, rs1, rs2 })
}

/// An instruction without operands.
fn fixed(insn: Insn, operands: Operands<&[u8]>) -> Given
    ensures { result ≡ spec.alone insn (seen operands.entry) }
{
    alone(operands)?;
    Ok(insn)
}

fn nop() -> Insn
    ensures { result ≡ Insn.Imm ImmOp.Add 0 0 (pos 0) }
{
    Insn::Imm {
        op: ImmOp::Add,
        rd: Register::new(0),
        rs1: Register::new(0),
        immediate: Immediate::new(0),
    }
}

/// A jump to the address in a register.
fn jump_to(rs1: Register) -> Insn
    ensures { result ≡ Insn.Jalr 0 rs1 (pos 0) }
{
    Insn::Jalr {
        rd: Register::new(0),
        rs1,
        immediate: Immediate::new(0),
    }
}

fn jr(operands: Operands<&[u8]>) -> Given
    ensures { result ≡ spec.jr (seen operands.entry) }
{
    let rs1 = one_register(operands)?;
    Ok(jump_to(rs1))
}

/// The instruction; of a pseudo-instruction the one that it stands for.
#[tactic(auto, unfolding(crate::specs::Statements::instruction_of))]
pub fn instruction_of(shape: Shape, operands: Operands<&[u8]>) -> Given
    ensures { result ≡ spec.instruction_of shape (seen operands.entry) }
{
    match shape {
        Shape::Lui => lui(operands),
        Shape::Auipc => auipc(operands),
        Shape::Jalr => jump_register(operands),
        Shape::Fence => any_fence(operands),
        Shape::Ecall => fixed(Insn::Ecall, operands),
        Shape::Ebreak => fixed(Insn::Ebreak, operands),
        Shape::Load(kind) => load(kind, operands),
        Shape::Store(width) => store(width, operands),
        Shape::Imm(op) => imm(op, operands),
        Shape::ShiftImm(op) => shift_imm(op, operands),
        Shape::ShiftImmWord(op) => shift_imm_word(op, operands),
        Shape::AddImmWord => add_imm_word(operands),
        Shape::Alu(op) => alu(op, operands),
        Shape::AluWord(op) => alu_word(op, operands),
        Shape::Nop => fixed(nop(), operands),
        Shape::Mv => fixed_imm(ImmOp::Add, 0, operands),
        Shape::Not => fixed_imm(ImmOp::Xor, -1, operands),
        Shape::Neg => from_zero(AluOp::Sub, operands),
        Shape::Seqz => fixed_imm(ImmOp::SetLessUnsigned, 1, operands),
        Shape::Snez => from_zero(AluOp::SetLessUnsigned, operands),
        Shape::Jr => jr(operands),
        Shape::Ret => fixed(jump_to(Register::new(1)), operands),
    }
}
