//! The instructions of plain RV64I, in families of one form each.

use crate::fields::{
    BranchOffset, FenceBits, Immediate, JumpOffset, Register, ShiftAmount, UpperImmediate,
    WordShiftAmount,
};

/// When a branch is taken: how rs1 compares with rs2.
#[derive(Clone, Copy, Debug, PartialEq, Eq)]
pub enum BranchCondition {
    /// BEQ
    Equal,
    /// BNE
    NotEqual,
    /// BLT: less, as signed numbers
    Less,
    /// BGE: not less, as signed numbers
    NotLess,
    /// BLTU: less, as unsigned numbers
    LessUnsigned,
    /// BGEU: not less, as unsigned numbers
    NotLessUnsigned,
}

/// What a load reads: 1, 2, 4 or 8 bytes, sign-extended unless it says `Unsigned`.
#[derive(Clone, Copy, Debug, PartialEq, Eq)]
pub enum LoadKind {
    /// LB
    Byte,
    /// LH
    Half,
    /// LW
    Word,
    /// LD
    Double,
    /// LBU
    ByteUnsigned,
    /// LHU
    HalfUnsigned,
    /// LWU
    WordUnsigned,
}

/// How much of rs2 a store writes: its low 1, 2, 4 or 8 bytes.
#[derive(Clone, Copy, Debug, PartialEq, Eq)]
pub enum StoreWidth {
    /// SB
    Byte,
    /// SH
    Half,
    /// SW
    Word,
    /// SD
    Double,
}

/// An operation on rs1 and a sign-extended immediate.
#[derive(Clone, Copy, Debug, PartialEq, Eq)]
pub enum ImmOp {
    /// ADDI
    Add,
    /// SLTI: 1 where rs1 is less, as signed numbers, else 0
    SetLess,
    /// SLTIU: the same, as unsigned numbers
    SetLessUnsigned,
    /// XORI
    Xor,
    /// ORI
    Or,
    /// ANDI
    And,
}

/// A shift of rs1 by an amount in the word.
#[derive(Clone, Copy, Debug, PartialEq, Eq)]
pub enum ShiftOp {
    /// SLLI, SLLIW
    Left,
    /// SRLI, SRLIW: zeros come in
    Right,
    /// SRAI, SRAIW: the sign comes in
    RightArithmetic,
}

/// An operation on rs1 and rs2.
#[derive(Clone, Copy, Debug, PartialEq, Eq)]
pub enum AluOp {
    /// ADD
    Add,
    /// SUB
    Sub,
    /// SLL: by the low 6 bits of rs2, as the other shifts
    ShiftLeft,
    /// SLT: 1 where rs1 is less, as signed numbers, else 0
    SetLess,
    /// SLTU: the same, as unsigned numbers
    SetLessUnsigned,
    /// XOR
    Xor,
    /// SRL: zeros come in
    ShiftRight,
    /// SRA: the sign comes in
    ShiftRightArithmetic,
    /// OR
    Or,
    /// AND
    And,
}

/// An operation on the low 32 bits of rs1 and rs2, whose result is sign-extended.
#[derive(Clone, Copy, Debug, PartialEq, Eq)]
pub enum WordOp {
    /// ADDW
    Add,
    /// SUBW
    Sub,
    /// SLLW: by the low 5 bits of rs2, as the other shifts
    ShiftLeft,
    /// SRLW: zeros come in
    ShiftRight,
    /// SRAW: the sign comes in
    ShiftRightArithmetic,
}

/// An instruction with its fields, each in range by its type: the 52 of RV32I and RV64I in the
/// RISC-V Unprivileged ISA, document 20191213 (FENCE, ECALL and EBREAK among them).
#[derive(Clone, Copy, Debug, PartialEq, Eq)]
pub enum Insn {
    /// LUI
    Lui {
        rd: Register,
        immediate: UpperImmediate,
    },
    /// AUIPC
    Auipc {
        rd: Register,
        immediate: UpperImmediate,
    },
    /// JAL
    Jal {
        rd: Register,
        offset: JumpOffset,
    },
    /// JALR
    Jalr {
        rd: Register,
        rs1: Register,
        immediate: Immediate,
    },
    /// BEQ, BNE, BLT, BGE, BLTU, BGEU
    Branch {
        condition: BranchCondition,
        rs1: Register,
        rs2: Register,
        offset: BranchOffset,
    },
    /// LB, LH, LW, LD, LBU, LHU, LWU
    Load {
        kind: LoadKind,
        rd: Register,
        rs1: Register,
        immediate: Immediate,
    },
    /// SB, SH, SW, SD: rs2 is stored at rs1 plus the immediate
    Store {
        width: StoreWidth,
        rs1: Register,
        rs2: Register,
        immediate: Immediate,
    },
    /// ADDI, SLTI, SLTIU, XORI, ORI, ANDI
    Imm {
        op: ImmOp,
        rd: Register,
        rs1: Register,
        immediate: Immediate,
    },
    /// SLLI, SRLI, SRAI
    ShiftImm {
        op: ShiftOp,
        rd: Register,
        rs1: Register,
        amount: ShiftAmount,
    },
    /// ADD, SUB, SLL, SLT, SLTU, XOR, SRL, SRA, OR, AND
    Alu {
        op: AluOp,
        rd: Register,
        rs1: Register,
        rs2: Register,
    },
    /// ADDIW
    AddImmWord {
        rd: Register,
        rs1: Register,
        immediate: Immediate,
    },
    /// SLLIW, SRLIW, SRAIW
    ShiftImmWord {
        op: ShiftOp,
        rd: Register,
        rs1: Register,
        amount: WordShiftAmount,
    },
    /// ADDW, SUBW, SLLW, SRLW, SRAW
    AluWord {
        op: WordOp,
        rd: Register,
        rs1: Register,
        rs2: Register,
    },
    /// FENCE: its fields are kept and have no effect
    Fence {
        rd: Register,
        rs1: Register,
        bits: FenceBits,
    },
    /// ECALL
    Ecall,
    /// EBREAK
    Ebreak,
}
