//! Words and instructions of plain RV64I: `decode` gives the instruction that a word spells, and
//! `encode` its word.
#![tactic(auto)]

mod codes;
mod decoding;
mod encoding;
mod fields;
mod forms;
mod insn;
mod operands;

pub use decoding::decode;
pub use encoding::encode;
pub use fields::{
    BranchOffset, FenceBits, Immediate, JumpOffset, Register, ShiftAmount, UpperImmediate,
    WordShiftAmount,
};
pub use insn::{AluOp, BranchCondition, ImmOp, Insn, LoadKind, ShiftOp, StoreWidth, WordOp};
