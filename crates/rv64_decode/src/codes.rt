//! The codes of each family's kinds: funct3, and bit 30 where two kinds share it (2.4, 2.5, 2.6, 5.2, 5.3).

ghost use Rattle.std.specs.Prelude.{◌≡◌, ◌*◌, ◌<◌, IfSome};
ghost use Rattle.rv64_decode.specs.Spelling.{condition_code, load_code, store_code, imm_code, shift_code, shift_top, alu_code, alu_top, word_code, word_top};
ghost use Rattle.rv64_decode.specs.Table.{condition_of, load_kind_of, store_width_of, imm_op_of, shift_op_of, alu_op_of, word_op_of};

use crate::insn::{AluOp, BranchCondition, ImmOp, LoadKind, ShiftOp, StoreWidth, WordOp};

/// funct3 of a condition.
pub(crate) fn condition_bits(condition: BranchCondition) -> u32
    ensures code { result ≡ condition_code condition }
    ensures fits { result < 8 }
{
    match condition {
        BranchCondition::Equal => 0,
        BranchCondition::NotEqual => 1,
        BranchCondition::Less => 4,
        BranchCondition::NotLess => 5,
        BranchCondition::LessUnsigned => 6,
        BranchCondition::NotLessUnsigned => 7,
    }
}

/// The condition with this funct3.
#[inline(always)]
pub(crate) fn condition(funct3: u32) -> Option<BranchCondition>
    ensures exact { result ≡ condition_of funct3 }
    ensures coded { IfSome result (λ condition. condition_code condition ≡ funct3) }
{
    match funct3 {
        0 => Some(BranchCondition::Equal),
        1 => Some(BranchCondition::NotEqual),
        4 => Some(BranchCondition::Less),
        5 => Some(BranchCondition::NotLess),
        6 => Some(BranchCondition::LessUnsigned),
        7 => Some(BranchCondition::NotLessUnsigned),
        _ => None,
    }
}

/// funct3 of a load.
pub(crate) fn load_bits(kind: LoadKind) -> u32
    ensures code { result ≡ load_code kind }
    ensures fits { result < 8 }
{
    match kind {
        LoadKind::Byte => 0,
        LoadKind::Half => 1,
        LoadKind::Word => 2,
        LoadKind::Double => 3,
        LoadKind::ByteUnsigned => 4,
        LoadKind::HalfUnsigned => 5,
        LoadKind::WordUnsigned => 6,
    }
}

/// The load with this funct3.
#[inline(always)]
pub(crate) fn load_kind(funct3: u32) -> Option<LoadKind>
    ensures exact { result ≡ load_kind_of funct3 }
    ensures coded { IfSome result (λ kind. load_code kind ≡ funct3) }
{
    match funct3 {
        0 => Some(LoadKind::Byte),
        1 => Some(LoadKind::Half),
        2 => Some(LoadKind::Word),
        3 => Some(LoadKind::Double),
        4 => Some(LoadKind::ByteUnsigned),
        5 => Some(LoadKind::HalfUnsigned),
        6 => Some(LoadKind::WordUnsigned),
        _ => None,
    }
}

/// funct3 of a store.
pub(crate) fn store_bits(width: StoreWidth) -> u32
    ensures code { result ≡ store_code width }
    ensures fits { result < 8 }
{
    match width {
        StoreWidth::Byte => 0,
        StoreWidth::Half => 1,
        StoreWidth::Word => 2,
        StoreWidth::Double => 3,
    }
}

/// The store with this funct3.
#[inline(always)]
pub(crate) fn store_width(funct3: u32) -> Option<StoreWidth>
    ensures exact { result ≡ store_width_of funct3 }
    ensures coded { IfSome result (λ width. store_code width ≡ funct3) }
{
    match funct3 {
        0 => Some(StoreWidth::Byte),
        1 => Some(StoreWidth::Half),
        2 => Some(StoreWidth::Word),
        3 => Some(StoreWidth::Double),
        _ => None,
    }
}

/// funct3 of a register-immediate operation.
pub(crate) fn imm_bits(op: ImmOp) -> u32
    ensures code { result ≡ imm_code op }
    ensures fits { result < 8 }
{
    match op {
        ImmOp::Add => 0,
        ImmOp::SetLess => 2,
        ImmOp::SetLessUnsigned => 3,
        ImmOp::Xor => 4,
        ImmOp::Or => 6,
        ImmOp::And => 7,
    }
}

/// The register-immediate operation with this funct3.
#[inline(always)]
pub(crate) fn imm_op(funct3: u32) -> Option<ImmOp>
    ensures exact { result ≡ imm_op_of funct3 }
    ensures coded { IfSome result (λ op. imm_code op ≡ funct3) }
{
    match funct3 {
        0 => Some(ImmOp::Add),
        2 => Some(ImmOp::SetLess),
        3 => Some(ImmOp::SetLessUnsigned),
        4 => Some(ImmOp::Xor),
        6 => Some(ImmOp::Or),
        7 => Some(ImmOp::And),
        _ => None,
    }
}

/// funct3 of a shift by an amount, and its bit 30.
pub(crate) fn shift_bits(op: ShiftOp) -> (u32, u32)
    ensures code { result.0 ≡ shift_code op }
    ensures top { result.1 ≡ shift_top op }
    ensures fits { result.0 < 8 }
    ensures bit { result.1 < 2 }
{
    match op {
        ShiftOp::Left => (1, 0),
        ShiftOp::Right => (5, 0),
        ShiftOp::RightArithmetic => (5, 1),
    }
}

/// The shift by an amount with this funct3 and funct7.
#[inline(always)]
pub(crate) fn shift_op(funct3: u32, funct7: u32) -> Option<ShiftOp>
    ensures exact { result ≡ shift_op_of funct3 funct7 }
    ensures coded { IfSome result (λ op. (shift_code op ≡ funct3) × (shift_top op * 0b0100000 ≡ funct7)) }
{
    match (funct7, funct3) {
        (0, 1) => Some(ShiftOp::Left),
        (0, 5) => Some(ShiftOp::Right),
        (0b010_0000, 5) => Some(ShiftOp::RightArithmetic),
        _ => None,
    }
}

/// funct3 of a register-register operation, and its bit 30.
pub(crate) fn alu_bits(op: AluOp) -> (u32, u32)
    ensures code { result.0 ≡ alu_code op }
    ensures top { result.1 ≡ alu_top op }
    ensures fits { result.0 < 8 }
    ensures bit { result.1 < 2 }
{
    match op {
        AluOp::Add => (0, 0),
        AluOp::Sub => (0, 1),
        AluOp::ShiftLeft => (1, 0),
        AluOp::SetLess => (2, 0),
        AluOp::SetLessUnsigned => (3, 0),
        AluOp::Xor => (4, 0),
        AluOp::ShiftRight => (5, 0),
        AluOp::ShiftRightArithmetic => (5, 1),
        AluOp::Or => (6, 0),
        AluOp::And => (7, 0),
    }
}

/// The register-register operation with this funct3 and funct7.
#[inline(always)]
pub(crate) fn alu_op(funct3: u32, funct7: u32) -> Option<AluOp>
    ensures exact { result ≡ alu_op_of funct3 funct7 }
    ensures coded { IfSome result (λ op. (alu_code op ≡ funct3) × (alu_top op * 0b0100000 ≡ funct7)) }
{
    match (funct7, funct3) {
        (0, 0) => Some(AluOp::Add),
        (0b010_0000, 0) => Some(AluOp::Sub),
        (0, 1) => Some(AluOp::ShiftLeft),
        (0, 2) => Some(AluOp::SetLess),
        (0, 3) => Some(AluOp::SetLessUnsigned),
        (0, 4) => Some(AluOp::Xor),
        (0, 5) => Some(AluOp::ShiftRight),
        (0b010_0000, 5) => Some(AluOp::ShiftRightArithmetic),
        (0, 6) => Some(AluOp::Or),
        (0, 7) => Some(AluOp::And),
        _ => None,
    }
}

/// The funct3 and funct7 of a register-register operation on words.
pub(crate) fn word_bits(op: WordOp) -> (u32, u32)
    ensures code { result.0 ≡ word_code op }
    ensures top { result.1 ≡ word_top op }
    ensures fits { result.0 < 8 }
    ensures bit { result.1 < 2 }
{
    match op {
        WordOp::Add => (0, 0),
        WordOp::Sub => (0, 1),
        WordOp::ShiftLeft => (1, 0),
        WordOp::ShiftRight => (5, 0),
        WordOp::ShiftRightArithmetic => (5, 1),
    }
}

/// The one on words with this funct3 and funct7.
#[inline(always)]
pub(crate) fn word_op(funct3: u32, funct7: u32) -> Option<WordOp>
    ensures exact { result ≡ word_op_of funct3 funct7 }
    ensures coded { IfSome result (λ op. (word_code op ≡ funct3) × (word_top op * 0b0100000 ≡ funct7)) }
{
    match (funct7, funct3) {
        (0, 0) => Some(WordOp::Add),
        (0b010_0000, 0) => Some(WordOp::Sub),
        (0, 1) => Some(WordOp::ShiftLeft),
        (0, 5) => Some(WordOp::ShiftRight),
        (0b010_0000, 5) => Some(WordOp::ShiftRightArithmetic),
        _ => None,
    }
}
