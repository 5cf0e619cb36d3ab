//! The first mnemonic of each kind of instruction.

ghost use Rattle.std.specs.Prelude.{◌≡◌};
ghost use Rattle.rv64_asm.specs.Shown as spec;

use rv64_decode::{AluOp, BranchCondition, ImmOp, LoadKind, ShiftOp, StoreWidth, WordOp};

pub fn condition_name(condition: BranchCondition) -> &'static str
    ensures { result.now ≡ spec.condition_name condition }
{
    match condition {
        BranchCondition::Equal => "beq",
        BranchCondition::NotEqual => "bne",
        BranchCondition::Less => "blt",
        BranchCondition::NotLess => "bge",
        BranchCondition::LessUnsigned => "bltu",
        BranchCondition::NotLessUnsigned => "bgeu",
    }
}

pub fn load_name(kind: LoadKind) -> &'static str
    ensures { result.now ≡ spec.load_name kind }
{
    match kind {
        LoadKind::Byte => "lb",
        LoadKind::Half => "lh",
        LoadKind::Word => "lw",
        LoadKind::Double => "ld",
        LoadKind::ByteUnsigned => "lbu",
        LoadKind::HalfUnsigned => "lhu",
        LoadKind::WordUnsigned => "lwu",
    }
}

pub fn store_name(width: StoreWidth) -> &'static str
    ensures { result.now ≡ spec.store_name width }
{
    match width {
        StoreWidth::Byte => "sb",
        StoreWidth::Half => "sh",
        StoreWidth::Word => "sw",
        StoreWidth::Double => "sd",
    }
}

pub fn imm_name(op: ImmOp) -> &'static str
    ensures { result.now ≡ spec.imm_name op }
{
    match op {
        ImmOp::Add => "addi",
        ImmOp::SetLess => "slti",
        ImmOp::SetLessUnsigned => "sltiu",
        ImmOp::Xor => "xori",
        ImmOp::Or => "ori",
        ImmOp::And => "andi",
    }
}

pub fn shift_name(op: ShiftOp) -> &'static str
    ensures { result.now ≡ spec.shift_name op }
{
    match op {
        ShiftOp::Left => "slli",
        ShiftOp::Right => "srli",
        ShiftOp::RightArithmetic => "srai",
    }
}

pub fn shift_word_name(op: ShiftOp) -> &'static str
    ensures { result.now ≡ spec.shift_word_name op }
{
    match op {
        ShiftOp::Left => "slliw",
        ShiftOp::Right => "srliw",
        ShiftOp::RightArithmetic => "sraiw",
    }
}

pub fn alu_name(op: AluOp) -> &'static str
    ensures { result.now ≡ spec.alu_name op }
{
    match op {
        AluOp::Add => "add",
        AluOp::Sub => "sub",
        AluOp::ShiftLeft => "sll",
        AluOp::SetLess => "slt",
        AluOp::SetLessUnsigned => "sltu",
        AluOp::Xor => "xor",
        AluOp::ShiftRight => "srl",
        AluOp::ShiftRightArithmetic => "sra",
        AluOp::Or => "or",
        AluOp::And => "and",
    }
}

pub fn word_name(op: WordOp) -> &'static str
    ensures { result.now ≡ spec.word_name op }
{
    match op {
        WordOp::Add => "addw",
        WordOp::Sub => "subw",
        WordOp::ShiftLeft => "sllw",
        WordOp::ShiftRight => "srlw",
        WordOp::ShiftRightArithmetic => "sraw",
    }
}
