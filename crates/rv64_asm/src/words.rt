//! What words name: mnemonics, directives, registers, and the sets of a fence.

ghost use Rattle.std.specs.Prelude.{◌≡◌, map};
ghost use Rattle.rv64_asm.specs.Words as spec;
ghost use Rattle.rv64_asm.specs.Words.{lookup};

use rv64_decode::{AluOp, BranchCondition, ImmOp, LoadKind, Register, ShiftOp, StoreWidth, WordOp};

/// A part of a program.
#[derive(Clone, Copy)]
pub enum Part {
    Text,
    Data,
}

/// An instruction without a target, or a pseudo-instruction for one.
#[derive(Clone, Copy)]
pub enum Shape {
    Lui,
    Auipc,
    Jalr,
    Fence,
    Ecall,
    Ebreak,
    Load(LoadKind),
    Store(StoreWidth),
    Imm(ImmOp),
    ShiftImm(ShiftOp),
    ShiftImmWord(ShiftOp),
    AddImmWord,
    Alu(AluOp),
    AluWord(WordOp),
    Nop,
    Mv,
    Not,
    Neg,
    Seqz,
    Snez,
    Jr,
    Ret,
}

/// What the word at the front of a line asks for.
#[derive(Clone, Copy)]
pub enum Kind {
    /// The next lines go into this part.
    Enter(Part),
    /// One number of this width.
    Number(StoreWidth),
    /// So many bytes of 0.
    Zero,
    Plain(Shape),
    Branch(BranchCondition),
    /// A branch that compares with x0.
    BranchZero(BranchCondition),
    Jal,
    J,
}

/// The mnemonics and directives. A new one is a row here and in the specification.
const KINDS: [(&str, Kind); 70] = [
    (".text", Kind::Enter(Part::Text)),
    (".data", Kind::Enter(Part::Data)),
    (".word", Kind::Number(StoreWidth::Word)),
    (".byte", Kind::Number(StoreWidth::Byte)),
    (".half", Kind::Number(StoreWidth::Half)),
    (".dword", Kind::Number(StoreWidth::Double)),
    (".zero", Kind::Zero),
    ("lui", Kind::Plain(Shape::Lui)),
    ("auipc", Kind::Plain(Shape::Auipc)),
    ("jal", Kind::Jal),
    ("jalr", Kind::Plain(Shape::Jalr)),
    ("fence", Kind::Plain(Shape::Fence)),
    ("ecall", Kind::Plain(Shape::Ecall)),
    ("ebreak", Kind::Plain(Shape::Ebreak)),
    ("beq", Kind::Branch(BranchCondition::Equal)),
    ("bne", Kind::Branch(BranchCondition::NotEqual)),
    ("blt", Kind::Branch(BranchCondition::Less)),
    ("bge", Kind::Branch(BranchCondition::NotLess)),
    ("bltu", Kind::Branch(BranchCondition::LessUnsigned)),
    ("bgeu", Kind::Branch(BranchCondition::NotLessUnsigned)),
    ("lb", Kind::Plain(Shape::Load(LoadKind::Byte))),
    ("lh", Kind::Plain(Shape::Load(LoadKind::Half))),
    ("lw", Kind::Plain(Shape::Load(LoadKind::Word))),
    ("ld", Kind::Plain(Shape::Load(LoadKind::Double))),
    ("lbu", Kind::Plain(Shape::Load(LoadKind::ByteUnsigned))),
    ("lhu", Kind::Plain(Shape::Load(LoadKind::HalfUnsigned))),
    ("lwu", Kind::Plain(Shape::Load(LoadKind::WordUnsigned))),
    ("sb", Kind::Plain(Shape::Store(StoreWidth::Byte))),
    ("sh", Kind::Plain(Shape::Store(StoreWidth::Half))),
    ("sw", Kind::Plain(Shape::Store(StoreWidth::Word))),
    ("sd", Kind::Plain(Shape::Store(StoreWidth::Double))),
    ("addi", Kind::Plain(Shape::Imm(ImmOp::Add))),
    ("slti", Kind::Plain(Shape::Imm(ImmOp::SetLess))),
    ("sltiu", Kind::Plain(Shape::Imm(ImmOp::SetLessUnsigned))),
    ("xori", Kind::Plain(Shape::Imm(ImmOp::Xor))),
    ("ori", Kind::Plain(Shape::Imm(ImmOp::Or))),
    ("andi", Kind::Plain(Shape::Imm(ImmOp::And))),
    ("slli", Kind::Plain(Shape::ShiftImm(ShiftOp::Left))),
    ("srli", Kind::Plain(Shape::ShiftImm(ShiftOp::Right))),
    (
        "srai",
        Kind::Plain(Shape::ShiftImm(ShiftOp::RightArithmetic)),
    ),
    ("slliw", Kind::Plain(Shape::ShiftImmWord(ShiftOp::Left))),
    ("srliw", Kind::Plain(Shape::ShiftImmWord(ShiftOp::Right))),
    (
        "sraiw",
        Kind::Plain(Shape::ShiftImmWord(ShiftOp::RightArithmetic)),
    ),
    ("addiw", Kind::Plain(Shape::AddImmWord)),
    ("add", Kind::Plain(Shape::Alu(AluOp::Add))),
    ("sub", Kind::Plain(Shape::Alu(AluOp::Sub))),
    ("sll", Kind::Plain(Shape::Alu(AluOp::ShiftLeft))),
    ("slt", Kind::Plain(Shape::Alu(AluOp::SetLess))),
    ("sltu", Kind::Plain(Shape::Alu(AluOp::SetLessUnsigned))),
    ("xor", Kind::Plain(Shape::Alu(AluOp::Xor))),
    ("srl", Kind::Plain(Shape::Alu(AluOp::ShiftRight))),
    ("sra", Kind::Plain(Shape::Alu(AluOp::ShiftRightArithmetic))),
    ("or", Kind::Plain(Shape::Alu(AluOp::Or))),
    ("and", Kind::Plain(Shape::Alu(AluOp::And))),
    ("addw", Kind::Plain(Shape::AluWord(WordOp::Add))),
    ("subw", Kind::Plain(Shape::AluWord(WordOp::Sub))),
    ("sllw", Kind::Plain(Shape::AluWord(WordOp::ShiftLeft))),
    ("srlw", Kind::Plain(Shape::AluWord(WordOp::ShiftRight))),
    (
        "sraw",
        Kind::Plain(Shape::AluWord(WordOp::ShiftRightArithmetic)),
    ),
    ("nop", Kind::Plain(Shape::Nop)),
    ("mv", Kind::Plain(Shape::Mv)),
    ("not", Kind::Plain(Shape::Not)),
    ("neg", Kind::Plain(Shape::Neg)),
    ("seqz", Kind::Plain(Shape::Seqz)),
    ("snez", Kind::Plain(Shape::Snez)),
    ("jr", Kind::Plain(Shape::Jr)),
    ("ret", Kind::Plain(Shape::Ret)),
    ("beqz", Kind::BranchZero(BranchCondition::Equal)),
    ("bnez", Kind::BranchZero(BranchCondition::NotEqual)),
    ("j", Kind::J),
];

/// The names of registers.
const REGISTERS: [(&str, u8); 65] = [
    ("x0", 0),
    ("x1", 1),
    ("x2", 2),
    ("x3", 3),
    ("x4", 4),
    ("x5", 5),
    ("x6", 6),
    ("x7", 7),
    ("x8", 8),
    ("x9", 9),
    ("x10", 10),
    ("x11", 11),
    ("x12", 12),
    ("x13", 13),
    ("x14", 14),
    ("x15", 15),
    ("x16", 16),
    ("x17", 17),
    ("x18", 18),
    ("x19", 19),
    ("x20", 20),
    ("x21", 21),
    ("x22", 22),
    ("x23", 23),
    ("x24", 24),
    ("x25", 25),
    ("x26", 26),
    ("x27", 27),
    ("x28", 28),
    ("x29", 29),
    ("x30", 30),
    ("x31", 31),
    ("zero", 0),
    ("ra", 1),
    ("sp", 2),
    ("gp", 3),
    ("tp", 4),
    ("t0", 5),
    ("t1", 6),
    ("t2", 7),
    ("s0", 8),
    ("fp", 8),
    ("s1", 9),
    ("a0", 10),
    ("a1", 11),
    ("a2", 12),
    ("a3", 13),
    ("a4", 14),
    ("a5", 15),
    ("a6", 16),
    ("a7", 17),
    ("s2", 18),
    ("s3", 19),
    ("s4", 20),
    ("s5", 21),
    ("s6", 22),
    ("s7", 23),
    ("s8", 24),
    ("s9", 25),
    ("s10", 26),
    ("s11", 27),
    ("t3", 28),
    ("t4", 29),
    ("t5", 30),
    ("t6", 31),
];

/// The sets of a fence: i is 8, o is 4, r is 2, w is 1.
const FENCE_SETS: [(&str, u8); 15] = [
    ("w", 1),
    ("r", 2),
    ("rw", 3),
    ("o", 4),
    ("ow", 5),
    ("or", 6),
    ("orw", 7),
    ("i", 8),
    ("iw", 9),
    ("ir", 10),
    ("irw", 11),
    ("io", 12),
    ("iow", 13),
    ("ior", 14),
    ("iorw", 15),
];

/// What stands beside the word.
fn row_of<T: Copy>(rows: &[(&str, T)], word: &[u8]) -> Option<T>
    ensures { result ≡ lookup word.now (map (λ r. (r.0.now, r.1)) rows.now) }
{
    for row in rows {
        if row.0.as_bytes() == word {
            return Some(row.1);
        }
    }
    None
}

pub fn kind_of(word: &[u8]) -> Option<Kind>
    ensures { result ≡ spec.kind_of word.now }
{
    row_of(&KINDS, word)
}

/// The number of a register.
fn register_number(word: &[u8]) -> Option<u8>
    ensures { result ≡ spec.register_of word.now }
{
    row_of(&REGISTERS, word)
}

pub fn register_of(word: &[u8]) -> Option<Register>
    ensures { result ≡ spec.register_of word.now }
{
    let index = register_number(word)?;
    Some(Register::new(index))
}

pub fn fence_set_of(word: &[u8]) -> Option<u8>
    ensures { result ≡ spec.fence_set_of word.now }
{
    row_of(&FENCE_SETS, word)
}
