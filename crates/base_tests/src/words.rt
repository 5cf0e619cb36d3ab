//! Words both ways, at least one of each of the 52 instructions, and words that spell none. The words
//! of the instructions are those that LLVM's assembler gives.

ghost use Rattle.std.specs.Prelude.{◌≡◌, pos, negsuc, ◌<◌, ◌≤ℤ◌, ◌%◌, unsigned_abs};

use crate::equal::assert_equal;
use rv64_decode::{
    AluOp, BranchCondition, BranchOffset, FenceBits, ImmOp, Immediate, Insn, JumpOffset, LoadKind,
    Register, ShiftAmount, ShiftOp, StoreWidth, UpperImmediate, WordOp, WordShiftAmount, decode,
    encode,
};
use std::process::Abort;

/// Each word is its instruction's, and gives it back.
fn agree(rt: &impl Abort, table: &[(u32, Insn)]) {
    for &(word, insn) in table {
        let encoded = encode(&insn);
        assert_equal(rt, (decode(word), encoded), (Some(insn), word));
    }
}

fn branch(condition: BranchCondition, rs1: u8, rs2: u8, offset: i16) -> Insn
    requires rs1 { rs1 < 32 }
    requires rs2 { rs2 < 32 }
    requires low { negsuc 4095 ≤ℤ offset }
    requires high { offset ≤ℤ pos 4094 }
    requires even { unsigned_abs offset % 2 ≡ 0 }
{
    Insn::Branch {
        condition,
        rs1: Register::new(rs1),
        rs2: Register::new(rs2),
        offset: BranchOffset::new(offset),
    }
}

fn load(kind: LoadKind, rd: u8, immediate: i16, rs1: u8) -> Insn
    requires rd { rd < 32 }
    requires low { negsuc 2047 ≤ℤ immediate }
    requires high { immediate ≤ℤ pos 2047 }
    requires rs1 { rs1 < 32 }
{
    Insn::Load {
        kind,
        rd: Register::new(rd),
        rs1: Register::new(rs1),
        immediate: Immediate::new(immediate),
    }
}

fn store(width: StoreWidth, rs2: u8, immediate: i16, rs1: u8) -> Insn
    requires rs2 { rs2 < 32 }
    requires low { negsuc 2047 ≤ℤ immediate }
    requires high { immediate ≤ℤ pos 2047 }
    requires rs1 { rs1 < 32 }
{
    Insn::Store {
        width,
        rs1: Register::new(rs1),
        rs2: Register::new(rs2),
        immediate: Immediate::new(immediate),
    }
}

fn imm(op: ImmOp, rd: u8, rs1: u8, immediate: i16) -> Insn
    requires rd { rd < 32 }
    requires rs1 { rs1 < 32 }
    requires low { negsuc 2047 ≤ℤ immediate }
    requires high { immediate ≤ℤ pos 2047 }
{
    Insn::Imm {
        op,
        rd: Register::new(rd),
        rs1: Register::new(rs1),
        immediate: Immediate::new(immediate),
    }
}

fn shift(op: ShiftOp, rd: u8, rs1: u8, amount: u8) -> Insn
    requires rd { rd < 32 }
    requires rs1 { rs1 < 32 }
    requires amount { amount < 64 }
{
    Insn::ShiftImm {
        op,
        rd: Register::new(rd),
        rs1: Register::new(rs1),
        amount: ShiftAmount::new(amount),
    }
}

fn alu(op: AluOp, rd: u8, rs1: u8, rs2: u8) -> Insn
    requires rd { rd < 32 }
    requires rs1 { rs1 < 32 }
    requires rs2 { rs2 < 32 }
{
    Insn::Alu {
        op,
        rd: Register::new(rd),
        rs1: Register::new(rs1),
        rs2: Register::new(rs2),
    }
}

fn shift_word(op: ShiftOp, rd: u8, rs1: u8, amount: u8) -> Insn
    requires rd { rd < 32 }
    requires rs1 { rs1 < 32 }
    requires amount { amount < 32 }
{
    Insn::ShiftImmWord {
        op,
        rd: Register::new(rd),
        rs1: Register::new(rs1),
        amount: WordShiftAmount::new(amount),
    }
}

fn alu_word(op: WordOp, rd: u8, rs1: u8, rs2: u8) -> Insn
    requires rd { rd < 32 }
    requires rs1 { rs1 < 32 }
    requires rs2 { rs2 < 32 }
{
    Insn::AluWord {
        op,
        rd: Register::new(rd),
        rs1: Register::new(rs1),
        rs2: Register::new(rs2),
    }
}

#[test]
fn upper_immediates_and_jumps(rt: HostRuntime) {
    let table = [
        // lui x5, 0x80000
        (
            0x8000_02B7,
            Insn::Lui {
                rd: Register::new(5),
                immediate: UpperImmediate::new(0x80000),
            },
        ),
        // auipc x31, 0xfffff
        (
            0xFFFF_FF97,
            Insn::Auipc {
                rd: Register::new(31),
                immediate: UpperImmediate::new(0xFFFFF),
            },
        ),
        // jal x1, to 2048 after it
        (
            0x0010_00EF,
            Insn::Jal {
                rd: Register::new(1),
                offset: JumpOffset::new(2048),
            },
        ),
        // jal x0, to 4 before it
        (
            0xFFDF_F06F,
            Insn::Jal {
                rd: Register::new(0),
                offset: JumpOffset::new(-4),
            },
        ),
        // jal x3, to 1048574 after it
        (
            0x7FFF_F1EF,
            Insn::Jal {
                rd: Register::new(3),
                offset: JumpOffset::new(1_048_574),
            },
        ),
        // jalr x0, 0(x1)
        (
            0x0000_8067,
            Insn::Jalr {
                rd: Register::new(0),
                rs1: Register::new(1),
                immediate: Immediate::new(0),
            },
        ),
        // jalr x5, -2048(x6)
        (
            0x8003_02E7,
            Insn::Jalr {
                rd: Register::new(5),
                rs1: Register::new(6),
                immediate: Immediate::new(-2048),
            },
        ),
    ];
    agree(&rt, &table);
}

#[test]
fn branches(rt: HostRuntime) {
    let table = [
        // bne x5, x0, to 4 before it
        (0xFE02_9EE3, branch(BranchCondition::NotEqual, 5, 0, -4)),
        // beq x1, x2, to 2048 after it
        (0x0020_80E3, branch(BranchCondition::Equal, 1, 2, 2048)),
        // blt x3, x4, to 4096 before it
        (0x8041_C063, branch(BranchCondition::Less, 3, 4, -4096)),
        // bge x5, x6, to 4094 after it
        (0x7E62_DFE3, branch(BranchCondition::NotLess, 5, 6, 4094)),
        // bltu x7, x8, to 16 after it
        (0x0083_E863, branch(BranchCondition::LessUnsigned, 7, 8, 16)),
        // bgeu x9, x10, to 2 before it
        (
            0xFEA4_FFE3,
            branch(BranchCondition::NotLessUnsigned, 9, 10, -2),
        ),
    ];
    agree(&rt, &table);
}

#[test]
fn loads(rt: HostRuntime) {
    let table = [
        // lb x1, -1(x2)
        (0xFFF1_0083, load(LoadKind::Byte, 1, -1, 2)),
        // lh x3, 2047(x4)
        (0x7FF2_1183, load(LoadKind::Half, 3, 2047, 4)),
        // lw x5, 4(x6)
        (0x0043_2283, load(LoadKind::Word, 5, 4, 6)),
        // ld x10, 8(x2)
        (0x0081_3503, load(LoadKind::Double, 10, 8, 2)),
        // lbu x7, -2048(x8)
        (0x8004_4383, load(LoadKind::ByteUnsigned, 7, -2048, 8)),
        // lhu x9, 6(x10)
        (0x0065_5483, load(LoadKind::HalfUnsigned, 9, 6, 10)),
        // lwu x11, 12(x12)
        (0x00C6_6583, load(LoadKind::WordUnsigned, 11, 12, 12)),
    ];
    agree(&rt, &table);
}

#[test]
fn stores(rt: HostRuntime) {
    let table = [
        // sb x1, -1(x2)
        (0xFE11_0FA3, store(StoreWidth::Byte, 1, -1, 2)),
        // sh x3, 2047(x4)
        (0x7E32_1FA3, store(StoreWidth::Half, 3, 2047, 4)),
        // sw x10, -20(x8)
        (0xFEA4_2623, store(StoreWidth::Word, 10, -20, 8)),
        // sd x1, 8(x2)
        (0x0011_3423, store(StoreWidth::Double, 1, 8, 2)),
    ];
    agree(&rt, &table);
}

#[test]
fn register_and_immediate(rt: HostRuntime) {
    let table = [
        // addi x0, x0, 0
        (0x0000_0013, imm(ImmOp::Add, 0, 0, 0)),
        // addi x5, x0, 10
        (0x00A0_0293, imm(ImmOp::Add, 5, 0, 10)),
        // addi x5, x5, -1
        (0xFFF2_8293, imm(ImmOp::Add, 5, 5, -1)),
        // slti x1, x2, -2048
        (0x8001_2093, imm(ImmOp::SetLess, 1, 2, -2048)),
        // sltiu x3, x4, 2047
        (0x7FF2_3193, imm(ImmOp::SetLessUnsigned, 3, 4, 2047)),
        // xori x5, x6, -1
        (0xFFF3_4293, imm(ImmOp::Xor, 5, 6, -1)),
        // ori x7, x8, 1
        (0x0014_6393, imm(ImmOp::Or, 7, 8, 1)),
        // andi x9, x10, 255
        (0x0FF5_7493, imm(ImmOp::And, 9, 10, 255)),
        // slli x15, x15, 32
        (0x0207_9793, shift(ShiftOp::Left, 15, 15, 32)),
        // srli x1, x2, 1
        (0x0011_5093, shift(ShiftOp::Right, 1, 2, 1)),
        // srai x10, x10, 63
        (0x43F5_5513, shift(ShiftOp::RightArithmetic, 10, 10, 63)),
    ];
    agree(&rt, &table);
}

#[test]
fn two_registers(rt: HostRuntime) {
    let table = [
        // add x1, x2, x3
        (0x0031_00B3, alu(AluOp::Add, 1, 2, 3)),
        // sub x10, x10, x11
        (0x40B5_0533, alu(AluOp::Sub, 10, 10, 11)),
        // sll x4, x5, x6
        (0x0062_9233, alu(AluOp::ShiftLeft, 4, 5, 6)),
        // slt x7, x8, x9
        (0x0094_23B3, alu(AluOp::SetLess, 7, 8, 9)),
        // sltu x10, x11, x12
        (0x00C5_B533, alu(AluOp::SetLessUnsigned, 10, 11, 12)),
        // xor x13, x14, x15
        (0x00F7_46B3, alu(AluOp::Xor, 13, 14, 15)),
        // srl x16, x17, x18
        (0x0128_D833, alu(AluOp::ShiftRight, 16, 17, 18)),
        // sra x19, x20, x21
        (0x415A_59B3, alu(AluOp::ShiftRightArithmetic, 19, 20, 21)),
        // or x22, x23, x24
        (0x018B_EB33, alu(AluOp::Or, 22, 23, 24)),
        // and x25, x26, x27
        (0x01BD_7CB3, alu(AluOp::And, 25, 26, 27)),
    ];
    agree(&rt, &table);
}

#[test]
fn words(rt: HostRuntime) {
    let table = [
        // addiw x15, x15, 1
        (
            0x0017_879B,
            Insn::AddImmWord {
                rd: Register::new(15),
                rs1: Register::new(15),
                immediate: Immediate::new(1),
            },
        ),
        // slliw x10, x10, 1
        (0x0015_151B, shift_word(ShiftOp::Left, 10, 10, 1)),
        // srliw x10, x10, 31
        (0x01F5_551B, shift_word(ShiftOp::Right, 10, 10, 31)),
        // sraiw x15, x15, 31
        (
            0x41F7_D79B,
            shift_word(ShiftOp::RightArithmetic, 15, 15, 31),
        ),
        // addw x15, x15, x14
        (0x00E7_87BB, alu_word(WordOp::Add, 15, 15, 14)),
        // subw x28, x29, x30
        (0x41EE_8E3B, alu_word(WordOp::Sub, 28, 29, 30)),
        // sllw x1, x2, x3
        (0x0031_10BB, alu_word(WordOp::ShiftLeft, 1, 2, 3)),
        // srlw x4, x5, x6
        (0x0062_D23B, alu_word(WordOp::ShiftRight, 4, 5, 6)),
        // sraw x7, x8, x9
        (0x4094_53BB, alu_word(WordOp::ShiftRightArithmetic, 7, 8, 9)),
    ];
    agree(&rt, &table);
}

#[test]
fn fences_and_calls(rt: HostRuntime) {
    let table = [
        // fence
        (
            0x0FF0_000F,
            Insn::Fence {
                rd: Register::new(0),
                rs1: Register::new(0),
                bits: FenceBits::new(0x0FF),
            },
        ),
        // fence rw, rw
        (
            0x0330_000F,
            Insn::Fence {
                rd: Register::new(0),
                rs1: Register::new(0),
                bits: FenceBits::new(0x033),
            },
        ),
        // fence.tso
        (
            0x8330_000F,
            Insn::Fence {
                rd: Register::new(0),
                rs1: Register::new(0),
                bits: FenceBits::new(0x833),
            },
        ),
        // a fence whose reserved rd is x5 and rs1 x6
        (
            0x0FF3_028F,
            Insn::Fence {
                rd: Register::new(5),
                rs1: Register::new(6),
                bits: FenceBits::new(0x0FF),
            },
        ),
        // ecall
        (0x0000_0073, Insn::Ecall),
        // ebreak
        (0x0010_0073, Insn::Ebreak),
    ];
    agree(&rt, &table);
}

#[test]
fn illegal(rt: HostRuntime) {
    let words = [
        // the zero word
        0x0000_0000,
        // all ones
        0xFFFF_FFFF,
        // slliw, srliw and sraiw of a word with bit 25 set
        0x0215_151B,
        0x0215_551B,
        0x4215_551B,
        // srai with a reserved top
        0x4805_5513,
        0xC005_5513,
        // slli with the top of srai
        0x4000_1013,
        // fence.i
        0x0000_100F,
        // csrrw x0, mtvec, x5
        0x3052_9073,
        // csrrs x10, cycle, x0
        0xC000_2573,
        // csrrsi x0, mstatus, 8
        0x3004_6073,
        // mret, wfi, and ecall with an rd
        0x3020_0073,
        0x1050_0073,
        0x0000_00F3,
        // mul x10, x10, x11
        0x02B5_0533,
        // xor with the funct7 of sub
        0x40B5_4533,
        // sllw with the funct7 of subw
        0x4031_10BB,
        // jalr, a branch, a load, a store and an addiw with a funct3 that none has
        0x0000_9067,
        0x0000_2063,
        0x0000_7003,
        0x0000_4023,
        0x0000_201B,
        // lr.d, amoadd.w, flw
        0x1003_32AF,
        0x0021_A0AF,
        0x0001_2087,
        // two compressed nops
        0x0001_0001,
    ];
    for word in words {
        assert_equal(&rt, (word, decode(word)), (word, None));
    }
}

#[test]
fn fields(rt: HostRuntime) {
    let [index, amount] = [Register::new(31).index(), ShiftAmount::new(63).value()];
    let of_word = WordShiftAmount::new(31).value();
    let upper = UpperImmediate::new(0xFFFFF).value();
    let bits = FenceBits::new(0xFFF).value();
    assert_equal(
        &rt,
        (index, amount, of_word, upper, bits),
        (31, 63, 31, 0xFFFFF, 0xFFF),
    );
}

#[test]
fn immediates_and_offsets(rt: HostRuntime) {
    for (value, bits) in [(0, 0), (2047, 0x7FF), (-2048, 0x800), (-1, 0xFFF)] {
        let found = (
            Immediate::new(value).bits(),
            Immediate::from_bits(bits).value(),
        );
        assert_equal(&rt, found, (bits, value));
    }
    for (value, bits) in [(0, 0), (4094, 0x0FFE), (-4096, 0x1000), (-2, 0x1FFE)] {
        let found = (
            BranchOffset::new(value).bits(),
            BranchOffset::from_bits(bits).value(),
        );
        assert_equal(&rt, found, (bits, value));
    }
    for (value, bits) in [
        (0, 0),
        (1_048_574, 0x0F_FFFE),
        (-1_048_576, 0x10_0000),
        (-2, 0x1F_FFFE),
    ] {
        let found = (
            JumpOffset::new(value).bits(),
            JumpOffset::from_bits(bits).value(),
        );
        assert_equal(&rt, found, (bits, value));
    }
}
