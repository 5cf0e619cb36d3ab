//! Whole texts: what they assemble to, and how they are refused.

use crate::equal::assert_equal;
use crate::shown_words;
use rv64_asm::{AsmFault, Labels, LineFault, Program, assemble, show};
use rv64_decode::decode;
use std::alloc::Global;
use std::process::Abort;

const A1: LineFault = LineFault::UnknownWord;

const A2: LineFault = LineFault::OperandForm;

const A3: LineFault = LineFault::OutOfRange;

const A4: LineFault = LineFault::UnknownLabel;

const A5: LineFault = LineFault::LabelTwice;

const A6: LineFault = LineFault::OffsetOutOfRange;

const A7: LineFault = LineFault::TooManyPages;

/// A text is refused by this fault of this line.
fn refuses(rt: &(impl Abort + AllocGlobal), text: &str, fault: LineFault, line: usize) {
    let refusal = Some(AsmFault::At { fault, line });
    assert_equal(
        rt,
        (text, assemble(rt.alloc(), text).err()),
        (text, refusal),
    );
}

/// A text gives these words and these bytes.
fn gives(rt: &(impl Abort + AllocGlobal), text: &str, words: &[u32], bytes: &[u8]) {
    let Ok(assembly) = assemble(rt.alloc(), text) else {
        panic!(rt; "refused: {text:?}");
    };
    let program = &assembly.program;
    assert_equal(
        rt,
        (text, program.words(), program.bytes()),
        (text, words, bytes),
    );
    drop(assembly);
}

/// The examples of the two forms of countdown: a body that always returns A8 fails here.
#[test]
fn countdown_assembles(rt: HostRuntime) {
    let words = [0x00A0_0293, 0xFFF2_8293, 0xFE02_9EE3, 0x0000_0073];
    let text = ".word 0x00A00293\n.word 0xFFF28293\n.word 0xFE029EE3\n.word 0x00000073\n";
    gives(&rt, text, &words, &[]);
    let text = "addi x5, x0, 10\nloop: addi x5, x5, -1\nbne x5, x0, loop\necall\n";
    gives(&rt, text, &words, &[]);
}

/// Lines of one word.
const LINES: &[(&str, u32)] = &[
    // numbers
    (".word 0", 0),
    (".word 0\r\n", 0),
    ("\t.word \t7 # seven\n\n", 7),
    (".word -0\n", 0),
    (".word 007\n", 7),
    (".word 0xaBcD\n", 0xabcd),
    (".word -1\n", 0xffff_ffff),
    (".word -2147483648\n", 0x8000_0000),
    (".word 4294967295\n", 0xffff_ffff),
    (".word -0x80000000\n", 0x8000_0000),
    // each form, put together by hand from the fields of the standard
    ("lui x5, 0x80000", 0x8000_02B7),
    ("auipc x5, 1", 0x0000_1297),
    ("jal ra, 0x10008", 0x0080_00EF),
    ("jalr x0, 0(x1)", 0x0000_8067),
    ("jalr x1, x5, -4", 0xFFC2_80E7),
    ("beq x5, x6, 0x10010", 0x0062_8863),
    ("bgeu t0, t1, 65544", 0x0062_F463),
    ("lb x7, -1(x5)", 0xFFF2_8383),
    ("lwu x7 , 0x10(x5)", 0x0102_E383),
    ("ld a0,8(sp)", 0x0081_3503),
    ("sb x6, 0(x5)", 0x0062_8023),
    ("sd s11, -8(fp)", 0xFFB4_3C23),
    ("addi x0, x0, 0", 0x0000_0013),
    ("sltiu x5, x5, 1", 0x0012_B293),
    ("slli x5, x5, 63", 0x03F2_9293),
    ("srai x5, x5, 1", 0x4012_D293),
    ("sraiw x5, x5, 31", 0x41F2_D29B),
    ("addiw x5, x5, -1", 0xFFF2_829B),
    ("sub x5, x6, x7", 0x4073_02B3),
    ("and t6, s2, a7", 0x0119_7FB3),
    ("sraw x5, x6, x7", 0x4073_52BB),
    ("fence", 0x0FF0_000F),
    ("fence rw, rw", 0x0330_000F),
    ("fence iorw, w", 0x0F10_000F),
    ("ecall", 0x0000_0073),
    ("ebreak", 0x0010_0073),
    // labels and blanks
    ("a:nop", 0x13),
    ("ra: beq x0, x0, ra", 0x0000_0063),
    ("addi: addi t0 ,\tt1,1", 0x0013_0293),
    // the furthest targets
    ("beq x0, x0, 0x10ffe", 0x7e00_0fe3),
    ("beq x0, x0, 0xf000", 0x8000_0063),
    ("j 0x10fffe", 0x7fff_f06f),
    ("jal x1, 0xffffffffffff0000", 0x800e_00ef),
];

#[test]
fn lines_of_one_word(rt: HostRuntime) {
    for (text, word) in LINES {
        gives(&rt, text, &[*word], &[]);
    }
}

const DATA: &str =
    ".data\n.byte -1\n.half 0x1234\n.word -2\n.dword 0x1122334455667788\n.zero 2\n.byte 255\n.text\necall\n";

#[test]
fn data_and_blank_lines(rt: HostRuntime) {
    let bytes = [
        0xff, 0x34, 0x12, 0xfe, 0xff, 0xff, 0xff, 0x88, 0x77, 0x66, 0x55, 0x44, 0x33, 0x22, 0x11,
        0, 0, 0xff,
    ];
    gives(&rt, DATA, &[0x73], &bytes);
    for text in [
        "",
        "\n",
        "# nothing\n \t # here\n\r\n",
        ".data\n.text\n.data\n",
    ] {
        gives(&rt, text, &[], &[]);
    }
}

/// Pseudo-instructions and the instructions that they stand for.
const PSEUDO_INSTRUCTIONS: &[(&str, &str)] = &[
    ("nop", "addi x0, x0, 0"),
    ("mv x5, x6", "addi x5, x6, 0"),
    ("not x5, x6", "xori x5, x6, -1"),
    ("neg x5, x6", "sub x5, x0, x6"),
    ("seqz x5, x6", "sltiu x5, x6, 1"),
    ("snez x5, x6", "sltu x5, x0, x6"),
    ("beqz x5, 0x10004", "beq x5, x0, 0x10004"),
    ("bnez x5, 0x10004", "bne x5, x0, 0x10004"),
    ("j 0x10004", "jal x0, 0x10004"),
    ("jr x5", "jalr x0, 0(x5)"),
    ("ret", "jalr x0, 0(x1)"),
];

/// The word of a line.
fn word_of(alloc: Global, line: &str) -> Option<u32> {
    let assembly = assemble(alloc, line).ok()?;
    let word = match assembly.program.words() {
        [word] => Some(*word),
        _ => None,
    };
    drop(assembly);
    word
}

#[test]
fn pseudo_instructions(rt: HostRuntime) {
    for (short, long) in PSEUDO_INSTRUCTIONS {
        let words = [word_of(rt.alloc(), short), word_of(rt.alloc(), long)];
        assert!(rt; words[0] == words[1] && words[0].is_some(), "{short}");
    }
}

/// Faults and texts that are refused by them, in their first lines.
const REFUSED: &[(LineFault, &[&str])] = &[
    (
        A1,
        &[
            "halt",
            "nop\r",
            "nop\r\r\n",
            "a: b: nop",
            "a : nop",
            "9: nop",
            ".L1: nop",
            "addi,x5,x0,1",
            ".word,1",
            ".align 2",
            "li x5, 1",
            "call f",
            "ADDI x5, x0, 1",
            "\u{feff}nop",
            "\u{c}nop",
        ],
    ),
    (
        A2,
        &[
            ".word 0\r",
            "addi x5 x0 1",
            "addi x5,x0,1,",
            "nop ,",
            "nop x0",
            "ecall x1",
            "ld x7, 0 (x5)",
            "ld x7, 0( x5 )",
            "ld x7, (x5)",
            "ld x7, 0(x5",
            "ld x7, 0(x5)0",
            "addi x5, x0, +1",
            "addi x5, x0, 0X10",
            "addi x5, x0, 0x",
            "addi x5, x0, - 1",
            "addi x5, x0, --1",
            "mv x05, x0",
            "mv x32, x0",
            "mv X5, x0",
            "j 5x",
            "beq x0, x0, .L",
            "addi x5, x99, 5000",
            "ld x99, 5000(x5)",
            "ld x5, 5000(x99)",
            "jal 0x10000",
            "jalr x5",
            "fence rw",
            "fence wr, rw",
            "fence rw, ",
            ".byte 300",
            ".zero 1",
            ".word 1, 2",
            ".word foo",
            ".word",
            ".text x",
            "jal loop",
        ],
    ),
    (
        A3,
        &[
            ".word -2147483649",
            ".word 4294967296",
            ".word 99999999999999999999999999999999999999999999999",
            "addi x5, x0, 2048",
            "addi x5, x0, -2049",
            "sd x5, 2048(x0)",
            "slli x5, x5, 64",
            "slli x5, x5, -1",
            "slliw x5, x5, 32",
            "lui x5, 1048576",
            "auipc x5, -1",
            "jal x0, -4",
            "jal x0, 18446744073709551616",
        ],
    ),
    (
        A6,
        &[
            "beq x0, x0, 0x10001",
            "jal x0, 1114112",
            "beq x0, x0, 0x11000",
        ],
    ),
];

#[test]
fn refused_in_the_first_line(rt: HostRuntime) {
    for (fault, texts) in REFUSED {
        for text in *texts {
            refuses(&rt, text, *fault, 1);
        }
    }
}

/// Texts, and the fault and the line that they are refused by. A1, A2, A3, A5 and A7 come before A4 and A6,
/// whatever the lines.
const REFUSED_LATER: &[(&str, LineFault, usize)] = &[
    ("a: nop\na: halt", A1, 2),
    (".data\naddi x5, x0, 99999", A2, 2),
    (".data\nj 0x10000", A2, 2),
    (".data\n.byte -129", A3, 2),
    (".data\n.byte 256", A3, 2),
    (".data\n.half -32769", A3, 2),
    (".data\n.half 65536", A3, 2),
    (".data\n.dword -9223372036854775809", A3, 2),
    (".data\n.dword 18446744073709551616", A3, 2),
    (".data\n.zero 1048577", A3, 2),
    (".data\n.zero -1", A3, 2),
    ("nop\nj nowhere\nbeq x0, x0, elsewhere\n", A4, 2),
    ("j 0\nj a", A4, 2),
    ("a:\na: nop\n", A5, 2),
    ("a:\na: addi x5, x0, 5000\n", A3, 2),
    ("j nowhere\nhalt\n", A1, 2),
    ("j 0x10001\na:\na:\n", A5, 3),
    (".data\n.zero 1048576\n.byte 0\n", A7, 3),
    (".data\n.zero 1048576\na: a: .byte 0\n", A1, 3),
    ("a: .data\n.zero 1048573\na: .word 0\n", A5, 3),
];

#[test]
fn refused_in_a_later_line(rt: HostRuntime) {
    for (text, fault, line) in REFUSED_LATER {
        refuses(&rt, text, *fault, *line);
    }
}

/// Faults of lines, as they are printed.
const PRINTED: &[(LineFault, &str)] = &[
    (LineFault::UnknownWord, "A1"),
    (LineFault::OperandForm, "A2"),
    (LineFault::OutOfRange, "A3"),
    (LineFault::UnknownLabel, "A4"),
    (LineFault::LabelTwice, "A5"),
    (LineFault::OffsetOutOfRange, "A6"),
    (LineFault::TooManyPages, "A7"),
];

#[test]
fn printed_faults(rt: HostRuntime) {
    for (fault, code) in PRINTED {
        let printed = format!(in rt.alloc(); "{fault}").expect(&rt, "memory");
        assert_equal(&rt, printed.as_str(), *code);
    }
    let refusal = AsmFault::At { fault: A1, line: 2 };
    let printed = format!(in rt.alloc(); "{refusal}, {}", AsmFault::OutOfMemory);
    assert_equal(&rt, printed.expect(&rt, "memory").as_str(), "A1 line 2, A8");
}

#[test]
fn programs(rt: HostRuntime) {
    let words = [1, 2].to_vec(rt.alloc()).expect(&rt, "memory");
    let bytes = [3].to_vec(rt.alloc()).expect(&rt, "memory");
    let program = Program::new(words, bytes);
    assert_equal(&rt, (program.words(), program.bytes()), (&[1, 2], &[3]));
    let (words, bytes) = program.into_parts();
    assert_equal(&rt, (words.as_slice(), bytes.as_slice()), (&[1, 2], &[3]));
}

/// Labels in both parts, two of them with one address.
const LABELLED: &str = "start: nop\nfoo: .data\nbar: .byte 1\n_b.1:\n.text\nend: j foo\n";

/// Its labels, in order.
const LABELS: &[(&str, u64)] = &[
    ("start", 0x10000),
    ("foo", 0x10004),
    ("bar", 0x10_0000),
    ("_b.1", 0x10_0001),
    ("end", 0x10004),
];

/// Whether labels are these in order, each found by its name.
fn are_labels(labels: &Labels, wanted: &[(&str, u64)]) -> bool {
    for ((name, address), (its_name, its_address)) in labels.iter().zip(wanted) {
        let found = labels.get(*its_name) == Some(*its_address);
        if !found || name != its_name.as_bytes() || address != *its_address {
            return false;
        }
    }
    labels.len() == wanted.len() && !labels.is_empty()
}

#[test]
fn labels_in_order(rt: HostRuntime) {
    let Ok(assembly) = assemble(rt.alloc(), LABELLED) else {
        panic!(rt; "refused");
    };
    let words = assembly.program.words() == [0x13, 0x6f].as_slice();
    let none = assembly.labels.get("none");
    assert!(rt; words && none == None && are_labels(&assembly.labels, LABELS));
    drop(assembly);
}

/// How many words and bytes a program has, where all words are this one and all bytes 0.
fn lengths_of(program: &Program, word: u32) -> Option<[usize; 2]> {
    for it in program.words() {
        if *it != word {
            return None;
        }
    }
    for it in program.bytes() {
        if *it != 0 {
            return None;
        }
    }
    Some([program.words().len(), program.bytes().len()])
}

/// How many words, bytes and labels a text gives, where all words are this one and all bytes 0.
fn sizes_of(alloc: Global, text: &str, word: u32) -> Option<[usize; 3]> {
    let assembly = assemble(alloc, text).ok()?;
    let lengths = lengths_of(&assembly.program, word);
    let labels = assembly.labels.len();
    drop(assembly);
    let [words, bytes] = lengths?;
    Some([words, bytes, labels])
}

#[test]
fn full_text_and_full_data(rt: HostRuntime) {
    let zeros = ".data\n.zero 1048576\n.zero 0\n";
    let zeros = sizes_of(rt.alloc(), zeros, 0);
    let mut text = String::new(rt.alloc());
    for _ in 0..65536 {
        text.push_str(".word 0x00000013\n").expect(&rt, "memory");
    }
    let words = sizes_of(rt.alloc(), &text, 0x13);
    assert_equal(&rt, zeros, Some([0, 1_048_576, 0]));
    assert_equal(&rt, words, Some([65536, 0, 0]));
    text.push_str(".word 0x00000013\n").expect(&rt, "memory");
    refuses(&rt, &text, A7, 65537);
}

/// Each label is defined and looked up once: time is linear in the text.
#[test]
fn many_labels(rt: HostRuntime) {
    let mut text = String::new(rt.alloc());
    for line in 0..65536 {
        write!(text, "l{line}: bne x5, x0, l{line} # goes nowhere\n").expect(&rt, "memory");
    }
    let sizes = sizes_of(rt.alloc(), &text, 0x0002_9063);
    assert_equal(&rt, sizes, Some([65536, 0, 65536]));
}

/// Words, where they stand, and the lines that show them.
const SHOWN: &[(u32, u64, &str)] = &[
    (0x00A0_0293, 0x10000, "addi x5, x0, 10"),
    (0xFFF2_8293, 0x10004, "addi x5, x5, -1"),
    (0xFE02_9EE3, 0x10008, "bne x5, x0, 0x10004"),
    (0xFE02_9EE3, 0, "bne x5, x0, 0xfffffffffffffffc"),
    (0x0000_0073, 0x1000c, "ecall"),
    (0x0010_0073, 0x10000, "ebreak"),
    (0x8000_02B7, 0x10000, "lui x5, 0x80000"),
    (0x0000_1297, 0x10000, "auipc x5, 0x1"),
    (0x0080_00EF, 0x10000, "jal x1, 0x10008"),
    (0x0000_8067, 0x10000, "jalr x0, 0(x1)"),
    (0x0102_E383, 0x10000, "lwu x7, 16(x5)"),
    (0xFFB4_3C23, 0x10000, "sd x27, -8(x8)"),
    (0x0000_0013, 0x10000, "addi x0, x0, 0"),
    (0x4012_D293, 0x10000, "srai x5, x5, 1"),
    (0x41F2_D29B, 0x10000, "sraiw x5, x5, 31"),
    (0xFFF2_829B, 0x10000, "addiw x5, x5, -1"),
    (0x4073_02B3, 0x10000, "sub x5, x6, x7"),
    (0x4073_52BB, 0x10000, "sraw x5, x6, x7"),
    (0x0FF0_000F, 0x10000, "fence"),
    (0x0330_000F, 0x10000, ".word 0x0330000f"),
    (0x0000_000F, 0x10000, ".word 0x0000000f"),
    (0xFFF2_8F8F, 0x10000, ".word 0xfff28f8f"),
];

/// A word is shown by this line, which gives it again where it is shown for the start of the text.
fn is_shown(rt: &(impl Abort + AllocGlobal), word: u32, pc: u64, line: &str) {
    let insn = decode(word).expect(rt, "an instruction");
    let shown = show(rt.alloc(), &insn, pc).expect(rt, "memory");
    assert_equal(rt, shown.as_str(), line);
    if pc == 0x10000 {
        gives(rt, line, &[word], &[]);
        let again = shown_words(rt.alloc(), &insn).expect(rt, "memory");
        assert_equal(rt, (line, again.as_slice()), (line, &[word]));
    }
}

#[test]
fn shown_lines(rt: HostRuntime) {
    for (word, pc, line) in SHOWN {
        is_shown(&rt, *word, *pc, line);
    }
}
