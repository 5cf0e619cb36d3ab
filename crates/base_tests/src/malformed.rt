//! Texts that are put together and then changed at random, from a fixed seed: each is assembled
//! twice to the same, or is refused twice by the same fault of one of its lines.

ghost use Rattle.std.specs.Prelude.{◌<◌};

use rv64_asm::{AsmFault, Assembly, assemble};
use std::alloc::Global;
use std::process::Abort;
use std::str;

/// The words and the operands of lines of every form.
const LINES: [(&str, &str); 40] = [
    ("addi", "x5, x0, 10"),
    ("xori", "t0, t1, -2048"),
    ("addiw", "s0, fp, 2047"),
    ("slli", "x5, x5, 63"),
    ("sraiw", "x5, x5, 31"),
    ("add", "t0, t1, s11"),
    ("subw", "x31, x0, zero"),
    ("lb", "a0, -1(sp)"),
    ("ld", "x7 , 8(x5)"),
    ("sb", "x6, 0x10(gp)"),
    ("sd", "x6, 2047(tp)"),
    ("lui", "x5, 0xFFFFF"),
    ("auipc", "ra, 0"),
    ("jalr", "x1, 0(x5)"),
    ("jalr", "x0, ra, -4"),
    ("beq", "x5, x6, near"),
    ("bgeu", "x5, x6, 0x10010"),
    ("jal", "ra, far"),
    ("jal", "x0, 65536"),
    ("fence", ""),
    ("fence", "iorw, w"),
    ("ecall", ""),
    ("ebreak", "# stops"),
    ("nop", ""),
    ("mv", "a0, a1"),
    ("not", "a0, a1"),
    ("seqz", "x5, x6"),
    ("beqz", "x5, near"),
    ("j", "near"),
    ("jr", "ra"),
    ("ret", "\r"),
    (".text", ""),
    (".data", ""),
    (".word", "-2147483648"),
    (".byte", "255"),
    (".half", "-32768"),
    (".dword", "18446744073709551615"),
    (".zero", "4096"),
    ("near:", "nop"),
    ("far:", "\t# the end"),
];

/// Bytes that mean something in a text, and some that don't.
const BYTES: [u8; 24] = *b"#,:()-0x19af_. \t\r\nsX+~/\x7f";

/// Marsaglia's generator of 64 bits.
#[derive(Drop)]
struct Xorshift {
    state: u64,
}

impl Xorshift {
    fn next(&mut self) -> u64 {
        self.state ^= self.state << 13;
        self.state ^= self.state >> 7;
        self.state ^= self.state << 17;
        self.state
    }

    /// A number below the bound.
    fn below(&mut self, bound: usize) -> usize
        requires { 0 < bound }
        ensures { result < bound }
    {
        (self.next() % bound as u64) as usize
    }
}

/// Adds a line: the word of one of the lines, with its operands or those of another.
fn push_line(rt: &impl Abort, text: &mut Vec<u8>, numbers: &mut Xorshift) {
    let word = numbers.below(LINES.len());
    let other = numbers.below(LINES.len());
    let operands = if numbers.below(8) == 0 { other } else { word };
    for part in [LINES[word].0, " ", LINES[operands].1, "\n"] {
        text.extend_from_slice(part.as_bytes()).expect(rt, "memory");
    }
}

/// Deletes, doubles, exchanges or changes a byte, or cuts the text off before it.
fn change(rt: &impl Abort, text: &mut Vec<u8>, numbers: &mut Xorshift) {
    if text.is_empty() {
        return;
    }
    let place = numbers.below(text.len());
    let other = numbers.below(text.len());
    match numbers.below(8) {
        0 | 1 => {
            text.remove(place);
        }
        2 | 3 => text.insert(place, text[place]).expect(rt, "memory"),
        4 => text.swap(place, other),
        5 | 6 => text[place] = BYTES[numbers.below(BYTES.len())],
        _ => text.truncate(place),
    }
}

/// A text of one to eight lines, with none to three changes.
fn next_text(rt: &impl Abort, alloc: Global, numbers: &mut Xorshift) -> Vec<u8> {
    let mut text = Vec::new(alloc);
    for _ in 0..numbers.below(8) + 1 {
        push_line(rt, &mut text, numbers);
    }
    for _ in 0..numbers.below(4) {
        change(rt, &mut text, numbers);
    }
    text
}

/// Whether two assemblies are equal.
fn are_same(left: &Assembly, right: &Assembly) -> bool {
    left.program.words() == right.program.words()
        && left.program.bytes() == right.program.bytes()
        && left.labels.iter().eq(right.labels.iter())
}

/// Whether a text that is assembled to this is assembled again to the same.
fn is_accepted_again(alloc: Global, text: &str, first: &Assembly) -> bool {
    match assemble(alloc, text) {
        Ok(again) => {
            let same = are_same(first, &again);
            drop(again);
            same
        }
        Err(_) => false,
    }
}

/// Whether a text that is refused by this fault is refused again by it, and it is of one of its lines.
fn is_refused_again(alloc: Global, text: &str, first: AsmFault) -> bool {
    let AsmFault::At { line, .. } = first else {
        return false;
    };
    1 <= line && line <= text.lines().count() && assemble(alloc, text).err() == Some(first)
}

/// Whether a text is accepted, both times.
fn is_accepted(rt: &impl Abort, alloc: Global, text: &str) -> bool {
    match assemble(alloc, text) {
        Ok(assembly) => {
            assert!(rt; is_accepted_again(alloc, text, &assembly), "{text:?}");
            drop(assembly);
            true
        }
        Err(fault) => {
            assert!(rt; is_refused_again(alloc, text, fault), "{text:?}");
            false
        }
    }
}

#[test]
fn changed_texts(rt: HostRuntime) {
    let mut numbers = Xorshift {
        state: 0x9E37_79B9_7F4A_7C15,
    };
    let mut accepted = 0u32;
    for _ in 0..1000 {
        let bytes = next_text(&rt, rt.alloc(), &mut numbers);
        let text = str::from_utf8(&bytes).expect(&rt, "a text");
        if is_accepted(&rt, rt.alloc(), text) {
            accepted = accepted.wrapping_add(1);
        }
        drop(bytes);
    }
    assert!(rt; 100 < accepted && accepted < 900, "{accepted}");
}
