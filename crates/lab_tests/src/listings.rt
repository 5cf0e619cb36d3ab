//! The listings that `asm` writes. The words are those of the standard's encoding.

use crate::devices::{answer, assert_answer, repeated};
use lab_commands::run::Request;
use std::alloc::Global;
use std::process::Abort;

pub const LISTED: Request<'_> = Request::Asm { file: "in" };

/// Every kind of line, and labels in both parts.
pub const PROGRAM: &str = "addi x5, x0, 10 # turns\nloop: addi t0, t0, -1\r\nbnez x5, loop\n\
    lui s0, 0x100\nlb a0, -1(s0)\nsd a0, 8(x8)\nfence\nfence rw, rw\nret\nj loop\nsrai x1, x2, 63\n\
    ebreak\n.word 0\n.word -1\necall\n.data\nlast: .byte 1\n.dword 2\n.zero 3\n";

const LISTING: &str = "0000000000010000 00a00293 addi x5, x0, 10\n\
    0000000000010004 fff28293 addi x5, x5, -1\n\
    0000000000010008 fe029ee3 bne x5, x0, 0x10004\n\
    000000000001000c 00100437 lui x8, 0x100\n\
    0000000000010010 fff40503 lb x10, -1(x8)\n\
    0000000000010014 00a43423 sd x10, 8(x8)\n\
    0000000000010018 0ff0000f fence\n\
    000000000001001c 0330000f .word 0x0330000f\n\
    0000000000010020 00008067 jalr x0, 0(x1)\n\
    0000000000010024 fe1ff06f jal x0, 0x10004\n\
    0000000000010028 43f15093 srai x1, x2, 63\n\
    000000000001002c 00100073 ebreak\n\
    0000000000010030 00000000 .word 0x00000000\n\
    0000000000010034 ffffffff .word 0xffffffff\n\
    0000000000010038 00000073 ecall\n\
    data 12\n";

/// Texts and their listings.
const LISTINGS: &[(&str, &str)] = &[
    (PROGRAM, LISTING),
    ("", "data 0\n"),
    (".data\n.zero 1048576\n", "data 1048576\n"),
    (
        ".word 0\n",
        "0000000000010000 00000000 .word 0x00000000\ndata 0\n",
    ),
];

#[test]
fn listings(rt: HostRuntime) {
    let alloc = rt.alloc();
    for (text, listing) in LISTINGS {
        assert_answer(&rt, &alloc, LISTED, "in", text.as_bytes(), &[*listing]);
    }
}

/// What a listing shows of its words, a line each.
fn shown(rt: &impl Abort, alloc: Global, listing: &str) -> String {
    let mut text = String::new(alloc);
    for line in listing.lines() {
        if let Some((_, shown)) = line.split_at_checked(26) {
            write!(text, "{shown}\n").expect(rt, "memory");
        }
    }
    text
}

#[test]
fn listing_of_a_listing(rt: HostRuntime) {
    let alloc = rt.alloc();
    let text = shown(&rt, alloc, LISTING);
    let words = LISTING.trim_end_matches("data 12\n");
    let bytes = text.as_str().as_bytes();
    assert_answer(&rt, &alloc, LISTED, "in", bytes, &[words, "data 0\n"]);
}

#[test]
fn listing_of_a_full_text(rt: HostRuntime) {
    let alloc = rt.alloc();
    let text = repeated(&rt, alloc, "nop\n", 65536);
    let listing = answer(&rt, &alloc, LISTED, "in", text.as_str().as_bytes());
    let end = "\n000000000004fffc 00000013 addi x0, x0, 0\ndata 0\n";
    assert!(rt; listing.len() == 65536 * 41 + 7 && listing.as_str().ends_with(end));
}
