//! The blocks that `step` writes. The digests were taken by another program, over the address and
//! the bytes of each page.

use crate::devices::{assert_answer, repeated};
use lab_commands::run::Request;
use std::alloc::Global;
use std::process::Abort;

pub const COUNTDOWN: &str =
    ".word 0x00A00293\n.word 0xFFF28293\n.word 0xFE029EE3\n.word 0x00000073\n";

const COUNTDOWN_BY_NAMES: &str =
    "addi x5, x0, 10\nloop: addi x5, x5, -1\nbne x5, x0, loop\necall\n";

const COUNTDOWN_MEMORY: &str =
    "memory 02f5d09ff1621d14855098874649f25006641c873b3f01d89c6bef590e7890ad\n";

pub const FOUR_WITH_SEVEN: Request<'_> = Request::Step {
    file: "in",
    count: 4,
    with: Some(7),
};

/// `step` writes these parts for a text, or the line of a refusal.
fn assert_block(
    rt: &impl Abort,
    alloc: &Global,
    text: &str,
    count: u32,
    with: Option<u32>,
    parts: &[&str],
) {
    let with = match with {
        Some(other) => Some(u64::from(other)),
        None => None,
    };
    let request = Request::Step {
        file: "in",
        count: u64::from(count),
        with,
    };
    assert_answer(rt, alloc, request, "in", text.as_bytes(), parts);
}

/// Counts of the countdown, and the lines of its block above that of its memory.
const COUNTDOWN_BLOCKS: &[(u32, Option<u32>, &str)] = &[
    (0, None, "context 0 count 0 running pc 0000000000010000\n"),
    (
        4,
        None,
        "context 0 count 4 running pc 0000000000010008\nx5 0000000000000008\n",
    ),
    (
        7,
        Some(4),
        "context 0 count 7 running pc 0000000000010004\nx5 0000000000000007\n",
    ),
    (
        4,
        Some(7),
        "context 0 count 7 running pc 0000000000010004\nx5 0000000000000007\n",
    ),
    (
        0,
        Some(0),
        "context 0 count 0 running pc 0000000000010000\n",
    ),
    (20, None, "context 0 count 20 running pc 0000000000010008\n"),
    (21, None, "context 0 count 21 stop 8 pc 000000000001000c\n"),
    (30, None, "context 0 count 21 stop 8 pc 000000000001000c\n"),
    (
        3,
        Some(u32::MAX),
        "context 0 count 21 stop 8 pc 000000000001000c\n",
    ),
];

#[test]
fn countdown_at_each_count(rt: HostRuntime) {
    let alloc = rt.alloc();
    for (count, with, lines) in COUNTDOWN_BLOCKS {
        let parts = [*lines, COUNTDOWN_MEMORY];
        assert_block(&rt, &alloc, COUNTDOWN, *count, *with, &parts);
        assert_block(&rt, &alloc, COUNTDOWN_BY_NAMES, *count, *with, &parts);
    }
}

/// Programs, how many instructions each is to go on, and its block.
const EXAMPLES: &[(&str, u32, &str)] = &[
    // a stop at the start, and after it
    (
        ".word 0\n",
        5,
        "context 0 count 0 stop 2 pc 0000000000010000\n\
         memory 9e7fb7e1c258c4770669e037e740b672c4a3be5f189e1f5ce5a2b318379b89e8\n",
    ),
    (
        ".word 0x00000013\n",
        5,
        "context 0 count 1 stop 2 pc 0000000000010004\n\
         memory 6ed146e46955d2b2354b3a3c957f615ac0a0db545a53844b456d1bcb3ccd3a1f\n",
    ),
    (
        "",
        5,
        "context 0 count 0 stop 1 pc 0000000000010000\n\
         memory e3b0c44298fc1c149afbf4c8996fb92427ae41e4649b934ca495991b7852b855\n",
    ),
    (
        "# nothing\r\n\n \t\n",
        5,
        "context 0 count 0 stop 1 pc 0000000000010000\n\
         memory e3b0c44298fc1c149afbf4c8996fb92427ae41e4649b934ca495991b7852b855\n",
    ),
    (
        "addi x0, x0, 5\nlui x5, 0x80000\necall",
        100,
        "context 0 count 2 stop 8 pc 0000000000010008\n\
         x5 ffffffff80000000\n\
         memory 74d851a78db27aace76c603a49c353524e7a51fa4c70d5668904a017acc92829\n",
    ),
    (
        "lui x5, 0x80000\naddiw x5, x5, -1\n",
        100,
        "context 0 count 2 stop 2 pc 0000000000010008\n\
         x5 000000007fffffff\n\
         memory 775ce99a63f2dcb0d6ece85bc81c0307f51d8188cd461513132ae2ee7e94fa09\n",
    ),
    (
        "lui x5, 0x80000\naddiw x5, x5, -1\naddiw x5, x5, 1\n",
        100,
        "context 0 count 3 stop 2 pc 000000000001000c\n\
         x5 ffffffff80000000\n\
         memory e5bc4132af9acadcca826ac0264ef8ebcd668b454f9b1724542534abf18ba20e\n",
    ),
    (
        "lui x5, 0x10\njalr x1, 2(x5)\n",
        5,
        "context 0 count 1 stop 0 pc 0000000000010004\n\
         x5 0000000000010000\n\
         memory e1902c3e2dcc900b0bb07d35e90545ef622bd4504dd7aba2d6e9db202050eeac\n",
    ),
    (
        "lui x5, 0x10\njalr x1, 1(x5)\n",
        2,
        "context 0 count 2 running pc 0000000000010000\n\
         x1 0000000000010008\n\
         x5 0000000000010000\n\
         memory 10d7177d8f3c3a9ef5ba05b893ba0de7e466b136d18268bbf2ea4c3fb66e5cd2\n",
    ),
    (
        "lui x5, 0x100\naddi x6, x0, 255\nsb x6, 0(x5)\nld x7, 0(x5)\necall\n\
         .data\n.dword 0x1122334455667788\n",
        100,
        "context 0 count 4 stop 8 pc 0000000000010010\n\
         x5 0000000000100000\n\
         x6 00000000000000ff\n\
         x7 11223344556677ff\n\
         memory a34962dea449858d845f08d490ebbde05d3ef91708cb994f918ab1e337ac8f11\n",
    ),
    (
        "lui x5, 0x100\naddi x6, x0, 7\nld x7, 0(x5)\nsd x6, 0(x7)\nld x8, 8(x5)\necall\n\
         .data\n.dword 0x100008\n.dword 1\n",
        100,
        "context 0 count 5 stop 8 pc 0000000000010014\n\
         x5 0000000000100000\n\
         x6 0000000000000007\n\
         x7 0000000000100008\n\
         x8 0000000000000007\n\
         memory fe61a5355ba49f121e54941f88e345756a82f8cfb9ffb611ceeb48bb6659428f\n",
    ),
    (
        "lui x5, 0x10\nsd x0, 0(x5)\n",
        100,
        "context 0 count 1 stop 7 pc 0000000000010004\n\
         x5 0000000000010000\n\
         memory 98c6b9b9f8d7e1342591657c6ad6d1a7e639f016c01b178f2f70fc3f43f48cf9\n",
    ),
    (
        "lui x5, 0x100\nsd x0, 1(x5)\n.data\n.dword 0\n",
        100,
        "context 0 count 1 stop 6 pc 0000000000010004\n\
         x5 0000000000100000\n\
         memory 3e204d389a6816484cca9b42d58fcaa4ba80ade8d677d47330d9b1cc820b33bc\n",
    ),
    // the sum of 1 to 100
    (
        "addi a0, x0, 0\naddi t0, x0, 100\n\
         next: add a0, a0, t0\naddi t0, t0, -1\nbnez t0, next\necall\n",
        1000,
        "context 0 count 302 stop 8 pc 0000000000010014\n\
         x10 00000000000013ba\n\
         memory fa40584c3d3b6379eec6931706e9deebb567a6909022ddaf6238b2e13ab40d14\n",
    ),
    // the 90th Fibonacci number
    (
        "addi a1, x0, 1\naddi t0, x0, 90\n\
         turn: add t1, a0, a1\nmv a0, a1\nmv a1, t1\naddi t0, t0, -1\nbnez t0, turn\necall\n",
        1000,
        "context 0 count 452 stop 8 pc 000000000001001c\n\
         x6 40abcfb3c0325745\n\
         x10 27f80ddaa1ba7878\n\
         x11 40abcfb3c0325745\n\
         memory a46ba6967f5ab2293bd879f6ce2bf5459be51ec0a8c985a543f7f4690e96a236\n",
    ),
];

#[test]
fn blocks_of_examples(rt: HostRuntime) {
    let alloc = rt.alloc();
    for (text, count, block) in EXAMPLES {
        assert_block(&rt, &alloc, text, *count, None, &[*block]);
    }
}

const NOP: &str = ".word 0x00000013\n";

#[test]
fn full_text_and_one_line_more(rt: HostRuntime) {
    let alloc = rt.alloc();
    let block = "context 0 count 65536 stop 1 pc 0000000000050000\n\
        memory 862de30e178159066a6afc20d51fb9cb01af03470cc4a2937de2cda63bd48f84\n";
    for (lines, wanted) in [(65536, block), (65537, "refused A7 line 65537")] {
        let text = repeated(&rt, alloc, NOP, lines);
        assert_block(&rt, &alloc, text.as_str(), 70000, None, &[wanted]);
    }
}
