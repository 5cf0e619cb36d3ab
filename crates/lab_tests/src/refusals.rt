//! The lines of refusals of texts, the same of `step` and `asm`, and of plans, the same of `run` and `bound`.

use crate::bounds::BOUND;
use crate::devices::{assert_answer, repeated};
use crate::listings::LISTED;
use crate::reports::RUN;
use lab_commands::run::Request;

const STEPPED: Request<'_> = Request::Step {
    file: "in",
    count: 5,
    with: None,
};

/// Texts, the names of their files, and the lines.
const OF_TEXTS: &[(&[u8], &str, &str)] = &[
    (b".word 0\nhalt\n", "file", "refused A1 line 2"),
    (b".word 1, 2", "file", "refused A2 line 1"),
    (b"\n\n.word 4294967296\nhalt\n", "file", "refused A3 line 3"),
    (b"nop\nj on\n", "file", "refused A4 line 2"),
    (b"on: nop\non: nop\n", "file", "refused A5 line 2"),
    (b"beqz x5, 0x11000\n", "file", "refused A6 line 1"),
    (
        b".data\n.zero 1048576\n.byte 0\n",
        "file",
        "refused A7 line 3",
    ),
    (b"j on\nnop x5\n", "file", "refused A2 line 2"),
    (b".word 0 # \xff\n", "file", "refused S1 file"),
    (b"\xc3", "a\nb\x7f\t.s", "refused S1 a?b??.s"),
    (b"\xc3", "\u{80}\u{e9} ~", "refused S1 \u{80}\u{e9} ~"),
    (b"\xc3", "", "refused S1 "),
    (b"\xef\xbb\xbf.word 0\n", "file", "refused A1 line 1"),
    (b"halt", "\x1f\x20", "refused A1 line 1"),
];

#[test]
fn refusals_of_texts(rt: HostRuntime) {
    let alloc = rt.alloc();
    for (bytes, name, line) in OF_TEXTS {
        assert_answer(&rt, &alloc, LISTED, name, bytes, &[*line]);
        assert_answer(&rt, &alloc, STEPPED, name, bytes, &[*line]);
    }
}

/// Plans and the lines.
const OF_PLANS: &[(&str, &str)] = &[
    ("speed = 1", "refused J1"),
    ("environment = 2", "refused J1"),
    ("[[jobs]]\ntargets = [1]\n", "refused J1"),
    ("[[jobs]]\nlimit = 1099511627777\n", "refused J1"),
    ("contexts = ['a']", "refused J2 0"),
    (
        "[[jobs]]\nlimit = 1\nprofile = { num1 = 3 }\n",
        "refused J4 0 P3 num1",
    ),
    (
        "[[jobs]]\nlimit = 1\nprofile = { num1 = 3, fetch = 'FIFO' }\n",
        "refused J4 0 P4 fetch",
    ),
    (
        "[[jobs]]\nlimit = 1\nprofile = { widht = 1 }\n",
        "refused J4 0 P1 widht",
    ),
    (
        "[[jobs]]\nlimit = 1\n[[jobs]]\nlimit = 1\nprofile = { num2 = '8' }\n",
        "refused J4 1 P2 num2",
    ),
    ("programs = { loop = 'nop\nnop\nj on' }", "refused J1"),
    (
        "programs = { loop = \"nop\\nnop\\nj on\" }\n[[jobs]]\nlimit = 1\nprofile = { num2 = '8' }\n",
        "refused J5 loop A4 line 3",
    ),
    (
        "programs = { \"a\\u0007b\\u007f\" = 'halt' }",
        "refused J5 a?b? A1 line 1",
    ),
    (
        "[[jobs]]\nlimit = 1\nprofile = { \"w\\t\" = 1 }\n",
        "refused J4 0 P1 w?",
    ),
];

#[test]
fn refusals_of_plans(rt: HostRuntime) {
    let alloc = rt.alloc();
    for (plan, line) in OF_PLANS {
        assert_answer(&rt, &alloc, RUN, "plan", plan.as_bytes(), &[*line]);
        assert_answer(&rt, &alloc, BOUND, "plan", plan.as_bytes(), &[*line]);
    }
    let no_text = "refused S1 a?plan";
    assert_answer(&rt, &alloc, RUN, "a\nplan", b"# \xff\n", &[no_text]);
    assert_answer(&rt, &alloc, BOUND, "a\nplan", b"# \xff\n", &[no_text]);
}

#[test]
fn one_job_too_many(rt: HostRuntime) {
    let alloc = rt.alloc();
    let plan = repeated(&rt, alloc, "[[jobs]]\nlimit = 0\n", 4097);
    let bytes = plan.as_str().as_bytes();
    assert_answer(&rt, &alloc, RUN, "plan", bytes, &["refused J3"]);
    assert_answer(&rt, &alloc, BOUND, "plan", bytes, &["refused J3"]);
}
