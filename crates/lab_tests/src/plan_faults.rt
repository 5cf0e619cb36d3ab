//! Texts that are no plan, by the line that they are refused with.

use crate::equal::assert_equal;
use lab_plan::Plan;
use std::alloc::Global;
use std::process::Abort;

/// A text of these parts is refused by this, or accepted where this is `ok`.
fn assert_told(rt: &impl Abort, alloc: Global, parts: &[&str], wanted: &str) {
    let mut text = String::new(alloc);
    for part in parts {
        text.push_str(*part).expect(rt, "memory");
    }
    let text = text.as_str();
    let told = match Plan::from_text(alloc, text) {
        Ok(_) => String::from_str(alloc, "ok"),
        Err(fault) => format!(in alloc; "{fault}"),
    };
    let told = told.expect(rt, "memory");
    assert_equal(rt, (text, told.as_str()), (text, wanted));
}

/// What is no plan.
const NO_PLANS: &[&str] = &[
    "speed = 1",
    "contexts = [",
    "contexts = []\ncontexts = []",
    "environment = 9223372036854775808",
    "environment = 2",
    "environment = 0",
    "environment = \"1\"",
    "environment = true",
    "environment = 1.0",
    "programs = \"nop\"",
    "programs = []",
    "programs = { a = 1 }",
    "programs = { a = { b = \"nop\" } }",
    "contexts = \"a\"",
    "contexts = [1]",
    "contexts = [\"\", \"\", \"\", \"\", \"\", \"\", \"\", \"\", \"\"]",
    "jobs = { limit = 1 }",
    "jobs = [1]",
    "jobs = 1",
];

/// What stands between the braces of what is no job.
const NO_JOBS: &[&str] = &[
    "",
    "start = \"opening\"",
    "limit = -1",
    "limit = 1099511627777",
    "limit = true",
    "limit = 1.0",
    "limit = \"1\"",
    "limit = 1, targets = 1",
    "limit = 1, targets = [-1]",
    "limit = 1, targets = [1099511627777]",
    "limit = 1, targets = [true]",
    "limit = 1, targets = [0, 0, 0, 0, 0, 0, 0, 0, 0]",
    "limit = 1, start = \"nearest\"",
    "limit = 1, start = \"\"",
    "limit = 1, start = 1",
    "limit = 1, profile = \"default\"",
    "limit = 1, profile = [1]",
    "limit = 1, name = \"a\"",
];

#[test]
fn no_plans_and_no_jobs(rt: HostRuntime) {
    for text in NO_PLANS {
        assert_told(&rt, rt.alloc(), &[*text], "J1");
    }
    for job in NO_JOBS {
        assert_told(&rt, rt.alloc(), &["jobs = [{ ", *job, " }]"], "J1");
    }
}

/// Plans at the ends of each range.
const ENDS: &[&str] = &[
    "",
    "environment = 1",
    "programs = {}",
    "contexts = [\"\", \"\", \"\", \"\", \"\", \"\", \"\", \"\"]",
    "jobs = []",
    "jobs = [{ limit = 0 }]",
    "jobs = [{ limit = 1099511627776 }]",
    "jobs = [{ limit = 1, targets = [0, 1, 2, 3, 4, 5, 6, 1099511627776] }]",
    "jobs = [{ limit = 1, start = \"opening\" }, { limit = 1, start = \"furthest\" }]",
    "jobs = [{ limit = 1, profile = {} }]",
];

#[test]
fn the_ends_of_each_range(rt: HostRuntime) {
    for text in ENDS {
        assert_told(&rt, rt.alloc(), &[*text], "ok");
    }
}

/// Contexts, programs and jobs with profiles, and what a plan of them is told.
const FAULTS: &[(&str, &str)] = &[
    ("contexts = [\"a\"]", "J2 0"),
    ("contexts = [\"\", \"b\", \"a\"]", "J2 1"),
    (
        "contexts = [\"a\", \"\", \"\", \"\", \"\", \"\", \"\", \"A\"]\nprograms = { a = \"nop\" }",
        "J2 7",
    ),
    ("programs = { a = \"nop\\nfoo\" }", "J5 a A1 line 2"),
    ("programs = { \"\" = \"addi x5\" }", "J5  A2 line 1"),
    ("programs = { \"\" = \"nop\" }\ncontexts = [\"\"]", "ok"),
    (
        "programs = { b = \"foo\", a = \"addi x5, x0, 5000\", B = \"a: nop\\na: nop\" }",
        "J5 B A5 line 2",
    ),
    (
        "programs = { b = \"foo\", a = \"addi x5, x0, 5000\" }",
        "J5 a A3 line 1",
    ),
    (
        "programs = { a = \"beq x0, x0, 0x10001\" }",
        "J5 a A6 line 1",
    ),
    (
        "programs = { a = \".data\\n.zero 1048576\\n.byte 1\" }",
        "J5 a A7 line 3",
    ),
    (
        "jobs = [{ limit = 1 }, { limit = 1, profile = { num1 = 4 } }, { limit = 1, profile = { num1 = 3 } }]",
        "J4 2 P3 num1",
    ),
];

/// Lines of a profile, and what a plan of one job with it is told.
const PROFILES: &[(&str, &str)] = &[
    ("num1 = 3", "J4 0 P3 num1"),
    ("num1 = 3\nfetch = \"FIFO\"", "J4 0 P4 fetch"),
    ("widht = 1", "J4 0 P1 widht"),
    ("num2 = \"8\"", "J4 0 P2 num2"),
    ("num2 = true", "J4 0 P2 num2"),
    ("num2 = 8.0", "J4 0 P2 num2"),
    ("fetch = 3", "J4 0 P2 fetch"),
    ("fetch = \"\"", "J4 0 P4 fetch"),
    ("num1 = 4", "ok"),
];

#[test]
fn faults_within_a_plan(rt: HostRuntime) {
    for (text, wanted) in FAULTS {
        assert_told(&rt, rt.alloc(), &[*text], wanted);
    }
    for (lines, wanted) in PROFILES {
        let head = "[[jobs]]\nlimit = 1\n[jobs.profile]\n";
        assert_told(&rt, rt.alloc(), &[head, *lines, "\n"], wanted);
    }
}

const PROFILE: &str = "[[jobs]]\nlimit = 1\n[jobs.profile]\nnum2 = \"8\"\n";

const PROGRAM: &str = "[programs]\nloop = \"nop\\nnop\\nj nowhere\"\n";

const CONTEXT: &str = "contexts = [\"a\"]\n";

/// Parts of which each has a fault, and the one that a plan of them is told.
const ORDER: &[(&[&str], &str)] = &[
    (&[PROFILE], "J4 0 P2 num2"),
    (&[CONTEXT, PROFILE], "J2 0"),
    (&[PROGRAM, PROFILE], "J5 loop A4 line 3"),
    (&[CONTEXT, PROGRAM, PROFILE], "J5 loop A4 line 3"),
    (&["speed = 1\n", CONTEXT, PROGRAM, PROFILE], "J1"),
];

#[test]
fn the_order_of_refusals(rt: HostRuntime) {
    for (parts, wanted) in ORDER {
        assert_told(&rt, rt.alloc(), *parts, wanted);
    }
}

const JOB: &str = "[[jobs]]\nlimit = 1\n";

#[test]
fn the_most_jobs(rt: HostRuntime) {
    let alloc = rt.alloc();
    let mut text = String::new(alloc);
    for _ in 0..4096usize {
        text.push_str(JOB).expect(&rt, "memory");
    }
    let most = text.as_str();
    assert_told(&rt, alloc, &[most], "ok");
    assert_told(&rt, alloc, &[most, JOB], "J3");
    assert_told(
        &rt,
        alloc,
        &["programs = { a = \"foo\" }\n", most, JOB],
        "J3",
    );
    assert_told(&rt, alloc, &["speed = 1\n", most, JOB], "J1");
}
