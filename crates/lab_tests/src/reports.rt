//! The reports that `run` writes for worked plans. The digests were taken by another program, over the
//! address and the bytes of each page.

use crate::devices::{answer, assert_answer};
use lab_commands::run::Request;
use std::alloc::Global;
use std::process::Abort;

pub const RUN: Request<'_> = Request::Run { plan: "in" };

/// A limit that no example meets, and a target past its end.
const AMPLE: &str = "limit = 1000\ntargets = [100]\n";

const AMPLE_AT_ONCE: &str = "limit = 1000\ntargets = [100]\nprofile = { front_delay = 1 }\n";

const COUNTDOWN: &str = ".word 0x00A00293\n.word 0xFFF28293\n.word 0xFE029EE3\n.word 0x00000073\n";

/// A plan of one program at context 0, and jobs.
fn plan_of(rt: &impl Abort, alloc: Global, program: &str, jobs: &[&str]) -> String {
    let mut plan = String::new(alloc);
    write!(
        plan,
        "contexts = ['only']\n[programs]\nonly = '''\n{program}'''\n"
    )
    .expect(rt, "memory");
    for job in jobs {
        write!(plan, "[[jobs]]\n{job}").expect(rt, "memory");
    }
    plan
}

const FIRST_LINE: &str = "smt-lab report 1\n";

/// The blocks of contexts 1 to 7, which have no program.
const OTHER_BLOCKS: &str = "context 1 count 0 stop 1 pc 0000000000010000\n\
    memory e3b0c44298fc1c149afbf4c8996fb92427ae41e4649b934ca495991b7852b855\n\
    context 2 count 0 stop 1 pc 0000000000010000\n\
    memory e3b0c44298fc1c149afbf4c8996fb92427ae41e4649b934ca495991b7852b855\n\
    context 3 count 0 stop 1 pc 0000000000010000\n\
    memory e3b0c44298fc1c149afbf4c8996fb92427ae41e4649b934ca495991b7852b855\n\
    context 4 count 0 stop 1 pc 0000000000010000\n\
    memory e3b0c44298fc1c149afbf4c8996fb92427ae41e4649b934ca495991b7852b855\n\
    context 5 count 0 stop 1 pc 0000000000010000\n\
    memory e3b0c44298fc1c149afbf4c8996fb92427ae41e4649b934ca495991b7852b855\n\
    context 6 count 0 stop 1 pc 0000000000010000\n\
    memory e3b0c44298fc1c149afbf4c8996fb92427ae41e4649b934ca495991b7852b855\n\
    context 7 count 0 stop 1 pc 0000000000010000\n\
    memory e3b0c44298fc1c149afbf4c8996fb92427ae41e4649b934ca495991b7852b855\n";

/// The lines of a report's jobs.
enum Lines {
    /// All of them.
    All(&'static str),
    /// How they end.
    Last(&'static str),
}

/// Whether a text is the report that has this block of context 0, where it alone has a program, and these
/// lines.
fn is_report(text: &str, block: &str, lines: &Lines) -> bool {
    let Some(blocks) = text.strip_prefix(FIRST_LINE) else {
        return false;
    };
    let Some(others) = blocks.strip_prefix(block) else {
        return false;
    };
    match (others.strip_prefix(OTHER_BLOCKS), lines) {
        (Some(found), Lines::All(all)) => found == *all,
        (Some(found), Lines::Last(last)) => found.ends_with(*last),
        (None, _) => false,
    }
}

/// `run` writes such a report for a program at context 0 and these jobs.
fn assert_report(
    rt: &impl Abort,
    alloc: &Global,
    program: &str,
    jobs: &[&str],
    block: &str,
    lines: &Lines,
) {
    let plan = plan_of(rt, *alloc, program, jobs);
    let text = answer(rt, alloc, RUN, "in", plan.as_str().as_bytes());
    assert!(rt; is_report(text.as_str(), block, lines), "{text}");
}

#[test]
fn empty_plan(rt: HostRuntime) {
    let first = "context 0 count 0 stop 1 pc 0000000000010000\n\
        memory e3b0c44298fc1c149afbf4c8996fb92427ae41e4649b934ca495991b7852b855\n";
    let parts = [FIRST_LINE, first, OTHER_BLOCKS];
    assert_answer(&rt, &rt.alloc(), RUN, "in", b"", &parts);
}

/// Programs, the jobs of each, the block of context 0, and the jobs' lines.
const EXAMPLES: &[(&str, &[&str], &str, Lines)] = &[
    (
        "ecall\n",
        &[AMPLE_AT_ONCE],
        "context 0 count 0 stop 8 pc 0000000000010000\n\
         memory e41f7967b2a855a3ebd0f9b609fd6a02e4a4c078758a614d669b8b23d14119ee\n",
        Lines::All(
            "job 0 opening reached cycles 3 fetched 1 renamed 1 issued 0 retired 0 squashed 1 ipc 0\n\
         marks 0 0 0 0 0 0 0 0\n",
        ),
    ),
    (
        "nop\necall\n",
        &[AMPLE_AT_ONCE],
        "context 0 count 1 stop 8 pc 0000000000010004\n\
         memory 4163d3f48cd4ce94acdf68bceffccc4e3eb3d9351548a3f5ac3325779ae743e2\n",
        Lines::All(
            "job 0 opening reached cycles 5 fetched 2 renamed 2 issued 1 retired 1 squashed 1 ipc 200\n\
         marks 1 0 0 0 0 0 0 0\n",
        ),
    ),
    (
        COUNTDOWN,
        &[AMPLE],
        "context 0 count 21 stop 8 pc 000000000001000c\n\
         memory 02f5d09ff1621d14855098874649f25006641c873b3f01d89c6bef590e7890ad\n",
        Lines::All(
            "job 0 opening reached cycles 27 fetched 32 renamed 28 issued 22 retired 21 squashed 11 ipc 777\n\
         marks 21 0 0 0 0 0 0 0\n",
        ),
    ),
    (
        "addi x6, x0, 7\nlui x5, 0x100\nbeq x0, x0, out\nsd x6, 0(x5)\nld x7, 0(x0)\nout: ecall\n\
         .data\n.dword 1\n",
        &[AMPLE],
        "context 0 count 3 stop 8 pc 0000000000010014\n\
         x5 0000000000100000\n\
         x6 0000000000000007\n\
         memory ad75b1c4e1ca970156b9b110603e0c0124c19f64881fe724db9858ce7defe25e\n",
        Lines::All(
            "job 0 opening reached cycles 8 fetched 7 renamed 7 issued 4 retired 3 squashed 4 ipc 375\n\
         marks 3 0 0 0 0 0 0 0\n",
        ),
    ),
    (
        "lui x5, 0x100\naddi x6, x0, 255\nsb x6, 0(x5)\nld x7, 0(x5)\necall\n\
         .data\n.dword 0x1122334455667788\n",
        &[AMPLE],
        "context 0 count 4 stop 8 pc 0000000000010010\n\
         x5 0000000000100000\n\
         x6 00000000000000ff\n\
         x7 11223344556677ff\n\
         memory a34962dea449858d845f08d490ebbde05d3ef91708cb994f918ab1e337ac8f11\n",
        Lines::All(
            "job 0 opening reached cycles 11 fetched 7 renamed 7 issued 5 retired 4 squashed 3 ipc 363\n\
         marks 4 0 0 0 0 0 0 0\n",
        ),
    ),
    (
        "lui x5, 0x100\naddi x6, x0, 7\nld x7, 0(x5)\nsd x6, 0(x7)\nld x8, 8(x5)\necall\n\
         .data\n.dword 0x100008\n.dword 1\n",
        &[AMPLE],
        "context 0 count 5 stop 8 pc 0000000000010014\n\
         x5 0000000000100000\n\
         x6 0000000000000007\n\
         x7 0000000000100008\n\
         x8 0000000000000007\n\
         memory fe61a5355ba49f121e54941f88e345756a82f8cfb9ffb611ceeb48bb6659428f\n",
        Lines::All(
            "job 0 opening reached cycles 31 fetched 8 renamed 8 issued 6 retired 5 squashed 3 ipc 161\n\
         marks 5 0 0 0 0 0 0 0\n",
        ),
    ),
    // no cycle at all, with a context that runs and with none
    (
        "nop\necall\n",
        &["limit = 0\ntargets = [100]\n"],
        "context 0 count 0 running pc 0000000000010000\n\
         memory 4163d3f48cd4ce94acdf68bceffccc4e3eb3d9351548a3f5ac3325779ae743e2\n",
        Lines::All(
            "job 0 opening limit cycles 0 fetched 0 renamed 0 issued 0 retired 0 squashed 0 ipc 0\n\
         marks 0 0 0 0 0 0 0 0\n",
        ),
    ),
    (
        "nop\necall\n",
        &["limit = 0\n"],
        "context 0 count 0 running pc 0000000000010000\n\
         memory 4163d3f48cd4ce94acdf68bceffccc4e3eb3d9351548a3f5ac3325779ae743e2\n",
        Lines::All(
            "job 0 opening reached cycles 0 fetched 0 renamed 0 issued 0 retired 0 squashed 0 ipc 0\n\
         marks 0 0 0 0 0 0 0 0\n",
        ),
    ),
    // what the lines begin with is left open
    (
        "lui x5, 0x10\njalr x1, 2(x5)\n",
        &[AMPLE],
        "context 0 count 1 stop 0 pc 0000000000010004\n\
         x5 0000000000010000\n\
         memory e1902c3e2dcc900b0bb07d35e90545ef622bd4504dd7aba2d6e9db202050eeac\n",
        Lines::Last("marks 1 0 0 0 0 0 0 0\n"),
    ),
    (
        "lui x5, 0x10\njalr x1, 1(x5)\n",
        &["limit = 1000\ntargets = [2]\n"],
        "context 0 count 2 running pc 0000000000010000\n\
         x1 0000000000010008\n\
         x5 0000000000010000\n\
         memory 10d7177d8f3c3a9ef5ba05b893ba0de7e466b136d18268bbf2ea4c3fb66e5cd2\n",
        Lines::Last("marks 2 0 0 0 0 0 0 0\n"),
    ),
    (
        COUNTDOWN,
        &[
            "limit = 1000\ntargets = [5]\n",
            "limit = 1000\ntargets = [3]\nstart = 'furthest'\n",
        ],
        "context 0 count 5 running pc 0000000000010004\n\
         x5 0000000000000008\n\
         memory 02f5d09ff1621d14855098874649f25006641c873b3f01d89c6bef590e7890ad\n",
        Lines::Last("\nmarks 5 0 0 0 0 0 0 0\njob 1 furthest moved\n"),
    ),
    // a job that goes on from where the first one came, and one that starts at the opening all the same
    (
        COUNTDOWN,
        &[
            "limit = 1000\ntargets = [5]\n",
            "limit = 1000\ntargets = [9]\nstart = 'furthest'\n",
            "limit = 0\ntargets = [3]\n",
        ],
        "context 0 count 9 running pc 0000000000010004\n\
         x5 0000000000000006\n\
         memory 02f5d09ff1621d14855098874649f25006641c873b3f01d89c6bef590e7890ad\n",
        Lines::Last(
            "\njob 1 furthest moved\n\
         job 2 opening limit cycles 0 fetched 0 renamed 0 issued 0 retired 0 squashed 0 ipc 0\n\
         marks 0 0 0 0 0 0 0 0\n",
        ),
    ),
];

#[test]
fn reports_of_examples(rt: HostRuntime) {
    let alloc = rt.alloc();
    for (program, jobs, block, lines) in EXAMPLES {
        assert_report(&rt, &alloc, program, jobs, block, lines);
    }
}

/// The block of the countdown at its end.
const COUNTDOWN_BLOCK: &str = "context 0 count 21 stop 8 pc 000000000001000c\n\
    memory 02f5d09ff1621d14855098874649f25006641c873b3f01d89c6bef590e7890ad\n";

/// A job under each fetch policy.
const UNDER_POLICIES: &[&str] = &[
    "limit = 1000\ntargets = [100]\nprofile = { fetch = 'RR' }\n",
    "limit = 1000\ntargets = [100]\nprofile = { fetch = 'ICOUNT' }\n",
    "limit = 1000\ntargets = [100]\nprofile = { fetch = 'BRCOUNT' }\n",
    "limit = 1000\ntargets = [100]\nprofile = { fetch = 'MISSCOUNT' }\n",
    "limit = 1000\ntargets = [100]\nprofile = { fetch = 'IQPOSN' }\n",
];

#[test]
fn countdown_under_each_policy(rt: HostRuntime) {
    let alloc = rt.alloc();
    for job in UNDER_POLICIES {
        assert_report(
            &rt,
            &alloc,
            COUNTDOWN,
            &[*job],
            COUNTDOWN_BLOCK,
            &Lines::Last(""),
        );
    }
}
