//! Small plans and what their jobs leave.

use checkpoint::starts;
use core_run::{Figures, Outcome};
use lab_plan::{JobStart, Plan};
use lab_pool::{JobEnd, JobResult, JobRun, LabResult, run_in_order};
use std::alloc::Global;
use std::test::Fail;

/// An ECALL at context 0, by one job with a front delay of 1.
const LONE_ECALL: &str =
    "contexts = [\"only\"]\n[programs]\nonly = \"ecall\"\n[[jobs]]\nlimit = 1000\ntargets = [100]\nprofile = { front_delay = 1 }\n";

/// A nop and an ECALL at context 0, by jobs that may take no cycle: with a target ahead, and at it.
const LIMIT_ZERO: &str =
    "contexts = [\"only\"]\n[programs]\nonly = \"nop\\necall\"\n[[jobs]]\nlimit = 0\ntargets = [100]\n[[jobs]]\nlimit = 0\n";

/// Jobs that count x5 to 5 and then, where the first came to, no further; and one that begins again.
const FURTHEST: &str =
    "contexts = [\"only\"]\n[programs]\nonly = \"a: addi x5, x5, 1\\nj a\"\n[[jobs]]\nlimit = 1000\ntargets = [5]\n[[jobs]]\nstart = \"furthest\"\nlimit = 1000\ntargets = [3]\n[[jobs]]\nlimit = 0\n";

/// What is left of a plan that is run from the start: its jobs, and the book's count of context 0.
fn done_of(alloc: Global, text: &str) -> Result<(Vec<JobResult>, u64), Fail> {
    match Plan::from_text(alloc, text) {
        Ok(plan) => done_of_plan(alloc, &plan),
        Err(_) => Err("refused".into()),
    }
}

/// What is left of a plan that was read and is run from the start.
fn done_of_plan(alloc: Global, plan: &Plan) -> Result<(Vec<JobResult>, u64), Fail> {
    let opening = starts(alloc, plan.origin())?;
    let LabResult { marks, jobs } = run_in_order(alloc, plan, opening)?;
    let count = marks.c0.count();
    drop(marks);
    Ok((jobs, count))
}

/// A job that ran with context 0 alone.
fn ran(start: JobStart, outcome: Outcome, numbers: [u64; 6], from: u64, to: u64) -> JobResult {
    let [cycles, fetched, renamed, issued, retired, squashed] = numbers;
    let figures = Figures {
        cycles,
        fetched,
        renamed,
        issued,
        retired,
        squashed,
    };
    let end = JobEnd::Ran(JobRun {
        outcome,
        figures,
        starts: [from, 0, 0, 0, 0, 0, 0, 0],
        counts: [to, 0, 0, 0, 0, 0, 0, 0],
    });
    JobResult { start, end }
}

#[test]
fn no_job(rt: HostRuntime) -> Result<(), Fail> {
    let (jobs, count) = done_of(rt.alloc(), "")?;
    assert!(rt; jobs.is_empty() && count == 0);
    Ok(())
}

#[test]
fn a_job_by_its_profile(rt: HostRuntime) -> Result<(), Fail> {
    let (jobs, count) = done_of(rt.alloc(), LONE_ECALL)?;
    let wanted = ran(
        JobStart::Opening,
        Outcome::Reached,
        [3, 1, 1, 0, 0, 1],
        0,
        0,
    );
    assert!(rt; jobs.as_slice() == [wanted].as_slice() && count == 0);
    Ok(())
}

#[test]
fn a_limit_of_no_cycle(rt: HostRuntime) -> Result<(), Fail> {
    let (jobs, count) = done_of(rt.alloc(), LIMIT_ZERO)?;
    let limited = ran(JobStart::Opening, Outcome::CycleLimit, [0; 6], 0, 0);
    let there = ran(JobStart::Opening, Outcome::Reached, [0; 6], 0, 0);
    assert!(rt; jobs.as_slice() == [limited, there].as_slice() && count == 0);
    Ok(())
}

// What the first job did isn't compared but for its end.
#[test]
fn furthest_goes_on_from_the_book(rt: HostRuntime) -> Result<(), Fail> {
    let (jobs, count) = done_of(rt.alloc(), FURTHEST)?;
    let parked = ran(JobStart::Furthest, Outcome::Reached, [0; 6], 5, 5);
    let again = ran(JobStart::Opening, Outcome::Reached, [0; 6], 0, 0);
    assert!(rt; jobs.get(1) == Some(&parked) && jobs.get(2) == Some(&again) && count == 5);
    Ok(())
}
