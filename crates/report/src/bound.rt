//! How many cycles the jobs of a plan need.

ghost use Rattle.std.specs.Prelude.{◌≡◌, IfOk, string_bytes};
ghost use Rattle.report.specs.Bounds as spec;

use lab_plan::{Job, Plan};
use lab_pool::needs;
use std::alloc::{AllocError, Allocator};

/// The line of a job with its number: from the starts of the contexts, the limit with which it is sure to end where no
/// context runs, and the limit that it has; or that there is none.
fn job_bound<A: Allocator>(alloc: A, number: usize, job: &Job) -> Result<String<A>, AllocError>
    ensures { IfOk result (λ text. string_bytes text ≡ spec.bound_text number job.now) }
{
    let limit = job.limit;
    match needs(job, &[0; 8]) {
        Some(cycles) => format!(in alloc; "job {number} needs {cycles} limit {limit}\n"),
        None => format!(in alloc; "job {number} open\n"),
    }
}

/// The lines of jobs, which are counted from 0.
fn bounds_of<A: Allocator + Copy>(alloc: A, jobs: &[Job]) -> Result<String<A>, AllocError>
    ensures { IfOk result (λ text. string_bytes text ≡ spec.bounds_text 0 jobs.now) }
{
    let mut text = String::new(alloc);
    for (number, job) in jobs.iter().enumerate() {
        let line = job_bound(alloc, number, job)?;
        text.push_str(&line)?;
    }
    Ok(text)
}

/// A line for each job of a plan, in order: how many cycles it needs to be sure to end where no context runs, and its
/// limit, or that it is open, under BRANCH_FIRST. All contexts start at their programs' starts.
///
/// # Errors
/// Out of memory.
pub fn bounds<A: Allocator + Copy>(alloc: A, plan: &Plan) -> Result<String<A>, AllocError>
    ensures { IfOk result (λ text. string_bytes text ≡ spec.bounds_text 0 plan.now.jobs) }
{
    bounds_of(alloc, plan.jobs())
}
