//! The jobs of a plan, one after another.
ghost use Rattle.std.specs.Prelude.{◌≡◌, ℕ, ◌<◌, true, List, [], ◌∷◌, ◌++◌, IfOk};
ghost use Rattle.checkpoint.specs.Aligned.{IsAligned};
ghost use Rattle.lab_plan.specs.declared.job.Job.{Job};
ghost use Rattle.lab_pool.specs.declared.result.JobResult.{JobResult};
ghost use Rattle.join_law.specs.Eight.{place_of};
ghost use Rattle.origin_set.specs.Start.{start};
ghost use Rattle.lawful_cycle.specs.Plain.{ComesTo};
ghost use Rattle.lab_pool.specs.Allowed.{AreJobResults};
ghost use Rattle.lab_pool.specs.Decided.{AgreeFromOpening};
ghost use Rattle.lab_pool.specs.Closed.{are_closed, AreReached, most_wanted, NoneRefused};
ghost use Rattle.lab_pool.specs.Counts.{counts_in};
ghost use Rattle.lab_pool.specs.Book.{book_after};

use crate::copies::copy_of;
use crate::fault::PoolFault;
use crate::job::run_job;
use crate::result::{JobEnd, JobResult, LabResult};
use checkpoint::Mark;
use join_law::Eight;
use lab_plan::{Job, Plan};
use std::alloc::Global;

/// Runs the jobs of a plan in order, from an opening of its origin. Each job's marks are merged into the book, and a job
/// that starts at `furthest` starts at the book as the jobs before it left it. Where the plan is closed and no job ran
/// out of memory, each context of the book is where its plan's outcome says.
///
/// # Errors
/// E1 where there is no memory for the book or for the list of jobs. A job that runs out of memory is reported as
/// refused, and the next one runs.
pub fn run_in_order(
    alloc: Global,
    plan: &Plan,
    opening: Eight<Mark>,
) -> Result<LabResult, PoolFault>
    requires aligned { IsAligned opening }
    requires origin { opening.c0.origin ≡ plan.now.origin }
    ensures jobs { IfOk result (λ done. AreJobResults opening [] plan.now.jobs done.jobs.items) }
    ensures book { IfOk result (λ done. done.marks ≡ book_after opening done.jobs.items) }
    ensures decided { IfOk result (λ done. (others : List JobResult) → AreJobResults opening [] plan.now.jobs others → AgreeFromOpening plan.now.jobs done.jobs.items others) }
    ensures outcome { are_closed (counts_in opening) plan.now.jobs ≡ true → IfOk result (λ done. NoneRefused done.jobs.items → (c : ℕ) → c < 8 → ComesTo (start opening.c0.origin c) (most_wanted c (place_of opening c).count plan.now.jobs) (place_of done.marks c).count) }
{
    let planned = plan.jobs();
    reached(&opening);
    let results = results_from(alloc, planned, &opening);
    drop(opening);
    results
}

/// That plain RV64I reaches the count of each of eight marks, as `Mark::state` ensures. It does nothing.
fn reached(marks: &Eight<Mark>)
    ensures { AreReached marks.now }
{
    let _c0 = marks.c0.state();
    let _c1 = marks.c1.state();
    let _c2 = marks.c2.state();
    let _c3 = marks.c3.state();
    let _c4 = marks.c4.state();
    let _c5 = marks.c5.state();
    let _c6 = marks.c6.state();
    let _c7 = marks.c7.state();
}

/// Runs jobs in order, from an opening.
fn results_from(
    alloc: Global,
    planned: &[Job],
    opening: &Eight<Mark>,
) -> Result<LabResult, PoolFault>
    requires { IsAligned opening.now }
    ensures jobs { IfOk result (λ done. AreJobResults opening.now [] planned.now done.jobs.items) }
    ensures book { IfOk result (λ done. done.marks ≡ book_after opening.now done.jobs.items) }
{
    let begun = before_jobs(alloc, planned.len(), opening)?;
    run_jobs(alloc, planned, opening, begun)
}

/// What there is before any of so many jobs: the book is the opening.
fn before_jobs(alloc: Global, count: usize, opening: &Eight<Mark>) -> Result<LabResult, PoolFault>
    ensures none { IfOk result (λ begun. begun.jobs.items ≡ []) }
    ensures book { IfOk result (λ begun. begun.marks ≡ opening.now) }
{
    let jobs = Vec::with_capacity(alloc, count).map_err(|_| PoolFault::OutOfMemory)?;
    let marks = copy_of(alloc, opening).map_err(|_| PoolFault::OutOfMemory)?;
    Ok(LabResult { marks, jobs })
}

/// Runs jobs in order, after none.
fn run_jobs(
    alloc: Global,
    planned: &[Job],
    opening: &Eight<Mark>,
    begun: LabResult,
) -> Result<LabResult, PoolFault>
    requires aligned { IsAligned opening.now }
    requires none { begun.jobs.items ≡ [] }
    requires book { begun.marks ≡ opening.now }
    ensures jobs { IfOk result (λ done. AreJobResults opening.now [] planned.now done.jobs.items) }
    ensures book { IfOk result (λ done. done.marks ≡ book_after opening.now done.jobs.items) }
{
    let mut done = begun;
    for job in planned {
        done = run_next(alloc, job, opening, done)?;
    }
    Ok(done)
}

/// Runs one job more, after those that are done.
fn run_next(
    alloc: Global,
    job: &Job,
    opening: &Eight<Mark>,
    done: LabResult,
) -> Result<LabResult, PoolFault>
    requires aligned { IsAligned opening.now }
    requires book { done.marks ≡ book_after opening.now done.jobs.items }
    ensures jobs { IfOk result (λ after. (js : List Job) → AreJobResults opening.now [] js done.jobs.items → AreJobResults opening.now [] (js ++ job.now ∷ []) after.jobs.items) }
    ensures book { IfOk result (λ after. after.marks ≡ book_after opening.now after.jobs.items) }
{
    let LabResult { marks, mut jobs } = done;
    let (book, end) = run_job(alloc, job, opening, marks);
    let result = result_of(job, end);
    match jobs.push(result) {
        Ok(()) => Ok(LabResult { marks: book, jobs }),
        Err(_) => {
            drop(book);
            Err(PoolFault::OutOfMemory)
        }
    }
}

/// The result of a job, by how it ended.
fn result_of(job: &Job, end: JobEnd) -> JobResult
    ensures { result ≡ record { start = job.now.start; end = end } }
{
    JobResult {
        start: job.start,
        end,
    }
}
