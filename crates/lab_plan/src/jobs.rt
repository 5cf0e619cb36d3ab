//! The jobs of a plan.

ghost use Rattle.std.specs.Prelude.{◌≡◌, ◌≤◌, ◌<◌, IfOk, IfErr, OnOk, All, length, map};
ghost use Rattle.toml.specs.View.{items_view, table_view, view};
ghost use Rattle.core_profile.specs.Refusals.{IsFaultless, IsProfileOf};
ghost use Rattle.lab_plan.specs.Jobs as spec;
ghost use Rattle.lab_plan.specs.Jobs.{AreFaultlessBelow, job_fields};
ghost use Rattle.lab_plan.specs.Parts.{count_of};
ghost use Rattle.lab_plan.specs.Plans.{HasFewJobs};
ghost use Rattle.lab_plan.specs.Returned.{RefusesAsJob, RefusesCount, RefusesJob, RefusesProfile};

use crate::fault::PlanFault;
use crate::job::Job;
use crate::lookups::{array_at, item_at, table_at, value_at};
use crate::numbers::number_of;
use crate::start::JobStart;
use core_profile::{Profile, ProfileFault};
use std::alloc::Global;
use toml::{Table, Value};

/// The most jobs that a plan may have.
const MOST_JOBS: usize = 4096;

/// The target of a context among these.
fn target_at(numbers: &[Value], place: usize) -> u64
    ensures target { result ≡ spec.target_at (items_view numbers.now) place }
    ensures bound { result ≤ 1099511627776 }
{
    match item_at(numbers, place) {
        None => 0,
        Some(value) => number_of(value).unwrap_or(0),
    }
}

/// The targets of the eight contexts.
fn targets_of(numbers: &[Value]) -> [u64; 8]
    ensures targets { result ≡ spec.targets_of (items_view numbers.now) }
    ensures bound { All (λ t. t ≤ 1099511627776) result }
{
    [
        target_at(numbers, 0),
        target_at(numbers, 1),
        target_at(numbers, 2),
        target_at(numbers, 3),
        target_at(numbers, 4),
        target_at(numbers, 5),
        target_at(numbers, 6),
        target_at(numbers, 7),
    ]
}

/// The targets of a job.
fn read_targets(job: &Table) -> [u64; 8]
    ensures targets { result ≡ spec.targets_at (table_view job.now) }
    ensures bound { All (λ t. t ≤ 1099511627776) result }
{
    match array_at(job, "targets") {
        None => [0; 8],
        Some(numbers) => targets_of(numbers),
    }
}

/// The limit of a job.
fn read_limit(job: &Table) -> u64
    ensures limit { result ≡ spec.limit_at (table_view job.now) }
    ensures bound { result ≤ 1099511627776 }
{
    match value_at(job, "limit") {
        None => 0,
        Some(value) => number_of(value).unwrap_or(0),
    }
}

/// The start that a value names.
fn start_of(value: &Value) -> Option<JobStart>
    ensures { result ≡ spec.start_of (view value.now) }
{
    match value.as_str() {
        None => None,
        Some(name) => JobStart::from_name(name),
    }
}

/// The start of a job.
fn read_start(job: &Table) -> JobStart
    ensures { result ≡ spec.start_at (table_view job.now) }
{
    match value_at(job, "start") {
        None => JobStart::Opening,
        Some(value) => start_of(value).unwrap_or(JobStart::Opening),
    }
}

/// The profile of a job, or why there is none.
fn read_profile(alloc: Global, job: &Table) -> Result<Profile, ProfileFault>
    ensures { IsProfileOf (spec.profile_at (table_view job.now)) result }
{
    match table_at(job, "profile") {
        None => Ok(Profile::default()),
        Some(table) => Profile::from_table(alloc, table),
    }
}

/// The refusal of a job for its profile.
fn refusal_of(job: usize, fault: ProfileFault) -> PlanFault
    ensures { RefusesAsJob job fault result }
{
    match fault {
        ProfileFault::OutOfMemory => PlanFault::OutOfMemory,
        fault => PlanFault::Profile { job, fault },
    }
}

/// The job of a table.
fn read_table(alloc: Global, table: &Table, number: usize) -> Result<Job, PlanFault>
    ensures ok { IfOk result (λ job. job_fields job ≡ spec.fields_of_job (table_view table.now)) }
    ensures faultless { IfOk result (λ _. IsFaultless (spec.profile_at (table_view table.now))) }
    ensures err { IfErr result (RefusesJob (table_view table.now) number) }
{
    let profile = match read_profile(alloc, table) {
        Ok(profile) => profile,
        Err(fault) => return Err(refusal_of(number, fault)),
    };
    Ok(Job {
        start: read_start(table),
        limit: read_limit(table),
        targets: read_targets(table),
        profile,
    })
}

/// The job of a value.
fn read_value(alloc: Global, value: &Value, number: usize) -> Result<Job, PlanFault>
    ensures ok { IfOk result (λ job. job_fields job ≡ spec.fields_of_value (view value.now)) }
    ensures faultless { IfOk result (λ _. IsFaultless (spec.profile_at (spec.table_of (view value.now)))) }
    ensures err { IfErr result (RefusesJob (spec.table_of (view value.now)) number) }
{
    match value.as_table() {
        // A job's form is a table.
        None => read_table(alloc, &Table::new(alloc), number),
        Some(table) => read_table(alloc, table, number),
    }
}

/// The jobs of values.
fn read_values(alloc: Global, values: &[Value]) -> Result<Vec<Job>, PlanFault>
    ensures jobs { IfOk result (λ jobs. map job_fields jobs.items ≡ spec.jobs_of (items_view values.now)) }
    ensures faultless { IfOk result (λ _. AreFaultlessBelow (items_view values.now) (length values.now)) }
    ensures err { IfErr result (RefusesProfile (items_view values.now)) }
{
    let mut jobs = Vec::new(alloc);
    for value in values {
        let job = match read_value(alloc, value, jobs.len()) {
            Ok(job) => job,
            Err(fault) => return Err(fault),
        };
        if jobs.push(job).is_err() {
            return Err(PlanFault::OutOfMemory);
        }
    }
    Ok(jobs)
}

/// The jobs of a plan.
pub(crate) fn read_jobs(alloc: Global, plan: &Table) -> Result<Vec<Job>, PlanFault>
    ensures jobs { IfOk result (λ jobs. map job_fields jobs.items ≡ spec.jobs_of (spec.jobs_at (table_view plan.now))) }
    ensures faultless { IfOk result (λ _. AreFaultlessBelow (spec.jobs_at (table_view plan.now)) (count_of (spec.jobs_at (table_view plan.now)))) }
    ensures err { IfErr result (RefusesProfile (spec.jobs_at (table_view plan.now))) }
{
    match array_at(plan, "jobs") {
        None => Ok(Vec::new(alloc)),
        Some(values) => read_values(alloc, values),
    }
}

/// How many jobs a plan has.
#[tactic(auto, using(crate::proofs::Items::count_of_view))]
fn job_count(plan: &Table) -> usize
    ensures { result ≡ count_of (spec.jobs_at (table_view plan.now)) }
{
    match array_at(plan, "jobs") {
        None => 0,
        Some(values) => values.len(),
    }
}

/// Refuses a plan with too many jobs.
pub(crate) fn check_count(plan: &Table) -> Result<(), PlanFault>
    ensures ok { OnOk result (HasFewJobs (table_view plan.now)) }
    ensures err { IfErr result (RefusesCount (table_view plan.now)) }
{
    if job_count(plan) > MOST_JOBS {
        Err(PlanFault::TooManyJobs)
    } else {
        Ok(())
    }
}
