//! The form of a plan's jobs.

ghost use Rattle.std.specs.Prelude.{◌≡◌};
ghost use Rattle.toml.specs.View.{items_view, table_view, view};
ghost use Rattle.lab_plan.specs.Form as spec;

use crate::lookups::value_at;
use crate::numbers::number_of;
use crate::start::JobStart;
use toml::{Table, Value};

/// Whether a value is the name of a start.
fn is_start(value: &Value) -> bool
    ensures { result ≡ spec.is_start (view value.now) }
{
    match value.as_str() {
        None => false,
        Some(name) => JobStart::from_name(name).is_some(),
    }
}

/// Whether a value is a number from 0 to 2^40.
fn is_number(value: &Value) -> bool
    ensures { result ≡ spec.is_number (view value.now) }
{
    number_of(value).is_some()
}

/// Whether each value of an array is a number from 0 to 2^40.
#[tactic(auto, using(crate::proofs::Items::all_items_drop, crate::proofs::Items::all_items_end))]
fn are_numbers(values: &[Value]) -> bool
    ensures { result ≡ spec.all_items spec.is_number (items_view values.now) }
{
    for value in values {
        if !is_number(value) {
            return false;
        }
    }
    true
}

/// Whether a value is an array of at most eight numbers.
#[tactic(auto, using(crate::proofs::Items::count_of_view))]
fn are_targets(value: &Value) -> bool
    ensures { result ≡ spec.are_targets (view value.now) }
{
    match value.as_array() {
        None => false,
        Some(numbers) => numbers.len() <= 8 && are_numbers(numbers),
    }
}

/// Whether a key of a job has a value of its kind.
fn is_job_member(key: &str, value: &Value) -> bool
    ensures { result ≡ spec.is_job_member key.now (view value.now) }
{
    if key == "start" {
        is_start(value)
    } else if key == "limit" {
        is_number(value)
    } else if key == "targets" {
        are_targets(value)
    } else if key == "profile" {
        value.is_table()
    } else {
        false
    }
}

/// Whether each key of a job has a value of its kind.
fn has_job_members(table: &Table) -> bool
    ensures { result ≡ spec.all_members spec.is_job_member (table_view table.now) }
{
    for (key, value) in table {
        if !is_job_member(key.as_str(), value) {
            return false;
        }
    }
    true
}

/// Whether a table has a job's form.
fn is_job_form(table: &Table) -> bool
    ensures { result ≡ spec.is_job_form (table_view table.now) }
{
    value_at(table, "limit").is_some() && has_job_members(table)
}

/// Whether a value is a job.
fn is_job(value: &Value) -> bool
    ensures { result ≡ spec.is_job (view value.now) }
{
    match value.as_table() {
        None => false,
        Some(table) => is_job_form(table),
    }
}

/// Whether each value of an array is a job.
#[tactic(auto, using(crate::proofs::Items::all_items_drop, crate::proofs::Items::all_items_end))]
fn has_jobs(values: &[Value]) -> bool
    ensures { result ≡ spec.all_items spec.is_job (items_view values.now) }
{
    for value in values {
        if !is_job(value) {
            return false;
        }
    }
    true
}

/// Whether a value is an array of jobs.
pub(crate) fn are_jobs(value: &Value) -> bool
    ensures { result ≡ spec.are_jobs (view value.now) }
{
    match value.as_array() {
        None => false,
        Some(jobs) => has_jobs(jobs),
    }
}
