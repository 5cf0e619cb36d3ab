//! The form of a plan's document.

ghost use Rattle.std.specs.Prelude.{◌≡◌};
ghost use Rattle.toml.specs.View.{items_view, table_view, view};
ghost use Rattle.lab_plan.specs.Form as spec;

use crate::job_form::are_jobs;
use toml::value::Array;
use toml::{Table, Value};

/// Whether a value is the number of an environment.
fn is_environment(value: &Value) -> bool
    ensures { result ≡ spec.is_environment (view value.now) }
{
    match value.as_integer() {
        None => false,
        Some(number) => number == 1,
    }
}

/// Whether each value of a table is a text.
fn has_texts(table: &Table) -> bool
    ensures { result ≡ spec.all_members (λ name d. spec.is_text d) (table_view table.now) }
{
    for (_name, value) in table {
        if !value.is_str() {
            return false;
        }
    }
    true
}

/// Whether a value is a table of texts.
fn are_programs(value: &Value) -> bool
    ensures { result ≡ spec.are_programs (view value.now) }
{
    match value.as_table() {
        None => false,
        Some(table) => has_texts(table),
    }
}

/// Whether each value of an array is a text.
#[tactic(auto, using(crate::proofs::Items::all_items_drop, crate::proofs::Items::all_items_end))]
fn are_texts(values: &[Value]) -> bool
    ensures { result ≡ spec.all_items spec.is_text (items_view values.now) }
{
    for value in values {
        if !value.is_str() {
            return false;
        }
    }
    true
}

/// Whether a value is an array of at most eight names.
#[tactic(auto, using(crate::proofs::Items::count_of_view))]
fn are_contexts(value: &Value) -> bool
    ensures { result ≡ spec.are_contexts (view value.now) }
{
    match value.as_array() {
        None => false,
        Some(names) => names.len() <= 8 && are_texts(names),
    }
}

/// Whether a key of a plan has a value of its kind.
fn is_plan_member(key: &str, value: &Value) -> bool
    ensures { result ≡ spec.is_plan_member key.now (view value.now) }
{
    if key == "environment" {
        is_environment(value)
    } else if key == "programs" {
        are_programs(value)
    } else if key == "contexts" {
        are_contexts(value)
    } else if key == "jobs" {
        are_jobs(value)
    } else {
        false
    }
}

/// Whether a document has a plan's form.
#[tactic(auto, unfolding(crate::specs::Form::is_plan_form))]
pub(crate) fn is_plan_form(table: &Table) -> bool
    ensures { result ≡ spec.is_plan_form (table_view table.now) }
{
    for (key, value) in table {
        if !is_plan_member(key.as_str(), value) {
            return false;
        }
    }
    true
}
