//! A plan, and how its text is read.

ghost use Rattle.std.specs.Prelude.{◌≡◌, ◌≤◌, IfOk, IfErr, Some, length};
ghost use Rattle.std.specs.Arc.{arc_value};
ghost use Rattle.toml.specs.Parse.{parse_document};
ghost use Rattle.toml.specs.View.{table_view};
ghost use Rattle.lab_plan.specs.Contexts.{IsOriginOf};
ghost use Rattle.lab_plan.specs.Form.{formed};
ghost use Rattle.lab_plan.specs.Plans.{IsPlanOf, IsPlanOfText};
ghost use Rattle.lab_plan.specs.Returned.{RefusesForm};
ghost use Rattle.lab_plan.specs.declared.fault.PlanFault.TheVariants.{OutOfMemory};

use crate::fault::PlanFault;
use crate::form::is_plan_form;
use crate::job::Job;
use crate::jobs::{check_count, read_jobs};
use crate::origins::{first_unknown, read_origin};
use crate::programs::check_programs;
use origin_set::Origin;
use std::alloc::Global;
use std::marker::Model;
use std::sync::Arc;
use toml::Table;

/// The programs that eight contexts start from, and the jobs that run them. A contract sees the origin and the jobs.
#[derive(Drop)]
pub struct Plan {
    origin: Arc<Origin>,
    jobs: Vec<Job>,
}

impl Model for Plan {
    ghost use Rattle.std.specs.Prelude.{◌≤◌, length};
    ghost use Rattle.std.specs.Arc.{arc_value};
    ghost use Rattle.lab_plan.specs.PlanValue.{PlanValue};

    ghost Value = { PlanValue };

    ghost view = { λ p. record { origin = arc_value p.origin; jobs = p.jobs.items } };

    ghost invariant = { λ p. length p.jobs.items ≤ 4096 };
}

impl Plan {
    /// The plan of a text: a TOML document with the keys `environment`, `programs`, `contexts` and `jobs`.
    ///
    /// # Errors
    /// The first of these: J1 the text is no document of a plan's form; J3 it has more than 4096 jobs; J5 a program
    /// isn't assembled, the first by name in byte order; J2 a context names a program that isn't there, the first
    /// context; J4 a profile is refused, the first job. J6 where memory ran out.
    pub fn from_text(alloc: Global, text: &str) -> Result<Plan, PlanFault>
        ensures { IsPlanOfText (formed (parse_document text.now)) result }
    {
        let table = read_document(alloc, text)?;
        plan_of(alloc, &table)
    }

    /// What the contexts start from.
    pub fn origin(&self) -> &Arc<Origin>
        ensures { arc_value result.now ≡ self.now.origin }
    {
        &self.origin
    }

    /// The jobs, in order: at most 4096.
    pub fn jobs(&self) -> &[Job]
        ensures jobs { result.now ≡ self.now.jobs }
        ensures few { length result.now ≤ 4096 }
    {
        &self.jobs
    }
}

/// The document of a plan's form that a text is.
fn read_document(alloc: Global, text: &str) -> Result<Table, PlanFault>
    ensures ok { IfOk result (λ table. formed (parse_document text.now) ≡ Some (table_view table)) }
    ensures err { IfErr result (RefusesForm (formed (parse_document text.now))) }
{
    match toml::table_from_str(alloc, text) {
        Ok(table) => {
            if is_plan_form(&table) {
                Ok(table)
            } else {
                Err(PlanFault::Form)
            }
        }
        Err(error) => {
            if error.is_memory() {
                Err(PlanFault::OutOfMemory)
            } else {
                Err(PlanFault::Form)
            }
        }
    }
}

/// The plan of a document of a plan's form.
fn plan_of(alloc: Global, document: &Table) -> Result<Plan, PlanFault>
    ensures { IsPlanOf (table_view document.now) result }
{
    check_count(document)?;
    check_programs(alloc, document)?;
    if let Some(context) = first_unknown(document) {
        return Err(PlanFault::UnknownProgram(context));
    }
    let jobs = read_jobs(alloc, document)?;
    match shared_origin(alloc, document) {
        Ok(origin) => Ok(Plan { origin, jobs }),
        Err(fault) => {
            drop(jobs);
            Err(fault)
        }
    }
}

/// What the contexts of a document start from.
fn shared_origin(alloc: Global, document: &Table) -> Result<Arc<Origin>, PlanFault>
    ensures ok { IfOk result (λ origin. IsOriginOf (table_view document.now) (arc_value origin)) }
    ensures err { IfErr result (λ fault. fault ≡ OutOfMemory) }
{
    let origin = read_origin(alloc, document)?;
    match Arc::new(alloc, origin) {
        Ok(origin) => Ok(origin),
        Err(_) => Err(PlanFault::OutOfMemory),
    }
}
