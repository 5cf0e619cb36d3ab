//! The origin of a plan.

ghost use Rattle.std.specs.Prelude.{◌≡◌, ◌≤◌, ◌+◌, IfOk, IfErr, option_copied, option_map};
ghost use Rattle.origin_set.specs.Limits.{IsWithinLimits};
ghost use Rattle.toml.specs.Data.{get_member};
ghost use Rattle.toml.specs.View.{items_view, table_view, view};
ghost use Rattle.lab_plan.specs.Contexts as spec;
ghost use Rattle.lab_plan.specs.Programs.{programs_at};
ghost use Rattle.lab_plan.specs.declared.fault.PlanFault.TheVariants.{OutOfMemory};

use crate::fault::PlanFault;
use crate::lookups::{array_at, item_at, table_at, value_at};
use crate::programs::program_of;
use hart_step::Environment;
use join_law::Ctx;
use origin_set::Origin;
use rv64_asm::Program;
use std::alloc::Global;
use toml::{Table, Value};

/// The name that a context has among these.
fn name_in(names: &[Value], place: usize) -> Option<&str>
    ensures { option_copied result ≡ spec.name_at (items_view names.now) place }
{
    match item_at(names, place) {
        None => None,
        Some(value) => match value.as_str() {
            None => None,
            Some(name) => { if name.is_empty() { None } else { Some(name) } }
        },
    }
}

/// The name that a context has in a plan.
fn name_at(plan: &Table, place: usize) -> Option<&str>
    ensures { option_copied result ≡ spec.name_at (spec.contexts_at (table_view plan.now)) place }
{
    match array_at(plan, "contexts") {
        None => None,
        Some(names) => name_in(names, place),
    }
}

/// The value of a program.
fn program_value<'a>(plan: &'a Table, name: &str) -> Option<&'a Value>
    ensures { option_map (λ v. view v.now) result ≡ get_member name.now (programs_at (table_view plan.now)) }
{
    match table_at(plan, "programs") {
        None => None,
        Some(programs) => value_at(programs, name),
    }
}

/// Whether the program that a context names is there.
fn is_known(plan: &Table, place: usize) -> bool
    ensures { result ≡ spec.is_known (programs_at (table_view plan.now)) (spec.name_at (spec.contexts_at (table_view plan.now)) place) }
{
    match name_at(plan, place) {
        None => true,
        Some(name) => program_value(plan, name).is_some(),
    }
}

/// The first context that names a program which isn't there.
pub(crate) fn first_unknown(plan: &Table) -> Option<Ctx>
    ensures { result ≡ spec.first_unknown (table_view plan.now) }
{
    for context in Ctx::all() {
        if !is_known(plan, context.index()) {
            return Some(context);
        }
    }
    None
}

/// The program that a context starts from.
fn start_of(alloc: Global, plan: &Table, place: usize) -> Result<Option<Program>, PlanFault>
    ensures start { IfOk result (spec.IsStartOf (spec.value_of (table_view plan.now) place)) }
    ensures limits { IfOk result IsWithinLimits }
    ensures err { IfErr result (λ fault. fault ≡ OutOfMemory) }
{
    let Some(name) = name_at(plan, place) else {
        return Ok(None);
    };
    let Some(value) = program_value(plan, name) else {
        return Ok(None);
    };
    match program_of(alloc, value) {
        Ok(program) => Ok(Some(program)),
        // Each program of the plan has been assembled before: only memory is left.
        Err(_) => Err(PlanFault::OutOfMemory),
    }
}

// The programs that four contexts start from. A struct is dropped by one call where memory is refused.
#[derive(Drop)]
struct Four {
    p0: Option<Program>,
    p1: Option<Program>,
    p2: Option<Program>,
    p3: Option<Program>,
}

/// The programs that four contexts start from, from a place on.
fn four_starts(alloc: Global, plan: &Table, place: usize) -> Result<Four, PlanFault>
    requires { place ≤ 4 }
    ensures p0 { IfOk result (λ four. spec.IsStartOf (spec.value_of (table_view plan.now) place) four.p0) }
    ensures p1 { IfOk result (λ four. spec.IsStartOf (spec.value_of (table_view plan.now) (place + 1)) four.p1) }
    ensures p2 { IfOk result (λ four. spec.IsStartOf (spec.value_of (table_view plan.now) (place + 2)) four.p2) }
    ensures p3 { IfOk result (λ four. spec.IsStartOf (spec.value_of (table_view plan.now) (place + 3)) four.p3) }
    ensures limits { IfOk result (λ four.
        IsWithinLimits four.p0 × IsWithinLimits four.p1 × IsWithinLimits four.p2 × IsWithinLimits four.p3) }
    ensures err { IfErr result (λ fault. fault ≡ OutOfMemory) }
{
    let p0 = start_of(alloc, plan, place)?;
    let p1 = start_of(alloc, plan, place + 1)?;
    let p2 = start_of(alloc, plan, place + 2)?;
    let p3 = start_of(alloc, plan, place + 3)?;
    Ok(Four { p0, p1, p2, p3 })
}

/// The origin that the contexts of a plan start from.
pub(crate) fn read_origin(alloc: Global, plan: &Table) -> Result<Origin, PlanFault>
    ensures ok { IfOk result (spec.IsOriginOf (table_view plan.now)) }
    ensures err { IfErr result (λ fault. fault ≡ OutOfMemory) }
{
    let low = four_starts(alloc, plan, 0)?;
    let high = four_starts(alloc, plan, 4)?;
    let programs = [
        low.p0, low.p1, low.p2, low.p3, high.p0, high.p1, high.p2, high.p3,
    ];
    match Origin::new(programs, Environment::One) {
        Ok(origin) => Ok(origin),
        // No program is too large: only memory is left.
        Err(_) => Err(PlanFault::OutOfMemory),
    }
}
