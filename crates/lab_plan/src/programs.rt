//! The programs of a plan.

ghost use Rattle.std.specs.Prelude.{◌≡◌, IfOk, IfErr, OnOk};
ghost use Rattle.toml.specs.View.{table_view, view};
ghost use Rattle.lab_plan.specs.Programs.{AllAssemble, Assembles, IsProgramOf, programs_at};
ghost use Rattle.lab_plan.specs.Programs as programs;
ghost use Rattle.lab_plan.specs.Returned.{IsRefusalOf, RefusesAs, RefusesOne, RefusesProgram};
ghost use Rattle.rv64_asm.specs.Limits.{IsWithinLimits};

use crate::fault::PlanFault;
use crate::lookups::table_at;
use rv64_asm::{AsmFault, Program, assemble};
use std::alloc::Global;
use toml::{Table, Value};

/// The text of a program.
fn text_of(value: &Value) -> &str
    ensures { result.now ≡ programs.text_of (view value.now) }
{
    match value.as_str() {
        None => "",
        Some(text) => text,
    }
}

/// The program of a value's text.
pub(crate) fn program_of(alloc: Global, value: &Value) -> Result<Program, AsmFault>
    ensures ok { IfOk result (IsProgramOf (view value.now)) }
    ensures limits { IfOk result IsWithinLimits }
    ensures err { IfErr result (IsRefusalOf (view value.now)) }
{
    Ok(assemble(alloc, text_of(value))?.program)
}

/// The refusal of a program for a fault of its text.
fn refusal_of(alloc: Global, name: &str, fault: AsmFault) -> PlanFault
    ensures { RefusesAs name.now fault result }
{
    let AsmFault::At { fault, line } = fault else {
        return PlanFault::OutOfMemory;
    };
    match String::from_str(alloc, name) {
        Ok(name) => PlanFault::Program { name, fault, line },
        Err(_) => PlanFault::OutOfMemory,
    }
}

/// Assembles a program.
fn check_program(alloc: Global, name: &str, value: &Value) -> Result<(), PlanFault>
    ensures ok { OnOk result (Assembles (view value.now)) }
    ensures err { IfErr result (RefusesOne name.now (view value.now)) }
{
    match program_of(alloc, value) {
        Ok(_program) => Ok(()),
        Err(fault) => Err(refusal_of(alloc, name, fault)),
    }
}

/// Assembles each program, in the order of the bytes of their names.
fn assemble_each(alloc: Global, programs: &Table) -> Result<(), PlanFault>
    ensures ok { OnOk result (AllAssemble (table_view programs.now)) }
    ensures err { IfErr result (RefusesProgram (table_view programs.now)) }
{
    for (name, value) in programs {
        if let Err(fault) = check_program(alloc, name.as_str(), value) {
            return Err(fault);
        }
    }
    Ok(())
}

/// Assembles each program of a plan.
pub(crate) fn check_programs(alloc: Global, plan: &Table) -> Result<(), PlanFault>
    ensures ok { OnOk result (AllAssemble (programs_at (table_view plan.now))) }
    ensures err { IfErr result (RefusesProgram (programs_at (table_view plan.now))) }
{
    match table_at(plan, "programs") {
        None => Ok(()),
        Some(programs) => assemble_each(alloc, programs),
    }
}
