//! `bound`: how many cycles suffice for each job of a plan.

ghost use Rattle.std.specs.Prelude.{◌≡◌, IfErr, IfOk, string_bytes};
ghost use Rattle.report.specs.Bounds.{bounds_text};
ghost use Rattle.lab_commands.specs.Bounds as spec;
ghost use Rattle.lab_commands.specs.Commands.{IsPlanRefusal};
ghost use Rattle.lab_commands.specs.declared.run.refusal.Refusal.TheVariants.{OutOfMemory};

use super::plan::plan_of;
use super::refusal::Refusal;
use lab_plan::Plan;
use report::bounds;
use std::alloc::{Allocator, Global};

/// The lines of a plan's jobs.
fn bounds_of_plan<'a, A: Allocator>(
    alloc: &'a A,
    plan: &Plan,
) -> Result<String<&'a A>, Refusal<&'a A>>
    ensures ok { IfOk result (λ bounds. string_bytes bounds ≡ bounds_text 0 plan.now.jobs) }
    ensures err { IfErr result (λ refusal. refusal ≡ OutOfMemory) }
{
    Ok(bounds(alloc, plan)?)
}

/// The lines of the jobs of a text's plan.
pub fn bounds_of<'a, A: Allocator>(
    alloc: &'a A,
    global: Global,
    text: &str,
) -> Result<String<&'a A>, Refusal<&'a A>>
    ensures ok { IfOk result (λ bounds. spec.IsBounds text.now (string_bytes bounds)) }
    ensures err { IfErr result (IsPlanRefusal text.now) }
{
    let plan = plan_of(alloc, global, text)?;
    let bounds = bounds_of_plan(alloc, &plan);
    drop(plan);
    bounds
}
