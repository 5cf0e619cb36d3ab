//! The plan of a text.

ghost use Rattle.std.specs.Prelude.{IfErr, IfOk, Ok};
ghost use Rattle.lab_plan.specs.Form.{formed};
ghost use Rattle.lab_plan.specs.Plans.{IsPlanOfText};
ghost use Rattle.toml.specs.Parse.{parse_document};
ghost use Rattle.lab_commands.specs.Commands.{IsPlanRefusal};

use super::refusal::{Refusal, unplanned};
use lab_plan::Plan;
use std::alloc::{Allocator, Global};

/// The plan of a text.
pub fn plan_of<A: Allocator + Copy>(
    alloc: A,
    global: Global,
    text: &str,
) -> Result<Plan, Refusal<A>>
    ensures ok { IfOk result (λ plan. IsPlanOfText (formed (parse_document text.now)) (Ok plan)) }
    ensures err { IfErr result (IsPlanRefusal text.now) }
{
    match Plan::from_text(global, text) {
        Ok(plan) => Ok(plan),
        Err(fault) => Err(unplanned(alloc, &fault)),
    }
}
