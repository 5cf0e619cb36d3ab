//! `explain`: what a code of a refusal means.

ghost use Rattle.std.specs.Prelude.{◌≡◌, false, true, IfErr, OnErr, OnOk};
ghost use Rattle.std.specs.Io.KnownBytes.{Appends};
ghost use Rattle.lab_commands.specs.Devices.{AppendsBeginning};
ghost use Rattle.lab_commands.specs.Refusals.{UnwrittenOf};
ghost use Rattle.refusal_codes.specs.Explanations.{explanation_of};

use super::refusal::Refusal;
use super::text::write_text;
use crate::device::Sink;
use refusal_codes::Code;
use std::alloc::Allocator;

/// Writes what a code means, an example, and what to do. Where the sink fails, a beginning of that
/// was written.
pub fn explain<A: Allocator, W: Sink>(
    alloc: A,
    code: Code,
    output: &mut W,
) -> Result<(), Refusal<A>>
    requires { W.has_failed output.old ≡ false }
    ensures ok { OnOk result (Appends (W.contents output.old) (W.contents output.new)
        (explanation_of code)) }
    ensures works { OnOk result (W.has_failed output.new ≡ false) }
    ensures err { IfErr result (UnwrittenOf (W.name_of output.old)) }
    ensures fails { OnErr result (W.has_failed output.new ≡ true) }
    ensures beginning { OnErr result (AppendsBeginning (W.contents output.old)
        (W.contents output.new) (explanation_of code)) }
    ensures name { W.name_of output.new ≡ W.name_of output.old }
{
    write_text(alloc, output, code.explanation())
}
