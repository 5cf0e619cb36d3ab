//! The whole text, in two passes.

ghost use Rattle.std.specs.Prelude.{IfOk, IfErr};
ghost use Rattle.std.specs.Str.Lines.{lines};
ghost use Rattle.rv64_asm.specs.Assembled.{IsAssembly, IsRefusal};
ghost use Rattle.rv64_asm.specs.Limits.{IsWithinLimits};

use crate::fault::AsmFault;
use crate::labels::Labels;
use crate::layout::lay_out;
use crate::program::Program;
use crate::writing::write_lines;
use std::alloc::{Allocator, Global};

/// A text assembled: the program, and the labels with their addresses.
#[derive(Drop)]
pub struct Assembly<A: Allocator = Global> {
    pub program: Program<A>,
    pub labels: Labels<A>,
}

/// Assembles a text. It is refused for a fault of the text, or because memory ran out (A8).
///
/// The fault of a text is that of the lowest line with A1, A2, A3, A5 or A7, the first of these
/// that the line has; where there is none, that of the lowest line with A4 or A6.
#[tactic(auto, using(crate::proofs::Refusals::own, crate::proofs::Refusals::target))]
pub fn assemble<A: Allocator + Copy>(alloc: A, text: &str) -> Result<Assembly<A>, AsmFault>
    ensures assembled { IfOk result (λ a. IsAssembly (lines text.now) a.program a.labels) }
    ensures limits { IfOk result (λ a. IsWithinLimits a.program) }
    ensures refused { IfErr result (IsRefusal (lines text.now)) }
{
    let labels = lay_out(alloc, text)?;
    let program = write_lines(alloc, text, &labels)?;
    Ok(Assembly { program, labels })
}
