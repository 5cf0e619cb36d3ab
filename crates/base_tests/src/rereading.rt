//! What `show` writes, assembled again: a law of the two calls by their public clauses.

ghost use Rattle.std.specs.Prelude.{◌≡◌, IfOk, IfErr};
ghost use Rattle.base_tests.specs.OneWord.{IsOneWord};

use rv64_asm::{AsmFault, Assembly, assemble, show};
use rv64_decode::Insn;
use std::alloc::Allocator;

/// The words of the line that shows an instruction at the start of the text: the word of the
/// instruction alone. They are refused only where memory runs out.
pub fn shown_words<A: Allocator + Copy>(alloc: A, insn: &Insn) -> Result<Vec<u32, A>, AsmFault>
    ensures word { IfOk result (λ words. IsOneWord insn.now words.items) }
    ensures refused { IfErr result (λ e. e ≡ AsmFault.OutOfMemory) }
{
    let line = show(alloc, insn, 0x10000)?;
    let assembly = assemble(alloc, line.as_str())?;
    let Assembly { program, labels: _ } = assembly;
    let (words, _) = program.into_parts();
    Ok(words)
}
