//! What a core asks of a guess.

ghost use Rattle.std.specs.Prelude.{◌≡◌, ℕ, Bool, IsTrue};
ghost use Rattle.rv64_decode.specs.declared.insn.Insn.{Insn as Instruction};

use join_law::Ctx;
use rv64_decode::Insn;

/// Guesses where an instruction goes on. It states which pcs it may return for a context, a pc and an instruction,
/// and no call changes that. It also states which pc it returns in each state, and the state after each call.
pub trait Guess {
    /// Whether this pc may be returned for a context, a pc and an instruction: it may hold of every pc.
    ghost may_answer: { Self → ℕ → ℕ → Instruction → ℕ → Bool };

    /// The pc that it returns in a state, for a context, a pc and an instruction.
    ghost answer: { Self → ℕ → ℕ → Instruction → ℕ };

    /// The state after it was queried for a context, a pc and an instruction.
    ghost after_guess: { Self → ℕ → ℕ → Instruction → Self };

    /// The state after it learned that an instruction of a context and a pc retired and went on at a pc.
    ghost after_learn: { Self → ℕ → ℕ → Instruction → ℕ → Self };

    /// The pc after an instruction that was fetched, by the guess. A core queries it in order of fetch, once for each
    /// conditional branch, JALR and JAL that doesn't stop at fetch. The answer for a JAL is not used.
    fn guess(&mut self, context: Ctx, pc: u64, insn: &Insn) -> u64
        ensures answer { IsTrue (may_answer self.old context pc insn.now result) }
        ensures value { result ≡ answer self.old context pc insn.now }
        ensures state { self.new ≡ after_guess self.old context pc insn.now };

    /// A conditional branch, a JAL or a JALR retired, and went on at `next`.
    fn learn(&mut self, context: Ctx, pc: u64, insn: &Insn, next: u64)
        ensures state { self.new ≡ after_learn self.old context pc insn.now next };

    /// No query changes what it states.
    ghost guess_keeps: { (s : Self) (context pc : ℕ) (insn : Instruction) → may_answer (after_guess s context pc insn) ≡ may_answer s };

    /// Nor does anything that it learns.
    ghost learn_keeps: { (s : Self) (context pc : ℕ) (insn : Instruction) (next : ℕ) → may_answer (after_learn s context pc insn next) ≡ may_answer s };
}
