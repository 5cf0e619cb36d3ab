//! Where fetch goes on after an entry, and what the guess learns of one.

ghost use Rattle.std.specs.Prelude.{◌≡◌, ◌-◌, ◌%◌};
ghost use Rattle.core_view.specs.declared.operation.Operation.TheVariants.{Performs};
ghost use Rattle.core_view.specs.Operations.{is_guessed};
ghost use Rattle.lawful_cycle.specs.Fetch.{IsFollowedBy, IsStated};
ghost use Rattle.lawful_cycle.specs.Queries.{followed_by, when_shown};

use branch_predict::Guess;
use core_view::{Decoded, Entry, Operation};
use join_law::Ctx;
use rv64_decode::Insn;

/// Where fetch goes on after an entry.
#[derive(Clone, Copy, Debug, PartialEq, Eq)]
pub struct Onward {
    /// The pc.
    pub pc: u64,
    /// Whether the entry ends its block: fetch doesn't go on in line, or it stops at fetch.
    pub ends: bool,
}

/// The pc at which fetch goes on after an operation: by the guess, its two low bits cleared, where that depends on
/// registers. A JAL is shown to the guess, and what it returns isn't used.
// One form after another is asked for, a branch first: a jump over all of them would be guessed wrongly too often.
#[inline(always)]
pub fn followed<G: Guess>(guess: &mut G, context: Ctx, pc: u64, operation: &Decoded) -> u64
    ensures follows { IsFollowedBy (G.may_answer guess.old context pc) operation.now pc result }
    ensures value { result ≡ followed_by (G.answer guess.old context pc) operation.now pc }
    ensures state { guess.new ≡ when_shown operation.now (G.after_guess guess.old context pc) guess.old }
{
    if let Operation::Performs { insn } = operation.operation() {
        if operation.is_guessed() {
            if let Insn::Branch { .. } = insn {
                return guessed(guess, context, pc, insn);
            }
            return guessed_apart(guess, context, pc, insn);
        }
        if let Insn::Jal { .. } = insn {
            let _answer = guess.guess(context, pc, insn);
        }
    }
    operation.operation().unguessed_next(pc)
}

/// What is guessed of an instruction, its two low bits cleared.
#[inline(always)]
fn guessed<G: Guess>(guess: &mut G, context: Ctx, pc: u64, insn: &Insn) -> u64
    ensures stated { IsStated (G.may_answer guess.old context pc) (Performs insn.now) result }
    ensures value { result ≡ G.answer guess.old context pc insn.now - G.answer guess.old context pc insn.now % 4 }
    ensures state { guess.new ≡ G.after_guess guess.old context pc insn.now }
{
    let answer = guess.guess(context, pc, insn);
    answer - answer % 4
}

/// What is guessed of an instruction, out of line.
#[inline(never)]
fn guessed_apart<G: Guess>(guess: &mut G, context: Ctx, pc: u64, insn: &Insn) -> u64
    ensures stated { IsStated (G.may_answer guess.old context pc) (Performs insn.now) result }
    ensures value { result ≡ G.answer guess.old context pc insn.now - G.answer guess.old context pc insn.now % 4 }
    ensures state { guess.new ≡ G.after_guess guess.old context pc insn.now }
{
    guessed(guess, context, pc, insn)
}

/// A branch or jump that retires, guessed or not, is shown to the guess, with the pc at which its context goes on.
#[inline(always)]
pub fn learn<G: Guess>(guess: &mut G, context: Ctx, entry: &Entry, next: u64, guessed: bool)
    requires { guessed ≡ is_guessed entry.now.operation }
    ensures { guess.new ≡ when_shown entry.now.operation (λ insn. G.after_learn guess.old context entry.now.pc insn next) guess.old }
{
    let operation = entry.operation.operation();
    if guessed {
        if let Operation::Performs { insn } = operation {
            guess.learn(context, entry.pc, insn, next);
        }
        return;
    }
    // A JAL is passed as one: a guess that learns nothing of it then has nothing to do here, and needs no test.
    if let Operation::Performs { insn } = operation {
        if let Insn::Jal { rd, offset } = *insn {
            let jump = Insn::Jal { rd, offset };
            guess.learn(context, entry.pc, &jump, next);
        }
    }
}
