//! Guesses that learn nothing.

ghost use Rattle.std.specs.Prelude.{◌≡◌, IsTrue};
ghost use Rattle.hart_step.specs.State.{following as following_of};

use crate::Guess;
use hart_step::following;
use join_law::Ctx;
use rv64_decode::Insn;

/// Guesses one pc, whatever it is asked.
#[derive(Clone, Copy, Debug, PartialEq, Eq)]
pub struct Always(pub u64);

impl Guess for Always {
    ghost use Rattle.std.specs.Prelude.{◌==◌, refl};

    ghost may_answer = { λ s context pc insn next. next == s.0 };

    ghost answer = { λ s context pc insn. s.0 };

    ghost after_guess = { λ s context pc insn. s };

    ghost after_learn = { λ s context pc insn next. s };

    ghost guess_keeps = { λ s context pc insn. refl };

    ghost learn_keeps = { λ s context pc insn next. refl };

    fn guess(&mut self, _context: Ctx, _pc: u64, _insn: &Insn) -> u64 {
        self.0
    }

    fn learn(&mut self, _context: Ctx, _pc: u64, _insn: &Insn, _next: u64) {}
}

/// Guesses the next instruction in line, `pc + 4`.
#[derive(Clone, Copy, Debug, PartialEq, Eq)]
pub struct Sequential;

impl Guess for Sequential {
    ghost use Rattle.std.specs.Prelude.{◌==◌, refl};
    ghost use Rattle.hart_step.specs.State.{following};

    ghost may_answer = { λ s context pc insn next. next == following pc };

    ghost answer = { λ s context pc insn. following pc };

    ghost after_guess = { λ s context pc insn. s };

    ghost after_learn = { λ s context pc insn next. s };

    ghost guess_keeps = { λ s context pc insn. refl };

    ghost learn_keeps = { λ s context pc insn next. refl };

    fn guess(&mut self, _context: Ctx, pc: u64, _insn: &Insn) -> u64 {
        following(pc)
    }

    fn learn(&mut self, _context: Ctx, _pc: u64, _insn: &Insn, _next: u64) {}
}
