//! The predictor of all contexts.

ghost use Rattle.std.specs.Prelude.{◌≡◌, IsTrue, IfOk};
ghost use Rattle.branch_predict.specs.Predictor.{new_predictors, guessed_in, after_fetch_in, after_retirement_in};
ghost use Rattle.branch_predict.specs.Stated.{stated};

use crate::Guess;
use crate::context_tables::ContextTables;
use join_law::Ctx;
use rv64_decode::Insn;
use std::alloc::{AllocError, Allocator, Global};
use std::marker::Model;

const CONTEXTS: usize = 8;

/// Two-bit counters for conditional branches, return stacks for returns and last targets for the other JALR, all
/// apart for each context. A squash repairs nothing.
///
/// For a conditional branch it states `pc + 4` and the branch's target, for the rest every pc.
#[derive(Drop)]
pub struct Tables<A: Allocator = Global> {
    contexts: Vec<ContextTables, A>,
}

impl<A: Allocator> Model for Tables<A> {
    ghost use Rattle.std.specs.Prelude.{◌≡◌, List, length};
    ghost use Rattle.branch_predict.specs.Predictor.{Predictor};

    ghost Value = { List Predictor };

    ghost view = { λ t. t.contexts.items };

    ghost invariant = { λ t. length t.contexts.items ≡ 8 };
}

impl<A: Allocator> Tables<A> {
    /// Tables that have seen nothing.
    ///
    /// # Errors
    ///
    /// Where the room for the eight contexts is refused. No other call takes memory.
    pub fn new(alloc: A) -> Result<Self, AllocError>
        ensures { IfOk result (λ tables. tables ≡ new_predictors) }
    {
        let mut contexts = Vec::with_capacity(alloc, CONTEXTS)?;
        for k in 0..CONTEXTS {
            contexts.push(ContextTables::new())?;
        }
        Ok(Tables { contexts })
    }
}

impl<A: Allocator> Guess for Tables<A> {
    ghost use Rattle.std.specs.Prelude.{refl};
    ghost use Rattle.branch_predict.specs.Predictor.{guessed_in, after_fetch_in, after_retirement_in};
    ghost use Rattle.branch_predict.specs.Stated.{stated};

    ghost may_answer = { λ s context pc insn next. stated pc insn next };

    ghost answer = { guessed_in };

    ghost after_guess = { after_fetch_in };

    ghost after_learn = { after_retirement_in };

    ghost guess_keeps = { λ s context pc insn. refl };

    ghost learn_keeps = { λ s context pc insn next. refl };

    #[inline(always)]
    fn guess(&mut self, context: Ctx, pc: u64, insn: &Insn) -> u64
        ensures answer { IsTrue (stated pc insn.now result) }
        ensures value { result ≡ guessed_in self.old context pc insn.now }
        ensures state { self.new ≡ after_fetch_in self.old context pc insn.now }
    {
        self.contexts[context.index()].guess(pc, insn)
    }

    fn learn(&mut self, context: Ctx, pc: u64, insn: &Insn, next: u64)
        ensures state { self.new ≡ after_retirement_in self.old context pc insn.now next }
    {
        self.contexts[context.index()].learn(pc, insn, next);
    }
}
