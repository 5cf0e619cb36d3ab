//! The predictor of one context.

ghost use Rattle.std.specs.Prelude.{◌≡◌, ◌/◌, ◌%◌};
ghost use Rattle.branch_predict.specs.Predictor.{untrained, is_return as is_return_of, guessed, guessed_jalr, after_call, after_jalr, after_fetch, after_retirement};

use crate::counter::Counter;
use crate::return_stack::ReturnStack;
use hart_step::{following, offset_by};
use rv64_decode::{Insn, Register};
use std::marker::Model;

/// The place of a branch's counter.
fn counter_place(pc: u64) -> usize
    ensures { result ≡ pc / 4 % 256 }
{
    (pc / 4 % 256) as usize
}

/// The place of a JALR's last target.
fn target_place(pc: u64) -> usize
    ensures { result ≡ pc / 4 % 64 }
{
    (pc / 4 % 64) as usize
}

/// Whether a JALR is a return: it writes x0 and reads x1.
fn is_return(rd: Register, rs1: Register) -> bool
    ensures { result ≡ is_return_of rd rs1 }
{
    rd.index() == 0 && rs1.index() == 1
}

/// What one context has learned: a counter for each branch, the return addresses, and where other jumps went last.
#[derive(Drop)]
pub(crate) struct ContextTables {
    counters: [Counter; 256],
    returns: ReturnStack,
    targets: [Option<u64>; 64],
}

impl Model for ContextTables {
    ghost use Rattle.branch_predict.specs.Predictor.{Predictor};

    ghost Value = { Predictor };

    ghost view = { λ t. record { counters = t.counters; returns = t.returns; targets = t.targets } };
}

impl ContextTables {
    /// One that has seen nothing.
    #[tactic(auto, unfolding(crate::specs::Predictor::untrained))]
    pub(crate) fn new() -> ContextTables
        ensures { result ≡ untrained }
    {
        ContextTables {
            counters: [Counter::new(); 256],
            returns: ReturnStack::new(),
            targets: [None; 64],
        }
    }

    /// The guess for an instruction that was fetched. A call pushes the address after it, a return pops.
    #[inline(always)]
    pub(crate) fn guess(&mut self, pc: u64, insn: &Insn) -> u64
        ensures value { result ≡ guessed self.old pc insn.now }
        ensures state { self.new ≡ after_fetch self.old pc insn.now }
    {
        match *insn {
            Insn::Jal { rd, offset } => {
                self.call(pc, rd);
                offset_by(pc, i64::from(offset.value()))
            }
            Insn::Jalr { rd, rs1, .. } => self.guess_jalr(pc, rd, rs1),
            Insn::Branch { offset, .. } => {
                let target = offset_by(pc, i64::from(offset.value()));
                if self.counters[counter_place(pc)].says_taken() {
                    target
                } else {
                    following(pc)
                }
            }
            _ => following(pc),
        }
    }

    /// Notes that an instruction retired and went on at `next`. A branch trains its counter, and a JALR that is no
    /// return writes its target.
    pub(crate) fn learn(&mut self, pc: u64, insn: &Insn, next: u64)
        ensures { self.new ≡ after_retirement self.old pc insn.now next }
    {
        match *insn {
            Insn::Branch { .. } => {
                let place = counter_place(pc);
                self.counters[place] = self.counters[place].trained(next != following(pc));
            }
            Insn::Jalr { rd, rs1, .. } => {
                if !is_return(rd, rs1) {
                    self.targets[target_place(pc)] = Some(next);
                }
            }
            _ => {}
        }
    }

    fn guess_jalr(&mut self, pc: u64, rd: Register, rs1: Register) -> u64
        ensures value { result ≡ guessed_jalr self.old pc rd rs1 }
        ensures state { self.new ≡ after_jalr self.old pc rd rs1 }
    {
        if is_return(rd, rs1) {
            return self.returns.pop().unwrap_or(following(pc));
        }
        self.call(pc, rd);
        self.targets[target_place(pc)].unwrap_or(following(pc))
    }

    // Pushes the address after a jump that writes x1.
    fn call(&mut self, pc: u64, rd: Register)
        ensures { self.new ≡ after_call self.old pc rd }
    {
        if rd.index() == 1 {
            self.returns.push(following(pc));
        }
    }
}
