//! What a core asks of a delay.

ghost use Rattle.std.specs.Prelude.{◌≡◌, ◌≤◌, ℕ, Bool, IsTrue};

use join_law::Ctx;

/// What kind of instruction is issued, as far as latencies tell.
#[derive(Clone, Copy, Debug, PartialEq, Eq)]
pub enum Kind {
    /// A conditional branch, JAL or JALR.
    Branch,
    /// A load.
    Load,
    /// A store.
    Store,
    /// Any other instruction.
    Alu,
}

/// How long an instruction takes.
#[derive(Clone, Copy, Debug, PartialEq, Eq)]
pub struct Lag {
    /// Cycles from issue to completion.
    pub cycles: u8,
    /// Whether it is a load that missed.
    pub miss: bool,
}

/// Says how long an instruction takes from its issue. It states which lags it may give for a context, a kind and an
/// address, all of 1 to `greatest()` cycles, and no call changes that. It also states which lag it gives in each state,
/// and the state after it.
pub trait Delay {
    ghost use Rattle.data_tags.specs.declared.delay.Kind.{Kind as InsnKind};
    ghost use Rattle.data_tags.specs.declared.delay.Lag.{Lag as Latency};
    ghost use Rattle.data_tags.specs.Latency.{IsWithin};

    /// The most cycles that any lag has.
    ghost greatest_lag: { Self → ℕ };

    /// Whether this lag may be given for a context, a kind and an address.
    ghost may_answer: { Self → ℕ → InsnKind → ℕ → Latency → Bool };

    /// The lag that it gives in a state, for a context, a kind and an address.
    ghost answer: { Self → ℕ → InsnKind → ℕ → Latency };

    /// The state after it was queried for a context, a kind and an address.
    ghost after_delay: { Self → ℕ → InsnKind → ℕ → Self };

    /// The most cycles that any lag has, from 1 to 200.
    fn greatest(&self) -> u8
        ensures value { result ≡ greatest_lag self.now }
        ensures least { 1 ≤ result }
        ensures most { result ≤ 200 };

    /// The lag of an instruction that issues now. The address is that of a load or store, and 0 for other kinds.
    fn delay(&mut self, context: Ctx, kind: Kind, address: u64) -> Lag
        ensures answer { IsTrue (may_answer self.old context kind address result) }
        ensures within { IsWithin (greatest_lag self.old) result }
        ensures value { result ≡ answer self.old context kind address }
        ensures state { self.new ≡ after_delay self.old context kind address };

    /// No query changes what it states.
    ghost delay_keeps: { (s : Self) (context : ℕ) (kind : InsnKind) (address : ℕ) → may_answer (after_delay s context kind address) ≡ may_answer s };

    /// Nor the most cycles.
    ghost greatest_keeps: { (s : Self) (context : ℕ) (kind : InsnKind) (address : ℕ) → greatest_lag (after_delay s context kind address) ≡ greatest_lag s };

    /// Each lag that may be given has from 1 to `greatest()` cycles.
    ghost all_within: { (s : Self) (context : ℕ) (kind : InsnKind) (address : ℕ) (lag : Latency) → IsTrue (may_answer s context kind address lag) → IsWithin (greatest_lag s) lag };
}
