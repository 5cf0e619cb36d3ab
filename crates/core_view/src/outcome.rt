//! What an instruction does in flight.
ghost use Rattle.std.specs.Prelude.{◌≡◌};
ghost use Rattle.hart_step.specs.Values.{loaded};
ghost use Rattle.core_view.specs.Outcomes.{goes_to as goes_to_of, loads_at as loads_at_of, stores_at as stores_at_of, outcome_with, bytes_written, span_of};

use crate::span::{Bytes, Span};
use hart_step::{Effect, Stop, following, load_width, stop_of_fault, store_width};
use paged_memory::Fault;
use rv64_decode::{LoadKind, StoreWidth};

/// What an instruction reads or writes of memory.
#[derive(Clone, Copy, Debug, PartialEq, Eq)]
pub enum Access {
    /// Nothing.
    Free,
    /// A load reads a span.
    Reads { span: Span },
    /// A store writes bytes.
    Writes { bytes: Bytes },
}

impl Access {
    /// The bytes of a store.
    #[inline]
    pub fn bytes(&self) -> Option<Bytes>
        ensures { result ≡ bytes_written self.now }
    {
        match *self {
            Access::Writes { bytes } => Some(bytes),
            Access::Free | Access::Reads { .. } => None,
        }
    }

    /// The span of a load.
    #[inline]
    pub fn span(&self) -> Option<Span>
        ensures { result ≡ span_of self.now }
    {
        match *self {
            Access::Reads { span } => Some(span),
            Access::Free | Access::Writes { .. } => None,
        }
    }
}

/// What an instruction does that doesn't stop.
#[derive(Clone, Copy, Debug, PartialEq, Eq)]
pub struct Step {
    /// The value for the destination, 0 where there is none.
    pub result: u64,
    /// The next pc.
    pub next: u64,
    /// What it reads or writes of memory.
    pub access: Access,
}

/// What an instruction does: it goes on, or it stops its context once it is the oldest.
#[derive(Clone, Copy, Debug, PartialEq, Eq)]
pub enum Outcome {
    /// It goes on.
    Goes { step: Step },
    /// It stops, and changes nothing.
    Stops { why: Stop },
}

/// Gives a value and goes on at a target.
#[inline(always)]
pub fn goes_to(value: u64, target: u64) -> Outcome
    ensures { result ≡ goes_to_of value target }
{
    Outcome::Goes {
        step: Step {
            result: value,
            next: target,
            access: Access::Free,
        },
    }
}

/// The result of a load of a number, looked up: the kinds of loads follow in no order that a jump could be guessed by.
#[inline(always)]
fn result_of(kind: LoadKind, number: u64) -> u64
    ensures { result ≡ loaded kind number }
{
    let byte = (number % 0x100) as u8;
    let half = (number % 0x1_0000) as u16;
    let word = (number % 0x1_0000_0000) as u32;
    let results = [
        i64::from(byte.cast_signed()).cast_unsigned(),
        i64::from(half.cast_signed()).cast_unsigned(),
        i64::from(word.cast_signed()).cast_unsigned(),
        number,
        u64::from(byte),
        u64::from(half),
        u64::from(word),
    ];
    results[kind as usize]
}

/// A load of a number at an address.
#[inline(always)]
pub fn loads_at(pc: u64, kind: LoadKind, address: u64, number: u64) -> Outcome
    ensures { result ≡ loads_at_of pc kind address number }
{
    let span = Span {
        address,
        size: load_width(kind).bytes(),
    };
    Outcome::Goes {
        step: Step {
            result: result_of(kind, number),
            next: following(pc),
            access: Access::Reads { span },
        },
    }
}

/// A store of a value at an address.
#[inline(always)]
pub fn stores_at(pc: u64, width: StoreWidth, address: u64, value: u64) -> Outcome
    ensures { result ≡ stores_at_of pc width address value }
{
    let span = Span {
        address,
        size: store_width(width).bytes(),
    };
    Outcome::Goes {
        step: Step {
            result: 0,
            next: following(pc),
            access: Access::Writes {
                bytes: Bytes { span, value },
            },
        },
    }
}

impl Outcome {
    /// The outcome of an effect at a pc, with what memory gives for its access: why it is refused,
    /// or the number that a load reads (for a store any).
    pub fn of_effect(pc: u64, effect: Effect, answered: Result<u64, Fault>) -> Outcome
        ensures { result ≡ outcome_with pc effect answered }
    {
        match effect {
            Effect::Goes { target } => goes_to(0, target),
            Effect::Writes { value, target } => goes_to(value, target),
            Effect::Loads { kind, address } => match answered {
                Ok(number) => loads_at(pc, kind, address, number),
                Err(fault) => Outcome::Stops {
                    why: stop_of_fault(fault),
                },
            },
            Effect::Stores {
                width,
                address,
                value,
            } => match answered {
                Ok(_) => stores_at(pc, width, address, value),
                Err(fault) => Outcome::Stops {
                    why: stop_of_fault(fault),
                },
            },
            Effect::Stops { why } => Outcome::Stops { why },
        }
    }
}
