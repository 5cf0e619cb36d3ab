//! The shortest and the longest lag by turns.

ghost use Rattle.std.specs.Prelude.{◌≡◌, not};
ghost use Rattle.data_tags.specs.Alternate.{alternating_lag};

use crate::{Delay, Kind, Lag};
use join_law::Ctx;

/// Takes 1 cycle and 200 cycles by turns, whatever it is asked. A load of 200 cycles is a miss.
#[derive(Clone, Copy, Debug, PartialEq, Eq)]
pub struct Alternating {
    /// Whether the next lag is 200 cycles.
    pub long: bool,
}

impl Delay for Alternating {
    ghost use Rattle.std.specs.Prelude.{not, refl};
    ghost use Rattle.data_tags.specs.Alternate.{alternating_lag, is_alternating_lag, alternating_within};

    ghost greatest_lag = { λ _. 200 };

    ghost may_answer = { λ s context kind address lag. is_alternating_lag kind lag };

    ghost answer = { λ s context kind address. alternating_lag s.long kind };

    ghost after_delay = { λ s context kind address. record s { long = not s.long } };

    ghost delay_keeps = { λ s context kind address. refl };

    ghost greatest_keeps = { λ s context kind address. refl };

    ghost all_within = { λ s context kind address lag stated. alternating_within kind lag stated };

    fn greatest(&self) -> u8 {
        200
    }

    fn delay(&mut self, _context: Ctx, kind: Kind, _address: u64) -> Lag
        ensures value { result ≡ alternating_lag self.old.long kind }
        ensures turns { self.new.long ≡ not self.old.long }
    {
        let long = self.long;
        self.long = !long;
        lag_of(long, kind)
    }
}

/// 200 cycles, which miss where it is a load, or 1 cycle.
#[inline(always)]
fn lag_of(long: bool, kind: Kind) -> Lag
    ensures { result ≡ alternating_lag long kind }
{
    Lag {
        cycles: if long { 200 } else { 1 },
        miss: long && kind == Kind::Load,
    }
}
