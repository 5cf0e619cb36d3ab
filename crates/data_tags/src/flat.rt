//! One latency for each kind.

ghost use Rattle.std.specs.Prelude.{◌≡◌, IsTrue, false};
ghost use Rattle.data_tags.specs.Latency.{IsWithin, greatest_latency, lag_of, is_same_lag};

use crate::{Delay, Kind, Lag, Latencies};
use join_law::Ctx;

/// A delay by which every load hits.
#[derive(Clone, Copy, Debug, PartialEq, Eq)]
pub struct Flat {
    pub latencies: Latencies,
}

impl Flat {
    /// The delay of these latencies, that of a load being the hit latency.
    pub fn new(latencies: Latencies) -> Flat
        ensures { result.latencies ≡ latencies }
    {
        Flat { latencies }
    }
}

impl Delay for Flat {
    ghost use Rattle.std.specs.Prelude.{false, refl};
    ghost use Rattle.data_tags.specs.Latency.{greatest_latency, lag_of, is_same_lag};
    ghost use Rattle.data_tags.specs.LatencyLaws.{same_lag_within};

    ghost greatest_lag = { λ s. greatest_latency s.latencies };

    ghost may_answer = { λ s context kind address lag. is_same_lag lag (lag_of s.latencies kind false) };

    ghost answer = { λ s context kind address. lag_of s.latencies kind false };

    ghost after_delay = { λ s context kind address. s };

    ghost delay_keeps = { λ s context kind address. refl };

    ghost greatest_keeps = { λ s context kind address. refl };

    ghost all_within = { λ s context kind address lag stated. same_lag_within s.latencies kind false lag stated };

    fn greatest(&self) -> u8 {
        self.latencies.greatest()
    }

    fn delay(&mut self, _context: Ctx, kind: Kind, _address: u64) -> Lag
        ensures answer { IsTrue (is_same_lag result (lag_of self.old.latencies kind false)) }
        ensures within { IsWithin (greatest_latency self.old.latencies) result }
        ensures value { result ≡ lag_of self.old.latencies kind false }
        ensures same { self.new ≡ self.old }
    {
        self.latencies.lag(kind, false)
    }
}
