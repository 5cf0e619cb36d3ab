//! How many cycles an issued instruction takes.
//!
//! `Delay` is the trait of all latencies. A core asks one at issue, and is right whatever the lags are. `Flat` has
//! one latency for each kind of instruction, `Tags` a table of data tags by which loads hit or miss.
#![tactic(auto)]

mod alternating;
mod delay;
mod flat;
mod latencies;
mod tags;

pub use alternating::Alternating;
pub use delay::{Delay, Kind, Lag};
pub use flat::Flat;
pub use latencies::Latencies;
pub use tags::{Tag, Tags};
