//! Jobs that many workers share: each job is run once, and the results are joined.
#![tactic(auto)]

mod alone;
mod collect;
mod crew;
mod deal;
mod done;
mod drain;
mod fault;
mod gate;
mod gather;
mod hand;
mod kit;
mod log;
mod order;
mod owner;
mod pool;
mod row;
mod rows;
mod rule;
mod shared;
mod shift;
mod supply;
mod thief;
mod turn;
mod work;
mod worker;

pub use done::Done;
pub use fault::PoolFault;
pub use gate::{Gate, Open};
pub use pool::run_all;
pub use work::Work;
