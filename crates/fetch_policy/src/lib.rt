//! Which contexts fetch in a cycle: the five fetch policies, and the choice of contexts by any policy.
#![tactic(auto)]

mod choice;
mod least;
mod named;
mod policies;
mod view;

pub use choice::choose;
pub use least::{FRONT_ROOM, NO_COUNT, NO_KEY, first_by_rank, ranks, sums, without, without_full};
pub use named::NamedPick;
pub use policies::{Brcount, Icount, Iqposn, Misscount, Pick, RoundRobin};
pub use view::{Count, FetchContext, FetchView};
