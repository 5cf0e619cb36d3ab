//! Tests of jobs that many workers share, through the public calls of `worker_pool`.
#![tactic(auto)]

mod desks;
#[cfg(test)]
mod doors;
#[cfg(test)]
mod equal;
#[cfg(test)]
mod meeting;
#[cfg(test)]
mod new_desks;
#[cfg(test)]
mod refusals;
#[cfg(test)]
mod sums;
