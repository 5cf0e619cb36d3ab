//! Tests of the commands of `smt-lab`, through the public calls of `lab_commands`, of plans that are run, through those of
//! `lab_pool`, and of what a plan says: its jobs, profiles and latencies.
#![tactic(auto)]

#[cfg(test)]
mod blocks;
#[cfg(test)]
mod bounds;
#[cfg(test)]
mod codes;
#[cfg(test)]
mod devices;
#[cfg(test)]
mod endings;
#[cfg(test)]
mod equal;
#[cfg(test)]
mod lags;
#[cfg(test)]
mod listings;
#[cfg(test)]
mod memory;
#[cfg(test)]
mod plan_faults;
#[cfg(test)]
mod plans;
#[cfg(test)]
mod profiles;
#[cfg(test)]
mod refusals;
#[cfg(test)]
mod reports;
#[cfg(test)]
mod small_plans;
#[cfg(test)]
mod words;
