//! Tests of what marks stand on and of marks, through the public calls of `hart_step`, `join_law`, `origin_set` and
//! `checkpoint`.
#![tactic(auto)]

#[cfg(test)]
mod equal;
#[cfg(test)]
mod harts;
#[cfg(test)]
mod joins;
#[cfg(test)]
mod marks;
#[cfg(test)]
mod origins;
#[cfg(test)]
mod programs;
#[cfg(test)]
mod trees;
