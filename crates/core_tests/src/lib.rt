//! Tests of the out-of-order core through its public calls: worked examples whose figures are known, eight programs at
//! once, what a core shows of itself, its guesses and its fetch policies. They stand apart from the crates whose calls
//! they are, which would be proved a second time with them.
#![tactic(auto)]

#[cfg(test)]
mod bounds;
#[cfg(test)]
mod cores;
#[cfg(test)]
mod eight_programs;
#[cfg(test)]
mod entries;
#[cfg(test)]
mod equal;
#[cfg(test)]
mod guesses;
#[cfg(test)]
mod picks;
#[cfg(test)]
mod runs;
#[cfg(test)]
mod spans;
#[cfg(test)]
mod worked_figures;
