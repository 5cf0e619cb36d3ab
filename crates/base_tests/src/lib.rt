//! Tests of instruction words, of memory and of the assembler, through the public calls of `rv64_decode`, `paged_memory`
//! and `rv64_asm`.
#![tactic(auto)]

#[cfg(test)]
mod equal;
#[cfg(test)]
mod malformed;
#[cfg(test)]
mod memories;
mod rereading;
#[cfg(test)]
mod texts;
#[cfg(test)]
mod words;

pub use rereading::shown_words;
