//! Tests of checkpoint files, through the public calls of `checkpoint_file`.
#![tactic(auto)]

#[cfg(test)]
mod books;
