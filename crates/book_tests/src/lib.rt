//! Tests of what many workers share, through the public calls of `count_board` and `checkpoint_book`.
#![tactic(auto)]

#[cfg(test)]
mod boards;
#[cfg(test)]
mod books;
#[cfg(test)]
mod equal;
#[cfg(test)]
mod marks;
