//! What a pass of a deque knows.

use std::collections::LinkedList;

/// The jobs that a pass dealt and took, and its parts of the right to know the whole. No value of it is made.
pub struct Hand {
    pub parts: u64,
    pub dealt: LinkedList<usize>,
    pub taken: LinkedList<usize>,
}
