//! What a seat knows, and what a board is for. No value of `Known` is made.
use std::collections::LinkedList;

/// For how many seats the view stands, and what these raised and saw: each a context and a count.
pub struct Known {
    pub parts: u64,
    pub raised: LinkedList<(u64, u64)>,
    pub seen: LinkedList<(u64, u64)>,
}

/// The opening counts, and the number of seats.
#[derive(Drop)]
pub struct Start {
    pub opening: [u64; 8],
    pub seats: usize,
}
