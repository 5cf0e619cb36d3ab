//! What was run with a seat.

/// The jobs that were run, each with its end, and the join of their results.
#[derive(Drop)]
pub struct Log<J: Drop, N: Drop> {
    pub(crate) ends: Vec<(usize, Option<N>)>,
    pub(crate) total: Option<J>,
}
