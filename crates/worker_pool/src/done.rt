//! What is left once all jobs were run.

/// The seats, the ends of all jobs, and the join of their results.
#[derive(Drop)]
pub struct Done<S: Drop, J: Drop, N: Drop> {
    /// The join of the opening and all results.
    pub total: J,
    /// Each job's end, in order of job: its note, or none where it was refused.
    pub ends: Vec<Option<N>>,
    /// The seats, in the order in which they were given.
    pub seats: Vec<S>,
}
