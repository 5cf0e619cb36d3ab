//! What is called before and after each job.

use std::sync::Wait;

/// What is called before and after each job, by the worker that runs it. No contract says more of it.
pub trait Gate {
    /// Is called before the job's work.
    fn enter<R: Wait>(&self, rt: &R, job: usize);

    /// Is called after the job's work, refused or not.
    fn leave<R: Wait>(&self, rt: &R, job: usize);
}

/// A gate that does nothing.
pub struct Open;

impl Gate for Open {
    fn enter<R: Wait>(&self, _rt: &R, _job: usize) {}

    fn leave<R: Wait>(&self, _rt: &R, _job: usize) {}
}
