//! Plans: the text of a laboratory's run, read to the programs of eight contexts and the jobs that run them.
#![tactic(auto)]

mod fault;
mod form;
mod job;
mod job_form;
mod jobs;
mod lookups;
mod numbers;
mod origins;
mod plan;
mod programs;
mod start;

pub use fault::PlanFault;
pub use job::Job;
pub use plan::Plan;
pub use start::JobStart;
