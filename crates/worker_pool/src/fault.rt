//! Why jobs are not run.
use std::error::Error;
use std::fmt;

/// Why jobs are not run. It is printed as its code.
#[derive(Clone, Copy, Debug, PartialEq, Eq)]
pub enum PoolFault {
    /// E1: memory was asked for and refused.
    OutOfMemory,
    /// E2: fewer workers than 1, or more than 64.
    Workers,
}

impl fmt::Display for PoolFault {
    ghost use Rattle.worker_pool.specs.FaultText.{fault_text};

    ghost output = { fault_text };

    fn fmt<W: fmt::Write>(&self, f: &mut fmt::Formatter<W>) -> fmt::Result {
        match self {
            PoolFault::OutOfMemory => write!(f, "E1"),
            PoolFault::Workers => write!(f, "E2"),
        }
    }
}

impl Error for PoolFault {}
