//! Where a job starts.

ghost use Rattle.std.specs.Prelude.{◌≡◌};
ghost use Rattle.lab_plan.specs.Jobs.{start_named};

/// Where a job starts.
#[derive(Clone, Copy, Debug, PartialEq, Eq, Hash)]
pub enum JobStart {
    /// At the opening.
    Opening,
    /// At the furthest that another job has come to, or at the opening.
    Furthest,
}

impl JobStart {
    /// The start of a name in a plan's text, if it is one.
    pub(crate) fn from_name(name: &str) -> Option<JobStart>
        ensures { result ≡ start_named name.now }
    {
        if name == "opening" {
            Some(JobStart::Opening)
        } else if name == "furthest" {
            Some(JobStart::Furthest)
        } else {
            None
        }
    }
}
