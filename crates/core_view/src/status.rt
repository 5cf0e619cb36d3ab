//! Whether a context runs.
ghost use Rattle.std.specs.Prelude.{◌≡◌, ◌↔◌, IsTrue};
ghost use Rattle.core_view.specs.View.{status_at};
ghost use Rattle.core_view.specs.declared.status.Status.TheVariants.{Running};

use hart_step::Stop;

/// Whether a context runs.
#[derive(Clone, Copy, Debug, PartialEq, Eq)]
pub enum Status {
    /// It runs.
    Running,
    /// It retired as many instructions as it was to.
    Parked,
    /// Its next instruction stops.
    Stopped { why: Stop },
}

impl Status {
    /// The status of a context with nothing to stop it, by how many instructions it retired and is to retire.
    #[inline]
    pub fn at(count: u64, target: u64) -> Status
        ensures { result ≡ status_at count target }
    {
        if count == target {
            Status::Parked
        } else {
            Status::Running
        }
    }

    /// Whether it runs.
    #[inline]
    pub fn is_running(&self) -> bool
        ensures { IsTrue result ↔ (self.now ≡ Running) }
    {
        matches!(self, Status::Running)
    }
}
