//! Environments.

ghost use Rattle.std.specs.Prelude.{◌≡◌};
ghost use Rattle.hart_step.specs.State.{environment_number};

/// What a hart runs in: which pages there are and what loads and stores may do.
#[derive(Clone, Copy, Debug, PartialEq, Eq, Hash)]
pub enum Environment {
    /// A load or store at an address that its width does not divide stops.
    One,
}

impl Environment {
    /// The number of the environment, as digests and texts write it.
    pub fn number(self) -> u8
        ensures { result ≡ environment_number self }
    {
        match self {
            Environment::One => 1,
        }
    }
}
