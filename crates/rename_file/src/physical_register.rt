//! The number of a physical register.

ghost use Rattle.std.specs.Prelude.{◌≡◌, ◌↔◌, ◌<◌, ℕ, IsSome, IfSome};

use std::marker::Model;

/// The number of a physical register, below 480: the eight contexts have 32 committed registers each, and share at
/// most 224 extra ones. A contract sees it as that number.
#[derive(Clone, Copy, Debug, Default, PartialEq, Eq, Hash, PartialOrd, Ord)]
pub struct PhysicalRegister {
    number: u16,
}

impl Model for PhysicalRegister {
    ghost Value = { ℕ };

    ghost view = { λ p. p.number };

    ghost invariant = { λ p. p.number < 480 };

    ghost inverse = { λ n. record { number = n } };
}

impl PhysicalRegister {
    /// The register of a number below 480, else `None`.
    pub fn new(number: usize) -> Option<PhysicalRegister>
        ensures found { IsSome result ↔ (number < 480) }
        ensures value { IfSome result (λ p. p ≡ number) }
    {
        if number < 480 {
            Some(PhysicalRegister::at(number))
        } else {
            None
        }
    }

    /// The register of a number that is known to be one.
    pub(crate) fn at(number: usize) -> PhysicalRegister
        requires { number < 480 }
        ensures { result ≡ number }
    {
        PhysicalRegister {
            number: number as u16,
        }
    }

    /// The number, as an index into what has one item for each register.
    pub fn index(self) -> usize
        ensures value { result ≡ self }
        ensures bound { result < 480 }
    {
        self.number as usize
    }
}
