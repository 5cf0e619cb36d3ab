//! Why a table or fields are no profile.

use crate::key::Key;
use std::alloc::{Allocator, Global};
use std::error::Error;
use std::fmt;

/// Why a table is no profile: the first key in byte order that is at fault.
#[derive(Debug, Drop)]
pub enum ProfileFault<A: Allocator = Global> {
    /// P1: no key has this name.
    UnknownKey(String<A>),
    /// P2: the value at the key is of another kind.
    WrongKind(Key),
    /// P3: the number at the key is out of its range.
    OutOfRange(Key),
    /// P4: the name at the key is that of no policy.
    UnknownPolicy(Key),
    /// P5: memory ran out for the name of an unknown key.
    OutOfMemory,
}

impl<A: Allocator> fmt::Display for ProfileFault<A> {
    ghost use Rattle.std.specs.Prelude.{Some};
    ghost use Rattle.core_profile.specs.Codes.{fault_text};

    ghost output = { λ fault. Some (fault_text fault) };

    fn fmt<W: fmt::Write>(&self, f: &mut fmt::Formatter<W>) -> fmt::Result {
        match self {
            ProfileFault::UnknownKey(name) => write!(f, "P1 {name}"),
            ProfileFault::WrongKind(key) => write!(f, "P2 {key}"),
            ProfileFault::OutOfRange(key) => write!(f, "P3 {key}"),
            ProfileFault::UnknownPolicy(key) => write!(f, "P4 {key}"),
            ProfileFault::OutOfMemory => f.write_str("P5"),
        }
    }
}

impl<A: Allocator + fmt::Debug> Error for ProfileFault<A> {}
