//! A mark that many hold.

ghost use Rattle.std.specs.Prelude.{◌≡◌, IfOk, IfErr, OnErr, Err};
ghost use Rattle.checkpoint.specs.Further.{MarkKin, further, mark_laws};
ghost use Rattle.checkpoint.specs.declared.fault.MarkFault.TheVariants as MarkFault;

use crate::{Mark, MarkFault};
use join_law::Join;
use std::alloc::{AllocFailed, Global};
use std::marker::Model;
use std::sync::Arc;

/// A mark behind an `Arc`: a copy takes no pages. A contract sees the mark. It may cross threads.
#[derive(Drop)]
pub struct Shared {
    held: Arc<Mark>,
}

impl Model for Shared {
    ghost use Rattle.std.specs.Arc.{arc_value};
    ghost use Rattle.checkpoint.specs.MarkValue.{MarkValue};

    ghost Value = { MarkValue };

    ghost view = { λ s. arc_value s.held };
}

impl Shared {
    /// A mark to be shared. C3 hands it back.
    pub fn new(alloc: Global, mark: Mark) -> Result<Shared, (Mark, MarkFault)>
        ensures ok { IfOk result (λ shared. shared ≡ mark) }
        ensures err { IfErr result (λ back. (back.0 ≡ mark) × (back.1 ≡ MarkFault.OutOfMemory)) }
    {
        match Arc::new(alloc, mark) {
            Ok(held) => Ok(Shared { held }),
            Err(AllocFailed { value }) => Err((value, MarkFault::OutOfMemory)),
        }
    }

    /// Another handle of this mark. C3 is the only refusal.
    pub fn try_clone(&self) -> Result<Shared, MarkFault>
        ensures ok { IfOk result (λ copy. copy ≡ self.now) }
        ensures err { OnErr result (result ≡ Err MarkFault.OutOfMemory) }
    {
        match Arc::try_clone(&self.held) {
            Ok(held) => Ok(Shared { held }),
            Err(_) => Err(MarkFault::OutOfMemory),
        }
    }

    /// The mark.
    pub fn mark(&self) -> &Mark
        ensures { result.now ≡ self.now }
    {
        &self.held
    }
}

impl Join for Shared {
    ghost is_kin = { MarkKin };

    ghost joined = { further };

    ghost laws = { mark_laws };

    fn kin(&self, other: &Shared) -> bool {
        self.mark().kin(other.mark())
    }

    fn join(self, other: Shared) -> Shared {
        if self.mark().count() < other.mark().count() {
            other
        } else {
            self
        }
    }
}
