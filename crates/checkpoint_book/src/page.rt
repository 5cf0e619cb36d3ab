//! What lies under a lock: the mark and the calls that led to it.
ghost use Rattle.std.specs.Prelude.{◌≡◌, true, [], ◌∷◌, ◌++◌, IfOk, IfErr, OnOk};
ghost use Rattle.checkpoint.specs.Further.{MarkKin};
ghost use Rattle.checkpoint_book.specs.declared.fault.BookFault.TheVariants.{OutOfMemory};
ghost use Rattle.checkpoint_book.specs.Foreign.{RefusesForeign};
ghost use Rattle.checkpoint_book.specs.History.{best, is_legal};
ghost use Rattle.checkpoint_book.specs.declared.call.Call.TheVariants.{Merge, Read};

use crate::{BookFault, Call};
use checkpoint::Shared;
use join_law::Join;
use std::alloc::{AllocError, Global};
use std::snapshot::Snapshot;

/// A mark, and the calls that led to it from the opening.
#[derive(Drop)]
pub struct Page {
    opening: Snapshot<Shared>,
    mark: Shared,
    history: Vec<Call>,
    ghost legal: { is_legal opening.value.count history.items ≡ true },
    ghost best: { mark.count ≡ best opening.value.count history.items },
    ghost kin: { (mark.origin ≡ opening.value.origin) × (mark.context ≡ opening.value.context) },
}

impl Page {
    pub(crate) fn new(alloc: Global, opening: Shared) -> Page
        ensures { (result.opening.value ≡ opening) × (result.history.items ≡ []) }
    {
        Page {
            opening: Snapshot::of(&opening),
            mark: opening,
            history: Vec::new(alloc),
        }
    }

    /// Adds a merge. At `Err` nothing changed, and the mark comes back.
    pub(crate) fn merge(&mut self, pass: u64, mark: Shared) -> Result<(), (Shared, BookFault)>
        ensures opening { self.new.opening ≡ self.old.opening }
        ensures foreign { RefusesForeign self.old.opening.value mark result }
        ensures ok { OnOk result (self.new.history.items ≡ self.old.history.items ++ Merge pass mark.count ∷ []) }
        ensures err { IfErr result (λ e. (e.0 ≡ mark) × (self.new.history.items ≡ self.old.history.items)) }
    {
        let Page {
            mark: held,
            history,
            ..
        } = self;
        if !held.kin(&mark) {
            return Err((mark, BookFault::ForeignOrigin));
        }
        if history.reserve(1).is_err() {
            return Err((mark, BookFault::OutOfMemory));
        }
        history.push_reserved(Call::Merge(pass, mark.mark().count()));
        if held.mark().count() < mark.mark().count() {
            *held = mark;
        }
        Ok(())
    }

    /// Adds a reading, and returns it. At `Err` nothing changed.
    pub(crate) fn read(&mut self, pass: u64) -> Result<Shared, BookFault>
        ensures opening { self.new.opening ≡ self.old.opening }
        ensures kin { IfOk result (λ m. MarkKin self.old.opening.value m) }
        ensures value { IfOk result (λ m. m.count ≡ best self.old.opening.value.count self.old.history.items) }
        ensures ok { IfOk result (λ m. self.new.history.items ≡ self.old.history.items ++ Read pass m.count ∷ []) }
        ensures err { IfErr result (λ e. (e ≡ OutOfMemory) × (self.new.history.items ≡ self.old.history.items)) }
    {
        let Page {
            mark: held,
            history,
            ..
        } = self;
        let Ok(copy) = held.try_clone() else {
            return Err(BookFault::OutOfMemory);
        };
        if history.reserve(1).is_err() {
            return Err(BookFault::OutOfMemory);
        }
        history.push_reserved(Call::Read(pass, held.mark().count()));
        Ok(copy)
    }

    /// The mark, and the calls.
    pub fn into_parts(self) -> (Shared, Vec<Call>)
        ensures count { result.0.count ≡ best self.opening.value.count result.1.items }
        ensures kin { MarkKin self.opening.value result.0 }
        ensures legal { is_legal self.opening.value.count result.1.items ≡ true }
        ensures history { result.1.items ≡ self.history.items }
    {
        let Page {
            opening: _,
            mark,
            history,
        } = self;
        (mark, history)
    }
}
