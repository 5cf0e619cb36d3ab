//! The renames of a context, oldest first.

ghost use Rattle.std.specs.Prelude.{◌≡◌, ◌-◌, ◌<◌, [], ◌∷◌, ◌++◌, length, take, drop};

use crate::rename_map::Rename;
use std::marker::Model;
use std::mem;
use std::snapshot::Snapshot;

// Who commits a rename or undoes it lends it. So contracts see the list, and no code reads it: a `Snapshot` has no bytes.
#[derive(Drop)]
pub(crate) struct Renames {
    past: Snapshot<Past>,
}

// What became of a list of renames: nothing yet, or one change after what became of it before.
#[derive(Drop)]
enum Past {
    Nothing,
    Renamed(Snapshot<Past>, Rename),
    Committed(Snapshot<Past>),
    Undone(Snapshot<Past>),
}

impl Model for Renames {
    ghost use Rattle.std.specs.Prelude.{List};
    ghost use Rattle.rename_file.specs.declared.rename_map.Rename.{Rename};
    ghost use Rattle.rename_file.specs.Past.{left_by};

    ghost Value = { List Rename };

    ghost view = { λ r. left_by r.past.value };
}

impl Renames {
    // No rename.
    pub(crate) fn new() -> Renames
        ensures { result ≡ [] }
    {
        Renames {
            past: Snapshot::of(&Past::Nothing),
        }
    }

    // One more rename, the newest, where it is of x1 to x31.
    #[inline(always)]
    pub(crate) fn push(&mut self, rename: Rename)
        ensures named { 0 < rename.rd → self.new ≡ self.old ++ rename ∷ [] }
        ensures zero { rename.rd ≡ 0 → self.new ≡ self.old }
    {
        if rename.rd != 0 {
            let before = mem::replace(&mut self.past, Snapshot::of(&Past::Nothing));
            self.past = Snapshot::of(&Past::Renamed(before, rename));
        }
    }

    // The oldest rename is taken off.
    #[inline(always)]
    pub(crate) fn drop_front(&mut self)
        ensures { self.new ≡ drop 1 self.old }
    {
        let before = mem::replace(&mut self.past, Snapshot::of(&Past::Nothing));
        self.past = Snapshot::of(&Past::Committed(before));
    }

    // The newest rename is taken off.
    #[inline(always)]
    pub(crate) fn drop_back(&mut self)
        ensures { self.new ≡ take (length self.old - 1) self.old }
    {
        let before = mem::replace(&mut self.past, Snapshot::of(&Past::Nothing));
        self.past = Snapshot::of(&Past::Undone(before));
    }
}
