//! What the registers of one context stand for.

ghost use Rattle.std.specs.Prelude.{◌≡◌, ℕ, ◌<◌, length, get_or, slice_index};
ghost use Rattle.rename_file.specs.File.{mapped, renamed_bank, committed_bank, undone_bank, first, last, no_bank};
ghost use Rattle.rename_file.specs.Fresh.{IsFirst};

use crate::PhysicalRegister;
use crate::renames::Renames;
use std::marker::Model;

/// From here on `register` stands for `rd`.
#[derive(Clone, Copy, Debug, PartialEq, Eq)]
pub struct Rename {
    /// The register of the instruction, 1 to 31.
    pub rd: u8,
    /// The physical register that it writes.
    pub register: PhysicalRegister,
}

// The committed registers of a context, and its renames, oldest first. The current map is kept beside them, so that a
// look-up is one index.
#[derive(Drop)]
pub(crate) struct RenameMap {
    current: [PhysicalRegister; 32],
    committed: [PhysicalRegister; 32],
    renames: Renames,
}

impl Model for RenameMap {
    ghost use Rattle.rename_file.specs.File.{Bank};
    ghost use Rattle.rename_file.specs.ShownMap.{shown_bank, IsTracked};

    ghost Value = { Bank };

    ghost view = { shown_bank };

    ghost invariant = { IsTracked };
}

impl RenameMap {
    // A context with registers of its own.
    pub(crate) fn new(context: usize) -> RenameMap
        requires { context < 8 }
        ensures { IsFirst result context }
    {
        let mut committed = [PhysicalRegister::at(context); 32];
        for rd in 1..32 {
            committed[rd] = PhysicalRegister::at(31 * context + 7 + rd);
        }
        RenameMap {
            committed,
            current: committed,
            renames: Renames::new(),
        }
    }

    // The register that rs stands for.
    pub(crate) fn source(&self, rs: u8) -> PhysicalRegister
        requires { rs < 32 }
        ensures { result ≡ mapped self.now rs }
    {
        self.current[rs as usize]
    }

    // The register that is committed for rs.
    pub(crate) fn committed(&self, rs: u8) -> PhysicalRegister
        requires { rs < 32 }
        ensures { result ≡ slice_index self.now.committed rs }
    {
        self.committed[rs as usize]
    }

    // From here on the register stands for rd: a rename, the newest, where rd isn't x0. What stood there is returned.
    #[inline(always)]
    pub(crate) fn push(&mut self, rename: Rename) -> PhysicalRegister
        requires name { rename.rd < 32 }
        requires zero { rename.rd ≡ 0 → rename.register ≡ mapped self.old 0 }
        ensures named { 0 < rename.rd → self.new ≡ renamed_bank self.old rename.rd rename.register }
        ensures zero { rename.rd ≡ 0 → self.new ≡ self.old }
        ensures previous { result ≡ mapped self.old rename.rd }
    {
        let previous = self.current[rename.rd as usize];
        self.current[rename.rd as usize] = rename.register;
        self.renames.push(rename);
        previous
    }

    // The oldest rename becomes the committed register. The one that it replaces is returned.
    #[inline(always)]
    pub(crate) fn commit(&mut self, rename: Rename) -> PhysicalRegister
        requires some { 0 < length self.old.renames }
        requires name { rename.rd < 32 }
        requires oldest { rename ≡ first self.old }
        ensures map { self.new ≡ committed_bank self.old }
        ensures freed { result ≡ slice_index self.old.committed (first self.old).rd }
    {
        let freed = self.committed[rename.rd as usize];
        self.committed[rename.rd as usize] = rename.register;
        self.renames.drop_front();
        freed
    }

    // The newest rename is forgotten: its name stands for a register that it stood for before.
    pub(crate) fn undo(&mut self, rd: u8, previous: PhysicalRegister)
        requires some { 0 < length self.old.renames }
        requires name { rd < 32 }
        requires newest { rd ≡ (last self.old).rd }
        requires previous { previous ≡ mapped (undone_bank self.old) rd }
        ensures { self.new ≡ undone_bank self.old }
    {
        self.current[rd as usize] = previous;
        self.renames.drop_back();
    }
}

// The contexts, each with registers of its own.
pub(crate) fn first_maps() -> [RenameMap; 8]
    ensures eight { length result ≡ 8 }
    ensures first { (c : ℕ) → c < 8 → IsFirst (get_or result c no_bank) c }
{
    [
        RenameMap::new(0),
        RenameMap::new(1),
        RenameMap::new(2),
        RenameMap::new(3),
        RenameMap::new(4),
        RenameMap::new(5),
        RenameMap::new(6),
        RenameMap::new(7),
    ]
}
