//! The physical registers of all contexts.

ghost use Rattle.std.specs.Prelude.{true, false, ◌≡◌, ◌↔◌, ◌+◌, ◌<◌, ◌≤◌, length, replicate, slice_index, IfOk, OnOk, OnErr, IsOk, IsSome, IsTrue, Ok, Err, Some};
ghost use Rattle.rename_file.specs.File.{IsFile, bank, cell, mapped, rename_count, IsNewestFree, with_cell, renamed, committed_one, undone, first, last};
ghost use Rattle.rename_file.specs.Fresh.{IsFresh};
ghost use Rattle.rename_file.specs.Newest.{IsNewest};

use crate::cells::Cells;
use crate::free_list::FreeList;
use crate::rename_map::{Rename, RenameMap, first_maps};
use crate::{PhysicalRegister, RenameFault};
use join_law::Ctx;
use std::alloc::{AllocError, Allocator, Global};
use std::marker::Model;

/// The registers of eight contexts: 32 that are committed for each, and extra ones that they share.
/// No call but `new` takes memory, and each is of one step.
#[derive(Drop)]
pub struct Registers<A: Allocator = Global> {
    cells: Cells<A>,
    free: FreeList,
    // For each register that is a rename, what its rd stood for before. A register is one rename at most, so one array
    // serves all contexts, and no order of the renames is kept.
    previous: [PhysicalRegister; 480],
    maps: [RenameMap; 8],
}

impl<A: Allocator> Model for Registers<A> {
    ghost use Rattle.rename_file.specs.File.{File};
    ghost use Rattle.rename_file.specs.Shown.{shown, IsShown};

    ghost Value = { File };

    ghost view = { shown };

    ghost invariant = { IsShown };
}

impl<A: Allocator + Copy> Registers<A> {
    /// Registers that all hold 0, and so many extra ones that are free.
    pub fn new(alloc: A, extra: usize) -> Result<Self, RenameFault>
        requires { (32 ≤ extra) × (extra ≤ 224) }
        ensures made { IfOk result (λ r. IsFresh r extra) }
        ensures err { OnErr result (result ≡ Err RenameFault.OutOfMemory) }
    {
        Registers::try_new(alloc, extra).map_err(|_| RenameFault::OutOfMemory)
    }

    fn try_new(alloc: A, extra: usize) -> Result<Self, AllocError>
        requires { (32 ≤ extra) × (extra ≤ 224) }
        ensures { IfOk result (λ r. IsFresh r extra) }
    {
        let maps = first_maps();
        let mut free = FreeList::new();
        for number in 256..256 + extra {
            free.push(PhysicalRegister::at(number));
        }
        let cells = Cells::new(alloc, 256 + extra)?;
        Ok(Registers {
            maps,
            free,
            cells,
            previous: [PhysicalRegister::default(); 480],
        })
    }
}

impl<A: Allocator> Registers<A> {
    /// Sets the committed value of one of x1 to x31.
    pub fn set_committed(&mut self, context: Ctx, rd: u8, value: u64)
        requires { (0 < rd) × (rd < 32) }
        ensures set { self.new ≡ with_cell self.old (slice_index (bank self.old context).committed rd) (Some value) }
        ensures file { IsFile self.new }
    {
        let map = &self.maps[context.index()];
        let committed = map.committed(rd);
        self.cells.write(committed.index(), value);
    }

    /// How many registers are free.
    pub fn free_count(&self) -> usize
        ensures { result ≡ length self.now.free }
    {
        self.free.len()
    }

    /// The physical register that one of x0 to x31 stands for: its newest rename, else the committed one.
    pub fn source(&self, context: Ctx, rs: u8) -> PhysicalRegister
        requires { rs < 32 }
        ensures source { result ≡ mapped (bank self.now context) rs }
        ensures newest { IsNewest (bank self.now context) rs result }
        ensures bound { result < length self.now.cells }
    {
        let map = &self.maps[context.index()];
        map.source(rs)
    }

    /// The value of a register, once it is there.
    pub fn value(&self, register: PhysicalRegister) -> Option<u64>
        requires { register < length self.now.cells }
        ensures { result ≡ cell self.now register }
    {
        self.cells.read(register.index())
    }

    /// The value of a register that has it.
    pub fn read(&self, register: PhysicalRegister) -> u64
        requires known { register < length self.now.cells }
        requires valued { IsSome (cell self.now register) }
        ensures { Some result ≡ cell self.now register }
    {
        self.cells.at(register.index())
    }

    /// Whether a register has its value.
    pub fn ready(&self, register: PhysicalRegister) -> bool
        requires { register < length self.now.cells }
        ensures { IsTrue result ↔ IsSome (cell self.now register) }
    {
        self.cells.is_valued(register.index())
    }

    /// The value that is committed for one of x0 to x31.
    pub fn committed(&self, context: Ctx, rs: u8) -> u64
        requires { rs < 32 }
        ensures { Some result ≡ cell self.now (slice_index (bank self.now context).committed rs) }
    {
        let map = &self.maps[context.index()];
        self.cells.at(map.committed(rs).index())
    }

    /// Gives a register its value. Registers 0 to 7 are the contexts' x0, which stay 0.
    pub fn write(&mut self, register: PhysicalRegister, value: u64)
        requires { (8 ≤ register) × (register < length self.old.cells) }
        ensures written { self.new ≡ with_cell self.old register (Some value) }
        ensures file { IsFile self.new }
    {
        self.cells.write(register.index(), value);
    }

    /// Gives a register its value, where a mask has all bits. Where it has none nothing changes, and it returns a register
    /// that has its value, an x0, in place of this one.
    // It takes no jump, which would be guessed wrongly too often: of a choice the compiler makes one.
    #[inline(always)]
    pub fn write_masked(
        &mut self,
        register: PhysicalRegister,
        value: u64,
        mask: u64,
    ) -> PhysicalRegister
        requires register { 0 < mask → (mask ≡ 18446744073709551615) × (8 ≤ register) × (register < length self.old.cells) }
        ensures written { 0 < mask → self.new ≡ with_cell self.old register (Some value) }
        ensures there { 0 < mask → result ≡ register }
        ensures same { mask ≡ 0 → self.new ≡ self.old }
        ensures valued { mask ≡ 0 → IsSome (cell self.old result) }
        ensures file { IsFile self.new }
    {
        let target = masked(register, mask);
        self.cells.write(target.index(), masked_value(value, mask));
        target
    }

    /// Renames one of x1 to x31 to a register that was free, which has no value yet.
    pub fn rename(&mut self, context: Ctx, rd: u8) -> Result<PhysicalRegister, RenameFault>
        requires { (0 < rd) × (rd < 32) }
        ensures none_free { (result ≡ Err RenameFault.NoneFree) ↔ (rename_count self.old + 256 ≡ length self.old.cells) }
        ensures found { IsOk result ↔ (0 < length self.old.free) }
        ensures renamed { IfOk result (λ p. self.new ≡ renamed self.old context rd p) }
        ensures taken { IfOk result (λ p. IsNewestFree self.old p) }
        ensures bound { IfOk result (λ p. (8 ≤ p) × (p < length self.old.cells)) }
        ensures err { OnErr result ((result ≡ Err RenameFault.NoneFree) × (self.new ≡ self.old)) }
        ensures file { IsFile self.new }
    {
        if self.free.len() == 0 {
            return Err(RenameFault::NoneFree);
        }
        Ok(self.rename_destination(context, rd))
    }

    /// The physical register for a destination. For one of x1 to x31 it was free and has no value yet; for x0 it is the
    /// context's own, and nothing changes.
    // It takes no jump on rd, which would be guessed wrongly too often.
    #[inline(always)]
    pub fn rename_destination(&mut self, context: Ctx, rd: u8) -> PhysicalRegister
        requires narrow { rd < 32 }
        requires some { 0 < rd → 0 < length self.old.free }
        ensures same { rd ≡ 0 → self.new ≡ self.old }
        ensures zero { rd ≡ 0 → result ≡ mapped (bank self.old context) 0 }
        ensures renamed { 0 < rd → self.new ≡ renamed self.old context rd result }
        ensures taken { 0 < rd → IsNewestFree self.old result }
        ensures bound { 0 < rd → (8 ≤ result) × (result < length self.old.cells) }
        ensures file { IsFile self.new }
    {
        let register = self.free.take_for(context, rd);
        self.cells.mark(register.index(), rd != 0);
        let map = &mut self.maps[context.index()];
        let previous = map.push(Rename { rd, register });
        self.previous[register.index()] = previous;
        register
    }

    /// Makes the oldest rename of the context, which is lent and has its value, the committed register. The one that it
    /// replaces is free.
    pub fn commit(&mut self, context: Ctx, rename: Rename)
        requires some { 0 < length (bank self.old context).renames }
        requires oldest { rename ≡ first (bank self.old context) }
        requires ready { IsSome (cell self.old (first (bank self.old context)).register) }
        ensures committed { self.new ≡ committed_one self.old context }
        ensures file { IsFile self.new }
    {
        let map = &mut self.maps[context.index()];
        let freed = map.commit(rename);
        self.free.push(freed);
    }

    /// Takes the newest rename of the context, which is lent, off. Its register is free, and its name stands for what it
    /// stood for before.
    pub fn undo(&mut self, context: Ctx, rename: Rename)
        requires some { 0 < length (bank self.old context).renames }
        requires newest { rename ≡ last (bank self.old context) }
        ensures undone { self.new ≡ undone self.old context }
        ensures file { IsFile self.new }
    {
        let Rename { rd, register } = rename;
        let previous = self.previous[register.index()];
        let map = &mut self.maps[context.index()];
        map.undo(rd, previous);
        self.free.push(register);
    }
}

/// A value, where a mask has all bits, and 0, where it has none.
#[inline(always)]
fn masked_value(value: u64, mask: u64) -> u64
    ensures value { mask ≡ 18446744073709551615 → result ≡ value }
    ensures zero { mask ≡ 0 → result ≡ 0 }
{
    value & mask
}

/// A register, where a mask has all bits, and the x0 of context 0, where it has none.
#[inline(always)]
fn masked(register: PhysicalRegister, mask: u64) -> PhysicalRegister
    ensures register { mask ≡ 18446744073709551615 → result ≡ register }
    ensures zero { mask ≡ 0 → result ≡ 0 }
{
    let number = register.index() & mask as usize;
    PhysicalRegister::at(number)
}
