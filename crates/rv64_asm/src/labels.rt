//! The labels of a text, each with its address.

ghost use Rattle.std.specs.Prelude.{◌≡◌, ◌==◌, [], ◌∷◌, ◌++◌, length, None, OnOk, ◌<◌, Some, map, slice_get};
ghost use Rattle.rv64_asm.specs.Label.{address_of};
ghost use Rattle.rv64_asm.specs.LabelIter.{labels_left};

use crate::label_iter::LabelIter;
use indexmap::IndexMap;
use std::alloc::{AllocError, Allocator, Global};
use std::hash::{BuildHasherDefault, FoldHasher};
use std::marker::Model;

/// The labels of a text. A contract sees the list of names with addresses, in order of line.
#[derive(Drop)]
pub struct Labels<A: Allocator = Global> {
    addresses: IndexMap<Vec<u8, A>, u64, BuildHasherDefault<FoldHasher>, A>,
}

impl<A: Allocator> Model for Labels<A> {
    ghost use Rattle.std.specs.Prelude.{List, map};
    ghost use Rattle.rv64_asm.specs.Label.{Label};

    ghost Value = { List Label };

    ghost view = { λ l. map (λ e. (e.0.items, e.1)) l.addresses.entries };
}

impl<A: Allocator + Copy> Labels<A> {
    /// No labels.
    pub(crate) fn new(alloc: A) -> Self
        ensures { result ≡ [] }
    {
        Labels {
            addresses: IndexMap::new(alloc),
        }
    }

    /// Puts a label behind the others.
    pub(crate) fn insert(&mut self, alloc: A, name: &[u8], address: u64) -> Result<(), AllocError>
        requires { address_of self.old name.now ≡ None }
        ensures added { OnOk result (self.new ≡ self.old ++ (name.now, address) ∷ []) }
    {
        self.addresses
            .insert(Vec::from_slice(alloc, name)?, address)?;
        Ok(())
    }
}

impl<A: Allocator> Labels<A> {
    /// The address of the label of this name, if a line has it.
    pub fn get(&self, name: &str) -> Option<u64>
        ensures { result ≡ address_of self.now name.now }
    {
        self.address_of(name.as_bytes())
    }

    pub(crate) fn address_of(&self, name: &[u8]) -> Option<u64>
        ensures { result ≡ address_of self.now name.now }
    {
        self.addresses.get(name).copied()
    }

    /// The label at this place in order of line, its name and its address.
    pub(crate) fn at(&self, index: usize) -> (&[u8], u64)
        requires { index < length self.now }
        ensures { slice_get self.now index ≡ Some (result.0.now, result.1) }
    {
        let (name, address) = self.addresses.get_index(index).unwrap();
        (name.as_slice(), *address)
    }

    /// The labels with their addresses, in order of line.
    pub fn iter(&self) -> LabelIter<'_, A>
        ensures { labels_left result ≡ self.now }
    {
        LabelIter::new(self)
    }

    /// How many labels there are.
    pub fn len(&self) -> usize
        ensures { result ≡ length self.now }
    {
        self.addresses.len()
    }

    /// Whether there is no label.
    pub fn is_empty(&self) -> bool
        ensures { result ≡ (length self.now == 0) }
    {
        self.len() == 0
    }
}
