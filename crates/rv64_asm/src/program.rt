//! What is loaded: words of text and bytes of data.

ghost use Rattle.std.specs.Prelude.{◌≡◌};

use std::alloc::{Allocator, Global};
use std::marker::Model;

/// A program: the words of its text and the bytes of its data. A contract sees both lists.
#[derive(Drop)]
pub struct Program<A: Allocator = Global> {
    words: Vec<u32, A>,
    bytes: Vec<u8, A>,
}

impl<A: Allocator> Model for Program<A> {
    ghost use Rattle.rv64_asm.specs.ProgramValue.{ProgramValue};

    ghost Value = { ProgramValue };

    ghost view = { λ p. record { words = p.words.items; bytes = p.bytes.items } };
}

impl<A: Allocator> Program<A> {
    /// The program of these words and bytes.
    pub fn new(words: Vec<u32, A>, bytes: Vec<u8, A>) -> Self
        ensures words { result.words ≡ words.items }
        ensures bytes { result.bytes ≡ bytes.items }
    {
        Program { words, bytes }
    }

    /// The words of the text, in order of address.
    pub fn words(&self) -> &[u32]
        ensures { result.now ≡ self.now.words }
    {
        &self.words
    }

    /// The bytes of the data, in order of address.
    pub fn bytes(&self) -> &[u8]
        ensures { result.now ≡ self.now.bytes }
    {
        &self.bytes
    }

    /// The words and the bytes, with the memory that they stand in.
    pub fn into_parts(self) -> (Vec<u32, A>, Vec<u8, A>)
        ensures words { result.0.items ≡ self.words }
        ensures bytes { result.1.items ≡ self.bytes }
    {
        let Program { words, bytes } = self;
        (words, bytes)
    }
}
