//! What a digest takes of a program, piece by piece, so that no memory is needed.
ghost use Rattle.std.specs.Prelude.{ℕ, List, ◌++◌};
ghost use Rattle.origin_set.specs.OriginBytes.{program_bytes, words_bytes};
ghost use Rattle.sha2.specs.Hashers.{Holds256};

use rv64_asm::Program;
use sha2::{Digest, Sha256};
use std::alloc::Allocator;

/// Takes words, four bytes each.
fn hash_words(hasher: &mut Sha256, words: &[u32])
    ensures { (m : List ℕ) → Holds256 hasher.old m → Holds256 hasher.new (m ++ words_bytes words.now) }
{
    for word in words {
        hasher.update(word.to_le_bytes());
    }
}

/// Takes the program of a context, or that there is none.
pub(crate) fn hash_program<A: Allocator>(hasher: &mut Sha256, program: &Option<Program<A>>)
    ensures { (m : List ℕ) → Holds256 hasher.old m → Holds256 hasher.new (m ++ program_bytes program.now) }
{
    match program {
        None => hasher.update([0]),
        Some(program) => {
            let words = program.words();
            let bytes = program.bytes();
            hasher.update([1]);
            hasher.update((words.len() as u64).to_le_bytes());
            hash_words(hasher, words);
            hasher.update((bytes.len() as u64).to_le_bytes());
            hasher.update(bytes);
        }
    }
}
