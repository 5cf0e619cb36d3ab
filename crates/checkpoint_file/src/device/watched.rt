//! Readers and writers of std, watched.

ghost use Rattle.std.specs.Prelude.{◌≡◌, false, string_bytes};

use std::alloc::{Allocator, Global};

/// A reader or a writer of std under a name, as a `Source` or a `Sink`. An error of any kind, an
/// interruption too, is a failure.
#[derive(Drop)]
pub struct Watched<T, A: Allocator = Global> {
    pub(super) inner: T,
    pub(super) name: String<A>,
    pub(super) failed: bool,
}

impl<T, A: Allocator> Watched<T, A> {
    ghost use Rattle.checkpoint_file.specs.Watched.{fails, inner_of, name_text};

    /// `inner`, of which no call has failed.
    pub fn new(inner: T, name: String<A>) -> Watched<T, A>
        ensures inner { inner_of result ≡ inner }
        ensures name { name_text result ≡ string_bytes name }
        ensures failed { fails result ≡ false }
    {
        Watched {
            inner,
            name,
            failed: false,
        }
    }
}

impl<T, A: Allocator> Watched<T, A> {
    ghost use Rattle.checkpoint_file.specs.Watched.{inner_of};

    /// The reader or writer itself.
    pub fn into_inner(self) -> T
    where
        T: Drop,
        ensures { result ≡ inner_of self }
    {
        self.inner
    }
}
