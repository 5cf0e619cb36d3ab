//! Lists that grow at their end.

ghost use Rattle.std.specs.Prelude.{◌≡◌, ◌+◌, ◌<◌, ◌≤◌, ◌∷◌, ◌++◌, [], length, List};

use arrayvec::ArrayVec;

/// A list of at most `N` items that grows at its end. A contract sees its items.
pub trait Listing<T, const N: usize> {
    ghost items: { Self → List T };

    /// How many items it has.
    fn len(&self) -> usize
        ensures value { result ≡ length (items self.now) }
        ensures fits { result ≤ N };

    /// One more item, the last.
    fn push(&mut self, item: T)
        requires { length (items self.old) < N }
        ensures items { items self.new ≡ items self.old ++ item ∷ [] }
        ensures len { length (items self.new) ≡ length (items self.old) + 1 };
}

impl<T: Drop, const N: usize> Listing<T, N> for ArrayVec<T, N> {
    ghost items = { λ v. v.items };

    #[inline(always)]
    fn len(&self) -> usize {
        ArrayVec::len(self)
    }

    #[inline(always)]
    fn push(&mut self, item: T) {
        ArrayVec::push(self, item);
    }
}
