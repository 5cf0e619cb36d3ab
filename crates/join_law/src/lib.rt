//! Joins of values that are kin, and the theorem that the join of many depends on their set alone.
//!
//! Copies of a result that are merged on many threads, in whatever order, grouping and repetition, have to end
//! up the same. `Join` states what a merge must keep for that, as laws that each impl proves. `join_all` and
//! `fold_tree` then give, for a list or a tree, a value that its set of values alone decides.
#![tactic(auto)]

ghost use Rattle.std.specs.Prelude.{◌≡◌, ◌↔◌, IsTrue};
ghost use Rattle.join_law.specs.Laws.{JoinLaws};

mod context;
mod eights;
mod instances;
mod merges;
mod places;

pub use context::Ctx;
pub use eights::{fold_eights, join_eights};
pub use merges::{Tree, fold_tree, join_all};
pub use places::Eight;

/// Values of which kin can be joined, in any order, grouping and repetition.
pub trait Join: Drop {
    /// Which two values may be joined.
    ghost is_kin: { Self → Self → Type 0 };

    /// What two values that are kin join to.
    ghost joined: { Self → Self → Self };

    /// Whether the two may be joined.
    fn kin(&self, other: &Self) -> bool
        ensures { IsTrue result ↔ is_kin self.now other.now };

    /// The join of two values that are kin.
    fn join(self, other: Self) -> Self
        requires { is_kin self other }
        ensures { result ≡ joined self other };

    /// Kin is an equivalence, a join is kin to its parts, and among kin `joined` is idempotent, commutative and
    /// associative.
    ghost laws: { JoinLaws is_kin joined };
}
