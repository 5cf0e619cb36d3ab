//! Numbers, optional numbers and pairs join.

ghost use Rattle.std.specs.Prelude.{◌≡◌, Some, max};
ghost use Rattle.join_law.specs.Instances.{AlwaysKin, option_max, PairKin, pair_joined};
ghost use Rattle.join_law.specs.InstanceLaws.{number_laws, option_laws, pair_laws};

use crate::Join;

/// Numbers join to the greatest.
impl Join for u64 {
    ghost is_kin = { AlwaysKin };

    ghost joined = { max };

    ghost laws = { number_laws };

    fn kin(&self, _other: &u64) -> bool {
        true
    }

    fn join(self, other: u64) -> u64 {
        greater(self, other)
    }
}

// The greater of two numbers.
#[inline(always)]
fn greater(left: u64, right: u64) -> u64
    ensures { result ≡ max left right }
{
    if left < right { right } else { left }
}

/// Optional numbers join to the greatest that is there; `None` is neutral.
impl Join for Option<u64> {
    ghost is_kin = { AlwaysKin };

    ghost joined = { option_max };

    ghost laws = { option_laws };

    fn kin(&self, _other: &Option<u64>) -> bool {
        true
    }

    fn join(self, other: Option<u64>) -> Option<u64> {
        match other {
            None => self,
            Some(right) => Some(greater_of(self, right)),
        }
    }
}

// The greater of a number that may be there and one that is.
#[inline(always)]
fn greater_of(left: Option<u64>, right: u64) -> u64
    ensures { option_max left (Some right) ≡ Some result }
{
    match left {
        None => right,
        Some(left) => greater(left, right),
    }
}

/// Pairs join part by part.
impl<A: Join, B: Join> Join for (A, B) {
    ghost is_kin = { PairKin A.is_kin B.is_kin };

    ghost joined = { pair_joined A.joined B.joined };

    ghost laws = { pair_laws A.is_kin B.is_kin A.joined B.joined A.laws B.laws };

    fn kin(&self, other: &(A, B)) -> bool {
        self.0.kin(&other.0) && self.1.kin(&other.1)
    }

    fn join(self, other: (A, B)) -> (A, B) {
        let (left_a, left_b) = self;
        let (right_a, right_b) = other;
        (left_a.join(right_a), left_b.join(right_b))
    }
}
