//! The number of a context.

ghost use Rattle.std.specs.Prelude.{◌≡◌, ◌↔◌, ◌<◌, ◌∷◌, [], ℕ, IsTrue, IsSome, IfSome};

use std::marker::Model;

/// The number of a context, from 0 to 7. A contract sees it as that number.
#[derive(Clone, Copy, Debug, Default, PartialEq, Eq, Hash, PartialOrd, Ord)]
pub struct Ctx {
    // As wide as an index: what holds it beside a word has no padding then, which would be cleared with each copy.
    number: usize,
}

impl Model for Ctx {
    ghost Value = { ℕ };

    ghost view = { λ c. c.number };

    ghost invariant = { λ c. c.number < 8 };

    ghost inverse = { λ n. record { number = n } };
}

impl Ctx {
    /// The context of a number below 8, else `None`.
    pub fn new(number: usize) -> Option<Ctx>
        ensures found { IsSome result ↔ (number < 8) }
        ensures value { IfSome result (λ c. c ≡ number) }
    {
        if is_number(number) {
            Some(Ctx::numbered(number))
        } else {
            None
        }
    }

    // The context of a number.
    #[inline(always)]
    fn numbered(number: usize) -> Ctx
        requires { number < 8 }
        ensures { result ≡ number }
    {
        Ctx { number }
    }

    /// The eight contexts, in order.
    pub fn all() -> [Ctx; 8]
        ensures { result ≡ 0 ∷ 1 ∷ 2 ∷ 3 ∷ 4 ∷ 5 ∷ 6 ∷ 7 ∷ [] }
    {
        [
            Ctx { number: 0 },
            Ctx { number: 1 },
            Ctx { number: 2 },
            Ctx { number: 3 },
            Ctx { number: 4 },
            Ctx { number: 5 },
            Ctx { number: 6 },
            Ctx { number: 7 },
        ]
    }

    /// The number, as an index into what has one item for each context.
    pub fn index(self) -> usize
        ensures value { result ≡ self }
        ensures bound { result < 8 }
    {
        self.number
    }
}

// Whether a context has the number.
#[inline(always)]
fn is_number(number: usize) -> bool
    ensures { IsTrue result ↔ (number < 8) }
{
    number < 8
}
