//! Eight values, one for each context, which join place by place.

ghost use Rattle.std.specs.Prelude.{◌≡◌, ◌↔◌, IsTrue};
ghost use Rattle.std.specs.Borrow.{sem};
ghost use Rattle.join_law.specs.Eight.{EightKin, eight_joined, place_of, places};
ghost use Rattle.join_law.specs.EightLends.{LendsPlace};
ghost use Rattle.join_law.specs.EightLaws.{eight_laws};
ghost use Rattle.join_law.specs.EightParts.{PartsKin};

use crate::{Ctx, Join};

/// A value for each context, that of context i in field `ci`.
#[derive(Debug, PartialEq, Eq, Drop)]
pub struct Eight<J> {
    pub c0: J,
    pub c1: J,
    pub c2: J,
    pub c3: J,
    pub c4: J,
    pub c5: J,
    pub c6: J,
    pub c7: J,
}

impl<J> Eight<J> {
    /// The eight of an array's values, in order of context.
    pub fn from_array(values: [J; 8]) -> Eight<J>
        ensures { places result ≡ values }
    {
        let [c0, c1, c2, c3, c4, c5, c6, c7] = values;
        Eight {
            c0,
            c1,
            c2,
            c3,
            c4,
            c5,
            c6,
            c7,
        }
    }

    /// The values, in order of context.
    pub fn into_array(self) -> [J; 8]
        ensures { result ≡ places self }
    {
        let Eight {
            c0,
            c1,
            c2,
            c3,
            c4,
            c5,
            c6,
            c7,
        } = self;
        [c0, c1, c2, c3, c4, c5, c6, c7]
    }

    /// The value of a context.
    pub fn place(&self, context: Ctx) -> &J
        ensures { result.now ≡ place_of self.now context }
    {
        match context.index() {
            0 => &self.c0,
            1 => &self.c1,
            2 => &self.c2,
            3 => &self.c3,
            4 => &self.c4,
            5 => &self.c5,
            6 => &self.c6,
            _ => &self.c7,
        }
    }

    /// The value of a context, to be written. Those of the other contexts stay.
    pub fn place_mut(&mut self, context: Ctx) -> &mut J
        ensures* writes_back { sem 𝓛 (LendsPlace J.row self.entry context result) }
        ensures value { result.now ≡ place_of self.old context }
    {
        match context.index() {
            0 => &mut self.c0,
            1 => &mut self.c1,
            2 => &mut self.c2,
            3 => &mut self.c3,
            4 => &mut self.c4,
            5 => &mut self.c5,
            6 => &mut self.c6,
            _ => &mut self.c7,
        }
    }
}

/// Eights are kin where the two values of each context are, and each context's values are joined.
impl<J: Join> Join for Eight<J> {
    ghost is_kin = { EightKin J.is_kin };

    ghost joined = { eight_joined J.joined };

    ghost laws = { eight_laws J.is_kin J.joined J.laws };

    fn kin(&self, other: &Eight<J>) -> bool {
        parts_kin(self, other)
    }

    fn join(self, other: Eight<J>) -> Eight<J> {
        let Eight {
            c0: a0,
            c1: a1,
            c2: a2,
            c3: a3,
            c4: a4,
            c5: a5,
            c6: a6,
            c7: a7,
        } = self;
        let Eight {
            c0: b0,
            c1: b1,
            c2: b2,
            c3: b3,
            c4: b4,
            c5: b5,
            c6: b6,
            c7: b7,
        } = other;
        Eight {
            c0: a0.join(b0),
            c1: a1.join(b1),
            c2: a2.join(b2),
            c3: a3.join(b3),
            c4: a4.join(b4),
            c5: a5.join(b5),
            c6: a6.join(b6),
            c7: a7.join(b7),
        }
    }
}

// Whether the values are kin, context by context.
fn parts_kin<J: Join>(left: &Eight<J>, right: &Eight<J>) -> bool
    ensures { IsTrue result ↔ PartsKin J.is_kin left.now right.now }
{
    left.c0.kin(&right.c0)
        && left.c1.kin(&right.c1)
        && left.c2.kin(&right.c2)
        && left.c3.kin(&right.c3)
        && left.c4.kin(&right.c4)
        && left.c5.kin(&right.c5)
        && left.c6.kin(&right.c6)
        && left.c7.kin(&right.c7)
}
