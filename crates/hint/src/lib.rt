//! What the compiler is told beside the code. A contract says that it is so, and the machine code has no test of it.
//!
//! `unreachable!()` and `unwrap()` leave a test and a trap in a proved program too. Here what a caller has proved is told to
//! the compiler, so that it leaves out whatever would lead elsewhere.
#![tactic(auto)]

ghost use Rattle.std.specs.Prelude.{IsTrue};

/// Tells the compiler that a fact holds, as `assert_unchecked` of Rust's `std::hint`. A place that is never come to says so
/// by `assert_unchecked(false)`, since there all is proved.
// There is no second element. A write through a reference that isn't there has no meaning to the compiler, and unlike
// what is only read it isn't left out as unused.
#[inline(always)]
pub fn assert_unchecked(fact: bool)
    requires { IsTrue fact }
{
    if !fact {
        let mut byte = 0u8;
        let mut bytes = [&mut byte; 1];
        *bytes[1] = 1;
    }
}
