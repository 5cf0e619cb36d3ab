//! The comparison that the tests share.

use std::fmt::Debug;
use std::process::Abort;

/// Both are equal. Each `assert_eq!` is proved where it stands, and this one once, for all types.
pub fn assert_equal<T: Copy + PartialEq + Debug>(rt: &impl Abort, found: T, want: T) {
    assert_eq!(rt; found, want);
}
