//! A comparison in a function of its own: `assert_eq!` in its place is proved with the body that
//! it is in, which takes ten times as long.
use std::fmt::Debug;
use std::process::Abort;

/// Asserts that two values are equal.
pub(crate) fn assert_equal<T: PartialEq + Debug + Drop>(rt: &impl Abort, left: T, right: T) {
    assert_eq!(rt; left, right);
}
