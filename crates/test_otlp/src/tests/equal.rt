//! Comparisons, each a call of a function of its own, which is proved once: `assert_eq!` in its
//! place is proved with the body that it is in.
use std::alloc::Global;
use std::fmt::{Debug, Display};
use std::process::Abort;

/// Asserts that two values are equal.
pub(crate) fn assert_equal<T: PartialEq + Debug + Drop>(rt: &impl Abort, left: T, right: T) {
    assert_eq!(rt; left, right);
}

/// Asserts what `Display` writes.
pub(crate) fn assert_displayed<T: Display>(rt: &impl Abort, alloc: Global, value: &T, text: &str) {
    let found = format!(in alloc; "{value}").expect(rt, "memory");
    assert_equal(rt, found.as_str(), text);
}

/// What `Debug` shows of a value.
pub(crate) fn shown(rt: &impl Abort, alloc: Global, value: &impl Debug) -> String {
    format!(in alloc; "{value:?}").expect(rt, "memory")
}
