//! Comparisons, each a call of a function of its own, which is proved once: `assert_eq!` in its
//! place is proved with the body that it is in.
use std::alloc::Allocator;
use std::fmt::Debug;
use std::process::Abort;

/// Asserts that two values are equal.
pub(crate) fn assert_equal<T: PartialEq + Debug + Drop>(rt: &impl Abort, left: T, right: T) {
    assert_eq!(rt; left, right);
}

/// What `Debug` shows of a value.
pub(crate) fn shown<A: Allocator>(rt: &impl Abort, alloc: A, value: &impl Debug) -> String<A> {
    format!(in alloc; "{value:?}").expect(rt, "memory")
}
