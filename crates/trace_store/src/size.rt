//! How large spans are.

ghost use Rattle.std.specs.Prelude.{◌≡◌, ◌^◌, ◌≤◌, ℕ, MatchOption, sum_by};
ghost use Rattle.std.specs.Arc.{arc_value};

use std::alloc::Allocator;
use std::collections::LinkedList;
use std::sync::Arc;

/// What a store keeps of a span.
pub trait SpanSize {
    ghost size_of: { Self → ℕ };

    /// How many bytes it takes, with all that it owns.
    fn size(&self) -> u64
        ensures { result ≡ size_of self.now };
}

/// A span that has several owners takes its bytes once, for all of them.
impl<T: SpanSize, A: Allocator> SpanSize for Arc<T, A> {
    ghost size_of = { λ owner. T.size_of (arc_value owner) };

    fn size(&self) -> u64 {
        T::size(self)
    }
}

/// How many bytes spans take together, if that is below 2^64.
pub(crate) fn total_size<S: SpanSize, A: Allocator>(spans: &LinkedList<S, A>) -> Option<u64>
    ensures { MatchOption result (2 ^ 64 ≤ sum_by S.size_of spans.now)
        (λ total. total ≡ sum_by S.size_of spans.now) }
{
    let mut total = 0u64;
    for span in spans.iter() {
        total = total.checked_add(span.size())?;
    }
    Some(total)
}
