//! Which traces are listed.

ghost use Rattle.std.specs.Prelude.{◌≡◌, ℕ, Bool, List, Option};

use std::collections::LinkedList;

/// Which traces a list has: a test of a trace, by its digest and its spans, and the trace after
/// which the list begins.
pub trait TraceFilter<S, D> {
    // the number of the trace after which the list begins, if it doesn't begin with the newest
    ghost begins_after: { Self → Option ℕ };

    // whether a trace with this number, this digest and these spans is taken
    ghost takes: { Self → ℕ → D → List S → Bool };

    /// The trace after which the list begins; none where it begins with the newest.
    fn after(&self) -> Option<u128>
        ensures { result ≡ begins_after self.now };

    /// Whether a trace is taken.
    fn takes(&self, trace: u128, digest: &D, spans: &LinkedList<S>) -> bool
        ensures { result ≡ takes self.now trace digest.now spans.now };
}
