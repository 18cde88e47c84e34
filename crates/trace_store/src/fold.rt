//! What is kept with a trace beside its spans.

ghost use Rattle.std.specs.Prelude.{◌≡◌, ◌++◌, ◌∷◌, [], List, IfOk, OnOk};

use std::alloc::{AllocError, Allocator};
use std::collections::LinkedList;

/// What is kept with a trace beside its spans: a digest of them, so that nobody has to walk over
/// all spans to say what a trace is. A digest takes no memory of its own.
pub trait Digest<S>: Drop {
    // The digest of these spans, in the order in which they came.
    ghost digest_of: { List S → Self };

    /// The digest of no span.
    fn empty() -> Self
        ensures { result ≡ digest_of [] };

    /// Adds a span, which comes after the others.
    ///
    /// # Errors
    ///
    /// `AllocError` where the digest shares the span, and the span has 2^63 - 1 owners.
    fn add(&mut self, span: &S) -> Result<(), AllocError>
        ensures { OnOk result ((spans : List S) → self.old ≡ digest_of spans →
            self.new ≡ digest_of (spans ++ span.now ∷ [])) };

    /// Adds the spans of another digest, which come after the others.
    fn append(&mut self, more: Self)
        ensures { (spans others : List S) → self.old ≡ digest_of spans →
            more ≡ digest_of others → self.new ≡ digest_of (spans ++ others) };
}

/// No digest, where none is wanted.
impl<S> Digest<S> for () {
    ghost digest_of = { λ _. tt };

    fn empty() {}

    fn add(&mut self, _span: &S) -> Result<(), AllocError> {
        Ok(())
    }

    fn append(&mut self, _more: ()) {}
}

/// The digest of spans.
///
/// # Errors
///
/// As `Digest::add` has it.
pub(crate) fn digest_of<S, D: Digest<S>, A: Allocator>(
    spans: &LinkedList<S, A>,
) -> Result<D, AllocError>
    ensures { IfOk result (λ digest. digest ≡ D.digest_of spans.now) }
{
    let mut digest = D::empty();
    for span in spans.iter() {
        digest.add(span)?;
    }
    Ok(digest)
}
