//! The spans of a trace, with their digest.

ghost use Rattle.std.specs.Prelude.{◌≡◌, ◌+◌, ◌^◌, ◌<◌, ◌++◌, [], IfOk, length, sum_by};
ghost use Rattle.otlp_read.specs.Memory.{at_most_64_bits};

use crate::fold::{Digest, digest_of};
use crate::size::{SpanSize, total_size};
use std::alloc::{AllocError, Allocator};
use std::collections::LinkedList;
use std::marker::Model;

/// The spans of a trace, in the order in which they came, with the digest of them, and how many
/// bytes they take. A clause sees the spans.
#[derive(Drop)]
pub struct Trace<S: SpanSize, D: Digest<S>, A: Allocator> {
    spans: LinkedList<S, A>,
    digest: D,
    bytes: u64,
}

impl<S: SpanSize, D: Digest<S>, A: Allocator> Model for Trace<S, D, A> {
    ghost use Rattle.std.specs.Prelude.{◌≡◌, List, sum_by};
    ghost use Rattle.otlp_read.specs.Memory.{at_most_64_bits};

    ghost Value = { List S };

    ghost view = { λ t. t.spans };

    ghost invariant = { λ t. (t.digest ≡ D.digest_of t.spans)
        × (t.bytes ≡ at_most_64_bits (sum_by S.size_of t.spans)) };
}

impl<S: SpanSize, D: Digest<S>, A: Allocator> Trace<S, D, A> {
    /// The spans, in the order in which they came.
    pub fn spans(&self) -> &LinkedList<S, A>
        ensures { result.now ≡ self.now }
    {
        &self.spans
    }

    /// The digest of the spans.
    pub fn digest(&self) -> &D
        ensures { result.now ≡ D.digest_of self.now }
    {
        &self.digest
    }

    /// How many bytes the spans take, or 2^64 - 1 where that is more.
    pub(crate) fn bytes(&self) -> u64
        ensures { result ≡ at_most_64_bits (sum_by S.size_of self.now) }
    {
        self.bytes
    }
}

impl<S: SpanSize + Drop, D: Digest<S>, A: Allocator + Copy> Trace<S, D, A> {
    /// A trace without spans.
    pub(crate) fn empty(alloc: A) -> Trace<S, D, A>
        ensures { result ≡ [] }
    {
        Trace {
            spans: LinkedList::new(alloc),
            digest: D::empty(),
            bytes: 0,
        }
    }

    /// A trace with these spans.
    pub(crate) fn new(spans: LinkedList<S, A>) -> Result<Trace<S, D, A>, AllocError>
        ensures { IfOk result (λ trace. trace ≡ spans) }
    {
        let digest = digest_of(&spans)?;
        let bytes = total_size(&spans).unwrap_or(u64::MAX);
        Ok(Trace {
            spans,
            digest,
            bytes,
        })
    }

    /// Adds more spans, after those that it has.
    pub(crate) fn append(&mut self, more: Trace<S, D, A>)
        requires { length self.old + length more < 2 ^ 63 }
        ensures { self.new ≡ self.old ++ more }
    {
        let Trace {
            mut spans,
            digest,
            bytes,
        } = more;
        if self.spans.append(&mut spans).is_ok() {
            self.digest.append(digest);
            self.bytes = self.bytes.saturating_add(bytes);
        }
    }
}
