//! What a trace is, in short.

ghost use Rattle.std.specs.Prelude.{◌≡◌, ◌-◌, ◌^◌, [], ◌∷◌, IfOk, None, option_copied};
ghost use Rattle.std.specs.Option.{option_map};
ghost use Rattle.std.specs.Arc.{arc_value};
ghost use Rattle.trace_store.specs.Digests as spec;

use crate::Digest;
use crate::facts::{end_of, is_error, names_none};
use crate::span::ViewSpan;
use std::alloc::{AllocError, Allocator, Global};
use std::marker::Model;
use std::sync::Arc;

/// What a trace is, in short: its root, when it began and ended, and how many spans it has. It
/// shares the root with whoever keeps the trace, and takes no memory of its own.
#[derive(Drop)]
pub struct TraceDigest<T = ViewSpan<Global>, A: Allocator = Global> {
    root: Option<Arc<T, A>>,
    start_time_unix_nano: u64,
    end_time_unix_nano: u64,
    span_count: u64,
    error_count: u64,
}

impl<T, A: Allocator> Model for TraceDigest<T, A> {
    ghost use Rattle.std.specs.Option.{option_map};
    ghost use Rattle.std.specs.Arc.{arc_value};
    ghost use Rattle.trace_store.specs.Digests as model;

    ghost Value = { model.TraceFacts T };

    ghost view = { λ d. record {
      root = option_map arc_value d.root;
      start_time_unix_nano = d.start_time_unix_nano;
      end_time_unix_nano = d.end_time_unix_nano;
      span_count = d.span_count;
      error_count = d.error_count;
    } };
}

/// The root of a trace with one root, and after its spans others with another root.
fn root_between<A: Allocator>(
    first: Option<Arc<ViewSpan<A>, A>>,
    second: Option<Arc<ViewSpan<A>, A>>,
) -> Option<Arc<ViewSpan<A>, A>>
    ensures { option_map arc_value result
        ≡ spec.root_between (option_map arc_value first) (option_map arc_value second) }
{
    let Some(first) = first else {
        return second;
    };
    let Some(second) = second else {
        return Some(first);
    };
    if names_none(&second.span) && !names_none(&first.span) {
        return Some(second);
    }
    Some(first)
}

/// The digest of one span.
fn digest_of_one<A: Allocator>(
    span: &Arc<ViewSpan<A>, A>,
) -> Result<TraceDigest<ViewSpan<A>, A>, AllocError>
    ensures { IfOk result (λ digest. digest ≡ spec.digest_of (arc_value span.now ∷ [])) }
{
    Ok(TraceDigest {
        root: Some(Arc::try_clone(span)?),
        start_time_unix_nano: span.span.start_time_unix_nano,
        end_time_unix_nano: end_of(&span.span),
        span_count: 1,
        error_count: u64::from(is_error(&span.span)),
    })
}

impl<T, A: Allocator> TraceDigest<T, A> {
    /// The root: the first span that names no parent, or else the first of all; none where there is
    /// no span. (profile)
    pub fn root(&self) -> Option<&T>
        ensures { option_copied result ≡ self.now.root }
    {
        match &self.root {
            Some(root) => Some(root),
            None => None,
        }
    }

    /// The earliest start of its spans, in nanoseconds since 1970; 2^64 - 1 where there is no span.
    pub fn start_time_unix_nano(&self) -> u64
        ensures { result ≡ self.now.start_time_unix_nano }
    {
        self.start_time_unix_nano
    }

    /// The latest end of its spans, in nanoseconds since 1970, where a span that ends before it
    /// starts ends as it starts; 0 where there is no span.
    pub fn end_time_unix_nano(&self) -> u64
        ensures { result ≡ self.now.end_time_unix_nano }
    {
        self.end_time_unix_nano
    }

    /// How many spans it has, or 2^64 - 1 where that is more.
    pub fn span_count(&self) -> u64
        ensures { result ≡ self.now.span_count }
    {
        self.span_count
    }

    /// How many of its spans are errors, or 2^64 - 1 where that is more (opentelemetry-proto,
    /// trace.proto: Status).
    pub fn error_count(&self) -> u64
        ensures { result ≡ self.now.error_count }
    {
        self.error_count
    }
}

impl<T: Drop, A: Allocator> Clone for TraceDigest<T, A> {
    ghost is_clone = { λ digest copy. copy ≡ digest };

    fn clone(&self) -> Result<TraceDigest<T, A>, AllocError> {
        let root = match &self.root {
            Some(root) => Some(Arc::try_clone(root)?),
            None => None,
        };
        Ok(TraceDigest {
            root,
            start_time_unix_nano: self.start_time_unix_nano,
            end_time_unix_nano: self.end_time_unix_nano,
            span_count: self.span_count,
            error_count: self.error_count,
        })
    }
}

impl<A: Allocator> Digest<Arc<ViewSpan<A>, A>> for TraceDigest<ViewSpan<A>, A> {
    ghost use Rattle.trace_store.specs.Digests.{digest_of_kept};

    ghost digest_of = { digest_of_kept };

    fn empty() -> TraceDigest<ViewSpan<A>, A> {
        TraceDigest {
            root: None,
            start_time_unix_nano: u64::MAX,
            end_time_unix_nano: 0,
            span_count: 0,
            error_count: 0,
        }
    }

    fn add(&mut self, span: &Arc<ViewSpan<A>, A>) -> Result<(), AllocError> {
        let one = digest_of_one(span)?;
        self.append(one);
        Ok(())
    }

    fn append(&mut self, more: TraceDigest<ViewSpan<A>, A>) {
        let TraceDigest {
            root,
            start_time_unix_nano,
            end_time_unix_nano,
            span_count,
            error_count,
        } = more;
        self.root = root_between(self.root.take(), root);
        self.start_time_unix_nano = self.start_time_unix_nano.min(start_time_unix_nano);
        self.end_time_unix_nano = self.end_time_unix_nano.max(end_time_unix_nano);
        self.span_count = self.span_count.saturating_add(span_count);
        self.error_count = self.error_count.saturating_add(error_count);
    }
}
