//! What a list says of a trace.

ghost use Rattle.std.specs.Prelude.{◌≡◌};
ghost use Rattle.trace_lines.specs.Lists.{IsSummary, IsSummaryBy, duration_of};

use std::alloc::Allocator;
use trace_store::{TraceDigest, ViewSpan, service_of};

/// What a list says of a trace.
#[derive(Clone, Copy)]
pub struct Summary<'a> {
    /// The identifier of the trace.
    pub trace: u128,
    /// The earliest start of its spans, in nanoseconds since 1970.
    pub start_time_unix_nano: u64,
    /// The latest end of its spans, in nanoseconds since 1970.
    pub end_time_unix_nano: u64,
    /// The name of its root: the first span that names no parent, or else the first of all.
    pub name: &'a str,
    /// The service that made its root.
    pub service: &'a str,
    /// How many spans it has.
    pub span_count: u64,
    /// How many of them are errors.
    pub error_count: u64,
}

impl Summary<'_> {
    /// The time from the earliest start to the latest end, in nanoseconds.
    pub fn duration_nanos(&self) -> u64
        ensures { result ≡ duration_of self.now }
    {
        self.end_time_unix_nano
            .saturating_sub(self.start_time_unix_nano)
    }
}

/// What a list says of a trace with this root and this digest.
fn summary_with<'a, A: Allocator>(
    trace: u128,
    root: &'a ViewSpan<A>,
    digest: &TraceDigest<ViewSpan<A>, A>,
) -> Summary<'a>
    ensures { IsSummary trace root.now digest.now result }
{
    Summary {
        trace,
        start_time_unix_nano: digest.start_time_unix_nano(),
        end_time_unix_nano: digest.end_time_unix_nano(),
        name: &root.span.name,
        service: service_of(root),
        span_count: digest.span_count(),
        error_count: digest.error_count(),
    }
}

/// What a list says of a trace with this digest: nothing, where it has no span. Its root is the
/// first span that names no parent; where each names one, the first span of all. (profile)
pub fn summary_of_digest<'a, A: Allocator>(
    trace: u128,
    digest: &'a TraceDigest<ViewSpan<A>, A>,
) -> Option<Summary<'a>>
    ensures { IsSummaryBy digest.now.root trace digest.now result }
{
    match digest.root() {
        Some(root) => Some(summary_with(trace, root, digest)),
        None => None,
    }
}
