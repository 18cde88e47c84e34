//! What a program does.

use otlp_ids::SpanContext;
use otlp_span::{Kind, SpanCall};
use std::alloc::{Allocator, Global};

/// The parent of a span that a step starts (OpenTelemetry Trace API, "Span Creation").
#[derive(Drop)]
#[derive_where(Debug, PartialEq, Eq)]
pub enum Parent<A: Allocator = Global> {
    /// None: the span is the root of a trace.
    Root,
    /// The span with this number, counted from 0 by the starts so far. It need not be there: the
    /// code that runs the steps says whether it is.
    Span(u32),
    /// A span of elsewhere: of another process where the context is remote. The context may be
    /// invalid.
    Given(SpanContext<A>),
}

/// A step of a program: it starts a span, or calls one, or drives the batch processor (Trace SDK,
/// "Batching processor"). An end is a call. Moments are in nanoseconds since 1970.
#[derive(Drop)]
#[derive_where(Debug, PartialEq, Eq)]
pub enum Step<A: Allocator = Global> {
    /// Starts a span. Spans are numbered from 0 in the order of their starts, those too that give
    /// no span.
    Start {
        /// The number of the scope whose tracer makes the span, from 0 on. It need not be there.
        scope: u32,
        /// The parent of the span.
        parent: Parent<A>,
        /// What the span is to the spans round it.
        kind: Kind,
        /// When the span starts, in nanoseconds since 1970.
        at: u64,
        /// The name of the span.
        name: String<A>,
    },
    /// A call on a span.
    Call {
        /// The number of the span, which need not be there.
        span: u32,
        /// The call.
        call: SpanCall<A>,
    },
    /// Asks for the spans that wait (Trace SDK, "ForceFlush").
    Flush,
    /// Asks for the spans that wait; those that end from now on are late (Trace SDK, "Shutdown").
    Shutdown,
    /// Takes the next batch, if it is due and none is out.
    Take {
        /// When.
        at: u64,
    },
    /// Encodes the batch that was taken.
    Encode,
    /// Hands the encoded batch to the exporter (Trace SDK, "Export"), or hands it over once more,
    /// from the moment on that its last reply said.
    Attempt {
        /// When.
        at: u64,
    },
    /// Judges the outcome of the attempt.
    Reply {
        /// When.
        at: u64,
        /// A random word, which the wait before another attempt is drawn from.
        word: u64,
    },
}
