//! Spans as a program makes them (OpenTelemetry Trace API; Trace SDK, "Span Limits", "Sampling"): a
//! [`Provider`] gives tracers, a [`Tracer`] starts spans, and the end of a [`Span`] hands it to an
//! [`EndPass`]. With [`start_span`] and [`SpanExt`] the same takes fewer words: names, keys and
//! values are lent and copied. A thread of a service has a [`ThreadTracer`]: its spans can't be
//! forgotten, and none of its calls fails.
pub use otlp_ids::{IdFault, OutOfMemory, SpanContext, SpanId, TraceFlags, TraceId};
pub use otlp_sampler::{
    AlwaysOff, AlwaysOn, Decision, ParentBased, RatioFault, Sampler, TraceIdRatio,
};
pub use otlp_span::{
    Event, Kind, Link, Open, Resource, Scope, SpanCall, SpanData, SpanLimits, SpanRecord, Status,
    replay,
};
pub use otlp_value::{AttributeList, Limits, Value};
pub use thread_tracer::{Refused, ThreadSpan, ThreadTrace, ThreadTracer};
pub use trace_api::{
    BodyPass, Clock, EndPass, Ended, KeyValue, LinkRef, Provider, Span, SpanExt, SpanRequest,
    StartFault, ToValue, Tracer, ValueRef, WordsRng, start_span,
};
