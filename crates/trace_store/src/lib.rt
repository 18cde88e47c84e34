//! The newest traces of those that were received, within bounds: what keeps them, and the spans
//! that are kept to be shown.
//!
//! A [`TraceStore`] keeps spans by the trace that they belong to; a span is whatever has a size
//! ([`SpanSize`]). It holds a limited number of spans, and of bytes: where there are more, the
//! trace that got a span least recently goes whole. Its spans are counted, and the last 1,000 of
//! such traces are named. So each span that was received is kept or counted as evicted, at every
//! moment. Spans are received only where their traces are within the limits with them
//! ([`InsertFault`]), so none of them goes at once. With each trace it keeps a digest of its spans, so that a list of traces needs no walk
//! over them.
//!
//! A [`ViewSpan`] is a span to be shown, with the resource and the scope that it shares with
//! others. [`take_apart`] makes them of a request that was read, in parts, one for each trace. A
//! store of `Arc<ViewSpan>` lends a trace without copying a span, and keeps a [`TraceDigest`] with
//! each: its root, when it began and ended, and how many spans it has.
#![tactic(auto)]

mod apart;
mod facts;
mod fault;
mod fold;
mod group;
mod joined;
mod kept;
mod key;
mod parts;
mod size;
mod span;
mod span_size;
mod spans;
mod store;
mod trace_digest;
mod traces;
mod worked;

pub use apart::take_apart;
pub use facts::{end_of, is_error, names_none, service_of};
pub use fault::InsertFault;
pub use fold::Digest;
pub use kept::Limits;
pub use key::trace_key;
pub use parts::Part;
pub use size::SpanSize;
pub use span::{ViewResource, ViewScope, ViewSpan};
pub use spans::Trace;
pub use store::TraceStore;
pub use trace_digest::TraceDigest;
