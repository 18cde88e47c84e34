//! A law of OTLP's JSON: spans that are written in it and read again are the same spans
//! (opentelemetry-proto, "JSON Protobuf Encoding"). It is the contract of a function with an empty
//! body, and holds of all traces and all texts.
#![tactic(auto)]

pub mod worked;

ghost use Rattle.law_json.specs.Laws.{ReadIsSound, ReceivedIsReadBack, TraceIsReadBack};

use std::alloc::Allocator;

/// Each text that `view_json::TraceJson` may write of a trace is read by `otlp_json::read_body`,
/// without a fault, as bytes that mean exactly its spans, in order, each under a resource and a
/// scope of its own: identifiers, names, times, flags, attributes with each kind of value, events,
/// links, counts, status, schema URLs. A double that is no number comes back as the one that JSON
/// has, with the bits `7ff8000000000000`. The spans are such as a body can mean: texts are UTF-8,
/// numbers have their room, and values nest no deeper than 64 levels. The value of a pair takes no
/// level where it is empty, since it is left out; one of an array does. (The levels: profile)
pub fn trace_is_read_back<A: Allocator>()
    ensures { TraceIsReadBack A }
{}

/// Each span that a body means without a fault is one as the law above takes it.
pub fn read_is_sound()
    ensures { ReadIsSound }
{}

/// So the first law holds of all spans that were read without a fault, of one body or of several,
/// whatever is in them.
pub fn received_is_read_back<A: Allocator>()
    ensures { ReceivedIsReadBack A }
{}
