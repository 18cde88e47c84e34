//! Traces that are shown, and how a trace is written to its end.
use otlp_json::read_body;
use otlp_read::{Request, read_request};
use std::alloc::Allocator;
use std::sync::Arc;
use trace_lines::TraceText;
use trace_store::{Part, TraceDigest, ViewSpan, take_apart};
use view_json::TraceJson;
use view_pages::TracePage;

/// A trace of the service `shop<`: a child that is an error, and after it its root, which has an
/// attribute, an event and a link; and a span of another trace (opentelemetry-proto, "JSON
/// Protobuf Encoding").
const BODY: &str = concat!(
    r#"{"resourceSpans":[{"resource":{"attributes":[{"key":"service.name","value":"#,
    r#"{"stringValue":"shop<"}}]},"scopeSpans":[{"scope":{"name":"cart"},"spans":["#,
    r#"{"traceId":"0000000000000000000000000000000a","spanId":"0000000000000002","#,
    r#""parentSpanId":"0000000000000001","name":"child","startTimeUnixNano":"20","#,
    r#""endTimeUnixNano":"50","status":{"code":2}},"#,
    r#"{"traceId":"0000000000000000000000000000000a","spanId":"0000000000000001","#,
    r#""name":"<root>","startTimeUnixNano":"10","endTimeUnixNano":"1500000010","#,
    r#""attributes":[{"key":"k","value":{"doubleValue":2.5}}],"#,
    r#""events":[{"timeUnixNano":"30","name":"e","attributes":[{"key":"k"}]}],"#,
    r#""links":[{"traceId":"0c","spanId":"0d","attributes":[{"key":"k","value":"#,
    r#"{"arrayValue":{"values":[{"boolValue":true},{"boolValue":false}]}}}]}]},"#,
    r#"{"traceId":"0000000000000000000000000000000b","spanId":"0000000000000003"}]}]}]}"#,
);

/// A span as it is kept.
pub(crate) type Kept<A> = Arc<ViewSpan<A>, A>;

/// What is kept in short of a trace.
pub(crate) type Facts<A> = TraceDigest<ViewSpan<A>, A>;

/// The request.
pub(crate) fn request<A: Allocator + Copy>(alloc: A) -> Option<Request<A>> {
    let body = read_body(alloc, BODY.as_bytes()).ok()?;
    read_request(alloc, &body).ok()
}

/// The spans of each of its traces.
pub(crate) fn parts<A: Allocator + Copy>(alloc: A) -> Option<Vec<Part<Kept<A>, A>, A>> {
    take_apart(alloc, request(alloc)?).ok()
}

/// The spans of the first trace.
pub(crate) fn spans<A: Allocator + Copy>(alloc: A) -> Option<Vec<Kept<A>, A>> {
    let mut found = Vec::new(alloc);
    for (trace, spans) in parts(alloc)? {
        for span in spans {
            if trace == 10 {
                found.push(span).ok()?;
            }
        }
    }
    Some(found)
}

/// A trace that is written in pieces.
#[derive(Drop)]
pub(crate) enum Form<A: Allocator + Copy> {
    Page(TracePage<A>),
    Lines(TraceText<A>),
    Json(TraceJson<A>),
}

impl<A: Allocator + Copy> Form<A> {
    /// Appends the next piece. Answers whether more follow.
    fn next(&mut self, out: &mut Vec<u8, A>) -> Option<bool> {
        match self {
            Form::Page(page) => page.next(out).ok(),
            Form::Lines(text) => text.next(out).ok(),
            Form::Json(json) => json.next(out).ok(),
        }
    }
}

/// All pieces, below a thousand, one after another, kept in this memory.
pub(crate) fn whole<A: Allocator + Copy>(alloc: A, mut form: Form<A>) -> Option<String<A>> {
    let mut bytes = Vec::new(alloc);
    for _piece in 0..1_000u32 {
        if !form.next(&mut bytes)? {
            return String::from_utf8(bytes).ok();
        }
    }
    None
}
