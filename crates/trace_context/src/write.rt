//! Writes `traceparent`.

ghost use Rattle.std.specs.Prelude.{◌≡◌};
ghost use Rattle.otlp_ids.specs.SpanContext.{context_view};
ghost use Rattle.trace_context.specs.Outgoing.{TraceparentsAreReadBack, flags_text};
ghost use Rattle.trace_context.specs.Outgoing.{traceparent_text};

use otlp_ids::{SpanContext, TraceFlags};
use std::alloc::Allocator;

/// The flags that go out, as two digits.
fn flag_digits(flags: TraceFlags) -> [u8; 2]
    ensures { result ≡ flags_text flags.0 }
{
    [b'0', b'0' + flags.0 % 4]
}

/// Writes the `traceparent` of a context: version 00, the trace id, the span id and the flags, of
/// which the sampled flag, 01, and the random flag, 02, go out (W3C Trace Context level 2,
/// "Traceparent Header", "trace-flags").
pub fn write_traceparent<A: Allocator>(context: &SpanContext<A>, out: &mut [u8; 55])
    ensures { out.new ≡ traceparent_text (context_view context.now) }
{
    let (version, rest) = out.split_at_mut(3);
    version.copy_from_slice(b"00-");
    let (trace, rest) = rest.split_at_mut(32);
    context.trace.write_hex(trace);
    let (dash, rest) = rest.split_at_mut(1);
    dash.copy_from_slice(b"-");
    let (span, rest) = rest.split_at_mut(16);
    context.span.write_hex(span);
    let (dash, flags) = rest.split_at_mut(1);
    dash.copy_from_slice(b"-");
    flags.copy_from_slice(&flag_digits(context.flags));
}

/// What [`write_traceparent`] writes of a valid context, [`crate::read_traceparent`] reads as that
/// context, with the sampled and the random flag alone of its flags and without its trace state.
pub fn traceparents_are_read_back()
    ensures { TraceparentsAreReadBack }
{}
