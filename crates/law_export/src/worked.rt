//! A batch of one span, whose request and replies were written out by hand, as an example that what
//! the laws speak of is possible.

ghost use Rattle.std.specs.Prelude.{None, Some, []};
ghost use Rattle.otlp_collector.specs.Answering.{Serves};
ghost use Rattle.worked_trace.specs.Bytes.{plain_body};
ghost use Rattle.worked_trace.specs.Written.{request_with};
ghost use Rattle.law_export.specs.Delivery.{Arrives, Carries};
ghost use Rattle.law_export.specs.SmallBatch.{batch, local, reply_bytes, request_bytes, small};
ghost use Rattle.law_export.specs.SmallBatch.{unavailable_bytes};

/// The body carries the span, its request comes to a collector, and both answers are possible: that
/// the span is taken, and that memory is refused.
pub fn one_span()
    ensures carried { Carries plain_body batch }
    ensures comes { Arrives small local plain_body (Some request_bytes) 0 0 }
    ensures taken { Serves small None (Some request_bytes) (Some []) 0 0
        (Some []) (Some reply_bytes) (Some 200) (Some (request_with batch)) }
    ensures refused { Serves small None (Some request_bytes) (Some []) 0 0
        (Some []) (Some unavailable_bytes) (Some 503) None }
{}
