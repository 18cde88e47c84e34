//! The bodies of OTLP/HTTP trace exports.
ghost use Rattle.std.specs.Prelude.{◌≡◌, ◌≢◌, ◌≤◌, ◌<◌, [], IfErr, IfOk, IsErrOf, OnOk, length};
ghost use Rattle.model_message.specs.Reading.{Reads};
ghost use Rattle.model_message.specs.Messages.{body_meaning};
ghost use Rattle.model_export.specs.Export as model;
ghost use Rattle.otlp_span.specs.Dropped.{reason_view};
ghost use Rattle.otlp_proto.specs.Bodies.{body_bytes, reason_of};

use crate::encoder::{EncodeFault, encode};
use crate::groups::group;
use otlp_span::SpanData;
use std::alloc::Allocator;

/// The body of the request that exports these spans, grouped by resource and scope. It has at most
/// `max` bytes.
///
/// # Errors
///
/// `OutOfMemory` where memory was refused; without spans none is taken. `TooLarge` where the body
/// has more than `max` bytes, which is reported before memory for it is taken.
pub fn body_of<A: Allocator + Copy>(
    alloc: A,
    spans: &[SpanData<A>],
    max: usize,
) -> Result<Vec<u8, A>, EncodeFault>
    ensures meaning { IfOk result
        (λ body. Reads (body_meaning body.items) (model.grouped_triples spans.now)) }
    ensures canonical { IfOk result
        (λ body. body.items ≡ body_bytes (model.groups spans.now)) }
    ensures length { IfOk result
        (λ body. length body.items ≡ model.body_length (model.groups spans.now)) }
    ensures within { OnOk result (model.body_length (model.groups spans.now) ≤ max) }
    ensures too_large { IsErrOf result EncodeFault.TooLarge
        → max < model.body_length (model.groups spans.now) }
    ensures lacks { IfErr result (λ fault.
        model.LacksBody max spans.now (reason_view (reason_of fault))) }
    ensures refused { IsErrOf result EncodeFault.OutOfMemory → spans.now ≢ [] }
{
    let groups = group(alloc, spans)?;
    encode(alloc, groups.as_slice(), max)
}
