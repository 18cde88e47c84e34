//! The body of a trace export (opentelemetry-proto, trace service). One function for each message
//! puts its fields, in rising number, into a sink: first into one that counts them, then into a
//! buffer of just that length.
ghost use Rattle.std.specs.Prelude.{◌≡◌, ◌≢◌, ◌≤◌, ◌<◌, [], true, IfOk, OnOk, IsErrOf, length};
ghost use Rattle.model_span.specs.Dropped.{can_drop_batch};
ghost use Rattle.otlp_span.specs.Dropped.{reason_view};
ghost use Rattle.model_message.specs.Reading.{Reads};
ghost use Rattle.model_message.specs.Tables;
ghost use Rattle.model_message.specs.Messages.{meaning, body_meaning};
ghost use Rattle.model_export.specs.Export as model;
ghost use Rattle.otlp_proto.specs.Group.{groups_view};
ghost use Rattle.otlp_proto.specs.Bodies.{body_bytes, reason_of};

mod fields;
mod groups;
mod messages;
mod parts;
mod sink;
mod spans;
mod values;

use crate::groups::ResourceGroup;
use groups::put_request;
use otlp_ids::OutOfMemory;
use otlp_span::Reason;
use sink::{Buffer, Length};
use spans::encoded_lens;
use std::alloc::Allocator;
use thiserror::Error;

/// The greatest body that exporters send by default, in bytes: 4 MiB, what a collector's gRPC
/// receiver takes by default (profile).
pub const DEFAULT_MAX_BODY: usize = 4_194_304;

// No clause says the number itself.
const _: () = prove!(DEFAULT_MAX_BODY == 4_194_304);

/// Why there is no body.
#[derive(Debug, Clone, Copy, PartialEq, Eq, Error)]
pub enum EncodeFault {
    /// Memory was refused.
    #[error("out of memory")]
    OutOfMemory,
    /// The body is longer than it may be.
    #[error("too large")]
    TooLarge,
}

impl EncodeFault {
    /// Why spans are dropped whose encoding ends so (profile).
    pub fn reason(&self) -> Reason
        ensures is { result ≡ reason_of self.now }
        ensures of_batch { can_drop_batch (reason_view result) ≡ true }
    {
        match self {
            EncodeFault::OutOfMemory => Reason::EncodeMemory,
            EncodeFault::TooLarge => Reason::TooLarge,
        }
    }
}

impl From<OutOfMemory> for EncodeFault {
    ghost use Rattle.std.specs.Prelude.{◌≡◌};
    ghost use Rattle.otlp_proto.specs.declared.encoder.EncodeFault.{EncodeFault};
    ghost use Rattle.otlp_proto.specs.declared.encoder.EncodeFault.TheVariants as faults;

    ghost from_gives = { λ _ fault. fault ≡ faults.OutOfMemory };

    fn from(_: OutOfMemory) -> EncodeFault {
        EncodeFault::OutOfMemory
    }
}

/// The body of the request that exports these groups (opentelemetry-proto,
/// ExportTraceServiceRequest), in the uncompressed Protocol Buffers encoding. It has at most `max`
/// bytes. It takes memory twice at most: for the lengths of the spans' messages, and for the body.
///
/// # Errors
///
/// `OutOfMemory` where memory was refused; without a group none is taken. `TooLarge` where the body
/// has more than `max` bytes, which is reported before memory for it is taken.
pub fn encode<A: Allocator + Copy>(
    alloc: A,
    groups: &[ResourceGroup<'_, A>],
    max: usize,
) -> Result<Vec<u8, A>, EncodeFault>
    ensures meaning { let message = model.request_message (groups_view groups.now) in
        IfOk result (λ body. Reads (meaning Tables.request body.items) message) }
    ensures spans { let images = model.triples_of (groups_view groups.now) in
        IfOk result (λ body. Reads (body_meaning body.items) images) }
    ensures canonical { IfOk result
        (λ body. body.items ≡ body_bytes (groups_view groups.now)) }
    ensures length { IfOk result
        (λ body. length body.items ≡ model.body_length (groups_view groups.now)) }
    ensures within { OnOk result (model.body_length (groups_view groups.now) ≤ max) }
    ensures too_large { IsErrOf result EncodeFault.TooLarge
        → max < model.body_length (groups_view groups.now) }
    ensures refused { IsErrOf result EncodeFault.OutOfMemory → groups.now ≢ [] }
{
    if groups.is_empty() {
        return Ok(Vec::new(alloc));
    }
    let lens = encoded_lens(alloc, groups)?;
    let mut length = Length::new();
    put_request(&mut length, groups, lens.as_slice());
    let len = length.len();
    if len > max {
        return Err(EncodeFault::TooLarge);
    }
    let mut buffer = Buffer::new(alloc, len)?;
    put_request(&mut buffer, groups, lens.as_slice());
    Ok(buffer.into_bytes())
}
