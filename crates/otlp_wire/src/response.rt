//! The answer of a collector to a trace export (opentelemetry-proto, trace_service.proto:
//! ExportTraceServiceResponse), and why one that refuses it does (google/rpc/status.proto).

ghost use Rattle.std.specs.Prelude.{◌≡◌, ◌≢◌, ◌++◌, List, [], ◌∷◌, IfOk, IfErr, OnOk, OnErr};
ghost use Rattle.std.specs.Prelude.{IsErrOf};
ghost use Rattle.std.specs.Int.{cast_signed, w64};
ghost use Rattle.std.specs.List.{Contains};
ghost use Rattle.std.specs.String.{string_bytes};
ghost use Rattle.model_message.specs.Reading.{Reads};
ghost use Rattle.model_message.specs.Wire;
ghost use Rattle.model_message.specs.Wire.{row};
ghost use Rattle.model_message.specs.Tables;
ghost use Rattle.model_message.specs.Tables.{◌▸◌};
ghost use Rattle.model_message.specs.Messages.{meaning};
ghost use Rattle.otlp_wire.specs.Fields.{field_of, fault_of};
ghost use Rattle.otlp_wire.specs.Response.{Counts, partial_row, row_faults, status, NamesFault};
ghost use Rattle.otlp_wire.specs.Response.{Rejects, message_text};

use crate::fault::ReadFault;
use crate::payloads::{bytes_in, varint_in};
use crate::{Field, Fields, WireFault};
use otlp_ids::copy_text;
use std::alloc::{Allocator, Global};
use std::marker::Model;
use std::str;

/// What a collector says of an export that it took in part (opentelemetry-proto,
/// trace_service.proto: ExportTracePartialSuccess).
#[derive(Debug, Drop)]
pub struct PartialSuccess<A: Allocator = Global> {
    rejected_spans: i64,
    error_message: String<A>,
}

impl<A: Allocator> Model for PartialSuccess<A> {
    ghost use Rattle.std.specs.String.{string_bytes};
    ghost use Rattle.model_message.specs.Tables;
    ghost use Rattle.model_message.specs.Tables.{Message, ◌▸◌};

    ghost Value = { Message Tables.partial_success };

    ghost view = { λ p. p.rejected_spans ▸ string_bytes p.error_message ▸ tt };
}

impl<A: Allocator> PartialSuccess<A> {
    /// So many spans were rejected, for this cause.
    pub fn new(rejected_spans: i64, error_message: String<A>) -> PartialSuccess<A>
        ensures { result ≡ (rejected_spans ▸ string_bytes error_message ▸ tt) }
    {
        PartialSuccess {
            rejected_spans,
            error_message,
        }
    }

    /// How many spans the collector rejected, 0 where it took all.
    pub fn rejected_spans(&self) -> i64
        ensures { result ≡ self.now.0 }
    {
        self.rejected_spans
    }

    /// Why it rejected them, or a warning where it took all; empty where there is none.
    pub fn error_message(&self) -> &str
        ensures { result.now ≡ self.now.1.0 }
    {
        &self.error_message
    }
}

/// The answer of a collector to a trace export (opentelemetry-proto, trace_service.proto:
/// ExportTraceServiceResponse).
#[derive(Debug, Drop)]
pub struct Response<A: Allocator = Global> {
    partial_success: PartialSuccess<A>,
}

impl<A: Allocator> Model for Response<A> {
    ghost use Rattle.model_message.specs.Tables;
    ghost use Rattle.model_message.specs.Tables.{Message, ◌▸◌};

    ghost Value = { Message Tables.response };

    ghost view = { λ r. r.partial_success ▸ tt };
}

impl<A: Allocator> Response<A> {
    /// Of an export that was taken in part, or, with the defaults, as a whole.
    pub fn new(partial_success: PartialSuccess<A>) -> Response<A>
        ensures { result ≡ (partial_success ▸ tt) }
    {
        Response { partial_success }
    }

    /// What was taken in part. Where the collector sent none, it has the defaults: 0 and empty.
    pub fn partial_success(&self) -> &PartialSuccess<A>
        ensures { result.now ≡ self.now.0 }
    {
        &self.partial_success
    }
}

/// The payloads that count among some fields of a partial success: the last ones. A Status has a
/// number and a text at the same places.
#[derive(Clone, Copy)]
struct PartialFields<'a> {
    rejected_spans: u64,
    error_message: &'a [u8],
}

impl<'a> PartialFields<'a> {
    /// With one field more.
    fn with(self, field: Field<'a>) -> PartialFields<'a>
        ensures { (fields : List Wire.Field) → Counts self.entry fields →
            Counts result (fields ++ field_of field.entry ∷ []) }
    {
        PartialFields {
            rejected_spans: varint_in(field, 1).unwrap_or(self.rejected_spans),
            error_message: bytes_in(field, 2).unwrap_or(self.error_message),
        }
    }

    /// With the fields of these bytes.
    fn with_fields(self, content: &'a [u8]) -> Result<PartialFields<'a>, WireFault>
        ensures ok { IfOk result (λ counted. (fields : List Wire.Field) → Counts self.entry fields →
            Counts counted (fields ++ (row content.now).value)) }
        ensures whole { IfOk result (λ counted. (row content.now).faults ≡ []) }
        ensures err { IfErr result (λ fault. Contains (row content.now).faults (fault_of fault)) }
    {
        let mut counted = self;
        for field in Fields::new(content) {
            counted = counted.with(field?);
        }
        Ok(counted)
    }
}

/// The payloads that count in the partial successes of a response, whose fields are joined.
fn partial_fields(body: &[u8]) -> Result<PartialFields<'_>, WireFault>
    ensures ok { IfOk result (λ counted. Counts counted (partial_row (row body.now).value).value) }
    ensures whole { IfOk result (λ counted.
        (row body.now).faults ++ (partial_row (row body.now).value).faults ≡ []) }
    ensures err { IfErr result (λ fault.
        Contains ((row body.now).faults ++ (partial_row (row body.now).value).faults)
        (fault_of fault)) }
{
    let mut counted = PartialFields {
        rejected_spans: 0,
        error_message: b"",
    };
    for field in Fields::new(body) {
        let Some(content) = bytes_in(field?, 1) else {
            continue;
        };
        counted = counted.with_fields(content)?;
    }
    Ok(counted)
}

/// How many spans a response says were rejected, in two's complement, and its message, which is a
/// part of it.
fn read_partial(body: &[u8]) -> Result<(u64, &str), ReadFault>
    ensures ok { IfOk result (λ partial. Reads (meaning Tables.response body.now)
        ((cast_signed w64 partial.0 ▸ partial.1.now ▸ tt) ▸ tt)) }
    ensures err { IfErr result (λ fault.
        NamesFault (meaning Tables.response body.now).faults fault) }
    ensures faulty { OnErr result ((meaning Tables.response body.now).faults ≢ []) }
{
    let counted = partial_fields(body)?;
    match str::from_utf8(counted.error_message) {
        Ok(text) => Ok((counted.rejected_spans, text)),
        Err(_) => Err(ReadFault::BadUtf8),
    }
}

/// Reads of a response how many spans were rejected, as [`read_response`] does, but takes no
/// memory.
///
/// # Errors
///
/// A `ReadFault` that the bytes have, so neither `OutOfMemory` nor `TooDeep`.
pub fn read_rejected_spans(body: &[u8]) -> Result<i64, ReadFault>
    ensures ok { IfOk result (λ rejected.
        Rejects (meaning Tables.response body.now) rejected) }
    ensures err { IfErr result (λ fault.
        NamesFault (meaning Tables.response body.now).faults fault) }
    ensures faulty { OnErr result ((meaning Tables.response body.now).faults ≢ []) }
{
    let (rejected_spans, _) = read_partial(body)?;
    Ok(rejected_spans.cast_signed())
}

/// How many spans a response says were rejected, and its message as it came, which needn't be
/// UTF-8: a message that can't be read leaves the number as it is. It takes no memory.
///
/// # Errors
///
/// A fault of the fields of the response, or of those of a partial success in it.
pub fn read_partial_bytes(body: &[u8]) -> Result<(i64, &[u8]), WireFault>
    ensures ok { IfOk result (λ partial. (meaning Tables.response body.now).value ≡
        ((partial.0 ▸ partial.1.now ▸ tt) ▸ tt)) }
    ensures whole { OnOk result (row_faults body.now ≡ []) }
    ensures err { IfErr result (λ fault. Contains (row_faults body.now) (fault_of fault)) }
    ensures faulty { OnErr result (row_faults body.now ≢ []) }
{
    let counted = partial_fields(body)?;
    Ok((counted.rejected_spans.cast_signed(), counted.error_message))
}

/// The message of a Status, which is a part of it: why a server refuses a request
/// (google/rpc/status.proto; OTLP Specification, "OTLP/HTTP Response", Failures). Of several the
/// last counts, and where there is none it is empty. It takes no memory.
///
/// # Errors
///
/// A `ReadFault` that the bytes have: `Wire`, or `BadUtf8` of the message.
pub fn read_status_message(body: &[u8]) -> Result<&str, ReadFault>
    ensures ok { IfOk result (λ message. Reads (meaning status body.now) (message.now ▸ tt)) }
    ensures err { IfErr result (λ fault. NamesFault (meaning status body.now).faults fault) }
    ensures faulty { OnErr result ((meaning status body.now).faults ≢ []) }
{
    let none = PartialFields {
        rejected_spans: 0,
        error_message: b"",
    };
    let counted = none.with_fields(body)?;
    match str::from_utf8(counted.error_message) {
        Ok(text) => Ok(text),
        Err(_) => Err(ReadFault::BadUtf8),
    }
}

/// Reads a response (Protocol Buffers, "Encoding"). Several partial successes are joined, of
/// several payloads of a field the last counts, and what is absent has its default.
///
/// # Errors
///
/// A `ReadFault` that the bytes have, or `OutOfMemory` where they have none and the message's text
/// could not be stored. An empty text takes no memory. No fault is `TooDeep`.
pub fn read_response<A: Allocator>(alloc: A, body: &[u8]) -> Result<Response<A>, ReadFault>
    ensures ok { IfOk result (λ response. Reads (meaning Tables.response body.now) response) }
    ensures err { IfErr result (λ fault.
        NamesFault (meaning Tables.response body.now).faults fault) }
    ensures memory { IsErrOf result ReadFault.OutOfMemory →
        message_text (meaning Tables.response body.now).value ≢ [] }
{
    let (rejected_spans, error_message) = read_partial(body)?;
    let partial_success = PartialSuccess {
        rejected_spans: rejected_spans.cast_signed(),
        error_message: copy_text(alloc, error_message)?,
    };
    Ok(Response { partial_success })
}
