//! Requests to receive spans.

ghost use Rattle.std.specs.Prelude.{◌≡◌, ◌<◌, All, IfErr, IfOk, IsErrOf, OnErr, OnOk, length};
ghost use Rattle.http_server.specs.Response.{IsBlank};
ghost use Rattle.otlp_receiver.specs.Denials.{IsDenial};
ghost use Rattle.otlp_receiver.specs.Reads.{IsUnread, size_of_content};
ghost use Rattle.view_service.specs.Receives.{AnswersContent, AnswersExport, HasParts};

use crate::keeper::TraceKeeper;
use bytes::Bytes;
use http::Request;
use http_server::Response;
use otlp_receiver::reply::{
    Denial, Format, denial_format, denial_response, fill_denial, fill_taken,
};
use otlp_receiver::{
    Bounds, Undecoded, Unread, content_in, is_above, read_content, room_alone, size_denial,
    size_of_content,
};
use std::alloc::{AllocError, Global};
use std::sync::Arc;
use trace_store::{InsertFault, Part, TraceDigest, ViewSpan, take_apart};

/// The spans of a request, by their traces.
type Parts = Vec<Part<Arc<ViewSpan>, Global>>;

/// The parts of what a content means, or why it isn't read.
fn read_parts(alloc: Global, content: &[u8]) -> Result<Parts, Unread>
    ensures parts { IfOk result (λ parts. HasParts content.now parts.items) }
    ensures some { IfOk result (λ parts. All (λ part. 0 < length part.1) parts.items) }
    ensures unread { IfErr result (IsUnread content.now) }
{
    let request = match read_content(alloc, content) {
        Ok(request) => request,
        Err(why) => return Err(why),
    };
    match take_apart(alloc, request) {
        Ok(parts) => Ok(parts),
        Err(_) => Err(Unread::OutOfMemory),
    }
}

/// Gives up the oldest traces for as many bytes as the reading of a content takes.
fn give_room<K: TraceKeeper<Arc<ViewSpan>, TraceDigest>>(keeper: &mut K, content: &[u8])
    ensures { K.gives_up keeper.old (size_of_content content.now) keeper.new }
{
    keeper.make_room(size_of_content(content));
}

/// Keeps the parts of a content, if there is room for them and memory isn't refused. Where it is
/// refused, the oldest traces make room for the next request.
fn keep_parts<K: TraceKeeper<Arc<ViewSpan>, TraceDigest>>(
    keeper: &mut K,
    content: &[u8],
    parts: Parts,
) -> Result<(), InsertFault>
    requires { All (λ part. 0 < length part.1) parts.items }
    ensures kept { OnOk result (K.keeps keeper.old parts.items keeper.new) }
    ensures too_large { IsErrOf result InsertFault.TooLarge
        → K.lacks_room keeper.old parts.items × (keeper.new ≡ keeper.old) }
    ensures gave_room { IsErrOf result InsertFault.OutOfMemory
        → K.gives_up keeper.old (size_of_content content.now) keeper.new }
{
    match keeper.keep(parts) {
        Ok(()) => Ok(()),
        Err(InsertFault::TooLarge) => Err(InsertFault::TooLarge),
        Err(InsertFault::OutOfMemory) => {
            give_room(keeper, content);
            Err(InsertFault::OutOfMemory)
        }
    }
}

/// Makes a blank response the answer to a request that is for a collector and has this content,
/// where so many bytes may still be pending, and reading it may take `alone` bytes when nothing else
/// is. `busy` is the answer where memory is refused.
fn receive_content<K: TraceKeeper<Arc<ViewSpan>, TraceDigest>>(
    alloc: Global,
    keeper: &mut K,
    content: &[u8],
    room: usize,
    alone: usize,
    format: Format,
    busy: Response,
    response: &mut Response,
) -> Result<(), AllocError>
    requires blank { IsBlank response.old }
    requires busy { IsDenial Denial.OutOfMemory format busy }
    ensures received { OnOk result (AnswersContent K.keeps K.lacks_room K.gives_up keeper.old
        content.now room alone format response.new keeper.new) }
    ensures refused { OnErr result (keeper.new ≡ keeper.old) }
{
    if is_above(content, room) {
        fill_denial(response, size_denial(content, alone), format)?;
        return Ok(());
    }
    let parts = match read_parts(alloc, content) {
        Ok(parts) => parts,
        Err(Unread::Fault) => {
            fill_denial(response, Denial::BadBody, format)?;
            return Ok(());
        }
        Err(Unread::OutOfMemory) => {
            give_room(keeper, content);
            *response = busy;
            return Ok(());
        }
    };
    // All memory is taken before the keeper changes, so that nothing can fail after it.
    fill_taken(response, format)?;
    match keep_parts(keeper, content, parts) {
        Ok(()) => {}
        Err(InsertFault::TooLarge) => {
            *response = denial_response(alloc, Denial::TracesTooLarge, format)?;
        }
        Err(InsertFault::OutOfMemory) => *response = busy,
    }
    Ok(())
}

/// Makes a blank response the answer to a request to receive spans (OTLP Specification, "OTLP/HTTP
/// Request"), whose content is within these bounds. Only where its content was read, and its spans
/// were kept, it is 200. Where their traces would be larger than all that is kept, it is 413, and
/// nothing is kept or given up. Where memory was refused, the oldest traces make room for the next
/// request.
///
/// # Errors
///
/// `AllocError` where memory for the response was refused. Nothing was kept then, and nothing given
/// up.
pub(crate) fn receive<K: TraceKeeper<Arc<ViewSpan>, TraceDigest>>(
    alloc: Global,
    keeper: &mut K,
    request: &Request<Bytes>,
    bounds: Bounds,
    room: usize,
    response: &mut Response,
) -> Result<(), AllocError>
    requires { IsBlank response.old }
    ensures received { OnOk result (AnswersExport K.keeps K.lacks_room K.gives_up keeper.old
        request.now bounds room response.new keeper.new) }
    ensures refused { OnErr result (keeper.new ≡ keeper.old) }
{
    let format = denial_format(Some(request));
    let busy = denial_response(alloc, Denial::OutOfMemory, format)?;
    let body = request.body().as_slice();
    let alone = room_alone(bounds.max_pending, body);
    match content_in(alloc, request, bounds.max_content) {
        Ok(None) => {
            receive_content(alloc, keeper, body, room, alone, format, busy, response)?;
        }
        Ok(Some(content)) => {
            let content = content.as_slice();
            receive_content(alloc, keeper, content, room, alone, format, busy, response)?;
        }
        Err(Undecoded::Denied(denial)) => fill_denial(response, denial, format)?,
        Err(Undecoded::OutOfMemory) => {
            keeper.make_room(bounds.max_content as u64);
            *response = busy;
        }
    }
    Ok(())
}
