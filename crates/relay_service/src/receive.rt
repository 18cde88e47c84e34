//! Requests to receive spans.

ghost use Rattle.std.specs.Prelude.{◌≡◌, ◌⊎◌, ◌||◌, IfErr, IfOk, OnErr, OnOk, Some, length};
ghost use Rattle.http_server.specs.Response.{IsBlank};
ghost use Rattle.otlp_receiver.specs.Denials.{IsSuccess};
ghost use Rattle.model_body.specs.Names.{IsReadable, spans_in};
ghost use Rattle.otlp_receiver.specs.Posts.{IsAnswer, post_of};
ghost use Rattle.otlp_receiver.specs.Reads.{IsUnread};
ghost use Rattle.relay_service.specs.Receives.{Collects, Keeps, Receives, ReceivesContent, denial_of};
ghost use Rattle.relay_service.specs.Receives as spec;
ghost use Rattle.relay_service.specs.Receives.{have_ids, is_failure};
ghost use Rattle.otlp_read.specs.Triples.{triple_view};
ghost use Rattle.std.specs.List.{list_all};
ghost use Rattle.http.specs.Request.{head_of};
ghost use Rattle.otlp_receiver.specs.Requests.{denial_format};

use bumpalo::Bump;
use bytes::Bytes;
use http::Request;
use http_server::Response;
use otlp_read::Triple;
use otlp_receiver::reply::{
    Denial, Format, denial_format, denial_response, fill_denial, fill_taken,
};
use otlp_receiver::{
    Bounds, Undecoded, Unread, content_in, is_above, read_content, room_alone, size_denial,
};
use relay_queue::{BodyKeeper, KeepFault};
use std::alloc::{AllocError, Allocator, Global};

/// How many bytes the first block of an arena has for each byte of the content that is read there.
/// (profile)
const ARENA_FOR_BYTE: usize = 16;

/// How many bytes it has at most. (profile)
const ARENA_MOST: usize = 1 << 20;

/// What became of a post.
#[derive(Clone, Copy, Debug, PartialEq, Eq)]
pub(crate) enum Outcome {
    /// Its content was kept.
    Kept,
    /// It is refused for this reason, and what keeps bodies is as it was.
    Denied(Denial),
    /// What keeps bodies has failed.
    Failed,
}

/// What is known of the spans of a content.
#[derive(Clone, Copy, Debug, PartialEq, Eq)]
struct Census {
    /// How many they are.
    spans: usize,
    /// Whether each has a trace id of 16 bytes and a span id of 8.
    has_ids: bool,
}

/// Whether a span has a trace id of 16 bytes and a span id of 8 (trace.proto: Span).
fn has_ids<A: Allocator>(span: &Triple<'_, A>) -> bool
    ensures { result ≡ spec.has_ids (triple_view span.now) }
{
    span.span.trace_id.len() == 16 && span.span.span_id.len() == 8
}

/// Whether each of these spans has.
fn have_ids<A: Allocator>(spans: &[Triple<'_, A>]) -> bool
    ensures { result ≡ list_all (λ span. spec.has_ids (triple_view span)) spans.now }
{
    spans.iter().all(|span| has_ids(span))
}

/// What is known of the spans of a content, or why it isn't read, in memory of this allocator.
fn count_in<A: Allocator + Copy>(alloc: A, content: &[u8]) -> Result<Census, Unread>
    ensures readable { OnOk result (IsReadable content.now) }
    ensures count { IfOk result (λ census. census.spans ≡ length (spans_in content.now)) }
    ensures ids { IfOk result (λ census. census.has_ids ≡ have_ids content.now) }
    ensures unread { IfErr result (IsUnread content.now) }
{
    let request = match read_content(alloc, content) {
        Ok(request) => request,
        Err(why) => return Err(why),
    };
    match request.triples() {
        Ok(found) => {
            let spans = found.as_slice();
            Ok(Census {
                spans: spans.len(),
                has_ids: have_ids(spans),
            })
        }
        Err(_) => Err(Unread::OutOfMemory),
    }
}

/// What is known of the spans of a content, or why it isn't read. It is read in an arena, so that
/// all that it is read as is freed at once.
fn count_spans(alloc: Global, content: &[u8]) -> Result<Census, Unread>
    ensures readable { OnOk result (IsReadable content.now) }
    ensures count { IfOk result (λ census. census.spans ≡ length (spans_in content.now)) }
    ensures ids { IfOk result (λ census. census.has_ids ≡ have_ids content.now) }
    ensures unread { IfErr result (IsUnread content.now) }
{
    let room = content.len().saturating_mul(ARENA_FOR_BYTE).min(ARENA_MOST);
    let Ok(arena) = Bump::try_with_capacity(alloc, room) else {
        return Err(Unread::OutOfMemory);
    };
    count_in(&arena, content)
}

/// A copy of a content.
fn copy_of(alloc: Global, content: &[u8]) -> Result<Vec<u8>, AllocError>
    ensures { IfOk result (λ body. body.items ≡ content.now) }
{
    let body = content.to_vec(alloc)?;
    Ok(body)
}

/// Gives a body that has so many spans to what keeps it.
fn keep_body<K: BodyKeeper>(keeper: &mut K, body: Vec<u8>, spans: usize) -> Outcome
    requires readable { IsReadable body.items }
    requires spans { spans ≡ length (spans_in body.items) }
    ensures { Keeps K.keeps K.lacks_room K.fails keeper.old body.items result keeper.new }
{
    match keeper.keep(body, spans) {
        Ok(()) => Outcome::Kept,
        Err(KeepFault::Full) => Outcome::Denied(Denial::NoRoom),
        Err(KeepFault::OutOfMemory) => Outcome::Denied(Denial::OutOfMemory),
        Err(KeepFault::Failed) => Outcome::Failed,
    }
}

/// Keeps a copy of a content that has so many spans.
fn keep_copy<K: BodyKeeper>(alloc: Global, keeper: &mut K, content: &[u8], spans: usize) -> Outcome
    requires readable { IsReadable content.now }
    requires spans { spans ≡ length (spans_in content.now) }
    ensures { Keeps K.keeps K.lacks_room K.fails keeper.old content.now result keeper.new }
{
    match copy_of(alloc, content) {
        Ok(body) => keep_body(keeper, body, spans),
        Err(_) => Outcome::Denied(Denial::OutOfMemory),
    }
}

/// Keeps the content of a post, unless it was kept together with others, where so many bytes may
/// still be pending, and reading it may take `alone` bytes when nothing else is.
fn keep_content<K: BodyKeeper>(
    alloc: Global,
    keeper: &mut K,
    content: &[u8],
    room: usize,
    alone: usize,
) -> Outcome
    ensures { ReceivesContent K.keeps K.lacks_room K.fails keeper.old content.now room alone
        result keeper.new }
{
    if keeper.recall(content) {
        return Outcome::Kept;
    }
    keep_alone(alloc, keeper, content, room, alone)
}

/// Keeps the content of a post, where so many bytes may still be pending, and reading it may take
/// `alone` bytes when nothing else is.
fn keep_alone<K: BodyKeeper>(
    alloc: Global,
    keeper: &mut K,
    content: &[u8],
    room: usize,
    alone: usize,
) -> Outcome
    ensures { ReceivesContent K.keeps K.lacks_room K.fails keeper.old content.now room alone
        result keeper.new }
{
    if is_above(content, room) {
        return Outcome::Denied(size_denial(content, alone));
    }
    let census = match count_spans(alloc, content) {
        Ok(census) => census,
        Err(Unread::Fault) => return Outcome::Denied(Denial::BadBody),
        Err(Unread::OutOfMemory) => return Outcome::Denied(Denial::OutOfMemory),
    };
    if !census.has_ids {
        return Outcome::Denied(Denial::BadIds);
    }
    keep_copy(alloc, keeper, content, census.spans)
}

/// Keeps what a post of spans carries, whose content is within these bounds, where so many bytes
/// may still be pending.
fn keep_post<K: BodyKeeper>(
    alloc: Global,
    keeper: &mut K,
    request: &Request<Bytes>,
    bounds: Bounds,
    room: usize,
) -> Outcome
    ensures { Receives K.keeps K.lacks_room K.fails keeper.old bounds (post_of request.now) room
        result keeper.new }
{
    let body = request.body().as_slice();
    let alone = room_alone(bounds.max_pending, body);
    match content_in(alloc, request, bounds.max_content) {
        Ok(None) => keep_content(alloc, keeper, body, room, alone),
        Ok(Some(content)) => {
            let content = content.as_slice();
            keep_content(alloc, keeper, content, room, alone)
        }
        Err(Undecoded::Denied(denial)) => Outcome::Denied(denial),
        Err(Undecoded::OutOfMemory) => Outcome::Denied(Denial::OutOfMemory),
    }
}

/// Collects a copy of a content that has so many spans.
fn collect_copy<K: BodyKeeper>(alloc: Global, keeper: &mut K, content: &[u8], spans: usize)
    requires readable { IsReadable content.now }
    requires spans { spans ≡ length (spans_in content.now) }
    ensures { (keeper.new ≡ keeper.old) ⊎ K.collects_body keeper.old content.now keeper.new }
{
    let Ok(body) = copy_of(alloc, content) else {
        return;
    };
    keeper.collect(body, spans);
}

/// Collects the content of a post, if it is read, where so many bytes may still be pending.
fn collect_content<K: BodyKeeper>(alloc: Global, keeper: &mut K, content: &[u8], room: usize)
    ensures { (keeper.new ≡ keeper.old) ⊎ K.collects_body keeper.old content.now keeper.new }
{
    let has_room = !is_above(content, room);
    if !has_room {
        return;
    }
    let Ok(census) = count_spans(alloc, content) else {
        return;
    };
    if census.has_ids {
        collect_copy(alloc, keeper, content, census.spans);
    }
}

/// Collects what a request carries, if it is a post of spans, whose content may have at most `most`
/// bytes, where so many bytes may still be pending. What isn't collected is kept by itself, or
/// refused, once it is received.
pub(crate) fn collect<K: BodyKeeper>(
    alloc: Global,
    keeper: &mut K,
    request: &Request<Bytes>,
    most: usize,
    room: usize,
)
    ensures { Collects K.collects_body keeper.old most (post_of request.now) keeper.new }
{
    match content_in(alloc, request, most) {
        Ok(None) => collect_content(alloc, keeper, request.body().as_slice(), room),
        Ok(Some(content)) => collect_content(alloc, keeper, content.as_slice(), room),
        Err(_) => {}
    }
}

/// Makes a response the one that says that all was taken, in a format.
fn taken(alloc: Global, format: Format) -> Result<Response, AllocError>
    ensures { IfOk result (IsSuccess format) }
{
    let mut response = Response::new(alloc);
    fill_taken(&mut response, format)?;
    Ok(response)
}

/// Makes a blank response the answer to a request to receive spans (OTLP Specification, "OTLP/HTTP
/// Request"), whose content is within these bounds, and answers what became of it. Only where its
/// content was read, and the keeper has kept just that, it is 200.
///
/// # Errors
///
/// `AllocError` where memory for the response was refused. The keeper is as it was.
pub(crate) fn receive<K: BodyKeeper>(
    alloc: Global,
    keeper: &mut K,
    request: &Request<Bytes>,
    bounds: Bounds,
    room: usize,
    response: &mut Response,
) -> Result<Outcome, AllocError>
    requires { IsBlank response.old }
    ensures received { IfOk result (λ outcome. Receives K.keeps K.lacks_room K.fails keeper.old bounds
        (post_of request.now) room outcome keeper.new) }
    ensures answer { IfOk result (λ outcome. IsAnswer (denial_of outcome)
        (denial_format (Some (head_of request.now))) response.new) }
    ensures refused { OnErr result (keeper.new ≡ keeper.old) }
{
    let format = denial_format(Some(request));
    // After the keeper has kept a body, or has failed, nothing may fail: these are made before.
    let taken = taken(alloc, format)?;
    let failed = denial_response(alloc, Denial::KeepFailed, format)?;
    let outcome = keep_post(alloc, keeper, request, bounds, room);
    match outcome {
        Outcome::Kept => {
            *response = taken;
            Ok(outcome)
        }
        Outcome::Denied(denial) => {
            fill_denial(response, denial, format)?;
            Ok(outcome)
        }
        Outcome::Failed => {
            *response = failed;
            Ok(outcome)
        }
    }
}

/// Whether what keeps bodies has failed.
pub(crate) fn is_failure(outcome: Outcome) -> bool
    ensures { result ≡ is_failure outcome }
{
    matches!(outcome, Outcome::Failed)
}

/// Whether what keeps bodies has failed in one way or in another one.
pub(crate) fn either(first: bool, second: bool) -> bool
    ensures { result ≡ first || second }
{
    first || second
}
