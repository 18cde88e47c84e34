//! The content of a post: what its body means.

ghost use Rattle.std.specs.Prelude.{◌≡◌, ◌+◌, ◌≤◌, [], Err, IfErr, IfOk, Ok};
ghost use Rattle.std.specs.Prelude.{vec_capacity};
ghost use Rattle.model_deflate.specs.Gzip.{gunzip};
ghost use Rattle.gzip.specs.Reading.{fault_of, Means};
ghost use Rattle.otlp_json.specs.Posted.{posted_bytes};
ghost use Rattle.otlp_receiver.specs.Contents.{IsNoText, IsPacked, IsUndecoded, coding_in};
ghost use Rattle.otlp_receiver.specs.Contents.{content_of, content_or, decoded, denial_by_coding};
ghost use Rattle.otlp_receiver.specs.Posts.{post_of};

use crate::reply::{Denial, is_json};
use bytes::Bytes;
use gzip::{Gunzip, GunzipError, GzipFault};
use http::Request;
use otlp_json::{JsonError, read_body};
use otlp_serve::{ContentCoding, coding_of};
use std::alloc::Global;

/// Why the content of a request can't be had.
#[derive(Clone, Copy, Debug, PartialEq, Eq)]
pub enum Undecoded {
    /// Its body means nothing: it is refused for this reason.
    Denied(Denial),
    /// Memory was refused.
    OutOfMemory,
}

/// Why a request is refused whose body has this fault.
fn denial_by(fault: GzipFault) -> Denial
    ensures { result ≡ denial_by_coding (fault_of fault) }
{
    match fault {
        GzipFault::TooLarge => Denial::BodyTooLarge,
        _ => Denial::BadCoding,
    }
}

/// What a gzip file means, if these are at most this many bytes.
fn unpack(alloc: Global, file: &[u8], most: usize) -> Result<Vec<u8>, GunzipError>
    ensures value { IfOk result (λ content. gunzip most file.now ≡ Ok content.items) }
    ensures error { IfErr result
        (λ error. Means (Err error) [] (gunzip most file.now)) }
    ensures memory { IfOk result (λ content. vec_capacity content ≤ most + 258) }
{
    let mut reader = Gunzip::new(alloc)?;
    let mut content = Vec::new(alloc);
    reader.read(file, most, &mut content)?;
    Ok(content)
}

/// What the body of a request means in its coding, where that isn't the body as it came: what the
/// gzip file means that the body is, if these are at most this many bytes (RFC 9110, section
/// 8.4.1.3).
fn unpack_body(
    alloc: Global,
    request: &Request<Bytes>,
    most: usize,
) -> Result<Option<Vec<u8>>, Undecoded>
    ensures content { IfOk result (λ unpacked. decoded most (coding_in (post_of request.now))
        (post_of request.now).body ≡ Ok (content_or (post_of request.now).body unpacked)) }
    ensures none { IfErr result (IsPacked most (post_of request.now)) }
{
    let Some(ContentCoding::Gzip) = coding_of(request.headers()) else {
        return Ok(None);
    };
    match unpack(alloc, request.body().as_slice(), most) {
        Ok(content) => Ok(Some(content)),
        Err(GunzipError::Fault(fault)) => Err(Undecoded::Denied(denial_by(fault))),
        Err(GunzipError::OutOfMemory) => Err(Undecoded::OutOfMemory),
    }
}

/// The bytes that a text of JSON means.
fn read_text(alloc: Global, text: &[u8]) -> Result<Vec<u8>, Undecoded>
    ensures content { IfOk result (λ content. posted_bytes text.now ≡ Ok content.items) }
    ensures none { IfErr result (IsNoText text.now) }
{
    match read_body(alloc, text) {
        Ok(content) => Ok(content),
        Err(JsonError::Fault { .. }) => Err(Undecoded::Denied(Denial::BadBody)),
        Err(JsonError::OutOfMemory) => Err(Undecoded::OutOfMemory),
    }
}

/// What was unpacked, or the body as it came.
fn content_or<'a>(request: &'a Request<Bytes>, unpacked: &'a Option<Vec<u8>>) -> &'a [u8]
    ensures { result.now ≡ content_or (post_of request.now).body unpacked.now }
{
    match unpacked {
        Some(content) => content.as_slice(),
        None => request.body().as_slice(),
    }
}

/// The content of a request, where it isn't its body as that came: what this means in its coding,
/// if these are at most this many bytes (RFC 9110, section 8.4.1.3), and of a text of JSON the bytes
/// that it means (OTLP Specification, "JSON Protobuf Encoding"). None where it is the body itself.
///
/// # Errors
///
/// `Undecoded` where the body means nothing, or memory was refused.
pub(crate) fn decode(
    alloc: Global,
    request: &Request<Bytes>,
    most: usize,
) -> Result<Option<Vec<u8>>, Undecoded>
    ensures content { IfOk result (λ content. content_of most (post_of request.now)
        ≡ Ok (content_or (post_of request.now).body content)) }
    ensures none { IfErr result (IsUndecoded most (post_of request.now)) }
{
    let unpacked = match unpack_body(alloc, request, most) {
        Ok(unpacked) => unpacked,
        Err(why) => return Err(why),
    };
    if !is_json(request) {
        return Ok(unpacked);
    }
    match read_text(alloc, content_or(request, &unpacked)) {
        Ok(bytes) => Ok(Some(bytes)),
        Err(why) => Err(why),
    }
}
