//! Bodies of messages.

ghost use Rattle.std.specs.Prelude.{◌≡◌, ◌≤◌, ℕ, List, length, map, codes, nat_lt};
ghost use Rattle.std.specs.Io.KnownBytes.{Consumes};
ghost use Rattle.std.specs.Result.{result_map_both};
ghost use Rattle.http_header.specs.HeaderMap.{get_all};
ghost use Rattle.http_wire.specs.Faults.{CountsFailedRead};
ghost use Rattle.http_wire.specs.Bodies.{framing_by_coding, framing_by_fields, framing_view};
ghost use Rattle.http_wire.specs.Bodies.{is_chunked, request_framing, IsBody, IsBodyToEnd};
ghost use Rattle.http_wire.specs.Bodies.{IsSizedBody};
ghost use Rattle.http_wire.specs.Chunks.{IsChunkedBody};
ghost use Rattle.http_wire.specs.Devices.{HasFailed};
ghost use Rattle.http_wire.specs.Fields.{NameAndValue, KeepsFields};

use crate::chunk::{read_data, read_exactly, read_line, read_trailers};
use crate::device::FaultRead;
use crate::fault::HttpFault;
use crate::fields::content_length;
use crate::limits::HeadLimits;
use http_header::HeaderMap;
use std::alloc::Allocator;

/// How far a body goes (RFC 9112, section 6.3).
#[derive(Clone, Copy, Debug, PartialEq, Eq)]
pub enum Framing {
    /// There is none.
    Empty,
    /// It has this number of bytes.
    Sized(u64),
    /// It comes in chunks (RFC 9112, section 7.1).
    Chunked,
    /// It goes to the end of the bytes.
    ToEnd,
    /// The head doesn't say.
    Unknown,
}

/// Whether there is a Transfer-Encoding.
fn is_coded(kept: &HeaderMap) -> bool
    ensures { result ≡ nat_lt 0 (length (get_all kept.now (codes "transfer-encoding"))) }
{
    kept.get("transfer-encoding").is_some()
}

/// Whether there is a Content-Length.
fn has_length(kept: &HeaderMap) -> bool
    ensures { result ≡ nat_lt 0 (length (get_all kept.now (codes "content-length"))) }
{
    kept.get("content-length").is_some()
}

/// Whether there is one Transfer-Encoding, `chunked` in any case of letters.
fn is_chunked(kept: &HeaderMap) -> bool
    ensures { result
        ≡ is_chunked (map (λ v. v.bytes) (get_all kept.now (codes "transfer-encoding"))) }
{
    let mut values = kept.get_all("transfer-encoding").iter();
    let Some(first) = values.next() else {
        return false;
    };
    match values.next() {
        Some(_) => false,
        None => first.as_bytes().eq_ignore_ascii_case(b"chunked"),
    }
}

/// How far a body goes by Transfer-Encoding, which is there.
fn framing_by_coding(kept: &HeaderMap) -> Framing
    ensures { framing_view result ≡ framing_by_coding
        (map (λ v. v.bytes) (get_all kept.now (codes "transfer-encoding"))) }
{
    if is_chunked(kept) {
        Framing::Chunked
    } else {
        Framing::Unknown
    }
}

/// How far the body goes of a head with these fields (RFC 9112, section 6.3). Where
/// Transfer-Encoding is there, the body comes in chunks if that is one field, `chunked` in any case
/// of letters, and else is `Unknown` (other codings, and a list of codings: profile). Where it
/// isn't there, it is what Content-Length says, and `otherwise` where there is none.
pub fn framing_by_fields(kept: &HeaderMap, otherwise: Framing) -> Framing
    ensures { (fields : List NameAndValue) → KeepsFields kept.now fields
        → framing_view result ≡ framing_by_fields (framing_view otherwise) fields }
{
    if is_coded(kept) {
        return framing_by_coding(kept);
    }
    match content_length(kept) {
        Ok(None) => otherwise,
        Ok(Some(size)) => Framing::Sized(size),
        Err(_) => Framing::Unknown,
    }
}

/// How far the body goes of a request with these fields: as [`framing_by_fields`] says, `Unknown`
/// where both Transfer-Encoding and Content-Length are there (RFC 9112, section 6.1), and `Empty`
/// where neither is.
pub fn request_framing(kept: &HeaderMap) -> Framing
    ensures { (fields : List NameAndValue) → KeepsFields kept.now fields
        → framing_view result ≡ request_framing fields }
{
    if is_coded(kept) && has_length(kept) {
        return Framing::Unknown;
    }
    framing_by_fields(kept, Framing::Empty)
}

/// Reads a body of `size` bytes, and no further. A size above the limit is refused before a byte
/// is read.
fn read_sized<R: FaultRead, A: Allocator>(
    alloc: A,
    reader: &mut R,
    size: u64,
    limit: usize,
) -> Result<Vec<u8, A>, HttpFault>
    ensures body { (taken : List ℕ)
        × Consumes (R.remaining reader.old) (R.remaining reader.new) taken
        × IsSizedBody limit size taken (R.remaining reader.new)
        (HasFailed (R.failures reader.old) (R.failures reader.new))
        (result_map_both (λ v. v.items) (λ fault. fault) result) }
    ensures counted { CountsFailedRead result (R.failures reader.old) (R.failures reader.new) }
{
    if size > limit as u64 {
        return Err(HttpFault::TooLarge);
    }
    let mut body = Vec::new(alloc);
    match read_exactly(reader, size, &mut body) {
        Ok(()) => Ok(body),
        Err(fault) => Err(fault),
    }
}

/// Reads a body in chunks, and no further than the end of its trailers. A chunk by which the sum of
/// all would pass the limit is refused after its line.
fn read_chunks<R: FaultRead, A: Allocator + Copy>(
    alloc: A,
    reader: &mut R,
    limits: &HeadLimits,
) -> Result<Vec<u8, A>, HttpFault>
    requires { limits.now.fields ≤ 64 }
    ensures body { (taken : List ℕ)
        × Consumes (R.remaining reader.old) (R.remaining reader.new) taken
        × IsChunkedBody limits.now taken (R.remaining reader.new)
        (HasFailed (R.failures reader.old) (R.failures reader.new))
        (result_map_both (λ v. v.items) (λ fault. fault) result) }
    ensures counted { CountsFailedRead result (R.failures reader.old) (R.failures reader.new) }
{
    let mut body = Vec::new(alloc);
    let mut text = Vec::new(alloc);
    'chunks: loop {
        let size = match read_line(reader, limits.head, &mut text) {
            Ok(size) => size,
            Err(fault) => return Err(fault),
        };
        if size == 0 {
            return match read_trailers(reader, limits, &mut text) {
                Ok(()) => Ok(body),
                Err(fault) => Err(fault),
            };
        }
        if size > (limits.body - body.len()) as u64 {
            return Err(HttpFault::TooLarge);
        }
        match read_data(reader, size, &mut body) {
            Ok(()) => {}
            Err(fault) => return Err(fault),
        }
    }
}

/// Reads a body that goes to the end of the bytes.
fn read_to_end<R: FaultRead, A: Allocator>(
    alloc: A,
    reader: &mut R,
    limit: usize,
) -> Result<Vec<u8, A>, HttpFault>
    ensures body { (taken : List ℕ)
        × Consumes (R.remaining reader.old) (R.remaining reader.new) taken
        × IsBodyToEnd limit taken (R.remaining reader.new)
        (HasFailed (R.failures reader.old) (R.failures reader.new))
        (result_map_both (λ v. v.items) (λ fault. fault) result) }
    ensures counted { CountsFailedRead result (R.failures reader.old) (R.failures reader.new) }
{
    let mut body = Vec::new(alloc);
    let mut piece = [0; 512];
    'pieces: loop {
        match reader.read(&mut piece) {
            Ok(0) => return Ok(body),
            Err(_) => return Err(HttpFault::Device),
            Ok(n) => {
                if n > limit - body.len() {
                    return Err(HttpFault::TooLarge);
                }
                if body.extend_from_slice(&piece[..n]).is_err() {
                    return Err(HttpFault::OutOfMemory);
                }
            }
        }
    }
}

/// Reads a body that goes so far, and no further (RFC 9112, section 6.3). A read that failed is not
/// tried again. Of a body in chunks, lines and trailers are what `httparse` takes; extensions and
/// trailers are not kept (RFC 9112, section 7.1).
///
/// # Errors
///
/// `BadLength` where it isn't known how far it goes, and `TooLarge` where it has more bytes than
/// the limit: of one that has a size, no byte was read then, and of one in chunks, none after the
/// line by which the sum of the sizes passes the limit. `BadChunk` where no chunk's line or no
/// trailers are where they are due, or are longer than a head may be, where the trailers have
/// more fields than a head may have, or where no CR LF comes after a chunk's data. `Ended` where
/// the bytes ended before its size, or within its chunks; `Device` where a read failed;
/// `OutOfMemory` where memory for it, or for a line of it, was refused.
pub fn read_body<R: FaultRead, A: Allocator + Copy>(
    alloc: A,
    reader: &mut R,
    framing: Framing,
    limits: &HeadLimits,
) -> Result<Vec<u8, A>, HttpFault>
    requires fields { limits.now.fields ≤ 64 }
    ensures body { (taken : List ℕ)
        × Consumes (R.remaining reader.old) (R.remaining reader.new) taken
        × IsBody (framing_view framing) limits.now taken (R.remaining reader.new)
        (HasFailed (R.failures reader.old) (R.failures reader.new))
        (result_map_both (λ v. v.items) (λ fault. fault) result) }
    ensures counted { CountsFailedRead result (R.failures reader.old) (R.failures reader.new) }
{
    match framing {
        Framing::Empty => Ok(Vec::new(alloc)),
        Framing::Sized(size) => read_sized(alloc, reader, size, limits.body),
        Framing::Chunked => read_chunks(alloc, reader, limits),
        Framing::ToEnd => read_to_end(alloc, reader, limits.body),
        Framing::Unknown => Err(HttpFault::BadLength),
    }
}
