//! The parts of a body in chunks.

ghost use Rattle.std.specs.Prelude.{◌≡◌, ◌<◌, ◌≤◌, ◌++◌, ℕ, List, length, IfErr, IfOk, OnOk};
ghost use Rattle.std.specs.Io.KnownBytes.{Consumes};
ghost use Rattle.httparse.specs.Grammar.{HasNoChunkLine};
ghost use Rattle.http_wire.specs.Chunks.{HasNoTrailers, IsTrailers, LacksData, LacksLine};
ghost use Rattle.http_wire.specs.Chunks.{LacksTrailers, print_trailers, Trailers};
ghost use Rattle.http_wire.specs.Devices.{HasFailed};
ghost use Rattle.http_wire.specs.Faults.{CountsFailedRead};
ghost use Rattle.http_wire.specs.Parses.{FindsLine, IsExactly, IsExpected, IsStoppedLine};
ghost use Rattle.http_wire.specs.Parses.{IsStoppedTrailers, ParsesLine, ParsesTrailers, TakesData};

use crate::device::FaultRead;
use crate::fault::HttpFault;
use crate::limits::{HeadLimits, MOST_FIELDS};
use crate::transfer::read_byte;
use httparse::spans::{HeaderSpan, parse_headers};
use httparse::{Error, Status, parse_chunk_size};
use std::alloc::Allocator;

/// The size that a chunk's line says, where a front of the text is one.
fn parse_line(text: &[u8]) -> Result<Option<u64>, HttpFault>
    ensures { ParsesLine text.now result }
{
    match parse_chunk_size(text) {
        Ok(Status::Complete((_, size))) => Ok(Some(size)),
        Ok(Status::Partial) => Ok(None),
        Err(_) => Err(HttpFault::BadChunk),
    }
}

/// Why there is no line, where the bytes ended before it was whole.
fn stopped_line(text: &[u8]) -> HttpFault
    requires { HasNoChunkLine text.now }
    ensures { IsStoppedLine text.now result }
{
    match parse_line(text) {
        Ok(Some(_)) => unreachable!(),
        Ok(None) => HttpFault::Ended,
        Err(bad) => bad,
    }
}

/// Reads a chunk's line of at most `most` bytes, byte by byte so that none after it is taken, and
/// answers the size that it says. A line ends by a line feed, so only there it is parsed.
pub(crate) fn read_line<R: FaultRead, A: Allocator>(
    reader: &mut R,
    most: usize,
    text: &mut Vec<u8, A>,
) -> Result<u64, HttpFault>
    ensures taken { Consumes (R.remaining reader.old) (R.remaining reader.new) text.new.items }
    ensures line { IfOk result (FindsLine most text.new.items) }
    ensures none { IfErr result (LacksLine most text.new.items (R.remaining reader.new)
        (HasFailed (R.failures reader.old) (R.failures reader.new))) }
    ensures counted { CountsFailedRead result (R.failures reader.old) (R.failures reader.new) }
{
    text.clear();
    while text.len() < most {
        if text.reserve(1).is_err() {
            return Err(HttpFault::OutOfMemory);
        }
        let byte = match read_byte(reader) {
            Ok(Some(byte)) => byte,
            Ok(None) => return Err(stopped_line(text)),
            Err(_) => return Err(HttpFault::Device),
        };
        text.push_reserved(byte);
        if byte == b'\n' {
            if let Some(size) = parse_line(text)? {
                return Ok(size);
            }
        }
    }
    Err(HttpFault::BadChunk)
}

/// Reads `size` bytes, puts them after those of `body`, and reads no further.
pub(crate) fn read_exactly<R: FaultRead, A: Allocator>(
    reader: &mut R,
    size: u64,
    body: &mut Vec<u8, A>,
) -> Result<(), HttpFault>
    ensures bytes { (taken : List ℕ)
        × Consumes (R.remaining reader.old) (R.remaining reader.new) taken
        × IsExactly size taken (R.remaining reader.new)
        (HasFailed (R.failures reader.old) (R.failures reader.new)) result
        × OnOk result (body.new.items ≡ body.old.items ++ taken) }
    ensures counted { CountsFailedRead result (R.failures reader.old) (R.failures reader.new) }
{
    let start = body.len();
    let mut piece = [0; 512];
    'pieces: while ((body.len() - start) as u64) < size {
        let want = (size - (body.len() - start) as u64).min(512) as usize;
        match reader.read(&mut piece[..want]) {
            Ok(0) => return Err(HttpFault::Ended),
            Err(_) => return Err(HttpFault::Device),
            Ok(n) => {
                if body.extend_from_slice(&piece[..n]).is_err() {
                    return Err(HttpFault::OutOfMemory);
                }
            }
        }
    }
    Ok(())
}

/// Reads a byte that has to be this one.
fn read_expected<R: FaultRead>(reader: &mut R, expected: u8) -> Result<(), HttpFault>
    ensures byte { (taken : List ℕ)
        × Consumes (R.remaining reader.old) (R.remaining reader.new) taken
        × IsExpected expected taken (R.remaining reader.new)
        (HasFailed (R.failures reader.old) (R.failures reader.new)) result }
    ensures counted { CountsFailedRead result (R.failures reader.old) (R.failures reader.new) }
{
    match read_byte(reader) {
        Ok(Some(byte)) if byte == expected => Ok(()),
        Ok(Some(_)) => Err(HttpFault::BadChunk),
        Ok(None) => Err(HttpFault::Ended),
        Err(_) => Err(HttpFault::Device),
    }
}

/// Reads a chunk's data of that size and the CR LF after it, and puts the data after the bytes of
/// `body`.
pub(crate) fn read_data<R: FaultRead, A: Allocator>(
    reader: &mut R,
    size: u64,
    body: &mut Vec<u8, A>,
) -> Result<(), HttpFault>
    ensures data { (taken : List ℕ)
        × Consumes (R.remaining reader.old) (R.remaining reader.new) taken
        × OnOk result (TakesData size taken body.old.items body.new.items)
        × IfErr result (LacksData size taken (R.remaining reader.new)
        (HasFailed (R.failures reader.old) (R.failures reader.new))) }
    ensures counted { CountsFailedRead result (R.failures reader.old) (R.failures reader.new) }
{
    match read_exactly(reader, size, body) {
        Ok(()) => {}
        Err(fault) => return Err(fault),
    }
    match read_expected(reader, b'\r') {
        Ok(()) => {}
        Err(fault) => return Err(fault),
    }
    match read_expected(reader, b'\n') {
        Ok(()) => Ok(()),
        Err(fault) => Err(fault),
    }
}

/// Whether a front of the text is trailers, with room for as many fields as there are spans.
fn parse_trailers(text: &[u8], spans: &mut [HeaderSpan]) -> Result<bool, HttpFault>
    ensures parsed { ParsesTrailers text.now (length spans.old) result }
    ensures room { length spans.new ≡ length spans.old }
{
    match parse_headers(text, spans) {
        Ok(Status::Complete(_)) => Ok(true),
        Ok(Status::Partial) => Ok(false),
        Err(Error::TooManyHeaders) => Err(HttpFault::BadChunk),
        Err(_) => Err(HttpFault::BadChunk),
    }
}

/// Why there are no trailers, where the bytes ended before they were whole.
fn stopped_trailers(text: &[u8], limits: &HeadLimits, spans: &mut [HeaderSpan]) -> HttpFault
    requires none { HasNoTrailers limits.now text.now }
    requires short { length text.now ≤ limits.now.head }
    requires room { length spans.old ≡ limits.now.fields }
    ensures { IsStoppedTrailers text.now limits.now.fields result }
{
    match parse_trailers(text, spans) {
        Ok(true) => unreachable!(),
        Ok(false) => HttpFault::Ended,
        Err(bad) => bad,
    }
}

/// Reads the trailers, byte by byte so that none after them is taken, and lets them go. They end
/// by a line feed, so only there they are parsed.
pub(crate) fn read_trailers<R: FaultRead, A: Allocator>(
    reader: &mut R,
    limits: &HeadLimits,
    text: &mut Vec<u8, A>,
) -> Result<(), HttpFault>
    requires { limits.now.fields ≤ 64 }
    ensures taken { Consumes (R.remaining reader.old) (R.remaining reader.new) text.new.items }
    ensures trailers { OnOk result ((trailers : Trailers) × IsTrailers limits.now trailers
        × (text.new.items ≡ print_trailers trailers)) }
    ensures none { IfErr result (LacksTrailers limits.now text.new.items (R.remaining reader.new)
        (HasFailed (R.failures reader.old) (R.failures reader.new))) }
    ensures counted { CountsFailedRead result (R.failures reader.old) (R.failures reader.new) }
{
    let mut room = [HeaderSpan::default(); MOST_FIELDS];
    let spans = &mut room[..limits.fields];
    let mut lines = 0;
    text.clear();
    while text.len() < limits.head {
        if text.reserve(1).is_err() {
            return Err(HttpFault::OutOfMemory);
        }
        let byte = match read_byte(reader) {
            Ok(Some(byte)) => byte,
            Ok(None) => return Err(stopped_trailers(text, limits, spans)),
            Err(_) => return Err(HttpFault::Device),
        };
        text.push_reserved(byte);
        if byte == b'\n' {
            match parse_trailers(text, spans) {
                Ok(true) => return Ok(()),
                Ok(false) => {}
                Err(bad) => return Err(bad),
            }
            if lines == limits.fields {
                return Err(HttpFault::BadChunk);
            }
            lines += 1;
        }
    }
    Err(HttpFault::BadChunk)
}
