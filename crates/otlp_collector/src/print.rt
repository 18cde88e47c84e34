//! Spans that are printed.

ghost use Rattle.std.specs.Prelude.{◌≡◌, OnErr, OnOk};
ghost use Rattle.std.specs.Io.KnownBytes.{Appends};
ghost use Rattle.model_message.specs.Messages.{triples};
ghost use Rattle.otlp_read.specs.Requests.{request_view};
ghost use Rattle.otlp_read.specs.Triples.{triple_view};
ghost use Rattle.otlp_collector.specs.Lines.{spans_text, triple_lines};
ghost use Rattle.otlp_collector.specs.Printed.{AppendsFront, CountsFailedWrite};

use crate::line::push_triple;
use crate::print_fault::PrintFault;
use http_wire::{FaultWrite, write_pieces};
use otlp_read::{Request, Triple};
use std::alloc::Allocator;

/// Writes a text.
fn write_text<W: FaultWrite>(writer: &mut W, text: &str) -> Result<(), PrintFault>
    ensures ok { OnOk result (Appends (W.contents writer.old) (W.contents writer.new) text.now) }
    ensures err { OnErr result
        (AppendsFront (W.contents writer.old) (W.contents writer.new) text.now) }
    ensures counted { CountsFailedWrite result (W.failures writer.old) (W.failures writer.new) }
{
    let pieces = [text.as_bytes()];
    Ok(write_pieces(writer, &pieces)?)
}

/// Writes the lines of a span, once they are in memory.
fn print_triple<W: FaultWrite, A: Allocator + Copy>(
    alloc: A,
    writer: &mut W,
    triple: &Triple<'_, A>,
) -> Result<(), PrintFault>
    ensures ok { OnOk result (Appends (W.contents writer.old) (W.contents writer.new)
        (triple_lines (triple_view triple.now))) }
    ensures err { OnErr result (AppendsFront (W.contents writer.old) (W.contents writer.new)
        (triple_lines (triple_view triple.now))) }
    ensures counted { CountsFailedWrite result (W.failures writer.old) (W.failures writer.new) }
{
    let mut text = String::new(alloc);
    push_triple(&mut text, triple)?;
    write_text(writer, &text)
}

/// Writes the lines of each span of a request, in the order of reading, each span with its resource
/// and its scope (profile):
///
/// - `span TRACE SPAN PARENT STATE KIND START END NAME`, and `flags F` unless its flags are 0;
/// - `resource DROPPED SCHEMA`, and `rattr KEY VALUE` for each of its attributes;
/// - `scope NAME VERSION SCHEMA DROPPED`, and `sattr KEY VALUE` for each of its attributes;
/// - `attr KEY VALUE` for each attribute of the span;
/// - `event AT NAME DROPPED` for each event, and `eattr KEY VALUE` for each of its attributes;
/// - `link TRACE SPAN STATE DROPPED` for each link, `lflags F` unless its flags are 0, and
///   `lattr KEY VALUE` for each of its attributes;
/// - `dropped ATTRIBUTES EVENTS LINKS`, and `status CODE MESSAGE`.
///
/// In a text each byte but ASCII letters, digits, `.`, `_`, `-`, `/` and `:` is `%` and two lower
/// case hexadecimal digits, and the empty text is `%`. Identifiers and bytes are lower case
/// hexadecimal digits, of which none are `%`, and flags are eight of these. Numbers are decimal,
/// moments in nanoseconds since 1970.
///
/// A value is `t:` and a text, `b:true`, `b:false`, `i:` and a number, `d:` and the 64 bits of a
/// double as 16 hexadecimal digits, `y:` and bytes, `a(`, values with commas between them and `)`,
/// `m(`, pairs `KEY=VALUE` with commas between them and `)`, or `n:` for none.
///
/// A list of the spans, and the lines of one span at a time, take memory where the request's own
/// is.
///
/// # Errors
///
/// `Device` where a write failed, which the writer has counted, and `OutOfMemory` where memory was
/// refused. A front of the text was written then, and nothing else.
pub fn print_spans<W: FaultWrite, A: Allocator + Copy>(
    writer: &mut W,
    request: &Request<A>,
) -> Result<(), PrintFault>
    ensures ok { OnOk result (Appends (W.contents writer.old) (W.contents writer.new)
        (spans_text (triples (request_view request.now)))) }
    ensures err { OnErr result (AppendsFront (W.contents writer.old) (W.contents writer.new)
        (spans_text (triples (request_view request.now)))) }
    ensures counted { CountsFailedWrite result (W.failures writer.old) (W.failures writer.new) }
{
    let alloc = *request.resource_spans.allocator();
    let triples = request.triples()?;
    for triple in &triples {
        print_triple(alloc, writer, triple)?;
    }
    Ok(())
}
