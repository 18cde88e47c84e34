//! Connections that are served, and printed.

ghost use Rattle.std.specs.Prelude.{◌≡◌, ◌≤◌, IfOk, OnErr, OnOk, string_bytes};
ghost use Rattle.std.specs.Io.KnownBytes.{Appends};
ghost use Rattle.otlp_collector.specs.Served.{PrintsServed, PrintsServedFront};
ghost use Rattle.otlp_collector.specs.Served.{connection_line, connection_text};
ghost use Rattle.otlp_collector.specs.Served.{no_outcome, outcome_view};
ghost use Rattle.otlp_collector.specs.Printed.{AppendsFront, CountsFailedWrite};

use crate::{Answered, PrintFault, answer, print_spans};
use http_wire::{FaultRead, FaultWrite, HeadLimits, write_pieces};
use std::alloc::{AllocError, Allocator, Global};

/// The line of the connection with this number, which has this status, or `none`.
fn line_of<A: Allocator>(
    alloc: A,
    number: u64,
    status: Option<u16>,
) -> Result<String<A>, AllocError>
    ensures { IfOk result (λ line. string_bytes line ≡ connection_line number status) }
{
    match status {
        Some(status) => format!(in alloc; "connection {number} {status}\n"),
        None => format!(in alloc; "connection {number} none\n"),
    }
}

/// Writes a line.
fn write_line<O: FaultWrite>(output: &mut O, line: &[u8]) -> Result<(), PrintFault>
    ensures ok { OnOk result (Appends (O.contents output.old) (O.contents output.new) line.now) }
    ensures err { OnErr result
        (AppendsFront (O.contents output.old) (O.contents output.new) line.now) }
    ensures counted { CountsFailedWrite result (O.failures output.old) (O.failures output.new) }
{
    let pieces = [line];
    Ok(write_pieces(output, &pieces)?)
}

/// Prints a connection: its line, `connection NUMBER STATUS` or `connection NUMBER none`, and
/// after it the lines of the spans of its request, if one was taken. The line goes out in one
/// piece where the writer takes it so.
///
/// # Errors
///
/// `Device` where a write failed, which the output has counted, and `OutOfMemory` where memory was
/// refused. A front of the text was written then, and nothing else.
pub fn print_connection<O: FaultWrite, A: Allocator + Copy>(
    alloc: A,
    number: u64,
    answered: &Answered<A>,
    output: &mut O,
) -> Result<(), PrintFault>
    ensures ok { OnOk result (Appends (O.contents output.old) (O.contents output.new)
        (connection_text number (outcome_view answered.now))) }
    ensures err { OnErr result (AppendsFront (O.contents output.old) (O.contents output.new)
        (connection_text number (outcome_view answered.now))) }
    ensures counted { CountsFailedWrite result (O.failures output.old) (O.failures output.new) }
{
    let Ok(line) = line_of(alloc, number, answered.status) else {
        return Err(PrintFault::OutOfMemory);
    };
    write_line(output, line.as_bytes())?;
    match &answered.request {
        Some(request) => print_spans(output, request),
        None => Ok(()),
    }
}

/// Prints a connection without a whole reply.
///
/// # Errors
///
/// As [`print_connection`] has them.
pub(crate) fn print_none<O: FaultWrite, A: Allocator + Copy>(
    alloc: A,
    number: u64,
    output: &mut O,
) -> Result<(), PrintFault>
    ensures ok { OnOk result (Appends (O.contents output.old) (O.contents output.new)
        (connection_text number no_outcome)) }
    ensures err { OnErr result (AppendsFront (O.contents output.old) (O.contents output.new)
        (connection_text number no_outcome)) }
    ensures counted { CountsFailedWrite result (O.failures output.old) (O.failures output.new) }
{
    let answered: Answered<A> = Answered {
        status: None,
        request: None,
    };
    print_connection(alloc, number, &answered, output)
}

/// Serves the connection with this number, as [`crate::answer`] does, and prints it: a
/// line `connection NUMBER STATUS`, or `connection NUMBER none` where there was no whole reply, and
/// after it the lines of the spans of its request, if one was taken and answered. (profile)
///
/// # Errors
///
/// `Device` where a write of the output failed, which it has counted, and `OutOfMemory` where
/// memory to print was refused: the connection was served all the same, and a front of its text was
/// written, and nothing else.
pub fn serve<R: FaultRead, W: FaultWrite, O: FaultWrite, A: Allocator + Copy>(
    alloc: A,
    global: Global,
    number: u64,
    reader: &mut R,
    writer: &mut W,
    limits: &HeadLimits,
    output: &mut O,
) -> Result<(), PrintFault>
    requires { limits.now.fields ≤ 64 }
    ensures ok { OnOk result (PrintsServed limits.now number
        (R.remaining reader.old) (R.remaining reader.new)
        (R.failures reader.old) (R.failures reader.new)
        (W.contents writer.old) (W.contents writer.new)
        (O.contents output.old) (O.contents output.new)) }
    ensures err { OnErr result (PrintsServedFront limits.now number
        (R.remaining reader.old) (R.remaining reader.new)
        (R.failures reader.old) (R.failures reader.new)
        (W.contents writer.old) (W.contents writer.new)
        (O.contents output.old) (O.contents output.new)) }
    ensures counted { CountsFailedWrite result (O.failures output.old) (O.failures output.new) }
{
    match answer(alloc, global, reader, writer, limits, None) {
        Ok(answered) => print_connection(alloc, number, &answered, output),
        // The reply broke off: there was no whole one, and the request is given up. (profile)
        Err(_) => print_none(alloc, number, output),
    }
}
