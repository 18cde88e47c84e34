//! The names of lost spans, a line each.
ghost use Rattle.std.specs.Prelude.{◌≡◌, ◌∷◌, [], OnOk, false, true};
ghost use Rattle.std.specs.Io.KnownBytes.{Appends, Keeps};
ghost use Rattle.hex.specs.Hex.{encode_lower};
ghost use Rattle.retry_core.specs.Retries.{fate_view};
ghost use Rattle.otlp_relay.specs.Lines.{TakesLine, lost_line, reason_word};

use relay_queue::LostSink;
use retry_core::Fate;
use std::io::{self, Write};
use std::marker::Model;

/// A sink that writes a line for each name: `lost TRACE SPAN REASON`, with the identifiers in
/// hexadecimal digits, and the reason in the words that a queue of spans has for it: `refused
/// STATUS`, `bad-reply`, `attempts` or `abandoned` (profile).
///
/// It takes no memory. After a write that failed nothing is written until [`LostLines::finish`], and
/// names are only counted. A line is written in several pieces: where a write is dear, the writer is
/// a `LineWriter`.
/// In contracts it is a `LineSink`.
#[derive(Debug, Drop)]
pub struct LostLines<W> {
    writer: W,
    has_failed: bool,
    unwritten: u64,
}

impl<W> Model for LostLines<W> {
    ghost use Rattle.otlp_relay.specs.Lines.{LineSink};

    ghost Value = { LineSink W };

    ghost view = { λ l. record {
      writer = l.writer;
      has_failed = l.has_failed;
      unwritten = l.unwritten;
    } };
}

impl<W> LostLines<W> {
    /// Writes to this writer.
    pub fn new(writer: W) -> LostLines<W>
        ensures { result ≡ record { writer = writer; has_failed = false; unwritten = 0 } }
    {
        LostLines {
            writer,
            has_failed: false,
            unwritten: 0,
        }
    }

    /// How many names were not written: each one whose write failed, of which a beginning may have
    /// been written, and all after it up to the next `finish`. The count stops at 2^64 - 1.
    pub fn unwritten(&self) -> u64
        ensures { result ≡ self.now.unwritten }
    {
        self.unwritten
    }

    /// What it writes to.
    pub fn writer(&self) -> &W
        ensures { result.now ≡ self.now.writer }
    {
        &self.writer
    }
}

impl<W: Write> LostLines<W> {
    /// Ends a row of names: what the writer holds back is written out. Answers whether each name
    /// since the last call was written. After it names are written again, also where a write failed.
    pub fn finish(&mut self) -> bool
        ensures whole { result ≡ true → self.old.has_failed ≡ false }
        ensures lines { self.new ≡ record self.old {
          writer = self.new.writer;
          has_failed = false;
        } }
        ensures bytes { Keeps (W.contents self.old.writer) (W.contents self.new.writer) }
    {
        let is_out = self.writer.flush().is_ok();
        let is_whole = !self.has_failed;
        self.has_failed = false;
        is_out && is_whole
    }
}

/// The two lower case hexadecimal digits of a byte.
fn digits_of(byte: u8) -> [u8; 2]
    ensures { result ≡ encode_lower (byte ∷ []) }
{
    let mut digits = [0u8; 2];
    let Ok(()) = hex::encode_to_slice([byte], &mut digits) else {
        unreachable!()
    };
    digits
}

/// Writes bytes as two lower case hexadecimal digits each.
fn write_digits<W: Write>(writer: &mut W, bytes: &[u8]) -> io::Result<()>
    ensures { OnOk result (Appends (W.contents writer.old) (W.contents writer.new)
        (encode_lower bytes.now)) }
{
    for byte in bytes {
        writer.write_all(&digits_of(*byte))?;
    }
    Ok(())
}

/// Writes why a span is lost.
fn write_reason<W: Write>(writer: &mut W, fate: Fate) -> io::Result<()>
    ensures { OnOk result (Appends (W.contents writer.old) (W.contents writer.new)
        (reason_word (fate_view fate))) }
{
    match fate {
        Fate::Refused(status) => write!(writer, "refused {status}"),
        Fate::BadReply => writer.write_all(b"bad-reply"),
        Fate::GivenUp => writer.write_all(b"attempts"),
        Fate::Delivered | Fate::Partial(_) | Fate::Abandoned => writer.write_all(b"abandoned"),
    }
}

/// Writes the line of a name.
fn write_lost_line<W: Write>(
    writer: &mut W,
    trace: &[u8],
    span: &[u8],
    fate: Fate,
) -> io::Result<()>
    ensures { OnOk result (Appends (W.contents writer.old) (W.contents writer.new)
        (lost_line trace.now span.now (fate_view fate))) }
{
    writer.write_all(b"lost ")?;
    write_digits(writer, trace)?;
    writer.write_all(b" ")?;
    write_digits(writer, span)?;
    writer.write_all(b" ")?;
    write_reason(writer, fate)?;
    writer.write_all(b"\n")
}

impl<W: Write> LostSink for LostLines<W> {
    ghost use Rattle.std.specs.Prelude.{None};

    ghost named = { λ _. None };

    /// Writes the name, if no write has failed, and else only counts it.
    fn take_lost(&mut self, trace: &[u8], span: &[u8], fate: Fate)
        ensures { TakesLine W.contents (lost_line trace.now span.now (fate_view fate))
            self.old self.new }
    {
        if !self.has_failed {
            if write_lost_line(&mut self.writer, trace, span, fate).is_ok() {
                return;
            }
            self.has_failed = true;
        }
        self.unwritten = self.unwritten.saturating_add(1);
    }
}
