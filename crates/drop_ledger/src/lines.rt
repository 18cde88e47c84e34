//! A sink that writes a line for each name.
ghost use Rattle.std.specs.Prelude.{◌≡◌, OnOk, codes, false, is_some};
ghost use Rattle.std.specs.Io.KnownBytes.{Appends};
ghost use Rattle.otlp_span.specs.Dropped.{entry_view};
ghost use Rattle.drop_ledger.specs.Lines.{TakesLine, name_line};

use crate::sink::NameSink;
use otlp_span::Entry;
use std::io::{self, Write};
use std::marker::Model;

/// A sink that writes a line for each name: `dropped TICKET TRACE SPAN REASON` or
/// `lost TICKET TRACE SPAN REASON`, with the identifiers in hexadecimal digits, and the reason in
/// the words of [`Reason`](otlp_span::Reason) (profile).
///
/// It keeps the first error of a write. After that nothing is written any more, and names are only
/// counted. A line is written in several pieces: where a write is dear, the writer is a
/// `BufWriter`, and after [`into_writer`](NameLines::into_writer) it is flushed.
#[derive(Debug, Drop)]
pub struct NameLines<W> {
    writer: W,
    error: Option<io::Error>,
    unwritten: u64,
}

impl<W> Model for NameLines<W> {
    ghost use Rattle.std.specs.Prelude.{is_some};
    ghost use Rattle.drop_ledger.specs.Lines.{LineSink};

    ghost Value = { LineSink W };

    ghost view = { λ l. record {
      writer = l.writer;
      failed = is_some l.error;
      unwritten = l.unwritten;
    } };
}

impl<W> NameLines<W> {
    /// Writes to this writer.
    pub fn new(writer: W) -> NameLines<W>
        ensures { result ≡ record { writer = writer; failed = false; unwritten = 0 } }
    {
        NameLines {
            writer,
            error: None,
            unwritten: 0,
        }
    }

    /// Why the first write failed that did, if one did.
    pub fn error(&self) -> Option<&io::Error>
        ensures { is_some result ≡ self.now.failed }
    {
        self.error.as_ref()
    }

    /// How many names were not written: the one whose write failed, of which a beginning may have
    /// been written, and all after it. The count stops at 2^64 - 1.
    pub fn unwritten(&self) -> u64
        ensures { result ≡ self.now.unwritten }
    {
        self.unwritten
    }

    /// What it writes to.
    pub fn writer(&self) -> &W
        ensures { result.now ≡ self.now.writer }
    {
        &self.writer
    }

    /// Gives the writer back.
    pub fn into_writer(self) -> W
        ensures { result ≡ self.writer }
    {
        let NameLines {
            writer,
            error: _,
            unwritten: _,
        } = self;
        writer
    }
}

/// Writes the line of a name, after a word that says what became of its span.
fn write_line<W: Write>(writer: &mut W, word: &str, entry: Entry) -> io::Result<()>
    ensures { OnOk result (Appends (W.contents writer.old) (W.contents writer.new)
        (name_line word.now (entry_view entry))) }
{
    let (ticket, trace, span, reason) = (entry.ticket, entry.trace, entry.span, entry.reason);
    writeln!(writer, "{word} {ticket} {trace} {span} {reason}")
}

impl<W: Write> NameLines<W> {
    /// Writes the line of a name, if no write has failed.
    fn take(&mut self, word: &str, entry: Entry)
        ensures { TakesLine W.contents (name_line word.now (entry_view entry)) self.old self.new }
    {
        if self.error.is_none() {
            match write_line(&mut self.writer, word, entry) {
                Ok(()) => return,
                Err(error) => self.error = Some(error),
            }
        }
        self.unwritten = self.unwritten.saturating_add(1);
    }
}

impl<W: Write> NameSink for NameLines<W> {
    ghost use Rattle.std.specs.Prelude.{None};

    ghost named = { λ _. None };

    /// Writes the name of a dropped span, if no write has failed, and else only counts it.
    fn take_dropped(&mut self, entry: Entry)
        ensures { TakesLine W.contents (name_line (codes "dropped") (entry_view entry))
            self.old self.new }
    {
        self.take("dropped", entry);
    }

    /// Writes the name of a lost span, if no write has failed, and else only counts it.
    fn take_lost(&mut self, entry: Entry)
        ensures { TakesLine W.contents (name_line (codes "lost") (entry_view entry))
            self.old self.new }
    {
        self.take("lost", entry);
    }
}
