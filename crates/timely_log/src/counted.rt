//! Lines, and how many could not be written.
ghost use Rattle.std.specs.Prelude.{◌≡◌, ◌≢◌, ◌+◌, ◌-◌, ◌^◌, min, OnOk, OnErr};
ghost use Rattle.std.specs.Io.{WritesAtMost};
ghost use Rattle.std.specs.Io.KnownBytes.{WriteAppends};

use std::io::{self, Write};

/// Writes lines for a program, such as `writeln!` makes them, and counts those that could not be
/// written: a write that fails is the end of its line. Once a write is possible again it says first,
/// on a line of its own, how many lines are missing.
#[derive(Debug, Drop)]
pub struct CountedLines<W> {
    /// What it writes to.
    pub writer: W,
    /// The program, whose name begins the line on missing ones.
    pub program: &'static str,
    /// How many lines could not be written, and were not said to be missing. The count stops at
    /// 2^64 - 1.
    pub unwritten: u64,
}

impl<W> CountedLines<W> {
    /// Of a program with this name, all of whose lines were written.
    pub fn new(writer: W, program: &'static str) -> CountedLines<W>
        ensures writer { result.writer ≡ writer }
        ensures program { result.program.now ≡ program.now }
        ensures none { result.unwritten ≡ 0 }
    {
        CountedLines {
            writer,
            program,
            unwritten: 0,
        }
    }
}

impl<W: Write> CountedLines<W> {
    /// Says how many lines are missing, where some are. The line before may be cut off, so that
    /// begins on a new one.
    fn say_missing(&mut self) -> io::Result<()>
        ensures said { OnOk result (self.new.unwritten ≡ 0) }
        ensures kept { OnErr result (self.new.unwritten ≡ self.old.unwritten) }
        ensures same { self.old.unwritten ≡ 0 → self.new ≡ self.old }
    {
        if self.unwritten == 0 {
            return Ok(());
        }
        writeln!(
            self.writer,
            "\n{}: lines that nobody read are missing here: {}",
            self.program, self.unwritten
        )?;
        self.unwritten = 0;
        Ok(())
    }
}

impl<W: Write> Write for CountedLines<W> {
    /// Writes, after the line on missing lines, where some are.
    ///
    /// # Errors
    ///
    /// Those of the writer. One line more is missing then.
    fn write(&mut self, bytes: &[u8]) -> io::Result<usize>
        ensures bound { WritesAtMost result bytes.now }
        ensures written { OnOk result (self.new.unwritten ≡ 0) }
        ensures missing { OnErr result (self.new.unwritten ≢ 0) }
        ensures bytes { self.old.unwritten ≡ 0 → WriteAppends (W.contents self.old.writer)
            (W.contents self.new.writer) result bytes.now }
    {
        let written = match self.say_missing() {
            Ok(()) => self.writer.write(bytes),
            Err(error) => Err(error),
        };
        if written.is_err() {
            self.unwritten = self.unwritten.saturating_add(1);
        }
        written
    }

    fn flush(&mut self) -> io::Result<()> {
        self.writer.flush()
    }
}
