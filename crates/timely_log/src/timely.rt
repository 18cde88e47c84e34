//! A writer that waits for its reader a second at most.
ghost use Rattle.std.specs.Prelude.{◌≡◌, ◌≤◌, true, false, not, IfOk};
ghost use Rattle.std.specs.Io.{WritesAtMost};
ghost use Rattle.std.specs.Io.KnownBytes.{Keeps, WriteAppends};

use libc::net::{POLLOUT, poll};
use libc::types::pollfd;
use std::io::{self, ErrorKind, Write};
use std::os::fd::RawFd;

/// How long a write waits for room, in milliseconds. (profile)
pub const WAIT_MS: i32 = 1_000;

/// How many bytes a write takes at most: a pipe with room takes so many without a wait (PIPE_BUF of
/// Linux, pipe(7)).
pub const PIECE_BYTES: usize = 4_096;

/// Writes to a pipe or a socket, and waits a second at most until it can be written to. A file always
/// can.
///
/// What writes to the same pipe beside this, as another process may, can take the room that was
/// waited for: then the write waits for the reader. So it does at a terminal whose other end isn't
/// read, since a terminal says that there is room where there is too little.
#[derive(Debug, Drop)]
pub struct TimelyWriter<W> {
    /// What writes to the descriptor.
    pub writer: W,
    /// The descriptor that is waited for.
    pub descriptor: RawFd,
    /// Whether the last wait was in vain: nobody has read since.
    pub is_unread: bool,
}

impl<W> TimelyWriter<W> {
    /// Writes by this writer to this descriptor.
    pub fn new(writer: W, descriptor: RawFd) -> TimelyWriter<W>
        ensures writer { result.writer ≡ writer }
        ensures descriptor { result.descriptor ≡ descriptor }
        ensures read { result.is_unread ≡ false }
    {
        TimelyWriter {
            writer,
            descriptor,
            is_unread: false,
        }
    }

    /// Waits until the descriptor can be written to, a second at most, and not at all where the wait
    /// before was in vain. Answers whether it can, also where a write would fail at once, as where
    /// nobody can read any more. (A wait that a signal cut short was in vain.)
    pub fn wait(&mut self) -> bool
        ensures { self.new ≡ record self.old { is_unread = not result } }
    {
        let mut asked = [pollfd {
            fd: self.descriptor,
            events: POLLOUT,
            revents: 0,
        }];
        let wait_ms = if self.is_unread { 0 } else { WAIT_MS };
        let can_write = poll(&mut asked, wait_ms) > 0;
        self.is_unread = !can_write;
        can_write
    }
}

impl<W: Write> Write for TimelyWriter<W> {
    ghost contents = { λ timely. W.contents timely.writer };

    /// Writes the first 4,096 bytes at most. Where it can't be written within a second, or wasn't
    /// read since that was so, nothing is written.
    ///
    /// # Errors
    ///
    /// `TimedOut` then, and those of the writer.
    fn write(&mut self, bytes: &[u8]) -> io::Result<usize>
        ensures bound { WritesAtMost result bytes.now }
        ensures bytes { WriteAppends (W.contents self.old.writer) (W.contents self.new.writer)
            result bytes.now }
        ensures piece { IfOk result (λ count. count ≤ 4_096) }
        ensures unread { self.new.is_unread ≡ true → self.new.writer ≡ self.old.writer }
        ensures same { self.new.descriptor ≡ self.old.descriptor }
    {
        if !self.wait() {
            return Err(ErrorKind::TimedOut.into());
        }
        let count = bytes.len().min(PIECE_BYTES);
        self.writer.write(&bytes[..count])
    }

    fn flush(&mut self) -> io::Result<()>
        ensures bytes { Keeps (W.contents self.old.writer) (W.contents self.new.writer) }
    {
        self.writer.flush()
    }
}
