//! Connections over TCP.

ghost use Rattle.std.specs.Prelude.{◌≤◌, [], IfOk, Some};
ghost use Rattle.otlp_collector.specs.Served.{PrintsOne};

use crate::PrintFault;
use crate::served::{print_none, serve};
use http_wire::{Counted, HeadLimits};
use std::alloc::Global;
use std::io;
use std::io::{BufReader, Read, Write};
use std::net::{OpenListener, OpenStream, Shutdown};
use std::time::{Clock, Duration};

/// How long a read or a write of a connection may wait, in milliseconds. (profile)
const TIMEOUT_MS: u64 = 10_000;

/// How long the client's end is waited for after the reply, where no byte comes, in milliseconds.
/// (profile)
const SILENCE_MS: u64 = 100;

/// How long what still comes is read after the reply, in milliseconds. (profile)
const LINGER_MS: u64 = 2_000;

/// How often a connection is read after the reply, 16,384 bytes at most each time: 16 MiB in all.
/// (profile)
const MOST_LINGERING_READS: u32 = 1_024;

/// A connection: what comes is read through a buffer, and the reply goes out at once.
#[derive(Drop)]
struct Link<S> {
    reader: Counted<BufReader<S>>,
    writer: Counted<S>,
}

impl<S: Read + Write + OpenStream + Drop> Link<S> {
    /// The next connection, as soon as there is one. A read or a write that waits for 10 seconds
    /// fails.
    fn accept<L: OpenListener<Stream = S>>(alloc: Global, listener: &L) -> io::Result<Link<S>> {
        let (stream, _) = listener.accept()?;
        let timeout = Some(Duration::from_millis(TIMEOUT_MS));
        stream.set_read_timeout(timeout)?;
        stream.set_write_timeout(timeout)?;
        stream.set_nodelay(true)?;
        let reader = BufReader::new(alloc, stream.try_clone()?)?;
        Ok(Link {
            reader: Counted::new(reader),
            writer: Counted::new(stream),
        })
    }

    /// Closes the connection so that the reply isn't lost where the client still sends: says that
    /// nothing more comes, and reads for a while what does (RFC 9112, section 9.6; how long:
    /// profile): until the client closes, a tenth of a second passes in which no first byte comes,
    /// or 2 seconds have passed or 16 MiB were read.
    fn close(self, clock: &impl Clock) {
        let Link { reader: _, writer } = self;
        linger(clock, writer.into_inner());
    }
}

/// The moment now, in milliseconds since a start of the clock's own, if it can be read.
fn now_ms(clock: &impl Clock) -> Option<u64> {
    let since_start = clock.monotonic().ok()?;
    u64::try_from(since_start.as_millis()).ok()
}

/// Reads for a while what comes after the reply.
fn linger<S: Read + OpenStream + Drop>(clock: &impl Clock, mut stream: S) {
    let Some(start_ms) = now_ms(clock) else {
        return;
    };
    if stream.shutdown(Shutdown::Write).is_err() {
        return;
    }
    let mut wait_ms = SILENCE_MS;
    let mut buf = [0; 16_384];
    for _ in 0..MOST_LINGERING_READS {
        if !reads_within(&mut stream, &mut buf, wait_ms) {
            return;
        }
        let Some(now_ms) = now_ms(clock) else {
            return;
        };
        wait_ms = LINGER_MS.saturating_sub(now_ms.saturating_sub(start_ms));
        if wait_ms == 0 {
            return;
        }
    }
}

/// Whether more bytes come within this many milliseconds. They are thrown away.
fn reads_within<S: Read + OpenStream>(stream: &mut S, buf: &mut [u8], wait_ms: u64) -> bool {
    let timeout = Some(Duration::from_millis(wait_ms));
    if stream.set_read_timeout(timeout).is_err() {
        return false;
    }
    match stream.read(buf) {
        Ok(count) => count > 0,
        Err(_) => false,
    }
}

/// Accepts the connection with this number, serves it, and closes it: what is printed of it. Where
/// none is accepted, or it can't be made ready, that is a connection without a reply. The text is
/// gathered, so that it goes out whole, or not at all where memory is refused. (profile)
///
/// # Errors
///
/// As [`serve`] has them, and only where memory for the text was refused.
pub(crate) fn text_of_next<L: OpenListener>(
    clock: &impl Clock,
    alloc: Global,
    number: u64,
    listener: &L,
    limits: &HeadLimits,
) -> Result<Vec<u8>, PrintFault>
where
    L::Stream: Read + Write + OpenStream,
    requires { limits.now.fields ≤ 64 }
    ensures { IfOk result (λ text. PrintsOne limits.now number (Some []) (Some text.items)) }
{
    let mut text = Counted::new(Vec::new(alloc));
    let Ok(mut link) = Link::accept(alloc, listener) else {
        print_none(alloc, number, &mut text)?;
        return Ok(text.into_inner());
    };
    let (reader, writer) = (&mut link.reader, &mut link.writer);
    let printed = serve(alloc, alloc, number, reader, writer, limits, &mut text);
    link.close(clock);
    printed?;
    Ok(text.into_inner())
}
