//! A collector on a thread of its own.

use crate::post::read_post;
use crate::reply::{PostReply, write_reply};
use crate::status::ReplyStatus;
use http_wire::{Counted, FaultRead, HeadLimits};
use std::alloc::Global;
use std::io::{self, BufReader, ErrorKind};
use std::net::{Ipv4Addr, Net, TcpListener, TcpStream};
use std::sync::Arc;
use std::sync::atomic::{AtomicBool, Ordering};
use std::thread::{self, JoinHandle, Threads};
use std::time::Duration;

/// How long a read and a write of a connection may each take, in milliseconds. (profile)
const TIMEOUT_MS: u64 = 10_000;

/// The most bytes of a body. (profile)
const MAX_BODY: usize = 16_777_216;

/// What takes the bodies that a [`Collector`] receives.
pub trait TakeBody {
    /// Takes the body of a request, and says what the request is answered. A body comes again if
    /// its exporter can't read the answer, or if that asks for it.
    fn take(&mut self, body: Vec<u8>) -> PostReply;
}

/// Keeps each body, in the order in which they came first, and answers 200; or 503, and to try
/// again in a second, where memory is refused.
impl TakeBody for Vec<Vec<u8>> {
    fn take(&mut self, body: Vec<u8>) -> PostReply {
        if self.iter().any(|kept| kept.as_slice() == body.as_slice()) || self.push(body).is_ok() {
            return PostReply::of(ReplyStatus::Ok);
        }
        PostReply {
            status: ReplyStatus::ServiceUnavailable,
            retry_after: Some(1),
        }
    }
}

/// A collector at a port of loopback that was free, on a thread of its own: for programs that look
/// at what they send. It serves one connection after the other, and reads one request of each. What
/// isn't for a collector, or can't be read, is answered as [`PostFault`](crate::PostFault) and
/// [`Post::refusal`](crate::Post::refusal) say; each other request is answered by what takes its
/// body. A read and a write may take ten seconds each, and a body has 16 MiB at most. (profile)
///
/// One that is freed goes on until the program ends.
#[derive(Drop)]
pub struct Collector<T> {
    port: u16,
    is_stopped: Arc<AtomicBool>,
    thread: JoinHandle<io::Result<T>>,
}

impl<T: TakeBody + Send + Drop + 'static> Collector<T> {
    /// Listens, and starts the thread, on which bodies are taken.
    ///
    /// # Errors
    ///
    /// An error of the system where there is no port or no thread, or where memory is refused.
    pub fn start<R>(rt: &R, alloc: Global, taker: T) -> io::Result<Collector<T>>
    where
        R: Net<Listener = TcpListener, Stream = TcpStream> + Threads,
    {
        let listener = TcpListener::bind(rt, (Ipv4Addr::LOCALHOST, 0u16))?;
        let port = listener.local_addr()?.port();
        let is_stopped = Arc::new(alloc, AtomicBool::new(false))?;
        let flag = Arc::try_clone(&is_stopped)?;
        let thread = thread::spawn(rt, move || collect(alloc, &listener, &flag, taker))?;
        Ok(Collector {
            port,
            is_stopped,
            thread,
        })
    }

    /// The port that it listens at.
    pub fn port(&self) -> u16 {
        self.port
    }

    /// Ends the collector once it has served the connections that were made before, and gives back
    /// what took the bodies.
    ///
    /// # Errors
    ///
    /// An error of the system where it can't be reached, or could not serve a connection: then it
    /// has ended before.
    pub fn stop<R>(self, rt: &R) -> io::Result<T>
    where
        R: Net<Listener = TcpListener, Stream = TcpStream> + Threads,
    {
        let Collector {
            port,
            is_stopped,
            thread,
        } = self;
        is_stopped.store(true, Ordering::SeqCst);
        // A connection without a request wakes the thread.
        drop(TcpStream::connect(rt, (Ipv4Addr::LOCALHOST, port))?);
        thread.join(rt)
    }
}

/// Serves connections until one has no request and the flag is set.
fn collect<T: TakeBody + Drop>(
    alloc: Global,
    listener: &TcpListener,
    is_stopped: &AtomicBool,
    mut taker: T,
) -> io::Result<T> {
    for stream in listener.incoming() {
        let has_request = serve(alloc, &stream?, &mut taker)?;
        if !has_request && is_stopped.load(Ordering::SeqCst) {
            return Ok(taker);
        }
    }
    Err(ErrorKind::NotConnected.into())
}

/// Serves a connection. Whether there was a request, which was answered.
fn serve<T: TakeBody>(alloc: Global, stream: &TcpStream, taker: &mut T) -> io::Result<bool> {
    let timeout = Some(Duration::from_millis(TIMEOUT_MS));
    stream.set_read_timeout(timeout)?;
    stream.set_write_timeout(timeout)?;
    let mut reader = Counted::new(BufReader::new(alloc, stream)?);
    let Some(reply) = reply_to_next(alloc, &mut reader, taker) else {
        return Ok(false);
    };
    // Where the reply doesn't get through, the body was taken all the same.
    let _ = write_reply(&mut Counted::new(stream), reply);
    Ok(true)
}

/// Reads a request, whose body is taken unless the request is refused, and gives the reply. `None`
/// where the connection ended or failed before the request was there.
fn reply_to_next<R: FaultRead, T: TakeBody>(
    alloc: Global,
    reader: &mut R,
    taker: &mut T,
) -> Option<PostReply> {
    let limits = HeadLimits {
        body: MAX_BODY,
        ..HeadLimits::default()
    };
    let post = match read_post(alloc, alloc, reader, &limits) {
        Ok(post) => post,
        Err(fault) => return fault.reply(),
    };
    match post.refusal() {
        Some(refusal) => Some(refusal),
        None => Some(taker.take(post.body)),
    }
}
