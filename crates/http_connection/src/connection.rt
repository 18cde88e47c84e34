//! A connection, with no IO of its own.

ghost use Rattle.std.specs.Prelude.{◌≡◌, ◌≤◌, ℕ, ◌↔◌, ◌<◌, false, [], List, drop, length, min};
ghost use Rattle.std.specs.Prelude.{take, vec_len, IfOk, IsSome, None, OnErr, IsTrue};
ghost use Rattle.std.specs.Option.{ForSome};
ghost use Rattle.http.specs.Request.{body_of};
ghost use Rattle.http_connection.specs.Stages.{whole_at};
ghost use Rattle.std.specs.Io.KnownBytes.{Appends, Keeps};

use crate::input::Input;
use crate::limits::{MAX_FIELDS, MAX_PENDING};
use crate::output::Output;
use crate::{Gathers, Limits, Phase, Pieces, Service};
use bytes::Bytes;
use http::request::Parts;
use http::{HeaderMap, Method, Request, Uri, Version};
use http1::Server;
use httparse::spans::EMPTY_HEADER_SPAN;
use std::alloc::Global;
use std::hash::RandomState;
use std::io::{self, Read, Write};

/// What a connection does next.
#[derive(Drop)]
pub(crate) enum Stage<P> {
    /// It reads a head.
    Head,
    /// It reads the body of a request that was let in.
    Body,
    /// It has read this request, which is whole, and answers it next.
    Whole(Request<Bytes>),
    /// It writes the pieces of an answer.
    Pieces(P),
    /// It reads the rest of a refused request, this many bytes at most, and throws them away.
    Discard(u64),
    /// It writes what is pending, and ends then.
    Closing,
    /// It has ended at once.
    Aborted,
}

/// One connection to a client.
///
/// Read into it while it `wants_read`, and write from it while it `wants_write`. Call `advance`
/// after each read and after each write, and while it `wants_advance`, as where a piece was empty.
/// What to do beside that, its `phase` says.
pub struct Connection<P> {
    pub(crate) alloc: Global,
    pub(crate) keys: RandomState,
    pub(crate) limits: Limits,
    pub(crate) stage: Stage<P>,
    /// Whether a read found the end of what the client sends.
    pub(crate) ended: bool,
    pub(crate) input: Input,
    pub(crate) output: Output,
    pub(crate) server: Server,
    /// The request whose body is read, or a blank one.
    pub(crate) request: Request<Bytes>,
    /// How many bytes its head takes, and the body of one that is whole.
    pub(crate) head_room: usize,
    pub(crate) body: Vec<u8>,
    ghost bounded: { vec_len body ≤ limits.max_body },
    ghost whole_bounded: { ForSome (whole_at stage) (λ r. length (body_of r) ≤ limits.max_body) },
}

/// By hand: a derived one would be proved again in each crate that drops it.
impl<P: Drop> Drop for Connection<P> {
    fn drop(self) {
        let Self {
            alloc: _,
            keys: _,
            limits: _,
            stage: _,
            ended: _,
            input: _,
            output: _,
            server: _,
            request: _,
            head_room: _,
            body: _,
        } = self;
    }
}

/// A request of which nothing is known.
pub(crate) fn blank_request(alloc: Global, keys: RandomState) -> Request<Bytes> {
    let parts = Parts {
        method: Method::GET,
        uri: Uri::default(),
        version: Version::HTTP_11,
        headers: HeaderMap::with_hasher(alloc, keys),
    };
    Request::from_parts(parts, Bytes::new())
}

impl<P> Connection<P> {
    ghost use Rattle.http_connection.specs.Connections.{pending_of, held_of, phase_of, place_of};
    ghost use Rattle.http_connection.specs.Connections.{wants_advance_of, wants_read_of};
    ghost use Rattle.http_connection.specs.Connections.{HoldsNoBlock, Rests, is_aborted, whole_of};
    ghost use Rattle.http_connection.specs.Runs.{Place};

    /// A connection on which nothing has come. It takes no memory. The client chooses the names of
    /// fields, so the maps of them take secret keys.
    pub fn new(alloc: Global, keys: RandomState, limits: Limits) -> Connection<P>
        ensures limits { result.limits ≡ limits }
        ensures place { place_of result ≡ Place.Awaits }
        ensures pending { pending_of result ≡ [] }
    {
        Connection {
            alloc,
            keys,
            limits,
            stage: Stage::Head,
            ended: false,
            input: Input::new(alloc),
            output: Output::new(alloc),
            server: Server::new(http1::Limits::default()),
            request: blank_request(alloc, keys),
            head_room: 0,
            body: Vec::new(alloc),
        }
    }

    /// Where it is.
    pub fn phase(&self) -> Phase
        ensures { result ≡ phase_of self.now }
    {
        let is_pending = self.output.len() > 0;
        match self.stage {
            Stage::Head if is_pending => Phase::Answering,
            Stage::Head if self.input.bytes.is_empty() => Phase::Idle,
            Stage::Head | Stage::Body => Phase::Receiving,
            Stage::Whole(_) | Stage::Pieces(_) => Phase::Answering,
            Stage::Discard(_) => Phase::Discarding,
            Stage::Closing if is_pending => Phase::Answering,
            Stage::Closing if !self.ended => Phase::Closing,
            Stage::Closing | Stage::Aborted => Phase::Done,
        }
    }

    /// How many bytes of memory it holds: its block of input, the head and the body of the request
    /// that is read, and what waits to be written. The map of a head's fields, 64 at most, is not
    /// counted, nor what the pieces of an answer hold.
    pub fn held(&self) -> usize
        ensures { result ≡ min (held_of self.now) usize.MAX }
    {
        let requested = self.head_room.saturating_add(self.body.capacity());
        let moved = self.input.room.saturating_add(self.output.bytes.capacity());
        requested.saturating_add(moved)
    }

    /// Whether it is to be read.
    pub fn wants_read(&self) -> bool
        ensures { result ≡ wants_read_of self.now }
    {
        match self.stage {
            Stage::Head => !self.ended && self.output.len() < MAX_PENDING,
            Stage::Body | Stage::Discard(_) | Stage::Closing => !self.ended,
            Stage::Whole(_) | Stage::Pieces(_) | Stage::Aborted => false,
        }
    }

    /// Whether bytes wait to be written.
    pub fn wants_write(&self) -> bool
        ensures { IsTrue result ↔ (0 < length (pending_of self.now)) }
    {
        self.output.len() > 0
    }

    /// Whether `advance` would answer a whole request, or write one more piece.
    pub fn wants_advance(&self) -> bool
        ensures value { result ≡ wants_advance_of self.now }
        ensures lives { IsTrue result → is_aborted self.now ≡ false }
    {
        match self.stage {
            Stage::Whole(_) => true,
            Stage::Pieces(_) => self.output.len() < MAX_PENDING,
            _ => false,
        }
    }

    /// Whether it stopped at a whole request, which `advance` answers.
    pub fn is_whole(&self) -> bool
        ensures { IsTrue result ↔ IsSome (whole_of self.now) }
    {
        matches!(self.stage, Stage::Whole(_))
    }

    /// Whether one more piece of an answer can be written.
    pub(crate) fn wants_piece(&self) -> bool
        ensures lives { IsTrue result → is_aborted self.now ≡ false }
        ensures rests { IsTrue result → Rests self.now }
    {
        matches!(self.stage, Stage::Pieces(_)) && self.output.len() < MAX_PENDING
    }

    /// Reads once. A read of no byte is the end of what the client sends, and after it nothing more
    /// is read.
    ///
    /// # Errors
    ///
    /// Those of the reader, and refused memory; nothing was read then, and no block of input is held
    /// while nothing has come of a request.
    pub fn read_from<R: Read>(&mut self, reader: &mut R) -> io::Result<usize>
        ensures idle { OnErr result (HoldsNoBlock self.new) }
        ensures pending { pending_of self.new ≡ pending_of self.old }
        ensures place { place_of self.new ≡ place_of self.old }
        ensures whole { whole_of self.new ≡ whole_of self.old }
        ensures aborted { is_aborted self.new ≡ is_aborted self.old }
        ensures limits { self.new.limits ≡ self.old.limits }
    {
        if self.ended {
            return Ok(0);
        }
        let read = self.input.read_from(reader);
        if read.is_err() {
            self.rest();
        }
        let count = read?;
        self.ended = count == 0;
        Ok(count)
    }

    /// Gives back the block of input where nothing has come.
    pub(crate) fn rest(&mut self)
        ensures idle { HoldsNoBlock self.new }
        ensures stage { self.new.stage ≡ self.old.stage }
        ensures request { self.new.request ≡ self.old.request }
        ensures body { self.new.body ≡ self.old.body }
        ensures output { self.new.output ≡ self.old.output }
        ensures limits { self.new.limits ≡ self.old.limits }
        ensures rests { Rests self.old → Rests self.new }
    {
        if !matches!(self.stage, Stage::Head) || !self.input.bytes.is_empty() {
            return;
        }
        self.input.release(self.alloc);
    }

    /// Writes once.
    ///
    /// # Errors
    ///
    /// Those of the writer; nothing was written then.
    pub fn write_to<W: Write>(&mut self, writer: &mut W) -> io::Result<usize>
        ensures ok { IfOk result (λ n. (pending_of self.new ≡ drop n (pending_of self.old))
            × Appends (W.contents writer.old) (W.contents writer.new)
            (take n (pending_of self.old))) }
        ensures err { OnErr result ((pending_of self.new ≡ pending_of self.old)
            × Keeps (W.contents writer.old) (W.contents writer.new)) }
        ensures place { place_of self.new ≡ place_of self.old }
        ensures whole { whole_of self.new ≡ whole_of self.old }
        ensures aborted { is_aborted self.new ≡ is_aborted self.old }
        ensures limits { self.new.limits ≡ self.old.limits }
    {
        let count = writer.write(self.output.pending())?;
        self.output.advance(count, self.alloc);
        Ok(count)
    }
}

impl<P: Pieces + Drop> Connection<P> {
    ghost use Rattle.http_connection.specs.Connections.{HoldsNoBlock, NeverStalls, RunsOn, Shows};
    ghost use Rattle.http_connection.specs.Connections.{Stops, whole_of};

    /// Answers what has come, and writes one more piece where less than 64 KiB wait to be written.
    /// `room` bytes may still be pending beside those that it holds.
    ///
    /// What it puts out is what the service answered, in order, and the pieces that go on with it.
    /// After a refusal nothing more is answered. Where memory is refused the connection ends, and
    /// what was pending is dropped.
    pub fn advance<S: Service<Pieces = P>>(&mut self, service: &mut S, room: usize)
        ensures runs { RunsOn S.answers P.writes service.old self.old service.new self.new }
        ensures limits { self.new.limits ≡ self.old.limits }
        ensures rests { NeverStalls self.new }
        ensures answered { whole_of self.new ≡ None }
        ensures idle { HoldsNoBlock self.new }
    {
        self.go_on(service, room, false);
    }

    /// The same up to the next whole request, which isn't answered yet: `advance` answers it. Where
    /// it has stopped at one, nothing is done.
    pub fn advance_to_whole<S: Service<Pieces = P>>(&mut self, service: &mut S, room: usize)
        ensures runs { RunsOn S.answers P.writes service.old self.old service.new self.new }
        ensures limits { self.new.limits ≡ self.old.limits }
        ensures rests { NeverStalls self.new }
        ensures idle { HoldsNoBlock self.new }
    {
        self.go_on(service, room, true);
    }

    /// Answers what has come, where it pauses up to the next whole request.
    fn go_on<S: Service<Pieces = P>>(&mut self, service: &mut S, room: usize, pauses: bool)
        ensures runs { RunsOn S.answers P.writes service.old self.old service.new self.new }
        ensures limits { self.new.limits ≡ self.old.limits }
        ensures stops { Stops pauses self.new }
        ensures idle { HoldsNoBlock self.new }
    {
        let mut spans = [EMPTY_HEADER_SPAN; MAX_FIELDS];
        let budget = self.held().saturating_add(room);
        self.run(service, budget, &mut spans, pauses);
        self.rest();
    }

    /// Shows a service the whole request at which it stopped, if it did, where this many bytes may
    /// still be pending.
    pub fn show<S: Gathers<Pieces = P>>(&self, service: &mut S, room: usize)
        ensures { Shows S.gathers service.old (whole_of self.now) service.new }
    {
        if let Stage::Whole(request) = &self.stage {
            service.gather(request, room);
        }
    }
}
