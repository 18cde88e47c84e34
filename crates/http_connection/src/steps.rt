//! The steps of a connection.

ghost use Rattle.std.specs.Prelude.{◌≡◌, ◌⊎◌, ◌++◌, [], ◌<◌, ◌≤◌, ◌*◌, ◌+◌, ◌-◌, false, true};
ghost use Rattle.std.specs.Prelude.{length, slice_range, vec_len, Some, IfNone, OnOk, IsFalse};
ghost use Rattle.std.specs.Prelude.{IsSome, IsTrue, None, if◌then◌else◌};
ghost use Rattle.http.specs.Request.{body_of, head_of, with_body};
ghost use Rattle.http1.specs.Conn.{finish_text};
ghost use Rattle.http1.specs.Framing.{method_kind};
ghost use Rattle.http1.specs.Server as http1;
ghost use Rattle.http_server.specs.Encoding.{final_text};
ghost use Rattle.http_server.specs.Response.{IsBlank};
ghost use Rattle.httparse.specs.Spans.{IsRequestWithin};

use crate::connection::{Connection, Stage, blank_request};
use crate::encode::{write_continue, write_head, write_refusal, write_whole};
use crate::limits::MAX_PENDING;
use crate::output::Output;
use crate::{Pieces, Refusal, Service};
use bytes::Bytes;
use http::{Method, Request};
use http_server::Response;
use http1::framing::MethodKind;
use http1::{BodySize, Event};
use httparse::spans::{HeaderSpan, RequestSpans, Span};
use std::alloc::AllocError;
use std::mem;

fn is_head(method: &Method) -> bool
    ensures { result ≡ http1.is_head (method_kind method.now) }
{
    matches!(MethodKind::of(method.as_str().as_bytes()), MethodKind::Head)
}

fn set_body(request: &mut Request<Bytes>, body: Bytes)
    ensures { request.new ≡ with_body request.old body }
{
    *request.body_mut() = body;
}

impl<P: Pieces + Drop> Connection<P> {
    ghost use Rattle.http_connection.specs.Connections.{Rests, RunsOn, Stops, WritesOn, is_aborted};
    ghost use Rattle.http_connection.specs.Connections.{max_body_of, pending_of, place_of, whole_of};
    ghost use Rattle.http_connection.specs.Connections.{work};
    ghost use Rattle.http_connection.specs.Runs.{Place, IsOpen, Runs, asks_head, place_after};
    ghost use Rattle.http_connection.specs.Texts.{opening_text, piece_text, refusal_text};

    /// Takes steps, and writes one more piece of an answer where the output is short. It stops at a
    /// whole request where it pauses.
    pub(crate) fn run<S: Service<Pieces = P>>(
        &mut self,
        service: &mut S,
        budget: usize,
        spans: &mut [HeaderSpan],
        pauses: bool,
    )
        ensures runs { RunsOn S.answers P.writes service.old self.old service.new self.new }
        ensures kept { self.new.limits ≡ self.old.limits }
        ensures stops { Stops pauses self.new }
    {
        self.run_steps(service, budget, spans, pauses);
        if !self.wants_piece() {
            return;
        }
        if !self.write_piece() {
            return;
        }
        self.run_steps(service, budget, spans, pauses);
    }

    /// Takes steps while there may be more to do.
    fn run_steps<S: Service<Pieces = P>>(
        &mut self,
        service: &mut S,
        budget: usize,
        spans: &mut [HeaderSpan],
        pauses: bool,
    )
        ensures runs { RunsOn S.answers P.writes service.old self.old service.new self.new }
        ensures kept { self.new.limits ≡ self.old.limits }
        ensures stops { Stops pauses self.new }
    {
        while self.step(service, budget, spans, pauses) {}
    }

    /// Takes one event from the input, or answers a whole request, unless it pauses. Answers whether
    /// there may be more to do.
    fn step<S: Service<Pieces = P>>(
        &mut self,
        service: &mut S,
        budget: usize,
        spans: &mut [HeaderSpan],
        pauses: bool,
    ) -> bool
        ensures runs { RunsOn S.answers P.writes service.old self.old service.new self.new }
        ensures kept { self.new.limits ≡ self.old.limits }
        ensures goes_on { IsTrue result → is_aborted self.new ≡ false }
        ensures stops { IsFalse result → Stops pauses self.new }
        ensures works { IsTrue result → work self.new < work self.old }
    {
        match self.stage {
            Stage::Head => self.read_head(service, budget, spans),
            Stage::Body => self.read_body(service, budget, spans),
            Stage::Whole(_) => self.meet(service, budget, pauses),
            Stage::Discard(left) => self.discard(left, spans),
            Stage::Pieces(_) => false,
            Stage::Closing | Stage::Aborted => {
                self.input.release(self.alloc);
                false
            }
        }
    }

    /// Reads a head, unless enough waits to be written.
    fn read_head<S: Service<Pieces = P>>(
        &mut self,
        service: &mut S,
        budget: usize,
        spans: &mut [HeaderSpan],
    ) -> bool
        requires { self.old.stage ≡ Stage.Head }
        ensures runs { RunsOn S.answers P.writes service.old self.old service.new self.new }
        ensures kept { self.new.limits ≡ self.old.limits }
        ensures goes_on { IsTrue result → is_aborted self.new ≡ false }
        ensures rests { IsFalse result → Rests self.new }
        ensures works { IsTrue result → work self.new < work self.old }
    {
        if self.output.len() >= MAX_PENDING {
            return false;
        }
        let read = match self.server.read(self.input.bytes.as_slice(), spans) {
            Ok(read) => read,
            Err(error) => return self.refuse(service, Refusal::of_unreadable(error)),
        };
        match read.event {
            Event::Head(head) => self.begin(service, budget, &head, spans),
            _ => {
                self.input.bytes.advance(read.consumed);
                self.wait()
            }
        }
    }

    /// Reads the next part of a body, or its end.
    fn read_body<S: Service<Pieces = P>>(
        &mut self,
        service: &mut S,
        budget: usize,
        spans: &mut [HeaderSpan],
    ) -> bool
        requires { self.old.stage ≡ Stage.Body }
        ensures runs { RunsOn S.answers P.writes service.old self.old service.new self.new }
        ensures kept { self.new.limits ≡ self.old.limits }
        ensures goes_on { IsTrue result → is_aborted self.new ≡ false }
        ensures rests { IsFalse result → Rests self.new }
        ensures works { IsTrue result → work self.new < work self.old }
    {
        let read = match self.server.read(self.input.bytes.as_slice(), spans) {
            Ok(read) => read,
            Err(error) => return self.refuse(service, Refusal::of_unreadable(error)),
        };
        match read.event {
            Event::Data(piece) => self.take(service, budget, piece),
            Event::End(_) => {
                self.input.bytes.advance(read.consumed);
                self.complete()
            }
            _ => {
                self.input.bytes.advance(read.consumed);
                self.wait()
            }
        }
    }

    /// Waits for more, and ends where nothing more comes.
    fn wait(&mut self) -> bool
        requires { whole_of self.old ≡ None }
        ensures stops { result ≡ false }
        ensures place { (place_of self.new ≡ place_of self.old)
            ⊎ (place_of self.new ≡ Place.Over) }
        ensures over { place_of self.old ≡ Place.Over → place_of self.new ≡ Place.Over }
        ensures pending { pending_of self.new ≡ pending_of self.old }
        ensures kept { self.new.limits ≡ self.old.limits }
        ensures lives { is_aborted self.old ≡ false → is_aborted self.new ≡ false }
        ensures rests { Rests self.new }
    {
        if self.ended {
            self.stage = Stage::Closing;
            return false;
        }
        false
    }

    /// Takes a head, and lets its request in or refuses it.
    fn begin<S: Service<Pieces = P>>(
        &mut self,
        service: &mut S,
        budget: usize,
        head: &RequestSpans,
        spans: &[HeaderSpan],
    ) -> bool
        requires within { IsRequestWithin self.old.input.bytes.items spans.now head.now }
        requires ends { head.now.len ≤ length self.old.input.bytes.items }
        requires some { 0 < head.now.len }
        requires stage { self.old.stage ≡ Stage.Head }
        ensures runs { RunsOn S.answers P.writes service.old self.old service.new self.new }
        ensures kept { self.new.limits ≡ self.old.limits }
        ensures goes_on { IsTrue result → is_aborted self.new ≡ false }
        ensures rests { IsFalse result → Rests self.new }
        ensures works { IsTrue result → work self.new < work self.old }
    {
        let text = Bytes::copy_from_slice(self.alloc, &self.input.bytes.as_slice()[..head.len]);
        let Ok(text) = text else {
            return self.abort();
        };
        self.input.bytes.advance(head.len);
        match http1_typed::fill_request(self.alloc, &mut self.request, &text, head, spans) {
            Ok(()) => {}
            Err(http::Error::OutOfMemory) => return self.abort(),
            Err(error) => return self.refuse(service, Refusal::of_part(error)),
        }
        self.stage = Stage::Body;
        self.head_room = head.len;
        self.body = Vec::new(self.alloc);
        self.judge(service, budget)
    }

    /// Lets a request in by its head, or refuses it.
    fn judge<S: Service<Pieces = P>>(&mut self, service: &mut S, budget: usize) -> bool
        requires stage { self.old.stage ≡ Stage.Body }
        requires body { self.old.body.items ≡ [] }
        ensures runs { Runs S.answers P.writes (max_body_of self.old) service.old Place.Awaits
            (pending_of self.old) service.new (place_of self.new) (pending_of self.new)
            (is_aborted self.new) }
        ensures kept { self.new.limits ≡ self.old.limits }
        ensures goes_on { IsTrue result → is_aborted self.new ≡ false }
        ensures rests { IsFalse result → Rests self.new }
        ensures works { IsTrue result → work self.new ≤ work self.old }
    {
        let size = match self.server.unread_size() {
            BodySize::Empty => Some(0),
            BodySize::Known(len) => Some(len),
            BodySize::Unknown => None,
        };
        match self.refusal(size, budget) {
            Some(refusal) => self.refuse(service, refusal),
            None => self.admit(service, budget, size),
        }
    }

    /// Why the connection itself refuses a request with a body of this length, if it does.
    fn refusal(&self, size: Option<u64>, budget: usize) -> Option<Refusal> {
        if self.server.has_codings() {
            return Some(Refusal::UnknownCoding);
        }
        let len = size?;
        if len > self.limits.max_body as u64 {
            return Some(Refusal::BodyTooLarge);
        }
        if len > budget.saturating_sub(self.held()) as u64 {
            return Some(Refusal::NoRoom);
        }
        None
    }

    /// Has the service judge a request by its head.
    fn admit<S: Service<Pieces = P>>(
        &mut self,
        service: &mut S,
        budget: usize,
        size: Option<u64>,
    ) -> bool
        requires stage { self.old.stage ≡ Stage.Body }
        requires body { self.old.body.items ≡ [] }
        ensures runs { Runs S.answers P.writes (max_body_of self.old) service.old Place.Awaits
            (pending_of self.old) service.new (place_of self.new) (pending_of self.new)
            (is_aborted self.new) }
        ensures kept { self.new.limits ≡ self.old.limits }
        ensures goes_on { IsTrue result → is_aborted self.new ≡ false }
        ensures rests { IsFalse result → Rests self.new }
        ensures works { IsTrue result → work self.new ≤ work self.old }
    {
        let room = budget.saturating_sub(self.held());
        let mut response = Response::new(self.alloc);
        let Ok(admitted) = service.admit(&self.request, size, room, &mut response) else {
            return self.abort();
        };
        if !admitted {
            return self.send_refusal(&mut response);
        }
        if !self.server.expects_continue() {
            return true;
        }
        match write_continue(&mut self.server, &mut self.output) {
            Ok(()) => true,
            Err(_) => self.abort(),
        }
    }

    /// Why a piece of a body of this length is refused, if it is.
    fn piece_refusal(&self, len: usize, budget: usize) -> Option<Refusal>
        ensures { IfNone result (vec_len self.now.body + len ≤ self.now.limits.max_body) }
    {
        let room = budget.saturating_sub(self.held());
        if len > self.limits.max_body.saturating_sub(self.body.len()) {
            Some(Refusal::BodyTooLarge)
        } else if len > room.saturating_add(self.body.capacity() - self.body.len()) {
            Some(Refusal::NoRoom)
        } else {
            None
        }
    }

    /// Takes a piece of a body.
    fn take<S: Service<Pieces = P>>(&mut self, service: &mut S, budget: usize, piece: Span) -> bool
        requires some { piece.start < piece.end }
        requires ends { piece.end ≤ length self.old.input.bytes.items }
        requires stage { self.old.stage ≡ Stage.Body }
        ensures runs { RunsOn S.answers P.writes service.old self.old service.new self.new }
        ensures kept { self.new.limits ≡ self.old.limits }
        ensures goes_on { IsTrue result → is_aborted self.new ≡ false }
        ensures rests { IsFalse result → Rests self.new }
        ensures works { IsTrue result → work self.new < work self.old }
    {
        if let Some(refusal) = self.piece_refusal(piece.end - piece.start, budget) {
            self.input.bytes.advance(piece.end);
            return self.refuse(service, refusal);
        }
        let Ok(()) = self.keep(piece) else {
            return self.abort();
        };
        self.input.bytes.advance(piece.end);
        true
    }

    /// Keeps a piece of a body, in memory that grows with what came.
    fn keep(&mut self, piece: Span) -> Result<(), AllocError>
        requires within { (piece.start ≤ piece.end)
            × (piece.end ≤ length self.old.input.bytes.items) }
        requires fits { vec_len self.old.body + (piece.end - piece.start)
            ≤ self.old.limits.max_body }
        ensures body { OnOk result (self.new.body.items ≡ self.old.body.items
            ++ slice_range self.old.input.bytes.items piece.start piece.end) }
        ensures stage { self.new.stage ≡ self.old.stage }
        ensures request { self.new.request ≡ self.old.request }
        ensures output { self.new.output ≡ self.old.output }
        ensures input { self.new.input ≡ self.old.input }
        ensures limits { self.new.limits ≡ self.old.limits }
    {
        let input = &self.input.bytes.as_slice()[piece.start..piece.end];
        self.body.extend_from_slice(input)
    }

    /// Makes the request whole, with the bytes that were kept as its body, and copies none of them.
    /// Answers whether there was memory for that.
    fn complete(&mut self) -> bool
        requires { self.old.stage ≡ Stage.Body }
        ensures place { (place_of self.new ≡ place_of self.old)
            ⊎ (place_of self.new ≡ Place.Over) }
        ensures pending { is_aborted self.new ≡ false → pending_of self.new ≡ pending_of self.old }
        ensures kept { self.new.limits ≡ self.old.limits }
        ensures goes_on { IsTrue result → is_aborted self.new ≡ false }
        ensures rests { IsFalse result → Rests self.new }
        ensures works { IsTrue result → work self.new < work self.old }
    {
        let body = mem::replace(&mut self.body, Vec::new(self.alloc));
        self.head_room = self.head_room.saturating_add(body.capacity());
        let Ok(body) = Bytes::from_vec(body) else {
            return self.abort();
        };
        let blank = blank_request(self.alloc, self.keys);
        let mut request = mem::replace(&mut self.request, blank);
        set_body(&mut request, body);
        self.stage = Stage::Whole(request);
        true
    }

    /// Has the service answer the whole request, unless it pauses there.
    fn meet<S: Service<Pieces = P>>(&mut self, service: &mut S, budget: usize, pauses: bool) -> bool
        requires { IsSome (whole_of self.old) }
        ensures runs { RunsOn S.answers P.writes service.old self.old service.new self.new }
        ensures kept { self.new.limits ≡ self.old.limits }
        ensures goes_on { IsTrue result → is_aborted self.new ≡ false }
        ensures stops { IsFalse result → Stops pauses self.new }
        ensures works { IsTrue result → work self.new < work self.old }
    {
        if pauses {
            return false;
        }
        self.answer(service, budget)
    }

    /// The whole request, which is taken out.
    fn take_whole(&mut self) -> Option<Request<Bytes>>
        ensures whole { result ≡ whole_of self.old }
        ensures output { self.new.output ≡ self.old.output }
        ensures server { self.new.server ≡ self.old.server }
        ensures input { self.new.input ≡ self.old.input }
        ensures limits { self.new.limits ≡ self.old.limits }
    {
        match mem::replace(&mut self.stage, Stage::Head) {
            Stage::Whole(request) => Some(request),
            _ => None,
        }
    }

    /// Has the service answer the request, which is whole.
    fn answer<S: Service<Pieces = P>>(&mut self, service: &mut S, budget: usize) -> bool
        ensures runs { RunsOn S.answers P.writes service.old self.old service.new self.new }
        ensures kept { self.new.limits ≡ self.old.limits }
        ensures goes_on { IsTrue result → is_aborted self.new ≡ false }
        ensures rests { IsFalse result → Rests self.new }
        ensures works { IsTrue result → work self.new < work self.old }
    {
        let room = budget.saturating_sub(self.held());
        let Some(request) = self.take_whole() else {
            return self.abort();
        };
        let mut response = Response::new(self.alloc);
        let Ok(pieces) = service.call(&request, room, &mut response) else {
            return self.abort();
        };
        let is_head = is_head(request.method());
        self.release_request();
        match pieces {
            None => self.reply(&mut response, is_head),
            Some(pieces) => self.reply_in_pieces(&response, pieces, is_head),
        }
    }

    /// Writes a whole response.
    fn reply(&mut self, response: &mut Response, is_head: bool) -> bool
        ensures text { is_aborted self.new ≡ false → pending_of self.new
            ≡ pending_of self.old ++ final_text is_head self.old.server response.old }
        ensures place { (place_of self.new ≡ Place.Awaits) ⊎ (place_of self.new ≡ Place.Over) }
        ensures kept { self.new.limits ≡ self.old.limits }
        ensures goes_on { IsTrue result → is_aborted self.new ≡ false }
        ensures rests { IsFalse result → Rests self.new }
        ensures works { IsTrue result → work self.new ≡ 3 * length self.old.input.bytes.items }
    {
        let written = write_whole(
            self.alloc,
            &mut self.server,
            &mut self.output,
            response,
            is_head,
        );
        match written {
            Ok(()) => self.end_answer(),
            Err(_) => self.abort(),
        }
    }

    /// Writes the head of a response whose body comes in pieces.
    fn reply_in_pieces(&mut self, response: &Response, pieces: P, is_head: bool) -> bool
        ensures text { is_aborted self.new ≡ false → pending_of self.new
            ≡ pending_of self.old ++ opening_text is_head self.old.server response.now }
        ensures place { (place_of self.new ≡ place_after is_head (Some pieces))
            ⊎ (place_of self.new ≡ Place.Over) }
        ensures kept { self.new.limits ≡ self.old.limits }
        ensures goes_on { IsTrue result → is_aborted self.new ≡ false }
        ensures rests { IsFalse result → Rests self.new }
        ensures works { IsTrue result → work self.new ≡ 3 * length self.old.input.bytes.items }
    {
        let written = write_head(
            self.alloc,
            &mut self.server,
            &mut self.output,
            response,
            BodySize::Unknown,
        );
        let Ok(()) = written else {
            return self.abort();
        };
        if is_head {
            return self.finish();
        }
        self.stage = Stage::Pieces(pieces);
        false
    }

    /// Writes the next piece of an answer. Answers whether that was the last.
    fn write_piece(&mut self) -> bool
        ensures writes { WritesOn P.writes self.old self.new }
        ensures kept { self.new.limits ≡ self.old.limits }
        ensures goes_on { IsTrue result → is_aborted self.new ≡ false }
        ensures rests { Rests self.old → IsFalse result → Rests self.new }
    {
        let mut piece = Vec::new(self.alloc);
        let Stage::Pieces(pieces) = &mut self.stage else {
            return false;
        };
        let Ok(more) = pieces.next(&mut piece) else {
            return self.abort();
        };
        self.put_piece(&piece, more)
    }

    /// Writes a piece of an answer, and the end where no more follow.
    fn put_piece(&mut self, piece: &[u8], more: bool) -> bool
        ensures text { is_aborted self.new ≡ false → pending_of self.new
            ≡ pending_of self.old ++ piece_text more self.old.server piece.now }
        ensures place { (place_of self.new ≡ (if more then place_of self.old else Place.Awaits))
            ⊎ (place_of self.new ≡ Place.Over) }
        ensures kept { self.new.limits ≡ self.old.limits }
        ensures goes_on { IsTrue result → is_aborted self.new ≡ false }
        ensures rests { IsFalse result → (self.new.stage ≡ self.old.stage) ⊎ Rests self.new }
    {
        if self.output.compact(self.alloc).is_err() {
            return self.abort();
        }
        let Ok(()) = self.server.write_data(&mut self.output, piece) else {
            return self.abort();
        };
        if more {
            return false;
        }
        self.finish()
    }

    /// Writes the end of an answer.
    fn finish(&mut self) -> bool
        ensures text { is_aborted self.new ≡ false → pending_of self.new
            ≡ pending_of self.old ++ finish_text (http1.writing self.old.server) [] }
        ensures place { (place_of self.new ≡ Place.Awaits) ⊎ (place_of self.new ≡ Place.Over) }
        ensures kept { self.new.limits ≡ self.old.limits }
        ensures goes_on { IsTrue result → is_aborted self.new ≡ false }
        ensures rests { IsFalse result → Rests self.new }
        ensures works { IsTrue result → work self.new ≡ 3 * length self.old.input.bytes.items }
    {
        match self.server.write_end(&mut self.output, &[]) {
            Ok(()) => self.end_answer(),
            Err(_) => self.abort(),
        }
    }

    /// Goes on with the next request, or ends where the answer said so.
    fn end_answer(&mut self) -> bool
        ensures goes_on { result ≡ true }
        ensures stage { (self.new.stage ≡ Stage.Head) ⊎ (self.new.stage ≡ Stage.Closing) }
        ensures output { self.new.output ≡ self.old.output }
        ensures input { self.new.input ≡ self.old.input }
        ensures limits { self.new.limits ≡ self.old.limits }
    {
        if self.server.is_closed() {
            self.stage = Stage::Closing;
        } else {
            self.stage = Stage::Head;
        }
        true
    }

    /// Has the service answer what the connection refuses.
    fn refuse<S: Service<Pieces = P>>(&mut self, service: &mut S, refusal: Refusal) -> bool
        ensures runs { (place : Place P) → IsOpen place → Runs S.answers P.writes
            (max_body_of self.old) service.old place (pending_of self.old) service.new
            (place_of self.new) (pending_of self.new) (is_aborted self.new) }
        ensures kept { self.new.limits ≡ self.old.limits }
        ensures goes_on { IsTrue result → is_aborted self.new ≡ false }
        ensures rests { IsFalse result → Rests self.new }
        ensures works { IsTrue result → work self.new < work self.old }
    {
        let mut response = Response::new(self.alloc);
        match service.refuse(refusal, self.head(), &mut response) {
            Ok(()) => self.send_refusal(&mut response),
            Err(_) => self.abort(),
        }
    }

    /// The head of the request that is read, where it was.
    fn head(&self) -> Option<&Request<Bytes>> {
        match self.stage {
            Stage::Body => Some(&self.request),
            _ => None,
        }
    }

    /// Writes the answer to a request that is refused. The rest of its body is thrown away, where
    /// one is to come.
    fn send_refusal(&mut self, response: &mut Response) -> bool
        ensures text { is_aborted self.new ≡ false → pending_of self.new
            ≡ pending_of self.old ++ refusal_text (asks_head self.old.request) response.old }
        ensures place { place_of self.new ≡ Place.Over }
        ensures kept { self.new.limits ≡ self.old.limits }
        ensures goes_on { IsTrue result → is_aborted self.new ≡ false }
        ensures rests { IsFalse result → Rests self.new }
        ensures works { IsTrue result → work self.new < work self.old }
    {
        let is_head = is_head(self.request.method());
        let written = write_refusal(self.alloc, &mut self.output, response, is_head);
        if written.is_err() {
            return self.abort();
        }
        self.release_request();
        if !matches!(self.stage, Stage::Body) || self.server.expects_continue() {
            self.stage = Stage::Closing;
            return false;
        }
        self.stage = Stage::Discard(self.limits.max_discard);
        true
    }

    /// Throws away the next part of a refused request.
    fn discard(&mut self, left: u64, spans: &mut [HeaderSpan]) -> bool
        requires { self.old.stage ≡ Stage.Discard left }
        ensures place { place_of self.new ≡ Place.Over }
        ensures pending { pending_of self.new ≡ pending_of self.old }
        ensures kept { self.new.limits ≡ self.old.limits }
        ensures lives { is_aborted self.new ≡ false }
        ensures rests { IsFalse result → Rests self.new }
        ensures works { IsTrue result → work self.new < work self.old }
    {
        let Ok(read) = self.server.read(self.input.bytes.as_slice(), spans) else {
            self.stage = Stage::Closing;
            return false;
        };
        self.input.bytes.advance(read.consumed);
        match read.event {
            Event::Data(_) if (read.consumed as u64) < left && read.consumed > 0 => {
                self.stage = Stage::Discard(left - read.consumed as u64);
                true
            }
            Event::NeedMore => self.wait(),
            _ => {
                self.stage = Stage::Closing;
                false
            }
        }
    }

    /// Gives back what a request holds.
    fn release_request(&mut self)
        ensures stage { self.new.stage ≡ self.old.stage }
        ensures output { self.new.output ≡ self.old.output }
        ensures input { self.new.input ≡ self.old.input }
        ensures server { self.new.server ≡ self.old.server }
        ensures limits { self.new.limits ≡ self.old.limits }
    {
        self.request = blank_request(self.alloc, self.keys);
        self.head_room = 0;
        self.body = Vec::new(self.alloc);
    }

    /// Ends at once: what was pending is dropped.
    fn abort(&mut self) -> bool
        ensures stops { result ≡ false }
        ensures place { place_of self.new ≡ Place.Over }
        ensures aborted { is_aborted self.new ≡ true }
        ensures rests { Rests self.new }
        ensures limits { self.new.limits ≡ self.old.limits }
    {
        self.stage = Stage::Aborted;
        self.input.release(self.alloc);
        self.output = Output::new(self.alloc);
        self.release_request();
        false
    }
}
