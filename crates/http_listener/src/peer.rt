//! A peer that has connected.
ghost use Rattle.std.specs.Prelude.{◌≡◌, ◌≢◌, ◌<◌, ◌↔◌, Err, IfErr, IfOk, Ok, OnOk, Some, false, length};
ghost use Rattle.std.specs.Prelude.{IsSome, IsTrue, None, min, true};
ghost use Rattle.std.specs.IoError.{error_kind};
ghost use Rattle.http_connection.specs.Connections.{RunsOn, Shows, held_of, pending_of, phase_of};
ghost use Rattle.http_connection.specs.Connections.{place_of, whole_of};
ghost use Rattle.http_listener.specs.Clocks.{IsOver, due_at, is_of_requests};
ghost use Rattle.http_listener.specs.Crowds.{IsLive, IsShut, clock_of};
ghost use Rattle.http_listener.specs.Serving.{IsSeen, Serves, connection_of};
ghost use Rattle.http_listener.specs.Stages.{stage_at};
ghost use Rattle.http_listener.specs.declared.clock.Stage.{Stage as AStage};
ghost use Rattle.http_listener.specs.declared.clock.Stage.TheVariants.{Idle};

use crate::crowd::now_ms;
use crate::{Due, PeerClock, Sight, Stage, StageTimes};
use http_connection::{Connection, Gathers, Phase, Pieces, Service};
use std::io::{self, ErrorKind, Read, Write};
use std::time::Clock;

/// How often a peer is read or written before others have their turn. Of a long answer only one
/// piece is made in a turn. (profile)
const STEPS: usize = 16;

/// What is to be done with a peer whose turn is over.
#[derive(Clone, Copy, Debug, PartialEq, Eq)]
pub enum Turn {
    /// Nothing more can be read or written now: wait for it.
    Waits,
    /// More can be done at once, after the others.
    Again,
    /// Shut down writing: its answer is whole. What it still sends is thrown away (RFC 9112,
    /// section 9.6).
    ShutsDown,
    /// Close it.
    Ends,
}

/// What one step moved.
#[derive(Clone, Copy, Debug, PartialEq, Eq)]
struct Moved {
    /// Whether bytes were read, or the peer's end was.
    read: bool,
    /// Whether bytes were written.
    wrote: bool,
}

/// A peer: the stream to it, whose reads and writes answer `WouldBlock` where they would wait, and
/// its connection.
#[derive(Drop)]
pub struct Peer<T, P> {
    pub(crate) stream: T,
    connection: Connection<P>,
    clock: PeerClock,
    // Whether writing was shut down.
    is_shut: bool,
}

impl<T, P> Peer<T, P> {
    /// A peer that has connected at this moment, in milliseconds.
    pub fn new(stream: T, connection: Connection<P>, now_ms: u64) -> Peer<T, P>
        ensures connection { connection_of result ≡ connection }
        ensures clock { clock_of result ≡ record { stage = Idle; since_ms = now_ms } }
    {
        Peer {
            stream,
            connection,
            clock: PeerClock::new(now_ms),
            is_shut: false,
        }
    }

    /// Since when it waits at its stage, and which one that is.
    pub fn clock(&self) -> PeerClock
        ensures { result ≡ clock_of self.now }
    {
        self.clock
    }

    /// Whether it stopped at a whole request, which its next turn answers.
    pub fn is_whole(&self) -> bool
        ensures { IsTrue result ↔ IsSome (whole_of (connection_of self.now)) }
    {
        self.connection.is_whole()
    }

    /// How many bytes of memory its connection holds.
    pub fn held(&self) -> u64
        ensures { result ≡ min (held_of (connection_of self.now)) usize.MAX }
    {
        self.connection.held() as u64
    }

    /// What is to be done with it at this moment, in milliseconds.
    pub fn due(&self, times: &StageTimes, now_ms: u64) -> Due
        ensures waits { (result ≡ Due.Wait) ↔ ¬ IsOver times.now (clock_of self.now) now_ms }
        ensures over { IsOver times.now (clock_of self.now) now_ms
            → result ≡ due_at (clock_of self.now).stage }
    {
        self.clock.due(times, now_ms)
    }

    /// Notes what is seen of it at this moment, in milliseconds.
    fn note(&mut self, took: bool, now_ms: u64)
        ensures connection { connection_of self.new ≡ connection_of self.old }
        ensures seen { IsSeen self.new }
        ensures moved { (stage : AStage)
            → stage_at (phase_of (connection_of self.old)) self.old.is_shut ≡ Some stage
            → stage ≢ (clock_of self.old).stage
            → clock_of self.new ≡ record { stage = stage; since_ms = now_ms } }
        ensures taken { took ≡ true → is_of_requests (clock_of self.new).stage ≡ true
            → IsLive self.new → (clock_of self.new).since_ms ≡ now_ms }
    {
        if let Some(stage) = stage_at(self.connection.phase(), self.is_shut) {
            self.clock.note(Sight {
                stage,
                took,
                at_ms: now_ms,
            });
        }
    }

    /// Notes that writing was shut down at this moment, in milliseconds.
    pub fn note_shut(&mut self, now_ms: u64)
        ensures shut { IsShut now_ms self.old self.new }
        ensures seen { IsSeen self.new }
    {
        self.is_shut = true;
        self.note(false, now_ms);
    }
}

/// What a connection in this phase is at, where writing was shut down or not. `None` where it is
/// done.
fn stage_at(phase: Phase, is_shut: bool) -> Option<Stage>
    ensures { result ≡ stage_at phase is_shut }
{
    match phase {
        Phase::Done => None,
        _ if is_shut => Some(Stage::Closing),
        Phase::Idle => Some(Stage::Idle),
        Phase::Receiving => Some(Stage::Receiving),
        Phase::Answering => Some(Stage::Answering),
        Phase::Discarding => Some(Stage::Discarding),
        Phase::Closing => Some(Stage::Closing),
    }
}

/// Whether a read or a write moved something, or is to be tried again, as where it was interrupted.
/// One that would wait moved nothing.
fn is_moved(moved: io::Result<usize>) -> io::Result<bool>
    ensures moved { OnOk moved (result ≡ Ok true) }
    ensures waits { IfErr moved (λ e. error_kind e ≡ ErrorKind.WouldBlock → result ≡ Ok false) }
    ensures again { IfErr moved (λ e. error_kind e ≡ ErrorKind.Interrupted → result ≡ Ok true) }
    ensures ends { IfErr moved (λ e. error_kind e ≢ ErrorKind.WouldBlock
        → error_kind e ≢ ErrorKind.Interrupted → result ≡ Err e) }
{
    match moved {
        Ok(_) => Ok(true),
        Err(error) if error.kind() == ErrorKind::WouldBlock => Ok(false),
        Err(error) if error.kind() == ErrorKind::Interrupted => Ok(true),
        Err(error) => Err(error),
    }
}

impl<T: Read + Write, P> Peer<T, P> {
    /// Writes what is pending.
    fn write_bytes(&mut self) -> io::Result<bool>
        ensures wrote { IfOk result (λ wrote. wrote ≡ false
            → pending_of (connection_of self.new) ≡ pending_of (connection_of self.old)) }
        ensures place { place_of (connection_of self.new) ≡ place_of (connection_of self.old) }
        ensures whole { whole_of (connection_of self.new)
            ≡ whole_of (connection_of self.old) }
        ensures limits { (connection_of self.new).limits ≡ (connection_of self.old).limits }
    {
        if self.is_shut || !self.connection.wants_write() {
            return Ok(false);
        }
        let count = self.connection.write_to(&mut self.stream);
        if matches!(count, Ok(0)) {
            return Err(ErrorKind::WriteZero.into());
        }
        is_moved(count)
    }

    /// Reads what has come.
    fn read_bytes(&mut self) -> io::Result<bool>
        ensures pending { pending_of (connection_of self.new) ≡ pending_of (connection_of self.old) }
        ensures place { place_of (connection_of self.new) ≡ place_of (connection_of self.old) }
        ensures whole { whole_of (connection_of self.new)
            ≡ whole_of (connection_of self.old) }
        ensures limits { (connection_of self.new).limits ≡ (connection_of self.old).limits }
    {
        if !self.connection.wants_read() {
            return Ok(false);
        }
        is_moved(self.connection.read_from(&mut self.stream))
    }

    /// Writes once and reads once, where the connection asks for it.
    fn move_bytes(&mut self) -> io::Result<Moved>
        ensures wrote { IfOk result (λ moved. moved.wrote ≡ false
            → pending_of (connection_of self.new) ≡ pending_of (connection_of self.old)) }
        ensures place { place_of (connection_of self.new) ≡ place_of (connection_of self.old) }
        ensures whole { whole_of (connection_of self.new)
            ≡ whole_of (connection_of self.old) }
        ensures limits { (connection_of self.new).limits ≡ (connection_of self.old).limits }
    {
        let wrote = self.write_bytes()?;
        let read = self.read_bytes()?;
        Ok(Moved { read, wrote })
    }
}

impl<T: Read + Write, P: Pieces + Drop> Peer<T, P> {
    /// Writes and reads once, where the connection asks for it. `None` where it can go on at once.
    fn go_on(&mut self, at_ms: u64) -> Option<Turn>
        ensures seen { result ≢ Some Turn.Ends → IsSeen self.new }
        ensures lives { result ≢ Some Turn.Ends → IsLive self.new }
        ensures taken { result ≢ Some Turn.Ends → length (pending_of (connection_of self.new))
            < length (pending_of (connection_of self.old))
            → is_of_requests (clock_of self.new).stage ≡ true
            → (clock_of self.new).since_ms ≡ at_ms }
        ensures place { place_of (connection_of self.new) ≡ place_of (connection_of self.old) }
        ensures whole { whole_of (connection_of self.new)
            ≡ whole_of (connection_of self.old) }
        ensures limits { (connection_of self.new).limits ≡ (connection_of self.old).limits }
    {
        let Ok(moved) = self.move_bytes() else {
            return Some(Turn::Ends);
        };
        self.note(moved.wrote, at_ms);
        match self.connection.phase() {
            Phase::Done => Some(Turn::Ends),
            Phase::Closing if !self.is_shut => Some(Turn::ShutsDown),
            _ if moved.read || moved.wrote || self.connection.wants_advance() => None,
            _ => Some(Turn::Waits),
        }
    }

    /// Answers what has come, where it pauses up to a whole request.
    fn advance<S: Service<Pieces = P>>(&mut self, service: &mut S, room: usize, pauses: bool)
        ensures runs { RunsOn S.answers P.writes service.old (connection_of self.old)
            service.new (connection_of self.new) }
        ensures answered { pauses ≡ false → whole_of (connection_of self.new) ≡ None }
        ensures rest { self.new ≡ record self.old { connection = self.new.connection } }
        ensures limits { (connection_of self.new).limits ≡ (connection_of self.old).limits }
    {
        if pauses {
            self.connection.advance_to_whole(service, room);
        } else {
            self.connection.advance(service, room);
        }
    }

    /// Answers what has come, where it pauses up to a whole request, and then writes and reads once.
    /// `None` where it can go on at once.
    fn step<S: Service<Pieces = P>, R: Clock>(
        &mut self,
        service: &mut S,
        room: usize,
        rt: &R,
        pauses: bool,
    ) -> Option<Turn>
        ensures seen { result ≢ Some Turn.Ends → IsSeen self.new }
        ensures lives { result ≢ Some Turn.Ends → IsLive self.new }
        ensures served { Serves S.answers P.writes service.old self.old service.new self.new }
        ensures answered { pauses ≡ false → whole_of (connection_of self.new) ≡ None }
        ensures limits { (connection_of self.new).limits ≡ (connection_of self.old).limits }
    {
        let answers = self.connection.is_whole();
        let advances = self.connection.wants_advance();
        self.advance(service, room, pauses);
        // An answer may have taken long, and what comes after it has its time from then on. While a
        // piece is made, the client isn't waited for. One that takes nothing gets no more.
        let at_ms = now_ms(rt);
        self.note(advances, at_ms);
        let turn = self.go_on(at_ms);
        if turn.is_some() {
            return turn;
        }
        if self.connection.is_whole() {
            return Some(Turn::Waits);
        }
        if advances && !answers {
            return Some(Turn::Again);
        }
        None
    }

    /// Reads, answers and writes, until the stream would have to be waited for, or others are to
    /// have a turn. Each request that is whole is answered by the service, in order, and no other
    /// is (see [`Connection::advance`]). As many bytes as `room` says may still be pending beside
    /// what the connection holds. The runtime's clock is read in each step, after what is answered.
    pub fn serve<S: Service<Pieces = P>, R: Clock>(
        &mut self,
        service: &mut S,
        room: usize,
        rt: &R,
    ) -> Turn
        ensures seen { result ≢ Turn.Ends → IsSeen self.new }
        ensures lives { IsLive self.old → result ≢ Turn.Ends → IsLive self.new }
        ensures served { Serves S.answers P.writes service.old self.old service.new self.new }
        ensures answered { whole_of (connection_of self.new) ≡ None }
        ensures limits { (connection_of self.new).limits ≡ (connection_of self.old).limits }
    {
        self.turn(service, room, rt, false)
    }

    /// The same, where it pauses up to a whole request: the turn is over there.
    pub(crate) fn turn<S: Service<Pieces = P>, R: Clock>(
        &mut self,
        service: &mut S,
        room: usize,
        rt: &R,
        pauses: bool,
    ) -> Turn
        ensures seen { result ≢ Turn.Ends → IsSeen self.new }
        ensures lives { IsLive self.old → result ≢ Turn.Ends → IsLive self.new }
        ensures served { Serves S.answers P.writes service.old self.old service.new self.new }
        ensures answered { pauses ≡ false → whole_of (connection_of self.new) ≡ None }
        ensures limits { (connection_of self.new).limits ≡ (connection_of self.old).limits }
    {
        for _done in 0..STEPS {
            if let Some(turn) = self.step(service, room, rt, pauses) {
                return turn;
            }
        }
        self.note(false, now_ms(rt));
        Turn::Again
    }

    /// Shows a service the whole request at which it stopped, if it did, where as many bytes as
    /// `room` says may still be pending.
    pub fn show<S: Gathers<Pieces = P>>(&self, service: &mut S, room: usize)
        ensures { Shows S.gathers service.old (whole_of (connection_of self.now)) service.new }
    {
        self.connection.show(service, room);
    }
}
