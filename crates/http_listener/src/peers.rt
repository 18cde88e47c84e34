//! Rounds of turns.
ghost use Rattle.std.specs.Prelude.{◌≡◌, ◌+◌, ◌≤◌, ◌↔◌, IfOk, IsTrue, None, Some, if◌then◌else◌};
ghost use Rattle.std.specs.Prelude.{nat_le};
ghost use Rattle.http_listener.specs.Crowds.{AreInTime, NoneJoins};
ghost use Rattle.http_listener.specs.Rounds.{HasStopped, IsDone, end_of, peers_of, settings_of, swept_at};

use crate::crowd::{Crowd, LISTENER, now_ms};
use crate::{Settings, TICK_MS};
use http_connection::{Gathers, Pieces, Service};
use mio::net::TcpListener;
use mio::unix::SourceFd;
use mio::{Events, Interest, Token};
use std::alloc::Global;
use std::net::Net;
use std::os::fd::RawFd;
use std::random::RandomSource;
use std::time::{Clock, Duration};

/// How many events are taken at once.
const EVENTS: usize = 256;

/// The token of what asks the program to stop.
const STOP: Token = Token(usize::MAX - 1);

/// Why no peer can be served any more.
#[derive(Clone, Copy, Debug, PartialEq, Eq)]
pub enum End {
    /// The system refused what is needed to wait for connections.
    Wait,
    /// Memory was refused.
    OutOfMemory,
}

/// What was done in a round of turns.
#[derive(Clone, Copy, Debug, PartialEq, Eq)]
pub struct Round {
    /// How many connections were accepted.
    pub accepted: usize,
    /// The moment, in milliseconds.
    pub at_ms: u64,
    /// Whether the program is to stop: bytes came at what it watches (see [`Peers::watch`]), or the
    /// end.
    pub is_to_stop: bool,
}

/// The peers of a server, which are served by turns. `P` writes the pieces of their answers.
#[derive(Drop)]
pub struct Peers<R, P> {
    crowd: Crowd<R, P>,
    events: Events,
    swept_ms: u64,
    // The moment at which what was begun is waited for no longer, once no peer is accepted.
    ends_ms: Option<u64>,
}

impl<R, P> Peers<R, P>
where
    R: Net + RandomSource + Clock + Copy,
    P: Pieces + Drop,
{
    /// No peer yet, at this listener, which doesn't wait at a call.
    ///
    /// # Errors
    ///
    /// `Wait` where the system refuses what is needed to wait for peers, and `OutOfMemory`.
    pub fn new(
        rt: R,
        alloc: Global,
        listener: TcpListener,
        settings: Settings,
    ) -> Result<Peers<R, P>, End>
        ensures settings { IfOk result (λ peers. settings_of peers ≡ settings) }
        ensures end { IfOk result (λ peers. end_of peers ≡ None) }
    {
        let Ok(events) = Events::with_capacity(alloc, EVENTS) else {
            return Err(End::OutOfMemory);
        };
        match Crowd::new(rt, alloc, listener, settings) {
            Some(crowd) => Ok(Peers {
                crowd,
                events,
                swept_ms: now_ms(&rt),
                ends_ms: None,
            }),
            None => Err(End::Wait),
        }
    }

    /// Has a round say that the program is to stop once bytes have come at this descriptor, as that
    /// of standard input, or its end. None of them is read here: the program reads them, since they
    /// would stop the next one that is started with the same pipe.
    ///
    /// # Errors
    ///
    /// `Wait` where the system can't wait for it, as for a file or `/dev/null`.
    pub fn watch(&self, input: RawFd) -> Result<(), End> {
        let registry = self.crowd.poll.registry();
        match registry.register(&mut SourceFd(&input), STOP, Interest::READABLE) {
            Ok(()) => Ok(()),
            Err(_) => Err(End::Wait),
        }
    }

    /// Accepts no further peer: nothing listens any more. The peers without a request are closed,
    /// at the next tick, and what the others have begun may go on in further rounds, until a moment
    /// in milliseconds, which is counted as that of a round is.
    pub fn stop(&mut self, end_ms: u64)
        ensures stopped { HasStopped self.new }
        ensures end { end_of self.new ≡ Some end_ms }
        ensures idle { settings_of self.new ≡ record (settings_of self.old)
            { times = record (settings_of self.old).times { idle_ms = 0 } } }
        ensures peers { peers_of self.new ≡ peers_of self.old }
        ensures swept { swept_at self.new ≡ swept_at self.old }
    {
        self.crowd.stop();
        self.ends_ms = Some(end_ms);
    }

    /// Whether no more is to be done, after a round at this moment, in milliseconds: they were
    /// stopped, and none of them is left, or the moment has come at which none is waited for.
    pub fn is_done(&self, at_ms: u64) -> bool
        ensures { IsTrue result ↔ IsDone at_ms self.now }
    {
        match self.ends_ms {
            Some(end_ms) => end_ms <= at_ms || self.crowd.peers.is_empty(),
            None => false,
        }
    }

    /// Serves the peers that were reported. Answers whether the program is to stop.
    fn serve_reported<S: Service<Pieces = P>>(&mut self, service: &mut S) -> bool
        ensures settings { settings_of self.new ≡ settings_of self.old }
        ensures listener { self.new.crowd.listener ≡ self.old.crowd.listener }
        ensures joins { NoneJoins (peers_of self.old) (peers_of self.new) }
        ensures end { end_of self.new ≡ end_of self.old }
        ensures swept { swept_at self.new ≡ swept_at self.old }
    {
        let mut is_to_stop = false;
        for event in self.events.iter() {
            let token = event.token();
            if token == LISTENER {
                self.crowd.accepting = self.crowd.accepting.reported();
            } else if token == STOP {
                is_to_stop = true;
            } else {
                self.crowd.serve(service, token.0);
            }
        }
        is_to_stop
    }

    /// Serves the peers that were reported up to a whole request, which is shown to the service.
    /// Answers whether the program is to stop.
    fn gather_reported<S: Gathers<Pieces = P>>(&mut self, service: &mut S) -> bool
        ensures settings { settings_of self.new ≡ settings_of self.old }
        ensures listener { self.new.crowd.listener ≡ self.old.crowd.listener }
        ensures joins { NoneJoins (peers_of self.old) (peers_of self.new) }
        ensures end { end_of self.new ≡ end_of self.old }
        ensures swept { swept_at self.new ≡ swept_at self.old }
    {
        let mut is_to_stop = false;
        for event in self.events.iter() {
            let token = event.token();
            if token == LISTENER {
                self.crowd.accepting = self.crowd.accepting.reported();
            } else if token == STOP {
                is_to_stop = true;
            } else {
                self.crowd.gather(service, token.0);
            }
        }
        is_to_stop
    }

    /// Has those of the peers that were reported answered that stopped at a whole request.
    fn answer_reported<S: Service<Pieces = P>>(&mut self, service: &mut S)
        ensures settings { settings_of self.new ≡ settings_of self.old }
        ensures listener { self.new.crowd.listener ≡ self.old.crowd.listener }
        ensures joins { NoneJoins (peers_of self.old) (peers_of self.new) }
        ensures end { end_of self.new ≡ end_of self.old }
        ensures swept { swept_at self.new ≡ swept_at self.old }
    {
        for event in self.events.iter() {
            // (no peer has the key of the listener, or of what asks to stop)
            self.crowd.answer(service, event.token().0);
        }
    }

    /// Accepts the peers that wait, if that is due at this moment. Answers how many they were.
    fn accept(&mut self, at_ms: u64) -> usize
        ensures settings { settings_of self.new ≡ settings_of self.old }
        ensures listener { self.new.crowd.listener ≡ self.old.crowd.listener }
        ensures none { HasStopped self.old → result ≡ 0 }
        ensures joins { HasStopped self.old → peers_of self.new ≡ peers_of self.old }
        ensures end { end_of self.new ≡ end_of self.old }
        ensures swept { swept_at self.new ≡ swept_at self.old }
    {
        if !self.crowd.accepting.is_due(at_ms) {
            return 0;
        }
        // (the turns may have taken long)
        let came_ms = now_ms(&self.crowd.rt);
        self.crowd.accept(came_ms)
    }

    /// Closes the peers that are over their time at this moment, once a tick has passed since that
    /// was done last.
    fn sweep(&mut self, at_ms: u64)
        ensures in_time { swept_at self.old + 500 ≤ at_ms
            → AreInTime (settings_of self.old).times at_ms (peers_of self.new) }
        ensures swept { swept_at self.new
            ≡ (if nat_le (swept_at self.old + 500) at_ms then at_ms else swept_at self.old) }
        ensures settings { settings_of self.new ≡ settings_of self.old }
        ensures listener { self.new.crowd.listener ≡ self.old.crowd.listener }
        ensures joins { NoneJoins (peers_of self.old) (peers_of self.new) }
        ensures end { end_of self.new ≡ end_of self.old }
    {
        if at_ms.saturating_sub(self.swept_ms) >= TICK_MS {
            self.swept_ms = at_ms;
            self.crowd.sweep(at_ms);
        }
    }

    /// Waits until a peer is ready, a tick at most. Answers the moment then, in milliseconds.
    ///
    /// # Errors
    ///
    /// `Wait` where the system refuses to wait.
    fn wait(&mut self) -> Result<u64, End>
        ensures settings { settings_of self.new ≡ settings_of self.old }
        ensures listener { self.new.crowd.listener ≡ self.old.crowd.listener }
        ensures peers { peers_of self.new ≡ peers_of self.old }
        ensures end { end_of self.new ≡ end_of self.old }
        ensures swept { swept_at self.new ≡ swept_at self.old }
    {
        let wait = Duration::from_millis(self.crowd.accepting.wait_ms());
        if self.crowd.poll.poll(&mut self.events, Some(wait)).is_err() {
            return Err(End::Wait);
        }
        // A peer is closed at the end by the moment before the turns: what it sent during the turns
        // of others is read in the next round, before it is judged by a later moment.
        Ok(now_ms(&self.crowd.rt))
    }

    /// Accepts further peers, and closes those that are over their time, after the turns of a round
    /// that began at this moment.
    fn end_round(&mut self, at_ms: u64, is_to_stop: bool) -> Round
        ensures at { result.at_ms ≡ at_ms }
        ensures in_time { swept_at self.old + 500 ≤ at_ms
            → AreInTime (settings_of self.old).times at_ms (peers_of self.new) }
        ensures swept { swept_at self.new
            ≡ (if nat_le (swept_at self.old + 500) at_ms then at_ms else swept_at self.old) }
        ensures settings { settings_of self.new ≡ settings_of self.old }
        ensures stopped { HasStopped self.old → HasStopped self.new }
        ensures none { HasStopped self.old → result.accepted ≡ 0 }
        ensures joins { HasStopped self.old → NoneJoins (peers_of self.old) (peers_of self.new) }
        ensures end { end_of self.new ≡ end_of self.old }
    {
        let accepted = self.accept(at_ms);
        self.sweep(at_ms);
        Round {
            accepted,
            at_ms,
            is_to_stop,
        }
    }

    /// Waits until a peer is ready, a tick at most; gives those that are their turns, accepts
    /// further ones, and closes those that are over their time.
    ///
    /// # Errors
    ///
    /// `Wait` where the system refuses to wait.
    pub fn round<S: Service<Pieces = P>>(&mut self, service: &mut S) -> Result<Round, End>
        ensures in_time { IfOk result (λ round. swept_at self.old + 500 ≤ round.at_ms
            → AreInTime (settings_of self.old).times round.at_ms (peers_of self.new)) }
        ensures swept { IfOk result (λ round. swept_at self.new
            ≡ (if nat_le (swept_at self.old + 500) round.at_ms then round.at_ms
            else swept_at self.old)) }
        ensures settings { settings_of self.new ≡ settings_of self.old }
        ensures stopped { HasStopped self.old → HasStopped self.new }
        ensures none { HasStopped self.old → IfOk result (λ round. round.accepted ≡ 0) }
        ensures joins { HasStopped self.old → NoneJoins (peers_of self.old) (peers_of self.new) }
        ensures end { end_of self.new ≡ end_of self.old }
    {
        let at_ms = match self.wait() {
            Ok(at_ms) => at_ms,
            Err(end) => return Err(end),
        };
        let is_to_stop = self.serve_reported(service);
        Ok(self.end_round(at_ms, is_to_stop))
    }

    /// The same, but that the service is first shown the whole requests of all peers that are ready,
    /// then settles, and answers them after that: what their answers share is done once.
    ///
    /// # Errors
    ///
    /// `Wait` where the system refuses to wait.
    pub fn round_together<S: Gathers<Pieces = P>>(&mut self, service: &mut S) -> Result<Round, End>
        ensures in_time { IfOk result (λ round. swept_at self.old + 500 ≤ round.at_ms
            → AreInTime (settings_of self.old).times round.at_ms (peers_of self.new)) }
        ensures swept { IfOk result (λ round. swept_at self.new
            ≡ (if nat_le (swept_at self.old + 500) round.at_ms then round.at_ms
            else swept_at self.old)) }
        ensures settings { settings_of self.new ≡ settings_of self.old }
        ensures stopped { HasStopped self.old → HasStopped self.new }
        ensures none { HasStopped self.old → IfOk result (λ round. round.accepted ≡ 0) }
        ensures joins { HasStopped self.old → NoneJoins (peers_of self.old) (peers_of self.new) }
        ensures end { end_of self.new ≡ end_of self.old }
    {
        let at_ms = match self.wait() {
            Ok(at_ms) => at_ms,
            Err(end) => return Err(end),
        };
        let is_to_stop = self.gather_reported(service);
        service.settle();
        self.answer_reported(service);
        Ok(self.end_round(at_ms, is_to_stop))
    }
}
