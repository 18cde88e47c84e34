//! The peers of a server: they join, have turns, and leave.
ghost use Rattle.std.specs.Prelude.{◌≡◌, ◌⊎◌, ◌<◌, ◌≤◌, IfSome, None, false};
ghost use Rattle.slab.specs.Slab.{Updates, entries, get, slab_len};
ghost use Rattle.http_listener.specs.Crowds.{AreJudged, Counts, IsLive, JudgedAt, Joins, SameBeside};
ghost use Rattle.http_listener.specs.Crowds.{Sheds, ShutAt, Takes, is_looked_at, waiters_of};
ghost use Rattle.http_listener.specs.Waiting.{IsLongest};

use crate::peer::{Peer, Turn};
use crate::{Accepting, Due, Longest, Pending, Settings, Stage, Waiter};
use http_connection::{Connection, Gathers, Pieces, Service};
use mio::net::{TcpListener, TcpStream};
use mio::{Interest, Poll, Token};
use slab::Slab;
use std::alloc::Global;
use std::hash::RandomState;
use std::io::ErrorKind;
use std::net::{Net, Shutdown};
use std::random::RandomSource;
use std::time::Clock;

/// How many connections are accepted before the others have a turn.
const ACCEPTS: usize = 64;

/// The token of the listener. Those of peers are their keys.
pub(crate) const LISTENER: Token = Token(usize::MAX);

/// The peers. `P` writes the pieces of their answers.
#[derive(Drop)]
pub(crate) struct Crowd<R, P> {
    pub(crate) rt: R,
    alloc: Global,
    pub(crate) settings: Settings,
    // None where no further peer is accepted.
    listener: Option<TcpListener>,
    pub(crate) poll: Poll,
    pub(crate) peers: Slab<Peer<TcpStream, P>>,
    pending: Pending,
    pub(crate) accepting: Accepting,
}

/// The moment now, in milliseconds since a start of the clock's own. It is 0 where the clock can't
/// be read.
pub(crate) fn now_ms(rt: &impl Clock) -> u64 {
    match rt.monotonic() {
        Ok(since_start) => u64::try_from(since_start.as_millis()).unwrap_or(u64::MAX),
        Err(_) => 0,
    }
}

/// What is waited for at a peer.
fn both_ways() -> Interest {
    Interest::READABLE | Interest::WRITABLE
}

/// Whether a peer at this stage is looked at: each one is, or those without a request.
fn is_looked_at(only_idle: bool, stage: Stage) -> bool
    ensures { result ≡ is_looked_at only_idle stage }
{
    !only_idle || matches!(stage, Stage::Idle)
}

/// The peer that has waited longest, of all or of those without a request.
fn longest<T, P>(peers: &Slab<Peer<T, P>>, only_idle: bool) -> Option<Waiter>
    ensures { IsLongest (waiters_of only_idle (entries peers.now)) result }
{
    let mut longest = Longest::new();
    for (key, peer) in peers.iter() {
        let clock = peer.clock();
        if is_looked_at(only_idle, clock.stage) {
            longest.look(Waiter {
                key,
                since_ms: clock.since_ms,
            });
        }
    }
    longest.found
}

impl<R, P> Crowd<R, P>
where
    R: Net + RandomSource + Clock + Copy,
    P: Pieces + Drop,
{
    /// No peer yet, at this listener, which doesn't wait at a call. `None` where the system refuses
    /// what is needed to wait for peers.
    pub(crate) fn new(
        rt: R,
        alloc: Global,
        mut listener: TcpListener,
        settings: Settings,
    ) -> Option<Crowd<R, P>>
        ensures { IfSome result (λ crowd. crowd.settings ≡ settings) }
    {
        let Ok(poll) = Poll::new(&rt) else {
            return None;
        };
        let registry = poll.registry();
        let listens = registry.register(&mut listener, LISTENER, Interest::READABLE);
        if listens.is_err() {
            return None;
        }
        Some(Crowd {
            rt,
            alloc,
            settings,
            listener: Some(listener),
            poll,
            peers: Slab::new(alloc),
            pending: Pending::new(settings.pending),
            accepting: Accepting::AtOnce,
        })
    }

    /// Closes a peer.
    fn close(&mut self, key: usize)
        ensures peers { Updates self.old.peers self.new.peers key None }
        ensures capacity { self.new.peers.capacity ≡ self.old.peers.capacity }
        ensures held { Counts key self.old.peers self.old.pending.held
            self.new.peers self.new.pending.held }
        ensures rest { self.new
            ≡ record self.old { peers = self.new.peers; pending = self.new.pending } }
    {
        if let Some(peer) = self.peers.try_remove(key) {
            self.pending.change(peer.held(), 0);
        }
    }

    /// Closes the peer that has waited longest, of all or of those without a request.
    fn shed(&mut self, only_idle: bool)
        ensures sheds { Sheds only_idle self.old.peers self.new.peers }
        ensures rest { self.new
            ≡ record self.old { peers = self.new.peers; pending = self.new.pending } }
    {
        if let Some(waiter) = longest(&self.peers, only_idle) {
            self.close(waiter.key);
        }
    }

    /// Has a peer reported when it is ready, or closes it where that can't be done.
    fn register(&mut self, key: usize)
        ensures peer { (get self.new.peers key ≡ get self.old.peers key)
            ⊎ (get self.new.peers key ≡ None) }
        ensures others { SameBeside key self.old.peers self.new.peers }
        ensures rest { self.new
            ≡ record self.old { peers = self.new.peers; pending = self.new.pending } }
    {
        let Some(peer) = self.peers.get_mut(key) else {
            return;
        };
        let registry = self.poll.registry();
        if registry
            .register(&mut peer.stream, Token(key), both_ways())
            .is_err()
        {
            self.close(key);
        }
    }

    /// Has a peer reported again if it is ready, or closes it where that can't be done.
    fn watch(&mut self, key: usize)
        ensures peer { (get self.new.peers key ≡ get self.old.peers key)
            ⊎ (get self.new.peers key ≡ None) }
        ensures others { SameBeside key self.old.peers self.new.peers }
        ensures rest { self.new
            ≡ record self.old { peers = self.new.peers; pending = self.new.pending } }
    {
        let Some(peer) = self.peers.get_mut(key) else {
            return;
        };
        let registry = self.poll.registry();
        if registry
            .reregister(&mut peer.stream, Token(key), both_ways())
            .is_err()
        {
            self.close(key);
        }
    }

    /// Adds a peer, which is then reported. One for which memory or a place in the system's list is
    /// refused is closed.
    fn add(&mut self, stream: TcpStream, now_ms: u64)
        ensures joins { Joins now_ms self.old.peers self.new.peers }
        ensures rest { self.new
            ≡ record self.old { peers = self.new.peers; pending = self.new.pending } }
    {
        let _ = stream.set_nodelay(true);
        let Ok(keys) = RandomState::new(&self.rt) else {
            return;
        };
        let connection = Connection::new(self.alloc, keys, self.settings.limits);
        if let Ok(key) = self.peers.insert(Peer::new(stream, connection, now_ms)) {
            self.register(key);
        }
    }

    /// Closes the peer that has waited longest where there are as many as there may be.
    fn make_room(&mut self)
        ensures full { self.old.settings.most ≤ slab_len self.old.peers
            → Sheds false self.old.peers self.new.peers }
        ensures fits { slab_len self.old.peers < self.old.settings.most
            → self.new.peers ≡ self.old.peers }
        ensures rest { self.new
            ≡ record self.old { peers = self.new.peers; pending = self.new.pending } }
    {
        if self.peers.len() >= self.settings.most {
            self.shed(false);
        }
    }

    /// Takes a peer, for which another one is closed where there are as many as there may be.
    fn take(&mut self, stream: TcpStream, now_ms: u64)
        ensures takes { Takes self.old.settings.most now_ms self.old.peers self.new.peers }
        ensures rest { self.new
            ≡ record self.old { peers = self.new.peers; pending = self.new.pending } }
    {
        self.make_room();
        self.add(stream, now_ms);
    }

    /// Accepts no further peer: nothing listens any more. A peer may not stay without a request.
    pub(crate) fn stop(&mut self)
        ensures listener { self.new.listener ≡ None }
        ensures settings { self.new.settings ≡ record self.old.settings
            { times = record self.old.settings.times { idle_ms = 0 } } }
        ensures peers { self.new.peers ≡ self.old.peers }
    {
        self.listener = None;
        self.accepting = Accepting::WhenReported;
        self.settings.times.idle_ms = 0;
    }

    /// Accepts the peers that wait there, at most as many as let the others have their turn soon,
    /// and notes when the next ones are accepted. Answers how many they were.
    fn accept_at(&mut self, listener: &TcpListener, now_ms: u64) -> usize
        ensures { self.new.settings ≡ self.old.settings }
    {
        for accepted in 0..ACCEPTS {
            match listener.accept() {
                Ok((stream, _)) => self.take(stream, now_ms),
                Err(error) => {
                    self.accepting = Accepting::after_error(error.kind(), now_ms);
                    if self.accepting != Accepting::WhenReported {
                        // The system has no room for another one.
                        self.shed(true);
                    }
                    return accepted;
                }
            }
        }
        self.accepting = Accepting::AtOnce;
        ACCEPTS
    }

    /// Accepts the peers that wait. Answers how many they were: none where nothing listens.
    pub(crate) fn accept(&mut self, now_ms: u64) -> usize
        ensures settings { self.new.settings ≡ self.old.settings }
        ensures listener { self.new.listener ≡ self.old.listener }
        ensures none { self.old.listener ≡ None → result ≡ 0 }
        ensures joins { self.old.listener ≡ None → self.new.peers ≡ self.old.peers }
    {
        let Some(listener) = self.listener.take() else {
            self.accepting = Accepting::WhenReported;
            return 0;
        };
        let accepted = self.accept_at(&listener, now_ms);
        self.listener = Some(listener);
        accepted
    }

    /// Shuts down writing to a peer, or closes it where that can't be done.
    fn shut_down(&mut self, key: usize, now_ms: u64)
        ensures shut { ShutAt now_ms (get self.old.peers key) (get self.new.peers key) }
        ensures others { SameBeside key self.old.peers self.new.peers }
        ensures capacity { self.new.peers.capacity ≡ self.old.peers.capacity }
        ensures rest { self.new
            ≡ record self.old { peers = self.new.peers; pending = self.new.pending } }
    {
        let Some(peer) = self.peers.get_mut(key) else {
            return;
        };
        if peer.stream.shutdown(Shutdown::Write).is_ok() {
            peer.note_shut(now_ms);
        } else {
            self.close(key);
        }
    }

    /// Gives a peer its turn.
    pub(crate) fn serve<S: Service<Pieces = P>>(&mut self, service: &mut S, key: usize)
        ensures gone { get self.old.peers key ≡ None → get self.new.peers key ≡ None }
        ensures others { SameBeside key self.old.peers self.new.peers }
        ensures lives { IfSome (get self.old.peers key) IsLive
            → IfSome (get self.new.peers key) IsLive }
        ensures rest { self.new
            ≡ record self.old { peers = self.new.peers; pending = self.new.pending } }
    {
        self.give_turn(service, key, false);
    }

    /// Gives a peer its turn up to a whole request, which is shown to the service.
    pub(crate) fn gather<S: Gathers<Pieces = P>>(&mut self, service: &mut S, key: usize)
        ensures gone { get self.old.peers key ≡ None → get self.new.peers key ≡ None }
        ensures others { SameBeside key self.old.peers self.new.peers }
        ensures lives { IfSome (get self.old.peers key) IsLive
            → IfSome (get self.new.peers key) IsLive }
        ensures rest { self.new
            ≡ record self.old { peers = self.new.peers; pending = self.new.pending } }
    {
        self.give_turn(service, key, true);
        let room = self.room();
        if let Some(peer) = self.peers.get(key) {
            peer.show(service, room);
        }
    }

    /// Gives a peer a turn where it stopped at a whole request.
    pub(crate) fn answer<S: Service<Pieces = P>>(&mut self, service: &mut S, key: usize)
        ensures gone { get self.old.peers key ≡ None → get self.new.peers key ≡ None }
        ensures others { SameBeside key self.old.peers self.new.peers }
        ensures lives { IfSome (get self.old.peers key) IsLive
            → IfSome (get self.new.peers key) IsLive }
        ensures rest { self.new
            ≡ record self.old { peers = self.new.peers; pending = self.new.pending } }
    {
        let Some(peer) = self.peers.get(key) else {
            return;
        };
        if peer.is_whole() {
            self.serve(service, key);
        }
    }

    /// How many further bytes may be pending.
    fn room(&self) -> usize {
        usize::try_from(self.pending.room()).unwrap_or(usize::MAX)
    }

    /// Gives a peer its turn, where it pauses up to a whole request.
    fn give_turn<S: Service<Pieces = P>>(&mut self, service: &mut S, key: usize, pauses: bool)
        ensures gone { get self.old.peers key ≡ None → get self.new.peers key ≡ None }
        ensures others { SameBeside key self.old.peers self.new.peers }
        ensures lives { IfSome (get self.old.peers key) IsLive
            → IfSome (get self.new.peers key) IsLive }
        ensures rest { self.new
            ≡ record self.old { peers = self.new.peers; pending = self.new.pending } }
    {
        let room = self.room();
        let rt = self.rt;
        let Some(peer) = self.peers.get_mut(key) else {
            return;
        };
        let before = peer.held();
        let turn = peer.turn(service, room, &rt, pauses);
        let after = peer.held();
        self.pending.change(before, after);
        match turn {
            Turn::Waits => {}
            Turn::Again => self.watch(key),
            Turn::ShutsDown => {
                self.shut_down(key, now_ms(&rt));
                self.watch(key);
            }
            Turn::Ends => self.close(key),
        }
    }

    /// Closes a peer that is over its time, or shuts down writing to it.
    fn judge(&mut self, key: usize, now_ms: u64)
        ensures judged { JudgedAt self.old.settings.times now_ms
            (get self.old.peers key) (get self.new.peers key) }
        ensures others { SameBeside key self.old.peers self.new.peers }
        ensures capacity { self.new.peers.capacity ≡ self.old.peers.capacity }
        ensures rest { self.new
            ≡ record self.old { peers = self.new.peers; pending = self.new.pending } }
    {
        let Some(peer) = self.peers.get(key) else {
            return;
        };
        match peer.due(&self.settings.times, now_ms) {
            Due::Wait => {}
            Due::ShutDown => self.shut_down(key, now_ms),
            Due::Close => self.close(key),
        }
    }

    /// Does so with each.
    pub(crate) fn sweep(&mut self, now_ms: u64)
        ensures judged { AreJudged self.old.settings.times now_ms self.old.peers self.new.peers }
        ensures settings { self.new.settings ≡ self.old.settings }
        ensures listener { self.new.listener ≡ self.old.listener }
    {
        for key in 0..self.peers.capacity() {
            self.judge(key, now_ms);
        }
    }
}
