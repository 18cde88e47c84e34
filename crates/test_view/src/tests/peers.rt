//! A server whose peers are served by turns, over the system's sockets, and how it is stopped.

use crate::tests::equal::assert_equal;
use bytes::{BufMut, Bytes};
use http::Request;
use http_connection::{Gathers, Pieces, Refusal, Service};
use http_listener::{Peers, Round, Settings, listen};
use http_server::Response;
use std::alloc::AllocError;
use std::fs::File;
use std::io::{Read, Write};
use std::net::{Ipv4Addr, SocketAddr, TcpStream};
use std::os::fd::AsRawFd;
use std::os::unix::net::UnixStream;
use std::process::Abort;

/// Answers each request by the same text, and notes whether each was shown before, and settled.
#[derive(Drop)]
struct Noted {
    /// How many requests it was shown.
    shown: usize,
    /// How many of these it has settled.
    settled: usize,
    /// How many requests it has answered.
    answered: usize,
    /// Whether it has answered one before it settled it.
    is_early: bool,
}

/// No request was shown yet.
const NONE: Noted = Noted {
    shown: 0,
    settled: 0,
    answered: 0,
    is_early: false,
};

/// The rest of an answer, of which there is none.
#[derive(Drop)]
struct NoPieces;

impl Pieces for NoPieces {
    ghost use Rattle.std.specs.Prelude.{⊤};

    ghost writes = { λ _ _. ⊤ };

    fn next(&mut self, _: &mut Vec<u8>) -> Result<bool, AllocError> {
        Ok(false)
    }
}

impl Service for Noted {
    ghost use Rattle.std.specs.Prelude.{⊤};

    type Pieces = NoPieces;

    ghost answers = { λ _ _ _. ⊤ };

    fn admit(
        &mut self,
        _: &Request<Bytes>,
        _: Option<u64>,
        _: usize,
        _: &mut Response,
    ) -> Result<bool, AllocError> {
        Ok(true)
    }

    fn call(
        &mut self,
        _: &Request<Bytes>,
        _: usize,
        response: &mut Response,
    ) -> Result<Option<NoPieces>, AllocError> {
        response.body.put_slice(b"ok\n")?;
        self.is_early = self.is_early || self.settled <= self.answered;
        self.answered = self.answered.saturating_add(1);
        Ok(None)
    }

    fn refuse(
        &mut self,
        _: Refusal,
        _: Option<&Request<Bytes>>,
        _: &mut Response,
    ) -> Result<(), AllocError> {
        Ok(())
    }
}

impl Gathers for Noted {
    ghost use Rattle.std.specs.Prelude.{⊤};

    ghost gathers = { λ _ _ _. ⊤ };

    ghost settles = { λ _ _. ⊤ };

    fn gather(&mut self, _: &Request<Bytes>, _: usize) {
        self.shown = self.shown.saturating_add(1);
    }

    fn settle(&mut self) {
        self.settled = self.shown;
    }
}

/// The peers of a server at a free port of loopback, whose requests may take a minute, and where it
/// listens.
fn server(rt: HostRuntime) -> Option<(Peers<HostRuntime, NoPieces>, SocketAddr)> {
    let loopback = SocketAddr::new(Ipv4Addr::LOCALHOST.into(), 0);
    let (listener, address) = listen(&rt, loopback).ok()?;
    let settings = Settings::new(60_000, 60_000, 1_024, 65_536);
    match Peers::new(rt, rt.alloc(), listener, settings) {
        Ok(peers) => Some((peers, address)),
        Err(_) => None,
    }
}

/// How many rounds wait for what is to come: most take half a second at most.
const ROUNDS: usize = 40;

/// Gives the peers their turns once.
fn round(rt: &impl Abort, peers: &mut Peers<HostRuntime, NoPieces>) -> Round {
    match peers.round(&mut NONE) {
        Ok(round) => round,
        Err(_) => panic!(rt; "no round"),
    }
}

/// Gives the peers their turns until one more has connected, and once more. Answers the moment.
fn accept(rt: &impl Abort, peers: &mut Peers<HostRuntime, NoPieces>) -> u64 {
    for _round in 0..ROUNDS {
        if round(rt, peers).accepted == 1 {
            return round(rt, peers).at_ms;
        }
    }
    panic!(rt; "nobody has connected");
}

/// Gives the peers their turns until no more is to be done. Answers whether that came.
fn ends(rt: &impl Abort, peers: &mut Peers<HostRuntime, NoPieces>) -> bool {
    for _round in 0..ROUNDS {
        let at_ms = round(rt, peers).at_ms;
        if peers.is_done(at_ms) {
            return true;
        }
    }
    false
}

/// A server that is stopped listens no more, and answers the request that had begun to arrive; then
/// it closes the peer, and has no more to do.
#[test]
fn a_server_that_is_stopped_answers_what_was_begun(rt: HostRuntime) {
    let (mut peers, address) = server(rt).expect(&rt, "a server");
    let mut client = TcpStream::connect(&rt, address).expect(&rt, "a connection");
    client
        .write_all(b"GET / HTTP/1.1\r\n")
        .expect(&rt, "a written line");
    let at_ms = accept(&rt, &mut peers);
    assert_equal(&rt, peers.is_done(at_ms), false);
    peers.stop(at_ms.saturating_add(60_000));
    assert_equal(&rt, TcpStream::connect(&rt, address).is_err(), true);
    let at_ms = round(&rt, &mut peers).at_ms;
    assert_equal(&rt, peers.is_done(at_ms), false);
    client
        .write_all(b"Host: a\r\n\r\n")
        .expect(&rt, "a written head");
    assert_equal(&rt, ends(&rt, &mut peers), true);
    let mut came = Vec::new(rt.alloc());
    client
        .read_to_end(&mut came)
        .expect(&rt, "an answer and its end");
    assert_equal(&rt, came.starts_with(b"HTTP/1.1 200 "), true);
    assert_equal(&rt, came.ends_with(b"\r\n\r\nok\n"), true);
}

/// A server that is stopped waits for a request that never ends until the moment it was given.
#[test]
fn a_server_that_is_stopped_waits_until_its_end(rt: HostRuntime) {
    let (mut peers, address) = server(rt).expect(&rt, "a server");
    let mut client = TcpStream::connect(&rt, address).expect(&rt, "a connection");
    client
        .write_all(b"GET / HTTP/1.1\r\n")
        .expect(&rt, "a written line");
    let at_ms = accept(&rt, &mut peers);
    let end_ms = at_ms.saturating_add(1_500);
    peers.stop(end_ms);
    let at_ms = round(&rt, &mut peers).at_ms;
    assert_equal(&rt, peers.is_done(at_ms), end_ms <= at_ms);
    assert_equal(&rt, ends(&rt, &mut peers), true);
    assert_equal(&rt, peers.is_done(end_ms), true);
    assert_equal(&rt, peers.is_done(end_ms - 1), false);
}

/// A peer that asks for nothing is closed once a server is stopped.
#[test]
fn a_server_that_is_stopped_closes_who_asks_for_nothing(rt: HostRuntime) {
    let (mut peers, address) = server(rt).expect(&rt, "a server");
    let mut client = TcpStream::connect(&rt, address).expect(&rt, "a connection");
    let at_ms = accept(&rt, &mut peers);
    peers.stop(at_ms.saturating_add(60_000));
    assert_equal(&rt, ends(&rt, &mut peers), true);
    assert_equal(&rt, client.read(&mut [0; 8]).ok(), Some(0));
}

/// A program is to stop once bytes come at what it watches, or the end.
#[test]
fn bytes_or_the_end_ask_to_stop(rt: HostRuntime) {
    let (mut peers, _) = server(rt).expect(&rt, "a server");
    let (mut sends, input) = UnixStream::pair(&rt).expect(&rt, "a pair");
    assert_equal(&rt, peers.watch(input.as_raw_fd()).is_ok(), true);
    assert_equal(&rt, round(&rt, &mut peers).is_to_stop, false);
    assert_equal(&rt, sends.write(b"x").ok(), Some(1));
    assert_equal(&rt, round(&rt, &mut peers).is_to_stop, true);
    drop(sends);
    assert_equal(&rt, round(&rt, &mut peers).is_to_stop, true);
}

/// What the system can't wait for is refused.
#[test]
fn no_file_can_be_watched(rt: HostRuntime) {
    let (peers, _) = server(rt).expect(&rt, "a server");
    let nothing = File::open(&rt, "/dev/null").expect(&rt, "a file");
    assert_equal(&rt, peers.watch(nothing.as_raw_fd()).is_err(), true);
}

/// Sends a request.
fn ask(rt: &impl Abort, client: &mut TcpStream) {
    client
        .write_all(b"GET / HTTP/1.1\r\nHost: a\r\n\r\n")
        .expect(rt, "a written request");
}

/// Whether a client gets an answer with the status 200.
fn is_answered(rt: &impl Abort, client: &mut TcpStream) -> bool {
    let mut came = [0; 12];
    client.read_exact(&mut came).expect(rt, "an answer");
    came.starts_with(b"HTTP/1.1 200")
}

/// In a round that is settled once, each request is answered after it was shown, and a peer that is
/// silent holds up no other one.
#[test]
fn requests_are_shown_before_they_are_answered(rt: HostRuntime) {
    let (mut peers, address) = server(rt).expect(&rt, "a server");
    let _silent = TcpStream::connect(&rt, address).expect(&rt, "a connection");
    let mut first = TcpStream::connect(&rt, address).expect(&rt, "a connection");
    let mut second = TcpStream::connect(&rt, address).expect(&rt, "a connection");
    ask(&rt, &mut first);
    ask(&rt, &mut second);
    let mut service = NONE;
    for _round in 0..ROUNDS {
        if service.answered < 2 {
            let round = peers.round_together(&mut service);
            assert_equal(&rt, round.is_ok(), true);
        }
    }
    assert_equal(&rt, (service.shown, service.answered), (2, 2));
    assert_equal(&rt, service.is_early, false);
    assert_equal(&rt, is_answered(&rt, &mut first), true);
    assert_equal(&rt, is_answered(&rt, &mut second), true);
}
