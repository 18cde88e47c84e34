//! The service that a connection calls.

ghost use Rattle.std.specs.Prelude.{◌≡◌, ◌+◌, [], false, min, OnErr, OnOk, option_copied, replicate};
ghost use Rattle.http_server.specs.Response.{IsBlank};
ghost use Rattle.otlp_receiver.specs.Denials.{IsDenial};
ghost use Rattle.http_connection.specs.Heads.{head_in};
ghost use Rattle.otlp_receiver.specs.Requests.{denial_format};
ghost use Rattle.otlp_receiver.specs.Tallies.{MOST};
ghost use Rattle.relay_service.specs.Serves.{Answers, HasAnswered, failed_of, hosts_of, keeper_of};
ghost use Rattle.relay_service.specs.Serves.{bounds_of, tally_of};

use crate::receive::{collect, either, is_failure, receive};
use crate::show::Viewer;
use bytes::Bytes;
use http::Request;
use http_connection::{Gathers, Pieces, Refusal, Service};
use http_server::Response;
use otlp_receiver::Bounds;
use otlp_receiver::reply::{
    Denial, Hosts, Strays, Tallies, denial_by, denial_format, fill_denial, fill_options,
    head_denial, other_signal, path_of,
};
use relay_queue::BodyKeeper;
use std::alloc::{AllocError, Global};

/// The rest of an answer that is whole: nothing.
#[derive(Clone, Copy, Debug, PartialEq, Eq)]
pub struct NoPieces;

impl Pieces for NoPieces {
    ghost writes = { λ _ bytes. bytes ≡ [] };

    fn next(&mut self, out: &mut Vec<u8>) -> Result<bool, AllocError> {
        let _ = out;
        Ok(false)
    }
}

/// Receives spans by `POST /v1/traces`, keeps the bodies that carry them, and shows by `GET` what
/// became of these.
///
/// It is asked only under its own hosts. A request is answered 200 there only where its body was
/// read, and its keeper has kept the body's bytes before. Any other answer leaves the keeper as it
/// was, unless the keeper failed: then `/healthz` is 503 from then on. Each answer is counted by its
/// status. A call fails only where memory for the answer is refused: nothing was kept then, and the
/// connection ends.
///
/// The bodies of the requests that it is shown, as it `Gathers`, are kept together, where its keeper
/// does so. A body that was kept so is recalled by its bytes when its request is answered.
#[derive(Drop)]
pub struct RelayService<K> {
    alloc: Global,
    keeper: K,
    hosts: Hosts,
    bounds: Bounds,
    tallies: Tallies,
    strays: Strays,
    // Whether the keeper failed to keep a body.
    has_failed: bool,
}

impl<K> RelayService<K> {
    /// A service over this keeper, which is asked under these hosts, and takes bodies that mean at
    /// most this many bytes. A keeper that has no room for so many refuses each such body as one for
    /// which there is no room now, so it should have more. It takes no memory, and has counted
    /// nothing.
    pub fn new(alloc: Global, keeper: K, hosts: Hosts, max_body: usize) -> RelayService<K>
        ensures keeper { keeper_of result ≡ keeper }
        ensures hosts { hosts_of result ≡ hosts }
        ensures bounds { bounds_of result
            ≡ record { max_content = max_body; max_pending = usize.MAX } }
        ensures tallies { tally_of result
            ≡ record { connections = 0; answers = replicate 900 0 } }
        ensures failed { failed_of result ≡ false }
    {
        RelayService {
            alloc,
            keeper,
            hosts,
            bounds: Bounds {
                max_content: max_body,
                max_pending: usize::MAX,
            },
            tallies: Tallies::new(),
            strays: Strays::new(),
            has_failed: false,
        }
    }

    /// The same, where so many bytes may be pending in all: a post that could not be read even alone
    /// is then refused as one that never fits. Without this it is refused as one that fits later.
    pub fn with_max_pending(mut self, max_pending: usize) -> RelayService<K>
        ensures bounds { bounds_of result ≡ record (bounds_of self) { max_pending = max_pending } }
        ensures keeper { keeper_of result ≡ keeper_of self }
        ensures hosts { hosts_of result ≡ hosts_of self }
        ensures tallies { tally_of result ≡ tally_of self }
        ensures failed { failed_of result ≡ failed_of self }
    {
        self.bounds.max_pending = max_pending;
        self
    }

    /// What keeps its bodies.
    pub fn keeper(&self) -> &K
        ensures { result.now ≡ keeper_of self.now }
    {
        &self.keeper
    }

    /// What it has counted.
    pub fn tallies(&self) -> &Tallies
        ensures { result.now ≡ tally_of self.now }
    {
        &self.tallies
    }

    /// Which signals beside traces it was asked to receive.
    pub fn strays(&self) -> Strays {
        self.strays
    }

    /// Whether its keeper failed to keep a body.
    pub fn has_failed(&self) -> bool
        ensures { result ≡ failed_of self.now }
    {
        self.has_failed
    }

    /// Counts a connection.
    pub fn count_connection(&mut self)
        ensures counted { (tally_of self.new).connections
            ≡ min ((tally_of self.old).connections + 1) MOST }
        ensures answers { (tally_of self.new).answers ≡ (tally_of self.old).answers }
        ensures keeper { keeper_of self.new ≡ keeper_of self.old }
        ensures hosts { hosts_of self.new ≡ hosts_of self.old }
        ensures bounds { bounds_of self.new ≡ bounds_of self.old }
        ensures failed { failed_of self.new ≡ failed_of self.old }
    {
        self.tallies.count_connection();
    }

    /// Makes a blank response the answer to a request that is refused, and counts it.
    fn deny(
        &mut self,
        response: &mut Response,
        denial: Denial,
        head: Option<&Request<Bytes>>,
    ) -> Result<(), AllocError>
        requires { IsBlank response.old }
        ensures answer { OnOk result (IsDenial denial
            (denial_format (head_in (option_copied head.entry))) response.new) }
        ensures counted { OnOk result (HasAnswered self.old self.new response.new.status) }
        ensures keeper { keeper_of self.new ≡ keeper_of self.old }
        ensures failed { failed_of self.new ≡ failed_of self.old }
        ensures refused { OnErr result (self.new ≡ self.old) }
    {
        fill_denial(response, denial, denial_format(head))?;
        self.tallies.count_answer(response.status);
        Ok(())
    }
}

impl<K: BodyKeeper> RelayService<K> {
    /// Makes a blank response the answer to a whole request, and counts it, where this many bytes
    /// may still be pending.
    ///
    /// # Errors
    ///
    /// `AllocError` where memory for the answer was refused. The service is then as it was.
    pub fn answer(
        &mut self,
        request: &Request<Bytes>,
        room: usize,
        response: &mut Response,
    ) -> Result<(), AllocError>
        requires { IsBlank response.old }
        ensures answers { OnOk result (Answers K.keeps K.lacks_room K.fails K.reports K.names
            self.old request.now room response.new self.new) }
        ensures counted { OnOk result (HasAnswered self.old self.new response.new.status) }
        ensures refused { OnErr result (self.new ≡ self.old) }
    {
        self.fill(request, room, response)?;
        self.tallies.count_answer(response.status);
        Ok(())
    }

    /// The same, but that it isn't counted.
    fn fill(
        &mut self,
        request: &Request<Bytes>,
        room: usize,
        response: &mut Response,
    ) -> Result<(), AllocError>
        requires { IsBlank response.old }
        ensures answers { OnOk result (Answers K.keeps K.lacks_room K.fails K.reports K.names
            self.old request.now room response.new self.new) }
        ensures hosts { hosts_of self.new ≡ hosts_of self.old }
        ensures bounds { bounds_of self.new ≡ bounds_of self.old }
        ensures tallies { tally_of self.new ≡ tally_of self.old }
        ensures refused { OnErr result (self.new ≡ self.old) }
    {
        let path = path_of(request);
        if path == "/v1/traces" {
            if request.method().as_str() == "OPTIONS" {
                fill_options(response)?;
                return Ok(());
            }
            let keeper = &mut self.keeper;
            let outcome = receive(self.alloc, keeper, request, self.bounds, room, response)?;
            self.has_failed = either(self.has_failed, is_failure(outcome));
            return Ok(());
        }
        if let Some(denial) = other_signal(path) {
            fill_denial(response, denial, denial_format(Some(request)))?;
            self.strays.note(denial);
            return Ok(());
        }
        let viewer = Viewer {
            alloc: self.alloc,
            keeper: &self.keeper,
            has_failed: self.has_failed,
            connections: self.tallies.connections(),
        };
        viewer.show(request, response)?;
        Ok(())
    }
}

impl<K: BodyKeeper> Service for RelayService<K> {
    ghost use Rattle.relay_service.specs.Serves.{Serves};

    type Pieces = NoPieces;

    ghost answers = { Serves K.keeps K.lacks_room K.fails K.reports K.names };

    fn admit(
        &mut self,
        head: &Request<Bytes>,
        body: Option<u64>,
        room: usize,
        response: &mut Response,
    ) -> Result<bool, AllocError> {
        let Some(denial) = head_denial(&self.hosts, head, body, room) else {
            return Ok(true);
        };
        self.deny(response, denial, Some(head))?;
        Ok(false)
    }

    fn call(
        &mut self,
        request: &Request<Bytes>,
        room: usize,
        response: &mut Response,
    ) -> Result<Option<NoPieces>, AllocError> {
        self.answer(request, room, response)?;
        Ok(None)
    }

    fn refuse(
        &mut self,
        refusal: Refusal,
        head: Option<&Request<Bytes>>,
        response: &mut Response,
    ) -> Result<(), AllocError> {
        self.deny(response, denial_by(refusal), head)
    }
}

impl<K: BodyKeeper> Gathers for RelayService<K> {
    ghost use Rattle.relay_service.specs.Serves.{GathersFor, SettlesBy};

    ghost gathers = { λ old request new. GathersFor K.collects_body old request new };

    ghost settles = { λ old new. SettlesBy K.keeps_collected old new };

    fn gather(&mut self, request: &Request<Bytes>, room: usize) {
        if self.keeper.collects() {
            collect(
                self.alloc,
                &mut self.keeper,
                request,
                self.bounds.max_content,
                room,
            );
        }
    }

    fn settle(&mut self) {
        self.keeper.keep_collected();
    }
}
