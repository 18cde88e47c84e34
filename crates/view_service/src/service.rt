//! The service that a connection calls.

ghost use Rattle.std.specs.Prelude.{◌≡◌, [], IfOk, OnErr, OnOk, None, Option, Some, bytes_eq};
ghost use Rattle.std.specs.Prelude.{codes, min, replicate, option_copied};
ghost use Rattle.http.specs.Request.{head_of};
ghost use Rattle.http_server.specs.Response.{IsBlank};
ghost use Rattle.http_uri.specs.Uri.{uri_path};
ghost use Rattle.otlp_receiver.specs.Denials.{IsDenial};
ghost use Rattle.http_connection.specs.Heads.{head_in};
ghost use Rattle.otlp_receiver.specs.Requests.{denial_format};
ghost use Rattle.view_service.specs.Serves.{Answers, HasAnswered, hosts_of, keeper_of, pages_of};
ghost use Rattle.view_service.specs.Serves.{bounds_of, tally_of};

use crate::keeper::TraceKeeper;
use crate::pages::Pages;
use crate::receive::receive;
use crate::show::Viewer;
use bytes::Bytes;
use http::Request;
use http_connection::{Refusal, Service};
use http_server::Response;
use otlp_receiver::Bounds;
use otlp_receiver::reply::{
    Denial, Hosts, Strays, Tallies, denial_by, denial_format, fill_denial, fill_options,
    head_denial, other_signal, path_of,
};
use std::alloc::{AllocError, Global};
use std::sync::Arc;
use trace_store::{TraceDigest, ViewSpan};

/// Receives spans by `POST /v1/traces`, and shows by `GET` what its keeper has.
///
/// It is asked only under its own hosts. A request is answered 200 there only where its body was
/// read, and its spans were kept before. Any other answer leaves the keeper as it was, but that it
/// gives up its oldest traces where memory was refused. Each answer is counted by its status. A
/// call fails only where memory for the answer is refused: nothing was kept then, and the
/// connection ends.
#[derive(Drop)]
pub struct ViewService<K, P> {
    alloc: Global,
    keeper: K,
    pages: P,
    hosts: Hosts,
    bounds: Bounds,
    tallies: Tallies,
    strays: Strays,
}

impl<K, P> ViewService<K, P> {
    /// A service over this keeper, which is asked under these hosts, and takes bodies that mean at
    /// most this many bytes. It takes no memory, and has counted nothing.
    pub fn new(
        alloc: Global,
        keeper: K,
        pages: P,
        hosts: Hosts,
        max_body: usize,
    ) -> ViewService<K, P>
        ensures keeper { keeper_of result ≡ keeper }
        ensures pages { pages_of result ≡ pages }
        ensures hosts { hosts_of result ≡ hosts }
        ensures bounds { bounds_of result
            ≡ record { max_content = max_body; max_pending = usize.MAX } }
        ensures tallies { tally_of result
            ≡ record { connections = 0; answers = replicate 900 0 } }
    {
        ViewService {
            alloc,
            keeper,
            pages,
            hosts,
            bounds: Bounds {
                max_content: max_body,
                max_pending: usize::MAX,
            },
            tallies: Tallies::new(),
            strays: Strays::new(),
        }
    }

    /// The same, where so many bytes may be pending in all: a post that could not be read even alone
    /// is then refused as one that never fits. Without this it is refused as one that fits later.
    pub fn with_max_pending(mut self, max_pending: usize) -> ViewService<K, P>
        ensures bounds { bounds_of result ≡ record (bounds_of self) { max_pending = max_pending } }
        ensures keeper { keeper_of result ≡ keeper_of self }
        ensures pages { pages_of result ≡ pages_of self }
        ensures hosts { hosts_of result ≡ hosts_of self }
        ensures tallies { tally_of result ≡ tally_of self }
    {
        self.bounds.max_pending = max_pending;
        self
    }

    /// What keeps its spans.
    pub fn keeper(&self) -> &K
        ensures { result.now ≡ keeper_of self.now }
    {
        &self.keeper
    }

    /// What it has counted.
    pub fn tallies(&self) -> &Tallies
        ensures { result.now ≡ tally_of self.now }
    {
        &self.tallies
    }

    /// Which signals beside traces it was asked to receive.
    pub fn strays(&self) -> Strays {
        self.strays
    }

    /// Counts a connection.
    pub fn count_connection(&mut self)
        ensures keeper { keeper_of self.new ≡ keeper_of self.old }
    {
        self.tallies.count_connection();
    }

    /// Makes a blank response the answer to a request that is refused, and counts it.
    fn deny(
        &mut self,
        response: &mut Response,
        denial: Denial,
        head: Option<&Request<Bytes>>,
    ) -> Result<(), AllocError>
        requires { IsBlank response.old }
        ensures answer { OnOk result (IsDenial denial
            (denial_format (head_in (option_copied head.entry))) response.new) }
        ensures counted { OnOk result (HasAnswered self.old self.new response.new.status) }
        ensures keeper { keeper_of self.new ≡ keeper_of self.old }
        ensures refused { OnErr result (self.new ≡ self.old) }
    {
        fill_denial(response, denial, denial_format(head))?;
        self.tallies.count_answer(response.status);
        Ok(())
    }
}

impl<K, P> ViewService<K, P>
where
    K: TraceKeeper<Arc<ViewSpan>, TraceDigest>,
    P: Pages<Arc<ViewSpan>, TraceDigest>,
{
    /// Makes a blank response the answer to a whole request, and counts it, where this many bytes
    /// may still be pending. Where the answer isn't whole, what is answered here writes the rest.
    ///
    /// # Errors
    ///
    /// `AllocError` where memory for the answer was refused. The service is then as it was.
    pub fn answer(
        &mut self,
        request: &Request<Bytes>,
        room: usize,
        response: &mut Response,
    ) -> Result<Option<P::Page>, AllocError>
        requires { IsBlank response.old }
        ensures answers { IfOk result (λ rest. Answers K.keeps K.lacks_room K.gives_up K.lends
            P.draws P.Page.writes self.old request.now room response.new rest (keeper_of self.new)) }
        ensures counted { OnOk result (HasAnswered self.old self.new response.new.status) }
        ensures refused { OnErr result (self.new ≡ self.old) }
    {
        let rest = self.fill(request, room, response)?;
        self.tallies.count_answer(response.status);
        Ok(rest)
    }

    /// The same, but that it isn't counted.
    fn fill(
        &mut self,
        request: &Request<Bytes>,
        room: usize,
        response: &mut Response,
    ) -> Result<Option<P::Page>, AllocError>
        requires { IsBlank response.old }
        ensures answers { IfOk result (λ rest. Answers K.keeps K.lacks_room K.gives_up K.lends
            P.draws P.Page.writes self.old request.now room response.new rest (keeper_of self.new)) }
        ensures hosts { hosts_of self.new ≡ hosts_of self.old }
        ensures pages { pages_of self.new ≡ pages_of self.old }
        ensures bounds { bounds_of self.new ≡ bounds_of self.old }
        ensures tallies { tally_of self.new ≡ tally_of self.old }
        ensures refused { OnErr result (self.new ≡ self.old) }
    {
        let path = path_of(request);
        if path == "/v1/traces" {
            if request.method().as_str() == "OPTIONS" {
                fill_options(response)?;
                return Ok(None);
            }
            let keeper = &mut self.keeper;
            receive(self.alloc, keeper, request, self.bounds, room, response)?;
            return Ok(None);
        }
        if let Some(denial) = other_signal(path) {
            fill_denial(response, denial, denial_format(Some(request)))?;
            self.strays.note(denial);
            return Ok(None);
        }
        let viewer = Viewer {
            alloc: self.alloc,
            keeper: &self.keeper,
            pages: &self.pages,
            tallies: &self.tallies,
        };
        let rest = viewer.show(request, response)?;
        Ok(rest)
    }
}

impl<K, P> Service for ViewService<K, P>
where
    K: TraceKeeper<Arc<ViewSpan>, TraceDigest>,
    P: Pages<Arc<ViewSpan>, TraceDigest>,
{
    ghost use Rattle.view_service.specs.Serves.{Serves};

    type Pieces = P::Page;

    ghost answers = { Serves K.keeps K.lacks_room K.gives_up K.lends P.draws P.Page.writes };

    fn admit(
        &mut self,
        head: &Request<Bytes>,
        body: Option<u64>,
        room: usize,
        response: &mut Response,
    ) -> Result<bool, AllocError> {
        let Some(denial) = head_denial(&self.hosts, head, body, room) else {
            return Ok(true);
        };
        self.deny(response, denial, Some(head))?;
        Ok(false)
    }

    fn call(
        &mut self,
        request: &Request<Bytes>,
        room: usize,
        response: &mut Response,
    ) -> Result<Option<P::Page>, AllocError> {
        let rest = self.answer(request, room, response)?;
        Ok(rest)
    }

    fn refuse(
        &mut self,
        refusal: Refusal,
        head: Option<&Request<Bytes>>,
        response: &mut Response,
    ) -> Result<(), AllocError> {
        self.deny(response, denial_by(refusal), head)
    }
}
