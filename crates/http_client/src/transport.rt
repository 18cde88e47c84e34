//! What a client's requests go over: a new connection each, or one that is kept.

ghost use Rattle.std.specs.Prelude.{◌≡◌, ◌++◌, List, None, Result};
ghost use Rattle.std.specs.Result.{result_map_both};
ghost use Rattle.http_exporter.specs.Attempts.{shown};
ghost use Rattle.otlp_http.specs.Address.{Address};
ghost use Rattle.otlp_http.specs.Outcomes.{reply_view};
ghost use Rattle.otlp_http.specs.Replies.{HttpReply};
ghost use Rattle.trace_context.specs.Carriers.{Field};
ghost use Rattle.trace_context.specs.Pairs.{fields_view};
ghost use Rattle.http_client.specs.declared.fault.SendFault as fault;
ghost use Rattle.http_client.specs.Exchanges.{IsSending};
ghost use Rattle.http_client.specs.KeptLinks as spec;
ghost use Rattle.http_client.specs.KeptLinks.{IsSentAnew, IsSentKept, MayKeep, link_to};
ghost use Rattle.http_client.specs.Requests.{Request, request_view};

use crate::exchange::{Came, exchange, exchange_kept, is_head};
use crate::fault::SendFault;
use crate::request::{ClientRequest, request_head};
use http_exporter::{Dial, PeekLink, ready};
use otlp_http::{Connection, Reply, Target};
use std::alloc::Global;
use std::marker::Model;

/// What a client's requests go over: [`NewConnections`] or a [`KeptConnection`].
pub trait Transport {
    // From this state, a request to this address with these fields that carry a context may come to
    // this, and leave that state.
    ghost asks: { Address → Request → List Field → Self → Self
        → Result HttpReply fault.SendFault → Type 0 };

    /// Sends a request with these fields that carry a context, and reads the reply.
    ///
    /// # Errors
    ///
    /// `OutOfMemory` where memory for the head was refused, `NoConnection` where there is no link,
    /// `NotSent` where a write failed, and `NoReply` where what came back is no reply.
    fn ask(
        &mut self,
        alloc: Global,
        target: &Target,
        request: &ClientRequest<'_>,
        carried: &[(String, Vec<u8>)],
    ) -> Result<Reply, SendFault>
        ensures { asks target.now (request_view request.now) (fields_view carried.now)
            self.old self.new (result_map_both reply_view (λ fault. fault) result) };
}

/// A new connection for each request, which is closed after it. In contracts it is what dials.
#[derive(Drop)]
pub struct NewConnections<D> {
    dial: D,
}

impl<D> Model for NewConnections<D> {
    ghost Value = { D };

    ghost view = { λ n. n.dial };
}

impl<D> NewConnections<D> {
    /// New connections that this dial gives.
    pub fn new(dial: D) -> NewConnections<D>
        ensures { result ≡ dial }
    {
        NewConnections { dial }
    }
}

impl<D: Dial> NewConnections<D> {
    /// Dials, sends the head and the body over the link and reads the reply.
    fn send(
        &mut self,
        alloc: Global,
        target: &Target,
        head: &[u8],
        request: &ClientRequest<'_>,
    ) -> Result<Reply, SendFault>
        ensures { IsSending D.dials
            (shown D.Link.contents D.Link.remaining
            D.Link.FaultWrite.failures D.Link.FaultRead.failures)
            target.now (request_view request.now).method
            (head.now ++ (request_view request.now).body) self.old self.new
            (result_map_both reply_view (λ fault. fault) result) }
    {
        let Some(mut link) = self.dial.dial(target.host(), target.port()) else {
            return Err(SendFault::NoConnection);
        };
        let (result, _) = exchange(alloc, &mut link, head, request);
        result
    }
}

impl<D: Dial> Transport for NewConnections<D> {
    ghost use Rattle.http_exporter.specs.Attempts.{shown};
    ghost use Rattle.http_client.specs.Exchanges.{IsAsked};

    ghost asks = { IsAsked D.dials (shown D.Link.contents D.Link.remaining
        D.Link.FaultWrite.failures D.Link.FaultRead.failures) };

    fn ask(
        &mut self,
        alloc: Global,
        target: &Target,
        request: &ClientRequest<'_>,
        carried: &[(String, Vec<u8>)],
    ) -> Result<Reply, SendFault> {
        match request_head(alloc, Connection::Close, target, carried, request) {
            Ok(head) => self.send(alloc, target, &head, request),
            Err(_) => Err(SendFault::OutOfMemory),
        }
    }
}

/// A link, and where it leads to.
#[derive(Drop)]
struct LinkTo<L> {
    link: L,
    host: String,
    port: u16,
}

impl<L> Model for LinkTo<L> {
    ghost use Rattle.std.specs.Prelude.{string_bytes};
    ghost use Rattle.http_client.specs.KeptLinks as spec;

    ghost Value = { spec.LinkTo L };

    ghost view = { λ k. record { link = k.link; host = string_bytes k.host; port = k.port } };
}

impl<L> LinkTo<L> {
    /// Whether it leads to the host and the port of this target.
    fn leads_to(&self, target: &Target) -> bool
        ensures { result ≡ spec.leads_to target.now self.now }
    {
        self.port == target.port() && self.host.as_str() == target.host()
    }
}

/// One connection, which is kept from one request to the next as long as replies let it (RFC 9112,
/// section 9.3). It is given up where a reply closes it, broke off or goes to its end, after a
/// `HEAD`, where the next request goes to another host or port, and where it isn't ready then, as
/// where the other end closed it. That request goes over a new one.
///
/// Where nothing of a reply comes over a connection that was kept, since the other end closed it in
/// between, a request whose method is idempotent (`DELETE`, `GET`, `HEAD`, `OPTIONS`, `PUT`,
/// `TRACE`) is sent once more over a new one, and any other is not (RFC 9110, section 9.2.2). In
/// contracts it is a `KeptDial`.
#[derive(Drop)]
pub struct KeptConnection<D: Dial> {
    dial: D,
    kept: Option<LinkTo<D::Link>>,
}

impl<D: Dial> Model for KeptConnection<D> {
    ghost use Rattle.http_client.specs.KeptLinks.{KeptDial};

    ghost Value = { KeptDial D D.Link };

    ghost view = { λ k. record { dial = k.dial; kept = k.kept } };
}

/// Whether a request of this method may be sent again.
#[tactic(auto, unfolding(crate::specs::KeptLinks::is_idempotent))]
fn is_idempotent(method: &str) -> bool
    ensures { result ≡ spec.is_idempotent method.now }
{
    matches!(
        method,
        "DELETE" | "GET" | "HEAD" | "OPTIONS" | "PUT" | "TRACE"
    )
}

/// What a request of this method asks of its connection.
fn connection_for(method: &str) -> Connection
    ensures { result ≡ spec.connection_for method.now }
{
    if is_head(method) {
        Connection::Close
    } else {
        Connection::KeepAlive
    }
}

impl<D: Dial> KeptConnection<D> {
    /// No connection yet: this dial gives the first one.
    pub fn new(dial: D) -> KeptConnection<D>
        ensures { result ≡ record { dial = dial; kept = None } }
    {
        KeptConnection { dial, kept: None }
    }

    /// Takes the link that is kept, where it leads to this target.
    fn take(&mut self, target: &Target) -> Option<D::Link>
        ensures link { result ≡ link_to target.now self.old.kept }
        ensures others { self.new ≡ record { dial = self.old.dial; kept = None } }
    {
        let Some(kept) = self.kept.take() else {
            return None;
        };
        if !kept.leads_to(target) {
            return None;
        }
        let LinkTo { link, .. } = kept;
        Some(link)
    }

    /// Keeps the link to this target, where it lasts, and there is memory for the name of its host.
    /// None is kept yet.
    fn keep(&mut self, alloc: Global, target: &Target, lasts: bool, link: D::Link)
        requires { self.old.kept ≡ None }
        ensures kept { MayKeep target.now lasts link self.new.kept }
        ensures dial { self.new.dial ≡ self.old.dial }
    {
        if !lasts {
            return;
        }
        let Ok(host) = String::from_str(alloc, target.host()) else {
            return;
        };
        self.kept = Some(LinkTo {
            link,
            host,
            port: target.port(),
        });
    }

    /// Dials, sends the head and the body over the link, reads the reply, and keeps the link where it
    /// lasts. None is kept yet.
    fn send_anew(
        &mut self,
        alloc: Global,
        target: &Target,
        head: &[u8],
        request: &ClientRequest<'_>,
    ) -> Result<Reply, SendFault>
        requires { self.old.kept ≡ None }
        ensures { IsSentAnew D.dials
            (shown D.Link.contents D.Link.remaining
            D.Link.FaultWrite.failures D.Link.FaultRead.failures)
            target.now (request_view request.now).method
            (head.now ++ (request_view request.now).body) self.old.dial self.new
            (result_map_both reply_view (λ fault. fault) result) }
    {
        let Some(mut link) = self.dial.dial(target.host(), target.port()) else {
            return Err(SendFault::NoConnection);
        };
        let (result, lasts) = exchange(alloc, &mut link, head, request);
        self.keep(alloc, target, lasts, link);
        result
    }
}

impl<D: Dial> KeptConnection<D>
where
    D::Link: PeekLink,
{
    /// Sends the head and the body over the link that is kept, where it is ready, and else over a new
    /// one, and reads the reply.
    fn send(
        &mut self,
        alloc: Global,
        target: &Target,
        head: &[u8],
        request: &ClientRequest<'_>,
    ) -> Result<Reply, SendFault>
        ensures { IsSentKept D.dials D.Link.renews
            (shown D.Link.contents D.Link.remaining
            D.Link.FaultWrite.failures D.Link.FaultRead.failures)
            target.now (request_view request.now).method
            (head.now ++ (request_view request.now).body) self.old self.new
            (result_map_both reply_view (λ fault. fault) result) }
    {
        let Some(mut link) = ready(self.take(target)) else {
            return self.send_anew(alloc, target, head, request);
        };
        match exchange_kept(alloc, &mut link, head, request) {
            Came::Answer(result, lasts) => {
                self.keep(alloc, target, lasts, link);
                result
            }
            Came::Nothing(fault) => {
                if !is_idempotent(request.method) {
                    return Err(fault);
                }
                self.send_anew(alloc, target, head, request)
            }
        }
    }
}

impl<D: Dial> Transport for KeptConnection<D>
where
    D::Link: PeekLink,
{
    ghost use Rattle.http_exporter.specs.Attempts.{shown};
    ghost use Rattle.http_client.specs.KeptLinks.{IsAskedKept};

    ghost asks = { IsAskedKept D.dials D.Link.renews (shown D.Link.contents D.Link.remaining
        D.Link.FaultWrite.failures D.Link.FaultRead.failures) };

    fn ask(
        &mut self,
        alloc: Global,
        target: &Target,
        request: &ClientRequest<'_>,
        carried: &[(String, Vec<u8>)],
    ) -> Result<Reply, SendFault> {
        let connection = connection_for(request.method);
        match request_head(alloc, connection, target, carried, request) {
            Ok(head) => self.send(alloc, target, &head, request),
            Err(_) => Err(SendFault::OutOfMemory),
        }
    }
}
