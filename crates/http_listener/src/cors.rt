//! A service that lets pages of other origins post to another one.

ghost use Rattle.std.specs.Prelude.{◌≡◌, option_copied};
ghost use Rattle.http_listener.specs.CorsFields.{AllowsKnown};
ghost use Rattle.http_listener.specs.CorsService.{origins_of, path_of, service_of};
ghost use Rattle.http_connection.specs.Heads.{head_in};

use crate::cors_fields::allow_origin;
use crate::origins::Origins;
use bytes::Bytes;
use http::Request;
use http_connection::{Refusal, Service};
use http_server::Response;
use std::alloc::{AllocError, Global};

/// A service whose answers are those of another one, at one path with the fields that let pages of
/// some origins post there (Fetch standard, "CORS protocol"). It answers no request itself: the
/// other one has to answer `OPTIONS` with a status from 200 to 299, as browsers want it.
///
/// Where memory for the fields is refused, an answer goes out without them.
#[derive(Drop)]
pub struct Cors<S> {
    alloc: Global,
    /// The service whose answers they are.
    pub service: S,
    origins: Origins,
    path: &'static str,
}

impl<S> Cors<S> {
    /// Lets pages of these origins post to a service at this path.
    pub fn new(alloc: Global, service: S, origins: Origins, path: &'static str) -> Cors<S>
        ensures service { service_of result ≡ service }
        ensures origins { origins_of result ≡ origins }
        ensures path { path_of result ≡ path.now }
    {
        Cors {
            alloc,
            service,
            origins,
            path,
        }
    }

    /// Adds the fields to the answer to a request, if its head is known.
    fn allow(&self, head: Option<&Request<Bytes>>, response: &mut Response)
        ensures { AllowsKnown (origins_of self.now) (path_of self.now)
            (head_in (option_copied head.entry)) response.old response.new }
    {
        if let Some(head) = head {
            allow_origin(self.alloc, &self.origins, self.path, head, response);
        }
    }
}

impl<S: Service> Service for Cors<S> {
    ghost use Rattle.http_listener.specs.CorsService.{Serves};

    type Pieces = S::Pieces;

    ghost answers = { Serves S.answers };

    fn admit(
        &mut self,
        head: &Request<Bytes>,
        body: Option<u64>,
        room: usize,
        response: &mut Response,
    ) -> Result<bool, AllocError> {
        if self.service.admit(head, body, room, response)? {
            return Ok(true);
        }
        self.allow(Some(head), response);
        Ok(false)
    }

    fn call(
        &mut self,
        request: &Request<Bytes>,
        room: usize,
        response: &mut Response,
    ) -> Result<Option<S::Pieces>, AllocError> {
        let rest = self.service.call(request, room, response)?;
        self.allow(Some(request), response);
        Ok(rest)
    }

    fn refuse(
        &mut self,
        refusal: Refusal,
        head: Option<&Request<Bytes>>,
        response: &mut Response,
    ) -> Result<(), AllocError> {
        self.service.refuse(refusal, head, response)?;
        self.allow(head, response);
        Ok(())
    }
}
