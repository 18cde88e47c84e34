//! A service whose answers say when they were made.

ghost use Rattle.std.specs.Prelude.{◌≡◌};
ghost use Rattle.http_listener.specs.Moments.{MayBeDated};

use bytes::Bytes;
use http::Request;
use http_connection::{Gathers, Refusal, Service, say_date};
use http_server::Response;
use std::alloc::{AllocError, Global};
use std::time::Clock;

/// A service whose answers are those of another one, each with the moment at which it was made (RFC
/// 9110, section 6.6.1). An answer has no moment where the clock can't be read, is before 1970, or
/// memory for the field was refused.
#[derive(Drop)]
pub struct Dated<S, R> {
    alloc: Global,
    /// The service whose answers they are.
    pub service: S,
    rt: R,
}

impl<S, R> Dated<S, R> {
    /// Adds the moment to the answers of this service, by the clock of this runtime.
    pub fn new(alloc: Global, service: S, rt: R) -> Dated<S, R>
        ensures { result.service ≡ service }
    {
        Dated { alloc, service, rt }
    }
}

impl<S, R: Clock> Dated<S, R> {
    /// Says in a response when it was made.
    fn say(&self, response: &mut Response)
        ensures { MayBeDated response.old response.new }
    {
        let Ok(since) = self.rt.since_1970() else {
            return;
        };
        let Ok(at) = u64::try_from(since.as_nanos()) else {
            return;
        };
        say_date(self.alloc, response, at);
    }
}

impl<S: Service, R: Clock> Service for Dated<S, R> {
    ghost use Rattle.http_listener.specs.Moments.{Serves};

    type Pieces = S::Pieces;

    ghost answers = { Serves S.answers };

    fn admit(
        &mut self,
        head: &Request<Bytes>,
        body: Option<u64>,
        room: usize,
        response: &mut Response,
    ) -> Result<bool, AllocError> {
        if self.service.admit(head, body, room, response)? {
            return Ok(true);
        }
        self.say(response);
        Ok(false)
    }

    fn call(
        &mut self,
        request: &Request<Bytes>,
        room: usize,
        response: &mut Response,
    ) -> Result<Option<S::Pieces>, AllocError> {
        let rest = self.service.call(request, room, response)?;
        self.say(response);
        Ok(rest)
    }

    fn refuse(
        &mut self,
        refusal: Refusal,
        head: Option<&Request<Bytes>>,
        response: &mut Response,
    ) -> Result<(), AllocError> {
        self.service.refuse(refusal, head, response)?;
        self.say(response);
        Ok(())
    }
}

impl<S: Gathers, R: Clock> Gathers for Dated<S, R> {
    ghost gathers = { λ old request new. S.gathers old.service request new.service };

    ghost settles = { λ old new. S.settles old.service new.service };

    fn gather(&mut self, request: &Request<Bytes>, room: usize) {
        self.service.gather(request, room);
    }

    fn settle(&mut self) {
        self.service.settle();
    }
}
