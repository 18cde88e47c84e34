//! What a connection calls.

ghost use Rattle.std.specs.Prelude.{◌≡◌, ℕ, List, [], ◌++◌, false, Option, IfOk, OnOk, OnErr};
ghost use Rattle.http_server.specs.Response.{IsBlank};
ghost use Rattle.http_connection.specs.Turns.{Turn, judged};
ghost use Rattle.http.specs.declared.request.Request.{Request as HttpRequest};

use crate::Refusal;
use bytes::Bytes;
use http::Request;
use http_server::Response;
use std::alloc::AllocError;

/// The rest of an answer's body, which is written piece by piece.
pub trait Pieces {
    // From this state it may still write these bytes, all in all.
    ghost writes: { Self → List ℕ → Type 0 };

    /// Appends the next piece. Answers whether more follow.
    ///
    /// # Errors
    ///
    /// Refused memory, which ends the connection.
    fn next(&mut self, out: &mut Vec<u8>) -> Result<bool, AllocError>
        ensures goes_on { OnOk result ((piece : List ℕ)
            × (out.new.items ≡ out.old.items ++ piece)
            × ((more : List ℕ) → writes self.new more → writes self.old (piece ++ more))) }
        ensures ends { result ≡ Ok false → writes self.new [] };
}

/// Turns requests into responses. One value may serve many connections, and hold what they share.
///
/// The error of each call is for memory alone, leaves the service as it was, and ends the
/// connection. Any other fault is answered with a status.
pub trait Service {
    /// What writes the rest of an answer.
    type Pieces: Pieces + Drop;

    // From the first state, this leaves the second state.
    ghost answers: { Self → Turn Self.Pieces → Self → Type 0 };

    /// Judges a request by its head, before its body is taken. `head` has no body yet; `body` is
    /// the length of it, where the request says one; `room` bytes may still be pending.
    /// Answers whether the request is let in. If not, `response` was made the answer, and the
    /// connection ends after it.
    fn admit(
        &mut self,
        head: &Request<Bytes>,
        body: Option<u64>,
        room: usize,
        response: &mut Response,
    ) -> Result<bool, AllocError>
        requires { IsBlank response.old }
        ensures ok { IfOk result (λ admitted.
            answers self.old (judged admitted head.now response.new) self.new) }
        ensures err { OnErr result (self.new ≡ self.old) };

    /// Answers a whole request, which was let in: fills `response`, which comes as a 200 with no
    /// field and no body. Where it answers pieces, those are the response's body, which goes out in
    /// chunks, and to HTTP/1.0 until the connection closes; to `HEAD` none goes out.
    ///
    /// A response that HTTP can't carry, as one with a status below 200, a 2xx to `CONNECT` or a
    /// body with a 204, ends the connection with nothing more.
    fn call(
        &mut self,
        request: &Request<Bytes>,
        room: usize,
        response: &mut Response,
    ) -> Result<Option<Self::Pieces>, AllocError>
        requires { IsBlank response.old }
        ensures ok { IfOk result (λ pieces.
            answers self.old (Turn.Answered request.now response.new pieces) self.new) }
        ensures err { OnErr result (self.new ≡ self.old) };

    /// Fills `response`, which comes blank, with the answer to what the connection refuses. `head`
    /// is the request's head where that could be read.
    fn refuse(
        &mut self,
        refusal: Refusal,
        head: Option<&Request<Bytes>>,
        response: &mut Response,
    ) -> Result<(), AllocError>
        requires { IsBlank response.old }
        ensures ok { OnOk result (answers self.old (Turn.Refused refusal response.new) self.new) }
        ensures err { OnErr result (self.new ≡ self.old) };
}

/// A service that is shown the whole requests of a round before it answers any of them, so that
/// what their answers share is done once, as one write to a disk is.
pub trait Gathers: Service {
    // From the first state, it was shown this request, and the second state is left.
    ghost gathers: { Self → HttpRequest (List ℕ) → Self → Type 0 };

    // From the first state, it has done what the requests share that it was shown, and the second
    // state is left.
    ghost settles: { Self → Self → Type 0 };

    /// Is shown a whole request, which it is asked to answer once it has settled, unless the
    /// request's connection ends before. `room` bytes may still be pending. Nothing is answered by
    /// this, and a request may be answered that it wasn't shown.
    fn gather(&mut self, request: &Request<Bytes>, room: usize)
        ensures { gathers self.old request.now self.new };

    /// Does what the requests share that it was shown since the last call.
    fn settle(&mut self)
        ensures { settles self.old self.new };
}
