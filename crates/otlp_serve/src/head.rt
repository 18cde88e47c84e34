//! Heads of requests.

use http_wire::ParseHead;
use httparse::spans::{HeaderSpan, RequestSpans, parse_request};

/// The heads of requests, as `httparse` reads them.
pub(crate) struct RequestHeads;

impl ParseHead for RequestHeads {
    ghost use Rattle.httparse.specs.Grammar.{IsRequestHead, MayBecomeRequest, NeverHasRequest};
    ghost use Rattle.httparse.specs.Grammar.{print_request, RequestHead};
    ghost use Rattle.httparse.specs.Spans.{IsRequestAt, IsRequestWithin, RequestExceeds};
    ghost use Rattle.otlp_serve.specs.HeadLaws as laws;

    type Spans = RequestSpans;

    ghost Head = { RequestHead };

    ghost valid = { IsRequestHead };

    ghost printed = { print_request };

    ghost fields_in = { λ head. head.fields };

    ghost may_become = { MayBecomeRequest };

    ghost never_has = { NeverHasRequest };

    ghost exceeds = { RequestExceeds };

    ghost covers = { IsRequestAt };

    ghost is_within = { IsRequestWithin };

    ghost due = { laws.head_due };

    ghost begins = { laws.begins };

    ghost fits = { laws.fits };

    fn parse(text: &[u8], spans: &mut [HeaderSpan]) -> httparse::Result<RequestSpans> {
        parse_request(text, spans)
    }
}
