//! Heads of replies.

ghost use Rattle.std.specs.Prelude.{◌≡◌, ◌↔◌, length, IfErr, IfOk, OnOk, IsTrue};
ghost use Rattle.http_wire.specs.Devices.{HasFailed};
ghost use Rattle.http_wire.specs.Faults.{CountsAtHead};
ghost use Rattle.otlp_http.specs.Heads.{IsInterimStatus};
ghost use Rattle.otlp_http.specs.Parses.{HasFinalHead};
ghost use Rattle.otlp_http.specs.Replies.{HasNoReply};

use http_wire::{FaultRead, HeadLimits, HttpFault, ParseHead, read_head};
use httparse::spans::{HeaderSpan, ResponseSpans, parse_response};
use std::alloc::Allocator;

/// The heads of replies, as `httparse` reads them.
struct ReplyHeads;

impl ParseHead for ReplyHeads {
    ghost use Rattle.httparse.specs.Grammar.{IsResponseHead, MayBecomeResponse, NeverHasResponse};
    ghost use Rattle.httparse.specs.Grammar.{print_response, ResponseHead};
    ghost use Rattle.httparse.specs.Spans.{IsResponseAt, IsResponseWithin, ResponseExceeds};
    ghost use Rattle.otlp_http.specs.HeadLaws as laws;

    type Spans = ResponseSpans;

    ghost Head = { ResponseHead };

    ghost valid = { IsResponseHead };

    ghost printed = { print_response };

    ghost fields_in = { λ head. head.fields };

    ghost may_become = { MayBecomeResponse };

    ghost never_has = { NeverHasResponse };

    ghost exceeds = { ResponseExceeds };

    ghost covers = { IsResponseAt };

    ghost is_within = { IsResponseWithin };

    ghost due = { laws.head_due };

    ghost begins = { laws.begins };

    ghost fits = { laws.fits };

    fn parse(text: &[u8], spans: &mut [HeaderSpan]) -> httparse::Result<ResponseSpans> {
        parse_response(text, spans)
    }
}

/// Whether a status is interim.
fn is_interim(status: u16) -> bool
    ensures { IsTrue result ↔ IsInterimStatus status }
{
    status >= 100 && status < 200
}

/// Reads the first head that isn't interim: 16 interim heads are skipped, a further one is bad.
pub(crate) fn read_final_head<R: FaultRead, A: Allocator>(
    reader: &mut R,
    limits: &HeadLimits,
    text: &mut Vec<u8, A>,
    spans: &mut [HeaderSpan],
) -> Result<ResponseSpans, HttpFault>
    requires { length spans.old ≡ limits.now.fields }
    ensures head { IfOk result (HasFinalHead limits.now (R.remaining reader.old)
        (R.remaining reader.new) text.new.items spans.new) }
    ensures none { IfErr result (HasNoReply limits.now (R.remaining reader.old)
        (R.remaining reader.new) (HasFailed (R.failures reader.old) (R.failures reader.new))) }
    ensures counted { IfErr result (λ fault.
        CountsAtHead fault (R.failures reader.old) (R.failures reader.new)) }
    ensures kept { OnOk result (R.failures reader.new ≡ R.failures reader.old) }
{
    for _skipped in 0..16usize {
        let head = match read_head::<ReplyHeads, R, A>(reader, limits, text, spans) {
            Ok(head) => head,
            Err(fault) => return Err(fault),
        };
        if !is_interim(head.code) {
            return Ok(head);
        }
    }
    match read_head::<ReplyHeads, R, A>(reader, limits, text, spans) {
        Ok(head) if is_interim(head.code) => Err(HttpFault::BadHead),
        Ok(head) => Ok(head),
        Err(fault) => Err(fault),
    }
}
