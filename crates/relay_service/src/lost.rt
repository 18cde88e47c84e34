//! How lost spans are listed.

ghost use Rattle.std.specs.Prelude.{◌≡◌, ◌++◌, IfOk, OnOk, map};
ghost use Rattle.std.specs.List.{flat_map};
ghost use Rattle.json.specs.Lex.{tokens};
ghost use Rattle.relay_queue.specs.Lost.{loss_view, lost_view};
ghost use Rattle.relay_service.specs.Lost.{list_tokens, lost_tokens, reason_of, status_member};

use json::Writer;
use otlp_json::field::{begin, begin_list, end, end_list, push_hex, push_number, push_text};
use relay_queue::{Loss, LostSpan};
use std::alloc::{AllocError, Allocator};

/// Why a span was lost, in a word.
fn reason_of(loss: Loss) -> &'static str
    ensures { result.now ≡ reason_of (loss_view loss) }
{
    match loss {
        Loss::Refused(_) => "refused",
        Loss::BadReply => "bad-reply",
        Loss::GivenUp => "attempts",
        Loss::Abandoned => "abandoned",
    }
}

/// Writes with which status a span was refused, where it was.
fn push_status<A: Allocator>(out: &mut Writer<A>, loss: Loss) -> Result<(), AllocError>
    ensures tokens { OnOk result (out.new.tokens
        ≡ out.old.tokens ++ status_member (loss_view loss)) }
    ensures before { out.new.before ≡ out.old.before }
{
    match loss {
        Loss::Refused(status) => push_number(out, "status", u64::from(status)),
        _ => Ok(()),
    }
}

/// Writes a lost span.
#[tactic(auto, unfolding(crate::specs::Lost::lost_tokens))]
fn push_lost<A: Allocator + Copy>(
    alloc: A,
    out: &mut Writer<A>,
    lost: &LostSpan,
) -> Result<(), AllocError>
    ensures tokens { OnOk result (out.new.tokens
        ≡ out.old.tokens ++ lost_tokens (lost_view lost.now)) }
    ensures before { out.new.before ≡ out.old.before }
{
    begin(out)?;
    push_hex(alloc, out, "traceId", lost.trace.as_slice())?;
    push_hex(alloc, out, "spanId", lost.span.as_slice())?;
    push_text(out, "reason", reason_of(lost.loss))?;
    push_status(out, lost.loss)?;
    end(out)?;
    Ok(())
}

/// Writes lost spans.
fn push_all_lost<A: Allocator + Copy>(
    alloc: A,
    out: &mut Writer<A>,
    spans: &[LostSpan],
) -> Result<(), AllocError>
    ensures tokens { OnOk result (out.new.tokens
        ≡ out.old.tokens ++ flat_map lost_tokens (map lost_view spans.now)) }
    ensures before { out.new.before ≡ out.old.before }
{
    for lost in spans {
        push_lost(alloc, out, lost)?;
    }
    Ok(())
}

/// Lost spans as JSON (profile): an object whose member `lost` has an object for each of them, in
/// order, with the members `traceId` and `spanId` (hexadecimal), `reason` (`refused`, `bad-reply`,
/// `attempts` or `abandoned`), and where it was refused `status` (a number).
///
/// # Errors
///
/// `AllocError` where the text could not be stored.
#[tactic(auto, unfolding(crate::specs::Lost::list_tokens))]
pub fn write_lost<A: Allocator + Copy>(
    alloc: A,
    spans: &[LostSpan],
) -> Result<Vec<u8, A>, AllocError>
    ensures { IfOk result (λ text. tokens text.items ≡ list_tokens (map lost_view spans.now)) }
{
    let mut out = Writer::new(Vec::new(alloc));
    begin(&mut out)?;
    begin_list(&mut out, "lost")?;
    push_all_lost(alloc, &mut out, spans)?;
    end_list(&mut out)?;
    end(&mut out)?;
    Ok(out.into_inner())
}
