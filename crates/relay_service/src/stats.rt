//! How it is shown to programs what became of what was received.

ghost use Rattle.std.specs.Prelude.{◌≡◌, ◌++◌, IfOk, OnOk};
ghost use Rattle.json.specs.Lex.{tokens};
ghost use Rattle.relay_service.specs.Stats.{amount_members, stats_tokens};

use json::Writer;
use otlp_json::field::{begin, begin_member, end, push_number};
use relay_queue::{Amounts, Report};
use std::alloc::{AllocError, Allocator};

/// Writes amounts.
#[tactic(auto, unfolding(crate::specs::Stats::amount_members))]
fn push_amounts<A: Allocator>(
    out: &mut Writer<A>,
    name: &str,
    amounts: &Amounts,
) -> Result<(), AllocError>
    ensures tokens { OnOk result (out.new.tokens
        ≡ out.old.tokens ++ amount_members name.now amounts.now) }
    ensures before { out.new.before ≡ out.old.before }
{
    begin_member(out, name)?;
    push_number(out, "received", amounts.received)?;
    push_number(out, "kept", amounts.kept)?;
    push_number(out, "delivered", amounts.delivered)?;
    push_number(out, "lost", amounts.lost)?;
    end(out)?;
    Ok(())
}

/// Writes a report.
fn push_report<A: Allocator>(out: &mut Writer<A>, report: &Report) -> Result<(), AllocError>
    ensures tokens { OnOk result (out.new.tokens ≡ out.old.tokens ++ stats_tokens report.now) }
    ensures before { out.new.before ≡ out.old.before }
{
    begin(out)?;
    push_amounts(out, "bodies", &report.bodies)?;
    push_amounts(out, "spans", &report.spans)?;
    push_number(out, "rejectedSpans", report.rejected_spans)?;
    push_number(out, "unwrittenNames", report.unwritten_names)?;
    push_number(out, "waitingBytes", report.waiting_bytes)?;
    push_number(out, "attempts", report.attempts)?;
    push_number(out, "refusals", report.refusals)?;
    end(out)?;
    Ok(())
}

/// What became of what was received, as JSON (profile): an object with the objects `bodies` and
/// `spans`, each with the numbers `received`, `kept`, `delivered` and `lost`, and with the numbers
/// `rejectedSpans`, `unwrittenNames`, `waitingBytes`, `attempts` and `refusals`.
///
/// # Errors
///
/// `AllocError` where the text could not be stored.
pub fn write_stats<A: Allocator + Copy>(alloc: A, report: &Report) -> Result<Vec<u8, A>, AllocError>
    ensures { IfOk result (λ text. tokens text.items ≡ stats_tokens report.now) }
{
    let mut out = Writer::new(Vec::new(alloc));
    push_report(&mut out, report)?;
    Ok(out.into_inner())
}
