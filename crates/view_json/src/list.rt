//! The list of traces, and what is counted.

ghost use Rattle.std.specs.Prelude.{◌≡◌, ◌∷◌, [], ◌++◌, IfOk, OnOk, map, string_bytes};
ghost use Rattle.std.specs.List.{flat_map};
ghost use Rattle.json.specs.Lex.{tokens};
ghost use Rattle.view_json.specs.Lists as spec;
ghost use Rattle.view_json.specs.Lists.{count_members, evicted_member, list_tokens, name_members};
ghost use Rattle.view_json.specs.Lists.{pending_member, span_counts, stats_tokens, summary_tokens};
ghost use Rattle.view_json.specs.Lists.{trace_counts, trace_token};
ghost use Rattle.otlp_json.specs.Seen.{text_member};

use json::Writer;
use otlp_json::field::{
    begin, begin_list, end, end_list, push_hex, push_long, push_number, push_text,
};
use std::alloc::{AllocError, Allocator};
use trace_lines::{Summary, front_of};

/// What is counted.
#[derive(Clone, Copy, Debug)]
pub struct Stats {
    /// How many spans were received.
    pub received: u64,
    /// How many of them are kept.
    pub kept: u64,
    /// How many of them were evicted.
    pub evicted: u64,
    /// How many traces are kept.
    pub traces: u64,
    /// How many traces were evicted.
    pub evicted_traces: u64,
    /// How many bytes are pending, where that is known: of requests that arrive or are read, and of
    /// answers that wait to go out.
    pub pending_bytes: Option<u64>,
}

/// The first 120 characters of a text, and a mark where it has more. Its memory doesn't grow with
/// the text.
#[tactic(auto, unfolding(crate::specs::Lists::short))]
fn short<A: Allocator>(alloc: A, text: &str) -> Result<String<A>, AllocError>
    ensures { IfOk result (λ short. string_bytes short ≡ spec.short text.now) }
{
    let mut front = front_of(alloc, text)?;
    if front.len() < text.len() {
        front.push_str("…")?;
    }
    Ok(front)
}

/// Writes a member whose value is a text that is cut.
fn push_short<A: Allocator + Copy>(
    alloc: A,
    out: &mut Writer<A>,
    name: &str,
    text: &str,
) -> Result<(), AllocError>
    ensures tokens { OnOk result (out.new.tokens
        ≡ out.old.tokens ++ text_member name.now (spec.short text.now)) }
    ensures before { out.new.before ≡ out.old.before }
{
    let short = short(alloc, text)?;
    push_text(out, name, &short)
}

/// Writes what a trace of the list is called.
#[tactic(auto, unfolding(crate::specs::Lists::name_members))]
fn push_names<A: Allocator + Copy>(
    alloc: A,
    out: &mut Writer<A>,
    summary: &Summary,
) -> Result<(), AllocError>
    ensures tokens { OnOk result (out.new.tokens ≡ out.old.tokens ++ name_members summary.now) }
    ensures before { out.new.before ≡ out.old.before }
{
    push_hex(alloc, out, "traceId", &summary.trace.to_be_bytes())?;
    push_short(alloc, out, "service", summary.service)?;
    push_short(alloc, out, "name", summary.name)?;
    Ok(())
}

/// Writes the time of a trace of the list, and what is counted of it.
#[tactic(auto, unfolding(crate::specs::Lists::count_members))]
fn push_counts<A: Allocator>(out: &mut Writer<A>, summary: &Summary) -> Result<(), AllocError>
    ensures tokens { OnOk result (out.new.tokens ≡ out.old.tokens ++ count_members summary.now) }
    ensures before { out.new.before ≡ out.old.before }
{
    push_long(out, "startTimeUnixNano", summary.start_time_unix_nano)?;
    push_long(out, "endTimeUnixNano", summary.end_time_unix_nano)?;
    push_number(out, "spans", summary.span_count)?;
    push_number(out, "errors", summary.error_count)?;
    Ok(())
}

/// Writes a trace of the list.
#[tactic(auto, unfolding(crate::specs::Lists::summary_tokens))]
fn push_summary<A: Allocator + Copy>(
    alloc: A,
    out: &mut Writer<A>,
    summary: &Summary,
) -> Result<(), AllocError>
    ensures tokens { OnOk result (out.new.tokens ≡ out.old.tokens ++ summary_tokens summary.now) }
    ensures before { out.new.before ≡ out.old.before }
{
    begin(out)?;
    push_names(alloc, out, summary)?;
    push_counts(out, summary)?;
    end(out)?;
    Ok(())
}

/// Writes the traces of the list.
fn push_summaries<A: Allocator + Copy>(
    alloc: A,
    out: &mut Writer<A>,
    summaries: &[Summary],
) -> Result<(), AllocError>
    ensures tokens { OnOk result (out.new.tokens
        ≡ out.old.tokens ++ flat_map summary_tokens summaries.now) }
    ensures before { out.new.before ≡ out.old.before }
{
    for summary in summaries {
        push_summary(alloc, out, summary)?;
    }
    Ok(())
}

/// The list of traces as JSON (profile): an object whose member `traces` has an object for each
/// trace, in order, with the members `traceId` (hexadecimal), `service`, `name`,
/// `startTimeUnixNano` and `endTimeUnixNano` (nanoseconds since 1970, their digits as a text),
/// `spans` and `errors` (numbers). Of a service and of a name the first 120 characters are written,
/// and `…` after them where there are more.
///
/// # Errors
///
/// `AllocError` where the text could not be stored.
#[tactic(auto, unfolding(crate::specs::Lists::list_tokens))]
pub fn write_traces<A: Allocator + Copy>(
    alloc: A,
    summaries: &[Summary],
) -> Result<Vec<u8, A>, AllocError>
    ensures { IfOk result (λ text. tokens text.items ≡ list_tokens summaries.now) }
{
    let mut out = Writer::new(Vec::new(alloc));
    begin(&mut out)?;
    begin_list(&mut out, "traces")?;
    push_summaries(alloc, &mut out, summaries)?;
    end_list(&mut out)?;
    end(&mut out)?;
    Ok(out.into_inner())
}

/// Writes what is counted of spans.
#[tactic(auto, unfolding(crate::specs::Lists::span_counts))]
fn push_span_counts<A: Allocator>(out: &mut Writer<A>, stats: &Stats) -> Result<(), AllocError>
    ensures tokens { OnOk result (out.new.tokens ≡ out.old.tokens ++ span_counts stats.now) }
    ensures before { out.new.before ≡ out.old.before }
{
    push_number(out, "received", stats.received)?;
    push_number(out, "kept", stats.kept)?;
    push_number(out, "evicted", stats.evicted)?;
    Ok(())
}

/// Writes what is counted of traces.
#[tactic(auto, unfolding(crate::specs::Lists::trace_counts))]
fn push_trace_counts<A: Allocator>(out: &mut Writer<A>, stats: &Stats) -> Result<(), AllocError>
    ensures tokens { OnOk result (out.new.tokens ≡ out.old.tokens ++ trace_counts stats.now) }
    ensures before { out.new.before ≡ out.old.before }
{
    push_number(out, "traces", stats.traces)?;
    push_number(out, "evictedTraces", stats.evicted_traces)?;
    Ok(())
}

/// Writes the identifier of a trace.
fn push_trace<A: Allocator + Copy>(
    alloc: A,
    out: &mut Writer<A>,
    trace: u128,
) -> Result<(), AllocError>
    ensures tokens { OnOk result (out.new.tokens ≡ out.old.tokens ++ trace_token trace ∷ []) }
    ensures before { out.new.before ≡ out.old.before }
{
    let digits = hex::encode(alloc, &trace.to_be_bytes())?;
    out.string(&digits)?;
    Ok(())
}

/// Writes the identifiers of traces.
fn push_traces<A: Allocator + Copy>(
    alloc: A,
    out: &mut Writer<A>,
    traces: &[u128],
) -> Result<(), AllocError>
    ensures tokens { OnOk result (out.new.tokens ≡ out.old.tokens ++ map trace_token traces.now) }
    ensures before { out.new.before ≡ out.old.before }
{
    for trace in traces {
        push_trace(alloc, out, *trace)?;
    }
    Ok(())
}

/// Writes the identifiers of the traces that were evicted last.
#[tactic(auto, unfolding(crate::specs::Lists::evicted_member))]
fn push_evicted<A: Allocator + Copy>(
    alloc: A,
    out: &mut Writer<A>,
    traces: &[u128],
) -> Result<(), AllocError>
    ensures tokens { OnOk result (out.new.tokens ≡ out.old.tokens ++ evicted_member traces.now) }
    ensures before { out.new.before ≡ out.old.before }
{
    begin_list(out, "lastEvicted")?;
    push_traces(alloc, out, traces)?;
    end_list(out)?;
    Ok(())
}

/// Writes how many bytes are pending, where that is known.
#[tactic(auto, unfolding(crate::specs::Lists::pending_member))]
fn push_pending<A: Allocator>(out: &mut Writer<A>, bytes: Option<u64>) -> Result<(), AllocError>
    ensures tokens { OnOk result (out.new.tokens ≡ out.old.tokens ++ pending_member bytes) }
    ensures before { out.new.before ≡ out.old.before }
{
    match bytes {
        Some(bytes) => push_number(out, "pendingBytes", bytes),
        None => Ok(()),
    }
}

/// What is counted, as JSON (profile): an object with the numbers `received`, `kept` and `evicted`
/// of spans, with `traces` and `evictedTraces` of traces, with `pendingBytes` where that is known,
/// and with the array `lastEvicted` of the traces of `last_evicted`, in its order: by their
/// identifiers, each 32 hexadecimal digits in lower case. The caller puts the trace that was
/// evicted last first.
///
/// # Errors
///
/// `AllocError` where the text could not be stored.
#[tactic(auto, unfolding(crate::specs::Lists::stats_tokens))]
pub fn write_stats<A: Allocator + Copy>(
    alloc: A,
    stats: &Stats,
    last_evicted: &[u128],
) -> Result<Vec<u8, A>, AllocError>
    ensures { IfOk result (λ text. tokens text.items
        ≡ stats_tokens stats.now last_evicted.now) }
{
    let mut out = Writer::new(Vec::new(alloc));
    begin(&mut out)?;
    push_span_counts(&mut out, stats)?;
    push_trace_counts(&mut out, stats)?;
    push_pending(&mut out, stats.pending_bytes)?;
    push_evicted(alloc, &mut out, last_evicted)?;
    end(&mut out)?;
    Ok(out.into_inner())
}
