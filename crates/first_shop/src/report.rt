//! What is printed.
use crate::site::Name;
use anyhow::{Context, Result, ensure};
use otlp_read::{Span, Triple, read_request};
use std::alloc::Global;
use std::io::Write;
use trace_kit::queue::{DropCounts, Totals};
use trace_tree::{TreeSpan, arrange, write_tree};

/// How many columns a bar has at most.
const WIDTH: usize = 40;

/// The code of a status that is an error (opentelemetry-proto, trace.proto, "StatusCode").
const STATUS_CODE_ERROR: i32 = 2;

/// The code of a server's span (opentelemetry-proto, trace.proto, "SpanKind").
const SPAN_KIND_SERVER: i32 = 2;

/// What became of the requests and the spans of a service.
#[derive(Drop)]
pub struct Balance {
    pub name: Name,
    pub answered: u64,
    pub untraced: u64,
    pub ended: u64,
    pub totals: Totals,
}

/// These bodies one after the other, which are one body (Protocol Buffers encoding, "Last One
/// Wins": the items of repeated fields are concatenated).
fn joined(alloc: Global, bodies: &[Vec<u8>]) -> Result<Vec<u8>> {
    let mut all = Vec::new(alloc);
    for body in bodies {
        all.extend_from_slice(body)?;
    }
    Ok(all)
}

/// Whether the parent of a span is elsewhere, or it has none.
fn is_root(triples: &[Triple<'_>], span: &Span) -> bool {
    for triple in triples {
        let other = triple.span;
        if other.trace_id == span.trace_id && other.span_id == span.parent_span_id {
            return false;
        }
    }
    true
}

/// How many spans are of a server, of how many traces they are, if those of a trace are together,
/// and how many are roots.
fn count_all(triples: &[Triple<'_>]) -> (u64, u64, u64) {
    let (mut servers, mut traces, mut roots) = (0u64, 0u64, 0u64);
    let mut trace: &[u8] = &[];
    for triple in triples {
        let span = triple.span;
        servers = servers.saturating_add(u64::from(span.kind == SPAN_KIND_SERVER));
        traces = traces.saturating_add(u64::from(span.trace_id.as_slice() != trace));
        roots = roots.saturating_add(u64::from(is_root(triples, span)));
        trace = span.trace_id.as_slice();
    }
    (servers, traces, roots)
}

/// Whether a span is an error.
fn is_error(span: &Span) -> bool {
    span.status.code == STATUS_CODE_ERROR
}

/// A span, as a tree has it.
fn tree_span(span: &Span) -> TreeSpan<'_> {
    TreeSpan {
        span_id: span.span_id.as_slice(),
        parent_span_id: span.parent_span_id.as_slice(),
        name: span.name.as_str(),
        start_time_unix_nano: span.start_time_unix_nano,
        end_time_unix_nano: span.end_time_unix_nano,
        is_error: is_error(span),
    }
}

/// The spans of a trace, as a tree has them.
fn trace_of<'a>(
    alloc: Global,
    triples: &[Triple<'a>],
    trace_id: &[u8],
) -> Result<Vec<TreeSpan<'a>>> {
    let mut trace = Vec::new(alloc);
    for triple in triples {
        if triple.span.trace_id.as_slice() == trace_id {
            trace.push(tree_span(triple.span))?;
        }
    }
    Ok(trace)
}

/// The first span that is an error, or the first one where none is.
fn shown_of<'a>(triples: &[Triple<'a>]) -> Option<&'a Span> {
    for triple in triples {
        if is_error(triple.span) {
            return Some(triple.span);
        }
    }
    Some(triples.first()?.span)
}

/// Writes the trace of the first span that is an error, or of the first one where none is.
fn write_trace<W: Write>(output: &mut W, alloc: Global, triples: &[Triple<'_>]) -> Result<()> {
    let shown = shown_of(triples).context("the collector has no span")?;
    let trace = trace_of(alloc, triples, &shown.trace_id)?;
    let rows = arrange(alloc, &trace)?;
    let mut tree = String::new(alloc);
    write_tree(&mut tree, &trace, &rows, WIDTH)?;
    Ok(writeln!(output, "{tree}")?)
}

/// How many spans were dropped, for whatever reason.
fn all_drops(drops: DropCounts) -> u64 {
    drops
        .queue_full
        .saturating_add(drops.encode_memory)
        .saturating_add(drops.too_large)
        .saturating_add(drops.abandoned)
}

/// Writes what became of the spans of a service.
fn write_balance<W: Write>(output: &mut W, balance: &Balance) -> Result<()> {
    let (name, ended, totals) = (balance.name.as_str(), balance.ended, balance.totals);
    let (dropped, lost, left) = (all_drops(totals.dropped), totals.lost, totals.left);
    let delivered = totals.handed.saturating_sub(lost);
    let sum = delivered
        .saturating_add(dropped)
        .saturating_add(lost)
        .saturating_add(left);
    ensure!(
        sum == ended,
        "{name}: {ended} spans ended, but {sum} are accounted for"
    );
    let (answered, untraced) = (balance.answered, balance.untraced);
    write!(
        output,
        "{name}: {answered} requests, {untraced} of them untraced; "
    )?;
    writeln!(
        output,
        "ended {ended} = delivered {delivered} + dropped {dropped} + lost {lost} + left {left}"
    )?;
    Ok(())
}

/// Writes what became of the spans of each service.
pub fn write_balances<W: Write>(output: &mut W, balances: &[Balance]) -> Result<()> {
    for balance in balances {
        write_balance(output, balance)?;
    }
    Ok(())
}

/// Writes all, by the bodies that the collector has, and by what the services say.
pub fn write_report<W: Write>(
    output: &mut W,
    alloc: Global,
    bodies: &[Vec<u8>],
    balances: &[Balance],
) -> Result<()> {
    let request = read_request(alloc, &joined(alloc, bodies)?)?;
    let mut triples = request.triples()?;
    triples.sort_by(|a, b| { a.span.trace_id.as_slice().cmp(b.span.trace_id.as_slice()) })?;
    let (count, (servers, traces, roots)) = (triples.len(), count_all(&triples));
    writeln!(
        output,
        "The collector took {count} spans, {servers} of them of a server, in {traces} traces."
    )?;
    writeln!(
        output,
        "The traces have {roots} roots, and are whole if each has one. One of them:\n"
    )?;
    write_trace(output, alloc, &triples)?;
    write_balances(output, balances)
}
