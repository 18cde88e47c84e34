//! What is printed.
use anyhow::{Context, Result, ensure};
use otlp_read::{Span, Triple, read_request};
use std::alloc::Global;
use std::io::{self, Write};
use trace_kit::queue::{DropCounts, Entry, NewestNames, Totals};
use trace_tree::{TreeSpan, arrange, write_tree};

/// How many columns a bar has at most.
const WIDTH: usize = 40;

/// The code of a status that is an error (opentelemetry-proto, trace.proto, "StatusCode").
const STATUS_CODE_ERROR: i32 = 2;

/// A span, as a tree has it.
fn tree_span(span: &Span) -> TreeSpan<'_> {
    TreeSpan {
        span_id: span.span_id.as_slice(),
        parent_span_id: span.parent_span_id.as_slice(),
        name: span.name.as_str(),
        start_time_unix_nano: span.start_time_unix_nano,
        end_time_unix_nano: span.end_time_unix_nano,
        is_error: span.status.code == STATUS_CODE_ERROR,
    }
}

/// The spans of the first trace.
fn first_trace<'a>(alloc: Global, triples: &[Triple<'a>]) -> Result<Vec<TreeSpan<'a>>> {
    let first = triples.first().context("the collector has no span")?;
    let mut trace = Vec::new(alloc);
    for triple in triples {
        if triple.span.trace_id == first.span.trace_id {
            trace.push(tree_span(triple.span))?;
        }
    }
    Ok(trace)
}

/// Writes how many spans the collector took by this body, and the trace of the first one as a tree.
fn write_trace<W: Write>(output: &mut W, alloc: Global, body: &[u8]) -> Result<()> {
    let request = read_request(alloc, body)?;
    let triples = request.triples()?;
    let trace = first_trace(alloc, &triples)?;
    let rows = arrange(alloc, &trace)?;
    let mut tree = String::new(alloc);
    write_tree(&mut tree, &trace, &rows, WIDTH)?;
    let count = triples.len();
    writeln!(
        output,
        "The collector took {count} spans. The first trace, as it was read:\n"
    )?;
    Ok(writeln!(output, "{tree}")?)
}

/// How many spans were dropped, for whatever reason.
fn all_drops(drops: DropCounts) -> u64 {
    drops
        .queue_full
        .saturating_add(drops.encode_memory)
        .saturating_add(drops.too_large)
        .saturating_add(drops.abandoned)
}

/// Writes what became of so many spans that ended.
fn write_sum<W: Write>(output: &mut W, ended: u64, totals: Totals) -> Result<()> {
    let (dropped, lost, left) = (all_drops(totals.dropped), totals.lost, totals.left);
    let delivered = totals.handed.saturating_sub(lost);
    let given = delivered.saturating_add(dropped);
    let sum = given.saturating_add(lost).saturating_add(left);
    ensure!(
        sum == ended,
        "{ended} spans ended, but {sum} are accounted for"
    );
    write!(
        output,
        "ended {ended} = delivered {delivered} + dropped {dropped}"
    )?;
    if lost > 0 || left > 0 {
        write!(output, " + lost {lost} + left {left}")?;
    }
    Ok(writeln!(output, "\n")?)
}

/// Writes the name of a span that wasn't delivered, with the reason.
fn write_name<W: Write>(output: &mut W, name: &Entry) -> io::Result<()> {
    let (trace, span, reason) = (name.trace, name.span, name.reason);
    writeln!(output, "  trace {trace}  span {span}  {reason}")
}

/// Writes the names of spans that weren't delivered: of those that were dropped, then of those that
/// were lost.
fn write_names<W: Write>(output: &mut W, names: &NewestNames) -> io::Result<()> {
    for name in names.dropped() {
        write_name(output, name)?;
    }
    for name in names.lost() {
        write_name(output, name)?;
    }
    Ok(())
}

/// Writes that the first body came again, if it did with the same bytes.
fn write_retry<W: Write>(output: &mut W, first: &[u8], taken: &[u8]) -> Result<()> {
    ensure!(
        taken.starts_with(first),
        "the first batch did not come again"
    );
    let size = first.len();
    write!(output, "\nThe collector answered 503 to the first batch. ")?;
    writeln!(output, "The worker sent it again: the same {size} bytes.\n")?;
    Ok(())
}

/// Writes all: of so many spans that ended, by the service's counts and names, by the body that the
/// collector answered 503, and by those that it took after it.
pub fn write_report<W: Write>(
    output: &mut W,
    alloc: Global,
    ended: u64,
    totals: Totals,
    names: &NewestNames,
    first: &[u8],
    taken: &[u8],
) -> Result<()> {
    write_trace(output, alloc, taken)?;
    write_sum(output, ended, totals)?;
    writeln!(
        output,
        "Each span that was not delivered is named, with the reason:"
    )?;
    write_names(output, names)?;
    write_retry(output, first, taken)?;
    writeln!(
        output,
        "Next: docs/GUIDE.md traces a service of your own; make tour shows more."
    )?;
    Ok(output.flush()?)
}
