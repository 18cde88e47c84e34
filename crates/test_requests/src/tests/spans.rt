//! Spans as lines.
use otlp_span::{SpanData, Status};
use std::alloc::Global;
use std::fmt::Write;
use std::test::Fail;

/// Adds the line of a span: its name, its kind, its identifier, its parent's, its status, its
/// attributes, its events, how many links it has.
fn push_span(lines: &mut String, span: &SpanData) -> Result<(), Fail> {
    let id = span.context().span;
    write!(lines, "{} {:?} {id}", span.name(), span.kind())?;
    if let Some(parent) = span.parent_span_id() {
        write!(lines, " of {parent}")?;
    }
    if let Status::Error(_) = span.status() {
        write!(lines, " error")?;
    }
    for (key, value) in span.attributes() {
        write!(lines, " {key}={value:?}")?;
    }
    for event in span.events() {
        write!(lines, " at {}: {}", event.timestamp, event.name)?;
    }
    for link in span.links() {
        write!(lines, " to {}", link.span_context.span)?;
    }
    writeln!(lines)?;
    Ok(())
}

/// When each span starts and ends, in nanoseconds since 1970.
pub(crate) fn moments_of(alloc: Global, spans: &[SpanData]) -> Result<Vec<(u64, u64)>, Fail> {
    let mut moments = Vec::new(alloc);
    for span in spans {
        moments.push((span.start_time(), span.end_time()))?;
    }
    Ok(moments)
}

/// A line for each span.
pub(crate) fn lines_of(alloc: Global, spans: &[SpanData]) -> Result<String, Fail> {
    let mut lines = String::new(alloc);
    for span in spans {
        push_span(&mut lines, span)?;
    }
    Ok(lines)
}

/// A path of this many bytes after its slash.
pub(crate) fn long_path(alloc: Global, len: usize) -> Result<String, Fail> {
    let mut path = String::from_str(alloc, "/")?;
    for _ in 0..len {
        path.push_str("a")?;
    }
    Ok(path)
}
