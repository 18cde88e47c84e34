//! The lines of a span.

ghost use Rattle.std.specs.Prelude.{◌≡◌, ◌∷◌, ◌++◌, [], OnOk, codes, decimal, string_bytes};
ghost use Rattle.otlp_read.specs.Resources.{resource_view, scope_view};
ghost use Rattle.otlp_read.specs.Spans.{event_view, events_view, link_view, links_view, span_view};
ghost use Rattle.otlp_read.specs.Spans.{status_view};
ghost use Rattle.otlp_read.specs.Triples.{triple_view};
ghost use Rattle.otlp_read.specs.Values.{pair_view, pairs_view};
ghost use Rattle.std.specs.List.{flat_map};
ghost use Rattle.otlp_collector.specs.Lines.{bytes_word, end_lines, event_lines, flags_line};
ghost use Rattle.otlp_collector.specs.Lines.{link_lines, pair_line, pair_lines, part_lines};
ghost use Rattle.otlp_collector.specs.Lines.{resource_lines, scope_lines, span_line, status_line};
ghost use Rattle.otlp_collector.specs.Lines.{text_word, triple_lines};

use crate::value::push_value;
use crate::words::{push_bytes, push_text};
use otlp_ids::OutOfMemory;
use otlp_read::{AnyValue, Event, InstrumentationScope, Link, Resource, Span, Status, Triple};
use std::alloc::Allocator;

/// Appends the line of a pair, after the word of what it belongs to.
fn push_pair_line<A: Allocator + Copy>(
    out: &mut String<A>,
    name: &str,
    pair: &(String<A>, AnyValue<A>),
) -> Result<(), OutOfMemory>
    ensures { OnOk result (string_bytes out.new
        ≡ string_bytes out.old ++ pair_line name.now (pair_view pair.now)) }
{
    let (key, value) = pair;
    write!(out, "{name} ")?;
    push_text(out, key)?;
    out.push(' ')?;
    push_value(out, value)?;
    Ok(out.push('\n')?)
}

/// Appends the lines of pairs, each after the word of what they belong to.
fn push_pair_lines<A: Allocator + Copy>(
    out: &mut String<A>,
    name: &str,
    pairs: &[(String<A>, AnyValue<A>)],
) -> Result<(), OutOfMemory>
    ensures { OnOk result (string_bytes out.new
        ≡ string_bytes out.old ++ pair_lines name.now (pairs_view pairs.now)) }
{
    for pair in pairs {
        push_pair_line(out, name, pair)?;
    }
    Ok(())
}

/// Appends flags by eight hexadecimal digits, after the word of their line, unless they are 0.
fn push_flags<A: Allocator + Copy>(
    out: &mut String<A>,
    name: &str,
    flags: u32,
) -> Result<(), OutOfMemory>
    ensures { OnOk result (string_bytes out.new
        ≡ string_bytes out.old ++ flags_line name.now flags) }
{
    if flags == 0 {
        return Ok(());
    }
    let digits = hex::encode(*out.allocator(), flags.to_be_bytes())?;
    write!(out, "{name} ")?;
    out.push_str(&digits)?;
    Ok(out.push('\n')?)
}

/// Appends the lines of a resource, with its schema URL.
fn push_resource<A: Allocator + Copy>(
    out: &mut String<A>,
    resource: &Resource<A>,
    schema_url: &str,
) -> Result<(), OutOfMemory>
    ensures { OnOk result (string_bytes out.new
        ≡ string_bytes out.old ++ resource_lines (resource_view resource.now) schema_url.now) }
{
    write!(out, "resource {} ", resource.dropped_attributes_count)?;
    push_text(out, schema_url)?;
    out.push('\n')?;
    push_pair_lines(out, "rattr", &resource.attributes)
}

/// Appends the name, the version and the schema URL of a scope, after the word of its line.
fn push_scope_texts<A: Allocator + Copy>(
    out: &mut String<A>,
    scope: &InstrumentationScope<A>,
    schema_url: &str,
) -> Result<(), OutOfMemory>
    ensures { OnOk result (string_bytes out.new ≡ string_bytes out.old ++ (codes "scope"
        ++ 32 ∷ (text_word (string_bytes scope.now.name)
        ++ 32 ∷ (text_word (string_bytes scope.now.version)
        ++ 32 ∷ text_word schema_url.now)))) }
{
    out.push_str("scope ")?;
    push_text(out, &scope.name)?;
    out.push(' ')?;
    push_text(out, &scope.version)?;
    out.push(' ')?;
    push_text(out, schema_url)
}

/// Appends the lines of a scope, with its schema URL.
fn push_scope<A: Allocator + Copy>(
    out: &mut String<A>,
    scope: &InstrumentationScope<A>,
    schema_url: &str,
) -> Result<(), OutOfMemory>
    ensures { OnOk result (string_bytes out.new
        ≡ string_bytes out.old ++ scope_lines (scope_view scope.now) schema_url.now) }
{
    push_scope_texts(out, scope, schema_url)?;
    writeln!(out, " {}", scope.dropped_attributes_count)?;
    push_pair_lines(out, "sattr", &scope.attributes)
}

/// Appends the lines of an event.
fn push_event<A: Allocator + Copy>(out: &mut String<A>, event: &Event<A>) -> Result<(), OutOfMemory>
    ensures { OnOk result (string_bytes out.new
        ≡ string_bytes out.old ++ event_lines (event_view event.now)) }
{
    write!(out, "event {} ", event.time_unix_nano)?;
    push_text(out, &event.name)?;
    writeln!(out, " {}", event.dropped_attributes_count)?;
    push_pair_lines(out, "eattr", &event.attributes)
}

/// Appends the lines of events.
fn push_events<A: Allocator + Copy>(
    out: &mut String<A>,
    events: &[Event<A>],
) -> Result<(), OutOfMemory>
    ensures { OnOk result (string_bytes out.new
        ≡ string_bytes out.old ++ flat_map event_lines (events_view events.now)) }
{
    for event in events {
        push_event(out, event)?;
    }
    Ok(())
}

/// Appends a word and the identifiers of a span, each with a space after it.
fn push_ids<A: Allocator + Copy>(
    out: &mut String<A>,
    name: &str,
    trace_id: &[u8],
    span_id: &[u8],
) -> Result<(), OutOfMemory>
    ensures { OnOk result (string_bytes out.new ≡ string_bytes out.old ++ (name.now
        ++ 32 ∷ (bytes_word trace_id.now ++ 32 ∷ (bytes_word span_id.now ++ 32 ∷ [])))) }
{
    write!(out, "{name} ")?;
    push_bytes(out, trace_id)?;
    out.push(' ')?;
    push_bytes(out, span_id)?;
    Ok(out.push(' ')?)
}

/// Appends the lines of a link.
fn push_link<A: Allocator + Copy>(out: &mut String<A>, link: &Link<A>) -> Result<(), OutOfMemory>
    ensures { OnOk result (string_bytes out.new
        ≡ string_bytes out.old ++ link_lines (link_view link.now)) }
{
    push_ids(out, "link", &link.trace_id, &link.span_id)?;
    push_text(out, &link.trace_state)?;
    writeln!(out, " {}", link.dropped_attributes_count)?;
    push_flags(out, "lflags", link.flags)?;
    push_pair_lines(out, "lattr", &link.attributes)
}

/// Appends the lines of links.
fn push_links<A: Allocator + Copy>(
    out: &mut String<A>,
    links: &[Link<A>],
) -> Result<(), OutOfMemory>
    ensures { OnOk result (string_bytes out.new
        ≡ string_bytes out.old ++ flat_map link_lines (links_view links.now)) }
{
    for link in links {
        push_link(out, link)?;
    }
    Ok(())
}

/// Appends the line of a status.
fn push_status<A: Allocator + Copy>(
    out: &mut String<A>,
    status: &Status<A>,
) -> Result<(), OutOfMemory>
    ensures { OnOk result (string_bytes out.new
        ≡ string_bytes out.old ++ status_line (status_view status.now)) }
{
    write!(out, "status {} ", status.code)?;
    push_text(out, &status.message)?;
    Ok(out.push('\n')?)
}

/// Appends the identifiers of a span and its trace state, after the word of its line.
fn push_context<A: Allocator + Copy>(out: &mut String<A>, span: &Span<A>) -> Result<(), OutOfMemory>
    ensures { OnOk result (string_bytes out.new ≡ string_bytes out.old ++ (codes "span"
        ++ 32 ∷ (bytes_word span.now.trace_id.items
        ++ 32 ∷ (bytes_word span.now.span_id.items
        ++ 32 ∷ (bytes_word span.now.parent_span_id.items
        ++ 32 ∷ text_word (string_bytes span.now.trace_state)))))) }
{
    push_ids(out, "span", &span.trace_id, &span.span_id)?;
    push_bytes(out, &span.parent_span_id)?;
    out.push(' ')?;
    push_text(out, &span.trace_state)
}

/// Appends the line that says what a span is.
fn push_span<A: Allocator + Copy>(out: &mut String<A>, span: &Span<A>) -> Result<(), OutOfMemory>
    ensures { OnOk result (string_bytes out.new
        ≡ string_bytes out.old ++ span_line (span_view span.now)) }
{
    push_context(out, span)?;
    write!(
        out,
        " {} {} {} ",
        span.kind, span.start_time_unix_nano, span.end_time_unix_nano,
    )?;
    push_text(out, &span.name)?;
    Ok(out.push('\n')?)
}

/// Appends the lines of the attributes and events of a span.
fn push_attributes_and_events<A: Allocator + Copy>(
    out: &mut String<A>,
    span: &Span<A>,
) -> Result<(), OutOfMemory>
    ensures { OnOk result (string_bytes out.new ≡ string_bytes out.old
        ++ (pair_lines (codes "attr") (pairs_view span.now.attributes.items)
        ++ flat_map event_lines (events_view span.now.events.items))) }
{
    push_pair_lines(out, "attr", &span.attributes)?;
    push_events(out, &span.events)
}

/// Appends the lines of the attributes, events and links of a span.
fn push_parts<A: Allocator + Copy>(out: &mut String<A>, span: &Span<A>) -> Result<(), OutOfMemory>
    ensures { OnOk result (string_bytes out.new
        ≡ string_bytes out.old ++ part_lines (span_view span.now)) }
{
    push_attributes_and_events(out, span)?;
    push_links(out, &span.links)
}

/// Appends the lines that say how many parts of a span were dropped, and what its status is.
fn push_end<A: Allocator + Copy>(out: &mut String<A>, span: &Span<A>) -> Result<(), OutOfMemory>
    ensures { OnOk result (string_bytes out.new
        ≡ string_bytes out.old ++ end_lines (span_view span.now)) }
{
    writeln!(
        out,
        "dropped {} {} {}",
        span.dropped_attributes_count, span.dropped_events_count, span.dropped_links_count,
    )?;
    push_status(out, &span.status)
}

/// Appends the lines of a span, with those of its resource and its scope after those that say what
/// it is.
pub(crate) fn push_triple<A: Allocator + Copy>(
    out: &mut String<A>,
    triple: &Triple<'_, A>,
) -> Result<(), OutOfMemory>
    ensures { OnOk result (string_bytes out.new
        ≡ string_bytes out.old ++ triple_lines (triple_view triple.now)) }
{
    push_span(out, triple.span)?;
    push_flags(out, "flags", triple.span.flags)?;
    push_resource(out, triple.resource, triple.resource_schema_url)?;
    push_scope(out, triple.scope, triple.scope_schema_url)?;
    push_parts(out, triple.span)?;
    push_end(out, triple.span)
}
