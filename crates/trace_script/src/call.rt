//! The calls on a span.

ghost use Rattle.std.specs.Prelude.{map};
ghost use Rattle.otlp_span.specs.Parts.{call_view, status_view};
ghost use Rattle.text_words.specs.Words.{Gives};
ghost use Rattle.trace_script.specs.Calls.{attribute_call, call_of, described_status_of, event_call};
ghost use Rattle.trace_script.specs.Calls.{event_call_of, exception_call, exception_of, link_call};
ghost use Rattle.trace_script.specs.Calls.{name_call, plain_status_of, status_call};

use crate::context::parse_context;
use crate::value::{parse_pair, parse_pairs};
use otlp_span::{SpanCall, Status};
use std::alloc::Allocator;
use text_words::{WordFault, number, text};

/// Reads a call of this name, and the words after the span's number.
#[tactic(auto, unfolding(crate::specs::Calls::call_of))]
pub(crate) fn parse_call<A: Allocator + Copy>(
    alloc: A,
    name: &str,
    words: &[&[u8]],
) -> Result<SpanCall<A>, WordFault>
    ensures { Gives call_view result (call_of name.now (map (λ w. w.now) words.now)) }
{
    match name {
        "attr" => parse_attribute(alloc, words),
        "event" => parse_event(alloc, words),
        "exception" => parse_exception(alloc, words),
        "link" => parse_link(alloc, words),
        "status" => parse_status(alloc, words),
        "name" => parse_name(alloc, words),
        _ => Err(WordFault::Bad),
    }
}

/// `KEY VALUE`
#[tactic(auto, unfolding(crate::specs::Calls::attribute_call))]
fn parse_attribute<A: Allocator + Copy>(alloc: A, words: &[&[u8]]) -> Result<SpanCall<A>, WordFault>
    ensures { Gives call_view result (attribute_call (map (λ w. w.now) words.now)) }
{
    let [key, value] = words else {
        return Err(WordFault::Bad);
    };
    let (key, value) = parse_pair(alloc, key, value)?;
    Ok(SpanCall::SetAttribute(key, value))
}

/// `AT NAME PAIRS`
#[tactic(auto, unfolding(crate::specs::Calls::event_call))]
fn parse_event<A: Allocator + Copy>(alloc: A, words: &[&[u8]]) -> Result<SpanCall<A>, WordFault>
    ensures { Gives call_view result (event_call (map (λ w. w.now) words.now)) }
{
    let [timestamp, name, pairs @ ..] = words else {
        return Err(WordFault::Bad);
    };
    event(alloc, timestamp, name, pairs)
}

/// An event, a word for each of its parts.
#[tactic(auto, unfolding(crate::specs::Calls::event_call_of))]
fn event<A: Allocator + Copy>(
    alloc: A,
    timestamp: &[u8],
    name: &[u8],
    pairs: &[&[u8]],
) -> Result<SpanCall<A>, WordFault>
    ensures { Gives call_view result
        (event_call_of timestamp.now name.now (map (λ w. w.now) pairs.now)) }
{
    let timestamp = number(timestamp)?;
    let name = text(alloc, name)?;
    let attributes = parse_pairs(alloc, pairs)?;
    Ok(SpanCall::AddEvent {
        name,
        timestamp,
        attributes,
    })
}

/// `AT TYPE MESSAGE STACK PAIRS`
#[tactic(auto, unfolding(crate::specs::Calls::exception_call))]
fn parse_exception<A: Allocator + Copy>(alloc: A, words: &[&[u8]]) -> Result<SpanCall<A>, WordFault>
    ensures { Gives call_view result (exception_call (map (λ w. w.now) words.now)) }
{
    match words {
        [timestamp, exception_type, message, stacktrace, pairs @ ..] => {
            exception(alloc, timestamp, exception_type, message, stacktrace, pairs)
        }
        _ => Err(WordFault::Bad),
    }
}

/// An exception, a word for each of its parts.
#[tactic(auto, unfolding(crate::specs::Calls::exception_of))]
fn exception<A: Allocator + Copy>(
    alloc: A,
    timestamp: &[u8],
    exception_type: &[u8],
    message: &[u8],
    stacktrace: &[u8],
    pairs: &[&[u8]],
) -> Result<SpanCall<A>, WordFault>
    ensures { Gives call_view result
        (exception_of timestamp.now exception_type.now message.now stacktrace.now
        (map (λ w. w.now) pairs.now)) }
{
    let timestamp = number(timestamp)?;
    let exception_type = text(alloc, exception_type)?;
    let message = text(alloc, message)?;
    let stacktrace = text(alloc, stacktrace)?;
    let attributes = parse_pairs(alloc, pairs)?;
    Ok(SpanCall::RecordException {
        exception_type,
        message,
        stacktrace,
        timestamp,
        attributes,
    })
}

/// `TRACE SPAN FLAGS STATE PAIRS`
#[tactic(auto, unfolding(crate::specs::Calls::link_call))]
fn parse_link<A: Allocator + Copy>(alloc: A, words: &[&[u8]]) -> Result<SpanCall<A>, WordFault>
    ensures { Gives call_view result (link_call (map (λ w. w.now) words.now)) }
{
    let [trace, span, flags, state, pairs @ ..] = words else {
        return Err(WordFault::Bad);
    };
    let span_context = parse_context(alloc, false, trace, span, flags, state)?;
    let attributes = parse_pairs(alloc, pairs)?;
    Ok(SpanCall::AddLink {
        span_context,
        attributes,
    })
}

/// `unset`, `ok` or `error TEXT`
#[tactic(auto, unfolding(crate::specs::Calls::status_call))]
fn parse_status<A: Allocator>(alloc: A, words: &[&[u8]]) -> Result<SpanCall<A>, WordFault>
    ensures { Gives call_view result (status_call (map (λ w. w.now) words.now)) }
{
    match words {
        [name] => Ok(SpanCall::SetStatus(parse_plain_status(name)?)),
        [name, description] => {
            let status = parse_described_status(alloc, name, description)?;
            Ok(SpanCall::SetStatus(status))
        }
        _ => Err(WordFault::Bad),
    }
}

/// `unset` or `ok`
#[tactic(auto, unfolding(crate::specs::Calls::plain_status_of))]
fn parse_plain_status<A: Allocator>(name: &[u8]) -> Result<Status<A>, WordFault>
    ensures { Gives status_view result (plain_status_of name.now) }
{
    match name {
        b"unset" => Ok(Status::Unset),
        b"ok" => Ok(Status::Ok),
        _ => Err(WordFault::Bad),
    }
}

/// `error TEXT`
#[tactic(auto, unfolding(crate::specs::Calls::described_status_of))]
fn parse_described_status<A: Allocator>(
    alloc: A,
    name: &[u8],
    description: &[u8],
) -> Result<Status<A>, WordFault>
    ensures { Gives status_view result (described_status_of name.now description.now) }
{
    match name {
        b"error" => Ok(Status::Error(text(alloc, description)?)),
        _ => Err(WordFault::Bad),
    }
}

/// `TEXT`
#[tactic(auto, unfolding(crate::specs::Calls::name_call))]
fn parse_name<A: Allocator>(alloc: A, words: &[&[u8]]) -> Result<SpanCall<A>, WordFault>
    ensures { Gives call_view result (name_call (map (λ w. w.now) words.now)) }
{
    let [name] = words else {
        return Err(WordFault::Bad);
    };
    Ok(SpanCall::UpdateName(text(alloc, name)?))
}
