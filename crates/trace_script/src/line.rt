//! A line of a script by itself.

ghost use Rattle.std.specs.Prelude.{◌≡◌, map, ok_or};
ghost use Rattle.otlp_span.specs.Parts.{limits_view};
ghost use Rattle.batch_desk.specs.Views.{config_view};
ghost use Rattle.text_words.specs.Words.{Gives};
ghost use Rattle.trace_script.specs.Lines.{line_view, sampler_of, length_of, limits_of, words_line};
ghost use Rattle.trace_script.specs.Lines.{sampler_line, limits_line, resource_line, scope_line_of};
ghost use Rattle.trace_script.specs.Lines.{scope_line, scope_attribute_line_of};
ghost use Rattle.trace_script.specs.Lines.{scope_attribute_line, size_to, desk_of, desk_line};
ghost use Rattle.trace_script.specs.Lines.{max_body_line, entry, line_of};
ghost use Rattle.text_words.specs.declared.WordFault.TheVariants.{Bad};

use crate::outcome::parse_outcome;
use crate::sampler::SamplerName;
use crate::step::parse_step;
use crate::value::parse_pair;
use batch_desk::DeskConfig;
use otlp_span::SpanLimits;
use otlp_value::Value;
use retry_core::Outcome;
use span_ring::MAX_QUEUE;
use std::alloc::Allocator;
use std::str;
use text_words::{WordFault, generator_words, number, parts_of, small_number, text};
use trace_run::Step;

/// What a line says.
#[derive(Debug, Drop)]
pub(crate) enum Line<A: Allocator> {
    /// Further words of the generator.
    Words(Vec<u64, A>),
    /// The sampler.
    Sampler(SamplerName),
    /// The limits of spans.
    Limits(SpanLimits),
    /// The sizes and the delay of the batch processor.
    Desk(DeskConfig),
    /// The greatest body, in bytes.
    MaxBody(usize),
    /// An attribute of the resource.
    Resource(String<A>, Value<A>),
    /// A scope without attributes.
    Scope {
        /// Its number.
        number: u32,
        /// Its name.
        name: String<A>,
        /// Its version, or an empty text.
        version: String<A>,
        /// The schema that its telemetry follows, or an empty text.
        schema_url: String<A>,
    },
    /// An attribute of a scope.
    ScopeAttribute {
        /// The number of the scope.
        number: u32,
        /// The attribute's key.
        key: String<A>,
        /// Its value.
        value: Value<A>,
    },
    /// What comes of an attempt to send a batch.
    Outcome(Outcome),
    /// A step.
    Step(Step<A>),
}

/// Reads a line that isn't empty, without its line feed: words, with one space between them.
#[tactic(auto, using(crate::proofs::Lines::no_name), unfolding(crate::specs::Lines::line_of))]
pub(crate) fn parse_line<A: Allocator + Copy>(alloc: A, line: &[u8]) -> Result<Line<A>, WordFault>
    ensures { Gives line_view result (line_of line.now) }
{
    let words = parts_of(alloc, line, b' ')?;
    let Some((name, arguments)) = words.split_first() else {
        return Err(WordFault::Bad);
    };
    match str::from_utf8(name) {
        Ok(name) => parse_entry(alloc, name, arguments),
        Err(_) => Err(WordFault::Bad),
    }
}

/// Reads a line of this name and these words after it.
#[tactic(auto, unfolding(crate::specs::Lines::entry))]
fn parse_entry<A: Allocator + Copy>(
    alloc: A,
    name: &str,
    arguments: &[&[u8]],
) -> Result<Line<A>, WordFault>
    ensures { Gives line_view result (entry name.now (map (λ w. w.now) arguments.now)) }
{
    match name {
        "words" => parse_words(alloc, arguments),
        "sampler" => parse_sampler(arguments),
        "limits" => parse_limits(arguments),
        "desk" => parse_desk(arguments),
        "max" => parse_max_body(arguments),
        "resource" => parse_resource(alloc, arguments),
        "scope" => parse_scope(alloc, arguments),
        "sattr" => parse_scope_attribute(alloc, arguments),
        "answer" => Ok(Line::Outcome(parse_outcome(arguments)?)),
        _ => Ok(Line::Step(parse_step(alloc, name, arguments)?)),
    }
}

/// `words W ..`
#[tactic(auto, using(crate::proofs::Lines::some_words), unfolding(crate::specs::Lines::words_line))]
fn parse_words<A: Allocator>(alloc: A, arguments: &[&[u8]]) -> Result<Line<A>, WordFault>
    ensures { Gives line_view result (words_line (map (λ w. w.now) arguments.now)) }
{
    if arguments.is_empty() {
        return Err(WordFault::Bad);
    }
    Ok(Line::Words(generator_words(alloc, arguments)?))
}

/// `sampler NAME`
#[tactic(auto, unfolding(crate::specs::Lines::sampler_line))]
fn parse_sampler<A: Allocator>(arguments: &[&[u8]]) -> Result<Line<A>, WordFault>
    ensures { Gives line_view result (sampler_line (map (λ w. w.now) arguments.now)) }
{
    let [name] = arguments else {
        return Err(WordFault::Bad);
    };
    Ok(Line::Sampler(parse_sampler_name(name)?))
}

/// `limits A E L EA LA V`
#[tactic(auto, unfolding(crate::specs::Lines::limits_line))]
fn parse_limits<A: Allocator>(arguments: &[&[u8]]) -> Result<Line<A>, WordFault>
    ensures { Gives line_view result (limits_line (map (λ w. w.now) arguments.now)) }
{
    let [
        attributes,
        events,
        links,
        event_attributes,
        link_attributes,
        value_length,
    ] = arguments
    else {
        return Err(WordFault::Bad);
    };
    let limits = parse_span_limits(
        attributes,
        events,
        links,
        event_attributes,
        link_attributes,
        value_length,
    )?;
    Ok(Line::Limits(limits))
}

/// The limits of spans, a word for each.
#[tactic(auto, unfolding(crate::specs::Lines::limits_of))]
fn parse_span_limits(
    attributes: &[u8],
    events: &[u8],
    links: &[u8],
    event_attributes: &[u8],
    link_attributes: &[u8],
    value_length: &[u8],
) -> Result<SpanLimits, WordFault>
    ensures { Gives limits_view result
        (limits_of attributes.now events.now links.now event_attributes.now link_attributes.now
        value_length.now) }
{
    Ok(SpanLimits {
        max_attributes_per_span: small_number(attributes)?,
        max_events_per_span: small_number(events)?,
        max_links_per_span: small_number(links)?,
        max_attributes_per_event: small_number(event_attributes)?,
        max_attributes_per_link: small_number(link_attributes)?,
        max_attribute_value_length: parse_length(value_length)?,
    })
}

/// `none`, or the greatest length of a text.
#[tactic(auto, unfolding(crate::specs::Lines::length_of))]
fn parse_length(word: &[u8]) -> Result<Option<u32>, WordFault>
    ensures { result ≡ ok_or (length_of word.now) Bad }
{
    match word {
        b"none" => Ok(None),
        _ => Ok(Some(small_number(word)?)),
    }
}

/// `resource KEY VALUE`
#[tactic(auto, unfolding(crate::specs::Lines::resource_line))]
fn parse_resource<A: Allocator + Copy>(alloc: A, arguments: &[&[u8]]) -> Result<Line<A>, WordFault>
    ensures { Gives line_view result (resource_line (map (λ w. w.now) arguments.now)) }
{
    let [key, value] = arguments else {
        return Err(WordFault::Bad);
    };
    let (key, value) = parse_pair(alloc, key, value)?;
    Ok(Line::Resource(key, value))
}

/// `scope N NAME VERSION SCHEMA`
#[tactic(auto, unfolding(crate::specs::Lines::scope_line))]
fn parse_scope<A: Allocator + Copy>(alloc: A, arguments: &[&[u8]]) -> Result<Line<A>, WordFault>
    ensures { Gives line_view result (scope_line (map (λ w. w.now) arguments.now)) }
{
    let [number, name, version, schema_url] = arguments else {
        return Err(WordFault::Bad);
    };
    parse_numbered_scope(alloc, number, name, version, schema_url)
}

/// A scope under its number, a word for each of its parts.
#[tactic(auto, unfolding(crate::specs::Lines::scope_line_of))]
fn parse_numbered_scope<A: Allocator + Copy>(
    alloc: A,
    number: &[u8],
    name: &[u8],
    version: &[u8],
    schema_url: &[u8],
) -> Result<Line<A>, WordFault>
    ensures { Gives line_view result
        (scope_line_of number.now name.now version.now schema_url.now) }
{
    let number = small_number(number)?;
    let name = text(alloc, name)?;
    let version = text(alloc, version)?;
    let schema_url = text(alloc, schema_url)?;
    Ok(Line::Scope {
        number,
        name,
        version,
        schema_url,
    })
}

/// `sattr N KEY VALUE`
#[tactic(auto, unfolding(crate::specs::Lines::scope_attribute_line))]
fn parse_scope_attribute<A: Allocator + Copy>(
    alloc: A,
    arguments: &[&[u8]],
) -> Result<Line<A>, WordFault>
    ensures { Gives line_view result (scope_attribute_line (map (λ w. w.now) arguments.now)) }
{
    let [number, key, value] = arguments else {
        return Err(WordFault::Bad);
    };
    parse_attribute_on(alloc, number, key, value)
}

/// An attribute of the scope with a number.
#[tactic(auto, unfolding(crate::specs::Lines::scope_attribute_line_of))]
fn parse_attribute_on<A: Allocator + Copy>(
    alloc: A,
    number: &[u8],
    key: &[u8],
    value: &[u8],
) -> Result<Line<A>, WordFault>
    ensures { Gives line_view result (scope_attribute_line_of number.now key.now value.now) }
{
    let number = small_number(number)?;
    let (key, value) = parse_pair(alloc, key, value)?;
    Ok(Line::ScopeAttribute { number, key, value })
}

/// `desk Q B D`
#[tactic(auto, unfolding(crate::specs::Lines::desk_line))]
fn parse_desk<A: Allocator>(arguments: &[&[u8]]) -> Result<Line<A>, WordFault>
    ensures { Gives line_view result (desk_line (map (λ w. w.now) arguments.now)) }
{
    let [queue, batch, delay] = arguments else {
        return Err(WordFault::Bad);
    };
    Ok(Line::Desk(parse_desk_config(queue, batch, delay)?))
}

/// The sizes and the delay of the batch processor, a word for each.
#[tactic(auto, unfolding(crate::specs::Lines::desk_of))]
fn parse_desk_config(queue: &[u8], batch: &[u8], delay: &[u8]) -> Result<DeskConfig, WordFault>
    ensures { Gives config_view result (desk_of queue.now batch.now delay.now) }
{
    let queue = parse_size(queue, MAX_QUEUE)?;
    let batch = parse_size(batch, queue)?;
    let delay_ms = small_number(delay)?;
    Ok(DeskConfig {
        queue,
        batch,
        delay_ms,
    })
}

/// `max N`
#[tactic(auto, unfolding(crate::specs::Lines::max_body_line))]
fn parse_max_body<A: Allocator>(arguments: &[&[u8]]) -> Result<Line<A>, WordFault>
    ensures { Gives line_view result (max_body_line (map (λ w. w.now) arguments.now)) }
{
    let [greatest] = arguments else {
        return Err(WordFault::Bad);
    };
    Ok(Line::MaxBody(number(greatest)? as usize))
}

/// A number from 1 to `greatest`.
#[tactic(auto, unfolding(crate::specs::Lines::size_to))]
fn parse_size(word: &[u8], greatest: usize) -> Result<usize, WordFault>
    ensures { result ≡ ok_or (size_to greatest word.now) Bad }
{
    let size = small_number(word)? as usize;
    if size == 0 || size > greatest {
        return Err(WordFault::Bad);
    }
    Ok(size)
}

/// `on`, `off` or `parent`
#[tactic(auto, unfolding(crate::specs::Lines::sampler_of))]
fn parse_sampler_name(word: &[u8]) -> Result<SamplerName, WordFault>
    ensures { result ≡ ok_or (sampler_of word.now) Bad }
{
    match word {
        b"on" => Ok(SamplerName::AlwaysOn),
        b"off" => Ok(SamplerName::AlwaysOff),
        b"parent" => Ok(SamplerName::ParentBased),
        _ => Err(WordFault::Bad),
    }
}
