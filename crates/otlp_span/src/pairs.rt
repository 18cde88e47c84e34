//! The attributes of events, links and exceptions.
ghost use Rattle.std.specs.Prelude.{◌≡◌, IfOk, OnOk, string_bytes};
ghost use Rattle.model_span.specs.Attributes.{attribute_list};
ghost use Rattle.model_span.specs.Spans.{exception_pairs, pair_unless_empty};
ghost use Rattle.otlp_value.specs.Value.{attributes_view, limits_view};
ghost use Rattle.otlp_span.specs.Pairs.{SetsPairs};

use otlp_ids::OutOfMemory;
use otlp_value::{AttributeList, Limits, Value};
use std::alloc::Allocator;

/// What is kept of the attributes of an event or a link.
pub(crate) fn kept_attributes<A: Allocator + Copy>(
    alloc: A,
    limits: Limits,
    pairs: Vec<(String<A>, Value<A>), A>,
) -> Result<AttributeList<A>, OutOfMemory>
    ensures { IfOk result
        (λ list. list ≡ attribute_list (limits_view limits) (attributes_view pairs.items)) }
{
    let mut list = AttributeList::new(alloc, limits);
    set_all(&mut list, pairs)?;
    Ok(list)
}

/// What is kept of the attributes of an exception: its own, and then those of the caller, which
/// replace them.
pub(crate) fn exception_attributes<A: Allocator + Copy>(
    alloc: A,
    limits: Limits,
    exception_type: String<A>,
    message: String<A>,
    stacktrace: String<A>,
    pairs: Vec<(String<A>, Value<A>), A>,
) -> Result<AttributeList<A>, OutOfMemory>
    ensures { let set = exception_pairs (string_bytes exception_type) (string_bytes message)
        (string_bytes stacktrace) (attributes_view pairs.items) in
        IfOk result (λ list. list ≡ attribute_list (limits_view limits) set) }
{
    let mut list = AttributeList::new(alloc, limits);
    set_text(alloc, &mut list, "exception.type", exception_type)?;
    set_text(alloc, &mut list, "exception.message", message)?;
    set_text(alloc, &mut list, "exception.stacktrace", stacktrace)?;
    set_all(&mut list, pairs)?;
    Ok(list)
}

/// Sets a text under its key where it isn't empty.
fn set_text<A: Allocator + Copy>(
    alloc: A,
    list: &mut AttributeList<A>,
    key: &str,
    text: String<A>,
) -> Result<(), OutOfMemory>
    ensures { OnOk result
        (SetsPairs (pair_unless_empty key.now (string_bytes text)) list.old list.new) }
{
    if text.is_empty() {
        return Ok(());
    }
    list.set(String::from_str(alloc, key)?, Value::Text(text))
}

/// Sets pairs one after the other.
pub(crate) fn set_all<A: Allocator>(
    list: &mut AttributeList<A>,
    pairs: Vec<(String<A>, Value<A>), A>,
) -> Result<(), OutOfMemory>
    ensures { OnOk result (SetsPairs (attributes_view pairs.items) list.old list.new) }
{
    for (key, value) in pairs {
        list.set(key, value)?;
    }
    Ok(())
}
