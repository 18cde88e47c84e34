//! The attributes of a resource.

ghost use Rattle.std.specs.Prelude.{◌≡◌, IfOk, OnOk, map};
ghost use Rattle.model_span.specs.Attributes.{SetsPair, attribute_list};
ghost use Rattle.otlp_value.specs.Value.{attributes_view};
ghost use Rattle.otel_settings.specs.Attributes as spec;
ghost use Rattle.otel_settings.specs.Attributes.{attribute_of};
ghost use Rattle.otel_settings.specs.ResourcePairs.{pairs_view};

use otlp_ids::OutOfMemory;
use otlp_value::{AttributeList, Limits, Value};
use std::alloc::Allocator;

/// Sets a text under a key.
fn set_text<A: Allocator + Copy>(
    alloc: A,
    list: &mut AttributeList<A>,
    key: &str,
    text: &str,
) -> Result<(), OutOfMemory>
    ensures { OnOk result (SetsPair (attribute_of (key.now, text.now)) list.old list.new) }
{
    let key = String::from_str(alloc, key)?;
    let value = Value::text(alloc, text)?;
    list.set(key, value)
}

/// The list in which these pairs were set, each value as a text.
fn list_of<A: Allocator + Copy>(
    alloc: A,
    pairs: &[(String<A>, String<A>)],
) -> Result<AttributeList<A>, OutOfMemory>
    ensures { IfOk result (λ list. list
        ≡ attribute_list spec.no_limits (map attribute_of (pairs_view pairs.now))) }
{
    let limits = Limits {
        count: u32::MAX,
        value_length: None,
    };
    let mut list = AttributeList::new(alloc, limits);
    for (key, text) in pairs {
        set_text(alloc, &mut list, key.as_str(), text.as_str())?;
    }
    Ok(list)
}

/// The attributes of a resource with these pairs, as `Resource::new` takes them. Of equal keys the
/// last value counts, in the place of the first: so a `service.name` that is appended to the pairs
/// wins over one among them, as that of `OTEL_SERVICE_NAME` does (OpenTelemetry Specification,
/// "Environment Variable Specification", "General SDK Configuration").
///
/// # Errors
///
/// `OutOfMemory` where memory was refused.
pub fn resource_attributes<A: Allocator + Copy>(
    alloc: A,
    pairs: &[(String<A>, String<A>)],
) -> Result<Vec<(String<A>, Value<A>), A>, OutOfMemory>
    ensures { IfOk result
        (λ all. attributes_view all.items ≡ spec.attributes_of (pairs_view pairs.now)) }
{
    let list = list_of(alloc, pairs)?;
    Ok(list.into_pairs())
}
