//! Values of attributes.

ghost use Rattle.std.specs.Prelude.{OnOk, codes};
ghost use Rattle.view_pages.specs.Html.{Appends, Markup, Signed, Text, ◌▹◌, each};
ghost use Rattle.view_pages.specs.Values.{any_html, bytes_html, double_html, item_html, pair_html};

use crate::html::{push_digits, push_markup, push_text};
use otlp_ids::OutOfMemory;
use otlp_read::AnyValue;
use page_text::write_double;
use std::alloc::Allocator;

/// Appends a value.
#[cycle(value)]
pub(crate) fn push_value<A: Allocator + Copy>(
    out: &mut String<A>,
    value: &AnyValue<A>,
) -> Result<(), OutOfMemory>
    ensures { OnOk result (Appends out.old out.new (any_html value.now)) }
{
    match value {
        AnyValue::Empty => push_markup(out, "<i>no value</i>"),
        AnyValue::Text(text) => push_text(out, text),
        AnyValue::Bool(true) => push_markup(out, "true"),
        AnyValue::Bool(false) => push_markup(out, "false"),
        AnyValue::Int(number) => push_int(out, number),
        AnyValue::Double(bits) => push_double(out, *bits),
        AnyValue::Array(values) => push_array(out, values),
        AnyValue::Pairs(pairs) => push_list(out, pairs),
        AnyValue::Bytes(bytes) => push_bytes(out, bytes),
    }
}

/// Appends a whole number.
#[tactic(auto, unfolding(crate::specs::Html::html_bytes))]
fn push_int<A: Allocator>(out: &mut String<A>, number: &i64) -> Result<(), OutOfMemory>
    ensures { OnOk result (Appends out.old out.new (Signed number.now)) }
{
    Ok(write!(out, "{number}")?)
}

/// Appends the number that a double is.
#[tactic(auto, unfolding(crate::specs::Html::html_bytes))]
fn push_double<A: Allocator>(out: &mut String<A>, bits: u64) -> Result<(), OutOfMemory>
    ensures { OnOk result (Appends out.old out.new (double_html bits)) }
{
    Ok(write_double(out, bits)?)
}

/// Appends bytes.
#[tactic(auto, unfolding(crate::specs::Html::html_bytes))]
fn push_bytes<A: Allocator + Copy>(out: &mut String<A>, bytes: &[u8]) -> Result<(), OutOfMemory>
    ensures { OnOk result (Appends out.old out.new (bytes_html bytes.now)) }
{
    push_markup(out, "0x")?;
    push_digits(out, bytes)
}

/// Appends the values of an array.
#[cycle(value)]
#[tactic(auto, unfolding(crate::specs::Html::html_bytes))]
fn push_array<A: Allocator + Copy>(
    out: &mut String<A>,
    values: &[AnyValue<A>],
) -> Result<(), OutOfMemory>
    ensures { OnOk result (Appends out.old out.new
        (Markup (codes "<ul>") ▹ each item_html values.now ▹ Markup (codes "</ul>"))) }
{
    push_markup(out, "<ul>")?;
    for value in values {
        push_markup(out, "<li>")?;
        push_value(out, value)?;
    }
    push_markup(out, "</ul>")
}

/// Appends a key.
#[tactic(auto, unfolding(crate::specs::Html::html_bytes))]
fn push_key<A: Allocator>(out: &mut String<A>, key: &str) -> Result<(), OutOfMemory>
    ensures { OnOk result
        (Appends out.old out.new (Markup (codes "<dt>") ▹ Text key.now ▹ Markup (codes "<dd>"))) }
{
    push_markup(out, "<dt>")?;
    push_text(out, key)?;
    push_markup(out, "<dd>")
}

/// Appends pairs of a key and a value.
#[cycle(value)]
#[tactic(auto, unfolding(crate::specs::Html::html_bytes))]
pub(crate) fn push_list<A: Allocator + Copy>(
    out: &mut String<A>,
    pairs: &[(String<A>, AnyValue<A>)],
) -> Result<(), OutOfMemory>
    ensures { OnOk result (Appends out.old out.new
        (Markup (codes "<dl>") ▹ each pair_html pairs.now ▹ Markup (codes "</dl>"))) }
{
    push_markup(out, "<dl>")?;
    for (key, value) in pairs {
        push_key(out, key)?;
        push_value(out, value)?;
    }
    push_markup(out, "</dl>")
}
