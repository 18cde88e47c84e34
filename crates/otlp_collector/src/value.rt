//! The words of values.

ghost use Rattle.std.specs.Prelude.{◌≡◌, ◌++◌, OnOk, codes, map, string_bytes};
ghost use Rattle.otlp_collector.specs.Lines.{comma_before, listed, text_word};
ghost use Rattle.otlp_collector.specs.Words.{any_word, pair_word};

use crate::words::{push_bytes, push_text};
use otlp_ids::OutOfMemory;
use otlp_read::AnyValue;
use std::alloc::Allocator;

/// Appends a value.
#[cycle(value)]
pub(crate) fn push_value<A: Allocator + Copy>(
    out: &mut String<A>,
    value: &AnyValue<A>,
) -> Result<(), OutOfMemory>
    ensures { OnOk result (string_bytes out.new ≡ string_bytes out.old ++ any_word value.now) }
{
    match value {
        AnyValue::Empty => Ok(out.push_str("n:")?),
        AnyValue::Text(text) => {
            out.push_str("t:")?;
            push_text(out, text)
        }
        AnyValue::Bool(true) => Ok(out.push_str("b:true")?),
        AnyValue::Bool(false) => Ok(out.push_str("b:false")?),
        AnyValue::Int(number) => Ok(write!(out, "i:{number}")?),
        AnyValue::Double(bits) => {
            let digits = hex::encode(*out.allocator(), bits.to_be_bytes())?;
            Ok(write!(out, "d:{digits}")?)
        }
        AnyValue::Array(values) => push_array(out, values),
        AnyValue::Pairs(pairs) => push_pairs(out, pairs),
        AnyValue::Bytes(bytes) => {
            out.push_str("y:")?;
            push_bytes(out, bytes)
        }
    }
}

/// Appends what comes before the thing with this number among others, counted from 0: a comma,
/// unless it is the first one.
fn push_comma<A: Allocator>(out: &mut String<A>, at: usize) -> Result<(), OutOfMemory>
    ensures { OnOk result (string_bytes out.new ≡ string_bytes out.old ++ comma_before at) }
{
    if at > 0 {
        out.push(',')?;
    }
    Ok(())
}

/// Appends an array: its values with commas between them, in parentheses.
#[cycle(value)]
fn push_array<A: Allocator + Copy>(
    out: &mut String<A>,
    values: &[AnyValue<A>],
) -> Result<(), OutOfMemory>
    ensures { OnOk result (string_bytes out.new ≡ string_bytes out.old
        ++ (codes "a(" ++ (listed (map any_word values.now) ++ codes ")"))) }
{
    out.push_str("a(")?;
    for (at, value) in values.iter().enumerate() {
        push_comma(out, at)?;
        push_value(out, value)?;
    }
    Ok(out.push(')')?)
}

/// Appends a key and `=`, after a comma where it isn't the first one.
fn push_key<A: Allocator + Copy>(
    out: &mut String<A>,
    at: usize,
    key: &str,
) -> Result<(), OutOfMemory>
    ensures { OnOk result (string_bytes out.new
        ≡ string_bytes out.old ++ (comma_before at ++ (text_word key.now ++ codes "="))) }
{
    push_comma(out, at)?;
    push_text(out, key)?;
    Ok(out.push('=')?)
}

/// Appends a list of pairs: each key, `=` and its value, with commas between them, in parentheses.
#[cycle(value)]
fn push_pairs<A: Allocator + Copy>(
    out: &mut String<A>,
    pairs: &[(String<A>, AnyValue<A>)],
) -> Result<(), OutOfMemory>
    ensures { OnOk result (string_bytes out.new ≡ string_bytes out.old
        ++ (codes "m(" ++ (listed (map pair_word pairs.now) ++ codes ")"))) }
{
    out.push_str("m(")?;
    for (at, (key, value)) in pairs.iter().enumerate() {
        push_key(out, at, key)?;
        push_value(out, value)?;
    }
    Ok(out.push(')')?)
}
