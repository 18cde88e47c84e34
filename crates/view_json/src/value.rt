//! Values of attributes.

ghost use Rattle.std.specs.Prelude.{◌≡◌, ◌==◌, [], ◌∷◌, ◌++◌, OnOk, codes, from_bits, length};
ghost use Rattle.std.specs.Float.{binary64};
ghost use Rattle.std.specs.Fmt.{signed_decimal};
ghost use Rattle.std.specs.List.{flat_map};
ghost use Rattle.base64.specs.GeneralPurpose.{encode_of};
ghost use Rattle.base64.specs.Engines.{standard};
ghost use Rattle.json.specs.Token.{boolean, key};
ghost use Rattle.otlp_json.specs.Seen.{Other, float_seen, seen, text_member};
ghost use Rattle.view_json.specs.Values.{attributes_member, member_seen, nested, nested_back};
ghost use Rattle.view_json.specs.Values.{nested_front, pair_seen, pair_text, value_seen};

use base64::engine::general_purpose::STANDARD;
use json::Writer;
use otlp_json::field::{
    begin, begin_list, begin_member, end, end_list, push_bool, push_key, push_signed_long,
    push_text,
};
use otlp_read::AnyValue;
use std::alloc::{AllocError, Allocator};

/// The sign of a double.
const SIGN: u64 = 1 << 63;

/// The bits of infinity: those above it, but for the sign, are no numbers.
const INFINITY: u64 = 0x7ff0_0000_0000_0000;

/// Writes a double of these bits: a number, or `NaN`, `Infinity` or `-Infinity` as a text.
fn push_float<A: Allocator>(out: &mut Writer<A>, bits: u64) -> Result<(), AllocError>
    ensures seen { OnOk result (seen out.new.tokens
        ≡ seen out.old.tokens ++ float_seen (from_bits binary64 bits) ∷ []) }
    ensures before { out.new.before ≡ out.old.before }
{
    if bits % SIGN > INFINITY {
        return out.string("NaN");
    }
    let number = f64::from_bits(bits);
    if number.is_finite() {
        return out.float(number);
    }
    if number.is_sign_negative() {
        return out.string("-Infinity");
    }
    out.string("Infinity")
}

/// Writes the member of a value that is bytes.
fn push_bytes<A: Allocator + Copy>(
    alloc: A,
    out: &mut Writer<A>,
    bytes: &[u8],
) -> Result<(), AllocError>
    ensures seen { OnOk result (seen out.new.tokens ≡ seen out.old.tokens
        ++ seen (text_member (codes "bytesValue") (encode_of standard bytes.now))) }
    ensures before { out.new.before ≡ out.old.before }
{
    let text = STANDARD.encode(alloc, bytes)?;
    push_text(out, "bytesValue", &text)
}

/// Writes the member of a value that is a truth value.
fn push_truth<A: Allocator>(out: &mut Writer<A>, truth: bool) -> Result<(), AllocError>
    ensures seen { OnOk result (seen out.new.tokens ≡ seen out.old.tokens
        ++ Other (key (codes "boolValue")) ∷ Other (boolean truth) ∷ []) }
    ensures before { out.new.before ≡ out.old.before }
{
    push_bool(out, "boolValue", truth)
}

/// Writes the member of a value that is a whole number.
fn push_int<A: Allocator>(out: &mut Writer<A>, number: i64) -> Result<(), AllocError>
    ensures seen { OnOk result (seen out.new.tokens ≡ seen out.old.tokens
        ++ seen (text_member (codes "intValue") (signed_decimal number))) }
    ensures before { out.new.before ≡ out.old.before }
{
    push_signed_long(out, "intValue", number)
}

/// Writes the member of a value that is a double.
fn push_double<A: Allocator>(out: &mut Writer<A>, bits: u64) -> Result<(), AllocError>
    ensures seen { OnOk result (seen out.new.tokens ≡ seen out.old.tokens
        ++ Other (key (codes "doubleValue")) ∷ float_seen (from_bits binary64 bits) ∷ []) }
    ensures before { out.new.before ≡ out.old.before }
{
    push_key(out, "doubleValue")?;
    push_float(out, bits)
}

/// Begins the member of this name of a value that has others in it.
fn begin_nested<A: Allocator>(out: &mut Writer<A>, name: &str) -> Result<(), AllocError>
    ensures seen { OnOk result (seen out.new.tokens ≡ seen out.old.tokens
        ++ nested_front name.now) }
    ensures before { out.new.before ≡ out.old.before }
{
    begin_member(out, name)?;
    begin_list(out, "values")
}

/// Ends the member of a value that has others in it.
fn end_nested<A: Allocator>(out: &mut Writer<A>) -> Result<(), AllocError>
    ensures seen { OnOk result (seen out.new.tokens ≡ seen out.old.tokens ++ nested_back) }
    ensures before { out.new.before ≡ out.old.before }
{
    end_list(out)?;
    end(out)
}

/// Whether a value is empty: it has no member.
fn is_empty<A: Allocator>(value: &AnyValue<A>) -> bool
    ensures { result ≡ (length (member_seen value.now) == 0) }
{
    match value {
        AnyValue::Empty => true,
        AnyValue::Text(_)
        | AnyValue::Bool(_)
        | AnyValue::Int(_)
        | AnyValue::Double(_)
        | AnyValue::Array(_)
        | AnyValue::Pairs(_)
        | AnyValue::Bytes(_) => false,
    }
}

/// Writes a value: an object with one member, or none where it is empty (common.proto: AnyValue).
#[cycle(value)]
fn push_value<A: Allocator + Copy>(
    alloc: A,
    out: &mut Writer<A>,
    value: &AnyValue<A>,
) -> Result<(), AllocError>
    ensures seen { OnOk result (seen out.new.tokens
        ≡ seen out.old.tokens ++ value_seen value.now) }
    ensures before { out.new.before ≡ out.old.before }
{
    begin(out)?;
    push_member(alloc, out, value)?;
    end(out)
}

/// Writes the member of a value, which says what it is. An empty value has none.
#[cycle(value)]
fn push_member<A: Allocator + Copy>(
    alloc: A,
    out: &mut Writer<A>,
    value: &AnyValue<A>,
) -> Result<(), AllocError>
    ensures seen { OnOk result (seen out.new.tokens
        ≡ seen out.old.tokens ++ member_seen value.now) }
    ensures before { out.new.before ≡ out.old.before }
{
    match value {
        AnyValue::Empty => Ok(()),
        AnyValue::Text(text) => push_text(out, "stringValue", text),
        AnyValue::Bool(truth) => push_truth(out, *truth),
        AnyValue::Int(number) => push_int(out, *number),
        AnyValue::Double(bits) => push_double(out, *bits),
        AnyValue::Array(values) => push_array(alloc, out, values),
        AnyValue::Pairs(pairs) => push_pairs(alloc, out, pairs),
        AnyValue::Bytes(bytes) => push_bytes(alloc, out, bytes),
    }
}

/// Writes an array of values (common.proto: ArrayValue).
#[cycle(value)]
fn push_array<A: Allocator + Copy>(
    alloc: A,
    out: &mut Writer<A>,
    values: &[AnyValue<A>],
) -> Result<(), AllocError>
    ensures seen { OnOk result (seen out.new.tokens ≡ seen out.old.tokens
        ++ nested (codes "arrayValue") (flat_map value_seen values.now)) }
    ensures before { out.new.before ≡ out.old.before }
{
    begin_nested(out, "arrayValue")?;
    for value in values {
        push_value(alloc, out, value)?;
    }
    end_nested(out)
}

/// Writes a list of pairs (common.proto: KeyValueList).
#[cycle(value)]
fn push_pairs<A: Allocator + Copy>(
    alloc: A,
    out: &mut Writer<A>,
    pairs: &[(String<A>, AnyValue<A>)],
) -> Result<(), AllocError>
    ensures seen { OnOk result (seen out.new.tokens ≡ seen out.old.tokens
        ++ nested (codes "kvlistValue") (flat_map pair_seen pairs.now)) }
    ensures before { out.new.before ≡ out.old.before }
{
    begin_nested(out, "kvlistValue")?;
    for (key, value) in pairs {
        push_pair(alloc, out, key, value)?;
    }
    end_nested(out)
}

/// Writes a pair, without a member for a value that is empty (common.proto: KeyValue).
#[cycle(value)]
fn push_pair<A: Allocator + Copy>(
    alloc: A,
    out: &mut Writer<A>,
    name: &str,
    value: &AnyValue<A>,
) -> Result<(), AllocError>
    ensures seen { OnOk result (seen out.new.tokens ≡ seen out.old.tokens
        ++ pair_text name.now (member_seen value.now)) }
    ensures before { out.new.before ≡ out.old.before }
{
    begin(out)?;
    push_text(out, "key", name)?;
    if is_empty(value) {
        return end(out);
    }
    push_key(out, "value")?;
    push_value(alloc, out, value)?;
    end(out)
}

/// Writes attributes, as the member `attributes`.
pub(crate) fn push_attributes<A: Allocator + Copy>(
    alloc: A,
    out: &mut Writer<A>,
    pairs: &[(String<A>, AnyValue<A>)],
) -> Result<(), AllocError>
    ensures seen { OnOk result (seen out.new.tokens ≡ seen out.old.tokens
        ++ attributes_member pairs.now) }
    ensures before { out.new.before ≡ out.old.before }
{
    begin_list(out, "attributes")?;
    for (key, value) in pairs {
        push_pair(alloc, out, key, value)?;
    }
    end_list(out)
}
