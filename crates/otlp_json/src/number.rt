//! The numbers that texts are (Protocol Buffers, "ProtoJSON Format").

ghost use Rattle.std.specs.Prelude.{◌≡◌, ◌==◌, ◌^◌, ◌≤◌, IfOk};
ghost use Rattle.otlp_json.specs.Numbers as spec;

use crate::fault::JsonFault;
use fast_float::Numeral;
use json::is_number;
use std::num::f64_to_bits_with_nan;

/// Whether a minus is before the digits.
fn is_negative(text: &[u8]) -> bool
    ensures { result ≡ spec.is_negative text.now }
{
    match text {
        [first, ..] => *first == b'-',
        [] => false,
    }
}

/// The text without its minus.
fn unsigned(text: &[u8]) -> &[u8]
    ensures { result.now ≡ spec.unsigned text.now }
{
    match text {
        [b'-', digits @ ..] => digits,
        _ => text,
    }
}

/// The size, or its negation, in two's complement.
fn signed_bits(negative: bool, size: u64) -> u64
    ensures { result ≡ spec.signed_bits negative size }
{
    if negative && size != 0 {
        u64::MAX - size + 1
    } else {
        size
    }
}

/// A whole number of this size, or its negation, if it is from minus `least` to `most`.
fn in_range(negative: bool, most: u64, least: u64, size: u64) -> Result<u64, JsonFault>
    ensures value { result ≡ spec.in_range negative most least size }
    ensures at_most { least ≡ 0 → IfOk result (λ n. n ≤ most) }
{
    let limit = if negative { least } else { most };
    if size <= limit {
        Ok(signed_bits(negative, size))
    } else {
        Err(JsonFault::OutOfRange)
    }
}

/// The whole number that a text is, in two's complement, if it is from minus `least` to `most`.
#[tactic(auto, unfolding(crate::specs::Numbers::whole))]
pub(crate) fn whole(text: &str, most: u64, least: u64) -> Result<u64, JsonFault>
    ensures value { result ≡ spec.whole text.now most least }
    ensures at_most { least ≡ 0 → IfOk result (λ n. n ≤ most) }
{
    if !is_number(text) {
        return Err(JsonFault::BadNumber);
    }
    let bytes = text.as_bytes();
    let Some(size) = Numeral::scan(unsigned(bytes)).whole_u64() else {
        return Err(JsonFault::OutOfRange);
    };
    in_range(is_negative(bytes), most, least, size)
}

/// The bits of the double that is nearest to the number that a text is.
#[tactic(auto, unfolding(crate::specs::Numbers::double))]
pub(crate) fn double(text: &str) -> Result<u64, JsonFault>
    ensures { result ≡ spec.double text.now }
{
    if !is_number(text) {
        return Err(JsonFault::BadNumber);
    }
    let number: f64 = match fast_float::parse(text) {
        Ok(number) => number,
        Err(_) => return Err(JsonFault::BadNumber),
    };
    if number.is_finite() {
        Ok(f64_to_bits_with_nan(number))
    } else {
        Err(JsonFault::OutOfRange)
    }
}

/// The same of a text in quotes, which may also name what JSON has no number for.
#[tactic(auto, unfolding(crate::specs::Numbers::quoted_double))]
pub(crate) fn quoted_double(text: &str) -> Result<u64, JsonFault>
    ensures { result ≡ spec.quoted_double text.now }
{
    match text {
        "NaN" => Ok(0x7ff8_0000_0000_0000),
        "Infinity" => Ok(0x7ff0_0000_0000_0000),
        "-Infinity" => Ok(0xfff0_0000_0000_0000),
        _ => double(text),
    }
}
