//! How texts, numbers and values are compared.

ghost use Rattle.std.specs.Prelude.{◌≡◌};
ghost use Rattle.std.specs.Str.{bytes_eq};
ghost use Rattle.otlp_read.specs.Values.{any_value_view};
ghost use Rattle.view_query.specs.Matching as spec;

use crate::number::number_of;
use crate::term::{Order, TextSign};
use otlp_read::AnyValue;
use std::alloc::Allocator;

/// Whether bytes are the same.
fn is_same(left: &[u8], right: &[u8]) -> bool
    ensures { result ≡ bytes_eq left.now right.now }
{
    left == right
}

/// Whether a text begins with a part, in any case of the letters A to Z.
fn is_front(part: &[u8], text: &[u8]) -> bool
    ensures { result ≡ spec.is_front part.now text.now }
{
    part.len() <= text.len() && text[..part.len()].eq_ignore_ascii_case(part)
}

/// Whether a text contains a part, in any case of the letters A to Z.
fn contains(part: &[u8], text: &[u8]) -> bool
    ensures { result ≡ spec.contains part.now text.now }
{
    for at in 0..text.len() {
        if is_front(part, &text[at..]) {
            return true;
        }
    }
    is_front(part, b"")
}

/// Whether a text is as a term asks.
pub(crate) fn fits_text(sign: TextSign, wanted: &[u8], text: &[u8]) -> bool
    ensures { result ≡ spec.fits_text sign wanted.now text.now }
{
    match sign {
        TextSign::Is => is_same(text, wanted),
        TextSign::IsNot => !is_same(text, wanted),
        TextSign::Has => contains(wanted, text),
    }
}

/// Whether a number is as a term asks.
pub(crate) fn fits_number(order: Order, wanted: u64, number: u64) -> bool
    ensures { result ≡ spec.fits_number order wanted number }
{
    match order {
        Order::Above => wanted < number,
        Order::AtLeast => wanted <= number,
        Order::Below => number < wanted,
        Order::AtMost => number <= wanted,
    }
}

/// Whether there is a number, and it is this one.
fn is_some_number(found: Option<u64>, number: u64) -> bool
    ensures { result ≡ spec.is_some_number found number }
{
    match found {
        Some(found) => found == number,
        None => false,
    }
}

/// Whether a text spells a number after a minus.
fn spells_after_minus(text: &[u8], number: u64) -> bool
    ensures { result ≡ spec.spells_after_minus text.now number }
{
    if !text.starts_with(b"-") {
        return false;
    }
    is_some_number(number_of(&text[1..]), number)
}

/// Whether a text spells a whole number.
fn spells(text: &[u8], number: i64) -> bool
    ensures { result ≡ spec.spells text.now number }
{
    if number >= 0 {
        return is_some_number(number_of(text), number.unsigned_abs());
    }
    spells_after_minus(text, number.unsigned_abs())
}

/// Whether a whole number is as a term asks.
fn fits_signed(order: Order, wanted: u64, number: i64) -> bool
    ensures { result ≡ spec.fits_signed order wanted number }
{
    if number >= 0 {
        return fits_number(order, wanted, number.unsigned_abs());
    }
    match order {
        Order::Above | Order::AtLeast => false,
        Order::Below | Order::AtMost => true,
    }
}

/// The word of a truth value.
fn bool_word(value: bool) -> &'static str
    ensures { result.now ≡ spec.bool_word value }
{
    if value { "true" } else { "false" }
}

/// Whether a value is what a text spells.
pub(crate) fn is_value<A: Allocator>(wanted: &[u8], value: &AnyValue<A>) -> bool
    ensures { result ≡ spec.is_value wanted.now (any_value_view value.now) }
{
    match value {
        AnyValue::Text(text) => is_same(text.as_bytes(), wanted),
        AnyValue::Bool(b) => is_same(wanted, bool_word(*b).as_bytes()),
        AnyValue::Int(number) => spells(wanted, *number),
        _ => false,
    }
}

/// Whether a value is a text that contains another one. Each value does the empty text.
pub(crate) fn has_value<A: Allocator>(wanted: &[u8], value: &AnyValue<A>) -> bool
    ensures { result ≡ spec.has_value wanted.now (any_value_view value.now) }
{
    match value {
        AnyValue::Text(text) => contains(wanted, text.as_bytes()),
        _ => wanted.is_empty(),
    }
}

/// Whether a value is a whole number that is as a term asks.
pub(crate) fn is_number<A: Allocator>(order: Order, wanted: u64, value: &AnyValue<A>) -> bool
    ensures { result ≡ spec.is_number order wanted (any_value_view value.now) }
{
    match value {
        AnyValue::Int(number) => fits_signed(order, wanted, *number),
        _ => false,
    }
}
