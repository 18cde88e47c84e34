//! The text of a double.

ghost use Rattle.std.specs.Prelude.{◌≡◌, ◌<◌, ◌≤◌, ◌^◌, ◌++◌, OnOk, decimal, string_bytes};
ghost use Rattle.page_text.specs.Doubles.{decimal_text, digits_of, divided_text, page_text};
ghost use Rattle.page_text.specs.Doubles.{exponent_of, fraction_of, is_negative, large_text};
ghost use Rattle.page_text.specs.Doubles.{mantissa_of, power_of, shortest_text, sign_text};
ghost use Rattle.page_text.specs.Doubles.{size_text, small_text, times_text};

use crate::decimal::{Decimal, shortest};
use std::alloc::{AllocError, Allocator};

/// Two to the power of 52: how many fractions a double of one exponent may have.
const FRACTIONS: u64 = 4_503_599_627_370_496;

/// The bits of negative zero: those of negative numbers are not below it.
const SIGN: u64 = 9_223_372_036_854_775_808;

/// The 11 bits of the exponent.
fn exponent_of(bits: u64) -> u64
    ensures { result ≡ exponent_of bits }
{
    bits / FRACTIONS % 2048
}

/// The 52 bits of the fraction.
fn fraction_of(bits: u64) -> u64
    ensures { result ≡ fraction_of bits }
{
    bits % FRACTIONS
}

/// The mantissa.
fn mantissa_of(bits: u64) -> u64
    ensures value { result ≡ mantissa_of bits }
    ensures small { result < 2 ^ 53 }
{
    if exponent_of(bits) == 0 {
        fraction_of(bits)
    } else {
        FRACTIONS + fraction_of(bits)
    }
}

/// The power of two by which the mantissa is multiplied, and 1075 more.
fn power_of(bits: u64) -> u64
    ensures value { result ≡ power_of bits }
    ensures small { result < 2048 }
{
    let exponent = exponent_of(bits);
    if exponent == 0 { 1 } else { exponent }
}

/// Appends a whole number.
fn push_whole<A: Allocator>(out: &mut String<A>, number: u128) -> Result<(), AllocError>
    ensures { OnOk result (string_bytes out.new ≡ string_bytes out.old ++ decimal number) }
{
    write!(out, "{number}")
}

/// Appends this many digits of a number below that power of ten.
fn push_digits<A: Allocator>(
    out: &mut String<A>,
    places: u64,
    ten: u128,
    number: u128,
) -> Result<(), AllocError>
    requires { ten ≡ 10 ^ places }
    ensures { OnOk result (string_bytes out.new
        ≡ string_bytes out.old ++ digits_of places ten number) }
{
    let mut power = ten;
    let mut rest = number;
    for _ in 0..places {
        power /= 10;
        push_whole(out, rest / power)?;
        rest %= power;
    }
    Ok(())
}

/// Appends a decimal, with a point where it has places.
#[tactic(auto, unfolding(crate::specs::Doubles::decimal_text))]
fn push_decimal<A: Allocator>(out: &mut String<A>, value: Decimal) -> Result<(), AllocError>
    requires { value.ten ≡ 10 ^ value.places }
    ensures { OnOk result (string_bytes out.new
        ≡ string_bytes out.old ++ decimal_text value) }
{
    push_whole(out, value.number / value.ten)?;
    if value.places == 0 {
        return Ok(());
    }
    out.push_str(".")?;
    push_digits(out, value.places, value.ten, value.number % value.ten)
}

/// Appends a mantissa that is multiplied by a power of two.
#[tactic(auto, unfolding(crate::specs::Doubles::times_text))]
fn push_times<A: Allocator>(
    out: &mut String<A>,
    mantissa: u64,
    power: u64,
) -> Result<(), AllocError>
    ensures { OnOk result (string_bytes out.new
        ≡ string_bytes out.old ++ times_text mantissa power) }
{
    write!(out, "{mantissa}*2^{power}")
}

/// Appends a mantissa that is divided by a power of two.
#[tactic(auto, unfolding(crate::specs::Doubles::divided_text))]
fn push_divided<A: Allocator>(
    out: &mut String<A>,
    mantissa: u64,
    power: u64,
) -> Result<(), AllocError>
    ensures { OnOk result (string_bytes out.new
        ≡ string_bytes out.old ++ divided_text mantissa power) }
{
    write!(out, "{mantissa}*2^-{power}")
}

/// Appends a mantissa that is multiplied by a power of two, by its digits where 128 bits hold it.
#[tactic(auto, unfolding(crate::specs::Doubles::large_text))]
fn push_large<A: Allocator>(
    out: &mut String<A>,
    mantissa: u64,
    power: u64,
) -> Result<(), AllocError>
    requires { mantissa < 2 ^ 53 }
    ensures { OnOk result (string_bytes out.new
        ≡ string_bytes out.old ++ large_text mantissa power) }
{
    if power > 75 {
        return push_times(out, mantissa, power);
    }
    push_whole(out, u128::from(mantissa) * 2u128.pow(power as u32))
}

/// Appends a mantissa that is divided by a power of two, in the fewest places.
fn push_small<A: Allocator>(
    out: &mut String<A>,
    mantissa: u64,
    power: u64,
) -> Result<(), AllocError>
    requires { mantissa < 2 ^ 53 }
    ensures { OnOk result (string_bytes out.new
        ≡ string_bytes out.old ++ small_text mantissa power) }
{
    if power > 120 {
        return push_divided(out, mantissa, power);
    }
    match shortest(mantissa, 2u128.pow(power as u32)) {
        Some(value) => push_decimal(out, value),
        None => push_divided(out, mantissa, power),
    }
}

/// Appends a double without its sign.
#[tactic(auto, unfolding(crate::specs::Doubles::size_text))]
fn push_size<A: Allocator>(out: &mut String<A>, mantissa: u64, power: u64) -> Result<(), AllocError>
    requires { mantissa < 2 ^ 53 }
    ensures { OnOk result (string_bytes out.new
        ≡ string_bytes out.old ++ size_text mantissa power) }
{
    if mantissa == 0 {
        return out.push_str("0");
    }
    if power < 1075 {
        return push_small(out, mantissa, 1075 - power);
    }
    push_large(out, mantissa, power - 1075)
}

/// Appends a sign, where a number is negative.
#[tactic(auto, unfolding(crate::specs::Doubles::sign_text))]
fn push_sign<A: Allocator>(out: &mut String<A>, bits: u64) -> Result<(), AllocError>
    ensures { OnOk result (string_bytes out.new
        ≡ string_bytes out.old ++ sign_text (is_negative bits)) }
{
    if bits >= SIGN {
        return out.push_str("-");
    }
    Ok(())
}

/// Appends the number that the double with these 64 bits is, in the fewest places after the point
/// with which no other double is as near; or `NaN`, `Infinity` or `-Infinity`.
///
/// What needs more than 22 places after its point, is smaller than two to the power of -120 times
/// its mantissa or has more than 128 bits before its point is written exactly, as a whole number
/// times a power of two, as `7*2^200` or `7*2^-200`.
///
/// # Errors
///
/// `AllocError` where the text could not be stored. It may then have been appended in part.
#[tactic(auto, unfolding(crate::specs::Doubles::page_text))]
pub fn write_double<A: Allocator>(out: &mut String<A>, bits: u64) -> Result<(), AllocError>
    ensures { OnOk result (string_bytes out.new ≡ string_bytes out.old ++ page_text bits) }
{
    if exponent_of(bits) != 2047 {
        push_sign(out, bits)?;
        return push_size(out, mantissa_of(bits), power_of(bits));
    }
    if fraction_of(bits) != 0 {
        return out.push_str("NaN");
    }
    push_sign(out, bits)?;
    out.push_str("Infinity")
}
