//! Decimal texts of ratios.

ghost use Rattle.std.specs.Prelude.{◌≡◌, ◌++◌, ◌-◌, ◌/◌, ◌*◌, ◌==◌, ◌^◌, ◌<◌, ◌≤◌, IsTrue};
ghost use Rattle.std.specs.Prelude.{drop, false, length, min, slice_index, take, true};
ghost use Rattle.std.specs.Char.{is_ascii_digit};
ghost use Rattle.std.specs.List.{list_all, position_or_len};
ghost use Rattle.std.specs.Option.{SomeIff};
ghost use Rattle.std.specs.Str.Parse.{digits_value};
ghost use Rattle.otlp_sampler.specs.Decimal.{are_digits, denominator, exponent_part};
ghost use Rattle.otlp_sampler.specs.Decimal.{fraction_part, is_decimal};
ghost use Rattle.otlp_sampler.specs.Decimal.{is_exponent, numerator};
ghost use Rattle.otlp_sampler.specs.Decimal.{is_exponent_mark, is_negative, is_point};
ghost use Rattle.otlp_sampler.specs.Decimal.{mantissa_part, unsigned, whole_part};
ghost use Rattle.otlp_sampler.specs.Ratio.{share};

use crate::ratio::NUMBERS;

/// Whether the text is a decimal number.
pub(crate) fn is_decimal(text: &[u8]) -> bool
    ensures { result ≡ is_decimal text.now }
{
    let (whole, fraction) = split_at_point(mantissa_of(text));
    if !is_mantissa(whole, fraction) {
        return false;
    }
    exponent_of(text).is_some()
}

/// How many of the 2^56 numbers the decimal number samples, unless it is above 1.
pub(crate) fn count_of(text: &[u8]) -> Option<u64>
    requires { IsTrue (is_decimal text.now) }
    ensures count { SomeIff result (numerator text.now ≤ denominator text.now)
        (share (numerator text.now) (denominator text.now)) }
{
    let (whole, fraction) = split_at_point(mantissa_of(text));
    let (negative, places) = exponent_of(text)?;
    count_moved(whole, fraction, negative, places)
}

/// Where the first mark of an exponent is: at the end, if there is none.
fn mark_of(text: &[u8]) -> usize
    ensures place { result ≡ position_or_len is_exponent_mark text.now }
    ensures bound { result ≤ length text.now }
{
    'bytes: for i in 0..text.len() {
        if is_mark(text[i]) {
            return i;
        }
    }
    text.len()
}

/// Whether an exponent may begin with this byte.
fn is_mark(byte: u8) -> bool
    ensures { result ≡ is_exponent_mark byte }
{
    byte == b'e' || byte == b'E'
}

/// What is before the first mark of an exponent.
fn mantissa_of(text: &[u8]) -> &[u8]
    ensures { result.now ≡ mantissa_part text.now }
{
    &text[..mark_of(text)]
}

/// Whether the exponent is negative, and its number or the greatest of 64 bits, if that is less: 0
/// where there is no exponent, and nothing where it isn't a number.
fn exponent_of(text: &[u8]) -> Option<(bool, u64)>
    ensures { let exponent = exponent_part text.now in
        SomeIff result (IsTrue (is_exponent text.now))
        (is_negative exponent, min (digits_value 10 (unsigned exponent)) (2 ^ 64 - 1)) }
{
    let mark = mark_of(text);
    if mark == text.len() {
        return Some((false, 0));
    }
    let (negative, digits) = split_sign(&text[mark + 1..]);
    if digits.is_empty() || !are_digits(digits) {
        return None;
    }
    Some((negative, places(digits)))
}

/// What is before the first point, and what is after it.
fn split_at_point(mantissa: &[u8]) -> (&[u8], &[u8])
    ensures whole { result.0.now ≡ whole_part mantissa.now }
    ensures fraction { result.1.now ≡ fraction_part mantissa.now }
{
    let point = point_of(mantissa);
    if point == mantissa.len() {
        return (mantissa, &mantissa[point..]);
    }
    (&mantissa[..point], &mantissa[point + 1..])
}

/// Where the first point is: at the end, if there is none.
fn point_of(mantissa: &[u8]) -> usize
    ensures place { result ≡ position_or_len is_point mantissa.now }
    ensures bound { result ≤ length mantissa.now }
{
    'bytes: for i in 0..mantissa.len() {
        if mantissa[i] == b'.' {
            return i;
        }
    }
    mantissa.len()
}

/// Whether the exponent is negative, and what it is without its sign.
fn split_sign(exponent: &[u8]) -> (bool, &[u8])
    ensures negative { result.0 ≡ is_negative exponent.now }
    ensures digits { result.1.now ≡ unsigned exponent.now }
{
    if exponent.is_empty() {
        return (false, exponent);
    }
    match exponent[0] {
        b'-' => (true, &exponent[1..]),
        b'+' => (false, &exponent[1..]),
        _ => (false, exponent),
    }
}

/// Whether the two parts are decimal digits, and at least one of them.
fn is_mantissa(whole: &[u8], fraction: &[u8]) -> bool
    ensures { result ≡ are_digits (whole.now ++ fraction.now) }
{
    if whole.is_empty() && fraction.is_empty() {
        return false;
    }
    are_digits(whole) && are_digits(fraction)
}

/// Whether each byte is a decimal digit.
fn are_digits(text: &[u8]) -> bool
    ensures { result ≡ list_all is_ascii_digit text.now }
{
    text.iter().all(|byte| byte.is_ascii_digit())
}

/// The number that the digits write, or the greatest of 64 bits, if that is less.
fn places(digits: &[u8]) -> u64
    requires { IsTrue (list_all is_ascii_digit digits.now) }
    ensures { result ≡ min (digits_value 10 digits.now) (2 ^ 64 - 1) }
{
    let mut number: u64 = 0;
    'digits: for digit in digits {
        number = number
            .saturating_mul(10)
            .saturating_add(u64::from(*digit - b'0'));
    }
    number
}

/// How many of the 2^56 numbers the decimal number with these parts samples once an exponent moved
/// its point, unless it is above 1.
fn count_moved(whole: &[u8], fraction: &[u8], negative: bool, places: u64) -> Option<u64>
    requires { IsTrue (list_all is_ascii_digit (whole.now ++ fraction.now)) }
    ensures right { let numerator = digits_value 10 (whole.now ++ fraction.now) * 10 ^ places in
        let denominator = 10 ^ length fraction.now in
        negative ≡ false →
        SomeIff result (numerator ≤ denominator) (share numerator denominator) }
    ensures left { let numerator = digits_value 10 (whole.now ++ fraction.now) in
        let denominator = 10 ^ length fraction.now * 10 ^ places in
        negative ≡ true →
        SomeIff result (numerator ≤ denominator) (share numerator denominator) }
{
    if negative {
        count_lowered(whole, fraction, places)
    } else {
        count_raised(whole, fraction, places)
    }
}

/// How many of the 2^56 numbers the decimal number with these parts samples once its point is moved
/// to the right, unless it is above 1.
fn count_raised(whole: &[u8], fraction: &[u8], places: u64) -> Option<u64>
    requires { IsTrue (list_all is_ascii_digit (whole.now ++ fraction.now)) }
    ensures count { let numerator = digits_value 10 (whole.now ++ fraction.now) * 10 ^ places in
        let denominator = 10 ^ length fraction.now in
        SomeIff result (numerator ≤ denominator) (share numerator denominator) }
{
    if places <= fraction.len() as u64 {
        return count_at(whole, fraction, whole.len() + places as usize);
    }
    // It is a whole number of tens.
    if are_zeros_from(whole, fraction, 0) {
        return Some(0);
    }
    None
}

/// How many of the 2^56 numbers the decimal number with these parts samples once its point is moved
/// to the left, unless it is above 1.
fn count_lowered(whole: &[u8], fraction: &[u8], places: u64) -> Option<u64>
    requires { IsTrue (list_all is_ascii_digit (whole.now ++ fraction.now)) }
    ensures count { let numerator = digits_value 10 (whole.now ++ fraction.now) in
        let denominator = 10 ^ length fraction.now * 10 ^ places in
        SomeIff result (numerator ≤ denominator) (share numerator denominator) }
{
    let before = whole.len() as u64;
    if places <= before {
        return count_at(whole, fraction, (before - places) as usize);
    }
    let count = count_of_fraction(whole, fraction, 0);
    Some(divided(count, places - before))
}

/// How many of the 2^56 numbers the decimal number with these digits samples, if its point is
/// before this one of them, unless it is above 1.
fn count_at(whole: &[u8], fraction: &[u8], point: usize) -> Option<u64>
    requires digits { IsTrue (list_all is_ascii_digit (whole.now ++ fraction.now)) }
    requires point { point ≤ length (whole.now ++ fraction.now) }
    ensures count { let numerator = digits_value 10 (whole.now ++ fraction.now) in
        let denominator = 10 ^ (length (whole.now ++ fraction.now) - point) in
        SomeIff result (numerator ≤ denominator) (share numerator denominator) }
{
    let ones = at_most_one(whole, fraction, point)?;
    if ones == 0 {
        return Some(count_of_fraction(whole, fraction, point));
    }
    if are_zeros_from(whole, fraction, point) {
        return Some(NUMBERS);
    }
    None
}

/// The digit of both parts at this place.
fn digit_at(whole: &[u8], fraction: &[u8], place: usize) -> u8
    requires { place < length (whole.now ++ fraction.now) }
    ensures { result ≡ slice_index (whole.now ++ fraction.now) place }
{
    if place < whole.len() {
        whole[place]
    } else {
        fraction[place - whole.len()]
    }
}

/// The number that the digits before the point write, unless it is above 1.
fn at_most_one(whole: &[u8], fraction: &[u8], point: usize) -> Option<u64>
    requires digits { IsTrue (list_all is_ascii_digit (whole.now ++ fraction.now)) }
    requires point { point ≤ length (whole.now ++ fraction.now) }
    ensures { let ones = digits_value 10 (take point (whole.now ++ fraction.now)) in
        SomeIff result (ones ≤ 1) ones }
{
    let mut number = 0;
    'digits: for i in 0..point {
        number = 10 * number + u64::from(digit_at(whole, fraction, i) - b'0');
        if number > 1 {
            return None;
        }
    }
    Some(number)
}

/// Whether each digit from this one on is 0.
fn are_zeros_from(whole: &[u8], fraction: &[u8], from: usize) -> bool
    requires { from ≤ length (whole.now ++ fraction.now) }
    ensures { result ≡ list_all (λ digit. digit == 48) (drop from (whole.now ++ fraction.now)) }
{
    'digits: for i in from..whole.len() + fraction.len() {
        if digit_at(whole, fraction, i) != b'0' {
            return false;
        }
    }
    true
}

/// How many of the 2^56 numbers the decimal number with the digits after the point samples. Each
/// step divides by 10 and rounds down, from the last digit on; that is the same as to round once.
fn count_of_fraction(whole: &[u8], fraction: &[u8], point: usize) -> u64
    requires digits { IsTrue (list_all is_ascii_digit (whole.now ++ fraction.now)) }
    requires point { point ≤ length (whole.now ++ fraction.now) }
    ensures { let after = drop point (whole.now ++ fraction.now) in
        result ≡ share (digits_value 10 after) (10 ^ length after) }
{
    let mut count = 0;
    'digits: for i in (point..whole.len() + fraction.len()).rev() {
        count = (u64::from(digit_at(whole, fraction, i) - b'0') * NUMBERS + count) / 10;
    }
    count
}

/// The count divided by ten `places` times, and rounded down.
fn divided(count: u64, places: u64) -> u64
    ensures { result ≡ count / 10 ^ places }
{
    let mut count = count;
    let mut places = places;
    'places: while places > 0 && count > 0 {
        count /= 10;
        places -= 1;
    }
    count
}
