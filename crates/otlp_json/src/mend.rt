//! Surrogates that are alone.

ghost use Rattle.std.specs.Prelude.{◌≡◌, ◌<◌, ◌≤◌, length, drop, true, IfOk, IfSome, vec_len};
ghost use Rattle.std.specs.Char.{digit_value};
ghost use Rattle.json.specs.Text.{code_unit};
ghost use Rattle.otlp_json.specs.Mended as spec;
ghost use Rattle.otlp_json.specs.Mended.{mended};

use std::alloc::{AllocError, Allocator};

/// The escape of U+FFFD, which has as many bytes as any.
const REPLACEMENT: &[u8] = b"\\ufffd";

/// The value of a digit, or 36 of another byte.
fn digit(byte: u8) -> u32
    ensures { result ≡ digit_value byte }
{
    match byte {
        b'0'..=b'9' => (byte - b'0') as u32,
        b'A'..=b'Z' => (byte - b'A') as u32 + 10,
        b'a'..=b'z' => (byte - b'a') as u32 + 10,
        _ => 36,
    }
}

/// The code unit that four digits of sixteen spell, if they are such.
fn code_unit(first: u8, second: u8, third: u8, fourth: u8) -> Option<u32>
    ensures { result ≡ code_unit first second third fourth }
{
    let (a, b, c, d) = (digit(first), digit(second), digit(third), digit(fourth));
    if (a < 16) & (b < 16) & (c < 16) & (d < 16) {
        Some(a * 4096 + b * 256 + c * 16 + d)
    } else {
        None
    }
}

/// The code unit whose escape a text begins with.
#[tactic(auto, unfolding(crate::specs::Mended::unit_in))]
fn unit_in(text: &[u8]) -> Option<u32>
    ensures value { result ≡ spec.unit_in text.now }
    ensures length { IfSome result (λ _. 6 ≤ length text.now) }
{
    if text.len() < 6 {
        return None;
    }
    if text[0] != b'\\' {
        return None;
    }
    if text[1] != b'u' {
        return None;
    }
    code_unit(text[2], text[3], text[4], text[5])
}

/// Whether a text begins with the escape of the first of a pair of surrogates.
fn begins_high(text: &[u8]) -> bool
    ensures value { result ≡ spec.is_high (spec.unit_in text.now) }
    ensures length { result ≡ true → 6 ≤ length text.now }
{
    match unit_in(text) {
        Some(unit) => 0xd800 <= unit && unit < 0xdc00,
        None => false,
    }
}

/// The same of the second.
fn begins_low(text: &[u8]) -> bool
    ensures value { result ≡ spec.is_low (spec.unit_in text.now) }
    ensures length { result ≡ true → 6 ≤ length text.now }
{
    match unit_in(text) {
        Some(unit) => 0xdc00 <= unit && unit < 0xe000,
        None => false,
    }
}

/// Whether a text begins with the escapes of a pair.
fn begins_pair(text: &[u8]) -> bool
    ensures value { result ≡ spec.begins_pair text.now }
    ensures length { result ≡ true → 12 ≤ length text.now }
{
    begins_high(text) && begins_low(&text[6..])
}

/// Whether a text begins with the escape of a surrogate.
fn begins_surrogate(text: &[u8]) -> bool
    ensures value { result ≡ spec.begins_surrogate text.now }
    ensures length { result ≡ true → 6 ≤ length text.now }
{
    begins_high(text) || begins_low(text)
}

/// What the first piece of a text is read as.
#[tactic(auto, unfolding(crate::specs::Mended::first_piece))]
fn first_piece(text: &[u8]) -> &[u8]
    requires { 0 < length text.now }
    ensures value { result.now ≡ spec.first_piece text.now }
    ensures some { 0 < length result.now }
    ensures within { length result.now ≤ length text.now }
{
    if begins_pair(text) {
        return &text[..12];
    }
    if begins_surrogate(text) {
        return REPLACEMENT;
    }
    if text[0] != b'\\' {
        return &text[..1];
    }
    &text[..text.len().min(2)]
}

/// The bytes after so many.
fn after(text: &[u8], count: usize) -> &[u8]
    requires { count ≤ length text.now }
    ensures { result.now ≡ drop count text.now }
{
    &text[count..]
}

/// The text in which each surrogate that is alone is U+FFFD, in as many bytes.
pub(crate) fn mend<A: Allocator + Copy>(alloc: A, text: &[u8]) -> Result<Vec<u8, A>, AllocError>
    ensures value { IfOk result (λ out. out.items ≡ mended text.now) }
    ensures length { IfOk result (λ out. vec_len out ≡ length text.now) }
{
    let mut out = Vec::with_capacity(alloc, text.len())?;
    let mut rest = text;
    while !rest.is_empty() {
        let piece = first_piece(rest);
        out.extend_from_slice(piece)?;
        rest = after(rest, piece.len());
    }
    Ok(out)
}
