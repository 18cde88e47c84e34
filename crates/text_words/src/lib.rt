//! Words of a text, read from bytes: numbers, hexadecimal digits, and texts (profile).
//! `trace_script` reads scripts by them, `otel_settings` the values of variables, and
//! `trace_context` the parts of a field.
//!
//! A word is a slice of bytes that a separator ends. A function reads one word whole, and answers
//! `WordFault::Bad` where the word spells nothing of its kind, and `WordFault::OutOfMemory` where
//! it stores what it read and memory was refused. Nothing is kept of a word that was refused.
//!
//! In a text `%` and two hexadecimal digits are that byte, `%` alone is the empty text, other bytes
//! stand for themselves, and the whole is UTF-8.
#![tactic(auto)]

mod parts;

ghost use Rattle.std.specs.Prelude.{◌≡◌, ◌^◌, ◌==◌, map, IfOk, option_map, ok_or, string_bytes};
ghost use Rattle.text_words.specs.Words.{Gives, each_of, number_below, signed_number, hex_word};
ghost use Rattle.text_words.specs.Words.{hex_byte, byte_of, first_byte_of};
ghost use Rattle.text_words.specs.Words.{bytes_of, utf8_of, text_of, TextsAreSpelled};
ghost use Rattle.std.specs.Str.{all_ascii_digits};
ghost use Rattle.text_words.specs.declared.WordFault.TheVariants.{Bad, OutOfMemory};

use hex::FromHex;
pub use parts::{around_first, parts_of, trimmed};
use std::alloc::{AllocError, AllocFailed, Allocator};
use std::str;
use thiserror::Error;

/// Why a word was not read.
#[derive(Debug, Clone, Copy, PartialEq, Eq, Error)]
pub enum WordFault {
    /// It spells nothing that may be there.
    #[error("bad word")]
    Bad,
    /// Memory was refused.
    #[error("out of memory")]
    OutOfMemory,
}

impl From<AllocError> for WordFault {
    ghost from_gives = { λ _ fault. fault ≡ OutOfMemory };

    fn from(_: AllocError) -> WordFault {
        WordFault::OutOfMemory
    }
}

impl From<otlp_ids::OutOfMemory> for WordFault {
    ghost from_gives = { λ _ fault. fault ≡ OutOfMemory };

    fn from(_: otlp_ids::OutOfMemory) -> WordFault {
        WordFault::OutOfMemory
    }
}

impl<T: Drop> From<AllocFailed<T>> for WordFault {
    ghost from_gives = { λ _ fault. fault ≡ OutOfMemory };

    fn from(_: AllocFailed<T>) -> WordFault {
        WordFault::OutOfMemory
    }
}

/// Whether there are decimal digits alone.
fn is_digits(word: &[u8]) -> bool
    ensures { result ≡ all_ascii_digits word.now }
{
    word.iter().all(|byte| byte.is_ascii_digit())
}

/// A number of 64 bits: decimal digits alone, leading zeros allowed.
///
/// # Errors
///
/// `Bad` where the word has no digit, another byte, or a number of 2^64 or more.
#[tactic(auto, unfolding(crate::specs::Words::number_below))]
pub fn number(word: &[u8]) -> Result<u64, WordFault>
    ensures { result ≡ ok_or (number_below (2 ^ 64) word.now) Bad }
{
    if !is_digits(word) {
        return Err(WordFault::Bad);
    }
    let Ok(text) = str::from_utf8(word) else {
        return Err(WordFault::Bad);
    };
    text.parse().ok().ok_or(WordFault::Bad)
}

/// A number of 32 bits: decimal digits alone, leading zeros allowed.
///
/// # Errors
///
/// `Bad` where the word has no digit, another byte, or a number of 2^32 or more.
#[tactic(auto, unfolding(crate::specs::Words::number_below))]
pub fn small_number(word: &[u8]) -> Result<u32, WordFault>
    ensures { result ≡ ok_or (number_below (2 ^ 32) word.now) Bad }
{
    let number = number(word)?;
    u32::try_from(number).map_err(|_| WordFault::Bad)
}

/// A whole number of 64 bits: decimal digits, after a `-` or without one. `-0` is 0.
///
/// # Errors
///
/// `Bad` where the word has no digit, another byte, or a number below -2^63 or above 2^63 - 1.
#[tactic(auto, unfolding(crate::specs::Words::number_below, crate::specs::Words::signed_number))]
pub fn integer(word: &[u8]) -> Result<i64, WordFault>
    ensures { result ≡ ok_or (signed_number word.now) Bad }
{
    let value = match word {
        [b'-', digits @ ..] => 0i64.checked_sub_unsigned(number(digits)?),
        _ => 0i64.checked_add_unsigned(number(word)?),
    };
    value.ok_or(WordFault::Bad)
}

/// Numbers of 64 bits, each of sixteen hexadecimal digits of either case.
///
/// # Errors
///
/// `Bad` where a word isn't sixteen such digits, `OutOfMemory` where memory was refused.
pub fn generator_words<A: Allocator>(alloc: A, words: &[&[u8]]) -> Result<Vec<u64, A>, WordFault>
    ensures { Gives (λ all. all.items) result (each_of hex_word (map (λ w. w.now) words.now)) }
{
    let mut all = Vec::new(alloc);
    for word in words {
        all.push(generator_word(word)?)?;
    }
    Ok(all)
}

/// A number of 64 bits: sixteen hexadecimal digits of either case, the most significant first.
#[tactic(auto, unfolding(crate::specs::Words::hex_word, crate::specs::Words::hex_bytes))]
fn generator_word(word: &[u8]) -> Result<u64, WordFault>
    ensures { result ≡ ok_or (hex_word word.now) Bad }
{
    match <[u8; 8]>::from_hex(word) {
        Ok(bytes) => Ok(u64::from_be_bytes(bytes)),
        Err(_) => Err(WordFault::Bad),
    }
}

/// The byte that two hexadecimal digits of either case spell.
fn escaped_byte(high: u8, low: u8) -> Option<u8>
    ensures { result ≡ hex_byte high low }
{
    let [byte] = <[u8; 1]>::from_hex([high, low]).ok()?;
    Some(byte)
}

/// A byte: two hexadecimal digits of either case.
///
/// # Errors
///
/// `Bad` where the word isn't two such digits.
#[tactic(auto, unfolding(crate::specs::Words::byte_of))]
pub fn byte(word: &[u8]) -> Result<u8, WordFault>
    ensures { result ≡ ok_or (byte_of word.now) Bad }
{
    match word {
        [high, low] => escaped_byte(*high, *low).ok_or(WordFault::Bad),
        _ => Err(WordFault::Bad),
    }
}

/// The first byte that a word spells, and the word after its spelling.
fn first_byte(word: &[u8]) -> Option<(u8, &[u8])>
    ensures { option_map (λ p. (p.0, p.1.now)) result ≡ first_byte_of word.now }
{
    match word {
        [] | [b'%'] | [b'%', _] => None,
        [b'%', high, low, rest @ ..] => Some((escaped_byte(*high, *low)?, rest)),
        [byte, rest @ ..] => Some((*byte, rest)),
    }
}

/// The bytes that a word spells.
fn unescaped<A: Allocator>(alloc: A, word: &[u8]) -> Result<Vec<u8, A>, WordFault>
    ensures { Gives (λ v. v.items) result (bytes_of word.now) }
{
    let mut bytes = Vec::new(alloc);
    let mut rest = word;
    while !rest.is_empty() {
        let Some((byte, after)) = first_byte(rest) else {
            return Err(WordFault::Bad);
        };
        bytes.push(byte)?;
        rest = after;
    }
    Ok(bytes)
}

/// The text of these bytes, if they are UTF-8.
fn utf8<A: Allocator>(bytes: Vec<u8, A>) -> Option<String<A>>
    ensures { option_map string_bytes result ≡ utf8_of bytes.items }
{
    match String::from_utf8(bytes) {
        Ok(text) => Some(text),
        Err(_) => None,
    }
}

/// A text: `%` and two hexadecimal digits are that byte, any other byte stands for itself, and the
/// whole is UTF-8. The text of no bytes is spelled `%` alone.
///
/// # Errors
///
/// `Bad` where the word is empty, a `%` is in it (and not alone) without two digits after it,
/// or the bytes aren't UTF-8. `OutOfMemory` where memory was refused.
#[tactic(auto, unfolding(crate::specs::Words::text_of))]
pub fn text<A: Allocator>(alloc: A, word: &[u8]) -> Result<String<A>, WordFault>
    ensures { Gives string_bytes result (text_of word.now) }
{
    match word {
        [] => Err(WordFault::Bad),
        b"%" => Ok(String::new(alloc)),
        _ => utf8(unescaped(alloc, word)?).ok_or(WordFault::Bad),
    }
}

/// A word stands for a text exactly where it spells it: each byte of the text by itself, unless it
/// is `%`, or by `%` and two hexadecimal digits, one byte after the other; and a text without bytes
/// by `%` alone. (profile)
pub fn texts_are_spelled()
    ensures { TextsAreSpelled }
{}
