//! Fields that hold no message.

ghost use Rattle.std.specs.Prelude.{◌≡◌, Ok};
ghost use Rattle.std.specs.List.{list_any};
ghost use Rattle.json.specs.Reads.{token_of};
ghost use Rattle.model_message.specs.Wire.{varint, i64, len, i32};
ghost use Rattle.otlp_json.specs.Leaves as spec;
ghost use Rattle.otlp_json.specs.declared.names.Leaf.TheVariants as leaves;
ghost use Rattle.otlp_json.specs.Writing.{Gives, Leaves, fielded};

use crate::fault::{JsonFault, Stop};
use crate::names::Leaf;
use crate::number::{double, quoted_double, whole};
use base64::DecodeAllocError;
use base64::engine::general_purpose::{STANDARD_PAD_INDIFFERENT, URL_SAFE_PAD_INDIFFERENT};
use hex::FromHexError;
use json::Token;
use otlp_ids::OutOfMemory;
use otlp_wire::{write_fixed32, write_fixed64, write_len, write_varint};
use std::alloc::Allocator;

/// The fault of a token in the place of another.
pub(crate) fn mismatch(token: Token<'_>) -> JsonFault
    ensures { result ≡ spec.mismatch (token_of token.entry) }
{
    match token {
        Token::EndObject | Token::EndArray | Token::Key(_) | Token::Bad => JsonFault::Malformed,
        _ => JsonFault::WrongType,
    }
}

/// The text that a token is.
fn text_in<'a>(token: Token<'a>) -> Result<&'a str, Stop>
    ensures { Gives (λ text. text.now) result (spec.text_in (token_of token.entry)) }
{
    match token {
        Token::String(text) => Ok(text),
        _ => Err(Stop::Fault(mismatch(token))),
    }
}

/// The truth value that a token is.
fn truth_in(token: Token<'_>) -> Result<bool, Stop>
    ensures { Gives (λ truth. truth) result (spec.truth_in (token_of token.entry)) }
{
    match token {
        Token::Bool(truth) => Ok(truth),
        _ => Err(Stop::Fault(mismatch(token))),
    }
}

/// The text of a number.
fn number_in<'a>(token: Token<'a>) -> Result<&'a str, Stop>
    ensures { Gives (λ text. text.now) result (spec.number_in (token_of token.entry)) }
{
    match token {
        Token::Number(text) => Ok(text),
        _ => Err(Stop::Fault(mismatch(token))),
    }
}

/// The text of a number, which may be in quotes.
fn numeral_in<'a>(token: Token<'a>) -> Result<&'a str, Stop>
    ensures { Gives (λ text. text.now) result (spec.numeral_in (token_of token.entry)) }
{
    match token {
        Token::Number(text) => Ok(text),
        Token::String(text) => Ok(text),
        _ => Err(Stop::Fault(mismatch(token))),
    }
}

/// The bytes that are in hexadecimal, in either case.
#[tactic(auto, unfolding(crate::specs::Leaves::identifier))]
fn identifier<A: Allocator>(alloc: A, text: &str) -> Result<Vec<u8, A>, Stop>
    ensures { Gives (λ bytes. bytes.items) result (spec.identifier text.now) }
{
    match hex::decode(alloc, text.as_bytes()) {
        Ok(bytes) => Ok(bytes),
        Err(FromHexError::OutOfMemory) => Err(Stop::OutOfMemory),
        Err(_) => Err(Stop::Fault(JsonFault::BadIdentifier)),
    }
}

/// Whether a sign is there that only the URL-safe alphabet has.
fn is_url_safe(text: &[u8]) -> bool
    ensures { result ≡ list_any spec.is_url_safe text.now }
{
    text.iter().any(|b| *b == b'-' || *b == b'_')
}

/// The bytes that are in Base64 of the standard alphabet.
#[tactic(auto, unfolding(crate::specs::Leaves::standard_bytes))]
fn standard_bytes<A: Allocator>(alloc: A, text: &[u8]) -> Result<Vec<u8, A>, Stop>
    ensures { Gives (λ bytes. bytes.items) result (spec.standard_bytes text.now) }
{
    match STANDARD_PAD_INDIFFERENT.decode(alloc, text) {
        Ok(bytes) => Ok(bytes),
        Err(DecodeAllocError::OutOfMemory) => Err(Stop::OutOfMemory),
        Err(DecodeAllocError::DecodeError(_)) => Err(Stop::Fault(JsonFault::BadBase64)),
    }
}

/// The bytes that are in Base64 of the URL-safe alphabet.
#[tactic(auto, unfolding(crate::specs::Leaves::url_safe_bytes))]
fn url_safe_bytes<A: Allocator>(alloc: A, text: &[u8]) -> Result<Vec<u8, A>, Stop>
    ensures { Gives (λ bytes. bytes.items) result (spec.url_safe_bytes text.now) }
{
    match URL_SAFE_PAD_INDIFFERENT.decode(alloc, text) {
        Ok(bytes) => Ok(bytes),
        Err(DecodeAllocError::OutOfMemory) => Err(Stop::OutOfMemory),
        Err(DecodeAllocError::DecodeError(_)) => Err(Stop::Fault(JsonFault::BadBase64)),
    }
}

/// The bytes that are in Base64.
#[tactic(auto, unfolding(crate::specs::Leaves::base64_bytes))]
fn base64_bytes<A: Allocator>(alloc: A, text: &str) -> Result<Vec<u8, A>, Stop>
    ensures { Gives (λ bytes. bytes.items) result (spec.base64_bytes text.now) }
{
    let bytes = text.as_bytes();
    if is_url_safe(bytes) {
        url_safe_bytes(alloc, bytes)
    } else {
        standard_bytes(alloc, bytes)
    }
}

/// The bits of the double that a token is.
#[tactic(auto, unfolding(crate::specs::Leaves::double_in))]
fn double_in(token: Token<'_>) -> Result<u64, Stop>
    ensures { Gives (λ bits. bits) result (spec.double_in (token_of token.entry)) }
{
    match token {
        Token::Number(text) => Ok(double(text)?),
        Token::String(text) => Ok(quoted_double(text)?),
        _ => Err(Stop::Fault(mismatch(token))),
    }
}

/// Appends a field that holds a varint.
fn put_varint<A: Allocator>(out: &mut Vec<u8, A>, number: u8, value: u64) -> Result<(), Stop>
    ensures { Leaves result out.new.items (fielded out.old.items number (Ok (varint value))) }
{
    // (wire type 0)
    write_varint(out, number as u64 * 8)?;
    write_varint(out, value)?;
    Ok(())
}

/// Appends a field that holds a number of 64 bits.
fn put_fixed64<A: Allocator>(out: &mut Vec<u8, A>, number: u8, value: u64) -> Result<(), Stop>
    ensures { Leaves result out.new.items (fielded out.old.items number (Ok (i64 value))) }
{
    write_varint(out, number as u64 * 8 + 1)?;
    write_fixed64(out, value)?;
    Ok(())
}

/// Appends a field that holds a number of 32 bits.
fn put_fixed32<A: Allocator>(out: &mut Vec<u8, A>, number: u8, value: u32) -> Result<(), Stop>
    ensures { Leaves result out.new.items (fielded out.old.items number (Ok (i32 value))) }
{
    write_varint(out, number as u64 * 8 + 5)?;
    write_fixed32(out, value)?;
    Ok(())
}

/// Appends a field that holds bytes.
fn put_bytes<A: Allocator>(out: &mut Vec<u8, A>, number: u8, bytes: &[u8]) -> Result<(), Stop>
    ensures { Leaves result out.new.items (fielded out.old.items number (Ok (len bytes.now))) }
{
    write_varint(out, number as u64 * 8 + 2)?;
    write_len(out, bytes)?;
    Ok(())
}

/// Appends a field that holds a text.
#[tactic(auto, unfolding(crate::specs::Leaves::payload))]
fn put_text<A: Allocator>(out: &mut Vec<u8, A>, number: u8, token: Token<'_>) -> Result<(), Stop>
    ensures { Leaves result out.new.items
        (fielded out.old.items number (spec.payload leaves.Text (token_of token.entry))) }
{
    let text = text_in(token)?;
    put_bytes(out, number, text.as_bytes())
}

/// Appends a field that holds an identifier.
#[tactic(auto, unfolding(crate::specs::Leaves::payload))]
fn put_identifier<A: Allocator + Copy>(
    alloc: A,
    out: &mut Vec<u8, A>,
    number: u8,
    token: Token<'_>,
) -> Result<(), Stop>
    ensures { Leaves result out.new.items
        (fielded out.old.items number (spec.payload leaves.Id (token_of token.entry))) }
{
    let text = text_in(token)?;
    let bytes = identifier(alloc, text)?;
    put_bytes(out, number, bytes.as_slice())
}

/// Appends a field that holds bytes in Base64.
#[tactic(auto, unfolding(crate::specs::Leaves::payload))]
fn put_base64<A: Allocator + Copy>(
    alloc: A,
    out: &mut Vec<u8, A>,
    number: u8,
    token: Token<'_>,
) -> Result<(), Stop>
    ensures { Leaves result out.new.items
        (fielded out.old.items number (spec.payload leaves.Bytes (token_of token.entry))) }
{
    let text = text_in(token)?;
    let bytes = base64_bytes(alloc, text)?;
    put_bytes(out, number, bytes.as_slice())
}

/// Appends a field that holds a truth value.
#[tactic(auto, unfolding(crate::specs::Leaves::payload))]
fn put_truth<A: Allocator>(out: &mut Vec<u8, A>, number: u8, token: Token<'_>) -> Result<(), Stop>
    ensures { Leaves result out.new.items
        (fielded out.old.items number (spec.payload leaves.Bool (token_of token.entry))) }
{
    let truth = truth_in(token)?;
    put_varint(out, number, if truth { 1 } else { 0 })
}

/// Appends a field that holds a number of 32 bits without a sign.
#[tactic(auto, unfolding(crate::specs::Leaves::payload))]
fn put_uint32<A: Allocator>(out: &mut Vec<u8, A>, number: u8, token: Token<'_>) -> Result<(), Stop>
    ensures { Leaves result out.new.items
        (fielded out.old.items number (spec.payload leaves.Uint32 (token_of token.entry))) }
{
    let text = numeral_in(token)?;
    let value = whole(text, 0xffff_ffff, 0)?;
    put_varint(out, number, value)
}

/// Appends a field that holds four bytes.
#[tactic(auto, unfolding(crate::specs::Leaves::payload))]
fn put_flags<A: Allocator>(out: &mut Vec<u8, A>, number: u8, token: Token<'_>) -> Result<(), Stop>
    ensures { Leaves result out.new.items
        (fielded out.old.items number (spec.payload leaves.Fixed32 (token_of token.entry))) }
{
    let text = numeral_in(token)?;
    let value = whole(text, 0xffff_ffff, 0)?;
    put_fixed32(out, number, value as u32)
}

/// Appends a field that holds an enumeration's number.
#[tactic(auto, unfolding(crate::specs::Leaves::payload))]
fn put_enum<A: Allocator>(out: &mut Vec<u8, A>, number: u8, token: Token<'_>) -> Result<(), Stop>
    ensures { Leaves result out.new.items
        (fielded out.old.items number (spec.payload leaves.Enum (token_of token.entry))) }
{
    let text = number_in(token)?;
    let value = whole(text, 0x7fff_ffff, 0x8000_0000)?;
    put_varint(out, number, value)
}

/// Appends a field that holds a number of 64 bits with a sign.
#[tactic(auto, unfolding(crate::specs::Leaves::payload))]
fn put_int64<A: Allocator>(out: &mut Vec<u8, A>, number: u8, token: Token<'_>) -> Result<(), Stop>
    ensures { Leaves result out.new.items
        (fielded out.old.items number (spec.payload leaves.Int64 (token_of token.entry))) }
{
    let text = numeral_in(token)?;
    let value = whole(text, 0x7fff_ffff_ffff_ffff, 0x8000_0000_0000_0000)?;
    put_varint(out, number, value)
}

/// Appends a field that holds eight bytes.
#[tactic(auto, unfolding(crate::specs::Leaves::payload))]
fn put_time<A: Allocator>(out: &mut Vec<u8, A>, number: u8, token: Token<'_>) -> Result<(), Stop>
    ensures { Leaves result out.new.items
        (fielded out.old.items number (spec.payload leaves.Fixed64 (token_of token.entry))) }
{
    let text = numeral_in(token)?;
    let value = whole(text, u64::MAX, 0)?;
    put_fixed64(out, number, value)
}

/// Appends a field that holds a double.
#[tactic(auto, unfolding(crate::specs::Leaves::payload))]
fn put_double<A: Allocator>(out: &mut Vec<u8, A>, number: u8, token: Token<'_>) -> Result<(), Stop>
    ensures { Leaves result out.new.items
        (fielded out.old.items number (spec.payload leaves.Double (token_of token.entry))) }
{
    let bits = double_in(token)?;
    put_fixed64(out, number, bits)
}

/// Appends the field of this number that holds what the token means.
pub(crate) fn put_leaf<A: Allocator + Copy>(
    alloc: A,
    out: &mut Vec<u8, A>,
    number: u8,
    leaf: Leaf,
    token: Token<'_>,
) -> Result<(), Stop>
    ensures { Leaves result out.new.items
        (fielded out.old.items number (spec.payload leaf (token_of token.entry))) }
{
    match leaf {
        Leaf::Text => put_text(out, number, token),
        Leaf::Id => put_identifier(alloc, out, number, token),
        Leaf::Bytes => put_base64(alloc, out, number, token),
        Leaf::Bool => put_truth(out, number, token),
        Leaf::Uint32 => put_uint32(out, number, token),
        Leaf::Fixed32 => put_flags(out, number, token),
        Leaf::Enum => put_enum(out, number, token),
        Leaf::Int64 => put_int64(out, number, token),
        Leaf::Fixed64 => put_time(out, number, token),
        Leaf::Double => put_double(out, number, token),
    }
}
