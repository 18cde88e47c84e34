//! The fields of a head.

ghost use Rattle.std.specs.Prelude.{◌≡◌, ◌<◌, ◌≤◌, ◌⊎◌, length, map, codes, bytes_eq, All, IfOk};
ghost use Rattle.std.specs.Prelude.{IfErr, IsErrOf, OnOk, Some, None, if◌then◌else◌};
ghost use Rattle.std.specs.List.{list_all};
ghost use Rattle.std.specs.Char.{is_ascii_digit};
ghost use Rattle.std.specs.Str.Parse.{digits_value};
ghost use Rattle.http_header.specs.FieldValue.{plain_value};
ghost use Rattle.http_header.specs.HeaderMap.{append, get_all, RefusesAppend};
ghost use Rattle.http_header.specs.Token.{lowercase};
ghost use Rattle.httparse.specs.Spans.{header_bytes, IsHeaderWithin};
ghost use Rattle.http_wire.specs.Fields.{content_length, is_digits, is_length};
ghost use Rattle.http_wire.specs.Fields.{IsTaken, KeepsFields, RefusesFields};

use crate::fault::HttpFault;
use http_header::{
    HeaderMap, HeaderMapError, HeaderName, HeaderNameError, HeaderValue, HeaderValueError,
    ValueIter,
};
use httparse::spans::HeaderSpan;
use std::alloc::Global;
use std::str;

/// Keeps a field.
fn keep_field(
    global: Global,
    kept: &mut HeaderMap,
    name: &[u8],
    value: &[u8],
) -> Result<(), HttpFault>
    ensures ok { OnOk result
        (kept.new ≡ append kept.old (lowercase name.now) (plain_value value.now)) }
    ensures taken { OnOk result (IsTaken (name.now, value.now)) }
    ensures bad { IsErrOf result HttpFault.BadHead
        → (¬ (IsTaken (name.now, value.now))) ⊎ RefusesAppend kept.old (lowercase name.now) }
    ensures only { IfErr result (λ fault.
        (fault ≡ HttpFault.BadHead) ⊎ (fault ≡ HttpFault.OutOfMemory)) }
{
    let name = match HeaderName::from_bytes(global, name) {
        Ok(name) => name,
        Err(HeaderNameError::Invalid) => return Err(HttpFault::BadHead),
        Err(HeaderNameError::OutOfMemory) => return Err(HttpFault::OutOfMemory),
    };
    let value = match HeaderValue::from_bytes(global, value) {
        Ok(value) => value,
        Err(HeaderValueError::Invalid) => return Err(HttpFault::BadHead),
        Err(HeaderValueError::OutOfMemory) => return Err(HttpFault::OutOfMemory),
    };
    match kept.append(name, value) {
        Ok(_) => Ok(()),
        Err(HeaderMapError::MaxSizeReached) => Err(HttpFault::BadHead),
        Err(HeaderMapError::OutOfMemory) => Err(HttpFault::OutOfMemory),
    }
}

/// Keeps the fields that the spans cover.
///
/// # Errors
///
/// `BadHead` where `http_header` refuses a field, and `OutOfMemory` where memory was refused.
pub fn keep_fields(
    global: Global,
    text: &[u8],
    spans: &[HeaderSpan],
) -> Result<HeaderMap, HttpFault>
    requires within { All (IsHeaderWithin (length text.now)) spans.now }
    requires few { length spans.now ≤ 64 }
    ensures kept { IfOk result (λ kept. KeepsFields kept (map (header_bytes text.now) spans.now)) }
    ensures taken { OnOk result (All IsTaken (map (header_bytes text.now) spans.now)) }
    ensures refused { IfErr result (RefusesFields (map (header_bytes text.now) spans.now)) }
{
    let mut kept = HeaderMap::new(global);
    for span in spans {
        let name = span.name.of(text);
        let value = span.value.of(text);
        match keep_field(global, &mut kept, name, value) {
            Ok(()) => {}
            Err(fault) => return Err(fault),
        }
    }
    Ok(kept)
}

/// Whether each byte is a decimal digit.
fn are_digits(text: &[u8]) -> bool
    ensures { result ≡ list_all is_ascii_digit text.now }
{
    text.iter().all(|b| b.is_ascii_digit())
}

/// Whether the text is decimal digits, one or more.
pub fn is_digits(text: &[u8]) -> bool
    ensures { result ≡ is_digits text.now }
{
    !text.is_empty() && are_digits(text)
}

/// The number that digits write, where it fits 64 bits.
pub fn read_length(text: &[u8]) -> Option<u64>
    ensures { result ≡ (if is_length text.now then Some (digits_value 10 text.now) else None) }
{
    if !is_digits(text) {
        return None;
    }
    match str::from_utf8(text) {
        Ok(text) => text.parse::<u64>().ok(),
        Err(_) => None,
    }
}

/// Whether each of the values is that text.
fn are_all(text: &[u8], mut values: ValueIter<'_, HeaderValue>) -> bool
    ensures { result ≡ list_all (λ v. bytes_eq text.now v.bytes) values.entry }
{
    values.all(|value| text == value.as_bytes())
}

/// The length that the fields give, if they give one.
///
/// # Errors
///
/// `BadLength` where the values differ, or aren't digits that fit 64 bits.
pub fn content_length(kept: &HeaderMap) -> Result<Option<u64>, HttpFault>
    ensures { result
        ≡ content_length (map (λ v. v.bytes) (get_all kept.now (codes "content-length"))) }
{
    let mut values = kept.get_all("content-length").iter();
    let Some(first) = values.next() else {
        return Ok(None);
    };
    let first = first.as_bytes();
    if !are_all(first, values) {
        return Err(HttpFault::BadLength);
    }
    match read_length(first) {
        Some(n) => Ok(Some(n)),
        None => Err(HttpFault::BadLength),
    }
}
