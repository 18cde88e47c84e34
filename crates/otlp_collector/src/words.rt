//! The words of a line.

ghost use Rattle.std.specs.Prelude.{◌≡◌, ◌++◌, OnOk, string_bytes};
ghost use Rattle.std.specs.List.{flat_map};
ghost use Rattle.otlp_collector.specs.Lines.{byte_word, bytes_word, is_plain, text_word};

use otlp_ids::OutOfMemory;
use std::alloc::Allocator;

/// Whether a byte is written as it is: letters, digits, `.`, `_`, `-`, `/` and `:` do.
fn is_plain(byte: u8) -> bool
    ensures { result ≡ is_plain byte }
{
    byte.is_ascii_alphanumeric() || b"._-/:".contains(&byte)
}

/// Appends a byte, by itself or as `%` and two hexadecimal digits.
fn push_byte<A: Allocator + Copy>(out: &mut String<A>, byte: u8) -> Result<(), OutOfMemory>
    ensures { OnOk result (string_bytes out.new ≡ string_bytes out.old ++ byte_word byte) }
{
    if is_plain(byte) {
        out.push(char::from(byte))?;
        return Ok(());
    }
    let digits = hex::encode(*out.allocator(), [byte])?;
    out.push('%')?;
    out.push_str(&digits)?;
    Ok(())
}

/// Appends a text, of which none is `%`.
pub(crate) fn push_text<A: Allocator + Copy>(
    out: &mut String<A>,
    text: &str,
) -> Result<(), OutOfMemory>
    ensures { OnOk result (string_bytes out.new ≡ string_bytes out.old ++ text_word text.now) }
{
    if text.is_empty() {
        out.push('%')?;
        return Ok(());
    }
    for &byte in text.as_bytes() {
        push_byte(out, byte)?;
    }
    Ok(())
}

/// Appends bytes in hexadecimal digits, of which none are `%`.
pub(crate) fn push_bytes<A: Allocator + Copy>(
    out: &mut String<A>,
    bytes: &[u8],
) -> Result<(), OutOfMemory>
    ensures { OnOk result (string_bytes out.new ≡ string_bytes out.old ++ bytes_word bytes.now) }
{
    if bytes.is_empty() {
        out.push('%')?;
        return Ok(());
    }
    let digits = hex::encode(*out.allocator(), bytes)?;
    out.push_str(&digits)?;
    Ok(())
}
