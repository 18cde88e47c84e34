//! A text, written character by character.

ghost use Rattle.std.specs.Prelude.{◌≡◌, ℕ, ◌++◌, List, MatchResult, encode_utf8_all, is_ok};
ghost use Rattle.std.specs.Prelude.{if◌then◌else◌, map, option_map, string_bytes, take};
ghost use Rattle.std.specs.Str.{chars};
ghost use Rattle.page_text.specs.Pages.{Place, read_text};
ghost use Rattle.page_text.specs.Written.{char_markup, shown_char, text_markup};

use std::alloc::{AllocError, Allocator};

/// Appends a character.
#[tactic(auto, unfolding(crate::specs::Written::char_markup))]
fn push_char<A: Allocator>(out: &mut String<A>, ch: char) -> Result<(), AllocError>
    ensures { string_bytes out.new ≡ (if is_ok result
        then string_bytes out.old ++ encode_utf8_all (char_markup ch) else string_bytes out.old) }
{
    match ch {
        '&' => out.push_str("&amp;"),
        '<' => out.push_str("&lt;"),
        '>' => out.push_str("&gt;"),
        '"' => out.push_str("&quot;"),
        '\'' => out.push_str("&#39;"),
        '\r' => out.push_str("&#13;"),
        '\0' => out.push('\u{fffd}'),
        _ => out.push(ch),
    }
}

/// Appends a text to a page, at a place where text may be: between tags, or in a value of an
/// attribute between two `"` or two `'`.
///
/// A browser that reads the page reads this text there, character for character, and no part of
/// it as markup, whatever is in the text and whatever comes after it. One character can't be
/// written in HTML: NUL, in whose place it reads U+FFFD, the replacement character.
///
/// `&`, `<`, `>`, `"`, `'` and carriage returns are written as references of characters, since a
/// browser reads markup in the first five, and a line feed in place of a carriage return. All
/// others are written as they are: so controls and marks that turn the direction of text are read
/// as they came. An element of its own (`<bdi>`) keeps such marks from turning the text around it.
///
/// What is text in a page depends on the element, too: the contents of `<script>` and `<style>`
/// are no place for text, nor is a value without quotes, and a browser leaves out a line feed
/// right after `<pre>` and `<textarea>`.
///
/// # Errors
///
/// `AllocError` where the page could not be stored. The first characters of the text may then
/// have been appended, each whole.
pub fn write_text<A: Allocator>(out: &mut String<A>, text: &str) -> Result<(), AllocError>
    ensures written { MatchResult result
        (λ _. string_bytes out.new
        ≡ string_bytes out.old ++ encode_utf8_all (text_markup (chars text.now)))
        (λ _. (n : ℕ) × (string_bytes out.new
        ≡ string_bytes out.old ++ encode_utf8_all (text_markup (take n (chars text.now))))) }
    ensures read_back { (place : Place) (after : List ℕ)
        → read_text place (text_markup (chars text.now) ++ after)
        ≡ option_map (λ read. map shown_char (chars text.now) ++ read) (read_text place after) }
{
    for ch in text.chars() {
        push_char(out, ch)?;
    }
    Ok(())
}
