//! The parts of a text: what is between separators, around the first of them, and between blanks.
ghost use Rattle.std.specs.Prelude.{◌≡◌, ◌==◌, map, IfOk, option_map};
ghost use Rattle.std.specs.List.{slice_split};
ghost use Rattle.httparse.specs.Grammar.{skip_ows, trim_ows};
ghost use Rattle.text_words.specs.Parts as spec;
ghost use Rattle.text_words.specs.Parts.{without_end_blanks};

use httparse::is_space_or_tab;
use std::alloc::{AllocError, Allocator};

/// The parts between the bytes that are `separator`: one more than there are such bytes. A part may
/// be empty.
///
/// # Errors
///
/// `AllocError` where memory for the list was refused.
pub fn parts_of<A: Allocator>(
    alloc: A,
    bytes: &[u8],
    separator: u8,
) -> Result<Vec<&[u8], A>, AllocError>
    ensures { IfOk result
        (λ parts. map (λ p. p.now) parts.items ≡ slice_split (λ b. b == separator) bytes.now) }
{
    bytes.split(|byte| *byte == separator).collect(alloc)
}

/// What comes before the first byte that is `separator`, and what comes after it; `None` where
/// there is no such byte.
pub fn around_first(separator: u8, text: &[u8]) -> Option<(&[u8], &[u8])>
    ensures { option_map (λ p. (p.0.now, p.1.now)) result ≡ spec.around_first separator text.now }
{
    let place = text.iter().position(|byte| *byte == separator)?;
    Some((&text[..place], &text[place + 1..]))
}

/// The bytes without the spaces and tabs in front.
fn without_front_blanks(text: &[u8]) -> &[u8]
    ensures { result.now ≡ skip_ows text.now }
{
    let mut rest = text;
    while let [first, after @ ..] = rest {
        if !is_space_or_tab(*first) {
            return rest;
        }
        rest = after;
    }
    rest
}

/// The bytes without the spaces and tabs at their end.
fn without_end_blanks(text: &[u8]) -> &[u8]
    ensures { result.now ≡ without_end_blanks text.now }
{
    let mut rest = text;
    while let [before @ .., last] = rest {
        if !is_space_or_tab(*last) {
            return rest;
        }
        rest = before;
    }
    rest
}

/// The bytes without the spaces and tabs around them (RFC 9110, section 5.6.3, "OWS").
#[tactic(auto, unfolding(httparse::specs::Grammar::trim_ows))]
pub fn trimmed(text: &[u8]) -> &[u8]
    ensures { result.now ≡ trim_ows text.now }
{
    without_end_blanks(without_front_blanks(text))
}
