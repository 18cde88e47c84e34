//! The words of a line.

ghost use Rattle.std.specs.Prelude.{◌≡◌, ◌<◌, ◌≤◌, ◌++◌, IfOk, OnOk, encode_utf8_all, map};
ghost use Rattle.std.specs.Prelude.{replicate, string_bytes};
ghost use Rattle.std.specs.Str.{chars};
ghost use Rattle.trace_tree.specs.Words.{duration_text, error_text, is_hidden_category};
ghost use Rattle.trace_tree.specs.Words.{is_hidden_char, name_text, place_text, scaled, shown_char};

use crate::span::Place;
use otlp_ids::OutOfMemory;
use std::alloc::Allocator;
use ucd_category::GeneralCategory;
use ucd_derived::is_default_ignorable_code_point;

/// Appends this many spaces.
pub(crate) fn push_spaces<A: Allocator>(
    out: &mut String<A>,
    count: usize,
) -> Result<(), OutOfMemory>
    ensures { OnOk result (string_bytes out.new
        ≡ string_bytes out.old ++ replicate count 32) }
{
    for _ in 0..count {
        out.push(' ')?;
    }
    Ok(())
}

/// Appends this many marks of a bar.
pub(crate) fn push_marks<A: Allocator>(out: &mut String<A>, count: usize) -> Result<(), OutOfMemory>
    ensures { OnOk result (string_bytes out.new
        ≡ string_bytes out.old ++ replicate count 35) }
{
    for _ in 0..count {
        out.push('#')?;
    }
    Ok(())
}

/// Whether a character of this category is no part of a line: a control, one that formats text,
/// such as a mark that turns its direction, or a separator of lines or paragraphs.
fn is_hidden_category(category: GeneralCategory) -> bool
    ensures { result ≡ is_hidden_category category }
{
    matches!(
        category,
        GeneralCategory::Control
            | GeneralCategory::Format
            | GeneralCategory::LineSeparator
            | GeneralCategory::ParagraphSeparator
    )
}

/// Whether a character is no part of a line: by its category, or since it shows nothing.
fn is_hidden(ch: char) -> bool
    ensures { result ≡ is_hidden_char ch }
{
    is_hidden_category(GeneralCategory::for_char(ch)) || is_default_ignorable_code_point(ch)
}

/// What is shown of a character: itself, or `?` where it is no part of a line.
fn shown_char(ch: char) -> char
    ensures { result ≡ shown_char ch }
{
    if is_hidden(ch) { '?' } else { ch }
}

/// Appends characters.
fn push_chars<A: Allocator>(out: &mut String<A>, chars: &[char]) -> Result<(), OutOfMemory>
    ensures { OnOk result (string_bytes out.new
        ≡ string_bytes out.old ++ encode_utf8_all chars.now) }
{
    for ch in chars {
        out.push(*ch)?;
    }
    Ok(())
}

/// The characters of a name, as they are shown.
fn shown_chars<A: Allocator>(alloc: A, name: &str) -> Result<Vec<char, A>, OutOfMemory>
    ensures { IfOk result (λ shown. shown.items ≡ map shown_char (chars name.now)) }
{
    Ok(name.chars().map(shown_char).collect(alloc)?)
}

/// Appends a name in this many columns, one for each character: cut, with `~` in the last column,
/// or with spaces after it.
pub(crate) fn push_name<A: Allocator + Copy>(
    out: &mut String<A>,
    name: &str,
    room: usize,
) -> Result<(), OutOfMemory>
    requires { 0 < room }
    ensures { OnOk result (string_bytes out.new ≡ string_bytes out.old
        ++ name_text room (map shown_char (chars name.now))) }
{
    let shown = shown_chars(*out.allocator(), name)?;
    push_cut(out, &shown, room)
}

/// Appends characters in this many columns.
#[tactic(auto, unfolding(crate::specs::Words::name_text))]
fn push_cut<A: Allocator>(
    out: &mut String<A>,
    shown: &[char],
    room: usize,
) -> Result<(), OutOfMemory>
    requires { 0 < room }
    ensures { OnOk result (string_bytes out.new
        ≡ string_bytes out.old ++ name_text room shown.now) }
{
    if shown.len() <= room {
        push_chars(out, shown)?;
        return push_spaces(out, room - shown.len());
    }
    push_chars(out, &shown[..room - 1])?;
    Ok(out.push('~')?)
}

/// Appends a time with three digits, in a unit of this many nanoseconds.
#[tactic(auto, unfolding(crate::specs::Words::scaled))]
fn push_scaled<A: Allocator>(
    out: &mut String<A>,
    nanos: u64,
    unit: u64,
    name: &str,
) -> Result<(), OutOfMemory>
    requires { 100 ≤ unit }
    ensures { OnOk result (string_bytes out.new
        ≡ string_bytes out.old ++ scaled nanos unit name.now) }
{
    let whole = nanos / unit;
    let tenth = nanos % unit / (unit / 10);
    let hundredth = nanos % unit / (unit / 100) % 10;
    if whole < 10 {
        write!(out, "{whole}.{tenth}{hundredth}{name}")?;
    } else if whole < 100 {
        write!(out, "{whole}.{tenth}{name}")?;
    } else {
        write!(out, "{whole}{name}")?;
    }
    Ok(())
}

/// Appends a time: three digits, in microseconds, milliseconds or seconds; what is less is left
/// out.
pub(crate) fn push_duration<A: Allocator>(
    out: &mut String<A>,
    nanos: u64,
) -> Result<(), OutOfMemory>
    ensures { OnOk result (string_bytes out.new ≡ string_bytes out.old ++ duration_text nanos) }
{
    if nanos < 1_000_000 {
        push_scaled(out, nanos, 1_000, "us")
    } else if nanos < 1_000_000_000 {
        push_scaled(out, nanos, 1_000_000, "ms")
    } else {
        push_scaled(out, nanos, 1_000_000_000, "s")
    }
}

/// Appends what else is said of a span: that it is an error, and why it is at the top.
pub(crate) fn push_remarks<A: Allocator>(
    out: &mut String<A>,
    is_error: bool,
    place: Place,
) -> Result<(), OutOfMemory>
    ensures { OnOk result (string_bytes out.new
        ≡ string_bytes out.old ++ (error_text is_error ++ place_text place)) }
{
    if is_error {
        out.push_str("  error")?;
    }
    push_place(out, place)
}

/// Appends why a span is at the top, if that has to be said.
fn push_place<A: Allocator>(out: &mut String<A>, place: Place) -> Result<(), OutOfMemory>
    ensures { OnOk result (string_bytes out.new ≡ string_bytes out.old ++ place_text place) }
{
    match place {
        Place::Root | Place::Child => Ok(()),
        Place::Orphan => Ok(out.push_str("  parent not received")?),
        Place::Cycle => Ok(out.push_str("  cycle")?),
    }
}
