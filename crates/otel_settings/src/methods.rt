//! The methods of HTTP that spans are named by.

ghost use Rattle.std.specs.Prelude.{◌≡◌, ◌++◌, [], IfOk, OnOk, is_some, map, option_map};
ghost use Rattle.std.specs.Prelude.{string_bytes, unwrap_or};
ghost use Rattle.otel_settings.specs.Faults.{faults_view, read_by};
ghost use Rattle.otel_settings.specs.Methods as methods;
ghost use Rattle.otel_settings.specs.Pairs.{pairs_view};

use crate::fault::{Instead, SettingFault, note_unread};
use crate::pairs::text_set;
use crate::variable::Variable;
use httparse::is_token;
use std::alloc::{AllocError, Allocator};
use text_words::{parts_of, trimmed};

/// Whether this is a method, or nothing, between blanks.
#[tactic(auto, unfolding(crate::specs::Methods::is_method_or_nothing))]
fn is_method_or_nothing(part: &[u8]) -> bool
    ensures { result ≡ methods.is_method_or_nothing part.now }
{
    let word = trimmed(part);
    word.is_empty() || is_token(word)
}

/// Whether each of these parts is a method, or nothing, between blanks.
fn are_methods(parts: &[&[u8]]) -> bool
    ensures { result ≡ methods.are_methods (map (λ p. p.now) parts.now) }
{
    let mut rest = parts;
    while let [first, after @ ..] = rest {
        if !is_method_or_nothing(first) {
            return false;
        }
        rest = after;
    }
    true
}

/// Whether a text lists methods.
fn lists_methods<A: Allocator>(alloc: A, text: &str) -> Result<bool, AllocError>
    ensures { IfOk result (λ lists. lists ≡ methods.lists_methods text.now) }
{
    let parts = parts_of(alloc, text.as_bytes(), b',')?;
    Ok(are_methods(&parts))
}

/// The text, where it is set and lists methods, and whether it does; else an empty one.
#[tactic(auto, unfolding(crate::specs::Methods::method_list))]
fn methods_in<A: Allocator + Copy>(
    alloc: A,
    text: Option<&str>,
) -> Result<(String<A>, bool), AllocError>
    ensures text { let read = read_by methods.method_list (option_map (λ t. t.now) text.entry) in
        IfOk result (λ found. string_bytes found.0 ≡ unwrap_or read []) }
    ensures is_read { let read = read_by methods.method_list (option_map (λ t. t.now) text.entry) in
        IfOk result (λ found. found.1 ≡ is_some read) }
{
    let Some(text) = text else {
        return Ok((String::new(alloc), false));
    };
    if !lists_methods(alloc, text)? {
        return Ok((String::new(alloc), false));
    }
    Ok((String::from_str(alloc, text)?, true))
}

/// The text of the methods that are listed, with the fault after those before.
#[tactic(auto, unfolding(crate::specs::Methods::methods_of, crate::specs::Methods::methods_faults))]
pub(crate) fn read_methods<A: Allocator + Copy>(
    alloc: A,
    faults: &mut Vec<SettingFault<A>, A>,
    pairs: &[(&str, &str)],
) -> Result<String<A>, AllocError>
    ensures value { IfOk result (λ text.
        string_bytes text ≡ methods.methods_of (pairs_view pairs.now)) }
    ensures faults { OnOk result (faults_view faults.new.items
        ≡ methods.methods_faults (faults_view faults.old.items) (pairs_view pairs.now)) }
{
    let variable = Variable::HttpKnownMethods;
    let text = text_set(pairs, variable);
    let (listed, is_read) = methods_in(alloc, text)?;
    let instead = Instead::StandardMethods;
    note_unread(alloc, faults, variable, text, is_read, instead)?;
    Ok(listed)
}
