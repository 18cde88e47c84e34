//! Reads `tracestate`.

ghost use Rattle.std.specs.Prelude.{◌≡◌, ◌++◌, IfOk, OnOk, flat_map, map, string_bytes, ◌==◌};
ghost use Rattle.std.specs.Prelude.{bytes_eq};
ghost use Rattle.std.specs.List.{slice_split};
ghost use Rattle.trace_context.specs.Tracestate as spec;

use crate::keys::{is_key, is_value};
use otlp_ids::OutOfMemory;
use std::alloc::Allocator;
use text_words::{around_first, parts_of, trimmed};

/// The most entries that a trace state has (W3C Trace Context, "tracestate", "list").
const MOST_ENTRIES: usize = 32;

/// Adds each member that isn't empty, without the blanks around it.
#[tactic(auto, using(crate::proofs::Lists::nows_more))]
fn add_entries<'a, A: Allocator>(
    entries: &mut Vec<&'a [u8], A>,
    members: &[&'a [u8]],
) -> Result<(), OutOfMemory>
    ensures { OnOk result (map (λ e. e.now) entries.new.items
        ≡ map (λ e. e.now) entries.old.items
        ++ flat_map spec.entry_in (map (λ m. m.now) members.now)) }
{
    for member in members {
        let entry = trimmed(member);
        if !entry.is_empty() {
            entries.push(entry)?;
        }
    }
    Ok(())
}

/// The entries of all values, in order.
#[tactic(auto, using(crate::proofs::Lists::nows_more), unfolding(crate::specs::Tracestate::entries_in))]
fn entries_of<'a, A: Allocator + Copy>(
    alloc: A,
    values: &[&'a [u8]],
) -> Result<Vec<&'a [u8], A>, OutOfMemory>
    ensures { IfOk result (λ all. map (λ e. e.now) all.items
        ≡ spec.entries_of (map (λ v. v.now) values.now)) }
{
    let mut entries = Vec::new(alloc);
    for value in values {
        let members = parts_of(alloc, value, b',')?;
        add_entries(&mut entries, &members)?;
    }
    Ok(entries)
}

/// The key of an entry: what comes before its first `=`, or all of it.
#[tactic(auto, unfolding(crate::specs::Tracestate::key_of))]
fn key_of(entry: &[u8]) -> &[u8]
    ensures { result.now ≡ spec.key_of entry.now }
{
    match around_first(b'=', entry) {
        None => entry,
        Some((key, _)) => key,
    }
}

/// Whether this is a key, `=` and a value.
#[tactic(auto, unfolding(crate::specs::Tracestate::is_entry))]
fn is_entry(entry: &[u8]) -> bool
    ensures { result ≡ spec.is_entry entry.now }
{
    match around_first(b'=', entry) {
        None => false,
        Some((key, value)) => is_key(key) && is_value(value),
    }
}

/// Whether this is the key of an entry.
fn is_key_of(key: &[u8], entry: &[u8]) -> bool
    ensures { result ≡ bytes_eq (spec.key_of entry.now) key.now }
{
    key_of(entry) == key
}

/// Whether one of the entries has this key.
fn has_key(key: &[u8], entries: &[&[u8]]) -> bool
    ensures { result ≡ spec.has_key key.now (map (λ e. e.now) entries.now) }
{
    let mut rest = entries;
    while let [first, after @ ..] = rest {
        if is_key_of(key, first) {
            return true;
        }
        rest = after;
    }
    false
}

/// Whether each is an entry, and no key comes twice.
fn are_entries(entries: &[&[u8]]) -> bool
    ensures { result ≡ spec.are_entries (map (λ e. e.now) entries.now) }
{
    let mut rest = entries;
    while let [first, after @ ..] = rest {
        if !is_entry(first) || has_key(key_of(first), after) {
            return false;
        }
        rest = after;
    }
    true
}

/// The entries, with a comma between each two.
#[tactic(auto, using(crate::proofs::Lists::nows_more))]
fn joined<A: Allocator>(alloc: A, entries: &[&[u8]]) -> Result<Vec<u8, A>, OutOfMemory>
    ensures { IfOk result (λ text. text.items ≡ spec.joined (map (λ e. e.now) entries.now)) }
{
    let mut text = Vec::new(alloc);
    let [first, others @ ..] = entries else {
        return Ok(text);
    };
    text.extend_from_slice(first)?;
    for entry in others {
        text.push(b',')?;
        text.extend_from_slice(entry)?;
    }
    Ok(text)
}

/// The bytes as a text, or an empty one where they are none.
fn text_or_nothing<A: Allocator + Copy>(alloc: A, bytes: Vec<u8, A>) -> String<A>
    ensures { string_bytes result ≡ spec.text_or_nothing bytes.items }
{
    match String::from_utf8(bytes) {
        Ok(text) => text,
        Err(_) => String::new(alloc),
    }
}

/// The trace state that the values of all fields `tracestate` of a request give, in their order
/// (W3C Trace Context, "Tracestate Header"): their entries, without the blanks around them and
/// without empty ones, joined by commas.
///
/// It is empty where an entry isn't a key, `=` and a value by the standard's grammar (level 2: a key
/// is 1 to 256 bytes, the first a letter or a digit), where a key comes twice, or where there are
/// more than 32 entries: then nothing of it counts.
///
/// # Errors
///
/// `OutOfMemory` where memory was refused.
#[tactic(auto, unfolding(crate::specs::Tracestate::tracestate))]
pub fn read_tracestate<A: Allocator + Copy>(
    alloc: A,
    values: &[&[u8]],
) -> Result<String<A>, OutOfMemory>
    ensures { IfOk result (λ state. string_bytes state
        ≡ spec.tracestate (map (λ v. v.now) values.now)) }
{
    let entries = entries_of(alloc, values)?;
    if entries.len() > MOST_ENTRIES || !are_entries(&entries) {
        return Ok(String::new(alloc));
    }
    Ok(text_or_nothing(alloc, joined(alloc, &entries)?))
}
