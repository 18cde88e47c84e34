//! Keys and values.

ghost use Rattle.std.specs.Prelude.{◌≡◌, Some, None, IfOk, IsErrOf, map, option_map};
ghost use Rattle.std.specs.Prelude.{string_bytes};
ghost use Rattle.std.specs.List.{list_all};
ghost use Rattle.text_words.specs.Words.{Gives, each_of};
ghost use Rattle.otel_settings.specs.ResourcePairs as spec;
ghost use Rattle.otel_settings.specs.ResourcePairs.{pair_view, pairs_view};

use crate::resource_fault::ResourceFault;
use httparse::is_token;
use std::alloc::Allocator;
use text_words::{WordFault, around_first, parts_of, text, trimmed};

/// Whether a byte may be in a value.
#[tactic(auto, unfolding(crate::specs::ResourcePairs::is_value_byte))]
fn is_value_byte(byte: u8) -> bool
    ensures { result ≡ spec.is_value_byte byte }
{
    let is_visible = 33 <= byte && byte <= 126;
    is_visible && byte != b'"' && byte != b',' && byte != b';' && byte != b'\\'
}

/// Whether each byte may be in a value.
fn are_value_bytes(bytes: &[u8]) -> bool
    ensures { result ≡ list_all spec.is_value_byte bytes.now }
{
    bytes.iter().all(|byte| is_value_byte(*byte))
}

/// The text that a key or a value spells.
#[tactic(auto, unfolding(text_words::specs::Words::text_of, text_words::specs::Words::bytes_of))]
fn decoded<A: Allocator>(alloc: A, word: &[u8]) -> Result<String<A>, WordFault>
    ensures { Gives string_bytes result (spec.decoded word.now) }
{
    match word {
        [] => Ok(String::new(alloc)),
        b"%" => Err(WordFault::Bad),
        _ => text(alloc, word),
    }
}

/// A key and its value, without blanks around them.
#[tactic(auto, unfolding(crate::specs::ResourcePairs::pair_of))]
fn read_pair<A: Allocator + Copy>(
    alloc: A,
    key: &[u8],
    value: &[u8],
) -> Result<(String<A>, String<A>), WordFault>
    ensures { Gives pair_view result (spec.pair_of key.now value.now) }
{
    if !is_token(key) || !are_value_bytes(value) {
        return Err(WordFault::Bad);
    }
    let key = decoded(alloc, key)?;
    let value = decoded(alloc, value)?;
    Ok((key, value))
}

/// A member of the list.
#[tactic(auto, unfolding(crate::specs::ResourcePairs::member_of))]
fn read_member<A: Allocator + Copy>(
    alloc: A,
    member: &[u8],
) -> Result<(String<A>, String<A>), WordFault>
    ensures { Gives pair_view result (spec.member_of member.now) }
{
    let Some((key, value)) = around_first(b'=', member) else {
        return Err(WordFault::Bad);
    };
    read_pair(alloc, trimmed(key), trimmed(value))
}

/// All members, one after the other.
fn read_members<A: Allocator + Copy>(
    alloc: A,
    members: &[&[u8]],
) -> Result<Vec<(String<A>, String<A>), A>, WordFault>
    ensures { Gives (λ all. pairs_view all.items) result
        (each_of spec.member_of (map (λ m. m.now) members.now)) }
{
    let mut all = Vec::new(alloc);
    for member in members {
        all.push(read_member(alloc, member)?)?;
    }
    Ok(all)
}

/// The keys and values that a text spells, in its order; a key may come more than once.
///
/// # Errors
///
/// `NotPairs` where any part of the text has another form: nothing of it counts, as the standard
/// wants. `OutOfMemory` where memory was refused.
#[tactic(auto, unfolding(crate::specs::ResourcePairs::pairs_of))]
pub fn resource_pairs<A: Allocator + Copy>(
    alloc: A,
    text: &[u8],
) -> Result<Vec<(String<A>, String<A>), A>, ResourceFault>
    ensures value { IfOk result (λ all. spec.pairs_of text.now ≡ Some (pairs_view all.items)) }
    ensures not_pairs { IsErrOf result ResourceFault.NotPairs → spec.pairs_of text.now ≡ None }
{
    let members = parts_of(alloc, text, b',').map_err(|_| ResourceFault::OutOfMemory)?;
    match read_members(alloc, &members) {
        Ok(all) => Ok(all),
        Err(WordFault::Bad) => Err(ResourceFault::NotPairs),
        Err(WordFault::OutOfMemory) => Err(ResourceFault::OutOfMemory),
    }
}
