//! Values of attributes, and pairs of a key and a value.

ghost use Rattle.std.specs.Prelude.{◌≡◌, IfOk, map, ok_or, string_bytes};
ghost use Rattle.otlp_value.specs.Value.{attribute_view, attributes_view, value_view};
ghost use Rattle.text_words.specs.Words.{Gives, each_of, signed_number, text_of};
ghost use Rattle.trace_script.specs.Values.{bool_of, members_of, pair_of, pairs_of, value_of};
ghost use Rattle.trace_script.specs.Values.{value_of_kind};
ghost use Rattle.text_words.specs.declared.WordFault.TheVariants.{Bad};

use otlp_value::Value;
use std::alloc::{AllocError, Allocator};
use text_words::{WordFault, integer, parts_of, text};

/// Any number of keys, each with a value after it.
pub(crate) fn parse_pairs<A: Allocator + Copy>(
    alloc: A,
    words: &[&[u8]],
) -> Result<Vec<(String<A>, Value<A>), A>, WordFault>
    ensures { Gives (λ pairs. attributes_view pairs.items) result
        (pairs_of (map (λ w. w.now) words.now)) }
{
    let mut pairs = Vec::new(alloc);
    let mut rest = words;
    while let [key, value, others @ ..] = rest {
        pairs.push(parse_pair(alloc, key, value)?)?;
        rest = others;
    }
    if rest.is_empty() {
        Ok(pairs)
    } else {
        Err(WordFault::Bad)
    }
}

/// `KEY VALUE`
#[tactic(auto, unfolding(crate::specs::Values::pair_of))]
pub(crate) fn parse_pair<A: Allocator + Copy>(
    alloc: A,
    key: &[u8],
    value: &[u8],
) -> Result<(String<A>, Value<A>), WordFault>
    ensures { Gives attribute_view result (pair_of key.now value.now) }
{
    let key = text(alloc, key)?;
    let value = parse_value(alloc, value)?;
    Ok((key, value))
}

/// `t:TEXT`, `b:true`, `b:false`, `i:NUMBER`, or an array of these: `T:`, `B:` or `I:`, and its
/// members with commas between them.
#[tactic(auto, unfolding(crate::specs::Values::value_of))]
fn parse_value<A: Allocator + Copy>(alloc: A, word: &[u8]) -> Result<Value<A>, WordFault>
    ensures { Gives value_view result (value_of word.now) }
{
    match word {
        [letter, b':', spelling @ ..] => parse_value_of_kind(alloc, *letter, spelling),
        _ => Err(WordFault::Bad),
    }
}

/// A value of the kind that this letter names.
#[tactic(auto, unfolding(crate::specs::Values::value_of_kind))]
fn parse_value_of_kind<A: Allocator + Copy>(
    alloc: A,
    letter: u8,
    spelling: &[u8],
) -> Result<Value<A>, WordFault>
    ensures { Gives value_view result (value_of_kind letter spelling.now) }
{
    match letter {
        b't' => Ok(Value::Text(text(alloc, spelling)?)),
        b'b' => Ok(Value::Bool(truth(spelling)?)),
        b'i' => Ok(Value::Int(integer(spelling)?)),
        b'T' => Ok(Value::Texts(texts(alloc, &members(alloc, spelling)?)?)),
        b'B' => Ok(Value::Bools(truths(alloc, &members(alloc, spelling)?)?)),
        b'I' => Ok(Value::Ints(integers(alloc, &members(alloc, spelling)?)?)),
        _ => Err(WordFault::Bad),
    }
}

/// `true` or `false`
#[tactic(auto, unfolding(crate::specs::Values::bool_of))]
fn truth(word: &[u8]) -> Result<bool, WordFault>
    ensures { result ≡ ok_or (bool_of word.now) Bad }
{
    match word {
        b"true" => Ok(true),
        b"false" => Ok(false),
        _ => Err(WordFault::Bad),
    }
}

/// The members of an array.
fn members<A: Allocator>(alloc: A, spelling: &[u8]) -> Result<Vec<&[u8], A>, AllocError>
    ensures { IfOk result (λ parts. map (λ p. p.now) parts.items ≡ members_of spelling.now) }
{
    if spelling.is_empty() {
        return Ok(Vec::new(alloc));
    }
    parts_of(alloc, spelling, b',')
}

/// The texts that the members of an array spell.
fn texts<A: Allocator + Copy>(alloc: A, members: &[&[u8]]) -> Result<Vec<String<A>, A>, WordFault>
    ensures { Gives (λ all. map string_bytes all.items) result
        (each_of text_of (map (λ w. w.now) members.now)) }
{
    let mut all = Vec::new(alloc);
    for member in members {
        all.push(text(alloc, member)?)?;
    }
    Ok(all)
}

/// The truth values that the members of an array spell.
fn truths<A: Allocator>(alloc: A, members: &[&[u8]]) -> Result<Vec<bool, A>, WordFault>
    ensures { Gives (λ all. all.items) result (each_of bool_of (map (λ w. w.now) members.now)) }
{
    let mut all = Vec::new(alloc);
    for member in members {
        all.push(truth(member)?)?;
    }
    Ok(all)
}

/// The whole numbers that the members of an array spell.
fn integers<A: Allocator>(alloc: A, members: &[&[u8]]) -> Result<Vec<i64, A>, WordFault>
    ensures { Gives (λ all. all.items) result
        (each_of signed_number (map (λ w. w.now) members.now)) }
{
    let mut all = Vec::new(alloc);
    for member in members {
        all.push(integer(member)?)?;
    }
    Ok(all)
}
