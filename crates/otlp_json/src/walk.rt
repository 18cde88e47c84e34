//! Messages: the objects and the lists of a text.

ghost use Rattle.std.specs.Prelude.{◌≡◌, ◌+◌, ◌≤◌, ◌<◌, ◌++◌, Ok, OnOk, suc, length, take, drop, vec_len};
ghost use Rattle.json.specs.Reads.{token_of};
ghost use Rattle.model_message.specs.Canon.{bytes_field, field_bytes};
ghost use Rattle.otlp_json.specs.Bodies as spec;
ghost use Rattle.otlp_json.specs.Fronts.{next_token};
ghost use Rattle.otlp_json.specs.Names as names;
ghost use Rattle.otlp_json.specs.Writing.{Gives, Leaves, appended};

use crate::fault::{JsonFault, Stop};
use crate::leaf::{mismatch, put_leaf};
use crate::names::{Kind, Member, Message, member_named};
use json::{MAX_DEPTH, Reader, Token};
use otlp_wire::write_varint;
use std::alloc::Allocator;

/// The next token.
pub(crate) fn next<'a>(reader: &mut Reader<'a>) -> Result<Token<'a>, Stop>
    ensures value { Gives (λ token. (token_of token, reader.new)) result (next_token reader.old) }
    ensures shorter { OnOk result (length reader.new < length reader.old) }
{
    match reader.next() {
        Some(token) => Ok(token),
        None => Err(Stop::Fault(JsonFault::Malformed)),
    }
}

/// Makes the bytes from a place on the content of a field of this number: puts the field's tag and
/// its length before them.
fn close<A: Allocator>(out: &mut Vec<u8, A>, number: u8, start: usize) -> Result<(), Stop>
    requires { start ≤ vec_len out.old }
    ensures { Leaves result out.new.items (Ok (take start out.old.items
        ++ field_bytes (bytes_field number (drop start out.old.items)))) }
{
    let end = out.len();
    // (wire type 2)
    write_varint(out, number as u64 * 8 + 2)?;
    write_varint(out, (end - start) as u64)?;
    let head = out.len() - end;
    out.as_mut_slice()[start..].rotate_right(head);
    Ok(())
}

/// Appends the fields of an object of the message, after its brace. Objects may nest this deep.
#[cycle(walk)]
pub(crate) fn object<'a, A: Allocator + Copy>(
    alloc: A,
    reader: &mut Reader<'a>,
    out: &mut Vec<u8, A>,
    depth: usize,
    message: Message,
) -> Result<(), Stop>
    ensures value { Leaves result (out.new.items, reader.new)
        (appended out.old.items (spec.object depth message reader.old)) }
    ensures shorter { OnOk result (length reader.new ≤ length reader.old) }
{
    if depth == 0 {
        return Err(Stop::Fault(JsonFault::TooDeep));
    }
    'members: while let Some(name) = reader.next_key()? {
        member(alloc, reader, out, depth - 1, member_named(message, name))?;
    }
    Ok(())
}

/// Appends the fields of a member, after its name.
#[cycle(walk)]
fn member<'a, A: Allocator + Copy>(
    alloc: A,
    reader: &mut Reader<'a>,
    out: &mut Vec<u8, A>,
    depth: usize,
    member: Option<Member>,
) -> Result<(), Stop>
    ensures value { Leaves result (out.new.items, reader.new)
        (appended out.old.items (spec.member (spec.object depth) member reader.old)) }
    ensures shorter { OnOk result (length reader.new ≤ length reader.old) }
{
    let Some(known) = member else {
        reader.skip_value(MAX_DEPTH)?;
        return Ok(());
    };
    let token = next(reader)?;
    value(alloc, reader, out, depth, known, token)
}

/// Appends the fields of a member whose value begins with this token.
#[cycle(walk)]
fn value<'a, A: Allocator + Copy>(
    alloc: A,
    reader: &mut Reader<'a>,
    out: &mut Vec<u8, A>,
    depth: usize,
    member: Member,
    token: Token<'a>,
) -> Result<(), Stop>
    ensures value { Leaves result (out.new.items, reader.new) (appended out.old.items
        (spec.value (spec.object depth) member (token_of token.entry) reader.old)) }
    ensures shorter { OnOk result (length reader.new ≤ length reader.old) }
{
    if let Token::Null = token {
        return Ok(());
    }
    match member.kind {
        Kind::One(leaf) => put_leaf(alloc, out, member.number, leaf, token),
        Kind::Nested(message) => nested(alloc, reader, out, depth, member.number, message, token),
        Kind::Each(message) => each(alloc, reader, out, depth, member.number, message, token),
    }
}

/// Appends a message as one field, whose object this token opens.
#[cycle(walk)]
fn nested<'a, A: Allocator + Copy>(
    alloc: A,
    reader: &mut Reader<'a>,
    out: &mut Vec<u8, A>,
    depth: usize,
    number: u8,
    message: Message,
    token: Token<'a>,
) -> Result<(), Stop>
    ensures value { Leaves result (out.new.items, reader.new) (appended out.old.items
        (spec.nested (spec.object depth) number message (token_of token.entry) reader.old)) }
    ensures shorter { OnOk result (length reader.new ≤ length reader.old) }
{
    let Token::BeginObject = token else {
        return Err(Stop::Fault(mismatch(token)));
    };
    let start = out.len();
    object(alloc, reader, out, depth, message)?;
    close(out, number, start)
}

/// Appends a list of messages, a field for each, which this token opens.
#[cycle(walk)]
fn each<'a, A: Allocator + Copy>(
    alloc: A,
    reader: &mut Reader<'a>,
    out: &mut Vec<u8, A>,
    depth: usize,
    number: u8,
    message: Message,
    token: Token<'a>,
) -> Result<(), Stop>
    ensures value { Leaves result (out.new.items, reader.new) (appended out.old.items
        (spec.each (spec.object depth) number message (token_of token.entry) reader.old)) }
    ensures shorter { OnOk result (length reader.new ≤ length reader.old) }
{
    let Token::BeginArray = token else {
        return Err(Stop::Fault(mismatch(token)));
    };
    'items: while !reader.take_end_array() {
        let opening = next(reader)?;
        nested(alloc, reader, out, depth, number, message, opening)?;
    }
    Ok(())
}
