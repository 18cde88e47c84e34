//! Values of attributes as they were received (opentelemetry-proto, common.proto: AnyValue,
//! ArrayValue, KeyValueList, KeyValue).

ghost use Rattle.std.specs.Prelude.{◌≡◌, ◌++◌, List, [], ◌∷◌, IfOk, IfErr, OnOk, map};
ghost use Rattle.model_message.specs.Reading.{Reads};
ghost use Rattle.model_message.specs.Messages;
ghost use Rattle.model_message.specs.Wire;
ghost use Rattle.model_message.specs.Wire.{row};
ghost use Rattle.model_message.specs.Tables;
ghost use Rattle.model_message.specs.Tables.{message, repeated, ◌▸◌};
ghost use Rattle.model_message.specs.Messages.{read, read_table, value};
ghost use Rattle.otlp_wire.specs.Fields.{field_of};
ghost use Rattle.otlp_wire.specs.Faults.{NamesOne};
ghost use Rattle.otlp_read.specs.Values.{any_value_view, values_view, pair_view, pairs_view};
ghost use Rattle.otlp_wire.specs.Gathering.{GathersRow, KeepsField, field_faults, part_faults};
ghost use Rattle.otlp_read.specs.Members.{Holds, members_from_last, array_run, pairs_run};
ghost use Rattle.otlp_read.specs.Members.{parts_view, HoldsPair};

use otlp_wire::{Field, Fields, Payload, ReadFault, bytes_in, copy_bytes, last_bytes, read_text};
use std::alloc::{Allocator, Global};

/// How deep a value may nest: an attribute's value has depth 1. (profile)
const MAX_DEPTH: u32 = 64;

/// A value as it was received (opentelemetry-proto, common.proto: AnyValue).
#[derive(Drop)]
#[derive_where(Debug)]
pub enum AnyValue<A: Allocator = Global> {
    /// No value: none of its members was there.
    Empty,
    /// A text (`string_value`).
    Text(String<A>),
    /// A truth value (`bool_value`).
    Bool(bool),
    /// A whole number of 64 bits, with its sign (`int_value`).
    Int(i64),
    /// The 64 bits of a double (`double_value`), as `f64::from_bits` takes them.
    Double(u64),
    /// Values, in order (`array_value`).
    Array(Vec<AnyValue<A>, A>),
    /// Pairs of a key and a value, in order, with each repeated key (`kvlist_value`).
    Pairs(Vec<(String<A>, AnyValue<A>), A>),
    /// Bytes (`bytes_value`).
    Bytes(Vec<u8, A>),
}

/// The member of a value that counts among the fields so far: the last one, and of an array or a
/// list of pairs the payloads of its last unbroken run (Protocol Buffers, Encoding, "Oneofs").
#[derive(Drop)]
enum Member<'a, A: Allocator> {
    Empty,
    Text(&'a [u8]),
    Bool(u64),
    Int(u64),
    Double(u64),
    Array(Vec<&'a [u8], A>),
    Pairs(Vec<&'a [u8], A>),
    Bytes(&'a [u8]),
}

impl<'a, A: Allocator + Copy> Member<'a, A> {
    /// The payloads of the last run, where it is one of arrays.
    fn array_parts(self, alloc: A) -> Vec<&'a [u8], A>
        ensures { (back : List Wire.Field) → Holds self.entry back →
            parts_view result.items ≡ array_run back }
    {
        match self {
            Member::Array(parts) => parts,
            _ => Vec::new(alloc),
        }
    }

    /// The payloads of the last run, where it is one of lists of pairs.
    fn pairs_parts(self, alloc: A) -> Vec<&'a [u8], A>
        ensures { (back : List Wire.Field) → Holds self.entry back →
            parts_view result.items ≡ pairs_run back }
    {
        match self {
            Member::Pairs(parts) => parts,
            _ => Vec::new(alloc),
        }
    }

    /// With one field more.
    fn with(self, alloc: A, field: Field<'a>) -> Result<Member<'a, A>, ReadFault>
        ensures ok { IfOk result (λ member. (back : List Wire.Field) → Holds self.entry back →
            Holds member (members_from_last (field_of field.entry ∷ []) ++ back)) }
        ensures err { IfErr result (λ fault. NamesOne [] fault) }
    {
        match (field.number, field.payload) {
            (1, Payload::Len(text)) => Ok(Member::Text(text)),
            (2, Payload::Varint(number)) => Ok(Member::Bool(number)),
            (3, Payload::Varint(number)) => Ok(Member::Int(number)),
            (4, Payload::I64(bits)) => Ok(Member::Double(bits)),
            (5, Payload::Len(part)) => {
                let mut parts = self.array_parts(alloc);
                parts.push(part)?;
                Ok(Member::Array(parts))
            }
            (6, Payload::Len(part)) => {
                let mut parts = self.pairs_parts(alloc);
                parts.push(part)?;
                Ok(Member::Pairs(parts))
            }
            (7, Payload::Len(bytes)) => Ok(Member::Bytes(bytes)),
            _ => Ok(self),
        }
    }

    /// With the fields of these bytes.
    fn with_fields(self, alloc: A, content: &'a [u8]) -> Result<Member<'a, A>, ReadFault>
        ensures ok { IfOk result (λ member. (back : List Wire.Field) → Holds self.entry back →
            Holds member (members_from_last (row content.now).value ++ back)) }
        ensures whole { IfOk result (λ _. (row content.now).faults ≡ []) }
        ensures err { IfErr result (λ fault. NamesOne (row content.now).faults fault) }
    {
        let mut member = self;
        for field in Fields::new(content) {
            member = member.with(alloc, field?)?;
        }
        Ok(member)
    }
}

/// What counts in the fields of a pair: the last key, and the member of its value.
#[derive(Drop)]
struct PairParts<'a, A: Allocator> {
    key: &'a [u8],
    value: Member<'a, A>,
}

impl<'a, A: Allocator + Copy> PairParts<'a, A> {
    /// With one field more, where a value may nest `depth` levels deep.
    fn with(self, alloc: A, depth: u32, field: Field<'a>) -> Result<PairParts<'a, A>, ReadFault>
        ensures ok { IfOk result (λ parts. (fields : List Wire.Field) →
            HoldsPair depth self.entry fields →
            HoldsPair depth parts (fields ++ field_of field.entry ∷ [])) }
        ensures err { IfErr result (λ fault. (before after : List Wire.Field) → NamesOne
            (read_table (value depth) Tables.key_value
            (before ++ field_of field.entry ∷ after)).faults fault) }
    {
        let key = last_bytes(self.key, field, 1);
        let Some(content) = bytes_in(field, 2) else {
            return Ok(PairParts {
                key,
                value: self.value,
            });
        };
        if depth == 0 {
            return Err(ReadFault::TooDeep);
        }
        let value = self.value.with_fields(alloc, content)?;
        Ok(PairParts { key, value })
    }

    /// What counts in the fields of these bytes.
    fn of(alloc: A, depth: u32, content: &'a [u8]) -> Result<PairParts<'a, A>, ReadFault>
        ensures ok { IfOk result (λ parts. HoldsPair depth parts (row content.now).value) }
        ensures whole { IfOk result (λ _. (row content.now).faults ≡ []) }
        ensures err { IfErr result (λ fault. NamesOne
            (read (value depth) (message Tables.key_value)
            (Wire.len content.now ∷ [])).faults fault) }
    {
        let mut parts = PairParts {
            key: b"",
            value: Member::Empty,
        };
        for field in Fields::new(content) {
            parts = parts.with(alloc, depth, field?)?;
        }
        Ok(parts)
    }
}

/// The value of a member, where the values in it may nest `depth` levels deep.
#[cycle(value)]
fn value_of<A: Allocator + Copy>(
    alloc: A,
    depth: u32,
    member: Member<'_, A>,
) -> Result<AnyValue<A>, ReadFault>
    ensures ok { IfOk result (λ v. (back : List Wire.Field) → Holds member.entry back →
        Reads (Messages.value_of (value depth) back) (any_value_view v)) }
    ensures err { IfErr result (λ fault. (back : List Wire.Field) → Holds member.entry back →
        NamesOne (Messages.value_of (value depth) back).faults fault) }
{
    match member {
        Member::Empty => Ok(AnyValue::Empty),
        Member::Text(text) => Ok(AnyValue::Text(read_text(alloc, text)?)),
        Member::Bool(number) => Ok(AnyValue::Bool(number != 0)),
        Member::Int(number) => Ok(AnyValue::Int(number.cast_signed())),
        Member::Double(bits) => Ok(AnyValue::Double(bits)),
        Member::Array(parts) => Ok(AnyValue::Array(read_values(alloc, depth, &parts)?)),
        Member::Pairs(parts) => Ok(AnyValue::Pairs(read_pairs(alloc, depth, &parts)?)),
        Member::Bytes(bytes) => Ok(AnyValue::Bytes(copy_bytes(alloc, bytes)?)),
    }
}

/// A value of these bytes, which may nest `depth` levels deep.
#[cycle(value)]
fn read_value<A: Allocator + Copy>(
    alloc: A,
    depth: u32,
    content: &[u8],
) -> Result<AnyValue<A>, ReadFault>
    ensures ok { IfOk result (λ v.
        Reads (value depth (Wire.len content.now ∷ [])) (any_value_view v)) }
    ensures err { IfErr result (λ fault.
        NamesOne (value depth (Wire.len content.now ∷ [])).faults fault) }
{
    if depth == 0 {
        return Err(ReadFault::TooDeep);
    }
    let member = Member::Empty.with_fields(alloc, content)?;
    value_of(alloc, depth - 1, member)
}

/// Appends the values of a part of an array.
#[cycle(value)]
fn push_values<A: Allocator + Copy>(
    alloc: A,
    depth: u32,
    values: &mut Vec<AnyValue<A>, A>,
    part: &[u8],
) -> Result<(), ReadFault>
    ensures ok { OnOk result (GathersRow (value depth) Tables.array_value
        (values_view values.old.items ▸ tt) (values_view values.new.items ▸ tt) part.now) }
    ensures whole { OnOk result ((row part.now).faults ≡ []) }
    ensures err { IfErr result (λ fault. (before after : List Wire.Field) → NamesOne
        (part_faults (value depth) Tables.array_value before part.now after) fault) }
{
    for field in Fields::new(part) {
        let Some(content) = bytes_in(field?, 1) else {
            continue;
        };
        values.push(read_value(alloc, depth, content)?)?;
    }
    Ok(())
}

/// The values of an array that comes in these parts.
#[cycle(value)]
fn read_values<A: Allocator + Copy>(
    alloc: A,
    depth: u32,
    parts: &[&[u8]],
) -> Result<Vec<AnyValue<A>, A>, ReadFault>
    ensures ok { IfOk result (λ v. Reads
        (read (value depth) (message Tables.array_value) (parts_view parts.now))
        (values_view v.items ▸ tt)) }
    ensures err { IfErr result (λ fault. NamesOne
        (read (value depth) (message Tables.array_value) (parts_view parts.now)).faults fault) }
{
    let mut values = Vec::new(alloc);
    for part in parts {
        push_values(alloc, depth, &mut values, part)?;
    }
    Ok(values)
}

/// A pair of these bytes, whose value may nest `depth` levels deep.
#[cycle(value)]
pub(crate) fn read_pair<A: Allocator + Copy>(
    alloc: A,
    depth: u32,
    content: &[u8],
) -> Result<(String<A>, AnyValue<A>), ReadFault>
    ensures ok { IfOk result (λ pair. Reads
        (read (value depth) (message Tables.key_value) (Wire.len content.now ∷ []))
        (pair_view pair)) }
    ensures err { IfErr result (λ fault. NamesOne
        (read (value depth) (message Tables.key_value) (Wire.len content.now ∷ [])).faults fault) }
{
    let parts = PairParts::of(alloc, depth, content)?;
    let key = read_text(alloc, parts.key)?;
    if depth == 0 {
        return Ok((key, AnyValue::Empty));
    }
    let value = value_of(alloc, depth - 1, parts.value)?;
    Ok((key, value))
}

/// Appends the pairs of a part of a list of pairs.
#[cycle(value)]
fn push_pairs<A: Allocator + Copy>(
    alloc: A,
    depth: u32,
    pairs: &mut Vec<(String<A>, AnyValue<A>), A>,
    part: &[u8],
) -> Result<(), ReadFault>
    ensures ok { OnOk result (GathersRow (value depth) Tables.key_value_list
        (pairs_view pairs.old.items ▸ tt) (pairs_view pairs.new.items ▸ tt) part.now) }
    ensures whole { OnOk result ((row part.now).faults ≡ []) }
    ensures err { IfErr result (λ fault. (before after : List Wire.Field) → NamesOne
        (part_faults (value depth) Tables.key_value_list before part.now after) fault) }
{
    for field in Fields::new(part) {
        let Some(content) = bytes_in(field?, 1) else {
            continue;
        };
        pairs.push(read_pair(alloc, depth, content)?)?;
    }
    Ok(())
}

/// The pairs of a list that comes in these parts.
#[cycle(value)]
fn read_pairs<A: Allocator + Copy>(
    alloc: A,
    depth: u32,
    parts: &[&[u8]],
) -> Result<Vec<(String<A>, AnyValue<A>), A>, ReadFault>
    ensures ok { IfOk result (λ v. Reads
        (read (value depth) (message Tables.key_value_list) (parts_view parts.now))
        (pairs_view v.items ▸ tt)) }
    ensures err { IfErr result (λ fault. NamesOne
        (read (value depth) (message Tables.key_value_list) (parts_view parts.now)).faults fault) }
{
    let mut pairs = Vec::new(alloc);
    for part in parts {
        push_pairs(alloc, depth, &mut pairs, part)?;
    }
    Ok(pairs)
}

/// Appends an attribute, where the field has this number.
pub(crate) fn push_attribute<A: Allocator + Copy>(
    alloc: A,
    attributes: &mut Vec<(String<A>, AnyValue<A>), A>,
    field: Field<'_>,
    number: u32,
) -> Result<(), ReadFault>
    ensures ok { OnOk result (KeepsField (repeated (message Tables.key_value)) number
        (pairs_view attributes.old.items) (pairs_view attributes.new.items)
        (field_of field.entry)) }
    ensures err { IfErr result (λ fault. (before after : List Wire.Field) → NamesOne
        (field_faults (repeated (message Tables.key_value)) number before
        (field_of field.entry) after) fault) }
{
    let Some(content) = bytes_in(field, number) else {
        return Ok(());
    };
    attributes.push(read_pair(alloc, MAX_DEPTH, content)?)?;
    Ok(())
}
