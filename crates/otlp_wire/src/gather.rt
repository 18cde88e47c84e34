//! The fields of a message, gathered one after another, whatever its table.

ghost use Rattle.std.specs.Prelude.{◌≡◌, ◌≢◌, ◌++◌, List, [], ◌∷◌, IfOk, IfErr, IsErrOf, OnOk, map};
ghost use Rattle.model_message.specs.Reading.{Reads};
ghost use Rattle.model_message.specs.Wire;
ghost use Rattle.model_message.specs.Wire.{row};
ghost use Rattle.model_message.specs.Tables.{Message, Table, message, repeated};
ghost use Rattle.model_message.specs.Messages.{max_depth, read, read_table, value};
ghost use Rattle.otlp_wire.specs.Fields.{field_of};
ghost use Rattle.otlp_wire.specs.Faults.{NamesOne};
ghost use Rattle.otlp_wire.specs.Gathering.{Gathered, IsGathered, GathersRow, KeepsField};
ghost use Rattle.otlp_wire.specs.Gathering.{field_faults, finished, nothing, part_faults};

use crate::fault::ReadFault;
use crate::payloads::bytes_in;
use crate::{Field, Fields};
use std::alloc::Allocator;

/// What is gathered of the fields of a message: the last payload of a scalar, a text or bytes, what
/// is gathered of a message in it, and the values of a repeated field (Protocol Buffers, Encoding,
/// "Last One Wins", "Repeated Elements"). A type for a message says by `table` which fields that
/// has, by `gathered` what it keeps of them, and by `shown` what the message is that they make.
pub trait GatherFields<'a> {
    /// The message that the fields make.
    type Output: Drop;

    ghost table: { Table };

    ghost gathered: { Self → Gathered table };

    ghost shown: { Self.Output → Message table };

    /// Takes one field more. One that the table hasn't, or of another wire type, changes nothing.
    ///
    /// # Errors
    ///
    /// A `ReadFault` that the field has, or `OutOfMemory` where what is kept of it could not be
    /// stored. What was gathered is then of no more use.
    fn take(&mut self, field: Field<'a>) -> Result<(), ReadFault>
        ensures ok { OnOk result ((fields : List Wire.Field) →
            IsGathered (value max_depth) table (gathered self.old) fields →
            IsGathered (value max_depth) table (gathered self.new)
            (fields ++ field_of field.entry ∷ [])) }
        ensures err { IfErr result (λ fault. (before after : List Wire.Field) → NamesOne
            (read_table (value max_depth) table
            (before ++ field_of field.entry ∷ after)).faults fault) };

    /// The message that the fields make.
    ///
    /// # Errors
    ///
    /// A `ReadFault` that they have, or `OutOfMemory` where the message could not be stored.
    fn finish(self) -> Result<Self::Output, ReadFault>
        ensures ok { IfOk result (λ x. Reads (finished (value max_depth) (message table)
            (gathered self)) (shown x)) }
        ensures err { IfErr result (λ fault. NamesOne (finished (value max_depth)
            (message table) (gathered self)).faults fault) };
}

/// Takes the fields of these bytes.
fn gather<'a, G: GatherFields<'a>>(gathered: &mut G, content: &'a [u8]) -> Result<(), ReadFault>
    ensures ok { OnOk result (GathersRow (value max_depth) G.table
        (G.gathered gathered.old) (G.gathered gathered.new) content.now) }
    ensures whole { OnOk result ((row content.now).faults ≡ []) }
    ensures err { IfErr result (λ fault. (before after : List Wire.Field) → NamesOne
        (part_faults (value max_depth) G.table before content.now after) fault) }
    ensures memory { IsErrOf result ReadFault.OutOfMemory → content.now ≢ [] }
{
    for field in Fields::new(content) {
        gathered.take(field?)?;
    }
    Ok(())
}

/// Takes the fields of the message that the field is, where it has this number: they are joined
/// with those that came before (Protocol Buffers, Encoding, "Last One Wins").
///
/// # Errors
///
/// A `ReadFault` that the field has, or `OutOfMemory` where what is kept of it could not be stored.
/// What was gathered is then of no more use.
pub fn gather_in<'a, G: GatherFields<'a>>(
    gathered: &mut G,
    field: Field<'a>,
    number: u32,
) -> Result<(), ReadFault>
    ensures ok { OnOk result (KeepsField (message G.table) number
        (G.gathered gathered.old) (G.gathered gathered.new) (field_of field.entry)) }
    ensures err { IfErr result (λ fault. (before after : List Wire.Field) → NamesOne
        (field_faults (message G.table) number before (field_of field.entry) after) fault) }
{
    match bytes_in(field, number) {
        Some(content) => gather(gathered, content),
        None => Ok(()),
    }
}

/// What is gathered of a message of these bytes, where there is nothing yet. What it means is left
/// to be read: a text may yet not be UTF-8.
///
/// # Errors
///
/// A `ReadFault` that the bytes have, or `OutOfMemory` where what is kept of them could not be
/// stored; of no bytes nothing is.
pub fn gather_all<'a, G: GatherFields<'a>>(empty: G, content: &'a [u8]) -> Result<G, ReadFault>
where
    G: Drop,
    requires { G.gathered empty ≡ nothing G.table }
    ensures ok { IfOk result (λ g. read (value max_depth) (message G.table)
        (Wire.len content.now ∷ []) ≡ finished (value max_depth) (message G.table) (G.gathered g)) }
    ensures err { IfErr result (λ fault. NamesOne
        (read (value max_depth) (message G.table) (Wire.len content.now ∷ [])).faults fault) }
    ensures memory { IsErrOf result ReadFault.OutOfMemory → content.now ≢ [] }
{
    let mut gathered = empty;
    gather(&mut gathered, content)?;
    Ok(gathered)
}

/// The message of these bytes, whose fields go to `empty`.
fn read_message<'a, G: GatherFields<'a>>(
    empty: G,
    content: &'a [u8],
) -> Result<G::Output, ReadFault>
where
    G: Drop,
    requires { G.gathered empty ≡ nothing G.table }
    ensures ok { IfOk result (λ x. Reads (read (value max_depth) (message G.table)
        (Wire.len content.now ∷ [])) (G.shown x)) }
    ensures err { IfErr result (λ fault. NamesOne
        (read (value max_depth) (message G.table) (Wire.len content.now ∷ [])).faults fault) }
{
    let parts = gather_all(empty, content)?;
    parts.finish()
}

/// Appends the message that the field is, whose fields go to `empty`, where the field has this
/// number (Protocol Buffers, Encoding, "Repeated Elements").
///
/// # Errors
///
/// A `ReadFault` that the field has, or `OutOfMemory` where its message could not be stored. No
/// message is appended then.
pub fn push_message<'a, G: GatherFields<'a>, A: Allocator>(
    empty: G,
    messages: &mut Vec<G::Output, A>,
    field: Field<'a>,
    number: u32,
) -> Result<(), ReadFault>
where
    G: Drop,
    requires { G.gathered empty ≡ nothing G.table }
    ensures ok { OnOk result (KeepsField (repeated (message G.table)) number
        (map G.shown messages.old.items) (map G.shown messages.new.items)
        (field_of field.entry)) }
    ensures err { IfErr result (λ fault. (before after : List Wire.Field) → NamesOne
        (field_faults (repeated (message G.table)) number before (field_of field.entry) after)
        fault) }
{
    let Some(content) = bytes_in(field, number) else {
        return Ok(());
    };
    messages.push(read_message(empty, content)?)?;
    Ok(())
}
