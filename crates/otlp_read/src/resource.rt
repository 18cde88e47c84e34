//! Resources and scopes as they were received (opentelemetry-proto, resource.proto: Resource;
//! common.proto: InstrumentationScope).

ghost use Rattle.std.specs.Prelude.{◌≡◌, List, [], IfErr, OnOk};
ghost use Rattle.model_message.specs.Wire;
ghost use Rattle.model_message.specs.Wire.{row};
ghost use Rattle.model_message.specs.Tables;
ghost use Rattle.model_message.specs.Tables.{message, repeated};
ghost use Rattle.model_message.specs.Messages.{max_depth, read, value};
ghost use Rattle.otlp_wire.specs.Fields.{field_of};
ghost use Rattle.otlp_wire.specs.Faults.{NamesOne};
ghost use Rattle.otlp_wire.specs.Gathering.{GathersRow, KeepsField, part_faults, field_faults};
ghost use Rattle.otlp_wire.specs.Gathering.{nothing};
ghost use Rattle.otlp_read.specs.Resources.{resource_view, resource_gathered, scope_view};
ghost use Rattle.otlp_read.specs.Resources.{scope_gathered};

use crate::any_value::{AnyValue, push_attribute};
use otlp_wire::{
    Field, Fields, GatherFields, ReadFault, bytes_in, last_bytes, last_varint, low_32_bits,
    read_text,
};
use std::alloc::{Allocator, Global};

/// What made the spans (opentelemetry-proto, resource.proto: Resource). Entity references are not
/// read. (profile) An absent one has the defaults.
#[derive(Drop)]
#[derive_where(Debug)]
pub struct Resource<A: Allocator = Global> {
    /// Its attributes, in order, with each repeated key.
    pub attributes: Vec<(String<A>, AnyValue<A>), A>,
    /// How many attributes were dropped.
    pub dropped_attributes_count: u32,
}

/// The part of a program that made the spans (opentelemetry-proto, common.proto:
/// InstrumentationScope). An absent one has the defaults.
#[derive(Drop)]
#[derive_where(Debug)]
pub struct InstrumentationScope<A: Allocator = Global> {
    /// Its name.
    pub name: String<A>,
    /// Its version.
    pub version: String<A>,
    /// Its attributes, in order, with each repeated key.
    pub attributes: Vec<(String<A>, AnyValue<A>), A>,
    /// How many attributes were dropped.
    pub dropped_attributes_count: u32,
}

/// What is gathered of the fields of a resource.
#[derive(Drop)]
pub(crate) struct ResourceParts<A: Allocator> {
    alloc: A,
    attributes: Vec<(String<A>, AnyValue<A>), A>,
    dropped_attributes_count: u64,
}

impl<A: Allocator + Copy> ResourceParts<A> {
    /// Where there is no field yet.
    pub(crate) fn new(alloc: A) -> ResourceParts<A>
        ensures { resource_gathered result ≡ nothing Tables.resource }
    {
        ResourceParts {
            alloc,
            attributes: Vec::new(alloc),
            dropped_attributes_count: 0,
        }
    }
}

impl<'a, A: Allocator + Copy> GatherFields<'a> for ResourceParts<A> {
    ghost use Rattle.model_message.specs.Tables;
    ghost use Rattle.otlp_read.specs.Resources.{resource_gathered, resource_view};

    type Output = Resource<A>;

    ghost table = { Tables.resource };

    ghost gathered = { resource_gathered };

    ghost shown = { resource_view };

    fn take(&mut self, field: Field<'a>) -> Result<(), ReadFault> {
        push_attribute(self.alloc, &mut self.attributes, field, 1)?;
        self.dropped_attributes_count = last_varint(self.dropped_attributes_count, field, 2);
        Ok(())
    }

    fn finish(self) -> Result<Resource<A>, ReadFault> {
        Ok(Resource {
            attributes: self.attributes,
            dropped_attributes_count: low_32_bits(self.dropped_attributes_count),
        })
    }
}

/// What is gathered of the fields of a scope.
#[derive(Drop)]
pub(crate) struct InstrumentationScopeParts<'a, A: Allocator> {
    alloc: A,
    name: &'a [u8],
    version: &'a [u8],
    attributes: Vec<(String<A>, AnyValue<A>), A>,
    dropped_attributes_count: u64,
}

impl<'a, A: Allocator + Copy> InstrumentationScopeParts<'a, A> {
    /// Where there is no field yet.
    pub(crate) fn new(alloc: A) -> InstrumentationScopeParts<'a, A>
        ensures { scope_gathered result ≡ nothing Tables.scope }
    {
        InstrumentationScopeParts {
            alloc,
            name: b"",
            version: b"",
            attributes: Vec::new(alloc),
            dropped_attributes_count: 0,
        }
    }

    /// Takes the fields of these bytes.
    fn take_all(&mut self, content: &'a [u8]) -> Result<(), ReadFault>
        ensures ok { OnOk result (GathersRow (value max_depth) Tables.scope
            (scope_gathered self.old) (scope_gathered self.new) content.now) }
        ensures whole { OnOk result ((row content.now).faults ≡ []) }
        ensures err { IfErr result (λ fault. (before after : List Wire.Field) → NamesOne
            (part_faults (value max_depth) Tables.scope before content.now after) fault) }
    {
        for field in Fields::new(content) {
            self.take(field?)?;
        }
        Ok(())
    }

    /// Takes the fields of the scope that the field is, where it has this number.
    pub(crate) fn take_in(&mut self, field: Field<'a>, number: u32) -> Result<(), ReadFault>
        ensures ok { OnOk result (KeepsField (message Tables.scope) number
            (scope_gathered self.old) (scope_gathered self.new) (field_of field.entry)) }
        ensures err { IfErr result (λ fault. (before after : List Wire.Field) → NamesOne
            (field_faults (message Tables.scope) number before (field_of field.entry) after)
            fault) }
    {
        let Some(content) = bytes_in(field, number) else {
            return Ok(());
        };
        self.take_all(content)
    }
}

impl<'a, A: Allocator + Copy> GatherFields<'a> for InstrumentationScopeParts<'a, A> {
    ghost use Rattle.model_message.specs.Tables;
    ghost use Rattle.otlp_read.specs.Resources.{scope_gathered, scope_view};

    type Output = InstrumentationScope<A>;

    ghost table = { Tables.scope };

    ghost gathered = { scope_gathered };

    ghost shown = { scope_view };

    fn take(&mut self, field: Field<'a>) -> Result<(), ReadFault> {
        self.name = last_bytes(self.name, field, 1);
        self.version = last_bytes(self.version, field, 2);
        push_attribute(self.alloc, &mut self.attributes, field, 3)?;
        self.dropped_attributes_count = last_varint(self.dropped_attributes_count, field, 4);
        Ok(())
    }

    fn finish(self) -> Result<InstrumentationScope<A>, ReadFault> {
        let alloc = self.alloc;
        Ok(InstrumentationScope {
            name: read_text(alloc, self.name)?,
            version: read_text(alloc, self.version)?,
            attributes: self.attributes,
            dropped_attributes_count: low_32_bits(self.dropped_attributes_count),
        })
    }
}
