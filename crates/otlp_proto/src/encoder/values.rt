//! Attributes and their values (opentelemetry-proto, common.proto: KeyValue, AnyValue, ArrayValue).

use crate::encoder::fields::{put_len, put_text, put_varint};
use crate::encoder::messages::{Submessage, put_each, put_one};
use crate::encoder::sink::Sink;
use otlp_value::Value;
use std::alloc::Allocator;

// Each of the types below is written as the one member that an AnyValue has, which is there also
// where it is the default.

impl<B: Allocator> Submessage for String<B> {
    ghost use Rattle.std.specs.Prelude.{string_bytes};
    ghost use Rattle.model_message.specs.AnyValue.{AnyValue};
    ghost use Rattle.model_message.specs.Canon.{value_fields, row_bytes};
    ghost use Rattle.model_message.specs.Whole.{IsValue};

    ghost viewed = { AnyValue };

    ghost view = { λ text. AnyValue.text (string_bytes text) };

    ghost bytes = { λ v. row_bytes (value_fields v) };

    ghost is_whole = { IsValue 1 };

    fn put<S: Sink>(&self, sink: &mut S) {
        put_len(sink, 1, self.as_str().as_bytes());
    }
}

impl Submessage for bool {
    ghost use Rattle.model_message.specs.AnyValue.{AnyValue};
    ghost use Rattle.model_message.specs.Canon.{value_fields, row_bytes};
    ghost use Rattle.model_message.specs.Whole.{IsValue};

    ghost viewed = { AnyValue };

    ghost view = { AnyValue.bool };

    ghost bytes = { λ v. row_bytes (value_fields v) };

    ghost is_whole = { IsValue 1 };

    fn put<S: Sink>(&self, sink: &mut S) {
        put_varint(sink, 2, *self as u64);
    }
}

impl Submessage for i64 {
    ghost use Rattle.model_message.specs.AnyValue.{AnyValue};
    ghost use Rattle.model_message.specs.Canon.{value_fields, row_bytes};
    ghost use Rattle.model_message.specs.Whole.{IsValue};

    ghost viewed = { AnyValue };

    ghost view = { AnyValue.int };

    ghost bytes = { λ v. row_bytes (value_fields v) };

    ghost is_whole = { IsValue 1 };

    /// In two's complement of 64 bits.
    fn put<S: Sink>(&self, sink: &mut S) {
        let number = *self;
        put_varint(sink, 3, number.cast_unsigned());
    }
}

/// The values of an array, as an ArrayValue: each with its own member.
#[derive(Drop)]
struct ArrayValue<'a, T>(&'a [T]);

impl<T: Submessage> Submessage for ArrayValue<'_, T> {
    ghost use Rattle.std.specs.Prelude.{List, map};
    ghost use Rattle.std.specs.List.{AllByRecursion};
    ghost use Rattle.model_message.specs.Canon.{row_bytes, bytes_field};

    ghost viewed = { List T.viewed };

    ghost view = { λ array. map T.view array.0.now };

    ghost bytes = { λ values. row_bytes (map (λ v. bytes_field 1 (T.bytes v)) values) };

    ghost is_whole = { λ values. AllByRecursion T.is_whole values };

    fn put<S: Sink>(&self, sink: &mut S) {
        put_each(sink, 1, self.0);
    }
}

impl<B: Allocator> Submessage for Value<B> {
    ghost use Rattle.model_message.specs.AnyValue.{AnyValue};
    ghost use Rattle.model_message.specs.Canon.{value_fields, row_bytes};
    ghost use Rattle.model_message.specs.Whole.{IsValue};
    ghost use Rattle.model_export.specs.Export as model;
    ghost use Rattle.otlp_value.specs.Value.{value_view};

    ghost viewed = { AnyValue };

    ghost view = { λ value. model.value_message (value_view value) };

    ghost bytes = { λ v. row_bytes (value_fields v) };

    ghost is_whole = { IsValue 2 };

    /// An empty array is one without values.
    fn put<S: Sink>(&self, sink: &mut S) {
        match self {
            Value::Text(text) => text.put(sink),
            Value::Bool(truth) => truth.put(sink),
            Value::Int(number) => number.put(sink),
            Value::Texts(texts) => put_one(sink, 5, &ArrayValue(texts.as_slice())),
            Value::Bools(truths) => put_one(sink, 5, &ArrayValue(truths.as_slice())),
            Value::Ints(numbers) => put_one(sink, 5, &ArrayValue(numbers.as_slice())),
        }
    }
}

impl<B: Allocator> Submessage for (String<B>, Value<B>) {
    ghost use Rattle.model_message.specs.Tables;
    ghost use Rattle.model_message.specs.Canon.{canon};
    ghost use Rattle.model_message.specs.Whole.{IsMessage};
    ghost use Rattle.model_span.specs.Attributes as attributes;
    ghost use Rattle.model_export.specs.Export as model;
    ghost use Rattle.otlp_value.specs.Value.{attribute_view};

    ghost viewed = { attributes.Attribute };

    ghost view = { attribute_view };

    ghost bytes = { λ p. canon Tables.key_value (model.attribute_message p) };

    ghost is_whole = { λ p. IsMessage Tables.key_value (model.attribute_message p) };

    /// The key of an attribute, and its value.
    fn put<S: Sink>(&self, sink: &mut S) {
        let (key, value) = self;
        put_text(sink, 1, key.as_str());
        put_one(sink, 2, value);
    }
}
