//! Values and attributes that a program lends, and their copies.
ghost use Rattle.std.specs.Prelude.{◌≡◌, IfOk, map, pos, string_bytes};
ghost use Rattle.model_span.specs.Attributes as model;
ghost use Rattle.otlp_ids.specs.SpanContext.{context_view};
ghost use Rattle.otlp_value.specs.Value.{attributes_view, value_view};
ghost use Rattle.trace_api.specs.Lent.{lent_pair, lent_pairs, lent_value};
ghost use Rattle.trace_api.specs.Whole.{whole_value};

use itoa::Buffer;
use otlp_ids::{OutOfMemory, SpanContext, copy_text};
use otlp_value::Value;
use std::alloc::Allocator;

/// A value of an attribute that is lent (OpenTelemetry Common, "Attribute"): what a `Value` of
/// `otlp_value` owns.
#[derive(Debug, Clone, Copy)]
pub enum ValueRef<'a> {
    /// A text.
    Text(&'a str),
    /// A truth value.
    Bool(bool),
    /// A whole number of 64 bits, with its sign.
    Int(i64),
    /// A whole number without a sign. Where it is above 2^63 - 1, the value is its decimal text
    /// (profile).
    Unsigned(u128),
    /// A whole number with a sign. Where it doesn't fit 64 bits, the value is its decimal text
    /// (profile).
    Signed(i128),
    /// An array of texts.
    Texts(&'a [&'a str]),
    /// An array of texts that are owned.
    Strings(&'a [String]),
    /// An array of truth values.
    Bools(&'a [bool]),
    /// An array of whole numbers.
    Ints(&'a [i64]),
}

impl<'a> ValueRef<'a> {
    /// The value on memory of its own. A number, a truth value and what is empty take none.
    ///
    /// # Errors
    ///
    /// `OutOfMemory` where a text or an array could not be stored.
    pub fn copy<A: Allocator + Copy>(self, alloc: A) -> Result<Value<A>, OutOfMemory>
        ensures { IfOk result (λ value. value_view value ≡ lent_value self.entry) }
    {
        match self {
            ValueRef::Text(text) => Ok(Value::Text(copy_text(alloc, text)?)),
            ValueRef::Bool(truth) => Ok(Value::Bool(truth)),
            ValueRef::Int(number) => Ok(Value::Int(number)),
            ValueRef::Unsigned(number) => copy_unsigned(alloc, number),
            ValueRef::Signed(number) => copy_signed(alloc, number),
            ValueRef::Texts(texts) => Ok(Value::Texts(copy_texts(alloc, texts)?)),
            ValueRef::Strings(texts) => Ok(Value::Texts(copy_strings(alloc, texts)?)),
            ValueRef::Bools(truths) => Ok(Value::Bools(copy_items(alloc, truths)?)),
            ValueRef::Ints(numbers) => Ok(Value::Ints(copy_items(alloc, numbers)?)),
        }
    }
}

/// A whole number, or its decimal text where it is above 2^63 - 1.
fn copy_unsigned<A: Allocator>(alloc: A, number: u128) -> Result<Value<A>, OutOfMemory>
    ensures { IfOk result (λ value. value_view value ≡ whole_value (pos number)) }
{
    match i64::try_from(number) {
        Ok(number) => Ok(Value::Int(number)),
        Err(_) => Ok(Value::Text(copy_text(alloc, Buffer::new().format(number))?)),
    }
}

/// A whole number, or its decimal text where it doesn't fit 64 bits.
fn copy_signed<A: Allocator>(alloc: A, number: i128) -> Result<Value<A>, OutOfMemory>
    ensures { IfOk result (λ value. value_view value ≡ whole_value number) }
{
    match i64::try_from(number) {
        Ok(number) => Ok(Value::Int(number)),
        Err(_) => Ok(Value::Text(copy_text(alloc, Buffer::new().format(number))?)),
    }
}

/// Equal texts, on memory of their own. None at all take none.
fn copy_texts<A: Allocator + Copy>(
    alloc: A,
    texts: &[&str],
) -> Result<Vec<String<A>, A>, OutOfMemory>
    ensures { IfOk result
        (λ v. map string_bytes v.items ≡ map (λ text. text.now) texts.now) }
{
    let mut copied = Vec::with_capacity(alloc, texts.len())?;
    for text in texts {
        copied.push(copy_text(alloc, text)?)?;
    }
    Ok(copied)
}

/// The same of texts that are owned.
fn copy_strings<A: Allocator + Copy>(
    alloc: A,
    texts: &[String],
) -> Result<Vec<String<A>, A>, OutOfMemory>
    ensures { IfOk result (λ v. map string_bytes v.items ≡ map string_bytes texts.now) }
{
    let mut copied = Vec::with_capacity(alloc, texts.len())?;
    for text in texts {
        copied.push(copy_text(alloc, text.as_str())?)?;
    }
    Ok(copied)
}

/// The same items, on memory of their own. None at all take none.
fn copy_items<T: Copy, A: Allocator>(alloc: A, items: &[T]) -> Result<Vec<T, A>, OutOfMemory>
    ensures { IfOk result (λ v. v.items ≡ items.now) }
{
    let mut copied = Vec::with_capacity(alloc, items.len())?;
    copied.extend_from_slice(items)?;
    Ok(copied)
}

/// What can be the value of an attribute: texts, truth values, whole numbers of any width, and
/// arrays of texts, of truth values and of `i64`. It is lent, and copied where a span keeps it. A
/// whole number that doesn't fit 64 bits with a sign, as `u64::MAX`, is its decimal text (profile).
pub trait ToValue: Drop {
    /// The value that it is.
    ghost value: { Self → model.Value };

    /// The value, lent.
    fn to_value(&self) -> ValueRef<'_>
        ensures { lent_value result ≡ value self.now };
}

impl<'a> ToValue for &'a str {
    ghost value = { λ text. model.text text.now };

    fn to_value(&self) -> ValueRef<'_> {
        ValueRef::Text(*self)
    }
}

impl ToValue for bool {
    ghost value = { λ truth. model.bool truth };

    fn to_value(&self) -> ValueRef<'_> {
        ValueRef::Bool(*self)
    }
}

impl ToValue for i64 {
    ghost value = { λ number. model.int number };

    fn to_value(&self) -> ValueRef<'_> {
        ValueRef::Int(*self)
    }
}

impl ToValue for i32 {
    ghost value = { λ number. model.int number };

    fn to_value(&self) -> ValueRef<'_> {
        ValueRef::Int(i64::from(*self))
    }
}

impl<A: Allocator + Drop> ToValue for String<A> {
    ghost value = { λ text. model.text (string_bytes text) };

    fn to_value(&self) -> ValueRef<'_> {
        ValueRef::Text(self.as_str())
    }
}

impl<'a, A: Allocator> ToValue for &'a String<A> {
    ghost value = { λ text. model.text (string_bytes text.now) };

    fn to_value(&self) -> ValueRef<'_> {
        ValueRef::Text(self.as_str())
    }
}

impl ToValue for i16 {
    ghost value = { λ number. model.int number };

    fn to_value(&self) -> ValueRef<'_> {
        ValueRef::Int(i64::from(*self))
    }
}

impl ToValue for i8 {
    ghost value = { λ number. model.int number };

    fn to_value(&self) -> ValueRef<'_> {
        ValueRef::Int(i64::from(*self))
    }
}

impl ToValue for u32 {
    ghost value = { λ number. model.int (pos number) };

    fn to_value(&self) -> ValueRef<'_> {
        ValueRef::Int(i64::from(*self))
    }
}

impl ToValue for u16 {
    ghost value = { λ number. model.int (pos number) };

    fn to_value(&self) -> ValueRef<'_> {
        ValueRef::Int(i64::from(*self))
    }
}

impl ToValue for u8 {
    ghost value = { λ number. model.int (pos number) };

    fn to_value(&self) -> ValueRef<'_> {
        ValueRef::Int(i64::from(*self))
    }
}

impl ToValue for isize {
    ghost value = { λ number. model.int number };

    fn to_value(&self) -> ValueRef<'_> {
        ValueRef::Int(*self as i64)
    }
}

impl ToValue for i128 {
    ghost value = { whole_value };

    fn to_value(&self) -> ValueRef<'_> {
        ValueRef::Signed(*self)
    }
}

impl ToValue for u64 {
    ghost value = { λ number. whole_value (pos number) };

    fn to_value(&self) -> ValueRef<'_> {
        ValueRef::Unsigned(u128::from(*self))
    }
}

impl ToValue for usize {
    ghost value = { λ number. whole_value (pos number) };

    fn to_value(&self) -> ValueRef<'_> {
        ValueRef::Unsigned(*self as u128)
    }
}

impl ToValue for u128 {
    ghost value = { λ number. whole_value (pos number) };

    fn to_value(&self) -> ValueRef<'_> {
        ValueRef::Unsigned(*self)
    }
}

impl<'a> ToValue for &'a [&'a str] {
    ghost value = { λ texts. model.texts (map (λ text. text.now) texts.now) };

    fn to_value(&self) -> ValueRef<'_> {
        ValueRef::Texts(*self)
    }
}

impl<'a> ToValue for &'a [String] {
    ghost value = { λ texts. model.texts (map string_bytes texts.now) };

    fn to_value(&self) -> ValueRef<'_> {
        ValueRef::Strings(*self)
    }
}

impl<'a> ToValue for &'a [bool] {
    ghost value = { λ truths. model.bools truths.now };

    fn to_value(&self) -> ValueRef<'_> {
        ValueRef::Bools(*self)
    }
}

impl<'a> ToValue for &'a [i64] {
    ghost value = { λ numbers. model.ints numbers.now };

    fn to_value(&self) -> ValueRef<'_> {
        ValueRef::Ints(*self)
    }
}

impl<'a> ToValue for ValueRef<'a> {
    ghost value = { lent_value };

    fn to_value(&self) -> ValueRef<'_> {
        *self
    }
}

/// An attribute that is lent: its key and its value (OpenTelemetry Common, "Attribute").
#[derive(Debug, Clone, Copy)]
pub struct KeyValue<'a> {
    /// The key. An attribute with an empty one is ignored.
    pub key: &'a str,
    /// The value.
    pub value: ValueRef<'a>,
}

impl<'a> KeyValue<'a> {
    /// The attribute with this key and this value. It takes no memory.
    pub fn new<V: ToValue>(key: &'a str, value: &'a V) -> KeyValue<'a>
        ensures { lent_pair result ≡ record { key = key.now; value = V.value value.now } }
    {
        KeyValue {
            key,
            value: value.to_value(),
        }
    }
}

/// The attributes on memory of their own.
///
/// # Errors
///
/// `OutOfMemory` where they could not be stored.
pub(crate) fn copy_pairs<A: Allocator + Copy>(
    alloc: A,
    pairs: &[KeyValue<'_>],
) -> Result<Vec<(String<A>, Value<A>), A>, OutOfMemory>
    ensures { IfOk result (λ copied. attributes_view copied.items ≡ lent_pairs pairs.now) }
{
    let mut copied = Vec::with_capacity(alloc, pairs.len())?;
    for pair in pairs {
        let key = copy_text(alloc, pair.key)?;
        copied.push((key, pair.value.copy(alloc)?))?;
    }
    Ok(copied)
}

/// The context on memory from elsewhere.
///
/// # Errors
///
/// `OutOfMemory` where its trace state could not be stored.
pub(crate) fn copy_context<A: Allocator, B: Allocator>(
    alloc: A,
    context: &SpanContext<B>,
) -> Result<SpanContext<A>, OutOfMemory>
    ensures { IfOk result (λ copied. context_view copied ≡ context_view context.now) }
{
    Ok(SpanContext {
        trace: context.trace,
        span: context.span,
        flags: context.flags,
        remote: context.remote,
        state: copy_text(alloc, &context.state)?,
    })
}
