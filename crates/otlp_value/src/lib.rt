//! Attribute values and lists of attributes (OpenTelemetry Common, "Attribute"; Trace SDK, "Span
//! Limits").
#![tactic(auto)]

ghost use Rattle.std.specs.Prelude.{◌≡◌, ◌<◌, ◌∷◌, ◌++◌, IfOk, OnErr, OnOk, Some, [], false};
ghost use Rattle.std.specs.Prelude.{length, map, position, string_bytes};
ghost use Rattle.model_span.specs.Attributes as model;
ghost use Rattle.model_span.specs.Attributes.{SetsPair, attribute_list, cut, first_chars, has_key};
ghost use Rattle.model_span.specs.Attributes.{is_empty};
ghost use Rattle.otlp_value.specs.AttributeList.{TakesPlace};
ghost use Rattle.otlp_value.specs.Value.{CopyTakesMemory, attribute_view, attributes_view};
ghost use Rattle.otlp_value.specs.Value.{limits_view, value_view};

use otlp_ids::{OutOfMemory, copy_text};
use std::alloc::{Allocator, Global};
use std::marker::Model;

/// A value of an attribute (OpenTelemetry Common, "Attribute").
#[derive(Drop)]
#[derive_where(Debug, PartialEq, Eq, Hash)]
pub enum Value<A: Allocator = Global> {
    /// A text.
    Text(String<A>),
    /// A truth value.
    Bool(bool),
    /// A whole number of 64 bits, with its sign.
    Int(i64),
    /// An array of texts.
    Texts(Vec<String<A>, A>),
    /// An array of truth values.
    Bools(Vec<bool, A>),
    /// An array of whole numbers.
    Ints(Vec<i64, A>),
}

impl<A: Allocator> Value<A> {
    /// A text, on memory of its own. An empty one takes none.
    ///
    /// # Errors
    ///
    /// `OutOfMemory` where the text could not be stored.
    pub fn text(alloc: A, text: &str) -> Result<Value<A>, OutOfMemory>
        ensures value { IfOk result (λ v. value_view v ≡ model.text text.now) }
        ensures refused { OnErr result (is_empty text.now ≡ false) }
    {
        Ok(Value::Text(copy_text(alloc, text)?))
    }

    /// The value with its text, or each text of its array by itself, cut to this number of Unicode
    /// scalar values. The others stay as they are, and without a limit all do. It takes no memory.
    fn cut(self, length: Option<u32>) -> Value<A>
        ensures { value_view result ≡ cut length (value_view self) }
    {
        let Some(length) = length else { return self };
        match self {
            Value::Text(mut text) => {
                cut_text(&mut text, length);
                Value::Text(text)
            }
            Value::Texts(mut texts) => {
                cut_texts(&mut texts, length);
                Value::Texts(texts)
            }
            other => other,
        }
    }
}

impl<A: Allocator + Copy> Value<A> {
    /// An equal value, on memory of its own. A number, a truth value and what is empty take none.
    ///
    /// # Errors
    ///
    /// `OutOfMemory` where a text or an array could not be stored.
    pub fn copy(&self, alloc: A) -> Result<Value<A>, OutOfMemory>
        ensures value { IfOk result (λ v. value_view v ≡ value_view self.now) }
        ensures refused { OnErr result (CopyTakesMemory self.now) }
    {
        match self {
            Value::Text(text) => Ok(Value::Text(copy_text(alloc, text)?)),
            Value::Bool(truth) => Ok(Value::Bool(*truth)),
            Value::Int(number) => Ok(Value::Int(*number)),
            Value::Texts(texts) => Ok(Value::Texts(copy_texts(alloc, texts)?)),
            Value::Bools(truths) => Ok(Value::Bools(copy_items(alloc, truths)?)),
            Value::Ints(numbers) => Ok(Value::Ints(copy_items(alloc, numbers)?)),
        }
    }
}

/// How much an `AttributeList` keeps (OpenTelemetry Common, "Attribute Limits").
#[derive(Debug, Clone, Copy, PartialEq, Eq)]
pub struct Limits {
    /// How many keys are kept at most; 0 keeps none.
    pub count: u32,
    /// How many Unicode scalar values a text has at most, as a value or in an array; `None` cuts
    /// none.
    pub value_length: Option<u32>,
}

/// Attributes under distinct keys, in the order in which the keys were first set (OpenTelemetry
/// Common, "Attribute Limits"): as many as its limits allow.
#[derive_where(Debug)]
pub struct AttributeList<A: Allocator = Global> {
    limits: Limits,
    pairs: Vec<(String<A>, Value<A>), A>,
    dropped: u32,
}

/// By hand: a derived one would be proved again in each crate that drops it.
impl<A: Allocator> Drop for AttributeList<A> {
    fn drop(self) {
        let Self {
            limits: _,
            pairs: _,
            dropped: _,
        } = self;
    }
}

impl<A: Allocator> Model for AttributeList<A> {
    ghost use Rattle.model_span.specs.Attributes.{AttributeList};

    ghost Value = { AttributeList };

    ghost use Rattle.otlp_value.specs.Value.{attributes_view, limits_view};

    ghost view = { λ l. record {
      limits = limits_view l.limits;
      kept = record { items = attributes_view l.pairs.items; dropped = l.dropped };
    } };
}

impl<A: Allocator> AttributeList<A> {
    /// An empty list with these limits. It takes no memory.
    pub fn new(alloc: A, limits: Limits) -> AttributeList<A>
        ensures { result ≡ attribute_list (limits_view limits) [] }
    {
        AttributeList {
            limits,
            pairs: Vec::new(alloc),
            dropped: 0,
        }
    }

    /// Sets an attribute (OpenTelemetry Trace SDK, "Span Limits"; Common, "Attribute"). A key that
    /// is there keeps its place and gets the value; a new one is appended. A pair with an empty key
    /// is ignored. One with a new key is discarded, and counted, where as many keys are kept as the
    /// limit allows (profile). A text that is kept, and each of an array, is cut to the limit on
    /// its length; a key never is.
    ///
    /// # Errors
    ///
    /// `OutOfMemory` where a new key that is to be kept could not be stored: the list is unchanged.
    pub fn set(&mut self, key: String<A>, value: Value<A>) -> Result<(), OutOfMemory>
        ensures ok { OnOk result (SetsPair (attribute_view (key, value)) self.old self.new) }
        ensures err { OnErr result (self.new ≡ self.old) }
        ensures refused_only_where_kept { OnErr result (TakesPlace (string_bytes key) self.old) }
    {
        if key.is_empty() {
            return Ok(());
        }
        let value = value.cut(self.limits.value_length);
        match position_of(&self.pairs, &key) {
            Some(index) => self.pairs[index].1 = value,
            None if self.pairs.len() < self.limits.count as usize => {
                append(&mut self.pairs, self.limits.count, (key, value))?
            }
            None => self.dropped = self.dropped.saturating_add(1),
        }
        Ok(())
    }

    /// The pairs that are kept, in the order in which their keys were first set.
    pub fn pairs(&self) -> &[(String<A>, Value<A>)]
        ensures { attributes_view result.now ≡ self.now.kept.items }
    {
        &self.pairs
    }

    /// How many pairs were discarded for want of room; it stops at 2^32 - 1 (profile).
    pub fn dropped(&self) -> u32
        ensures { result ≡ self.now.kept.dropped }
    {
        self.dropped
    }

    /// The pairs that are kept, in that order, as a vector. It takes no memory.
    pub fn into_pairs(self) -> Vec<(String<A>, Value<A>), A>
        ensures { attributes_view result.items ≡ self.kept.items }
    {
        let Self {
            limits: _,
            pairs,
            dropped: _,
        } = self;
        pairs
    }
}

/// For how many pairs a list has room from its first one on.
const FIRST_ROOM: usize = 8;

/// Appends an item to fewer than the limit allows. Where it is the first one, room is taken for as
/// many as a list mostly has, or as the limit allows.
///
/// # Errors
///
/// `OutOfMemory` where it could not be stored; it is then dropped.
fn append<T: Drop, A: Allocator>(
    items: &mut Vec<T, A>,
    limit: u32,
    item: T,
) -> Result<(), OutOfMemory>
    ensures ok { OnOk result (items.new.items ≡ items.old.items ++ item ∷ []) }
    ensures err { OnErr result (items.new.items ≡ items.old.items) }
{
    if items.is_empty() {
        items.reserve_exact(FIRST_ROOM.min(limit as usize))?;
    }
    items.push(item)?;
    Ok(())
}

/// Cuts a text to this number of Unicode scalar values. It takes no memory.
fn cut_text<A: Allocator>(text: &mut String<A>, length: u32)
    ensures { string_bytes text.new ≡ first_chars (Some length) (string_bytes text.old) }
{
    if let Some((end, _)) = text.char_indices().nth(length as usize) {
        text.truncate(end);
    }
}

/// Cuts each of the texts to this number of Unicode scalar values. It takes no memory.
fn cut_texts<A: Allocator>(texts: &mut [String<A>], length: u32)
    ensures { map string_bytes texts.new ≡ map (first_chars (Some length))
        (map string_bytes texts.old) }
{
    for text in texts.iter_mut() {
        cut_text(text, length);
    }
}

/// Equal texts, on memory of their own. None at all take none.
fn copy_texts<A: Allocator + Copy>(
    alloc: A,
    texts: &[String<A>],
) -> Result<Vec<String<A>, A>, OutOfMemory>
    ensures value { IfOk result (λ v. map string_bytes v.items ≡ map string_bytes texts.now) }
    ensures refused { OnErr result (0 < length texts.now) }
{
    let mut copied = Vec::with_capacity(alloc, texts.len())?;
    for text in texts {
        copied.push(copy_text(alloc, text)?)?;
    }
    Ok(copied)
}

/// The same items, on memory of their own. None at all take none.
fn copy_items<T: Copy, A: Allocator>(alloc: A, items: &[T]) -> Result<Vec<T, A>, OutOfMemory>
    ensures value { IfOk result (λ v. v.items ≡ items.now) }
    ensures refused { OnErr result (0 < length items.now) }
{
    let mut copied = Vec::with_capacity(alloc, items.len())?;
    copied.extend_from_slice(items)?;
    Ok(copied)
}

/// Where the pair with this key is.
fn position_of<A: Allocator>(pairs: &[(String<A>, Value<A>)], key: &str) -> Option<usize>
    ensures { result ≡ position (λ p. has_key key.now (attribute_view p)) pairs.now }
{
    pairs.iter().position(|(name, _)| name.as_str() == key)
}
