//! The terms of a search.

use std::alloc::{Allocator, Global};

/// How a text is compared.
#[derive(Debug, Clone, Copy, PartialEq, Eq)]
pub(crate) enum TextSign {
    /// `=`: it is that text.
    Is,
    /// `!=`: it is another one.
    IsNot,
    /// `:`: it contains that text, in any case of the letters A to Z.
    Has,
}

/// How a number is compared.
#[derive(Debug, Clone, Copy, PartialEq, Eq)]
pub(crate) enum Order {
    /// `>`
    Above,
    /// `>=`
    AtLeast,
    /// `<`
    Below,
    /// `<=`
    AtMost,
}

/// A sign between a field and a value.
#[derive(Debug, Clone, Copy, PartialEq, Eq)]
pub(crate) enum Sign {
    /// One that compares texts.
    Text(TextSign),
    /// One that compares numbers.
    Order(Order),
}

/// What is asked of a span.
#[derive(Drop)]
#[derive_where(Debug)]
pub(crate) enum Test<A: Allocator = Global> {
    /// Its status is an error.
    Error,
    /// It names no parent.
    Root,
    /// Its name.
    Name(TextSign, Vec<u8, A>),
    /// The service that made it.
    Service(TextSign, Vec<u8, A>),
    /// How long it took, in nanoseconds.
    Duration(Order, u64),
    /// The value of an attribute with this key.
    Attribute(Vec<u8, A>, TextSign, Vec<u8, A>),
    /// The whole number that an attribute with this key has.
    Number(Vec<u8, A>, Order, u64),
}

/// A test that a span passes, or that it doesn't pass.
#[derive(Drop)]
#[derive_where(Debug)]
pub(crate) struct Term<A: Allocator = Global> {
    /// Whether it is to fail the test.
    pub(crate) is_negated: bool,
    /// The test.
    pub(crate) test: Test<A>,
}
