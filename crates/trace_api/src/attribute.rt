//! Attributes of the span of a request, and requests without a span.

ghost use Rattle.std.specs.Prelude.{◌≡◌, ◌+◌, if◌then◌else◌, pos};
ghost use Rattle.trace_api.specs.Lent.{lent_pair};
ghost use Rattle.trace_api.specs.Endings as spec;
ghost use Rattle.trace_api.specs.Counts.{counted_requests};

use crate::{KeyValue, ValueRef};

/// A number of 16 bits, as the value of an attribute has it.
pub fn int_value(number: u16) -> i64
    ensures { result ≡ pos number }
{
    i64::from(number)
}

/// An attribute with a text.
pub fn text_pair<'a>(key: &'a str, text: &'a str) -> KeyValue<'a>
    ensures { lent_pair result ≡ spec.text_pair key.now text.now }
{
    KeyValue {
        key,
        value: ValueRef::Text(text),
    }
}

/// How many requests have no span, with one more, whose span has ended if it has one. It stops at
/// 2^64 - 1.
pub fn count_untraced(untraced: u64, has_ended: bool) -> u64
    ensures { result ≡ (if has_ended then untraced else counted_requests (untraced + 1)) }
{
    if has_ended {
        untraced
    } else {
        untraced.saturating_add(1)
    }
}
