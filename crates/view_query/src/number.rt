//! Numbers and durations.

ghost use Rattle.std.specs.Prelude.{◌≡◌};
ghost use Rattle.view_query.specs.Numbers as spec;

use crate::lex::{Class, is_in, run_length};

/// The number that digits alone spell, one or more, if it is below 2^64.
pub(crate) fn number_of(text: &[u8]) -> Option<u64>
    ensures { result ≡ spec.number_of text.now }
{
    if text.is_empty() {
        return None;
    }
    let mut number = 0u64;
    for byte in text {
        if !is_in(Class::Digit, *byte) {
            return None;
        }
        number = number
            .checked_mul(10)?
            .checked_add(u64::from(*byte - b'0'))?;
    }
    Some(number)
}

/// How many nanoseconds a unit has.
#[tactic(auto, unfolding(crate::specs::Numbers::unit_of))]
fn unit_of(unit: &[u8]) -> Option<u64>
    ensures { result ≡ spec.unit_of unit.now }
{
    match unit {
        b"ns" => Some(1),
        b"us" => Some(1_000),
        b"ms" => Some(1_000_000),
        b"s" => Some(1_000_000_000),
        b"m" => Some(60_000_000_000),
        b"h" => Some(3_600_000_000_000),
        _ => None,
    }
}

/// The nanoseconds that a number with its unit spells, if they are below 2^64.
pub(crate) fn nanos_of(text: &[u8]) -> Option<u64>
    ensures { result ≡ spec.nanos_of text.now }
{
    let (digits, unit) = text.split_at(run_length(Class::Digit, text));
    let number = number_of(digits)?;
    let unit = unit_of(unit)?;
    number.checked_mul(unit)
}
