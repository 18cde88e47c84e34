//! Bytes as hexadecimal digits in lower case.

ghost use Rattle.std.specs.Prelude.{◌≡◌, ◌^◌, ◌<◌, option_map, slice_index};
ghost use Rattle.std.specs.List.{list_all};
ghost use Rattle.trace_context.specs.Digits as spec;

use hex::FromHex;

/// Whether a byte is a digit in lower case.
#[tactic(auto, unfolding(crate::specs::Digits::is_lower_digit))]
fn is_lower_digit(byte: u8) -> bool
    ensures { result ≡ spec.is_lower_digit byte }
{
    (48 <= byte && byte <= 57) || (97 <= byte && byte <= 102)
}

/// Whether each byte is one.
fn are_lower_digits(text: &[u8]) -> bool
    ensures { result ≡ list_all spec.is_lower_digit text.now }
{
    text.iter().all(|byte| is_lower_digit(*byte))
}

/// The bytes that digits in lower case spell, two digits each.
#[tactic(auto, unfolding(crate::specs::Digits::lower_bytes))]
pub(crate) fn lower_bytes<const N: usize>(text: &[u8]) -> Option<[u8; N]>
    requires { N < 2 ^ 63 }
    ensures { result ≡ spec.lower_bytes N text.now }
{
    if !are_lower_digits(text) {
        return None;
    }
    <[u8; N] as FromHex>::from_hex(text).ok()
}

/// The byte that two digits in lower case spell.
pub(crate) fn lower_byte(text: &[u8]) -> Option<u8>
    ensures { result ≡ option_map (λ b. slice_index b 0) (spec.lower_bytes 1 text.now) }
{
    let [byte] = lower_bytes::<1>(text)?;
    Some(byte)
}
