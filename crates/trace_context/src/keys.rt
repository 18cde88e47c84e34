//! The key and the value of a member of `tracestate`.

ghost use Rattle.std.specs.Prelude.{◌≡◌};
ghost use Rattle.std.specs.List.{list_all};
ghost use Rattle.trace_context.specs.Keys as spec;

/// Whether a byte is a letter in lower case.
fn is_lower_letter(byte: u8) -> bool
    ensures { result ≡ spec.is_lower_letter byte }
{
    97 <= byte && byte <= 122
}

/// Whether a byte is a digit.
fn is_digit(byte: u8) -> bool
    ensures { result ≡ spec.is_digit byte }
{
    48 <= byte && byte <= 57
}

/// Whether a byte may be in a key, after its first.
#[tactic(auto, unfolding(crate::specs::Keys::is_key_byte))]
fn is_key_byte(byte: u8) -> bool
    ensures { result ≡ spec.is_key_byte byte }
{
    is_lower_letter(byte)
        || is_digit(byte)
        || byte == b'_'
        || byte == b'-'
        || byte == b'*'
        || byte == b'/'
        || byte == b'@'
}

/// Whether each byte may be there.
fn are_key_bytes(bytes: &[u8]) -> bool
    ensures { result ≡ list_all spec.is_key_byte bytes.now }
{
    bytes.iter().all(|byte| is_key_byte(*byte))
}

/// Whether this is a key: a letter in lower case or a digit, and up to 255 bytes of a key after it
/// (W3C Trace Context level 2, "key").
#[tactic(auto, unfolding(crate::specs::Keys::is_key))]
pub(crate) fn is_key(key: &[u8]) -> bool
    ensures { result ≡ spec.is_key key.now }
{
    match key {
        [] => false,
        [first, rest @ ..] => {
            let begins = is_lower_letter(*first) || is_digit(*first);
            begins && rest.len() <= 255 && are_key_bytes(rest)
        }
    }
}

/// Whether a byte may be in a value.
#[tactic(auto, unfolding(crate::specs::Keys::is_value_byte))]
fn is_value_byte(byte: u8) -> bool
    ensures { result ≡ spec.is_value_byte byte }
{
    32 <= byte && byte <= 126 && byte != b',' && byte != b'='
}

/// Whether each byte may be there.
fn are_value_bytes(bytes: &[u8]) -> bool
    ensures { result ≡ list_all spec.is_value_byte bytes.now }
{
    bytes.iter().all(|byte| is_value_byte(*byte))
}

/// Whether this is a value.
#[tactic(auto, unfolding(crate::specs::Keys::is_value))]
pub(crate) fn is_value(value: &[u8]) -> bool
    ensures { result ≡ spec.is_value value.now }
{
    0 < value.len()
        && value.len() <= 256
        && are_value_bytes(value)
        && value[value.len() - 1] != b' '
}
