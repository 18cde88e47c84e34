//! Words, and runs of bytes.

ghost use Rattle.std.specs.Prelude.{◌≡◌, ◌≤◌, false, length};
ghost use Rattle.view_query.specs.Words as spec;
ghost use Rattle.view_query.specs.Words.{run};

/// A kind of bytes.
#[derive(Clone, Copy)]
pub(crate) enum Class {
    /// What a key has: anything but a quote and `= : ! < >`.
    Key,
    /// Anything but a quote.
    Unquoted,
    /// A decimal digit.
    Digit,
}

/// Whether a byte is of a kind.
pub(crate) fn is_in(class: Class, byte: u8) -> bool
    ensures { result ≡ spec.is_in class byte }
{
    match class {
        Class::Key => !(byte == b'"'
            || byte == b'='
            || byte == b':'
            || byte == b'!'
            || byte == b'<'
            || byte == b'>'),
        Class::Unquoted => byte != b'"',
        Class::Digit => byte >= b'0' && byte <= b'9',
    }
}

/// How many bytes of a kind are at the start.
pub(crate) fn run_length(class: Class, bytes: &[u8]) -> usize
    ensures is { result ≡ run class bytes.now }
    ensures within { result ≤ length bytes.now }
{
    let mut found = 0usize;
    for byte in bytes {
        if !is_in(class, *byte) {
            return found;
        }
        found += 1;
    }
    found
}

/// Whether the byte after this one is inside quotes, where this one is inside, or not.
fn inside_after(inside: bool, byte: u8) -> bool
    ensures { result ≡ spec.inside_after inside byte }
{
    if byte == b'"' { !inside } else { inside }
}

/// How many bytes the word has that is at the start: up to the first space outside quotes.
pub(crate) fn word_length(bytes: &[u8]) -> usize
    ensures is { result ≡ spec.word_length false bytes.now }
    ensures within { result ≤ length bytes.now }
{
    let mut found = 0usize;
    let mut inside = false;
    for byte in bytes {
        if *byte == b' ' && !inside {
            return found;
        }
        inside = inside_after(inside, *byte);
        found += 1;
    }
    found
}
