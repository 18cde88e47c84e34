//! Fields that a program sends with each request.

ghost use Rattle.std.specs.Prelude.{◌≡◌, ◌≤◌, ◌++◌, ◌∷◌, [], None, IfErr, IfOk, IsTrue};
ghost use Rattle.std.specs.Prelude.{◌==◌, OnErr, OnOk, length, string_bytes};
ghost use Rattle.std.specs.List.{list_all, list_any};
ghost use Rattle.otlp_http.specs.Fields as spec;
ghost use Rattle.otlp_http.specs.FieldsView.{fields_view};
ghost use Rattle.otlp_http.specs.declared.headers.HeaderFault.TheVariants as faults;

use httparse::is_token;
use std::alloc::{AllocError, Allocator, Global};
use std::fmt;
use std::marker::Model;
use thiserror::Error;

/// The most bytes that the lines of all fields have together: collectors refuse much longer heads
/// (profile).
pub const MOST_HEADER_BYTES: usize = 8192;

// No clause says the number itself.
const _: () = prove!(MOST_HEADER_BYTES == 8192);

/// The names that no field of a program has.
const RESERVED_NAMES: [&str; 12] = [
    "host",
    "content-type",
    "content-length",
    "connection",
    "transfer-encoding",
    "content-encoding",
    "expect",
    "upgrade",
    "te",
    "trailer",
    "keep-alive",
    "proxy-connection",
];

/// Why a field isn't taken. None of them says the value, which may be a secret.
#[derive(Error, Debug, Clone, Copy, PartialEq, Eq)]
pub enum HeaderFault {
    /// The name is no token: it is empty, or has a byte that is no ASCII letter or digit and none
    /// of ``!#$%&'*+-.^_`|~`` (RFC 9110, section 5.6.2).
    #[error("bad name: a name is letters, digits and any of !#$%&'*+-.^_`|~")]
    BadName,
    /// The kit sets the field of this name, or it says how a message is sent.
    #[error("reserved name: the kit sets this field itself")]
    ReservedName,
    /// A field of this name is there already.
    #[error("repeated name: a field of this name is there already")]
    Repeated,
    /// The value has a byte that is no visible ASCII, space or tab, or a blank at an end.
    #[error("bad value: a value is visible ASCII, with spaces and tabs between")]
    BadValue,
    /// The lines of all fields would have more than [`MOST_HEADER_BYTES`] bytes.
    #[error("too long: all fields have 8192 bytes at most")]
    TooLong,
    /// The field could not be stored.
    #[error("out of memory")]
    OutOfMemory,
}

impl From<AllocError> for HeaderFault {
    ghost from_gives = { λ _ fault. fault ≡ faults.OutOfMemory };

    fn from(_: AllocError) -> HeaderFault {
        HeaderFault::OutOfMemory
    }
}

/// Fields that a program sends with each request, beside those of the kit: names and values, in the
/// order in which they were pushed (RFC 9110, section 5). Values may be secrets, so nothing shows
/// them. In contracts it is the list of names and values.
#[derive(Drop)]
pub struct HeaderFields<A: Allocator = Global> {
    alloc: A,
    fields: Vec<(String<A>, String<A>), A>,
    lines: Vec<u8, A>,
}

impl<A: Allocator> Model for HeaderFields<A> {
    ghost use Rattle.std.specs.Prelude.{◌≡◌, List};
    ghost use Rattle.otlp_http.specs.Fields.{AreFields, Field, field_lines};
    ghost use Rattle.otlp_http.specs.FieldsView.{fields_view};

    ghost Value = { List Field };

    ghost view = { λ h. fields_view h.fields.items };

    ghost invariant = { λ h. AreFields (fields_view h.fields.items)
        × (h.lines.items ≡ field_lines (fields_view h.fields.items)) };
}

/// Writes how many fields there are, and none of them.
impl<A: Allocator> fmt::Debug for HeaderFields<A> {
    fn fmt<W: fmt::Write>(&self, f: &mut fmt::Formatter<W>) -> fmt::Result {
        write!(f, "HeaderFields({})", self.fields.len())
    }
}

/// Whether two names are the same, in letters of either case.
fn is_same_name(name: &str, other: &str) -> bool
    ensures { result ≡ spec.is_same_name name.now other.now }
{
    name.eq_ignore_ascii_case(other)
}

/// Whether one of these names is this one.
fn is_among(names: &[&str], name: &str) -> bool
    ensures { result ≡ list_any (λ other. spec.is_same_name name.now other.now) names.now }
{
    names.iter().any(|other| is_same_name(name, other))
}

/// Whether no field of a program has this name.
fn is_reserved(name: &str) -> bool
    ensures { result ≡ spec.is_reserved name.now }
{
    is_among(&RESERVED_NAMES, name)
}

/// Whether a stored field has this name already.
fn is_stored<A: Allocator>(fields: &[(String<A>, String<A>)], name: &str) -> bool
    ensures { result
        ≡ list_any (λ f. spec.is_same_name (string_bytes f.0) name.now) fields.now }
{
    fields.iter().any(|f| is_same_name(f.0.as_str(), name))
}

/// Whether this is a visible ASCII byte.
fn is_visible(byte: u8) -> bool
    ensures { result ≡ spec.is_visible byte }
{
    byte >= b'!' && byte <= b'~'
}

/// Whether each byte may be in a value.
fn are_value_bytes(value: &[u8]) -> bool
    ensures { result ≡ list_all spec.is_value_byte value.now }
{
    value
        .iter()
        .all(|b| is_visible(*b) || (*b == b' ' || *b == b'\t'))
}

/// Whether this is a value.
fn is_value(value: &[u8]) -> bool
    ensures { result ≡ spec.is_value value.now }
{
    let len = value.len();
    len == 0 || is_visible(value[0]) && is_visible(value[len - 1]) && are_value_bytes(value)
}

/// The line of a field.
fn line_of<A: Allocator>(alloc: A, name: &str, value: &str) -> Result<Vec<u8, A>, AllocError>
    ensures { IfOk result (λ text. text.items ≡ spec.field_line (name.now, value.now)) }
{
    let mut text = Vec::new(alloc);
    text.extend_from_slice(name.as_bytes())?;
    text.extend_from_slice(b": ")?;
    text.extend_from_slice(value.as_bytes())?;
    text.extend_from_slice(b"\r\n")?;
    Ok(text)
}

impl<A: Allocator + Copy> HeaderFields<A> {
    /// No fields.
    pub fn new(alloc: A) -> HeaderFields<A>
        ensures { result ≡ [] }
    {
        HeaderFields {
            alloc,
            fields: Vec::new(alloc),
            lines: Vec::new(alloc),
        }
    }
    /// Whether a field has this name already.
    #[tactic(auto, using(crate::proofs::HeaderLemmas::has_stored))]
    fn has_name(&self, name: &str) -> bool
        ensures { result ≡ spec.has_name name.now self.now }
    {
        is_stored(&self.fields, name)
    }

    /// Whether a field with this name and this value is too long for the room that is left.
    #[tactic(auto, using(crate::proofs::HeaderLemmas::too_long))]
    fn is_too_long(&self, name: &str, value: &str) -> bool
        ensures { result ≡ spec.is_too_long self.now (name.now, value.now) }
    {
        // No 64 bits hold the sum of any two lengths and more.
        let all = self.lines.len() as u128 + name.len() as u128 + value.len() as u128 + 4;
        all > MOST_HEADER_BYTES as u128
    }

    /// Tests a field.
    #[tactic(auto, unfolding(crate::specs::Fields::refusal))]
    fn check(&self, name: &str, value: &str) -> Result<(), HeaderFault>
        ensures ok { OnOk result (spec.refusal self.now (name.now, value.now) ≡ None) }
        ensures refused { IfErr result (λ fault.
            spec.refusal self.now (name.now, value.now) ≡ spec.refusal_by fault) }
    {
        if !is_token(name.as_bytes()) {
            return Err(HeaderFault::BadName);
        }
        if is_reserved(name) {
            return Err(HeaderFault::ReservedName);
        }
        if self.has_name(name) {
            return Err(HeaderFault::Repeated);
        }
        if !is_value(value.as_bytes()) {
            return Err(HeaderFault::BadValue);
        }
        if self.is_too_long(name, value) {
            return Err(HeaderFault::TooLong);
        }
        Ok(())
    }

    /// Adds a field after those that are there.
    ///
    /// # Errors
    ///
    /// The first that holds, and the fields are as they were: `BadName` where the name is no token
    /// (RFC 9110, section 5.6.2); `ReservedName` where it is, in letters of either case, that of a
    /// field which each request has (`Host`, `Content-Type`, `Content-Length`, `Connection`), or
    /// `Transfer-Encoding`, `Content-Encoding`, `Expect`, `Upgrade`, `TE`, `Trailer`, `Keep-Alive`
    /// or `Proxy-Connection` (profile); `Repeated` where a field has that name already, in letters
    /// of either case (RFC 9110, section 5.3); `BadValue` where the value isn't visible ASCII with
    /// spaces and tabs between (RFC 9110, section 5.5; an empty one is taken; ASCII alone:
    /// profile); `TooLong` where the lines of all fields would have more than
    /// [`MOST_HEADER_BYTES`] bytes (profile); `OutOfMemory` where the field could not be stored.
    pub fn push(&mut self, name: &str, value: &str) -> Result<(), HeaderFault>
        ensures pushed { OnOk result (self.new ≡ self.old ++ (name.now, value.now) ∷ []) }
        ensures ok { OnOk result (spec.refusal self.old (name.now, value.now) ≡ None) }
        ensures refused { IfErr result (λ fault.
            spec.refusal self.old (name.now, value.now) ≡ spec.refusal_by fault) }
        ensures unchanged { OnErr result (self.new ≡ self.old) }
    {
        self.check(name, value)?;
        let line = line_of(self.alloc, name, value)?;
        let name = String::from_str(self.alloc, name)?;
        let value = String::from_str(self.alloc, value)?;
        self.fields.reserve(1)?;
        self.lines.extend_from_slice(&line)?;
        self.fields.push_reserved((name, value));
        Ok(())
    }
}

impl<A: Allocator> HeaderFields<A> {
    /// The lines of the fields in a head, each with its end (RFC 9112, section 5).
    pub fn lines(&self) -> &[u8]
        ensures value { result.now ≡ spec.field_lines self.now }
        ensures valid { IsTrue (list_all spec.is_field self.now) }
        ensures short { length result.now ≤ 8192 }
    {
        self.lines.as_slice()
    }

    /// How many fields there are.
    pub fn len(&self) -> usize
        ensures { result ≡ length self.now }
    {
        self.fields.len()
    }

    /// Whether there are none.
    pub fn is_empty(&self) -> bool
        ensures { result ≡ (length self.now == 0) }
    {
        self.fields.is_empty()
    }
}
