//! The fields that requests to the collector have.

use otlp_http::{HeaderFault, HeaderFields};
use std::alloc::Global;

/// A field that isn't taken.
#[derive(Clone, Copy, Debug, PartialEq, Eq)]
pub(crate) struct BadHeader {
    /// Which one it is of those that `--header` was given, from 0 on.
    pub(crate) index: usize,
    /// Why.
    pub(crate) fault: HeaderFault,
}

/// The name before the first `:`, and the value after it, without the blanks around it (RFC 9112,
/// section 5). The value is empty where there is no `:`.
fn field_of(text: &str) -> (&str, &str) {
    match text.split_once(':') {
        Some((name, value)) => (name, value.trim_matches(|c| c == ' ' || c == '\t')),
        None => (text, ""),
    }
}

/// The name of a field, which is no secret as its value may be.
pub(crate) fn name_of(text: &str) -> &str {
    field_of(text).0
}

/// The fields that these texts spell, `NAME:VALUE`, in their order.
///
/// # Errors
///
/// The first one that isn't taken.
pub(crate) fn fields_of(alloc: Global, texts: &[String]) -> Result<HeaderFields, BadHeader> {
    let mut fields = HeaderFields::new(alloc);
    for (index, text) in texts.iter().enumerate() {
        let (name, value) = field_of(text.as_str());
        if let Err(fault) = fields.push(name, value) {
            return Err(BadHeader { index, fault });
        }
    }
    Ok(fields)
}
