//! How bodies come.

/// How the body of a request comes (RFC 9110, section 8.4.1).
#[derive(Clone, Copy, Debug, PartialEq, Eq)]
pub enum ContentCoding {
    /// As it is.
    Identity,
    /// Compressed, as a gzip file (RFC 1952).
    Gzip,
}
