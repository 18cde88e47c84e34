//! Origins as texts.

ghost use Rattle.std.specs.Prelude.{◌≡◌, ◌≤◌, bytes_eq, codes, length, map, string_bytes};
ghost use Rattle.std.specs.List.{list_all, list_any};
ghost use Rattle.http_listener.specs.Origins as spec;
ghost use Rattle.http_listener.specs.Origins.{has_origin};

use std::alloc::{AllocError, Global};
use std::marker::Model;

/// Whether it is a byte of a host and its port.
fn is_host_byte(byte: u8) -> bool
    ensures { result ≡ spec.is_host_byte byte }
{
    byte.is_ascii_alphanumeric() || matches!(byte, b'-' | b'.' | b':' | b'[' | b']' | b'_')
}

/// Whether all are bytes of a host and its port.
fn are_host_bytes(bytes: &[u8]) -> bool
    ensures { result ≡ list_all spec.is_host_byte bytes.now }
{
    bytes.iter().all(|byte| is_host_byte(*byte))
}

/// Whether it is a host, with or without a port.
fn is_host(host: &[u8]) -> bool
    ensures { result ≡ spec.is_host host.now }
{
    !host.is_empty() && are_host_bytes(host)
}

/// Whether a text is this beginning, and a host.
fn is_host_after(front: &[u8], text: &[u8]) -> bool
    requires { length front.now ≤ 8 }
    ensures { result ≡ spec.is_host_after front.now text.now }
{
    if text.len() < front.len() {
        return false;
    }
    let (begin, host) = text.split_at(front.len());
    begin == front && is_host(host)
}

/// Whether a text is the origin of pages, as browsers write it: `http://` or `https://`, and a
/// host, with a port where it isn't the scheme's own, without a path (RFC 6454, section 6.2).
pub fn is_origin(text: &str) -> bool
    ensures { result ≡ spec.is_origin text.now }
{
    is_host_after(b"https://", text.as_bytes()) || is_host_after(b"http://", text.as_bytes())
}

/// Whether one of these texts is this origin.
fn has_text(texts: &[String], origin: &[u8]) -> bool
    ensures { result ≡ list_any (λ text. bytes_eq (string_bytes text) origin.now) texts.now }
{
    texts.iter().any(|text| text.as_bytes() == origin)
}

/// The origins whose pages may post. In contracts it is their texts.
#[derive(Debug, Drop)]
pub struct Origins {
    texts: Vec<String>,
}

impl Model for Origins {
    ghost use Rattle.std.specs.Prelude.{ℕ, List, map, string_bytes};

    ghost Value = { List (List ℕ) };

    ghost view = { λ o. map string_bytes o.texts.items };
}

impl Origins {
    /// These origins.
    pub fn new(texts: Vec<String>) -> Origins
        ensures { result ≡ map string_bytes texts.items }
    {
        Origins { texts }
    }

    /// Whether one of them is this one, as a field Origin has it.
    pub fn has(&self, origin: &[u8]) -> bool
        ensures { result ≡ has_origin self.now origin.now }
    {
        has_text(&self.texts, origin)
    }
}
