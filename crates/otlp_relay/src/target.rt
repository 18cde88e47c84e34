//! Where bodies are sent to.

use otlp_http::{DEFAULT_PATH, HeaderFields, Target, TargetFault};
use std::alloc::Global;

/// Why a text names no collector.
#[derive(Clone, Copy, Debug, PartialEq, Eq)]
pub(crate) enum NoTarget {
    /// It isn't `http://`, a host, a port and a path.
    Unread,
    /// Memory was refused.
    OutOfMemory,
}

/// What comes after `http://`.
fn after_scheme(url: &str) -> Option<&str> {
    url.strip_prefix("http://")
}

/// The authority of what comes after the scheme, and the path: that of traces where there is none,
/// or a `/` alone (OTLP Specification, "OTLP/HTTP Request"; profile).
fn parts_of(rest: &str) -> (&str, &str) {
    let Some(at) = rest.find('/') else {
        return (rest, DEFAULT_PATH);
    };
    let (authority, path) = rest.split_at(at);
    if path == "/" {
        return (authority, DEFAULT_PATH);
    }
    (authority, path)
}

/// The port of these digits, from 1 on.
fn port_of(digits: &str) -> Option<u16> {
    match digits.parse::<u16>() {
        Ok(0) | Err(_) => None,
        Ok(port) => Some(port),
    }
}

/// The host, the port and the path of a URL, if it has these (RFC 9110, section 4.2.1).
fn place_of(url: &str) -> Option<(&str, u16, &str)> {
    let (authority, path) = parts_of(after_scheme(url)?);
    let (host, digits) = authority.rsplit_once(':')?;
    Some((host, port_of(digits)?, path))
}

/// The collector that a text names, to which each request has these fields: `http://HOST:PORT`, and
/// a path, that of traces where there is none. A host is a name, an address of four numbers, or an
/// IPv6 address in brackets.
pub(crate) fn target_of(
    alloc: Global,
    url: &str,
    fields: HeaderFields,
) -> Result<Target, NoTarget> {
    let Some((host, port, path)) = place_of(url) else {
        return Err(NoTarget::Unread);
    };
    match Target::new(alloc, host, port, path) {
        Ok(target) => Ok(target.with_headers(fields)),
        Err(TargetFault::OutOfMemory) => Err(NoTarget::OutOfMemory),
        Err(_) => Err(NoTarget::Unread),
    }
}
