//! Whether a connection lasts beyond a reply.

ghost use Rattle.std.specs.Prelude.{◌≡◌, ◌&&◌, List, codes};
ghost use Rattle.std.specs.List.{list_all};
ghost use Rattle.std.specs.Result.{result_map_both};
ghost use Rattle.http_wire.specs.Bodies.{framing_view};
ghost use Rattle.http_wire.specs.Fields.{NameAndValue, KeepsFields, values_of};
ghost use Rattle.otlp_http.specs.Persistence.{ends_by_itself, has_field, has_sure_framing};
ghost use Rattle.otlp_http.specs.Persistence.{is_keep_alive, keeps_alive, lasts_with};

use http_header::{HeaderMap, HeaderValue, ValueIter};
use http_wire::{Framing, HttpFault};
use std::alloc::Allocator;

/// Whether a body has an end of its own, that isn't the end of the connection.
fn ends_by_itself(framing: Framing) -> bool
    ensures { result ≡ ends_by_itself (framing_view framing) }
{
    match framing {
        Framing::Empty | Framing::Sized(_) | Framing::Chunked => true,
        Framing::ToEnd | Framing::Unknown => false,
    }
}

/// Whether the framing can be relied on (RFC 9112, section 6.1).
fn has_sure_framing(minor: u8, kept: &HeaderMap) -> bool
    ensures { (fields : List NameAndValue) → KeepsFields kept.now fields
        → result ≡ has_sure_framing minor fields }
{
    if kept.get("transfer-encoding").is_none() {
        return true;
    }
    if kept.get("content-length").is_some() {
        return false;
    }
    minor == 1
}

/// Whether each value is `keep-alive`, in any case of letters.
fn are_keep_alive(mut values: ValueIter<'_, HeaderValue>) -> bool
    ensures { result ≡ list_all (λ v. is_keep_alive v.bytes) values.entry }
{
    values.all(|value| value.as_bytes().eq_ignore_ascii_case(b"keep-alive"))
}

/// Whether each Connection is `keep-alive`.
fn says_only_keep_alive(kept: &HeaderMap) -> bool
    ensures { (fields : List NameAndValue) → KeepsFields kept.now fields
        → result ≡ list_all is_keep_alive (values_of (codes "connection") fields) }
{
    are_keep_alive(kept.get_all("connection").iter())
}

/// Whether there is a Connection.
fn has_connection(kept: &HeaderMap) -> bool
    ensures { (fields : List NameAndValue) → KeepsFields kept.now fields
        → result ≡ has_field (codes "connection") fields }
{
    kept.get("connection").is_some()
}

/// What the version and Connection say (RFC 9112, section 9.3).
fn keeps_alive(minor: u8, kept: &HeaderMap) -> bool
    ensures { (fields : List NameAndValue) → KeepsFields kept.now fields
        → result ≡ keeps_alive minor (values_of (codes "connection") fields) }
{
    (minor == 1 || has_connection(kept)) && says_only_keep_alive(kept)
}

/// Whether a connection may carry another request after a body that goes so far, of a head of
/// HTTP/1.`minor` with these fields.
fn lasts_by_head(minor: u8, framing: Framing, kept: &HeaderMap) -> bool
    ensures { (fields : List NameAndValue) → KeepsFields kept.now fields
        → result ≡ (ends_by_itself (framing_view framing) && (has_sure_framing minor fields
        && keeps_alive minor (values_of (codes "connection") fields))) }
{
    ends_by_itself(framing) && has_sure_framing(minor, kept) && keeps_alive(minor, kept)
}

/// Whether it may after this body.
pub(crate) fn lasts_with<A: Allocator>(
    minor: u8,
    framing: Framing,
    kept: &HeaderMap,
    body: &Result<Vec<u8, A>, HttpFault>,
) -> bool
    ensures { (fields : List NameAndValue) → KeepsFields kept.now fields
        → result ≡ lasts_with minor (framing_view framing) fields
        (result_map_both (λ v. v.items) (λ fault. fault) body.now) }
{
    match body {
        Ok(_) => lasts_by_head(minor, framing, kept),
        Err(_) => false,
    }
}
