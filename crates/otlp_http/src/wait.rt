//! How long a reply asks to wait.

ghost use Rattle.std.specs.Prelude.{◌≡◌, codes, map};
ghost use Rattle.http_header.specs.HeaderMap.{get_all};
ghost use Rattle.otlp_http.specs.Waits.{asked_wait, retry_after};

use http_header::HeaderMap;
use http_wire::{is_digits, read_length};
use httpdate::HttpDate;
use retry_core::RetryAfter;

/// What a value of Retry-After says.
fn asked_wait(value: &[u8]) -> Option<RetryAfter>
    ensures { result ≡ asked_wait value.now }
{
    if is_digits(value) {
        return Some(RetryAfter::Seconds(read_length(value).unwrap_or(u64::MAX)));
    }
    match HttpDate::parse_ascii(value) {
        Ok(date) => Some(RetryAfter::Date(date.unix_secs())),
        Err(_) => None,
    }
}

/// What the first Retry-After says.
pub fn retry_after(kept: &HeaderMap) -> Option<RetryAfter>
    ensures { result
        ≡ retry_after (map (λ v. v.bytes) (get_all kept.now (codes "retry-after"))) }
{
    let mut values = kept.get_all("retry-after").iter();
    match values.next() {
        Some(first) => asked_wait(first.as_bytes()),
        None => None,
    }
}
