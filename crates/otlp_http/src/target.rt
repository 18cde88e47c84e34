//! Where requests go.

ghost use Rattle.std.specs.Prelude.{◌≡◌, ◌+◌, ◌^◌, ◌<◌, ◌↔◌, [], false, length, IfOk, IsErrOf};
ghost use Rattle.std.specs.Prelude.{IsTrue};
ghost use Rattle.std.specs.List.{list_all, list_any};
ghost use Rattle.otlp_http.specs.declared.target.TargetFault.TheVariants as faults;
ghost use Rattle.otlp_http.specs.Address.{is_address, is_address_byte, is_colon, is_host};
ghost use Rattle.otlp_http.specs.Fields.{AreFields};
ghost use Rattle.otlp_http.specs.Address.{is_host_byte, is_literal, is_name, is_path, is_path_byte};

use crate::headers::HeaderFields;
use std::alloc::{AllocError, Allocator, Global};
use std::marker::Model;
use thiserror::Error;

/// The port at which collectors take OTLP over HTTP unless another is named. (OTLP Specification,
/// "OTLP/HTTP Default Port")
pub const DEFAULT_PORT: u16 = 4318;

// No clause says the number itself.
const _: () = prove!(DEFAULT_PORT == 4318);

/// The path at which they take traces unless another is named. (OTLP Specification, "OTLP/HTTP
/// Request")
pub const DEFAULT_PATH: &str = "/v1/traces";

/// Why a target is refused.
#[derive(Error, Debug, Clone, Copy, PartialEq, Eq)]
pub enum TargetFault {
    /// The host is empty, or has a byte that is no ASCII letter, digit, `.`, `-` or `_`, and is no
    /// IPv6 address in brackets.
    #[error("bad host: a host is letters, digits, dots, dashes and underscores, or [IPv6 address]")]
    BadHost,
    /// The path doesn't begin with `/`, or has a byte that isn't visible ASCII.
    #[error("bad path: a path is a slash and visible characters")]
    BadPath,
    /// Host or path could not be stored.
    #[error("out of memory")]
    OutOfMemory,
}

impl From<AllocError> for TargetFault {
    ghost from_gives = { λ _ fault. fault ≡ faults.OutOfMemory };

    fn from(_: AllocError) -> TargetFault {
        TargetFault::OutOfMemory
    }
}

/// The host, the port and the path that a collector listens at (RFC 9110, section 7.2), and the
/// fields of a program's own that each request to it has. In contracts it is an `Address`.
#[derive(Drop)]
#[derive_where(Debug)]
pub struct Target<A: Allocator = Global> {
    host: String<A>,
    port: u16,
    path: String<A>,
    headers: HeaderFields<A>,
}

impl<A: Allocator> Model for Target<A> {
    ghost use Rattle.std.specs.Prelude.{string_bytes};
    ghost use Rattle.otlp_http.specs.Address.{Address, IsTarget};

    ghost Value = { Address };

    ghost view = { λ t. record {
      host = string_bytes t.host;
      port = t.port;
      path = string_bytes t.path;
      fields = t.headers;
    } };

    ghost invariant = { λ t. IsTarget (record {
      host = string_bytes t.host;
      port = t.port;
      path = string_bytes t.path;
      fields = t.headers;
    }) };
}

/// Whether each byte may be in a host.
fn are_host_bytes(bytes: &[u8]) -> bool
    ensures { result ≡ list_all is_host_byte bytes.now }
{
    bytes.iter().all(|b| b.is_ascii_alphanumeric() || (*b == b'.' || (*b == b'-' || *b == b'_')))
}

/// Whether this is a name, or an address of four numbers.
fn is_name(host: &[u8]) -> bool
    ensures { result ≡ is_name host.now }
{
    !host.is_empty() && are_host_bytes(host)
}

/// Whether there is a `:`.
fn has_colon(text: &[u8]) -> bool
    ensures { result ≡ list_any is_colon text.now }
{
    text.iter().any(|b| *b == b':')
}

/// Whether each byte may be in an IPv6 address.
fn are_address_bytes(text: &[u8]) -> bool
    ensures { result ≡ list_all is_address_byte text.now }
{
    text.iter()
        .all(|b| b.is_ascii_hexdigit() || (*b == b':' || *b == b'.'))
}

/// Whether these are the bytes of an IPv6 address.
fn is_address(text: &[u8]) -> bool
    ensures { result ≡ is_address text.now }
{
    has_colon(text) && are_address_bytes(text)
}

/// Whether this is an IPv6 address in brackets.
fn is_literal(host: &[u8]) -> bool
    ensures { result ≡ is_literal host.now }
{
    let len = host.len();
    len >= 3 && host[0] == b'[' && host[len - 1] == b']' && is_address(&host[1..len - 1])
}

/// Whether each byte may be in a path.
fn are_path_bytes(bytes: &[u8]) -> bool
    ensures { result ≡ list_all is_path_byte bytes.now }
{
    bytes.iter().all(|b| *b >= b'!' && *b <= b'~' && *b != b'#')
}

/// Whether this is a host.
fn is_host(host: &str) -> bool
    ensures { result ≡ is_host host.now }
{
    is_name(host.as_bytes()) || is_literal(host.as_bytes())
}

/// Whether this is a path.
fn is_path(path: &str) -> bool
    ensures { result ≡ is_path path.now }
{
    path.as_bytes().first() == Some(&b'/') && are_path_bytes(path.as_bytes())
}

/// More bytes than any memory holds, a quarter of what 63 bits count.
const TOO_LONG: usize = 1 << 61;

impl<A: Allocator + Copy> Target<A> {
    /// A target at a collector, without fields of a program's own. Where nothing else is known, the port is [`DEFAULT_PORT`], and the
    /// path [`DEFAULT_PATH`] (OTLP Specification, "OTLP/HTTP Request").
    ///
    /// # Errors
    ///
    /// The first that holds: `BadHost` where the host is neither a name or an address of four
    /// numbers, of ASCII letters, digits, `.`, `-` and `_`, one byte at least, nor an IPv6 address
    /// in brackets, as `[::1]` (RFC 3986, section 3.2.2; of the address only the bytes are tested:
    /// profile); `BadPath` where the path doesn't begin with `/`, has a byte that isn't from `!` to
    /// `~` (profile), or has a fragment, which begins with `#` (RFC 9112, section 3.2);
    /// `OutOfMemory` where one of them could not be stored.
    pub fn new(alloc: A, host: &str, port: u16, path: &str) -> Result<Target<A>, TargetFault>
        ensures value { IfOk result (λ t.
            t ≡ record { host = host.now; port = port; path = path.now; fields = [] }) }
        ensures host { IfOk result (λ _. IsTrue (is_host host.now)) }
        ensures path { IfOk result (λ _. IsTrue (is_path path.now)) }
        ensures bad_host { IsErrOf result TargetFault.BadHost ↔ (is_host host.now ≡ false) }
        ensures bad_path { IsErrOf result TargetFault.BadPath
            ↔ (IsTrue (is_host host.now) × (is_path path.now ≡ false)) }
        ensures out_of_memory { IsErrOf result TargetFault.OutOfMemory
            → (IsTrue (is_host host.now) × IsTrue (is_path path.now)) }
    {
        if !is_host(host) {
            return Err(TargetFault::BadHost);
        }
        if !is_path(path) {
            return Err(TargetFault::BadPath);
        }
        if host.len() >= TOO_LONG || path.len() >= TOO_LONG {
            return Err(TargetFault::OutOfMemory);
        }
        let host = String::from_str(alloc, host)?;
        let path = String::from_str(alloc, path)?;
        let headers = HeaderFields::new(alloc);
        Ok(Target {
            host,
            port,
            path,
            headers,
        })
    }
}

impl<A: Allocator> Target<A> {
    /// The same target with these fields in place of its own: each request that
    /// [`write_request`](crate::write_request) writes to it has them.
    pub fn with_headers(mut self, headers: HeaderFields<A>) -> Target<A>
        ensures { result ≡ record self { fields = headers } }
    {
        self.headers = headers;
        self
    }

    /// The fields of a program's own.
    pub fn headers(&self) -> &HeaderFields<A>
        ensures value { result.now ≡ self.now.fields }
        ensures valid { AreFields result.now }
    {
        &self.headers
    }

    /// The host: a name, an address of four numbers, or an IPv6 address in brackets.
    pub fn host(&self) -> &str
        ensures value { result.now ≡ self.now.host }
        ensures valid { IsTrue (is_host result.now) }
        // So the bytes of a request can be counted in 64 bits.
        ensures short { length self.now.host + length self.now.path < 2 ^ 62 }
    {
        self.host.as_str()
    }

    /// The port.
    pub fn port(&self) -> u16
        ensures { result ≡ self.now.port }
    {
        self.port
    }

    /// The path, which begins with `/`.
    pub fn path(&self) -> &str
        ensures value { result.now ≡ self.now.path }
        ensures valid { IsTrue (is_path result.now) }
    {
        self.path.as_str()
    }
}
