//! The hosts under which a service may be asked.

ghost use Rattle.std.specs.Prelude.{◌≡◌, ◌++◌, IfOk, OnOk, flat_map, map, option_copied};
ghost use Rattle.std.specs.Prelude.{string_bytes};
ghost use Rattle.std.specs.List.{list_any};
ghost use Rattle.http.specs.Request.{head_of};
ghost use Rattle.otlp_receiver.specs.Hosts as spec;
ghost use Rattle.otlp_receiver.specs.Hosts.{allows_head, as_given, host_text, hosts_of, with_port};

use bytes::Bytes;
use http::Request;
use std::alloc::{AllocError, Global};
use std::marker::Model;
use std::net::IpAddr;

/// The hosts under which a service may be asked: its address and `localhost`, `127.0.0.1` and
/// `[::1]`, each with the port, and the names that it was given, with the port and as they were
/// given. Where the port is 80, it may be left out. The case of letters doesn't count.
///
/// A page of another site whose name was bound to the service's address (DNS rebinding) asks under
/// that name. So a service that answers only under these hosts shows such a page nothing.
#[derive(Drop)]
pub struct Hosts {
    texts: Vec<String>,
}

impl Model for Hosts {
    ghost use Rattle.std.specs.Prelude.{ℕ, List, map, string_bytes};

    ghost Value = { List (List ℕ) };

    ghost view = { λ h. map string_bytes h.texts.items };
}

/// An address as a host: an IPv6 address is in brackets (RFC 3986, section 3.2.2).
fn host_text(alloc: Global, address: IpAddr) -> Result<String, AllocError>
    ensures { IfOk result (λ text. string_bytes text ≡ host_text address) }
{
    match address {
        IpAddr::V4(address) => format!(in alloc; "{address}"),
        IpAddr::V6(address) => format!(in alloc; "[{address}]"),
    }
}

/// Adds a name with the port, and alone where the port is 80.
fn add_with_port(
    alloc: Global,
    texts: &mut Vec<String>,
    name: &str,
    port: u16,
) -> Result<(), AllocError>
    ensures { OnOk result (map string_bytes texts.new.items
        ≡ map string_bytes texts.old.items ++ with_port port name.now) }
{
    let text = format!(in alloc; "{name}:{port}")?;
    texts.push(text)?;
    if port == 80 {
        texts.push(String::from_str(alloc, name)?)?;
    }
    Ok(())
}

/// Adds a name that was given, with the port and as it was given.
fn add_given(
    alloc: Global,
    texts: &mut Vec<String>,
    name: &str,
    port: u16,
) -> Result<(), AllocError>
    ensures { OnOk result (map string_bytes texts.new.items
        ≡ map string_bytes texts.old.items ++ as_given port name.now) }
{
    texts.push(String::from_str(alloc, name)?)?;
    add_with_port(alloc, texts, name, port)
}

/// Adds names that were given, each with the port and as it was given.
fn add_names(
    alloc: Global,
    texts: &mut Vec<String>,
    names: &[String],
    port: u16,
) -> Result<(), AllocError>
    ensures { OnOk result (map string_bytes texts.new.items ≡ map string_bytes texts.old.items
        ++ flat_map (λ name. as_given port (string_bytes name)) names.now) }
{
    for name in names {
        add_given(alloc, texts, name.as_str(), port)?;
    }
    Ok(())
}

/// Whether two texts are equal but for the case of ASCII letters.
pub(crate) fn is_same_word(word: &[u8], other: &[u8]) -> bool
    ensures { result ≡ spec.is_same_word word.now other.now }
{
    word.eq_ignore_ascii_case(other)
}

/// Whether one of these texts is this host, but for the case of letters.
fn has_host(texts: &[String], host: &[u8]) -> bool
    ensures { result
        ≡ list_any (λ text. spec.is_same_word (string_bytes text) host.now) texts.now }
{
    texts.iter().any(|text| is_same_word(text.as_bytes(), host))
}

impl Hosts {
    /// The hosts of a service that listens at this address and this port, and was given these
    /// names.
    ///
    /// # Errors
    ///
    /// `AllocError` where memory was refused.
    pub fn new(
        alloc: Global,
        address: IpAddr,
        port: u16,
        names: &[String],
    ) -> Result<Hosts, AllocError>
        ensures { IfOk result (λ hosts. hosts
            ≡ hosts_of address port (map string_bytes names.now)) }
    {
        let mut texts = Vec::new(alloc);
        let own = host_text(alloc, address)?;
        add_with_port(alloc, &mut texts, own.as_str(), port)?;
        add_with_port(alloc, &mut texts, "localhost", port)?;
        add_with_port(alloc, &mut texts, "127.0.0.1", port)?;
        add_with_port(alloc, &mut texts, "[::1]", port)?;
        add_names(alloc, &mut texts, names, port)?;
        Ok(Hosts { texts })
    }

    /// Whether a service may be asked under this host, as a field Host or a target has it.
    pub fn allows(&self, host: &[u8]) -> bool
        ensures { result ≡ spec.allows self.now host.now }
    {
        has_host(&self.texts, host)
    }

    /// Whether a request is for one of the hosts (RFC 9110, section 7.2).
    pub fn allow_request(&self, request: &Request<Bytes>) -> bool
        ensures { result ≡ allows_head self.now (head_of request.now) }
    {
        match asked_host(request) {
            Some(host) => self.allows(host),
            None => false,
        }
    }
}

/// The host that a request is for: that of its target, where it has one (RFC 9112, section 3.2.2),
/// else that of its one field Host. None where it says no host, or several.
pub fn asked_host(request: &Request<Bytes>) -> Option<&[u8]>
    ensures { option_copied result ≡ spec.asked_host (head_of request.now) }
{
    if let Some(authority) = request.uri().authority() {
        return Some(authority.as_str().as_bytes());
    }
    let mut values = request.headers().get_all("host").iter();
    match (values.next(), values.next()) {
        (Some(host), None) => Some(host.as_bytes()),
        _ => None,
    }
}
