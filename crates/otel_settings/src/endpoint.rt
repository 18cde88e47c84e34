//! Where spans are sent to.

ghost use Rattle.std.specs.Prelude.{◌≡◌, ◌++◌, ◌<◌, ◌==◌, [], ◌∷◌, IfOk, OnOk, codes, nat_eq};
ghost use Rattle.std.specs.Prelude.{option_map, string_bytes};
ghost use Rattle.std.specs.List.{after_first, before_first, ends_with, list_all, list_any};
ghost use Rattle.otel_settings.specs.Pairs.{pairs_view};
ghost use Rattle.otel_settings.specs.Faults.{faults_view};
ghost use Rattle.otel_settings.specs.Endpoints as endpoints;
ghost use Rattle.otel_settings.specs.Endpoints.{is_plain};

use crate::fault::{Instead, SettingFault, note_unread};
use crate::pairs::text_set;
use crate::read::number_in;
use crate::variable::Variable;
use otlp_http::{DEFAULT_PATH, DEFAULT_PORT, Target, TargetFault};
use std::alloc::{AllocError, Allocator};

/// What comes before the first such mark, and what comes after it; all of it and nothing where the
/// mark isn't there.
fn around(text: &str, mark: char) -> (&str, &str)
    requires { mark < 128 }
    ensures before { result.0.now ≡ before_first (λ b. b == mark) text.now }
    ensures after { result.1.now ≡ after_first (λ b. b == mark) text.now }
{
    match text.split_once(mark) {
        Some(parts) => parts,
        None => (text, ""),
    }
}

/// What comes after this text, if it is at the front.
fn after_text<'a>(front: &str, text: &'a str) -> Option<&'a str>
    ensures { option_map (λ t. t.now) result ≡ endpoints.after_text front.now text.now }
{
    text.strip_prefix(front)
}

/// What comes after `http://`, whose letters may be of either case.
#[tactic(auto, unfolding(crate::specs::Endpoints::after_scheme))]
fn after_scheme(url: &str) -> Option<&str>
    ensures { option_map (λ t. t.now) result ≡ endpoints.after_scheme url.now }
{
    let (scheme, rest) = around(url, ':');
    if !scheme.eq_ignore_ascii_case("http") {
        return None;
    }
    after_text("//", rest)
}

/// A port, 80 where none is named.
fn port_of(digits: &str) -> Option<u16>
    ensures { result ≡ endpoints.port_of digits.now }
{
    if digits.is_empty() {
        return Some(80);
    }
    let port = number_in(digits, 1, 65_535)?;
    Some(port as u16)
}

/// The port that follows an address in brackets, 80 where nothing does.
fn port_after(tail: &str) -> Option<u16>
    ensures { result ≡ endpoints.port_after tail.now }
{
    if tail.is_empty() {
        return Some(80);
    }
    port_of(after_text(":", tail)?)
}

/// Whether the first byte is a `[`.
fn is_bracketed(authority: &str) -> bool
    ensures { result ≡ endpoints.is_bracketed authority.now }
{
    authority.starts_with("[")
}

/// Whether there is a `]`.
fn is_closed(authority: &[u8]) -> bool
    ensures { result ≡ list_any endpoints.is_end authority.now }
{
    authority.iter().any(|b| *b == b']')
}

/// The host of an authority.
#[tactic(auto, unfolding(crate::specs::Endpoints::host_of))]
fn host_in<A: Allocator>(alloc: A, authority: &str) -> Result<String<A>, AllocError>
    ensures { IfOk result (λ host. string_bytes host ≡ endpoints.host_of authority.now) }
{
    if is_bracketed(authority) {
        let (address, _) = around(authority, ']');
        let mut host = String::from_str(alloc, address)?;
        host.push_str("]")?;
        return Ok(host);
    }
    let (name, _) = around(authority, ':');
    String::from_str(alloc, name)
}

/// The port of an authority.
#[tactic(auto, unfolding(crate::specs::Endpoints::port_in))]
fn port_in(authority: &str) -> Option<u16>
    ensures { result ≡ endpoints.port_in authority.now }
{
    if is_bracketed(authority) {
        if !is_closed(authority.as_bytes()) {
            return None;
        }
        let (_, tail) = around(authority, ']');
        return port_after(tail);
    }
    let (_, digits) = around(authority, ':');
    port_of(digits)
}

/// Whether there is no `#`.
fn is_plain(path: &[u8]) -> bool
    ensures { result ≡ list_all is_plain path.now }
{
    path.iter().all(|b| *b != b'#')
}

/// Whether the last byte is a `/`.
fn ends_with_slash(path: &str) -> bool
    ensures { result ≡ ends_with nat_eq path.now (codes "/") }
{
    path.ends_with("/")
}

/// Adds the path of traces, after a `/` unless the path ends with one.
#[tactic(auto, unfolding(crate::specs::Endpoints::traces_path))]
fn add_traces<A: Allocator>(path: &mut String<A>) -> Result<(), AllocError>
    ensures { OnOk result (string_bytes path.new ≡ endpoints.traces_path (string_bytes path.old)) }
{
    if ends_with_slash(path.as_str()) {
        return path.push_str("v1/traces");
    }
    path.push_str("/v1/traces")
}

/// The path of requests: this one with its first `/`, and with that of traces if it is a base.
fn request_path<A: Allocator>(alloc: A, tail: &str, is_base: bool) -> Result<String<A>, AllocError>
    ensures { IfOk result (λ path.
        string_bytes path ≡ endpoints.request_path is_base (47 ∷ tail.now)) }
{
    let mut path = String::from_str(alloc, "/")?;
    path.push_str(tail)?;
    if is_base {
        add_traces(&mut path)?;
    }
    Ok(path)
}

/// Adds a query, unless it is empty.
fn add_query<A: Allocator>(path: &mut String<A>, query: &str) -> Result<(), AllocError>
    ensures { OnOk result (string_bytes path.new
        ≡ endpoints.with_query (string_bytes path.old) query.now) }
{
    if query.is_empty() {
        return Ok(());
    }
    path.push_str("?")?;
    path.push_str(query)
}

/// The path of requests, with its query.
#[tactic(auto, unfolding(crate::specs::Endpoints::target_path))]
fn target_path<A: Allocator>(
    alloc: A,
    tail: &str,
    is_base: bool,
    query: &str,
) -> Result<String<A>, AllocError>
    ensures { IfOk result (λ path.
        string_bytes path ≡ endpoints.target_path is_base (47 ∷ tail.now) query.now) }
{
    let mut path = request_path(alloc, tail, is_base)?;
    add_query(&mut path, query)?;
    Ok(path)
}

/// The target at this place, if host and path are allowed.
#[tactic(auto, unfolding(crate::specs::Endpoints::allowed))]
fn allowed_target<A: Allocator + Copy>(
    alloc: A,
    host: &str,
    port: u16,
    path: &str,
) -> Result<Option<Target<A>>, AllocError>
    ensures { IfOk result (λ target. target ≡ endpoints.allowed
        (record { host = host.now; port = port; path = path.now; fields = [] })) }
{
    if !is_plain(path.as_bytes()) {
        return Ok(None);
    }
    match Target::new(alloc, host, port, path) {
        Ok(target) => Ok(Some(target)),
        Err(TargetFault::OutOfMemory) => Err(AllocError),
        Err(_) => Ok(None),
    }
}

/// The target that a URL names, with the path of traces after its own if it is a base.
#[tactic(auto, unfolding(crate::specs::Endpoints::endpoint))]
fn target_at<A: Allocator + Copy>(
    alloc: A,
    url: &str,
    is_base: bool,
) -> Result<Option<Target<A>>, AllocError>
    ensures { IfOk result (λ target. target ≡ endpoints.endpoint is_base url.now) }
{
    let Some(rest) = after_scheme(url) else {
        return Ok(None)
    };
    let (place, query) = around(rest, '?');
    let (authority, tail) = around(place, '/');
    let Some(port) = port_in(authority) else {
        return Ok(None)
    };
    let host = host_in(alloc, authority)?;
    let path = target_path(alloc, tail, is_base, query)?;
    allowed_target(alloc, host.as_str(), port, path.as_str())
}

/// The target that a variable names, if it is set and read. What is set and not read is a fault
/// more.
fn read_endpoint<A: Allocator + Copy>(
    alloc: A,
    faults: &mut Vec<SettingFault<A>, A>,
    pairs: &[(&str, &str)],
    variable: Variable,
    is_base: bool,
    instead: Instead,
) -> Result<Option<Target<A>>, AllocError>
    ensures value { IfOk result (λ target.
        target ≡ endpoints.endpoint_of is_base variable (pairs_view pairs.now)) }
    ensures faults { OnOk result (faults_view faults.new.items ≡ faults_view faults.old.items
        ++ endpoints.endpoint_faults is_base variable instead (pairs_view pairs.now)) }
{
    let text = text_set(pairs, variable);
    let target = match text {
        None => None,
        Some(url) => target_at(alloc, url, is_base)?,
    };
    note_unread(alloc, faults, variable, text, target.is_some(), instead)?;
    Ok(target)
}

/// Where a collector on the same machine takes traces.
fn default_target<A: Allocator + Copy>(alloc: A) -> Result<Target<A>, AllocError>
    ensures { IfOk result (λ target. target ≡ endpoints.default_address) }
{
    match Target::new(alloc, "localhost", DEFAULT_PORT, DEFAULT_PATH) {
        Ok(target) => Ok(target),
        Err(_) => Err(AllocError),
    }
}

/// Where spans are sent to, with the faults after those before.
#[tactic(auto, unfolding(crate::specs::Endpoints::target_of, crate::specs::Endpoints::target_faults))]
pub(crate) fn read_target<A: Allocator + Copy>(
    alloc: A,
    faults: &mut Vec<SettingFault<A>, A>,
    pairs: &[(&str, &str)],
) -> Result<Target<A>, AllocError>
    ensures value { IfOk result (λ target.
        target ≡ endpoints.target_of (pairs_view pairs.now)) }
    ensures faults { OnOk result (faults_view faults.new.items
        ≡ endpoints.target_faults (faults_view faults.old.items) (pairs_view pairs.now)) }
{
    let general = Variable::OtlpEndpoint;
    let base = read_endpoint(
        alloc,
        faults,
        pairs,
        general,
        true,
        Instead::DefaultEndpoint,
    )?;
    let instead = Instead::Variable(general);
    let of_traces = Variable::OtlpTracesEndpoint;
    let target = read_endpoint(alloc, faults, pairs, of_traces, false, instead)?;
    match target.or(base) {
        Some(target) => Ok(target),
        None => default_target(alloc),
    }
}
