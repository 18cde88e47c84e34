//! Queries of URLs, without the secrets in them (RFC 3986, section 3.4).

ghost use Rattle.std.specs.Prelude.{◌≡◌, ◌++◌, ◌==◌, IfOk, OnOk, map, string_bytes};
ghost use Rattle.std.specs.List.{slice_split};
ghost use Rattle.traced_http.specs.Queries as spec;

use otlp_ids::OutOfMemory;
use std::alloc::{AllocError, Global};

/// Whether a parameter of this name has a secret: a signature, or what one is made with (Semantic
/// Conventions, "url.query").
#[tactic(auto, unfolding(crate::specs::Queries::is_secret))]
fn is_secret(name: &str) -> bool
    ensures { result ≡ spec.is_secret name.now }
{
    matches!(
        name,
        "AWSAccessKeyId"
            | "Signature"
            | "sig"
            | "X-Goog-Signature"
            | "X-Amz-Credential"
            | "X-Amz-Security-Token"
            | "X-Amz-Signature"
    )
}

/// The name of a parameter: what is before its first `=`, or all of it.
fn name_of(parameter: &str) -> &str
    ensures { result.now ≡ spec.name_of parameter.now }
{
    match parameter.split_once('=') {
        Some((name, _)) => name,
        None => parameter,
    }
}

/// Adds a parameter, with the word `REDACTED` in place of its value if that is a secret.
#[tactic(auto, unfolding(crate::specs::Queries::redacted_parameter))]
fn push_parameter(text: &mut String, parameter: &str) -> Result<(), OutOfMemory>
    ensures { OnOk result (string_bytes text.new
        ≡ string_bytes text.old ++ spec.redacted_parameter parameter.now) }
{
    let name = name_of(parameter);
    if !is_secret(name) {
        text.push_str(parameter)?;
        return Ok(());
    }
    text.push_str(name)?;
    text.push_str("=REDACTED")?;
    Ok(())
}

/// The parameters of a query: what is between its `&`.
fn parameters_of(alloc: Global, query: &str) -> Result<Vec<&str>, AllocError>
    ensures { IfOk result (λ parts.
        map (λ p. p.now) parts.items ≡ slice_split (λ b. b == 38) query.now) }
{
    query.split('&').collect(alloc)
}

/// Adds a query, without the secrets in it.
#[tactic(auto, using(crate::proofs::Queries::joined_more), unfolding(crate::specs::Queries::redacted_query))]
fn push_query(alloc: Global, text: &mut String, query: &str) -> Result<(), OutOfMemory>
    ensures { OnOk result (string_bytes text.new
        ≡ string_bytes text.old ++ spec.redacted_query query.now) }
{
    let parameters = parameters_of(alloc, query)?;
    let [first, others @ ..] = parameters.as_slice() else {
        return Ok(());
    };
    push_parameter(text, first)?;
    for parameter in others {
        text.push_str("&")?;
        push_parameter(text, parameter)?;
    }
    Ok(())
}

/// A query, without the secrets in it (Semantic Conventions, "url.query").
///
/// # Errors
///
/// `OutOfMemory` where memory was refused.
pub(crate) fn redacted_query(alloc: Global, query: &str) -> Result<String, OutOfMemory>
    ensures { IfOk result (λ text. string_bytes text ≡ spec.redacted_query query.now) }
{
    let mut text = String::new(alloc);
    push_query(alloc, &mut text, query)?;
    Ok(text)
}

/// Adds a path, and its query if it has one, without the secrets in that (Semantic Conventions,
/// "url.full").
///
/// # Errors
///
/// `OutOfMemory` where memory was refused.
#[tactic(auto, using(crate::proofs::Queries::with_query, crate::proofs::Queries::without_query))]
pub(crate) fn push_path(alloc: Global, text: &mut String, path: &str) -> Result<(), OutOfMemory>
    ensures { OnOk result (string_bytes text.new
        ≡ string_bytes text.old ++ spec.redacted_path path.now) }
{
    let Some((path, query)) = path.split_once('?') else {
        text.push_str(path)?;
        return Ok(());
    };
    text.push_str(path)?;
    text.push_str("?")?;
    push_query(alloc, text, query)
}
