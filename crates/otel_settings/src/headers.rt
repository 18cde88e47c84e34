//! Fields that a program sends with each request.

ghost use Rattle.std.specs.Prelude.{◌≡◌, ◌++◌, ◌∷◌, [], Some, None, IfOk, OnOk, option_map};
ghost use Rattle.otlp_http.specs.Fields.{refusal};
ghost use Rattle.otel_settings.specs.Faults.{faults_view};
ghost use Rattle.otel_settings.specs.Headers as headers;
ghost use Rattle.otel_settings.specs.Headers.{refusal_view};
ghost use Rattle.otel_settings.specs.Pairs.{pairs_view, text_set};
ghost use Rattle.otel_settings.specs.ResourcePairs as texts;

use crate::fault::{Instead, SettingFault};
use crate::pairs::text_set;
use crate::variable::Variable;
use crate::{ResourceFault, resource_pairs};
use otlp_http::{HeaderFault, HeaderFields};
use std::alloc::{AllocError, Allocator};

/// Why a text sets no fields.
#[derive(Drop)]
pub(crate) struct Refusal<A: Allocator> {
    /// The name of the field that isn't taken; nothing where the text is no pairs.
    name: String<A>,
    /// Why it isn't taken.
    cause: Option<HeaderFault>,
}

/// Adds a field after the others. The answer is why it isn't taken, if it isn't.
fn push_field<A: Allocator + Copy>(
    fields: &mut HeaderFields<A>,
    name: &str,
    value: &str,
) -> Result<Option<HeaderFault>, AllocError>
    ensures fault { IfOk result (λ fault.
        fault ≡ refusal fields.old (name.now, value.now)) }
    ensures pushed { IfOk result (λ fault. fault ≡ None
        → fields.new ≡ fields.old ++ (name.now, value.now) ∷ []) }
{
    match fields.push(name, value) {
        Ok(()) => Ok(None),
        Err(HeaderFault::OutOfMemory) => Err(AllocError),
        Err(fault) => Ok(Some(fault)),
    }
}

/// Adds pairs after the others. The answer is why one isn't taken, if one isn't.
fn push_pairs<A: Allocator + Copy>(
    alloc: A,
    fields: &mut HeaderFields<A>,
    pairs: &[(String<A>, String<A>)],
) -> Result<Option<Refusal<A>>, AllocError>
    ensures refusal { IfOk result (λ it. option_map refusal_view it
        ≡ headers.refusal_after fields.old (texts.pairs_view pairs.now)) }
    ensures pushed { IfOk result (λ it. it ≡ None
        → fields.new ≡ fields.old ++ texts.pairs_view pairs.now) }
{
    for (name, value) in pairs {
        if let Some(fault) = push_field(fields, name.as_str(), value.as_str())? {
            return Ok(Some(Refusal {
                name: String::from_str(alloc, name.as_str())?,
                cause: Some(fault),
            }));
        }
    }
    Ok(None)
}

/// The fields of these pairs, or none and why one isn't taken.
#[tactic(auto, unfolding(crate::specs::Headers::fields_of))]
fn fields_of_pairs<A: Allocator + Copy>(
    alloc: A,
    pairs: &[(String<A>, String<A>)],
) -> Result<(HeaderFields<A>, Option<Refusal<A>>), AllocError>
    ensures fields { IfOk result (λ found.
        found.0 ≡ headers.fields_of (Some (texts.pairs_view pairs.now))) }
    ensures refusal { IfOk result (λ found. option_map refusal_view found.1
        ≡ headers.refusal_of (Some (texts.pairs_view pairs.now))) }
{
    let mut fields = HeaderFields::new(alloc);
    match push_pairs(alloc, &mut fields, pairs)? {
        None => Ok((fields, None)),
        Some(refusal) => Ok((HeaderFields::new(alloc), Some(refusal))),
    }
}

/// The fields that a text sets, or none and why it sets none.
#[tactic(auto, unfolding(crate::specs::Headers::fields_of))]
fn fields_in<A: Allocator + Copy>(
    alloc: A,
    text: &str,
) -> Result<(HeaderFields<A>, Option<Refusal<A>>), AllocError>
    ensures fields { IfOk result (λ found.
        found.0 ≡ headers.fields_of (texts.pairs_of text.now)) }
    ensures refusal { IfOk result (λ found. option_map refusal_view found.1
        ≡ headers.refusal_of (texts.pairs_of text.now)) }
{
    match resource_pairs(alloc, text.as_bytes()) {
        Ok(pairs) => fields_of_pairs(alloc, &pairs),
        Err(ResourceFault::NotPairs) => {
            let name = String::new(alloc);
            Ok((
                HeaderFields::new(alloc),
                Some(Refusal { name, cause: None }),
            ))
        }
        Err(ResourceFault::OutOfMemory) => Err(AllocError),
    }
}

/// Adds the fault of a variable that sets no fields, if it doesn't.
fn note_refusal<A: Allocator>(
    faults: &mut Vec<SettingFault<A>, A>,
    variable: Variable,
    refusal: Option<Refusal<A>>,
) -> Result<(), AllocError>
    ensures { OnOk result (faults_view faults.new.items ≡ faults_view faults.old.items
        ++ headers.fault_of variable (option_map refusal_view refusal)) }
{
    let Some(refusal) = refusal else {
        return Ok(());
    };
    faults.push(SettingFault {
        variable,
        text: refusal.name,
        instead: Instead::NoHeaders,
        cause: refusal.cause,
    })?;
    Ok(())
}

/// The fields that a variable sets, if it is set, with its fault after those before.
fn read_fields<A: Allocator + Copy>(
    alloc: A,
    faults: &mut Vec<SettingFault<A>, A>,
    pairs: &[(&str, &str)],
    variable: Variable,
) -> Result<Option<HeaderFields<A>>, AllocError>
    ensures value { IfOk result (λ fields.
        fields ≡ headers.fields_set variable (pairs_view pairs.now)) }
    ensures faults { OnOk result (faults_view faults.new.items ≡ faults_view faults.old.items
        ++ headers.text_fault variable (text_set variable (pairs_view pairs.now))) }
{
    let Some(text) = text_set(pairs, variable) else {
        return Ok(None);
    };
    let (fields, refusal) = fields_in(alloc, text)?;
    note_refusal(faults, variable, refusal)?;
    Ok(Some(fields))
}

/// The fields of each request with spans, with the faults after those before.
#[tactic(auto, unfolding(crate::specs::Headers::headers_of, crate::specs::Headers::header_faults))]
pub(crate) fn read_headers<A: Allocator + Copy>(
    alloc: A,
    faults: &mut Vec<SettingFault<A>, A>,
    pairs: &[(&str, &str)],
) -> Result<HeaderFields<A>, AllocError>
    ensures value { IfOk result (λ fields.
        fields ≡ headers.headers_of (pairs_view pairs.now)) }
    ensures faults { OnOk result (faults_view faults.new.items
        ≡ headers.header_faults (faults_view faults.old.items) (pairs_view pairs.now)) }
{
    let all = read_fields(alloc, faults, pairs, Variable::OtlpHeaders)?;
    let of_traces = read_fields(alloc, faults, pairs, Variable::OtlpTracesHeaders)?;
    match of_traces.or(all) {
        Some(fields) => Ok(fields),
        None => Ok(HeaderFields::new(alloc)),
    }
}
