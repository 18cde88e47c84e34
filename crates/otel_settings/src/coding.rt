//! In which coding bodies are sent.

ghost use Rattle.std.specs.Prelude.{◌≡◌, ◌++◌, OnOk, option_map};
ghost use Rattle.otel_settings.specs.Codings as codings;
ghost use Rattle.otel_settings.specs.Pairs.{pairs_view, text_set};
ghost use Rattle.otel_settings.specs.Faults.{faults_by, faults_view, read_by};

use crate::fault::{Instead, SettingFault, note_unread};
use crate::pairs::text_set;
use crate::variable::Variable;
use otlp_http::Coding;
use std::alloc::{AllocError, Allocator};

/// `gzip` or `none`, in letters of either case.
#[tactic(auto, unfolding(crate::specs::Codings::coding))]
fn coding(text: &str) -> Option<Coding>
    ensures { result ≡ codings.coding text.now }
{
    if text.eq_ignore_ascii_case("gzip") {
        return Some(Coding::Gzip);
    }
    if text.eq_ignore_ascii_case("none") {
        return Some(Coding::Identity);
    }
    None
}

/// The coding that a variable is set to, if it is read.
fn coding_set(pairs: &[(&str, &str)], variable: Variable) -> Option<Coding>
    ensures { result ≡ read_by codings.coding (text_set variable (pairs_view pairs.now)) }
{
    let text = text_set(pairs, variable);
    text.and_then(|text| coding(text))
}

/// The coding of bodies.
#[tactic(auto, unfolding(crate::specs::Codings::coding_of))]
pub(crate) fn read_coding(pairs: &[(&str, &str)]) -> Coding
    ensures { result ≡ codings.coding_of (pairs_view pairs.now) }
{
    let general = coding_set(pairs, Variable::OtlpCompression);
    let of_traces = coding_set(pairs, Variable::OtlpTracesCompression);
    of_traces.or(general).unwrap_or(Coding::Identity)
}

/// Adds a fault, if the variable is set to another word.
fn note_coding<A: Allocator>(
    alloc: A,
    faults: &mut Vec<SettingFault<A>, A>,
    pairs: &[(&str, &str)],
    variable: Variable,
    instead: Instead,
) -> Result<(), AllocError>
    ensures { OnOk result (faults_view faults.new.items ≡ faults_view faults.old.items
        ++ faults_by codings.coding variable instead (text_set variable (pairs_view pairs.now))) }
{
    let text = text_set(pairs, variable);
    let value = text.and_then(|text| coding(text));
    note_unread(alloc, faults, variable, text, value.is_some(), instead)
}

/// Adds a fault for each compression that there isn't.
pub(crate) fn note_codings<A: Allocator + Copy>(
    alloc: A,
    faults: &mut Vec<SettingFault<A>, A>,
    pairs: &[(&str, &str)],
) -> Result<(), AllocError>
    ensures { OnOk result (faults_view faults.new.items
        ≡ codings.coding_faults (faults_view faults.old.items) (pairs_view pairs.now)) }
{
    let (all, traces) = (Variable::OtlpCompression, Variable::OtlpTracesCompression);
    note_coding(alloc, faults, pairs, all, Instead::NoCompression)?;
    let instead = Instead::Variable(Variable::OtlpCompression);
    note_coding(alloc, faults, pairs, traces, instead)
}
