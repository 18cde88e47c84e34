//! Variables of the standard that ask for what the kit doesn't have.

ghost use Rattle.std.specs.Prelude.{◌≡◌, ◌++◌, OnOk, bytes_eq, map, option_map};
ghost use Rattle.std.specs.Char.{to_ascii_lowercase};
ghost use Rattle.otel_settings.specs.Pairs.{pairs_view};
ghost use Rattle.otel_settings.specs.Faults.{faults_view};
ghost use Rattle.otel_settings.specs.Unsupported as unsupported;

use crate::coding::note_codings;
use crate::fault::{Instead, SettingFault, note_unread};
use crate::pairs::text_set;
use crate::variable::Variable;
use std::alloc::{AllocError, Allocator};

/// The word that a variable has which no value is allowed for: none that is set is empty.
const NONE: &str = "";

/// Whether a text is this word, in letters of either case.
#[tactic(auto, using(crate::proofs::Words::same_words))]
fn is_same(word: &str, text: &str) -> bool
    ensures { result
        ≡ bytes_eq (map to_ascii_lowercase text.now) (map to_ascii_lowercase word.now) }
{
    text.eq_ignore_ascii_case(word)
}

/// Whether a variable is set to this word, in letters of either case.
fn is_only(word: &str, text: Option<&str>) -> bool
    ensures { result ≡ unsupported.is_only word.now (option_map (λ t. t.now) text.entry) }
{
    match text {
        Some(text) => is_same(word, text),
        None => false,
    }
}

/// Adds a fault, if the variable is set to another value than this word.
#[tactic(auto, unfolding(crate::specs::Unsupported::other_faults))]
fn note_other<A: Allocator>(
    alloc: A,
    faults: &mut Vec<SettingFault<A>, A>,
    pairs: &[(&str, &str)],
    variable: Variable,
    word: &str,
    instead: Instead,
) -> Result<(), AllocError>
    ensures { OnOk result (faults_view faults.new.items ≡ faults_view faults.old.items
        ++ unsupported.other_faults word.now variable instead (pairs_view pairs.now)) }
{
    let text = text_set(pairs, variable);
    let is_read = is_only(word, text);
    note_unread(alloc, faults, variable, text, is_read, instead)
}

/// Adds a fault for an exporter and for a propagator that there isn't.
#[tactic(auto, unfolding(crate::specs::Unsupported::selection_faults))]
fn note_selection<A: Allocator + Copy>(
    alloc: A,
    faults: &mut Vec<SettingFault<A>, A>,
    pairs: &[(&str, &str)],
) -> Result<(), AllocError>
    ensures { OnOk result (faults_view faults.new.items
        ≡ unsupported.selection_faults (faults_view faults.old.items) (pairs_view pairs.now)) }
{
    let exporter = Variable::TracesExporter;
    note_other(alloc, faults, pairs, exporter, "otlp", Instead::Otlp)?;
    let propagators = Variable::Propagators;
    let instead = Instead::TraceContext;
    note_other(alloc, faults, pairs, propagators, "tracecontext", instead)
}

/// Adds a fault for each protocol and each compression that there isn't.
#[tactic(auto, unfolding(crate::specs::Unsupported::form_faults))]
fn note_form<A: Allocator + Copy>(
    alloc: A,
    faults: &mut Vec<SettingFault<A>, A>,
    pairs: &[(&str, &str)],
) -> Result<(), AllocError>
    ensures { OnOk result (faults_view faults.new.items
        ≡ unsupported.form_faults (faults_view faults.old.items) (pairs_view pairs.now)) }
{
    let (all, traces) = (Variable::OtlpProtocol, Variable::OtlpTracesProtocol);
    let (only, instead) = ("http/protobuf", Instead::HttpProtobuf);
    note_other(alloc, faults, pairs, all, only, instead)?;
    note_other(alloc, faults, pairs, traces, only, instead)?;
    note_codings(alloc, faults, pairs)
}

/// Adds a fault for each certificate and each key.
#[tactic(auto, unfolding(crate::specs::Unsupported::tls_faults))]
fn note_tls<A: Allocator + Copy>(
    alloc: A,
    faults: &mut Vec<SettingFault<A>, A>,
    pairs: &[(&str, &str)],
) -> Result<(), AllocError>
    ensures { OnOk result (faults_view faults.new.items
        ≡ unsupported.tls_faults (faults_view faults.old.items) (pairs_view pairs.now)) }
{
    let instead = Instead::PlainHttp;
    let (all, traces) = (Variable::OtlpCertificate, Variable::OtlpTracesCertificate);
    note_other(alloc, faults, pairs, all, NONE, instead)?;
    note_other(alloc, faults, pairs, traces, NONE, instead)?;
    let (all, traces) = (Variable::OtlpClientKey, Variable::OtlpTracesClientKey);
    note_other(alloc, faults, pairs, all, NONE, instead)?;
    note_other(alloc, faults, pairs, traces, NONE, instead)?;
    let all = Variable::OtlpClientCertificate;
    note_other(alloc, faults, pairs, all, NONE, instead)?;
    let traces = Variable::OtlpTracesClientCertificate;
    note_other(alloc, faults, pairs, traces, NONE, instead)
}

/// Adds a fault for each variable that asks for what there isn't, in their order.
pub(crate) fn note_unsupported<A: Allocator + Copy>(
    alloc: A,
    faults: &mut Vec<SettingFault<A>, A>,
    pairs: &[(&str, &str)],
) -> Result<(), AllocError>
    ensures { OnOk result (faults_view faults.new.items
        ≡ unsupported.unsupported_faults (faults_view faults.old.items) (pairs_view pairs.now)) }
{
    note_selection(alloc, faults, pairs)?;
    note_form(alloc, faults, pairs)?;
    note_tls(alloc, faults, pairs)
}
