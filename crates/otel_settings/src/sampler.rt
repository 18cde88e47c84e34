//! Which sampler is used.

ghost use Rattle.std.specs.Prelude.{◌≡◌, ◌++◌, IfOk, OnOk, option_map};
ghost use Rattle.otel_settings.specs.Pairs.{pairs_view};
ghost use Rattle.otel_settings.specs.Faults.{faults_view};
ghost use Rattle.otel_settings.specs.Samplers as samplers;

use crate::fault::{Instead, SettingFault, note_unread};
use crate::pairs::text_set;
use crate::variable::Variable;
use otlp_ids::{SpanContext, TraceId};
use otlp_sampler::{AlwaysOff, AlwaysOn, Decision, ParentBased, Sampler, TraceIdRatio};
use otlp_span::Kind;
use std::alloc::{AllocError, Allocator};
use std::fmt;

/// A sampler, by its name in `OTEL_TRACES_SAMPLER` (OpenTelemetry Specification, "Environment
/// Variable Specification", "General SDK Configuration").
#[derive(Debug, Clone, Copy, PartialEq, Eq)]
pub enum SamplerName {
    /// `always_on`: each span is sampled.
    AlwaysOn,
    /// `always_off`: no span is sampled.
    AlwaysOff,
    /// `traceidratio`: a share of all traces is sampled.
    TraceIdRatio,
    /// `parentbased_always_on`: as the parent says; without one, each span is sampled. It is the
    /// default.
    ParentBasedAlwaysOn,
    /// `parentbased_always_off`: as the parent says; without one, no span is sampled.
    ParentBasedAlwaysOff,
    /// `parentbased_traceidratio`: as the parent says; without one, a share of all traces is.
    ParentBasedTraceIdRatio,
}

impl SamplerName {
    /// The name that it has in the environment.
    #[tactic(auto, unfolding(crate::specs::Samplers::name_of))]
    pub fn name(self) -> &'static str
        ensures { result.now ≡ samplers.name_of self }
    {
        match self {
            SamplerName::AlwaysOn => "always_on",
            SamplerName::AlwaysOff => "always_off",
            SamplerName::TraceIdRatio => "traceidratio",
            SamplerName::ParentBasedAlwaysOn => "parentbased_always_on",
            SamplerName::ParentBasedAlwaysOff => "parentbased_always_off",
            SamplerName::ParentBasedTraceIdRatio => "parentbased_traceidratio",
        }
    }

    /// Whether it samples a share of all traces, which its argument says.
    #[tactic(auto, unfolding(crate::specs::Samplers::takes_ratio))]
    pub fn takes_ratio(self) -> bool
        ensures { result ≡ samplers.takes_ratio self }
    {
        matches!(
            self,
            SamplerName::TraceIdRatio | SamplerName::ParentBasedTraceIdRatio
        )
    }
}

impl fmt::Display for SamplerName {
    fn fmt<W: fmt::Write>(&self, f: &mut fmt::Formatter<W>) -> fmt::Result {
        f.write_str(self.name())
    }
}

/// The sampler that the environment sets, which a provider takes as it is.
#[derive(Debug, Clone, Copy, PartialEq, Eq)]
pub struct NamedSampler {
    /// Its name: `OTEL_TRACES_SAMPLER`.
    pub name: SamplerName,
    /// The share of all traces that a sampler by a ratio samples: `OTEL_TRACES_SAMPLER_ARG`, 1.0 by
    /// default. The others don't ask for it, and have 1.0.
    pub ratio: TraceIdRatio,
}

impl Sampler for NamedSampler {
    ghost meaning = { λ sampler. samplers.meaning_of sampler.name sampler.ratio };

    #[tactic(auto, unfolding(crate::specs::Samplers::meaning_of))]
    fn should_sample<A: Allocator>(
        &self,
        parent: Option<&SpanContext<A>>,
        trace: &TraceId,
        name: &str,
        kind: Kind,
    ) -> Decision {
        match self.name {
            SamplerName::AlwaysOn => AlwaysOn.should_sample(parent, trace, name, kind),
            SamplerName::AlwaysOff => AlwaysOff.should_sample(parent, trace, name, kind),
            SamplerName::TraceIdRatio => self.ratio.should_sample(parent, trace, name, kind),
            SamplerName::ParentBasedAlwaysOn => {
                ParentBased::new(AlwaysOn).should_sample(parent, trace, name, kind)
            }
            SamplerName::ParentBasedAlwaysOff => {
                ParentBased::new(AlwaysOff).should_sample(parent, trace, name, kind)
            }
            SamplerName::ParentBasedTraceIdRatio => {
                ParentBased::new(self.ratio).should_sample(parent, trace, name, kind)
            }
        }
    }
}

/// The sampler of this name, in letters of either case.
#[tactic(auto, unfolding(crate::specs::Samplers::sampler))]
fn sampler(text: &str) -> Option<SamplerName>
    ensures { result ≡ samplers.sampler text.now }
{
    if text.eq_ignore_ascii_case("always_on") {
        return Some(SamplerName::AlwaysOn);
    }
    if text.eq_ignore_ascii_case("always_off") {
        return Some(SamplerName::AlwaysOff);
    }
    if text.eq_ignore_ascii_case("traceidratio") {
        return Some(SamplerName::TraceIdRatio);
    }
    if text.eq_ignore_ascii_case("parentbased_always_on") {
        return Some(SamplerName::ParentBasedAlwaysOn);
    }
    if text.eq_ignore_ascii_case("parentbased_always_off") {
        return Some(SamplerName::ParentBasedAlwaysOff);
    }
    if text.eq_ignore_ascii_case("parentbased_traceidratio") {
        return Some(SamplerName::ParentBasedTraceIdRatio);
    }
    None
}

/// The name of the sampler that is set, with its fault after those before.
fn read_name<A: Allocator>(
    alloc: A,
    faults: &mut Vec<SettingFault<A>, A>,
    pairs: &[(&str, &str)],
) -> Result<SamplerName, AllocError>
    ensures value { IfOk result (λ name. name ≡ samplers.sampler_set (pairs_view pairs.now)) }
    ensures faults { OnOk result (faults_view faults.new.items ≡ faults_view faults.old.items
        ++ samplers.name_faults (pairs_view pairs.now)) }
{
    let text = text_set(pairs, Variable::TracesSampler);
    let name = text.and_then(|text| sampler(text));
    let instead = Instead::Sampler(SamplerName::ParentBasedAlwaysOn);
    let is_read = name.is_some();
    note_unread(
        alloc,
        faults,
        Variable::TracesSampler,
        text,
        is_read,
        instead,
    )?;
    Ok(name.unwrap_or(SamplerName::ParentBasedAlwaysOn))
}

/// The ratio that a text writes, from 0 to 1.
#[tactic(auto, using(crate::proofs::Ratios::is_ratio, crate::proofs::Ratios::no_ratio))]
fn ratio(text: &str) -> Option<TraceIdRatio>
    ensures { result ≡ samplers.ratio text.now }
{
    match TraceIdRatio::read(text) {
        Ok(ratio) => Some(ratio),
        Err(_) => None,
    }
}

/// The argument that is set, if the sampler takes one.
fn argument<'a>(name: SamplerName, pairs: &[(&'a str, &'a str)]) -> Option<&'a str>
    ensures { option_map (λ t. t.now) result ≡ samplers.argument name (pairs_view pairs.now) }
{
    if !name.takes_ratio() {
        return None;
    }
    text_set(pairs, Variable::TracesSamplerArg)
}

/// The ratio of the sampler with this name, with its fault after those before.
#[tactic(auto, unfolding(crate::specs::Samplers::ratio_of, crate::specs::Samplers::ratio_faults))]
fn read_ratio<A: Allocator>(
    alloc: A,
    faults: &mut Vec<SettingFault<A>, A>,
    pairs: &[(&str, &str)],
    name: SamplerName,
) -> Result<TraceIdRatio, AllocError>
    ensures value { IfOk result (λ ratio. ratio ≡ samplers.ratio_of name (pairs_view pairs.now)) }
    ensures faults { OnOk result (faults_view faults.new.items ≡ faults_view faults.old.items
        ++ samplers.ratio_faults name (pairs_view pairs.now)) }
{
    let text = argument(name, pairs);
    let ratio = text.and_then(|text| ratio(text));
    let variable = Variable::TracesSamplerArg;
    let is_read = ratio.is_some();
    note_unread(alloc, faults, variable, text, is_read, Instead::RatioOne)?;
    Ok(ratio.unwrap_or(TraceIdRatio::default()))
}

/// The sampler that is set, with its faults after those before.
pub(crate) fn read_sampler<A: Allocator + Copy>(
    alloc: A,
    faults: &mut Vec<SettingFault<A>, A>,
    pairs: &[(&str, &str)],
) -> Result<NamedSampler, AllocError>
    ensures value { IfOk result (λ sampler. sampler ≡ samplers.sampler_of (pairs_view pairs.now)) }
    ensures faults { OnOk result (faults_view faults.new.items
        ≡ samplers.sampler_faults (faults_view faults.old.items) (pairs_view pairs.now)) }
{
    let name = read_name(alloc, faults, pairs)?;
    let ratio = read_ratio(alloc, faults, pairs, name)?;
    Ok(NamedSampler { name, ratio })
}
