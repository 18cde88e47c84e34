//! The samplers that a script can name.
use otlp_ids::{SpanContext, TraceId};
use otlp_sampler::{AlwaysOff, AlwaysOn, Decision, ParentBased, Sampler};
use otlp_span::Kind;
use std::alloc::Allocator;

/// The sampler of a script (OpenTelemetry Trace SDK, "Built-in samplers").
#[derive(Debug, Clone, Copy, PartialEq, Eq)]
pub enum SamplerName {
    /// Each span is recorded and sampled.
    AlwaysOn,
    /// No span is recorded.
    AlwaysOff,
    /// A root is sampled, and any other span where its parent is: the standard's defaults over
    /// `AlwaysOn`.
    ParentBased,
}

/// The sampler of a script.
#[derive(Debug, Clone, Copy, PartialEq, Eq)]
pub struct ScriptSampler(pub SamplerName);

impl Sampler for ScriptSampler {
    ghost use Rattle.trace_script.specs.Recorded.{meaning_of};

    ghost meaning = { λ s. meaning_of s.0 };

    fn should_sample<A: Allocator>(
        &self,
        parent: Option<&SpanContext<A>>,
        trace: &TraceId,
        name: &str,
        kind: Kind,
    ) -> Decision {
        match self.0 {
            SamplerName::AlwaysOn => AlwaysOn.should_sample(parent, trace, name, kind),
            SamplerName::AlwaysOff => AlwaysOff.should_sample(parent, trace, name, kind),
            SamplerName::ParentBased => {
                ParentBased::new(AlwaysOn).should_sample(parent, trace, name, kind)
            }
        }
    }
}
