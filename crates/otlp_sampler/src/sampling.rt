//! What becomes of a span that starts, and the samplers that always give one answer.
ghost use Rattle.std.specs.Prelude.{◌≡◌, IsTrue};
ghost use Rattle.std.specs.Option.{ForSome};
ghost use Rattle.model_span.specs.Sampling as model;
ghost use Rattle.model_span.specs.Spans.{is_valid};
ghost use Rattle.otlp_ids.specs.SpanContext.{context_view, parent_view};
ghost use Rattle.otlp_sampler.specs.Sampling.{decision_view, question};

use otlp_ids::{SpanContext, TraceId};
use otlp_span::Kind;
use std::alloc::Allocator;

/// What becomes of a span (Trace SDK, "Sampling").
#[derive(Debug, Clone, Copy, PartialEq, Eq)]
pub enum Decision {
    /// It isn't recorded, and all calls on it are ignored. Its sampled flag isn't set.
    Drop,
    /// It is recorded, but its sampled flag isn't set, and no processor gets it.
    RecordOnly,
    /// It is recorded, its sampled flag is set, and it goes to the processor.
    RecordAndSample,
}

impl Decision {
    /// Whether the calls on the span count (Trace API, "IsRecording").
    pub fn is_recording(self) -> bool
        ensures { result ≡ model.is_recording (decision_view self) }
    {
        self != Decision::Drop
    }

    /// Whether the span goes to the processor; it is the sampled flag of its context.
    pub fn is_sampled(self) -> bool
        ensures { result ≡ model.is_sampled (decision_view self) }
    {
        self == Decision::RecordAndSample
    }
}

/// Decides, when a span starts, what becomes of it (Trace SDK, "Sampling"). It sees neither
/// attributes nor links, changes no trace state and takes no memory (profile).
///
/// What a sampler decides is a function of its value and of what it is asked. An `impl` says which
/// one by its ghost member `meaning`.
pub trait Sampler {
    ghost meaning: { Self → model.SamplerMeaning };

    /// What becomes of a span with this parent, trace identifier, name and kind. A root has no
    /// parent, and any other span has its parent's trace identifier. A parent is valid: an invalid
    /// one counts as none, so whoever starts a span hands in `None` in its place (profile).
    fn should_sample<A: Allocator>(
        &self,
        parent: Option<&SpanContext<A>>,
        trace: &TraceId,
        name: &str,
        kind: Kind,
    ) -> Decision
        requires { ForSome parent (λ context. IsTrue (is_valid (context_view context.now))) }
        ensures { decision_view result ≡
            meaning self.now (question (parent_view parent.entry) trace.now name.now kind) };
}

/// Records and samples each span (Trace SDK, "AlwaysOn").
#[derive(Debug, Clone, Copy, PartialEq, Eq)]
pub struct AlwaysOn;

impl Sampler for AlwaysOn {
    ghost meaning = { λ _. model.always_on };

    fn should_sample<A: Allocator>(
        &self,
        _: Option<&SpanContext<A>>,
        _: &TraceId,
        _: &str,
        _: Kind,
    ) -> Decision {
        Decision::RecordAndSample
    }
}

/// Drops each span (Trace SDK, "AlwaysOff").
#[derive(Debug, Clone, Copy, PartialEq, Eq)]
pub struct AlwaysOff;

impl Sampler for AlwaysOff {
    ghost meaning = { λ _. model.always_off };

    fn should_sample<A: Allocator>(
        &self,
        _: Option<&SpanContext<A>>,
        _: &TraceId,
        _: &str,
        _: Kind,
    ) -> Decision {
        Decision::Drop
    }
}
