//! The sampler that goes by the parent of a span.
ghost use Rattle.std.specs.Prelude.{◌≡◌};
ghost use Rattle.model_span.specs.Sampling as model;

use crate::sampling::{AlwaysOff, AlwaysOn, Decision, Sampler};
use otlp_ids::{SpanContext, TraceId};
use otlp_span::Kind;
use std::alloc::Allocator;

/// Asks one of five samplers: the parent picks it, by whether it came from another process and by
/// its sampled flag (Trace SDK, "ParentBased").
#[derive(Debug, Drop)]
pub struct ParentBased<S0, S1 = AlwaysOn, S2 = AlwaysOff, S3 = AlwaysOn, S4 = AlwaysOff> {
    /// For a root, which has no parent.
    pub root: S0,
    /// For a parent from another process whose sampled flag is set.
    pub remote_parent_sampled: S1,
    /// For a parent from another process whose sampled flag isn't set.
    pub remote_parent_not_sampled: S2,
    /// For a parent of this process whose sampled flag is set.
    pub local_parent_sampled: S3,
    /// For a parent of this process whose sampled flag isn't set.
    pub local_parent_not_sampled: S4,
}

impl<S0: Sampler> ParentBased<S0> {
    /// A root is for `root` to decide. Any other span is sampled exactly where its parent is, and
    /// else dropped (Trace SDK, "ParentBased", the defaults).
    pub fn new(root: S0) -> Self
        ensures kept { result.root ≡ root }
        ensures follows_parent { (span : model.Question) →
            ⟦<Self as Sampler>⟧.meaning result span ≡ model.as_parent (S0.meaning root) span }
    {
        ParentBased {
            root,
            remote_parent_sampled: AlwaysOn,
            remote_parent_not_sampled: AlwaysOff,
            local_parent_sampled: AlwaysOn,
            local_parent_not_sampled: AlwaysOff,
        }
    }
}

impl<S0: Sampler, S1: Sampler, S2: Sampler, S3: Sampler, S4: Sampler> Sampler
    for ParentBased<S0, S1, S2, S3, S4> {
    ghost meaning = { λ s. model.parent_based (record {
      root = S0.meaning s.root;
      remote_parent_sampled = S1.meaning s.remote_parent_sampled;
      remote_parent_not_sampled = S2.meaning s.remote_parent_not_sampled;
      local_parent_sampled = S3.meaning s.local_parent_sampled;
      local_parent_not_sampled = S4.meaning s.local_parent_not_sampled;
    }) };

    fn should_sample<A: Allocator>(
        &self,
        parent: Option<&SpanContext<A>>,
        trace: &TraceId,
        name: &str,
        kind: Kind,
    ) -> Decision {
        let Some(context) = parent else {
            return self.root.should_sample(parent, trace, name, kind);
        };
        match (context.remote, context.flags.sampled()) {
            (true, true) => self
                .remote_parent_sampled
                .should_sample(parent, trace, name, kind),
            (true, false) => self
                .remote_parent_not_sampled
                .should_sample(parent, trace, name, kind),
            (false, true) => self
                .local_parent_sampled
                .should_sample(parent, trace, name, kind),
            (false, false) => self
                .local_parent_not_sampled
                .should_sample(parent, trace, name, kind),
        }
    }
}
