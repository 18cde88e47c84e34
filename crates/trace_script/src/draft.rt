//! The lines of a script so far, and which line may follow them.

ghost use Rattle.std.specs.Prelude.{◌≡◌, [], is_some, not, string_bytes};
ghost use Rattle.otlp_value.specs.Value.{attribute_view};
ghost use Rattle.otlp_span.specs.Parts.{limits_view};
ghost use Rattle.batch_desk.specs.Views.{config_view};
ghost use Rattle.retry_core.specs.Retries.{outcome_view};
ghost use Rattle.trace_run.specs.Steps.{step_view};
ghost use Rattle.trace_script.specs.Lines.{line_view, words, sampler, limits, desk, max_body};
ghost use Rattle.trace_script.specs.Lines.{resource, scope, scope_attribute, outcome, step};
ghost use Rattle.trace_script.specs.Scripts.{Script};
ghost use Rattle.trace_script.specs.Drafts.{Holds, Follows, no_items, no_script, with_line};
ghost use Rattle.trace_script.specs.Drafts.{line_read};

use crate::line::{Line, parse_line};
use crate::sampler::SamplerName;
use crate::scope::{ScopeDraft, all_attributes};
use batch_desk::DeskConfig;
use otlp_span::SpanLimits;
use otlp_value::{AttributeList, Value};
use retry_core::Outcome;
use std::alloc::Allocator;
use text_words::WordFault;
use trace_run::Step;

/// What the lines so far say.
#[derive(Drop)]
pub(crate) struct Draft<A: Allocator> {
    /// The words of the generator.
    pub(crate) words: Vec<u64, A>,
    /// The sampler, if one is named.
    pub(crate) sampler: Option<SamplerName>,
    /// The limits of spans, if they are set.
    pub(crate) limits: Option<SpanLimits>,
    /// The sizes and the delay of the batch processor, if they are set.
    pub(crate) desk: Option<DeskConfig>,
    /// The greatest body in bytes, if it is set.
    pub(crate) max_body: Option<usize>,
    /// The attributes of the resource.
    pub(crate) resource: AttributeList<A>,
    /// The scopes.
    pub(crate) scopes: Vec<ScopeDraft<A>, A>,
    /// What comes of the attempts to send a batch.
    pub(crate) outcomes: Vec<Outcome, A>,
    /// The steps.
    pub(crate) steps: Vec<Step<A>, A>,
}

impl<A: Allocator + Copy> Draft<A> {
    /// A script without lines. It takes no memory.
    pub(crate) fn new(alloc: A) -> Draft<A>
        ensures { Holds result no_script }
    {
        Draft {
            words: Vec::new(alloc),
            sampler: None,
            limits: None,
            desk: None,
            max_body: None,
            resource: all_attributes(alloc),
            scopes: Vec::new(alloc),
            outcomes: Vec::new(alloc),
            steps: Vec::new(alloc),
        }
    }

    /// Goes on with the bytes of a line, without its line feed. An empty line says nothing.
    ///
    /// # Errors
    ///
    /// `Bad` where the line may not be there, `OutOfMemory` where memory was refused. What the
    /// draft then holds is not specified.
    #[tactic(auto, unfolding(crate::specs::Drafts::line_read))]
    pub(crate) fn add_line(&mut self, alloc: A, line: &[u8]) -> Result<(), WordFault>
        ensures { Follows (λ s. line_read s line.now) self.old self.new result }
    {
        if line.is_empty() {
            return Ok(());
        }
        let line = parse_line(alloc, line)?;
        self.add(alloc, line)
    }

    /// Goes on with a line.
    fn add(&mut self, alloc: A, line: Line<A>) -> Result<(), WordFault>
        ensures { Follows (λ s. with_line s (line_view line)) self.old self.new result }
    {
        match line {
            Line::Words(words) => self.add_words(words),
            Line::Sampler(name) => self.set_sampler(name),
            Line::Limits(limits) => self.set_limits(limits),
            Line::Desk(config) => self.set_desk(config),
            Line::MaxBody(greatest) => self.set_max_body(greatest),
            Line::Resource(key, value) => self.add_attribute(key, value),
            Line::Scope {
                number,
                name,
                version,
                schema_url,
            } => self.add_scope(alloc, number, name, version, schema_url),
            Line::ScopeAttribute { number, key, value } => {
                self.add_scope_attribute(number, key, value)
            }
            Line::Outcome(outcome) => self.add_outcome(outcome),
            Line::Step(step) => self.add_step(step),
        }
    }

    /// Goes on with further words of the generator.
    #[tactic(auto, unfolding(crate::specs::Drafts::with_line))]
    fn add_words(&mut self, more: Vec<u64, A>) -> Result<(), WordFault>
        ensures { Follows (λ s. with_line s (words more.items)) self.old self.new result }
    {
        if self.has_steps() {
            return Err(WordFault::Bad);
        }
        self.words.extend_from_slice(more.as_slice())?;
        Ok(())
    }

    /// Goes on with the name of the sampler.
    #[tactic(auto, unfolding(crate::specs::Drafts::with_line))]
    fn set_sampler(&mut self, name: SamplerName) -> Result<(), WordFault>
        ensures { Follows (λ s. with_line s (sampler name)) self.old self.new result }
    {
        if self.has_steps() || self.has_sampler() {
            return Err(WordFault::Bad);
        }
        self.sampler = Some(name);
        Ok(())
    }

    /// Goes on with the limits of spans.
    #[tactic(auto, unfolding(crate::specs::Drafts::with_line))]
    fn set_limits(&mut self, values: SpanLimits) -> Result<(), WordFault>
        ensures { Follows (λ s. with_line s (limits (limits_view values)))
            self.old self.new result }
    {
        if self.has_steps() || self.has_limits() {
            return Err(WordFault::Bad);
        }
        self.limits = Some(values);
        Ok(())
    }

    /// Goes on with the sizes and the delay of the batch processor.
    #[tactic(auto, unfolding(crate::specs::Drafts::with_line))]
    fn set_desk(&mut self, config: DeskConfig) -> Result<(), WordFault>
        ensures { Follows (λ s. with_line s (desk (config_view config))) self.old self.new result }
    {
        if self.has_steps() || self.has_desk() {
            return Err(WordFault::Bad);
        }
        self.desk = Some(config);
        Ok(())
    }

    /// Goes on with the greatest body.
    #[tactic(auto, unfolding(crate::specs::Drafts::with_line))]
    fn set_max_body(&mut self, greatest: usize) -> Result<(), WordFault>
        ensures { Follows (λ s. with_line s (max_body greatest)) self.old self.new result }
    {
        if self.has_steps() || self.has_max_body() {
            return Err(WordFault::Bad);
        }
        self.max_body = Some(greatest);
        Ok(())
    }

    /// Goes on with an attribute of the resource.
    #[tactic(auto, unfolding(crate::specs::Drafts::with_line))]
    fn add_attribute(&mut self, key: String<A>, value: Value<A>) -> Result<(), WordFault>
        ensures { Follows
            (λ s. with_line s (resource (attribute_view (key, value)))) self.old self.new result }
    {
        if self.has_steps() {
            return Err(WordFault::Bad);
        }
        self.resource.set(key, value)?;
        Ok(())
    }

    /// Goes on with a scope under its number.
    #[tactic(auto, unfolding(crate::specs::Drafts::with_line))]
    fn add_scope(
        &mut self,
        alloc: A,
        number: u32,
        name: String<A>,
        version: String<A>,
        schema_url: String<A>,
    ) -> Result<(), WordFault>
        ensures { Follows
            (λ s. with_line s (scope number (record {
              name = string_bytes name;
              version = string_bytes version;
              attributes = [];
              schema = string_bytes schema_url;
            }))) self.old self.new result }
    {
        if self.has_steps() || number as usize != self.scopes.len() {
            return Err(WordFault::Bad);
        }
        let more = ScopeDraft {
            name,
            version,
            attributes: all_attributes(alloc),
            schema_url,
        };
        self.scopes.push(more)?;
        Ok(())
    }

    /// Goes on with an attribute of the scope with this number.
    #[tactic(auto, unfolding(crate::specs::Drafts::with_line))]
    fn add_scope_attribute(
        &mut self,
        number: u32,
        key: String<A>,
        value: Value<A>,
    ) -> Result<(), WordFault>
        ensures { Follows
            (λ s. with_line s (scope_attribute number (attribute_view (key, value))))
            self.old self.new result }
    {
        if self.has_steps() {
            return Err(WordFault::Bad);
        }
        let Some(scope) = self.scopes.get_mut(number as usize) else {
            return Err(WordFault::Bad);
        };
        scope.attributes.set(key, value)?;
        Ok(())
    }

    /// Goes on with what comes of a further attempt.
    #[tactic(auto, unfolding(crate::specs::Drafts::with_line))]
    fn add_outcome(&mut self, more: Outcome) -> Result<(), WordFault>
        ensures { Follows (λ s. with_line s (outcome (outcome_view more)))
            self.old self.new result }
    {
        self.outcomes.push(more)?;
        Ok(())
    }

    /// Goes on with a step.
    #[tactic(auto, unfolding(crate::specs::Drafts::with_line))]
    fn add_step(&mut self, more: Step<A>) -> Result<(), WordFault>
        ensures { Follows (λ s. with_line s (step (step_view more))) self.old self.new result }
    {
        self.steps.push(more)?;
        Ok(())
    }

    /// Whether a step has come, which no setting may follow.
    fn has_steps(&self) -> bool
        ensures { (s : Script) → Holds self.now s → result ≡ not (no_items s.steps) }
    {
        !self.steps.is_empty()
    }

    /// Whether a sampler is named.
    fn has_sampler(&self) -> bool
        ensures { (s : Script) → Holds self.now s → result ≡ is_some s.sampler }
    {
        self.sampler.is_some()
    }

    /// Whether limits are set.
    fn has_limits(&self) -> bool
        ensures { (s : Script) → Holds self.now s → result ≡ is_some s.limits }
    {
        self.limits.is_some()
    }

    /// Whether the sizes and the delay of the batch processor are set.
    fn has_desk(&self) -> bool
        ensures { (s : Script) → Holds self.now s → result ≡ is_some s.desk }
    {
        self.desk.is_some()
    }

    /// Whether the greatest body is set.
    fn has_max_body(&self) -> bool
        ensures { (s : Script) → Holds self.now s → result ≡ is_some s.max_body }
    {
        self.max_body.is_some()
    }
}
