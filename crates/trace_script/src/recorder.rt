//! The spans that a script starts, calls and ends.
ghost use Rattle.std.specs.Prelude.{◌≡◌, ◌+◌, ◌≤◌, ◌∷◌, [], IfOk, OnOk, false, length, map};
ghost use Rattle.model_run.specs.History.{ended_spans, granted_steps};
ghost use Rattle.model_run.specs.Steps.{is_shutdown as closes};
ghost use Rattle.model_run.specs.Runs.{is_refused};
ghost use Rattle.trace_run.specs.Answers.{answer_view};
ghost use Rattle.trace_run.specs.Steps.{step_view};
ghost use Rattle.trace_script.specs.Recorder.{Records, begins, granted, setup_view};
ghost use Rattle.trace_script.specs.Recorder.{start_steps};

use crate::parse::Script;
use crate::sampler::ScriptSampler;
use otlp_ids::OutOfMemory;
use otlp_span::Resource;
use std::alloc::Allocator;
use std::sync::Arc;
use trace_api::{BodyPass, Provider, WordsRng};
use trace_run::{Answer, SpanTable, Step};

/// The spans of a script.
type ScriptSpans<'a, A> = SpanTable<'a, ScriptSampler, WordsRng<A>, A>;

/// The sampled spans that the script ends before its first shutdown, in the order of their ends.
pub fn spans_of_script<A: Allocator + Copy>(
    alloc: A,
    script: Script<A>,
) -> Result<BodyPass<A>, OutOfMemory>
    ensures { IfOk result (λ pass. pass.spans ≡
        ended_spans (setup_view script) (granted_steps (map step_view script.steps.items))) }
{
    let Script {
        words,
        sampler,
        limits,
        desk: _,
        max_body: _,
        resource,
        scopes,
        outcomes: _,
        steps,
    } = script;
    let resource = Arc::new(alloc, Resource::new(alloc, resource))?;
    let provider = Provider::new(ScriptSampler(sampler), resource, limits);
    let room = count_starts(steps.as_slice());
    let mut spans = SpanTable::new(alloc, &provider, scopes, WordsRng::new(words), room)?;
    let mut pass = BodyPass::new(alloc, room)?;
    take_steps(&mut spans, &mut pass, steps.as_slice())?;
    Ok(pass)
}

/// Whether the step starts a span.
fn is_start<A: Allocator>(step: &Step<A>) -> bool
    ensures { result ≡ begins (step_view step.now) }
{
    matches!(step, Step::Start { .. })
}

/// Whether the step is a shutdown.
fn is_shutdown<A: Allocator>(step: &Step<A>) -> bool
    ensures { result ≡ closes (step_view step.now) }
{
    matches!(step, Step::Shutdown)
}

/// How many spans the steps start.
fn count_starts<A: Allocator>(steps: &[Step<A>]) -> usize
    ensures { result ≡ start_steps (map step_view steps.now) }
{
    steps.iter().filter(|step| is_start(step)).count()
}

/// Takes the steps before the first shutdown.
fn take_steps<A: Allocator + Copy>(
    spans: &mut ScriptSpans<'_, A>,
    pass: &mut BodyPass<A>,
    steps: &[Step<A>],
) -> Result<(), OutOfMemory>
    requires { length spans.old.spans + start_steps (map step_view steps.now) ≤ spans.old.room }
    ensures { OnOk result (Records (granted_steps (map step_view steps.now))
        spans.old pass.old spans.new pass.new) }
{
    for step in steps {
        if is_shutdown(step) {
            return Ok(());
        }
        take_step(spans, pass, step)?;
    }
    Ok(())
}

/// Takes a step that is no shutdown. One that isn't for the spans does nothing.
fn take_step<A: Allocator + Copy>(
    spans: &mut ScriptSpans<'_, A>,
    pass: &mut BodyPass<A>,
    step: &Step<A>,
) -> Result<(), OutOfMemory>
    requires { length spans.old.spans + start_steps (step_view step.now ∷ []) ≤ spans.old.room }
    ensures taken { OnOk result (Records (granted (step_view step.now))
        spans.old pass.old spans.new pass.new) }
    ensures many { length spans.new.spans
        ≡ length spans.old.spans + start_steps (step_view step.now ∷ []) }
    ensures room { spans.new.room ≡ spans.old.room }
{
    match step {
        Step::Start {
            scope,
            parent,
            kind,
            at,
            name,
        } => unless_refused(spans.start(*scope, parent, *kind, *at, name.as_str())),
        Step::Call { span, call } => unless_refused(spans.call(pass, *span, call)),
        _ => Ok(()),
    }
}

/// The answer is lack of memory, or not.
fn unless_refused(answer: Answer) -> Result<(), OutOfMemory>
    ensures { OnOk result (is_refused (answer_view answer) ≡ false) }
{
    match answer {
        Answer::OutOfMemory => Err(OutOfMemory),
        _ => Ok(()),
    }
}
