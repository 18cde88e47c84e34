//! The steps of a program.

ghost use Rattle.std.specs.Prelude.{◌≡◌, map, ok_or};
ghost use Rattle.trace_run.specs.Steps.{step_view};
ghost use Rattle.text_words.specs.Words.{Gives};
ghost use Rattle.trace_script.specs.Steps.{attempt_step, bare_step, call_step, call_step_of};
ghost use Rattle.trace_script.specs.Steps.{end_step, end_step_of, kind_of, reply_step};
ghost use Rattle.trace_script.specs.Steps.{reply_step_of, start_step, start_step_of, step_of};
ghost use Rattle.trace_script.specs.Steps.{step_on_span, take_step};
ghost use Rattle.text_words.specs.declared.WordFault.TheVariants.{Bad};

use crate::call::parse_call;
use crate::context::parse_parent;
use otlp_span::{Kind, SpanCall};
use std::alloc::Allocator;
use text_words::{WordFault, number, small_number, text};
use trace_run::Step;

/// Reads a step of this name, and the words after it.
#[tactic(auto, unfolding(crate::specs::Steps::step_of))]
pub(crate) fn parse_step<A: Allocator + Copy>(
    alloc: A,
    name: &str,
    words: &[&[u8]],
) -> Result<Step<A>, WordFault>
    ensures { Gives step_view result (step_of name.now (map (λ w. w.now) words.now)) }
{
    match name {
        "flush" => parse_bare(Step::Flush, words),
        "shutdown" => parse_bare(Step::Shutdown, words),
        "take" => parse_take(words),
        "encode" => parse_bare(Step::Encode, words),
        "attempt" => parse_attempt(words),
        "reply" => parse_reply(words),
        _ => parse_step_on_span(alloc, name, words),
    }
}

/// A step that has no words.
fn parse_bare<A: Allocator>(step: Step<A>, words: &[&[u8]]) -> Result<Step<A>, WordFault>
    ensures { Gives step_view result (bare_step (step_view step) (map (λ w. w.now) words.now)) }
{
    match words {
        [] => Ok(step),
        _ => Err(WordFault::Bad),
    }
}

/// `AT`
#[tactic(auto, unfolding(crate::specs::Steps::take_step))]
fn parse_take<A: Allocator>(words: &[&[u8]]) -> Result<Step<A>, WordFault>
    ensures { Gives step_view result (take_step (map (λ w. w.now) words.now)) }
{
    let [at] = words else {
        return Err(WordFault::Bad);
    };
    Ok(Step::Take { at: number(at)? })
}

/// `AT`
#[tactic(auto, unfolding(crate::specs::Steps::attempt_step))]
fn parse_attempt<A: Allocator>(words: &[&[u8]]) -> Result<Step<A>, WordFault>
    ensures { Gives step_view result (attempt_step (map (λ w. w.now) words.now)) }
{
    let [at] = words else {
        return Err(WordFault::Bad);
    };
    Ok(Step::Attempt { at: number(at)? })
}

/// `AT WORD`
#[tactic(auto, unfolding(crate::specs::Steps::reply_step))]
fn parse_reply<A: Allocator>(words: &[&[u8]]) -> Result<Step<A>, WordFault>
    ensures { Gives step_view result (reply_step (map (λ w. w.now) words.now)) }
{
    let [at, word] = words else {
        return Err(WordFault::Bad);
    };
    parse_reply_at(at, word)
}

/// A reply at a moment, with a random number.
#[tactic(auto, unfolding(crate::specs::Steps::reply_step_of))]
fn parse_reply_at<A: Allocator>(at: &[u8], word: &[u8]) -> Result<Step<A>, WordFault>
    ensures { Gives step_view result (reply_step_of at.now word.now) }
{
    let at = number(at)?;
    let word = number(word)?;
    Ok(Step::Reply { at, word })
}

/// A start, an end, or another call on a span.
#[tactic(auto, unfolding(crate::specs::Steps::step_on_span))]
fn parse_step_on_span<A: Allocator + Copy>(
    alloc: A,
    name: &str,
    words: &[&[u8]],
) -> Result<Step<A>, WordFault>
    ensures { Gives step_view result (step_on_span name.now (map (λ w. w.now) words.now)) }
{
    match name {
        "start" => parse_start(alloc, words),
        "end" => parse_end(words),
        _ => parse_call_step(alloc, name, words),
    }
}

/// `SCOPE PARENT KIND AT NAME`
#[tactic(auto, unfolding(crate::specs::Steps::start_step))]
fn parse_start<A: Allocator + Copy>(alloc: A, words: &[&[u8]]) -> Result<Step<A>, WordFault>
    ensures { Gives step_view result (start_step (map (λ w. w.now) words.now)) }
{
    let [scope, parent, kind, at, name] = words else {
        return Err(WordFault::Bad);
    };
    parse_start_of(alloc, scope, parent, kind, at, name)
}

/// A start, a word for each of its parts.
#[tactic(auto, unfolding(crate::specs::Steps::start_step_of))]
fn parse_start_of<A: Allocator + Copy>(
    alloc: A,
    scope: &[u8],
    parent: &[u8],
    kind: &[u8],
    at: &[u8],
    name: &[u8],
) -> Result<Step<A>, WordFault>
    ensures { Gives step_view result (start_step_of scope.now parent.now kind.now at.now name.now) }
{
    let scope = small_number(scope)?;
    let parent = parse_parent(alloc, parent)?;
    let kind = parse_kind(kind)?;
    let at = number(at)?;
    let name = text(alloc, name)?;
    Ok(Step::Start {
        scope,
        parent,
        kind,
        at,
        name,
    })
}

/// `N AT`
#[tactic(auto, unfolding(crate::specs::Steps::end_step))]
fn parse_end<A: Allocator>(words: &[&[u8]]) -> Result<Step<A>, WordFault>
    ensures { Gives step_view result (end_step (map (λ w. w.now) words.now)) }
{
    let [span, at] = words else {
        return Err(WordFault::Bad);
    };
    parse_end_of(span, at)
}

/// An end of the span with a number, at a moment.
#[tactic(auto, unfolding(crate::specs::Steps::end_step_of))]
fn parse_end_of<A: Allocator>(span: &[u8], at: &[u8]) -> Result<Step<A>, WordFault>
    ensures { Gives step_view result (end_step_of span.now at.now) }
{
    let span = small_number(span)?;
    let at = number(at)?;
    Ok(Step::Call {
        span,
        call: SpanCall::End(at),
    })
}

/// A call that isn't an end: `N`, and the words of the call.
#[tactic(auto, unfolding(crate::specs::Steps::call_step))]
fn parse_call_step<A: Allocator + Copy>(
    alloc: A,
    name: &str,
    words: &[&[u8]],
) -> Result<Step<A>, WordFault>
    ensures { Gives step_view result (call_step name.now (map (λ w. w.now) words.now)) }
{
    let [span, words @ ..] = words else {
        return Err(WordFault::Bad);
    };
    parse_call_on(alloc, name, span, words)
}

/// A call of a name on the span with a number.
#[tactic(auto, unfolding(crate::specs::Steps::call_step_of))]
fn parse_call_on<A: Allocator + Copy>(
    alloc: A,
    name: &str,
    span: &[u8],
    words: &[&[u8]],
) -> Result<Step<A>, WordFault>
    ensures { Gives step_view result (call_step_of name.now span.now (map (λ w. w.now) words.now)) }
{
    let span = small_number(span)?;
    let call = parse_call(alloc, name, words)?;
    Ok(Step::Call { span, call })
}

/// `internal`, `server`, `client`, `producer` or `consumer`
#[tactic(auto, unfolding(crate::specs::Steps::kind_of))]
fn parse_kind(word: &[u8]) -> Result<Kind, WordFault>
    ensures { result ≡ ok_or (kind_of word.now) Bad }
{
    if word == b"internal".as_slice() {
        Ok(Kind::Internal)
    } else if word == b"server".as_slice() {
        Ok(Kind::Server)
    } else if word == b"client".as_slice() {
        Ok(Kind::Client)
    } else if word == b"producer".as_slice() {
        Ok(Kind::Producer)
    } else if word == b"consumer".as_slice() {
        Ok(Kind::Consumer)
    } else {
        Err(WordFault::Bad)
    }
}
