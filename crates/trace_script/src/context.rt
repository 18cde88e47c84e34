//! Contexts of spans and parents, as words.

ghost use Rattle.std.specs.Prelude.{◌≡◌, ok_or};
ghost use Rattle.otlp_ids.specs.SpanContext.{context_view};
ghost use Rattle.text_words.specs.Words.{Gives, hex_bytes};
ghost use Rattle.trace_run.specs.Steps.{parent_name_view};
ghost use Rattle.trace_script.specs.Contexts.{context_of, given_of, is_remote_of, joined_context_of};
ghost use Rattle.trace_script.specs.Contexts.{parent_of, plain_parent_of};
ghost use Rattle.text_words.specs.declared.WordFault.TheVariants.{Bad};

use otlp_ids::{SpanContext, SpanId, TraceFlags, TraceId};
use std::alloc::Allocator;
use std::str;
use text_words::{WordFault, around_first, byte, small_number, text};
use trace_run::Parent;

/// Reads the parent of a span that starts: `root`, the number of a span, or `remote:` or `local:`
/// with a context after it.
#[tactic(auto, unfolding(crate::specs::Contexts::parent_of))]
pub(crate) fn parse_parent<A: Allocator>(alloc: A, word: &[u8]) -> Result<Parent<A>, WordFault>
    ensures { Gives parent_name_view result (parent_of word.now) }
{
    match around_first(b':', word) {
        Some((side, context)) => parse_given(alloc, side, context),
        None => parse_plain_parent(word),
    }
}

/// `root`, or the number of a span.
#[tactic(auto, unfolding(crate::specs::Contexts::plain_parent_of))]
fn parse_plain_parent<A: Allocator>(word: &[u8]) -> Result<Parent<A>, WordFault>
    ensures { Gives parent_name_view result (plain_parent_of word.now) }
{
    match word {
        b"root" => Ok(Parent::Root),
        _ => Ok(Parent::Span(small_number(word)?)),
    }
}

/// Whether the context after `remote` or `local` is remote.
#[tactic(auto, unfolding(crate::specs::Contexts::is_remote_of))]
fn parse_side(side: &[u8]) -> Result<bool, WordFault>
    ensures { result ≡ ok_or (is_remote_of side.now) Bad }
{
    match side {
        b"remote" => Ok(true),
        b"local" => Ok(false),
        _ => Err(WordFault::Bad),
    }
}

/// `remote` or `local`, and a context.
#[tactic(auto, unfolding(crate::specs::Contexts::given_of))]
fn parse_given<A: Allocator>(alloc: A, side: &[u8], context: &[u8]) -> Result<Parent<A>, WordFault>
    ensures { Gives parent_name_view result (given_of side.now context.now) }
{
    let remote = parse_side(side)?;
    Ok(Parent::Given(parse_joined_context(alloc, remote, context)?))
}

/// `TRACE:SPAN:FLAGS:STATE`. A further colon belongs to the state.
#[tactic(auto, unfolding(crate::specs::Contexts::joined_context_of))]
fn parse_joined_context<A: Allocator>(
    alloc: A,
    remote: bool,
    word: &[u8],
) -> Result<SpanContext<A>, WordFault>
    ensures { Gives context_view result (joined_context_of remote word.now) }
{
    let (trace, rest) = around_first(b':', word).ok_or(WordFault::Bad)?;
    let (span, rest) = around_first(b':', rest).ok_or(WordFault::Bad)?;
    let (flags, state) = around_first(b':', rest).ok_or(WordFault::Bad)?;
    parse_context(alloc, remote, trace, span, flags, state)
}

/// Reads a context: the words TRACE, SPAN, FLAGS and STATE.
#[tactic(auto, unfolding(crate::specs::Contexts::context_of))]
pub(crate) fn parse_context<A: Allocator>(
    alloc: A,
    remote: bool,
    trace: &[u8],
    span: &[u8],
    flags: &[u8],
    state: &[u8],
) -> Result<SpanContext<A>, WordFault>
    ensures { Gives context_view result (context_of remote trace.now span.now flags.now state.now) }
{
    let trace = trace_id(trace)?;
    let span = span_id(span)?;
    let flags = TraceFlags(byte(flags)?);
    let state = text(alloc, state)?;
    Ok(SpanContext {
        trace,
        span,
        flags,
        remote,
        state,
    })
}

/// An identifier of a trace, in hexadecimal digits of either case.
fn trace_id(word: &[u8]) -> Result<TraceId, WordFault>
    ensures { Gives (λ id. id.0) result (hex_bytes 16 word.now) }
{
    let Ok(digits) = str::from_utf8(word) else {
        return Err(WordFault::Bad);
    };
    TraceId::from_hex(digits).or(Err(WordFault::Bad))
}

/// An identifier of a span, in hexadecimal digits of either case.
fn span_id(word: &[u8]) -> Result<SpanId, WordFault>
    ensures { Gives (λ id. id.0) result (hex_bytes 8 word.now) }
{
    let Ok(digits) = str::from_utf8(word) else {
        return Err(WordFault::Bad);
    };
    SpanId::from_hex(digits).or(Err(WordFault::Bad))
}
