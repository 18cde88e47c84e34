//! The lines of the answers.
ghost use Rattle.std.specs.Prelude.{◌≡◌, ◌∷◌, ◌++◌, OnOk, decimal, codes, string_bytes};
ghost use Rattle.otlp_span.specs.Parts.{call_view};
ghost use Rattle.retry_core.specs.Retries.{next_view};
ghost use Rattle.trace_run.specs.Answers.{answer_view, ended_view};
ghost use Rattle.trace_run.specs.Lines.{line, start_words, call_words, ended_words, end_words};
ghost use Rattle.trace_run.specs.Lines.{take_words, encode_words, attempt_words, next_words};
ghost use Rattle.trace_run.specs.Lines.{reply_words};

use crate::Answer;
use otlp_ids::OutOfMemory;
use retry_core::{Cause, Next};
use std::alloc::Allocator;
use trace_api::Ended;

/// Appends the line of the start with this number.
pub(crate) fn write_start<A: Allocator>(
    out: &mut String<A>,
    number: usize,
    answer: &Answer,
) -> Result<(), OutOfMemory>
    ensures { OnOk result (string_bytes out.new ≡ string_bytes out.old
        ++ line (codes "start" ∷ decimal number ∷ start_words (answer_view answer.now))) }
{
    match answer {
        Answer::Started { trace, span } => writeln!(out, "start {number} {trace} {span}")?,
        Answer::NoRandomness => writeln!(out, "start {number} no-randomness")?,
        Answer::OutOfMemory => writeln!(out, "start {number} out-of-memory")?,
        Answer::NoSpan => writeln!(out, "start {number} no-span")?,
        _ => writeln!(out, "start {number} none")?,
    }
    Ok(())
}

/// Appends the line of a call, which is no end, on the span with this number.
pub(crate) fn write_call<A: Allocator>(
    out: &mut String<A>,
    span: u32,
    answer: &Answer,
) -> Result<(), OutOfMemory>
    ensures { OnOk result (string_bytes out.new ≡ string_bytes out.old
        ++ line (codes "call" ∷ decimal span ∷ call_words (answer_view answer.now))) }
{
    match answer {
        Answer::Done => writeln!(out, "call {span} ok")?,
        Answer::OutOfMemory => writeln!(out, "call {span} out-of-memory")?,
        Answer::NoSpan => writeln!(out, "call {span} no-span")?,
        _ => writeln!(out, "call {span} none")?,
    }
    Ok(())
}

/// Appends the line of an end of the span with this number.
pub(crate) fn write_end<A: Allocator>(
    out: &mut String<A>,
    span: u32,
    answer: &Answer,
) -> Result<(), OutOfMemory>
    ensures { OnOk result (string_bytes out.new ≡ string_bytes out.old
        ++ line (codes "end" ∷ decimal span ∷ end_words (answer_view answer.now))) }
{
    match answer {
        Answer::Ended(ended) => write_ended(out, span, *ended)?,
        Answer::NoSpan => writeln!(out, "end {span} no-span")?,
        _ => writeln!(out, "end {span} none")?,
    }
    Ok(())
}

/// Appends the line of an end that counts, or doesn't, for what became of the span.
fn write_ended<A: Allocator>(
    out: &mut String<A>,
    span: u32,
    ended: Ended,
) -> Result<(), OutOfMemory>
    ensures { OnOk result (string_bytes out.new ≡ string_bytes out.old
        ++ line (codes "end" ∷ decimal span ∷ ended_words (ended_view ended))) }
{
    match ended {
        Ended::Queued(ticket) => writeln!(out, "end {span} queued {ticket}")?,
        Ended::Handed(ticket) => writeln!(out, "end {span} handed {ticket}")?,
        Ended::Dropped(ticket, reason) => { writeln!(out, "end {span} dropped {ticket} {reason}")? }
        Ended::Late => writeln!(out, "end {span} late")?,
        Ended::NotSampled => writeln!(out, "end {span} not-sampled")?,
        Ended::AlreadyEnded => writeln!(out, "end {span} already-ended")?,
    }
    Ok(())
}

/// Appends the line of a take.
pub(crate) fn write_take<A: Allocator>(
    out: &mut String<A>,
    answer: &Answer,
) -> Result<(), OutOfMemory>
    ensures { OnOk result (string_bytes out.new ≡ string_bytes out.old
        ++ line (codes "take" ∷ take_words (answer_view answer.now))) }
{
    match answer {
        Answer::Taken { batch, spans } => writeln!(out, "take {batch} {spans}")?,
        _ => writeln!(out, "take none")?,
    }
    Ok(())
}

/// Appends the line of an encoding.
pub(crate) fn write_encode<A: Allocator>(
    out: &mut String<A>,
    answer: &Answer,
) -> Result<(), OutOfMemory>
    ensures { OnOk result (string_bytes out.new ≡ string_bytes out.old
        ++ line (codes "encode" ∷ encode_words (answer_view answer.now))) }
{
    match answer {
        Answer::Encoded { batch, length } => writeln!(out, "encode {batch} {length}")?,
        Answer::Dropped { batch, reason } => { writeln!(out, "encode {batch} dropped {reason}")? }
        _ => writeln!(out, "encode none")?,
    }
    Ok(())
}

/// Appends the line of an attempt, where this is the body that was handed over.
pub(crate) fn write_attempt<A: Allocator + Copy>(
    out: &mut String<A>,
    body: &[u8],
    answer: &Answer,
) -> Result<(), OutOfMemory>
    ensures { OnOk result (string_bytes out.new ≡ string_bytes out.old
        ++ line (codes "attempt" ∷ attempt_words body.now (answer_view answer.now))) }
{
    match answer {
        Answer::Sent { batch, attempt, .. } => {
            let digits = hex::encode(*out.allocator(), body)?;
            writeln!(out, "attempt {batch} {attempt} {digits}")?
        }
        Answer::Early => writeln!(out, "attempt early")?,
        _ => writeln!(out, "attempt none")?,
    }
    Ok(())
}

/// Appends the line of a reply.
pub(crate) fn write_reply<A: Allocator>(
    out: &mut String<A>,
    answer: &Answer,
) -> Result<(), OutOfMemory>
    ensures { OnOk result (string_bytes out.new ≡ string_bytes out.old
        ++ line (codes "reply" ∷ reply_words (answer_view answer.now))) }
{
    match answer {
        Answer::Replied { batch, next } => write_next(out, *batch, *next)?,
        _ => writeln!(out, "reply none")?,
    }
    Ok(())
}

/// Appends the line of a reply that says what follows for the batch with this number.
fn write_next<A: Allocator>(out: &mut String<A>, batch: u64, next: Next) -> Result<(), OutOfMemory>
    ensures { OnOk result (string_bytes out.new ≡ string_bytes out.old
        ++ line (codes "reply" ∷ decimal batch ∷ next_words (next_view next))) }
{
    match next {
        Next::Done => writeln!(out, "reply {batch} done")?,
        Next::Partial(rejected) => writeln!(out, "reply {batch} partial {rejected}")?,
        Next::Again(moment) => writeln!(out, "reply {batch} again {moment}")?,
        Next::GiveUp(Cause::Refused(status)) => {
            writeln!(out, "reply {batch} give-up refused {status}")?
        }
        Next::GiveUp(Cause::BadReply) => writeln!(out, "reply {batch} give-up bad-reply")?,
        Next::GiveUp(Cause::Attempts) => writeln!(out, "reply {batch} give-up attempts")?,
    }
    Ok(())
}
