//! The lines of a run's answers.
ghost use Rattle.std.specs.Prelude.{◌≡◌, List, ◌++◌, OnOk, map, slice_get, string_bytes};
ghost use Rattle.model_run.specs.Runs.{Answered};
ghost use Rattle.span_exporter.specs.Views.{handed_view};
ghost use Rattle.trace_run.specs.Answers.{answer_view, history_view};
ghost use Rattle.trace_run.specs.Steps.{step_view};
ghost use Rattle.trace_run.specs.Lines.{answers_text, body_of, line_of};
ghost use Rattle.trace_run.specs.Places.{IsAfter};

use crate::text::lines::{
    write_attempt, write_call, write_encode, write_end, write_reply, write_start, write_take,
};
use crate::text::place::Place;
use crate::{Answer, Step};
use otlp_ids::OutOfMemory;
use span_exporter::Handed;
use std::alloc::Allocator;

/// Appends a line for each step of a run, with its answer (profile):
///
/// - `start N TRACE SPAN`, or `start N` and `no-randomness`, `out-of-memory` or `no-span`;
/// - `call N` and `ok`, `out-of-memory` or `no-span`;
/// - `end N` and `queued TICKET`, `dropped TICKET REASON`, `late`, `not-sampled`, `already-ended`
///   or `no-span`; REASON is `queue-full`, `encode-memory`, `too-large` or `abandoned`;
/// - `flush`, and `shutdown`;
/// - `take BATCH SPANS`, or `take none`;
/// - `encode BATCH BYTES`, `encode BATCH dropped REASON`, or `encode none`;
/// - `attempt BATCH ATTEMPT BODY`, where the attempts of a batch are numbered from 1 on,
///   `attempt early` before the moment from which it is to be sent again, or `attempt none`;
/// - `reply BATCH` and `done`, `partial REJECTED`, `again MOMENT`, `give-up refused STATUS`,
///   `give-up bad-reply` or `give-up attempts`, or `reply none`.
///
/// N is the number of the span: starts count from 0 on, those too that gave no span. The BODY of an
/// attempt is that of the attempt in the same place among those that the exporter was `handed`
/// during the run, and no bytes where there is none.
///
/// An answer that isn't one to such a step is reported as `none` in place of what would be there; a
/// flush and a shutdown have their line whatever their answer is, and an end with the answer
/// `Handed` has `handed TICKET`. A step without an answer has no line, nor has an answer without a
/// step.
///
/// # Errors
///
/// `OutOfMemory` where the text could not be stored. It may then have been appended in part.
pub fn write_answers<A: Allocator + Copy>(
    out: &mut String<A>,
    steps: &[Step<A>],
    answers: &[Answer],
    handed: &[Handed<A>],
) -> Result<(), OutOfMemory>
    ensures { OnOk result (string_bytes out.new ≡ string_bytes out.old
        ++ answers_text (map handed_view handed.now) (history_view steps.now answers.now)) }
{
    let mut place = Place::first();
    for (step, answer) in steps.iter().zip(answers) {
        write_answer(out, &place, handed, step, answer)?;
        place = place.after(step, answer);
    }
    Ok(())
}

/// Appends the line of a step in its place.
fn write_answer<A: Allocator + Copy>(
    out: &mut String<A>,
    place: &Place,
    handed: &[Handed<A>],
    step: &Step<A>,
    answer: &Answer,
) -> Result<(), OutOfMemory>
    ensures { OnOk result ((before : List Answered) → IsAfter before place.now →
        string_bytes out.new ≡ string_bytes out.old ++ line_of (map handed_view handed.now) before
        (record { step = step_view step.now; answer = answer_view answer.now })) }
{
    match step {
        Step::Start { .. } => write_start(out, place.starts, answer),
        Step::Call { span, call } if call.is_end() => write_end(out, *span, answer),
        Step::Call { span, .. } => write_call(out, *span, answer),
        Step::Flush => Ok(writeln!(out, "flush")?),
        Step::Shutdown => Ok(writeln!(out, "shutdown")?),
        Step::Take { .. } => write_take(out, answer),
        Step::Encode => write_encode(out, answer),
        Step::Attempt { .. } => write_attempt(out, body_at(handed, place.sent), answer),
        Step::Reply { .. } => write_reply(out, answer),
    }
}

/// The body of the attempt in this place among those that were handed over, or no bytes.
fn body_at<A: Allocator>(handed: &[Handed<A>], place: usize) -> &[u8]
    ensures { result.now ≡ body_of (slice_get (map handed_view handed.now) place) }
{
    match handed.get(place) {
        Some(one) => one.body.as_slice(),
        None => &[],
    }
}
