//! A trace as OTLP's JSON has it, written in pieces.

ghost use Rattle.std.specs.Prelude.{◌≡◌, ◌+◌, ◌<◌, ℕ, true, false, List, [], ◌++◌, length};
ghost use Rattle.std.specs.Prelude.{IfOk, OnOk, OnErr, vec_len};
ghost use Rattle.json.specs.Lex.{tokens};
ghost use Rattle.json.specs.Print.{print};
ghost use Rattle.json.specs.Token.{Token};
ghost use Rattle.std.specs.Str.{IsUtf8};
ghost use Rattle.view_json.specs.Pieces.{IsJsonText, IsLeft, IsPieceBetween, StillWrites};
ghost use Rattle.view_json.specs.Pieces.{comma_if, is_end};
ghost use Rattle.otlp_json.specs.Seen.{seen};
ghost use Rattle.view_json.specs.Spans.{kept_seen, trace_seen};
ghost use Rattle.view_json.specs.declared.pieces.Stage.TheVariants as stages;

use crate::trace::push_resource_spans;
use json::Writer;
use std::alloc::{AllocError, Allocator, Global};
use std::sync::Arc;
use trace_store::ViewSpan;

/// A piece ends with the span with which it has so many bytes.
const PIECE: usize = 65_536;

/// The memory that is taken for a span at first, which most spans don't outgrow.
const OBJECT: usize = 2_048;

/// How far a trace is written.
#[derive(Clone, Copy)]
pub(crate) enum Stage {
    /// Nothing is.
    Head,
    /// What is before the spans, and so many spans.
    Spans(usize),
    /// All is.
    End,
}

/// Whether all is written.
fn is_end(stage: Stage) -> bool
    ensures { result ≡ is_end stage }
{
    match stage {
        Stage::Head | Stage::Spans(_) => false,
        Stage::End => true,
    }
}

/// Appends a comma, where a value has ended.
fn push_comma<A: Allocator>(out: &mut Vec<u8, A>, is_after: bool) -> Result<(), AllocError>
    ensures { OnOk result (out.new.items ≡ out.old.items ++ comma_if is_after) }
{
    if is_after {
        out.push(b',')?;
    }
    Ok(())
}

/// A span under its resource and its scope.
fn object_of<A: Allocator + Copy>(
    alloc: A,
    kept: &Arc<ViewSpan<A>, A>,
) -> Result<Vec<u8, A>, AllocError>
    ensures { IfOk result (λ text. (object : List Token) × (text.items ≡ print object)
        × (tokens (print object) ≡ object) × (seen object ≡ kept_seen kept.now)
        × IsUtf8 (print object)) }
{
    let mut out = Writer::new(Vec::with_capacity(alloc, OBJECT)?);
    push_resource_spans(alloc, &mut out, &kept.resource, &kept.scope, &kept.span)?;
    Ok(out.into_inner())
}

/// Appends the span at a place, with the comma before it.
fn push_span<A: Allocator + Copy>(
    alloc: A,
    out: &mut Vec<u8, A>,
    spans: &[Arc<ViewSpan<A>, A>],
    at: usize,
) -> Result<(), AllocError>
    requires { at < length spans.now }
    ensures piece { OnOk result ((piece : List ℕ) × (out.new.items ≡ out.old.items ++ piece)
        × IsPieceBetween (IsLeft spans.now (stages.Spans at))
        (IsLeft spans.now (stages.Spans (at + 1))) piece) }
    ensures more { OnOk result (length out.old.items < length out.new.items) }
{
    let object = object_of(alloc, &spans[at])?;
    push_comma(out, at > 0)?;
    out.extend_from_slice(&object)?;
    Ok(())
}

/// The spans from a place on, at least that one, until the text has `PIECE` bytes or there are no
/// more. Answers the place with which to go on.
fn spans_from<A: Allocator + Copy>(
    alloc: A,
    spans: &[Arc<ViewSpan<A>, A>],
    from: usize,
) -> Result<(Vec<u8, A>, usize), AllocError>
    requires { from < length spans.now }
    ensures piece { IfOk result (λ p. IsPieceBetween (IsLeft spans.now (stages.Spans from))
        (IsLeft spans.now (stages.Spans p.1)) p.0.items) }
    ensures more { IfOk result (λ p. 0 < length p.0.items) }
{
    let mut text = Vec::new(alloc);
    push_span(alloc, &mut text, spans, from)?;
    let mut at = from + 1;
    while at < spans.len() {
        if text.len() >= PIECE {
            return Ok((text, at));
        }
        push_span(alloc, &mut text, spans, at)?;
        at += 1;
    }
    Ok((text, at))
}

/// The spans of a trace as OTLP's JSON has them (opentelemetry-proto, trace_service.proto:
/// ExportTraceServiceRequest; "JSON Protobuf Encoding"): names in lowerCamelCase, identifiers in
/// hexadecimal, numbers of 64 bits as texts, kinds and codes as numbers, and bytes in Base64. A
/// double that is no number or infinite is the text `NaN`, `Infinity` or `-Infinity`. Each span is
/// under a resource and a scope of its own, in the order of the list, and each member is written,
/// also where it has its default, but for one: where the value of a pair is empty, the pair has no
/// member `value` (profile).
///
/// An attribute's value that nests deeper than some 40 levels makes the text nest deeper than the
/// 128 levels that many readers of JSON take.
///
/// It owns its spans together with others, and is written in pieces, so that other work may be done
/// between them. All pieces, one after another, are the text.
#[derive(Drop)]
pub struct TraceJson<A: Allocator + Copy = Global> {
    alloc: A,
    spans: Vec<Arc<ViewSpan<A>, A>, A>,
    stage: Stage,
}

impl<A: Allocator + Copy> TraceJson<A> {
    /// The JSON of these spans, of which nothing is written. Each text that it may still write is
    /// read as exactly these spans.
    pub fn new(alloc: A, spans: Vec<Arc<ViewSpan<A>, A>, A>) -> TraceJson<A>
        ensures json { (text : List ℕ) → StillWrites result text
            → seen (tokens text) ≡ trace_seen spans.items }
        ensures text { (text : List ℕ) → StillWrites result text
            → IsJsonText false (trace_seen spans.items) text }
    {
        TraceJson {
            alloc,
            spans,
            stage: Stage::Head,
        }
    }

    /// The next piece, and how far the trace is written with it.
    fn piece(&self) -> Result<(Vec<u8, A>, Stage), AllocError>
        ensures piece { IfOk result (λ p. IsPieceBetween (StillWrites self.now)
            (IsLeft self.now.spans.items p.1) p.0.items) }
        ensures more { IfOk result (λ p. is_end p.1 ≡ false → 0 < length p.0.items) }
    {
        let spans: &[Arc<ViewSpan<A>, A>] = &self.spans;
        match self.stage {
            Stage::Head => {
                let text = Vec::from_slice(self.alloc, b"{\"resourceSpans\":[")?;
                Ok((text, Stage::Spans(0)))
            }
            Stage::Spans(at) if at < spans.len() => {
                let (text, next) = spans_from(self.alloc, spans, at)?;
                Ok((text, Stage::Spans(next)))
            }
            Stage::Spans(_) => {
                let text = Vec::from_slice(self.alloc, b"]}")?;
                Ok((text, Stage::End))
            }
            Stage::End => Ok((Vec::new(self.alloc), Stage::End)),
        }
    }

    /// Appends the next piece of the text, of some 64 KiB and at most one span more. Answers
    /// whether more follow.
    ///
    /// # Errors
    ///
    /// `AllocError` where the piece could not be stored. Nothing was appended, and the same piece
    /// is the next one.
    pub fn next(&mut self, out: &mut Vec<u8, A>) -> Result<bool, AllocError>
        ensures piece { OnOk result ((piece : List ℕ) × (out.new.items ≡ out.old.items ++ piece)
            × IsPieceBetween (StillWrites self.old) (StillWrites self.new) piece) }
        ensures more { IfOk result (λ more. more ≡ true → vec_len out.old < vec_len out.new) }
        ensures end { IfOk result (λ more. more ≡ false → StillWrites self.new []) }
        ensures err { OnErr result ((out.new.items ≡ out.old.items) × (self.new ≡ self.old)) }
    {
        let (text, stage) = self.piece()?;
        out.extend_from_slice(&text)?;
        self.stage = stage;
        Ok(!is_end(stage))
    }
}
