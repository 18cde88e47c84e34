//! The script of `trace-script`: what to do, read from bytes (profile).
//!
//! Lines end with a line feed, which the last may lack; empty ones are skipped. The others are
//! words with one space between them:
//!
//! | Line | Meaning |
//! |---|---|
//! | `words W ..` | adds words to the generator of identifiers, each of 16 hexadecimal digits |
//! | `sampler on`, `off` or `parent` | names the sampler, once at most |
//! | `limits A E L EA LA V` | sets the limits of spans, once at most |
//! | `desk Q B D` | sets the sizes and the delay of the batch processor, once at most |
//! | `max N` | how many bytes a body may have |
//! | `resource KEY VALUE` | sets an attribute of the resource |
//! | `scope N NAME VERSION SCHEMA` | the next scope, whose number is N |
//! | `sattr N KEY VALUE` | sets an attribute of scope N |
//! | `answer OUTCOME` | what comes of the next attempt to send a batch |
//! | `start SCOPE PARENT KIND AT NAME` | starts a span |
//! | `attr N KEY VALUE` | sets an attribute of a span |
//! | `event N AT NAME PAIRS` | adds an event |
//! | `exception N AT TYPE MESSAGE STACK PAIRS` | records an exception |
//! | `link N TRACE SPAN FLAGS STATE PAIRS` | adds a link, whose context isn't remote |
//! | `status N unset`, `ok` or `error TEXT` | sets the status |
//! | `name N TEXT` | gives the span another name |
//! | `end N AT` | ends a span |
//! | `flush`, `shutdown` | asks for the spans that wait, and closes the queue after them |
//! | `take AT` | takes the next batch, if it is due |
//! | `encode` | encodes the batch that was taken |
//! | `attempt AT` | hands it to the exporter |
//! | `reply AT WORD` | judges what came of that |
//!
//! The first eight are settings, which come before the first step; an `answer` may be anywhere,
//! and all others are steps. Limits are numbers of attributes, events and links of a span, of
//! attributes of an event and of a link, and the length of a text in characters, or `none`. Q is
//! how many spans may wait, 1 to 65,536, B how many a batch may have, 1 to Q, and D the delay in
//! milliseconds. Scopes are numbered from 0 in their order, and an attribute comes after the
//! scope that it is set on. OUTCOME is `delivered`, `partial N`, which is how many spans were
//! rejected, `refused STATUS`, which is a status of HTTP, or `bad`. In a step N is the number of a
//! span: they are numbered from 0 by their starts. AT is a moment, and WORD a random number. PARENT
//! is `root`, the number of a span, or `remote:TRACE:SPAN:FLAGS:STATE`, or `local:` likewise: 32,
//! 16 and 2 hexadecimal digits of either case and a text, which a further colon belongs to. KIND is
//! `internal`, `server`, `client`, `producer` or `consumer`. PAIRS is any number of `KEY VALUE`.
//!
//! In a text `%` and two hexadecimal digits are that byte, `%` alone is the empty text, other bytes
//! stand for themselves, and the whole is UTF-8. Numbers are decimal digits; moments, random
//! numbers and the greatest body have 64 bits, how many were rejected 64 with a sign, limits, the
//! delay and numbers of spans and scopes 32, and a status 16. A value is `t:TEXT`, `b:true`,
//! `b:false`, `i:NUMBER`, a whole number of 64 bits that may begin with `-`, or an array `T:`, `B:`
//! or `I:` of these, with commas between them; a comma in such a text is `%2c`.

ghost use Rattle.std.specs.Prelude.{IfErr, IfOk};
ghost use Rattle.span_ring.specs.SpanRing.{IsRingSize};
ghost use Rattle.trace_script.specs.Scripts.{Script as ScriptRead, script_read};
ghost use Rattle.trace_script.specs.Drafts.{Holds};
ghost use Rattle.trace_script.specs.Parsed.{Means, Parses, TellsLine};

use crate::draft::Draft;
use crate::sampler::SamplerName;
use crate::scope::finished_scopes;
use batch_desk::DeskConfig;
use otlp_ids::OutOfMemory;
use otlp_span::{Scope, SpanLimits};
use otlp_value::Value;
use retry_core::Outcome;
use std::alloc::{Allocator, Global};
use text_words::{WordFault, parts_of};
use thiserror::Error;
use trace_run::Step;

/// What to do, as a text says it.
#[derive(Debug, Drop)]
pub struct Script<A: Allocator = Global> {
    /// The words of the generator of identifiers, in order. After the last one all are 0.
    pub words: Vec<u64, A>,
    /// The sampler of all spans: `AlwaysOn` where none is named.
    pub sampler: SamplerName,
    /// The limits of all spans: the standard's where none are set.
    pub limits: SpanLimits,
    /// How much waits, and when a batch is taken: the standard's numbers where none are set. The
    /// queue has 1 to 65,536 places, and a batch at most as many (profile).
    pub desk: DeskConfig,
    /// The greatest body in bytes, where one is set.
    pub max_body: Option<usize>,
    /// The attributes of the resource, with distinct keys, in the order in which these were first
    /// set.
    pub resource: Vec<(String<A>, Value<A>), A>,
    /// The scopes, under their numbers. Their attributes have distinct keys too, in the order in
    /// which these were first set.
    pub scopes: Vec<Scope<A>, A>,
    /// What comes of the attempts to send a batch, in order.
    pub outcomes: Vec<Outcome, A>,
    /// The steps, in order.
    pub steps: Vec<Step<A>, A>,
}

/// Why a text is no script.
#[derive(Debug, Clone, Copy, PartialEq, Eq, Error)]
pub enum ScriptError {
    /// The line with this number is the first bad one. All lines count, empty ones too, from 1 on.
    #[error("line {0}: bad script")]
    BadLine(u64),
    /// Memory was refused.
    #[error("out of memory")]
    OutOfMemory,
}

impl From<OutOfMemory> for ScriptError {
    ghost use Rattle.std.specs.Prelude.{◌≡◌};
    ghost use Rattle.trace_script.specs.declared.parse.ScriptError.TheVariants.{OutOfMemory};

    ghost from_gives = { λ _ error. error ≡ OutOfMemory };

    fn from(_: OutOfMemory) -> ScriptError {
        ScriptError::OutOfMemory
    }
}

impl<A: Allocator + Copy> Script<A> {
    /// Reads a script.
    ///
    /// # Errors
    ///
    /// `BadLine` where a line is bad by itself or may not be where it does: a setting after a
    /// step, a second sampler, second limits, a second desk, a second greatest body, a scope with
    /// another number than the next, an attribute of a scope that doesn't come before it.
    /// `OutOfMemory` where memory was refused.
    pub fn parse(alloc: A, text: &[u8]) -> Result<Script<A>, ScriptError>
        // What the lines say, or the first bad one.
        ensures exact { Parses result (script_read text.now) }
        ensures numbered { IfErr result (TellsLine text.now) }
        // What a runner may count on.
        ensures sizes { IfOk result (λ script. IsRingSize script.desk.queue script.desk.batch) }
    {
        let Ok(lines) = parts_of(alloc, text, b'\n') else {
            return Err(ScriptError::OutOfMemory);
        };
        let mut draft = Draft::new(alloc);
        for (index, line) in lines.iter().enumerate() {
            match draft.add_line(alloc, line) {
                Ok(()) => {}
                Err(WordFault::Bad) => return Err(ScriptError::BadLine(index as u64 + 1)),
                Err(WordFault::OutOfMemory) => return Err(ScriptError::OutOfMemory),
            }
        }
        Ok(Script::from_draft(alloc, draft)?)
    }

    /// The script that a draft has become.
    fn from_draft(alloc: A, draft: Draft<A>) -> Result<Script<A>, OutOfMemory>
        ensures { IfOk result (λ script. (s : ScriptRead) → Holds draft s → Means script s) }
    {
        let Draft {
            words,
            sampler,
            limits,
            desk,
            max_body,
            resource,
            scopes,
            outcomes,
            steps,
        } = draft;
        Ok(Script {
            words,
            sampler: sampler.unwrap_or(SamplerName::AlwaysOn),
            limits: limits.unwrap_or_default(),
            desk: desk.unwrap_or_default(),
            max_body,
            resource: resource.into_pairs(),
            scopes: finished_scopes(alloc, scopes)?,
            outcomes,
            steps,
        })
    }
}
