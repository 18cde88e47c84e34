//! What a program's steps and their answers say of its spans, and how often each thing came.
use otlp_ids::SpanId;
use otlp_span::{Reason, SpanCall};
use retry_core::{Cause, Next, Outcome};
use std::alloc::{Allocator, Global};
use std::process::Abort;
use trace_api::Ended;
use trace_run::{Answer, Parent, Step};

/// What is to happen in some of the runs.
#[derive(Clone, Copy)]
pub(crate) enum Event {
    RunRefused,
    StartRefused,
    EncodeRefused,
    CallRefused,
    NoWords,
    NoSpan,
    QueueFull,
    Late,
    TooLarge,
    Abandoned,
    BatchAbandoned,
    LeftInQueue,
    Delivered,
    Partial,
    Later,
    NoReply,
    Refused,
    Bad,
    Early,
    Again,
    Attempts,
    LostRefused,
    LostBadReply,
    FailedWire,
    LostReply,
    Unreceived,
}

/// How many kinds of events there are.
pub(crate) const EVENTS: usize = 26;

/// The seed of the run that is under way, and how often each event came in all of them.
#[derive(Drop)]
pub(crate) struct Runs {
    pub(crate) seed: u64,
    pub(crate) counts: [u32; EVENTS],
}

impl Runs {
    /// Counts an event where it came.
    pub(crate) fn count_if(&mut self, has_come: bool, event: Event) {
        if let Some(count) = self.counts.get_mut(event as usize) {
            *count = count.saturating_add(u32::from(has_come));
        }
    }
}

/// What an outcome is counted as.
fn outcome_event(outcome: Outcome) -> Event {
    match outcome {
        Outcome::Delivered => Event::Delivered,
        Outcome::Partial(_) => Event::Partial,
        Outcome::Later { .. } => Event::Later,
        Outcome::NoReply => Event::NoReply,
        Outcome::Refused(_) => Event::Refused,
        Outcome::Bad => Event::Bad,
    }
}

/// What the answer to a step is counted as, if it is.
fn event_of<A: Allocator>(step: &Step<A>, answer: &Answer) -> Option<Event> {
    match answer {
        Answer::OutOfMemory => Some(match step {
            Step::Start { .. } => Event::StartRefused,
            _ => Event::CallRefused,
        }),
        Answer::NoRandomness => Some(Event::NoWords),
        Answer::NoSpan => Some(Event::NoSpan),
        Answer::Ended(Ended::Dropped(_, _)) => Some(Event::QueueFull),
        Answer::Ended(Ended::Late) => Some(Event::Late),
        Answer::Dropped { reason, .. } => Some(match reason {
            Reason::TooLarge => Event::TooLarge,
            _ => Event::EncodeRefused,
        }),
        Answer::Sent { outcome, .. } => Some(outcome_event(*outcome)),
        Answer::Early => Some(Event::Early),
        Answer::Replied { next, .. } => match next {
            Next::Again(_) => Some(Event::Again),
            Next::GiveUp(Cause::Attempts) => Some(Event::Attempts),
            Next::GiveUp(Cause::Refused(_)) => Some(Event::LostRefused),
            Next::GiveUp(Cause::BadReply) => Some(Event::LostBadReply),
            _ => None,
        },
        _ => None,
    }
}

/// Why the spans of a batch are lost after whose last reply this follows, if they are.
fn lost_by(next: Next) -> Option<Reason> {
    match next {
        Next::Done | Next::Partial(_) | Next::Again(_) => None,
        Next::GiveUp(Cause::Refused(status)) => Some(Reason::Refused(status)),
        Next::GiveUp(Cause::BadReply) => Some(Reason::BadReply),
        Next::GiveUp(Cause::Attempts) => Some(Reason::GivenUp),
    }
}

/// A span that was asked for, as the steps and their answers say.
#[derive(Clone, Copy)]
struct Asked {
    span: SpanId,
    is_sampled: bool,
    has_ended: bool,
}

/// What a program's steps and their answers say of its spans.
#[derive(Drop)]
pub(crate) struct Book {
    asked: Vec<Asked>,
    /// The sampled spans that ended before a shutdown.
    pub(crate) ended: Vec<u64>,
    /// The batches that were handed and came to nothing, the oldest first, and why.
    pub(crate) lost: Vec<(u64, Reason)>,
    is_closed: bool,
}

impl Book {
    pub(crate) fn new(alloc: Global) -> Book {
        Book {
            asked: Vec::new(alloc),
            ended: Vec::new(alloc),
            lost: Vec::new(alloc),
            is_closed: false,
        }
    }

    /// Whether a span with this parent is sampled.
    fn is_sampled<A: Allocator>(&self, parent: &Parent<A>) -> bool {
        match parent {
            Parent::Root => true,
            Parent::Given(context) => context.flags.0 % 2 == 1,
            Parent::Span(number) => match self.asked.get(*number as usize) {
                Some(asked) => asked.is_sampled,
                None => false,
            },
        }
    }

    fn start<A: Allocator>(&mut self, rt: &impl Abort, parent: &Parent<A>, answer: &Answer) {
        let mut asked = Asked {
            span: SpanId([0; 8]),
            is_sampled: false,
            has_ended: false,
        };
        if let Answer::Started { span, .. } = answer {
            asked.span = *span;
            asked.is_sampled = self.is_sampled(parent);
        }
        self.asked.push(asked).expect(rt, "memory");
    }

    /// The first end of a span: if it is sampled, and there was no shutdown, it is kept.
    fn end(&mut self, rt: &impl Abort, number: u32) {
        let Some(asked) = self.asked.get_mut(number as usize) else {
            return;
        };
        let counts = asked.is_sampled && !asked.has_ended && !self.is_closed;
        asked.has_ended = true;
        let span = u64::from_be_bytes(asked.span.0);
        if counts {
            self.ended.push(span).expect(rt, "memory");
        }
    }

    /// What a step says.
    fn take_step<A: Allocator>(&mut self, rt: &impl Abort, step: &Step<A>, answer: &Answer) {
        match step {
            Step::Start { parent, .. } => self.start(rt, parent, answer),
            Step::Call {
                span,
                call: SpanCall::End(_),
            } => self.end(rt, *span),
            Step::Shutdown => self.is_closed = true,
            _ => {}
        }
    }

    /// What an answer says of the batch that was handed.
    fn take_answer(&mut self, rt: &impl Abort, answer: &Answer) {
        let Answer::Replied { batch, next } = answer else {
            return;
        };
        if let Some(reason) = lost_by(*next) {
            self.lost.push((*batch, reason)).expect(rt, "memory");
        }
    }

    /// Reads steps and their answers, and counts the answers.
    pub(crate) fn read<A: Allocator>(
        &mut self,
        rt: &impl Abort,
        steps: &[Step<A>],
        answers: &[Answer],
        runs: &mut Runs,
    ) {
        for (step, answer) in steps.iter().zip(answers) {
            self.take_step(rt, step, answer);
            self.take_answer(rt, answer);
            if let Some(event) = event_of(step, answer) {
                runs.count_if(true, event);
            }
        }
    }
}
