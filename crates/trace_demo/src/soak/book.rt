//! What both sides of the links note in a round, and which spans are named.
use crate::soak::ATTEMPTS;
use crate::soak::balance::Found;
use crate::soak::course::{COURSES, Course};
use crate::soak::losses::Loss;
use otlp_read::{Request, Span, read_request};
use otlp_span::Reason;
use retry_core::Outcome;
use std::alloc::{AllocError, Global};
use std::mem;

/// A body that the collector kept: the text of its request, and the numbers of its spans.
#[derive(Drop)]
struct Kept {
    text: Vec<u8>,
    spans: Vec<u64>,
}

/// What the exporter's side of the link reports of an attempt.
#[derive(Clone, Copy)]
pub(crate) struct Attempt<'a> {
    /// Which attempt of its batch it is, from 1 on.
    pub(crate) number: u32,
    /// The body that was to be sent.
    pub(crate) body: &'a [u8],
    /// What became of the attempt.
    pub(crate) course: Course,
    /// Whether the collector had the whole request.
    pub(crate) is_whole: bool,
    /// What came of it, as the exporter reports it.
    pub(crate) outcome: Outcome,
}

/// What both sides of the links noted in a round, and the names of spans that weren't delivered.
#[derive(Drop)]
pub(crate) struct Book {
    alloc: Global,
    kept: Vec<Kept>,
    /// Where spans were found.
    pub(crate) found: Found,
    /// The spans that have to be named as lost, each with the reason.
    pub(crate) to_lose: Vec<Loss>,
    /// Of how many of these the collector has the body all the same.
    pub(crate) lost_kept: u64,
    /// How many attempts were of each kind of course.
    pub(crate) courses: [u64; COURSES],
    /// How often a body was kept that had been kept before.
    pub(crate) repeats: u64,
    /// Whether each of those came with the same bytes.
    pub(crate) are_equal: bool,
    /// Whether each batch was kept whose last reply said that it was taken.
    pub(crate) are_delivered_kept: bool,
    /// Whether memory was refused to one of the sides, or for a name.
    pub(crate) is_short: bool,
}

impl Book {
    /// Of no attempt, and of no name.
    pub(crate) fn new(alloc: Global) -> Book {
        Book {
            alloc,
            kept: Vec::new(alloc),
            found: Found::new(alloc),
            to_lose: Vec::new(alloc),
            lost_kept: 0,
            courses: [0; COURSES],
            repeats: 0,
            are_equal: true,
            are_delivered_kept: true,
            is_short: false,
        }
    }

    /// What was noted since the last round. After it the book is that of no attempt, and of no
    /// name.
    pub(crate) fn take(&mut self) -> Book {
        let empty = Book::new(self.alloc);
        mem::replace(self, empty)
    }

    /// Notes the name of a dropped span, by its number.
    pub(crate) fn name_dropped(&mut self, number: u64) {
        self.is_short = self.found.dropped.push(number).is_err() || self.is_short;
    }

    /// Notes the name of a lost span.
    pub(crate) fn name_lost(&mut self, loss: Loss) {
        self.is_short = self.found.lost.push(loss).is_err() || self.is_short;
    }

    /// Whether so many names are noted, or memory for more was refused.
    pub(crate) fn has_names(&self, wanted: u64) -> bool {
        let named = (self.found.dropped.len() as u64).saturating_add(self.found.lost.len() as u64);
        self.is_short || named >= wanted
    }

    /// The collector keeps a body that came in this text. Bodies with the same first span are the
    /// same batch: it is kept once.
    pub(crate) fn keep(&mut self, text: &[u8], spans: Vec<u64>) -> Result<(), AllocError> {
        if let Some(kept) = find(self.kept.as_slice(), spans.first()) {
            self.repeats = self.repeats.saturating_add(1);
            self.are_equal = self.are_equal && kept.text.as_slice() == text;
            return Ok(());
        }
        let text = Vec::from_slice(self.alloc, text)?;
        self.kept.push(Kept { text, spans })?;
        Ok(())
    }

    /// The exporter's side notes an attempt. Where it is the last one of its batch, the spans of
    /// that are to be found by what came of it.
    pub(crate) fn note(&mut self, attempt: &Attempt<'_>) -> Result<(), AllocError> {
        if let Some(count) = self.courses.get_mut(attempt.course.place(attempt.is_whole)) {
            *count = count.saturating_add(1);
        }
        match attempt.outcome {
            Outcome::Delivered => self.deliver(attempt.body, true),
            Outcome::Partial(_) => self.deliver(attempt.body, false),
            Outcome::Refused(status) => self.lose(attempt.body, Reason::Refused(status)),
            Outcome::Bad => self.lose(attempt.body, Reason::BadReply),
            _ if attempt.number == ATTEMPTS => self.lose(attempt.body, Reason::GivenUp),
            _ => Ok(()),
        }
    }

    /// A batch with this body was taken, whole or but for some of its spans: these are those that
    /// the collector read in the body which it kept.
    fn deliver(&mut self, body: &[u8], is_whole: bool) -> Result<(), AllocError> {
        let (spans, is_kept) = self.spans_of(body)?;
        self.are_delivered_kept = self.are_delivered_kept && is_kept;
        if !is_kept {
            return Ok(());
        }
        if is_whole {
            self.found.delivered.extend_from_slice(&spans)
        } else {
            self.found.partial.extend_from_slice(&spans)
        }
    }

    /// A batch with this body is lost for this reason, whether the collector kept the body or not.
    fn lose(&mut self, body: &[u8], reason: Reason) -> Result<(), AllocError> {
        let (spans, is_kept) = self.spans_of(body)?;
        for number in &spans {
            let number = *number;
            self.to_lose.push(Loss { number, reason })?;
        }
        if is_kept {
            self.lost_kept = self.lost_kept.saturating_add(spans.len() as u64);
        }
        Ok(())
    }

    /// The spans of a batch with this body, and whether the collector kept it: those that it read
    /// then, and else those that were to be sent.
    fn spans_of(&self, body: &[u8]) -> Result<(Vec<u64>, bool), AllocError> {
        let sent = read_numbers(self.alloc, body)?;
        match find(self.kept.as_slice(), sent.first()) {
            Some(kept) => Ok((Vec::from_slice(self.alloc, kept.spans.as_slice())?, true)),
            None => Ok((sent, false)),
        }
    }
}

/// The body that was kept with this first span.
fn find<'a>(kept: &'a [Kept], first: Option<&u64>) -> Option<&'a Kept> {
    for one in kept {
        if one.spans.first() == first {
            return Some(one);
        }
    }
    None
}

/// The numbers of the spans of a body, none where it can't be read.
fn read_numbers(alloc: Global, body: &[u8]) -> Result<Vec<u64>, AllocError> {
    match read_request(alloc, body) {
        Ok(request) => numbers_of(alloc, &request),
        Err(_) => Ok(Vec::new(alloc)),
    }
}

/// The numbers of the spans of a request: each is the span's identifier.
pub(crate) fn numbers_of(alloc: Global, request: &Request) -> Result<Vec<u64>, AllocError> {
    let mut numbers = Vec::new(alloc);
    let triples = request.triples().map_err(|_| AllocError)?;
    for triple in &triples {
        numbers.push(number_of(triple.span))?;
    }
    Ok(numbers)
}

/// The identifier of a span, as a number.
fn number_of(span: &Span) -> u64 {
    let mut number = 0u64;
    for byte in &span.span_id {
        number = number.wrapping_shl(8) | u64::from(*byte);
    }
    number
}
