//! The collector's side: the batches that came.

use otlp_read::{ReadFault, Request, read_request};
use otlp_serve::{PostReply, ReplyStatus, TakeBody};
use std::alloc::Global;
use std::collections::BTreeSet;

/// What distinct bodies carried.
///
/// A body is known by the identifiers of its first span: a span is in one batch, whose body is the
/// same at each attempt, so bodies with the same first span are the same body.
#[derive(Drop)]
pub(crate) struct Batches {
    alloc: Global,
    first_spans: BTreeSet<Vec<u8>>,
    /// How many spans they carried. `None` where memory was refused for one.
    spans: Option<u64>,
    /// How many bodies could be read.
    turn: u64,
}

impl Batches {
    /// Of no body.
    pub(crate) fn new(alloc: Global) -> Batches {
        Batches {
            alloc,
            first_spans: BTreeSet::new(alloc),
            spans: Some(0),
            turn: 0,
        }
    }

    /// How many spans they carried. `None` where memory was refused for one.
    pub(crate) fn spans(&self) -> Option<u64> {
        self.spans
    }

    /// How many spans they carry with this one. `None` where memory was refused for one.
    fn with(&mut self, request: &Request) -> Option<u64> {
        let spans = self.spans?;
        let triples = request.triples().ok()?;
        let Some(first) = triples.first() else {
            return Some(spans);
        };
        let mut name = Vec::from_slice(self.alloc, first.span.trace_id.as_slice()).ok()?;
        name.extend_from_slice(first.span.span_id.as_slice()).ok()?;
        if self.first_spans.insert(name).ok()? {
            return Some(spans.saturating_add(triples.len() as u64));
        }
        Some(spans)
    }
}

impl TakeBody for Batches {
    /// Keeps what a body carried, if it is a new one, whatever the reply is.
    fn take(&mut self, body: Vec<u8>) -> PostReply {
        let request = match read_request(self.alloc, &body) {
            Ok(request) => request,
            Err(ReadFault::OutOfMemory) => return PostReply::of(ReplyStatus::ServiceUnavailable),
            Err(_) => return PostReply::of(ReplyStatus::BadRequest),
        };
        self.spans = self.with(&request);
        let turn = self.turn;
        self.turn = turn.wrapping_add(1);
        reply_of(turn)
    }
}

/// The reply to the good body with this number, from 0 on: 200, 502, 429, 200 over and over. Who is
/// to try again may do so at once.
fn reply_of(turn: u64) -> PostReply {
    let status = match turn % 4 {
        1 => ReplyStatus::BadGateway,
        2 => ReplyStatus::TooManyRequests,
        _ => return PostReply::of(ReplyStatus::Ok),
    };
    PostReply {
        status,
        retry_after: Some(0),
    }
}
