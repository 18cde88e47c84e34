//! An exporter that posts each body over a wire of its own, which may fail, and what the far side
//! of these wires received.
use crate::tests::random_programs::{below, one_in};
use http_exporter::LinkExporter;
use otlp_http::{FailingCalls, FailingWire, FaultWrite, Target};
use otlp_ids::OutOfMemory;
use rand_core::Rng;
use rand_pcg::Pcg32;
use retry_core::Outcome;
use span_exporter::Exporter;
use std::alloc::{AllocError, Global};
use std::process::Abort;

/// Replies, of which most ask to be tried again or refuse.
const REPLIES: [&str; 10] = [
    "HTTP/1.1 200 OK\r\nContent-Length: 0\r\n\r\n",
    "HTTP/1.1 200 OK\r\nContent-Length: 0\r\n\r\n",
    "HTTP/1.1 200 OK\r\nContent-Length: 7\r\n\r\n\x0a\x05\x08\x02\x12\x01x",
    "HTTP/1.1 503 Busy\r\nRetry-After: 1\r\n\r\n",
    "HTTP/1.1 429 Slow\r\nContent-Length: 0\r\n\r\n",
    "HTTP/1.1 504 Late\r\n\r\n",
    "HTTP/1.1 400 Bad\r\nContent-Length: 2\r\n\r\nno",
    "HTTP/1.1 200 OK\r\nContent-Le",
    "no reply of HTTP",
    "",
];

/// An attempt, and what came of it.
#[derive(Drop)]
pub(crate) struct Attempt {
    /// The number of the batch.
    pub(crate) number: u64,
    pub(crate) body: Vec<u8>,
    /// What the far side took of the request: nothing where there was no wire.
    pub(crate) taken: Vec<u8>,
    pub(crate) outcome: Outcome,
    /// Whether the wire has failed.
    pub(crate) has_failed: bool,
}

impl Attempt {
    /// The body that the far side received, if the whole of it has come.
    pub(crate) fn received(&self) -> Option<&[u8]> {
        let (head, body) = split_at_blank(self.taken.as_slice())?;
        if content_length(head) == Some(body.len()) {
            Some(body)
        } else {
            None
        }
    }
}

/// What comes before the first blank line of a text, and what comes after it.
fn split_at_blank(text: &[u8]) -> Option<(&[u8], &[u8])> {
    for at in 0..text.len() {
        let after = text.get(at..)?;
        if after.starts_with(b"\r\n\r\n") {
            return Some((text.get(..at)?, after.get(4..)?));
        }
    }
    None
}

/// The length that a line of a head gives.
fn content_length(head: &[u8]) -> Option<usize> {
    let head = str::from_utf8(head).ok()?;
    for line in head.lines() {
        if let Some(digits) = line.strip_prefix("Content-Length: ") {
            return digits.parse::<usize>().ok();
        }
    }
    None
}

/// An exporter over wires that a seeded generator makes. It keeps its attempts.
#[derive(Drop)]
pub(crate) struct FarSide {
    alloc: Global,
    rng: Pcg32,
    posts: LinkExporter<()>,
    pub(crate) attempts: Vec<Attempt>,
    /// How many attempts weren't kept, for want of memory.
    pub(crate) lost: u32,
}

impl FarSide {
    pub(crate) fn new(rt: &impl Abort, alloc: Global, seed: u64) -> FarSide {
        let target = Target::new(alloc, "127.0.0.1", 4318, "/v1/traces").expect(rt, "a target");
        FarSide {
            alloc,
            rng: Pcg32::new(seed, 2),
            posts: LinkExporter::over(alloc, alloc, (), target),
            attempts: Vec::new(alloc),
            lost: 0,
        }
    }

    /// Which calls of a wire fail: none of half of them.
    fn failing(&mut self) -> FailingCalls {
        let calls = if one_in(&mut self.rng, 2) { 6 } else { 400 };
        let call = u64::from(below(&mut self.rng, calls));
        match below(&mut self.rng, 4) {
            0 => FailingCalls::Once(call),
            1 => FailingCalls::From(call),
            _ => FailingCalls::Never,
        }
    }

    /// Seldom none, and else a wire that gives some reply, so many bytes a call, and may fail.
    fn wire(&mut self) -> Option<FailingWire> {
        if one_in(&mut self.rng, 8) {
            return None;
        }
        let reply = REPLIES.get(below(&mut self.rng, 10) as usize)?;
        let input = Vec::from_slice(self.alloc, reply.as_bytes()).ok()?;
        let most = [1, 50, 65_536]
            .get(below(&mut self.rng, 3) as usize)
            .copied();
        let failing = self.failing();
        let output = Vec::new(self.alloc);
        Some(FailingWire::new(input, output, most?.max(1), failing))
    }

    /// Posts a body over a wire, if one is there: what was taken, what came of it, and whether the
    /// wire has failed.
    fn post(&mut self, body: &[u8]) -> Result<(Vec<u8>, Outcome, bool), AllocError> {
        let Some(mut wire) = self.wire() else {
            return Ok((Vec::new(self.alloc), Outcome::NoReply, false));
        };
        let outcome = self.posts.post(&mut wire, body);
        let taken = Vec::from_slice(self.alloc, wire.taken())?;
        Ok((taken, outcome, FaultWrite::failures(&wire) > 0))
    }

    /// Posts a body, and keeps the attempt.
    fn attempt(&mut self, number: u64, body: &[u8]) -> Result<Outcome, AllocError> {
        let (taken, outcome, has_failed) = self.post(body)?;
        let body = Vec::from_slice(self.alloc, body)?;
        self.attempts.push(Attempt {
            number,
            body,
            taken,
            outcome,
            has_failed,
        })?;
        Ok(outcome)
    }
}

impl Exporter for FarSide {
    ghost use Rattle.std.specs.Prelude.{◌^◌, None};

    ghost handed = { λ _. None };

    ghost room = { λ _ _. 2 ^ 32 };

    fn prepare(&mut self, _size: usize, _attempts: u32) -> Result<(), OutOfMemory> {
        Ok(())
    }

    fn export(&mut self, number: u64, _attempt: u32, body: &[u8]) -> Outcome {
        match self.attempt(number, body) {
            Ok(outcome) => outcome,
            Err(_) => {
                self.lost = self.lost.saturating_add(1);
                Outcome::NoReply
            }
        }
    }
}
