//! An exporter that counts what it is handed, and keeps nothing of it.
use crate::bodies::count_body;
use otlp_ids::OutOfMemory;
use retry_core::Outcome;
use span_exporter::Exporter;
use std::alloc::Allocator;

/// What was handed over: the attempts, and of the first attempt of each batch the resources, the
/// spans and the bytes.
#[derive(Clone, Copy)]
pub(crate) struct Sent {
    pub(crate) attempts: usize,
    pub(crate) resources: usize,
    pub(crate) spans: usize,
    pub(crate) bytes: usize,
}

impl Sent {
    pub(crate) const NONE: Sent = Sent {
        attempts: 0,
        resources: 0,
        spans: 0,
        bytes: 0,
    };

    /// All of it.
    pub(crate) fn sum(&self) -> (usize, usize, usize, usize) {
        (self.attempts, self.resources, self.spans, self.bytes)
    }

    /// Counts an attempt. A body that can't be read has no span.
    pub(crate) fn count<A: Allocator + Copy>(&mut self, alloc: A, attempt: u32, body: &[u8]) {
        self.attempts = self.attempts.saturating_add(1);
        if attempt == 1 {
            let (resources, spans) = count_body(alloc, body).unwrap_or((0, 0));
            self.resources = self.resources.saturating_add(resources);
            self.spans = self.spans.saturating_add(spans);
            self.bytes = self.bytes.saturating_add(body.len());
        }
    }
}

/// An exporter whose attempts have these outcomes, and then are all delivered. The room that is
/// made for a body is taken of scarce memory, and given back at once.
#[derive(Drop)]
pub(crate) struct Collector<'a, A: Allocator> {
    pub(crate) ample: A,
    pub(crate) scarce: A,
    pub(crate) outcomes: &'a [Outcome],
    pub(crate) sent: Sent,
}

impl<'a, A: Allocator + Copy> Exporter for Collector<'a, A> {
    ghost use Rattle.std.specs.Prelude.{◌^◌, None};

    ghost handed = { λ _. None };

    ghost room = { λ _ _. 2 ^ 32 };

    fn prepare(&mut self, size: usize, _attempts: u32) -> Result<(), OutOfMemory> {
        Vec::<u8, A>::with_capacity(self.scarce, size)?;
        Ok(())
    }

    fn export(&mut self, _number: u64, attempt: u32, body: &[u8]) -> Outcome {
        let outcome = self.outcomes.get(self.sent.attempts).copied();
        self.sent.count(self.ample, attempt, body);
        outcome.unwrap_or(Outcome::Delivered)
    }
}
