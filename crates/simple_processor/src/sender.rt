//! Sends spans one at a time.
ghost use Rattle.std.specs.Prelude.{◌≡◌, ◌-◌, ◌^◌, ◌<◌, [], ◌∷◌, IfErr, IfOk, OnErr};
ghost use Rattle.model_export.specs.Export.{LacksBody};
ghost use Rattle.otlp_span.specs.Dropped.{reason_view};
ghost use Rattle.otlp_proto.specs.Bodies.{reason_of};
ghost use Rattle.retry_core.specs.Retries.{fate_view};
ghost use Rattle.simple_processor.specs.ExportStates.{IsSent};

use batch_sending::{Attempted, Judged, Sending};
use otlp_ids::OutOfMemory;
use otlp_proto::EncodeFault;
use otlp_span::SpanData;
use retry_core::{Fate, RetryConfig};
use span_exporter::Exporter;
use std::alloc::Allocator;
use std::marker::Model;

/// Sends spans one at a time. The place where a span lies meanwhile is there from the start on. In
/// contracts it is the greatest body, in bytes.
#[derive(Drop)]
pub(crate) struct Sender<A: Allocator> {
    place: Vec<SpanData<A>, A>,
    max_body: usize,
}

impl<A: Allocator> Model for Sender<A> {
    ghost use Rattle.std.specs.Prelude.{◌≡◌, ◌<◌, ℕ, [], vec_capacity};

    ghost Value = { ℕ };

    ghost view = { λ s. s.max_body };

    ghost invariant = { λ s. (s.place.items ≡ []) × (0 < vec_capacity s.place) };
}

impl<A: Allocator + Copy> Sender<A> {
    /// Takes the place of a span.
    pub(crate) fn new(alloc: A, max_body: usize) -> Result<Sender<A>, OutOfMemory>
        ensures { IfOk result (λ sender. sender ≡ max_body) }
    {
        let place = Vec::with_capacity(alloc, 1)?;
        Ok(Sender { place, max_body })
    }

    /// Encodes a span alone, and hands its body to the exporter, in its only attempt. The span comes
    /// back, with the fate of its body.
    pub(crate) fn send<E: Exporter>(
        &mut self,
        span: SpanData<A>,
        exporter: &mut E,
    ) -> (SpanData<A>, Result<Fate, EncodeFault>)
        requires { span.ticket < 2 ^ 64 - 1 }
        ensures same { self.new ≡ self.old }
        ensures span { result.0 ≡ span }
        ensures sent { IfOk result.1 (λ fate. IsSent self.old (E.handed exporter.old)
            (E.handed exporter.new) span (fate_view fate)) }
        ensures lacks { IfErr result.1 (λ fault.
            LacksBody self.old (span ∷ []) (reason_view (reason_of fault))) }
        ensures nothing_is_sent { OnErr result.1 (E.handed exporter.new ≡ E.handed exporter.old) }
    {
        let number = span.ticket() + 1;
        self.place.push_reserved(span);
        let prepared = Sending::prepare(
            *self.place.allocator(),
            number,
            self.place.as_slice(),
            RetryConfig::single_attempt(),
            self.max_body,
            exporter,
        );
        let span = self.place.pop().unwrap();
        let mut sending = match prepared {
            Ok(sending) => sending,
            Err(fault) => return (span, Err(fault)),
        };
        // There is one attempt, so neither a moment nor a random word counts.
        let Attempted::Sent { .. } = sending.attempt(exporter, 0) else {
            unreachable!();
        };
        let Judged::Over { fate, .. } = sending.judge(0, 0) else {
            unreachable!();
        };
        (span, Ok(fate))
    }
}
