//! What the spans of a run end in.
use batch_desk::{Admitted, Desk};
use otlp_span::{Reason, SpanData};
use std::alloc::Allocator;
use std::marker::Model;
use trace_api::{EndPass, Ended};

/// The queue of a run, as its spans see it when they end.
#[derive(Drop)]
pub(crate) struct SpanQueue<A: Allocator> {
    pub(crate) desk: Desk<A>,
}

impl<A: Allocator> Model for SpanQueue<A> {
    ghost use Rattle.model_desk.specs.Desks.{Desk};

    ghost Value = { Desk };

    ghost view = { λ q. q.desk };
}

impl<A: Allocator> EndPass<SpanData<A>> for SpanQueue<A> {
    ghost use Rattle.trace_run.specs.Queue.{Admits};

    ghost admits = { Admits };

    /// Queues the span, or drops it as `QueueFull` where as many wait as the queue holds. After a
    /// shutdown it is late.
    fn admit(&mut self, span: SpanData<A>) -> Ended {
        match self.desk.admit(span) {
            Admitted::Queued(ticket) => Ended::Queued(ticket),
            Admitted::Full(ticket) => Ended::Dropped(ticket, Reason::QueueFull),
            Admitted::Late => Ended::Late,
        }
    }
}
