//! What a run leaves.
ghost use Rattle.std.specs.Prelude.{◌≡◌, option_map};
ghost use Rattle.trace_run.specs.Report.{after_close};

use crate::Answer;
use crate::sending::BatchExport;
use batch_desk::{Batch, Desk};
use otlp_span::Reason;
use retry_core::Fate;
use std::alloc::{Allocator, Global};
use std::marker::Model;

/// What a run leaves: its answers, its queue with the ledger, and the batch that is out, if one is.
/// It isn't dropped: `close` ends that batch.
#[derive_where(Debug)]
pub struct RunReport<A: Allocator = Global> {
    pub(crate) answers: Vec<Answer, A>,
    pub(crate) desk: Desk<A>,
    pub(crate) out: Option<BatchExport<A>>,
}

impl<A: Allocator> Model for RunReport<A> {
    ghost use Rattle.trace_run.specs.Report.{Report};

    ghost Value = { Report };

    ghost view = { λ r. record { answers = r.answers.items; desk = r.desk; out = r.out } };

    ghost use Rattle.trace_run.specs.Out.{IsTied};

    ghost invariant = { λ r. IsTied r.desk r.out };
}

impl<A: Allocator> RunReport<A> {
    /// The answer to each step, in order.
    pub fn answers(&self) -> &[Answer]
        ensures { result.now ≡ self.now.answers }
    {
        self.answers.as_slice()
    }

    /// The queue, with the ledgers of dropped and of lost spans, and the counts.
    pub fn desk(&self) -> &Desk<A>
        ensures { result.now ≡ self.now.desk }
    {
        &self.desk
    }

    /// The batch that is out, if one is. `Desk::out` says whether it was handed to the exporter.
    pub fn out(&self) -> Option<&Batch<A>>
        ensures { option_map (λ batch. batch.now) result ≡ option_map (λ o. o.batch) self.now.out }
    {
        self.out.as_ref().map(|out| &out.batch)
    }

    /// Ends the batch that is out, if one is, since no step hands it on any more: it is settled as
    /// `Abandoned` where it was handed to the exporter, and the second ledger names its spans as
    /// `LeftHanded`; else it is dropped, and the ledger names its spans as `Abandoned`. Nothing
    /// else changes. (profile)
    pub fn close(self) -> Desk<A>
        ensures { result ≡ after_close self }
    {
        let RunReport {
            answers: _,
            mut desk,
            out,
        } = self;
        let Some(out) = out else {
            return desk;
        };
        let is_sent = out.is_sent();
        let BatchExport { batch, sending: _ } = out;
        if is_sent {
            desk.settle(batch, Fate::Abandoned);
        } else {
            desk.drop_batch(batch, Reason::Abandoned);
        }
        desk
    }
}
