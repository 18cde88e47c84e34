//! What the lock guards: the exporter, the ledgers and counts.
ghost use Rattle.std.specs.Prelude.{◌≡◌, ◌+◌, ◌-◌, ◌^◌, ◌<◌, ◌∷◌, length, option_map, true};
ghost use Rattle.model_span.specs.Dropped.{entry_of};
ghost use Rattle.otlp_span.specs.Dropped.{entry_view, reason_view};
ghost use Rattle.otlp_proto.specs.Bodies.{reason_of};
ghost use Rattle.simple_processor.specs.ExportStates.{Answers, AreTotals, CountsOne, Pops, PopsLost};
ghost use Rattle.simple_processor.specs.ExportStates.{new_state};

use crate::processor::SimpleAccounts;
use crate::sender::Sender;
use batch_desk::{FateCounts, Totals, loss_reason};
use drop_ledger::{DropCounts, Ledger};
use otlp_proto::EncodeFault;
use otlp_span::{Entry, Reason, SpanData};
use span_exporter::Exporter;
use std::alloc::Allocator;
use std::marker::Model;
use trace_api::Ended;

/// What threads share, step by step: each call is one step.
#[derive(Drop)]
pub(crate) struct ExportState<E, A: Allocator> {
    exporter: E,
    sender: Sender<A>,
    // The names of dropped spans, and those of lost spans.
    ledger: Ledger<A>,
    lost: Ledger<A>,
    handed: u64,
    lost_count: u64,
    dropped: DropCounts,
    late: u64,
    closed: bool,
    fates: FateCounts,
}

impl<E, A: Allocator> Model for ExportState<E, A> {
    ghost use Rattle.batch_desk.specs.Views.{fate_counts_view};
    ghost use Rattle.simple_processor.specs.ExportStates.{AreCounts, ExportWith, IsOfEncodings};

    ghost Value = { ExportWith E };

    ghost view = { λ d. record {
      exporter = d.exporter;
      state = record {
        max_body = d.sender;
        ledger = d.ledger;
        lost = d.lost;
        handed = d.handed;
        lost_count = d.lost_count;
        encode_memory = d.dropped.encode_memory;
        too_large = d.dropped.too_large;
        late = d.late;
        closed = d.closed;
        fates = fate_counts_view d.fates;
      };
    } };

    ghost invariant = { λ d. AreCounts (record {
      max_body = d.sender;
      ledger = d.ledger;
      lost = d.lost;
      handed = d.handed;
      lost_count = d.lost_count;
      encode_memory = d.dropped.encode_memory;
      too_large = d.dropped.too_large;
      late = d.late;
      closed = d.closed;
      fates = fate_counts_view d.fates;
    }) × IsOfEncodings d.dropped };
}

impl<E: Exporter, A: Allocator + Copy> ExportState<E, A> {
    /// What a processor of this exporter begins with.
    pub(crate) fn new(exporter: E, sender: Sender<A>) -> ExportState<E, A>
        ensures { result ≡ record { exporter = exporter; state = new_state sender } }
    {
        ExportState {
            exporter,
            sender,
            ledger: Ledger::new(),
            lost: Ledger::new(),
            handed: 0,
            lost_count: 0,
            dropped: DropCounts::new(),
            late: 0,
            closed: false,
            fates: FateCounts::new(),
        }
    }

    /// Takes a span that has ended, under the next ticket, and hands it to the exporter alone.
    /// Where it has no body, the ledger names it, and where its attempt failed, the second one
    /// does. After a shutdown it is only counted. Where the next ticket would be 2^64 - 1, the
    /// export closes as by a shutdown.
    pub(crate) fn admit(&mut self, mut span: SpanData<A>) -> Ended
        ensures { Answers (E.handed self.old.exporter) (E.handed self.new.exporter)
            self.old.state span result self.new.state }
    {
        if self.closed {
            self.late = self.late.saturating_add(1);
            return Ended::Late;
        }
        let ticket = self.handed + (self.dropped.encode_memory + self.dropped.too_large);
        self.closed = ticket + 1 == u64::MAX;
        span.set_ticket(ticket);
        let (span, sent) = self.sender.send(span, &mut self.exporter);
        match sent {
            Ok(fate) => {
                self.fates.add(fate);
                self.handed += 1;
                if let Some(reason) = loss_reason(fate) {
                    name(&mut self.lost, span, reason);
                    self.lost_count += 1;
                }
                Ended::Handed(ticket)
            }
            Err(fault) => {
                let reason = fault.reason();
                name(&mut self.ledger, span, reason);
                count_one(&mut self.dropped, &fault);
                Ended::Dropped(ticket, reason)
            }
        }
    }

    /// No span is admitted any more.
    pub(crate) fn shutdown(&mut self)
        ensures exporter { self.new.exporter ≡ self.old.exporter }
        ensures state { self.new.state ≡ record self.old.state { closed = true } }
    {
        self.closed = true;
    }

    /// Takes the newest entry out of the ledger, if there is one.
    pub(crate) fn pop_entry(&mut self) -> Option<Entry>
        ensures exporter { self.new.exporter ≡ self.old.exporter }
        ensures state { Pops self.old.state (option_map entry_view result) self.new.state }
    {
        self.ledger.pop()
    }

    /// Takes the newest entry out of the ledger of lost spans, if there is one.
    pub(crate) fn pop_lost(&mut self) -> Option<Entry>
        ensures exporter { self.new.exporter ≡ self.old.exporter }
        ensures state { PopsLost self.old.state (option_map entry_view result) self.new.state }
    {
        self.lost.pop()
    }

    /// The exporter, the counts and the ledgers.
    pub(crate) fn into_accounts(self) -> SimpleAccounts<E, A>
        ensures exporter { result.exporter ≡ self.exporter }
        ensures ledger { result.ledger ≡ self.state.ledger }
        ensures lost { result.lost ≡ self.state.lost }
        ensures totals { AreTotals result.totals self.state }
    {
        let ExportState {
            exporter,
            sender: _,
            ledger,
            lost,
            handed,
            lost_count,
            dropped,
            late,
            closed,
            fates,
        } = self;
        let totals = Totals {
            accepted: handed,
            taken: handed,
            handed,
            lost: lost_count,
            left: 0,
            late,
            dropped,
            fates,
            closed,
        };
        SimpleAccounts {
            exporter,
            totals,
            ledger,
            lost,
        }
    }
}

/// Names a span on a ledger, and frees all else of it.
fn name<A: Allocator>(ledger: &mut Ledger<A>, span: SpanData<A>, reason: Reason)
    requires { length ledger.old < 2 ^ 64 - 1 }
    ensures { ledger.new ≡ entry_of (reason_view reason) span ∷ ledger.old }
{
    let entry = span.entry(reason);
    ledger.push(span.into_slip(), entry);
}

/// Counts one more span that has no body.
fn count_one(dropped: &mut DropCounts, fault: &EncodeFault)
    requires { dropped.old.encode_memory + dropped.old.too_large < 2 ^ 64 - 1 }
    ensures { CountsOne (reason_view (reason_of fault.now)) dropped.old dropped.new }
{
    dropped.add(fault.reason(), 1);
}
