//! A desk as plain lists, to compare desks with.
use crate::tests::spans::name;
use batch_desk::{Admitted, DeskConfig, Totals};
use otlp_span::{Entry, Reason};
use retry_core::Fate;
use std::alloc::Global;
use std::process::Abort;

/// The number of each span.
pub(crate) const NUMBER: u64 = 7;

/// What a desk has. Spans are their tickets.
#[derive(Drop)]
pub(crate) struct Plain {
    config: DeskConfig,
    waiting: Vec<u64>,
    pub(crate) out: Vec<u64>,
    pub(crate) is_handed: bool,
    batches: u64,
    pub(crate) ledger: Vec<Entry>,
    pub(crate) lost: Vec<Entry>,
    next_ticket: u64,
    asked: u64,
    last_take: u64,
    pub(crate) totals: Totals,
}

impl Plain {
    pub(crate) fn new(alloc: Global, config: DeskConfig) -> Plain {
        Plain {
            config,
            waiting: Vec::new(alloc),
            out: Vec::new(alloc),
            is_handed: false,
            batches: 0,
            ledger: Vec::new(alloc),
            lost: Vec::new(alloc),
            next_ticket: 0,
            asked: 0,
            last_take: 0,
            totals: Totals::default(),
        }
    }

    pub(crate) fn admit(&mut self, rt: &impl Abort) -> Admitted {
        if self.totals.closed {
            add(&mut self.totals.late, 1);
            return Admitted::Late;
        }
        let ticket = self.next_ticket;
        add(&mut self.next_ticket, 1);
        if self.waiting.len() == self.config.queue {
            push_names(rt, &mut self.ledger, &[ticket], Reason::QueueFull);
            add(&mut self.totals.dropped.queue_full, 1);
            return Admitted::Full(ticket);
        }
        self.waiting.push(ticket).expect(rt, "memory");
        add(&mut self.totals.accepted, 1);
        add(&mut self.totals.left, 1);
        Admitted::Queued(ticket)
    }

    pub(crate) fn flush(&mut self) {
        self.asked = self.totals.accepted;
    }

    pub(crate) fn shutdown(&mut self) {
        self.flush();
        self.totals.closed = true;
    }

    pub(crate) fn is_due(&self, now: u64) -> bool {
        let delay = u64::from(self.config.delay_ms).saturating_mul(1_000_000);
        let is_full = self.waiting.len() >= self.config.batch;
        let is_asked = self.totals.taken < self.asked || self.totals.closed;
        let is_time = now >= self.last_take.saturating_add(delay);
        !self.waiting.is_empty() && (is_full || is_asked || is_time)
    }

    /// Takes the next batch, which is due; none is out.
    pub(crate) fn take(&mut self, rt: &impl Abort, now: u64) {
        let count = self.config.batch.min(self.waiting.len());
        for _ in 0..count {
            if !self.waiting.is_empty() {
                let ticket = self.waiting.remove(0);
                self.out.push(ticket).expect(rt, "memory");
            }
        }
        add(&mut self.totals.taken, count as u64);
        self.totals.left = self.waiting.len() as u64;
        self.is_handed = false;
        add(&mut self.batches, 1);
        self.last_take = now;
    }

    pub(crate) fn hand(&mut self) {
        self.is_handed = true;
        add(&mut self.totals.handed, self.out.len() as u64);
    }

    pub(crate) fn drop_batch(&mut self, rt: &impl Abort, reason: Reason) {
        let count = self.out.len() as u64;
        match reason {
            Reason::EncodeMemory => add(&mut self.totals.dropped.encode_memory, count),
            Reason::TooLarge => add(&mut self.totals.dropped.too_large, count),
            _ => add(&mut self.totals.dropped.abandoned, count),
        }
        push_names(rt, &mut self.ledger, self.out.as_slice(), reason);
        self.out.clear();
    }

    pub(crate) fn settle(&mut self, rt: &impl Abort, fate: Fate) {
        if let Some(reason) = lost_by(fate) {
            push_names(rt, &mut self.lost, self.out.as_slice(), reason);
            add(&mut self.totals.lost, self.out.len() as u64);
        }
        self.out.clear();
        let fates = &mut self.totals.fates;
        match fate {
            Fate::Delivered => add(&mut fates.delivered, 1),
            Fate::Partial(_) => add(&mut fates.partial, 1),
            Fate::Refused(_) => add(&mut fates.refused, 1),
            Fate::BadReply => add(&mut fates.bad_reply, 1),
            Fate::GivenUp => add(&mut fates.given_up, 1),
            Fate::Abandoned => add(&mut fates.abandoned, 1),
        }
    }

    /// The batch that is out, as a desk answers it.
    pub(crate) fn out_state(&self) -> Option<(u64, bool)> {
        (!self.out.is_empty()).then_some((self.batches, self.is_handed))
    }

    /// Whether none of the first so many accepted spans waits or is out.
    pub(crate) fn is_flushed(&self, mark: u64) -> bool {
        let ended = self.totals.taken.saturating_sub(self.out.len() as u64);
        ended >= mark || (self.totals.taken >= mark && self.out.is_empty())
    }
}

/// Adds the names of spans with these tickets.
fn push_names(rt: &impl Abort, names: &mut Vec<Entry>, tickets: &[u64], reason: Reason) {
    for ticket in tickets {
        let entry = Entry {
            ticket: *ticket,
            ..name(NUMBER, reason)
        };
        names.push(entry).expect(rt, "memory");
    }
}

/// Why the spans of a batch with this fate are lost, if they are.
fn lost_by(fate: Fate) -> Option<Reason> {
    match fate {
        Fate::Delivered => None,
        Fate::Partial(_) => None,
        Fate::Refused(status) => Some(Reason::Refused(status)),
        Fate::BadReply => Some(Reason::BadReply),
        Fate::GivenUp => Some(Reason::GivenUp),
        Fate::Abandoned => Some(Reason::LeftHanded),
    }
}

fn add(count: &mut u64, more: u64) {
    *count = count.saturating_add(more);
}
