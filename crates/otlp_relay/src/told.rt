//! What the thread that sends reports.

use crate::keeping::say_damaged;
use http_exporter::Failure;
use http_listener::{Complaint, Line};
use std::io::Write;

/// What the thread that sends reports, on lines of its own.
#[derive(Drop)]
pub(crate) struct Told<L> {
    log: L,
    // Of attempts after which a batch is sent again, or is lost.
    failed: Complaint,
    failures: u64,
    // Since when the collector refuses whatever it is sent, in milliseconds, where it does.
    refused_ms: Option<u64>,
    // Of names that could not be written.
    unwritten: Complaint,
    unwritten_rows: u64,
    // Of partial successes.
    partial: Complaint,
    partials: u64,
    // Of failures of the spool.
    spool: Complaint,
    spool_failures: u64,
    // Whether the last one has a line.
    is_spool_told: bool,
    // Of bodies that wait in the spool and have no room in memory.
    large: Complaint,
    large_bodies: u64,
}

impl<L> Told<L> {
    /// Nothing was reported. It writes to this writer.
    pub(crate) fn new(log: L) -> Told<L> {
        Told {
            log,
            failed: Complaint::new(),
            failures: 0,
            refused_ms: None,
            unwritten: Complaint::new(),
            unwritten_rows: 0,
            partial: Complaint::new(),
            partials: 0,
            spool: Complaint::new(),
            spool_failures: 0,
            is_spool_told: false,
            large: Complaint::new(),
            large_bodies: 0,
        }
    }
}

/// Writes that this happened, with the count since the last line where it isn't the first. A line
/// that can't be written is lost.
fn write_failure<L: Write>(log: &mut L, what: &str, why: &Failure, line: Line) {
    let _ = match line {
        Line::First => writeln!(log, "otlp-relay: {what}: {why}"),
        Line::Since(count) => {
            writeln!(
                log,
                "otlp-relay: {what}: {why}; {count} since the last line"
            )
        }
    };
}

impl<L: Write> Told<L> {
    /// A batch wasn't taken at this moment, in milliseconds.
    pub(crate) fn failed(&mut self, why: &Failure, now_ms: u64) {
        self.failures = self.failures.saturating_add(1);
        let line = self.failed.line(self.failures, now_ms);
        self.failed = self.failed.after(line, self.failures, now_ms);
        if let Some(line) = line {
            write_failure(&mut self.log, "a batch wasn't taken", why, line);
        }
    }

    /// The collector refuses whatever it is sent, at this moment, in milliseconds. That is said once,
    /// until it takes something.
    pub(crate) fn refuses(&mut self, why: &Failure, now_ms: u64) {
        if self.refused_ms.is_some() {
            return;
        }
        self.refused_ms = Some(now_ms);
        let _ = writeln!(
            self.log,
            "otlp-relay: the collector refuses whatever it is sent: {why}; nothing is lost by that, and \
            it is tried again until the collector takes it; see that --to and --header are right"
        );
    }

    /// The collector took a batch at this moment, in milliseconds. That is said where it refused
    /// whatever it was sent.
    pub(crate) fn takes_again(&mut self, now_ms: u64) {
        let Some(refused_ms) = self.refused_ms.take() else {
            return;
        };
        let seconds = now_ms.saturating_sub(refused_ms) / 1_000;
        let _ = writeln!(
            self.log,
            "otlp-relay: the collector takes what it is sent again, after {seconds} seconds"
        );
    }

    /// Names of lost spans could not be written, at this moment, in milliseconds.
    pub(crate) fn unwritten(&mut self, is_spooled: bool, now_ms: u64) {
        self.unwritten_rows = self.unwritten_rows.saturating_add(1);
        let line = self.unwritten.line(self.unwritten_rows, now_ms);
        self.unwritten = self.unwritten.after(line, self.unwritten_rows, now_ms);
        if line.is_none() {
            return;
        }
        let _ = if is_spooled {
            writeln!(
                self.log,
                "otlp-relay: names of lost spans can't be written; their bodies stay in the spool, and \
                nothing is sent until they are; see that the disk of --names has room"
            )
        } else {
            writeln!(
                self.log,
                "otlp-relay: names of lost spans can't be written; see that the disk of --names has room, and \
                that standard error is read"
            )
        };
    }

    /// A batch was taken but for some spans, at this moment, in milliseconds.
    pub(crate) fn partial(&mut self, why: &Failure, now_ms: u64) {
        self.partials = self.partials.saturating_add(1);
        let line = self.partial.line(self.partials, now_ms);
        self.partial = self.partial.after(line, self.partials, now_ms);
        if let Some(line) = line {
            write_failure(&mut self.log, "a batch was taken in part", why, line);
        }
    }

    /// The spool has failed at this moment, in milliseconds.
    pub(crate) fn spool_failed(&mut self, now_ms: u64) {
        self.spool_failures = self.spool_failures.saturating_add(1);
        let line = self.spool.line(self.spool_failures, now_ms);
        self.spool = self.spool.after(line, self.spool_failures, now_ms);
        self.is_spool_told = line.is_some();
        if self.is_spool_told {
            let _ = writeln!(
                self.log,
                "otlp-relay: the spool failed: its folder can't be read or written, or the disk is \
                full; posts are answered 503, and it is opened again each second"
            );
        }
    }

    /// The next body that waits in the spool had no room in memory at this moment, in milliseconds.
    pub(crate) fn large_body(&mut self, now_ms: u64) {
        self.large_bodies = self.large_bodies.saturating_add(1);
        let line = self.large.line(self.large_bodies, now_ms);
        self.large = self.large.after(line, self.large_bodies, now_ms);
        if line.is_some() {
            let _ = writeln!(
                self.log,
                "otlp-relay: a body that waits in the spool is larger than --memory-mb, so nothing is \
                sent; start with a larger one"
            );
        }
    }

    /// The spool is back. That is said where its failure was.
    pub(crate) fn spool_back(&mut self) {
        if self.is_spool_told {
            let _ = writeln!(self.log, "otlp-relay: the spool is back");
        }
        self.is_spool_told = false;
    }

    /// So many bytes of the spool can't be read.
    pub(crate) fn spool_damaged(&mut self, damaged_bytes: u64) {
        say_damaged(&mut self.log, damaged_bytes);
    }
}
