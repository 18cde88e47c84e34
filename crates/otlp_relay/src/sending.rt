//! The thread that hands on what is kept.

use crate::course::{Course, Phase};
use crate::failure::Failure;
use crate::keeping::{Kept, Mender};
use crate::lost::LostNames;
use crate::moments::{now_ms, now_ns};
use crate::told::Told;
use http_exporter::ReportsFailure;
use relay_exporter::OutageExporter;
use relay_queue::Report;
use relay_store::{Naming, RelaySender, Tried};
use retry_core::Outcome;
use spool::SpoolError;
use std::fs::OpenFile;
use std::io::Write;
use std::random::RandomSource;
use std::sync::Wait;
use std::thread::{self, JoinHandle, Threads};
use std::time::{Clock, Duration};
use timely_log::{CountedLines, Log};

/// How long a step of a wait is at most, in milliseconds: a stop is seen after one.
const STEP_MS: u64 = 50;

/// A millisecond, in nanoseconds.
const MS: u64 = 1_000_000;

/// How long it is waited before names are written again that could not be, in milliseconds. (profile)
const BETWEEN_NAMES_MS: u64 = 1_000;

/// What the thread that sends has: what is kept, what takes batches from there, the exporter that
/// it hands them to, and what the names of lost spans are given to. Where it finds nothing to send,
/// or what is kept has just come, it waits for `linger_ms` milliseconds at most, until `enough`
/// bytes more are kept.
#[derive(Drop)]
pub(crate) struct Sending<J: Naming, R, E, N: Write + Drop, L: Log + Drop> {
    pub(crate) rt: R,
    pub(crate) kept: Kept<J>,
    pub(crate) sender: RelaySender<J>,
    pub(crate) exporter: OutageExporter<E, R>,
    pub(crate) names: LostNames<N, L>,
    pub(crate) told: Told<CountedLines<L>>,
    pub(crate) mender: Mender,
    pub(crate) course: Course,
    pub(crate) linger_ms: u64,
    pub(crate) enough: u64,
    // How many bodies had been received when a batch was looked for last, and how many bytes took
    // what was kept.
    pub(crate) received: u64,
    pub(crate) bytes: u64,
    // What was last noted of what is kept: how many requests in a row the collector refused, and how
    // many names are not written.
    pub(crate) refusals: u64,
    pub(crate) unwritten: u64,
    // How many of these were for a log that nobody reads: they are given no second time.
    pub(crate) unread: u64,
}

impl<J, R, E, N, L> Sending<J, R, E, N, L>
where
    J: Naming + Send + Sync + 'static,
    R: Threads + Wait + Clock + RandomSource + Copy + Send + 'static,
    E: ReportsFailure + Send + Drop + 'static,
    N: Write + OpenFile + Send + Drop + 'static,
    L: Log + Send + Drop + 'static,
{
    /// Starts the thread.
    pub(crate) fn start(mut self, rt: &R) -> Result<JoinHandle<()>, Failure> {
        match thread::spawn(rt, move || self.run()) {
            Ok(thread) => Ok(thread),
            Err(_) => Err(Failure::Thread),
        }
    }
}

/// A random word, or 0 where the system has none.
fn random_word<R: RandomSource>(rt: &R) -> u64 {
    let mut bytes = [0u8; 8];
    match rt.fill_bytes(&mut bytes) {
        Ok(()) => u64::from_le_bytes(bytes),
        Err(_) => 0,
    }
}

impl<J, R, E, N, L> Sending<J, R, E, N, L>
where
    J: Naming,
    R: Wait + Clock + RandomSource + Copy,
    E: ReportsFailure,
    N: Write + OpenFile + Drop,
    L: Log + Drop,
{
    /// Sends until the run is over, or no more posts are taken and nothing is left to send.
    fn run(&mut self) {
        let rt = self.rt;
        for _ in rt.forever() {
            if self.course.phase() == Phase::Over || !self.turn() {
                break;
            }
        }
        self.course.end();
    }

    /// Sends a batch, if there is one, or waits. Answers whether there may be more to do.
    fn turn(&mut self) -> bool {
        self.mend();
        // (where nothing is there later, nothing comes any more if posts were not taken at this moment)
        let phase = self.course.phase();
        match self.try_next() {
            Tried::Came(outcome) => {
                self.tell(outcome);
                self.judge();
                self.gather();
            }
            Tried::Unjudged => self.judge(),
            Tried::Unnamed => self.name_again(),
            Tried::Early(from) => self.wait_until(from),
            Tried::Nothing if phase != Phase::Serving => return false,
            Tried::Nothing => self.linger(),
            Tried::Failed(SpoolError::Full) => self.stay(),
            Tried::OutOfMemory | Tried::Failed(_) => self.pause(),
        }
        true
    }

    /// Waits before the same is tried again.
    fn pause(&mut self) {
        self.wait(self.linger_ms.max(STEP_MS));
    }

    /// Reports that the next body has no room in memory, so that nothing is sent, and waits.
    fn stay(&mut self) {
        let now = now_ms(&self.rt);
        self.told.large_body(now);
        self.pause();
    }

    /// What became of what was kept.
    fn report(&self) -> Report {
        self.kept.lock(&self.rt).report()
    }

    /// Looks at what is kept: whether there is nothing, and all names are written. It notes how many
    /// bodies were received until now. (A file of the spool is read only where something is kept.)
    fn finds_nothing(&mut self) -> bool {
        let report = self.report();
        self.received = report.bodies.received;
        self.bytes = report.waiting_bytes;
        report.bodies.kept == 0 && self.unwritten == 0
    }

    /// Hands the next batch to the exporter, unless the run is over: who ends it sees that a batch is
    /// with the exporter, or this thread sees that it is over.
    fn try_next(&mut self) -> Tried {
        self.course.set_sending(true);
        let tried = if self.course.phase() == Phase::Over || self.finds_nothing() {
            Tried::Nothing
        } else {
            let now = now_ns(&self.rt);
            self.sender
                .try_next(&self.rt, &self.kept, &mut self.exporter, now)
        };
        self.course.set_sending(false);
        tried
    }

    /// Judges the outcome of the last attempt.
    fn judge(&mut self) {
        let (now, word) = (now_ns(&self.rt), random_word(&self.rt));
        let _ = self
            .sender
            .finish(&self.rt, &self.kept, now, word, &mut self.names);
        self.note_unwritten();
    }

    /// Waits, and names what could not be named.
    fn name_again(&mut self) {
        self.wait(BETWEEN_NAMES_MS);
        let _ = self
            .sender
            .name_again(&self.rt, &self.kept, &mut self.names);
        self.note_unwritten();
    }

    /// Notes how many names are not written, and reports it where there are more of them. With a
    /// spool those that failed are given again, but for those for a log that nobody reads.
    fn note_unwritten(&mut self) {
        let failed = self.names.take_unwritten();
        let unread = self.names.take_unread();
        let is_spooled = self.mender.is_spooled();
        self.unread = self.unread.saturating_add(unread);
        let unwritten = if is_spooled {
            self.unread.saturating_add(failed)
        } else {
            self.unwritten.saturating_add(failed).saturating_add(unread)
        };
        if failed > 0 || unread > 0 {
            let now = now_ms(&self.rt);
            self.told.unwritten(is_spooled && failed > 0, now);
        }
        if unwritten != self.unwritten {
            self.unwritten = unwritten;
            self.kept.lock(&self.rt).set_unwritten(unwritten);
        }
    }

    /// Notes whether the collector refuses whatever it is sent.
    fn note_refusals(&mut self) {
        let refusals = self.exporter.refusals();
        if refusals != self.refusals {
            self.refusals = refusals;
            self.kept.lock(&self.rt).set_refusals(refusals);
        }
    }

    /// Reports an outcome that isn't a full success, and the first one that is after refusals.
    fn tell(&mut self, outcome: Outcome) {
        self.note_refusals();
        let now = now_ms(&self.rt);
        if matches!(outcome, Outcome::Delivered | Outcome::Partial(_)) {
            self.told.takes_again(now);
        }
        let Some(why) = self.exporter.last_failure() else {
            return;
        };
        match outcome {
            Outcome::Delivered => {}
            Outcome::Partial(_) => self.told.partial(why, now),
            Outcome::Later { .. } | Outcome::NoReply if self.refusals > 0 => {
                self.told.refuses(why, now)
            }
            _ => self.told.failed(why, now),
        }
    }

    /// Opens the spool again, where it has failed.
    fn mend(&mut self) {
        let now = now_ms(&self.rt);
        self.mender.mend(&self.rt, &mut self.sender, &self.kept, &mut self.told, now);
    }

    /// Waits for more bodies where all that are kept came since a batch was looked for last. Where
    /// some waited already, as when others are left in the spool or each is to be sent alone, none
    /// is held up.
    fn gather(&mut self) {
        let bodies = self.report().bodies;
        if bodies.kept <= bodies.received.saturating_sub(self.received) {
            self.linger();
        }
    }

    /// Waits for bodies, unless enough for a batch came since one was looked for last, or no more
    /// posts are taken. (Bytes are compared with those of that moment, since the files of a spool
    /// have bodies that were delivered, too.)
    fn linger(&mut self) {
        for index in 0..self.linger_ms.div_ceil(STEP_MS) {
            let more = self.report().waiting_bytes.saturating_sub(self.bytes);
            if more >= self.enough || self.course.phase() != Phase::Serving {
                return;
            }
            let past = index.saturating_mul(STEP_MS);
            self.step(self.linger_ms.saturating_sub(past).min(STEP_MS));
        }
    }

    /// Waits until this moment, in nanoseconds of the clock's own, unless the run is over.
    fn wait_until(&mut self, from: u64) {
        let left = from.saturating_sub(now_ns(&self.rt));
        self.wait(left.div_ceil(MS));
    }

    /// Waits for so many milliseconds, unless the run is over.
    fn wait(&mut self, ms: u64) {
        for _ in 0..ms.div_ceil(STEP_MS) {
            if self.course.phase() == Phase::Over {
                return;
            }
            self.step(ms.min(STEP_MS));
        }
    }

    /// A step of a wait.
    fn step(&mut self, ms: u64) {
        thread::sleep(&self.rt, Duration::from_millis(ms));
        self.mend();
    }
}
