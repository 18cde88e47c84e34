//! An exporter that tells the refusal of a body from an outage.
ghost use Rattle.std.specs.Prelude.{◌≡◌, None};
ghost use Rattle.std.specs.Option.{option_copied};
ghost use Rattle.retry_core.specs.Retries.{outcome_view};
ghost use Rattle.http_exporter.specs.Attempts.{NeedsNothing};
ghost use Rattle.relay_exporter.specs.Attempts.{IsGuardedAttempt, TakesOthers};
ghost use Rattle.relay_exporter.specs.Outages.{new_judge};

use crate::judge::Judge;
use crate::kind::{in_seconds, is_taken};
use http_exporter::{Failure, ReportsFailure};
use otlp_ids::OutOfMemory;
use retry_core::Outcome;
use span_exporter::Exporter;
use std::fmt;
use std::marker::Model;
use std::time::Clock;

/// An exporter that attempts what another one does, and takes a refusal for one of the body only
/// where it is: after 413, and after any other status or bad reply where the collector takes other
/// requests. It has taken the last one before, or takes an empty one now (an
/// ExportTraceServiceRequest without spans). A refusal that isn't of the body is an outage: the
/// outcome is `Later` with the status, or `NoReply`. 3xx, 401, 403, 404 and 405 are never of the
/// body. (OTLP Specification, "OTLP/HTTP Response"; profile)
///
/// A moment at which the collector asks to be tried again becomes a number of seconds, so that waits
/// don't depend on the clock of the day. In contracts it is a `Guarding`.
#[derive(Drop)]
pub struct OutageExporter<E, R> {
    exporter: E,
    rt: R,
    judge: Judge,
    failure: Option<Failure>,
}

impl<E, R> Model for OutageExporter<E, R> {
    ghost use Rattle.relay_exporter.specs.Attempts.{Guarding};

    ghost Value = { Guarding E };

    ghost view = { λ g. record {
      exporter = g.exporter;
      judge = g.judge;
      failure = g.failure;
    } };
}

/// Writes the exporter that it was made of.
impl<E: fmt::Debug, R> fmt::Debug for OutageExporter<E, R> {
    fn fmt<W: fmt::Write>(&self, f: &mut fmt::Formatter<W>) -> fmt::Result {
        fmt::Debug::fmt(&self.exporter, f)
    }
}

impl<E, R> OutageExporter<E, R> {
    /// Attempts what this exporter does, by the clock of this runtime. Where the collector has
    /// refused `most` requests in a row whatever they had, their refusals are as they came, so that
    /// bodies are lost by them; where there is no such number, they never are.
    pub fn new(rt: R, exporter: E, most: Option<u64>) -> OutageExporter<E, R>
        ensures { result ≡ record {
          exporter = exporter;
          judge = new_judge most;
          failure = None;
        } }
    {
        OutageExporter {
            exporter,
            rt,
            judge: Judge::new(most),
            failure: None,
        }
    }

    /// How many requests in a row the collector refused whatever they had: none where the last one
    /// had another outcome.
    pub fn refusals(&self) -> u64
        ensures { result ≡ self.now.judge.refusals }
    {
        self.judge.refusals
    }

    /// What the last attempt met that failed. There is none before one has failed.
    pub fn last_failure(&self) -> Option<&Failure>
        ensures { option_copied result ≡ self.now.failure }
    {
        self.failure.as_ref()
    }
}

/// What the last attempt of an exporter met that failed, if there is such a failure.
fn failure_of<E: ReportsFailure>(exporter: &E) -> Option<Failure>
    ensures { result ≡ E.reported exporter.now }
{
    match exporter.last_failure() {
        Some(failure) => Some(failure.copy()),
        None => None,
    }
}

/// The moment now, in seconds since 1970, or 0 where the clock can't be read.
fn seconds_now<R: Clock>(rt: &R) -> u64 {
    match rt.since_1970() {
        Ok(since) => since.as_secs(),
        Err(_) => 0,
    }
}

impl<E: ReportsFailure, R: Clock> OutageExporter<E, R> {
    /// Whether it is known that the collector takes other requests than the one with this outcome.
    /// Where that counts and isn't known, the collector is asked by an empty request.
    fn takes_others(&mut self, met: &Outcome) -> bool
        ensures takes { TakesOthers E.attempts self.old.judge (outcome_view met.now)
            self.old.exporter self.new.exporter result }
        ensures only { self.new ≡ record self.old { exporter = self.new.exporter } }
    {
        if !self.judge.asks(met) {
            return self.judge.has_taken;
        }
        let answer = self.exporter.attempt(&[]);
        is_taken(&answer)
    }

    /// Attempts to send a body.
    pub fn attempt(&mut self, body: &[u8]) -> Outcome
        ensures { IsGuardedAttempt E.attempts E.reported body.now self.old self.new
            (outcome_view result) }
    {
        let met = self.exporter.attempt(body);
        self.failure = failure_of(&self.exporter);
        let takes_others = self.takes_others(&met);
        let judged = self.judge.judge(met, takes_others);
        let now = seconds_now(&self.rt);
        in_seconds(judged, now)
    }
}

impl<E: ReportsFailure, R: Clock> Exporter for OutageExporter<E, R> {
    ghost use Rattle.std.specs.Prelude.{None, ◌^◌, ◌-◌};

    ghost handed = { λ _. None };

    ghost room = { λ _ _. 2 ^ 32 - 1 };

    /// Nothing has to be made ready. It is never refused.
    fn prepare(&mut self, size: usize, attempts: u32) -> Result<(), OutOfMemory>
        ensures ready { NeedsNothing result self.old self.new size attempts }
    {
        Ok(())
    }

    /// Attempts to send the body (see [`OutageExporter::attempt`]): the numbers go nowhere.
    fn export(&mut self, _number: u64, _attempt: u32, body: &[u8]) -> Outcome
        ensures { IsGuardedAttempt E.attempts E.reported body.now self.old self.new
            (outcome_view result) }
    {
        self.attempt(body)
    }
}
