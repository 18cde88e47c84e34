//! An exporter that posts bodies over one link as long as replies let it.

ghost use Rattle.std.specs.Prelude.{◌≡◌, ◌≢◌, ◌↔◌, IsSome, IsTrue, None, true};
ghost use Rattle.std.specs.Option.{option_copied};
ghost use Rattle.retry_core.specs.Retries.{outcome_view};
ghost use Rattle.model_desk.specs.Retries.{delivered};
ghost use Rattle.http_exporter.specs.Attempts.{NeedsNothing, shown};
ghost use Rattle.http_exporter.specs.Kept.{GetsLink, IsKeptAttempt, KeptAttempts};

use crate::compressed::{CodesBodies, CompressedExporter};
use crate::dial::Dial;
use crate::exporter::LinkExporter;
use crate::failure::Failure;
use crate::kept_link::{KeptLink, ready};
use crate::reports::ReportsFailure;
use otlp_http::Coding;
use otlp_ids::OutOfMemory;
use retry_core::Outcome;
use span_exporter::Exporter;
use std::alloc::{Allocator, Global};
use std::fmt;
use std::marker::Model;

/// An exporter that posts one body after another over a link that it keeps as long as replies let
/// it (RFC 9112, section 9.3), and else does what the [`LinkExporter`] does that it is made of.
///
/// The link is kept after a reply that was read whole, to an end of its own, and whose head says
/// that the connection is kept. In each other case it is given up, and the next attempt has a fresh
/// one; so has an attempt whose link isn't ready, as where the other end closed it meanwhile, or
/// bytes came that belong to no request. Each attempt sends its request once, over one link: where
/// that breaks, there is no reply. In contracts it is a `Keeping`.
#[derive(Drop)]
pub struct KeptExporter<D: Dial, A: Allocator = Global> {
    exporter: LinkExporter<D, A>,
    link: Option<D::Link>,
}

impl<D: Dial, A: Allocator> Model for KeptExporter<D, A> {
    ghost use Rattle.http_exporter.specs.Kept.{Keeping};

    ghost Value = { Keeping D D.Link };

    ghost view = { λ k. record { exporter = k.exporter; link = k.link } };
}

/// Writes the exporter that it was made of.
impl<D: Dial, A: Allocator> fmt::Debug for KeptExporter<D, A> {
    fn fmt<W: fmt::Write>(&self, f: &mut fmt::Formatter<W>) -> fmt::Result {
        fmt::Debug::fmt(&self.exporter, f)
    }
}

impl<D: Dial, A: Allocator> KeptExporter<D, A> {
    /// Does what this exporter does, over a link that it keeps. It has none yet.
    pub fn new(exporter: LinkExporter<D, A>) -> KeptExporter<D, A>
        ensures { result ≡ record { exporter = exporter; link = None } }
    {
        KeptExporter {
            exporter,
            link: None,
        }
    }

    /// The exporter that it was made of, with what its last attempt met that failed.
    pub fn exporter(&self) -> &LinkExporter<D, A>
        ensures { result.now ≡ self.now.exporter }
    {
        &self.exporter
    }

    /// Whether it has a link that the next attempt may use.
    pub fn has_link(&self) -> bool
        ensures { IsTrue result ↔ IsSome self.now.link }
    {
        self.link.is_some()
    }
}

impl<D: Dial, A: Allocator + Copy> KeptExporter<D, A>
where
    D::Link: KeptLink,
{
    /// The same exporter, which sends each body as a gzip file where memory allows it (see
    /// [`CompressedExporter`]). It takes no memory before the first attempt.
    pub fn compressed(self) -> CompressedExporter<KeptExporter<D, A>, A>
        ensures { result ≡ record { exporter = self; is_on = true; kept = None } }
    {
        let alloc = self.exporter.alloc();
        CompressedExporter::new(alloc, self, Coding::Gzip)
    }

    /// The link of an attempt, if one can be had.
    fn link(&mut self) -> Option<D::Link>
        ensures gets { GetsLink D.dials D.Link.renews self.old self.new.exporter.dial result }
        ensures others { self.new ≡ record {
          exporter = record self.old.exporter { dial = self.new.exporter.dial };
          link = None;
        } }
    {
        match ready(self.link.take()) {
            Some(link) => Some(link),
            None => self.exporter.dial(),
        }
    }

    /// Attempts to send a body: posts it over the link that is kept, if that is ready, and else
    /// over a fresh one to the target's host and port. Where there is no link, the outcome is
    /// `NoReply`. What failed is kept for [`LinkExporter::last_failure`].
    pub fn attempt(&mut self, body: &[u8]) -> Outcome
        ensures outcome { IsKeptAttempt D.dials D.Link.renews
            (shown D.Link.contents D.Link.remaining
            D.Link.FaultWrite.failures D.Link.FaultRead.failures)
            body.now self.old self.new (outcome_view result) }
        ensures failed { outcome_view result ≢ delivered → IsSome self.new.exporter.last_failure }
        ensures others { self.new ≡ record {
          exporter = record self.old.exporter {
            dial = self.new.exporter.dial;
            last_failure = self.new.exporter.last_failure;
          };
          link = self.new.link;
        } }
    {
        let Some(mut link) = self.link() else {
            self.exporter.keep(Some(Failure::NoConnection));
            return Outcome::NoReply;
        };
        let (outcome, failure, lasts) = self.exporter.exchange_kept(&mut link, body);
        self.exporter.keep(failure);
        if !lasts {
            return outcome;
        }
        self.link = Some(link);
        outcome
    }
}

impl<D: Dial, A: Allocator + Copy> Exporter for KeptExporter<D, A>
where
    D::Link: KeptLink,
{
    ghost use Rattle.std.specs.Prelude.{None, ◌^◌, ◌-◌};

    ghost handed = { λ _. None };

    ghost room = { λ _ _. 2 ^ 32 - 1 };

    /// Nothing has to be made ready: there is room for any number of attempts of any body. It takes
    /// no memory, and is never refused.
    fn prepare(&mut self, size: usize, attempts: u32) -> Result<(), OutOfMemory>
        ensures ready { NeedsNothing result self.old self.new size attempts }
    {
        Ok(())
    }

    /// Attempts to send the body, as [`KeptExporter::attempt`] does: the numbers go nowhere.
    fn export(&mut self, _number: u64, _attempt: u32, body: &[u8]) -> Outcome
        ensures outcome { KeptAttempts D.dials D.Link.renews
            (shown D.Link.contents D.Link.remaining
            D.Link.FaultWrite.failures D.Link.FaultRead.failures)
            self.old body.now (outcome_view result) self.new }
        ensures failed { outcome_view result ≢ delivered → IsSome self.new.exporter.last_failure }
    {
        self.attempt(body)
    }
}

impl<D: Dial, A: Allocator + Copy> CodesBodies for KeptExporter<D, A>
where
    D::Link: KeptLink,
{
    ghost coded = { λ k coding. record k { exporter = record k.exporter { coding = coding } } };

    fn set_coding(&mut self, coding: Coding) {
        self.exporter.use_coding(coding);
    }
}

impl<D: Dial, A: Allocator + Copy> ReportsFailure for KeptExporter<D, A>
where
    D::Link: KeptLink,
{
    ghost use Rattle.http_exporter.specs.Attempts.{shown};
    ghost use Rattle.http_exporter.specs.Kept.{KeptAttempts};

    ghost attempts = { KeptAttempts D.dials D.Link.renews
        (shown D.Link.contents D.Link.remaining D.Link.FaultWrite.failures D.Link.FaultRead.failures) };

    ghost reported = { λ k. k.exporter.last_failure };

    fn attempt(&mut self, body: &[u8]) -> Outcome {
        KeptExporter::attempt(self, body)
    }

    fn last_failure(&self) -> Option<&Failure> {
        self.exporter.last_failure()
    }
}
