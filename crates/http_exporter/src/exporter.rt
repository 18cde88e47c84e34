//! An exporter that posts each body over a link of its own.

ghost use Rattle.std.specs.Prelude.{◌≡◌, ◌≢◌, ◌≤◌, true, false, IsSome, Option};
ghost use Rattle.std.specs.Prelude.{Some, None, Result};
ghost use Rattle.std.specs.Option.{option_copied};
ghost use Rattle.std.specs.Result.{result_map_both};
ghost use Rattle.retry_core.specs.Retries.{outcome_view};
ghost use Rattle.model_desk.specs.Retries.{delivered};
ghost use Rattle.otlp_http.specs.Outcomes.{reply_view};
ghost use Rattle.otlp_http.specs.Request.{text_in};
ghost use Rattle.otlp_http.specs.Replies.{HttpReply};
ghost use Rattle.http_wire.specs.declared.fault.HttpFault.{HttpFault};
ghost use Rattle.http_exporter.specs.declared.failure.Failure.{Failure};
ghost use Rattle.http_exporter.specs.Failures.{failure_after_a_stop, AreKept, IsLast};
ghost use Rattle.http_exporter.specs.Attempts.{shown, Attempts, IsAnswer, IsAttempt, IsPosted};
ghost use Rattle.http_exporter.specs.Attempts.{NeedsNothing, outcome_after_a_stop};
ghost use Rattle.http_exporter.specs.Kept.{IsKeptAnswer, IsKeptPost};

use crate::compressed::{CodesBodies, CompressedExporter};
use crate::dial::Dial;
use crate::failure::{Failure, met_by};
use crate::front::send;
use crate::reports::ReportsFailure;
use otlp_http::{
    Coding, Connection, FaultRead, FaultWrite, HeadLimits, HttpFault, LastingReply, Reply, Target,
    read_lasting_reply, read_reply,
};
use otlp_ids::OutOfMemory;
use retry_core::Outcome;
use span_exporter::Exporter;
use std::alloc::{Allocator, Global};
use std::fmt;
use std::marker::Model;

/// An exporter that posts each body to a target, over a link of its own, and goes by the reply
/// (OTLP Specification, "OTLP/HTTP Request", "OTLP/HTTP Response"). It doesn't say what it was
/// handed. In contracts it is an `Exporting`.
pub struct LinkExporter<D, A: Allocator = Global> {
    alloc: A,
    global: Global,
    pub(crate) dial: D,
    target: Target<A>,
    coding: Coding,
    limits: HeadLimits,
    reads_after_a_stop: bool,
    last_failure: Option<Failure>,
}

/// By hand: a derived one would be proved again in each crate that drops it.
impl<D: Drop, A: Allocator> Drop for LinkExporter<D, A> {
    fn drop(self) {
        let Self {
            alloc: _,
            global: _,
            dial: _,
            target: _,
            coding: _,
            limits: _,
            reads_after_a_stop: _,
            last_failure: _,
        } = self;
    }
}

impl<D, A: Allocator> Model for LinkExporter<D, A> {
    ghost use Rattle.std.specs.Prelude.{◌≤◌};
    ghost use Rattle.http_exporter.specs.Attempts.{Exporting};

    ghost Value = { Exporting D };

    ghost view = { λ e. record {
      dial = e.dial;
      target = e.target;
      coding = e.coding;
      limits = e.limits;
      reads_after_a_stop = e.reads_after_a_stop;
      last_failure = e.last_failure;
    } };

    ghost invariant = { λ e. e.limits.fields ≤ 64 };
}

/// Writes where requests go, and leaves out what dials.
impl<D, A: Allocator> fmt::Debug for LinkExporter<D, A> {
    fn fmt<W: fmt::Write>(&self, f: &mut fmt::Formatter<W>) -> fmt::Result {
        f.debug_struct("LinkExporter")
            .field("target", &self.target)
            .field("limits", &self.limits)
            .field("reads_after_a_stop", &self.reads_after_a_stop)
            .finish_non_exhaustive()
    }
}

impl<D, A: Allocator + Copy> LinkExporter<D, A> {
    /// An exporter that posts to this target over the links of this dial. It reads as much of a
    /// reply as [`HeadLimits::default`] says, and nothing where a write failed. It takes no memory
    /// but while a reply is read: `alloc` keeps its head and its body, `global` its fields.
    pub fn over(alloc: A, global: Global, dial: D, target: Target<A>) -> LinkExporter<D, A>
        ensures { result ≡ record {
          dial = dial;
          target = target;
          coding = Coding.Identity;
          limits = record { head = 16_384; fields = 64; body = 65_536 };
          reads_after_a_stop = false;
          last_failure = None;
        } }
    {
        LinkExporter {
            alloc,
            global,
            dial,
            target,
            coding: Coding::Identity,
            limits: HeadLimits::default(),
            reads_after_a_stop: false,
            last_failure: None,
        }
    }

    /// The same exporter, which reads this much of a reply, with [`MOST_FIELDS`] fields at most.
    ///
    /// [`MOST_FIELDS`]: otlp_http::MOST_FIELDS
    pub fn within(mut self, limits: HeadLimits) -> LinkExporter<D, A>
        requires fields { limits.fields ≤ 64 }
        ensures { result ≡ record self { limits = limits } }
    {
        self.limits = limits;
        self
    }

    /// The same exporter, which reads what came where a write failed, and goes by a reply if one is
    /// there: servers that refuse a large body answer before they have read it, and close. By
    /// default such an attempt has no reply. (RFC 9112, section 9.5; the default: profile)
    pub fn reading_after_a_stop(mut self) -> LinkExporter<D, A>
        ensures { result ≡ record self { reads_after_a_stop = true } }
    {
        self.reads_after_a_stop = true;
        self
    }

    /// What has its memory.
    pub(crate) fn alloc(&self) -> A {
        self.alloc
    }

    /// Says from now on that bodies are in this coding.
    pub(crate) fn use_coding(&mut self, coding: Coding)
        ensures { self.new ≡ record self.old { coding = coding } }
    {
        self.coding = coding;
    }

    /// The same exporter, which sends each body as a gzip file where memory allows it (see
    /// [`CompressedExporter`]). It takes no memory before the first attempt.
    pub fn compressed(self) -> CompressedExporter<LinkExporter<D, A>, A>
        ensures { result ≡ record { exporter = self; is_on = true; kept = None } }
    {
        let alloc = self.alloc;
        CompressedExporter::new(alloc, self, Coding::Gzip)
    }

    /// What the last attempt met that didn't deliver its batch whole, so that a program can say why
    /// a batch was lost or sent again. There is none before an attempt has failed. An attempt that
    /// delivers leaves it as it is: it is that of an earlier attempt, perhaps of an earlier batch.
    ///
    /// Each attempt whose outcome isn't `Delivered` sets it. One that is `Delivered` does where the
    /// collector says that spans were rejected by a message that isn't UTF-8, since such a response
    /// has no reading, by which it could be `Partial`. [`LinkExporter::post`] leaves it as it is.
    pub fn last_failure(&self) -> Option<&Failure>
        ensures { option_copied result ≡ self.now.last_failure }
    {
        self.last_failure.as_ref()
    }

    /// Posts a body over this link: writes its request, reads the reply, and answers what that
    /// means (see [`outcome_of`](otlp_http::outcome_of)). A link that takes all that it is given
    /// gets the head together with the beginning of the body, 1,024 bytes at most, and then the
    /// rest of the body, which is not copied. A head above 1,024 bytes goes out piece by piece.
    ///
    /// Where a write failed, a beginning of the request went out, and the outcome is `NoReply`,
    /// without a byte having been read. By [`LinkExporter::reading_after_a_stop`] what came is read
    /// then: the outcome is by a whole head that can be used, if it has one, and else `NoReply`.
    ///
    /// Memory is taken while the reply is read: where it is refused for the head or its fields, the
    /// outcome is `NoReply`, and where for the body, it is by the status alone.
    pub fn post<L: FaultRead + FaultWrite>(&self, link: &mut L, body: &[u8]) -> Outcome
        ensures { (failure : Option Failure) × IsPosted
            (shown L.contents L.remaining L.FaultWrite.failures L.FaultRead.failures)
            self.now.limits self.now.reads_after_a_stop (text_in self.now.coding Connection.Close self.now.target body.now)
            link.old link.new (outcome_view result) failure }
    {
        let (outcome, _) = self.exchange(link, body);
        outcome
    }

    /// The outcome of a body that is posted over this link, and what failed, if anything did.
    fn exchange<L: FaultRead + FaultWrite>(
        &self,
        link: &mut L,
        body: &[u8],
    ) -> (Outcome, Option<Failure>)
        ensures { (failure : Option Failure) × IsPosted
            (shown L.contents L.remaining L.FaultWrite.failures L.FaultRead.failures)
            self.now.limits self.now.reads_after_a_stop (text_in self.now.coding Connection.Close self.now.target body.now)
            link.old link.new (outcome_view result.0) failure × AreKept failure result.1 }
    {
        match send(link, &self.target, self.coding, Connection::Close, body) {
            Ok(()) => {
                let reply = self.read(link);
                met_by(&reply)
            }
            Err(_) if self.reads_after_a_stop => self.read_after_a_stop(link),
            Err(_) => (Outcome::NoReply, Some(Failure::WriteStopped)),
        }
    }

    /// The outcome of a body that is posted over this link, which is kept where it may carry
    /// another request; what failed, if anything did; and whether it may.
    pub(crate) fn exchange_kept<L: FaultRead + FaultWrite>(
        &self,
        link: &mut L,
        body: &[u8],
    ) -> (Outcome, Option<Failure>, bool)
        ensures { (failure : Option Failure) × IsKeptPost
            (shown L.contents L.remaining L.FaultWrite.failures L.FaultRead.failures)
            self.now.limits self.now.reads_after_a_stop
            (text_in self.now.coding Connection.KeepAlive self.now.target body.now)
            link.old link.new (outcome_view result.0) failure result.2
            × AreKept failure result.1 }
    {
        match send(link, &self.target, self.coding, Connection::KeepAlive, body) {
            Ok(()) => self.read_kept(link),
            Err(_) if self.reads_after_a_stop => {
                let (outcome, failure) = self.read_after_a_stop(link);
                (outcome, failure, false)
            }
            Err(_) => (Outcome::NoReply, Some(Failure::WriteStopped), false),
        }
    }

    /// What the link then gives, which is kept where it may carry another request.
    fn read_kept<L: FaultRead + FaultWrite>(&self, link: &mut L) -> (Outcome, Option<Failure>, bool)
        ensures { (failure : Option Failure) × IsKeptAnswer
            (shown L.contents L.remaining L.FaultWrite.failures L.FaultRead.failures)
            self.now.limits link.old link.new (outcome_view result.0) failure result.2
            × AreKept failure result.1 }
    {
        match read_lasting_reply(self.alloc, self.global, link, &self.limits) {
            Ok(LastingReply { reply, lasts }) => {
                let (outcome, failure) = met_by(&Ok(reply));
                (outcome, failure, lasts)
            }
            Err(fault) => {
                let none: Result<Reply<A>, HttpFault> = Err(fault);
                let (outcome, failure) = met_by(&none);
                (outcome, failure, false)
            }
        }
    }

    /// What came where a write failed.
    fn read_after_a_stop<L: FaultRead + FaultWrite>(
        &self,
        link: &mut L,
    ) -> (Outcome, Option<Failure>)
        ensures { (answer : Result HttpReply HttpFault)
            × IsAnswer (shown L.contents L.remaining L.FaultWrite.failures L.FaultRead.failures)
            self.now.limits link.old link.new answer
            × (outcome_view result.0 ≡ outcome_after_a_stop answer)
            × AreKept (failure_after_a_stop answer) result.1 }
    {
        let reply = self.read(link);
        if reply.is_err() {
            return (Outcome::NoReply, Some(Failure::WriteStopped));
        }
        met_by(&reply)
    }

    /// Reads a reply.
    fn read<L: FaultRead + FaultWrite>(&self, link: &mut L) -> Result<Reply<A>, HttpFault>
        ensures { IsAnswer
            (shown L.contents L.remaining L.FaultWrite.failures L.FaultRead.failures)
            self.now.limits link.old link.new
            (result_map_both reply_view (λ fault. fault) result) }
    {
        read_reply(self.alloc, self.global, link, &self.limits)
    }
}

impl<D: Dial, A: Allocator + Copy> LinkExporter<D, A> {
    /// A fresh link to the target's host and port, if one can be had.
    pub(crate) fn dial(&mut self) -> Option<D::Link>
        ensures dialed { D.dials self.old.dial self.old.target.host self.old.target.port result
            self.new.dial }
        ensures others { self.new ≡ record self.old { dial = self.new.dial } }
    {
        self.dial.dial(self.target.host(), self.target.port())
    }

    /// Keeps what an attempt met, if it failed.
    pub(crate) fn keep(&mut self, failure: Option<Failure>)
        ensures last { (met : Option Failure) → AreKept met failure →
            IsLast met self.old.last_failure self.new.last_failure }
        ensures others { self.new ≡ record self.old { last_failure = self.new.last_failure } }
    {
        if failure.is_some() {
            self.last_failure = failure;
        }
    }

    /// Attempts to send a body: dials the target's host and port, posts the body over the link, as
    /// [`LinkExporter::post`] does, and drops the link. Where there is no link, the outcome is
    /// `NoReply`. What failed is kept for [`LinkExporter::last_failure`].
    pub fn attempt(&mut self, body: &[u8]) -> Outcome
        ensures outcome { IsAttempt D.dials
            (shown D.Link.contents D.Link.remaining
            D.Link.FaultWrite.failures D.Link.FaultRead.failures)
            body.now self.old self.new (outcome_view result) }
        ensures failed { outcome_view result ≢ delivered → IsSome self.new.last_failure }
        ensures others { self.new ≡ record self.old {
          dial = self.new.dial;
          last_failure = self.new.last_failure;
        } }
    {
        match self.dial.dial(self.target.host(), self.target.port()) {
            Some(mut link) => {
                let (outcome, failure) = self.exchange(&mut link, body);
                self.keep(failure);
                outcome
            }
            None => {
                self.last_failure = Some(Failure::NoConnection);
                Outcome::NoReply
            }
        }
    }
}

impl<D: Dial, A: Allocator + Copy> Exporter for LinkExporter<D, A> {
    ghost use Rattle.std.specs.Prelude.{None, ◌^◌, ◌-◌};

    ghost handed = { λ _. None };

    ghost room = { λ _ _. 2 ^ 32 - 1 };

    /// Nothing has to be made ready: there is room for any number of attempts of any body. It takes
    /// no memory, and is never refused.
    fn prepare(&mut self, size: usize, attempts: u32) -> Result<(), OutOfMemory>
        ensures ready { NeedsNothing result self.old self.new size attempts }
    {
        Ok(())
    }

    /// Attempts to send the body, as [`LinkExporter::attempt`] does: the numbers go nowhere.
    fn export(&mut self, _number: u64, _attempt: u32, body: &[u8]) -> Outcome
        ensures outcome { Attempts D.dials (shown D.Link.contents D.Link.remaining
            D.Link.FaultWrite.failures D.Link.FaultRead.failures)
            self.old body.now (outcome_view result) self.new }
        ensures failed { outcome_view result ≢ delivered → IsSome self.new.last_failure }
    {
        self.attempt(body)
    }
}

impl<D: Dial, A: Allocator + Copy> CodesBodies for LinkExporter<D, A> {
    ghost coded = { λ e coding. record e { coding = coding } };

    fn set_coding(&mut self, coding: Coding) {
        self.use_coding(coding);
    }
}

impl<D: Dial, A: Allocator + Copy> ReportsFailure for LinkExporter<D, A> {
    ghost use Rattle.http_exporter.specs.Attempts.{shown, Attempts};

    ghost attempts = { Attempts D.dials
        (shown D.Link.contents D.Link.remaining D.Link.FaultWrite.failures D.Link.FaultRead.failures) };

    ghost reported = { λ e. e.last_failure };

    fn attempt(&mut self, body: &[u8]) -> Outcome {
        LinkExporter::attempt(self, body)
    }

    fn last_failure(&self) -> Option<&Failure> {
        LinkExporter::last_failure(self)
    }
}
