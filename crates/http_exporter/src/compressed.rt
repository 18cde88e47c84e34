//! An exporter that sends bodies as gzip files.

ghost use Rattle.std.specs.Prelude.{◌≡◌, ◌≢◌, IsSome, None};
ghost use Rattle.retry_core.specs.Retries.{outcome_view};
ghost use Rattle.model_desk.specs.Retries.{delivered};
ghost use Rattle.otlp_http.specs.declared.request.Coding as codings;
ghost use Rattle.http_exporter.specs.Attempts.{NeedsNothing};
ghost use Rattle.http_exporter.specs.Compressed.{IsCompressedAttempt, is_gzip};

use crate::failure::Failure;
use crate::kept_file::{BodyFile, keep};
use crate::reports::ReportsFailure;
use gzip::Gzip;
use otlp_http::Coding;
use otlp_ids::OutOfMemory;
use retry_core::Outcome;
use span_exporter::Exporter;
use std::alloc::{Allocator, Global};
use std::fmt;
use std::marker::Model;

/// An exporter that can say in its requests that bodies are in another coding than as they are.
///
/// An `impl` says by its ghost member `coded` what it then is.
pub trait CodesBodies: ReportsFailure {
    // The same exporter, whose requests say this coding.
    ghost coded: { Self → codings.Coding → Self };

    /// Says from now on that the bodies which it is handed are in this coding. It changes no body,
    /// and what the last attempt met that failed stays.
    fn set_coding(&mut self, coding: Coding)
        ensures coded { self.new ≡ coded self.old coding }
        ensures reported { Self.reported self.new ≡ Self.reported self.old };
}

/// An exporter that sends each body as a gzip file, with `Content-Encoding: gzip`, and else does
/// what the exporter does that it was made of (OTLP Specification, "OTLP/HTTP Request"; RFC 9110,
/// section 8.4.1.3). The file is made at the first attempt of a body and kept, so that each further
/// attempt sends the same bytes. An attempt for which memory is refused sends the body as it is.
///
/// It keeps the last body and its file, and from the first attempt on 272 KB of tables. In contracts
/// it is a `Compressing`.
pub struct CompressedExporter<E, A: Allocator = Global> {
    exporter: E,
    alloc: A,
    is_on: bool,
    writer: Option<Gzip<A>>,
    kept: Option<BodyFile<A>>,
}

/// By hand: a derived one would be proved again in each crate that drops it.
impl<E: Drop, A: Allocator> Drop for CompressedExporter<E, A> {
    fn drop(self) {
        let Self {
            exporter: _,
            alloc: _,
            is_on: _,
            writer: _,
            kept: _,
        } = self;
    }
}

impl<E, A: Allocator> Model for CompressedExporter<E, A> {
    ghost use Rattle.http_exporter.specs.Compressed.{Compressing};

    ghost Value = { Compressing E };

    ghost view = { λ c. record { exporter = c.exporter; is_on = c.is_on; kept = c.kept } };
}

/// Writes the exporter that it was made of.
impl<E: fmt::Debug, A: Allocator> fmt::Debug for CompressedExporter<E, A> {
    fn fmt<W: fmt::Write>(&self, f: &mut fmt::Formatter<W>) -> fmt::Result {
        fmt::Debug::fmt(&self.exporter, f)
    }
}

impl<E, A: Allocator + Copy> CompressedExporter<E, A> {
    /// Sends bodies in this coding by this exporter: as gzip files, or as they are. It takes no
    /// memory before the first attempt.
    pub fn new(alloc: A, exporter: E, coding: Coding) -> CompressedExporter<E, A>
        ensures { result ≡ record {
          exporter = exporter;
          is_on = is_gzip coding;
          kept = None;
        } }
    {
        CompressedExporter {
            exporter,
            alloc,
            is_on: is_gzip(coding),
            writer: None,
            kept: None,
        }
    }

    /// The exporter that it was made of.
    pub fn exporter(&self) -> &E
        ensures { result.now ≡ self.now.exporter }
    {
        &self.exporter
    }
}

/// Whether bodies in this coding are gzip files.
fn is_gzip(coding: Coding) -> bool
    ensures { result ≡ is_gzip coding }
{
    match coding {
        Coding::Gzip => true,
        Coding::Identity => false,
    }
}

/// Attempts to send a gzip file, in requests that say so.
fn send_file<E: CodesBodies>(exporter: &mut E, file: &[u8]) -> Outcome
    ensures sent { (spent : E) × E.attempts (E.coded exporter.old Coding.Gzip) file.now
        (outcome_view result) spent × (exporter.new ≡ E.coded spent Coding.Identity) }
    ensures failed { outcome_view result ≢ delivered → IsSome (E.reported exporter.new) }
{
    exporter.set_coding(Coding::Gzip);
    let outcome = exporter.attempt(file);
    exporter.set_coding(Coding::Identity);
    outcome
}

impl<E: CodesBodies, A: Allocator + Copy> ReportsFailure for CompressedExporter<E, A> {
    ghost use Rattle.http_exporter.specs.Compressed.{IsCompressedAttempt};

    ghost attempts = { λ old body outcome new.
        IsCompressedAttempt E.attempts E.coded body old new outcome };

    ghost reported = { λ c. E.reported c.exporter };

    /// Attempts to send a body: as its gzip file, which is made where it isn't kept already, or as
    /// it is, where the exporter doesn't compress or memory is refused.
    fn attempt(&mut self, body: &[u8]) -> Outcome {
        let is_kept = keep(
            self.is_on,
            self.alloc,
            &mut self.writer,
            &mut self.kept,
            body,
        );
        match &self.kept {
            Some(kept) if is_kept => send_file(&mut self.exporter, kept.file()),
            _ => self.exporter.attempt(body),
        }
    }

    fn last_failure(&self) -> Option<&Failure> {
        self.exporter.last_failure()
    }
}

impl<E: CodesBodies, A: Allocator + Copy> Exporter for CompressedExporter<E, A> {
    ghost use Rattle.std.specs.Prelude.{None, ◌^◌, ◌-◌};

    ghost handed = { λ _. None };

    ghost room = { λ _ _. 2 ^ 32 - 1 };

    /// Nothing has to be made ready, as by the exporter that it was made of. It is never refused.
    fn prepare(&mut self, size: usize, attempts: u32) -> Result<(), OutOfMemory>
        ensures ready { NeedsNothing result self.old self.new size attempts }
    {
        Ok(())
    }

    /// Attempts to send the body (see [`ReportsFailure::attempt`]): the numbers go nowhere.
    fn export(&mut self, _number: u64, _attempt: u32, body: &[u8]) -> Outcome
        ensures outcome { IsCompressedAttempt E.attempts E.coded body.now self.old self.new
            (outcome_view result) }
        ensures failed { outcome_view result ≢ delivered
            → IsSome (E.reported self.new.exporter) }
    {
        self.attempt(body)
    }
}
