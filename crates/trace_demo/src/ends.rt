//! The spans that threads end.

use crate::live::write_counts;
use batch_processor::SystemClock;
use batch_service::{NamingPass, ServicePass, Work};
use drop_ledger::NewestNames;
use http_exporter::FailureWatch;
use otlp_sampler::AlwaysOn;
use otlp_span::{Kind, Resource, Scope, SpanData, SpanLimits};
use rand_core::{Rng, SeedableRng};
use rand_pcg::Pcg64;
use std::alloc::Global;
use std::io::Eprint;
use std::sync::{Arc, Wait};
use std::time;
use thread_tracer::{ThreadTrace, ThreadTracer};
use trace_api::{EndPass, Ended, Provider, Tracer};

/// How many parts a thread's share has, after each of which the counts may be shown.
const PARTS: u64 = 10;

/// The spans that were queued or dropped.
#[derive(Drop)]
pub(crate) struct EndedSpans {
    /// How many.
    pub(crate) count: u64,
    /// Their numbers, where these are kept.
    pub(crate) numbers: Vec<u64>,
    are_kept: bool,
}

impl EndedSpans {
    /// Of no span. Whether numbers are to be kept.
    fn new(alloc: Global, are_kept: bool) -> EndedSpans {
        EndedSpans {
            count: 0,
            numbers: Vec::new(alloc),
            are_kept,
        }
    }

    /// Adds a span. `None` where memory was refused.
    fn add(&mut self, number: u64) -> Option<()> {
        self.count = self.count.saturating_add(1);
        if self.are_kept {
            self.numbers.push(number).ok()?;
        }
        Some(())
    }

    /// Starts a span, ends it, and adds it if it was recorded. `None` where memory was refused.
    fn end_span(&mut self, trace: &mut impl ThreadTrace) -> Option<()> {
        let span = trace.start("demo", Kind::Internal);
        let number = u64::from_be_bytes(span.context().span.0);
        match trace.end(span) {
            Ended::Queued(_) | Ended::Dropped(..) => self.add(number),
            _ => Some(()),
        }
    }

    /// Of all threads. `None` where memory was refused to one of them.
    pub(crate) fn of_all(alloc: Global, outputs: &[Option<EndedSpans>]) -> Option<EndedSpans> {
        let mut all = EndedSpans::new(alloc, true);
        for output in outputs {
            let ended = output.as_ref()?;
            all.count = all.count.saturating_add(ended.count);
            all.numbers.extend_from_slice(&ended.numbers).ok()?;
        }
        Some(all)
    }
}

/// Ends spans, of which each thread has its share. The generator of the first one begins with this
/// seed, that of each further one with one more, modulo 2^64.
#[derive(Drop)]
pub(crate) struct Ends<R> {
    pub(crate) rt: R,
    pub(crate) alloc: Global,
    pub(crate) threads: u64,
    pub(crate) seed: u64,
    /// How many spans end on all threads together.
    pub(crate) spans: u64,
    /// Whether the spans are a soak's: their numbers are kept, and names are the worker's alone.
    pub(crate) is_soak: bool,
    /// What shows counts, on the first thread, if they are asked for.
    pub(crate) watch: Option<FailureWatch>,
}

impl<R: time::Clock + Eprint + Wait + Copy> Ends<R> {
    /// How many spans the thread with this number ends.
    fn share_of(&self, thread: u64) -> u64 {
        let threads = self.threads.max(1);
        let more = u64::from(thread < self.spans % threads);
        (self.spans / threads).saturating_add(more)
    }

    /// Ends so many spans on a pass. `None` where memory was refused.
    fn end_spans<P>(&self, maker: &mut Maker<'_>, pass: &mut P, spans: u64) -> Option<()>
    where
        P: EndPass<SpanData>,
    {
        let rng = Pcg64::seed_from_u64(maker.rng.next_u64());
        let clock = SystemClock::new(self.rt);
        let mut trace = ThreadTracer::new(&maker.tracer, self.alloc, rng, clock, pass);
        for _ in 0..spans {
            maker.ended.end_span(&mut trace)?;
        }
        if trace.refused().not_started > 0 {
            return None;
        }
        Some(())
    }

    /// Ends so many spans. `None` where memory was refused.
    fn end_part<P>(&self, maker: &mut Maker<'_>, pass: &mut P, spans: u64) -> Option<()>
    where
        P: ServicePass,
    {
        if self.is_soak {
            return self.end_spans(maker, pass, spans);
        }
        // The names of spans that are dropped are freed, on this thread too.
        let names = NewestNames::new(self.alloc, 0).ok()?;
        self.end_spans(maker, &mut NamingPass::new(pass, names), spans)
    }

    /// Ends these spans, and shows the counts after each part of them, where they are asked for.
    fn end_all<P: ServicePass>(
        &self,
        maker: &mut Maker<'_>,
        pass: &mut P,
        spans: u64,
        watch: Option<&FailureWatch>,
    ) -> Option<()> {
        let mut left = spans;
        for part in 1..=PARTS {
            let share = left.min(spans.div_ceil(PARTS));
            self.end_part(maker, pass, share)?;
            left = left.saturating_sub(share);
            if let Some(watch) = watch {
                if part == PARTS {
                    pass.flush().ok()?;
                }
                write_counts(&self.rt, pass.totals(), watch).ok()?;
            }
        }
        Some(())
    }
}

impl<R: time::Clock + Eprint + Wait + Copy> Work for Ends<R> {
    /// `None` where memory was refused.
    type Output = Option<EndedSpans>;

    /// Ends the thread's share, of a provider and a generator of its own.
    fn work<P: ServicePass>(&self, thread: usize, pass: &mut P) -> Option<EndedSpans> {
        let (alloc, thread) = (self.alloc, thread as u64);
        let resource = Arc::new(alloc, Resource::new(alloc, Vec::new(alloc))).ok()?;
        let provider = Provider::new(AlwaysOn, resource, SpanLimits::default());
        let scope = Scope::named(alloc, "trace-demo").ok()?;
        let mut maker = Maker {
            rng: Pcg64::seed_from_u64(self.seed.wrapping_add(thread)),
            tracer: provider.tracer(Arc::new(alloc, scope).ok()?),
            ended: EndedSpans::new(alloc, self.is_soak),
        };
        let watch = if thread == 0 {
            self.watch.as_ref()
        } else {
            None
        };
        self.end_all(&mut maker, pass, self.share_of(thread), watch)?;
        Some(maker.ended)
    }
}

/// Makes the spans of a thread.
#[derive(Drop)]
struct Maker<'a> {
    rng: Pcg64,
    tracer: Tracer<'a, AlwaysOn>,
    ended: EndedSpans,
}
