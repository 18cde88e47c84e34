//! The work of a traced service's threads.
ghost use Rattle.std.specs.Prelude.{◌≡◌, IfOk};
ghost use Rattle.std.specs.Arc.{arc_value};
ghost use Rattle.otlp_span.specs.Parts.{scope_view};

use crate::names::NamesAside;
use crate::source::{SpanSource, copy_scope};
use batch_processor::SystemClock;
use batch_service::{NamingPass, ServicePass, Work};
use otel_settings::NamedSampler;
use otlp_ids::OutOfMemory;
use otlp_span::{Scope, SpanData};
use rand::rngs::StdRng;
use rand_core::SeedableRng;
use std::alloc::Global;
use std::sync::{Arc, Wait};
use std::time;
use thread_tracer::{Refused, ThreadTrace, ThreadTracer};
use trace_api::{EndPass, Provider, Tracer};

/// What each thread of a traced service does.
pub trait TracedWork {
    /// What it gives back.
    type Output;

    /// Does the work of the thread with this number, from 0 on, whose spans `trace` makes.
    fn work<T: ThreadTrace>(&self, thread: usize, trace: &mut T) -> Self::Output;
}

/// What a thread of a traced service came to.
#[derive(Debug, Drop)]
pub struct ThreadDone<T> {
    /// What its work gave.
    pub output: T,
    /// What was refused to its spans.
    pub refused: Refused,
}

/// The work of each thread, with what its spans are made with.
#[derive(Drop)]
pub(crate) struct Traced<'t, 'w, R, W> {
    pub(crate) rt: R,
    pub(crate) alloc: Global,
    /// What each thread copies, so that no other counts in the same memory what its spans share.
    pub(crate) provider: SpanSource,
    pub(crate) scope: Arc<Scope>,
    /// That of threads that have no memory for copies.
    pub(crate) tracer: &'t Tracer<'t, NamedSampler>,
    /// What the threads' generators are seeded with, each with its number.
    pub(crate) seed: u64,
    /// What the threads give names to.
    pub(crate) names: NamesAside,
    pub(crate) work: &'w W,
}

impl<R, W> Traced<'_, '_, R, W>
where
    R: time::Clock + Copy,
    W: TracedWork,
{
    /// A provider and a scope for a thread alone, equal to the service's.
    ///
    /// # Errors
    ///
    /// `OutOfMemory` where memory was refused.
    fn copied(&self) -> Result<(Provider<NamedSampler>, Arc<Scope>), OutOfMemory>
        ensures provider { IfOk result (λ made. made.0 ≡ self.now.provider) }
        ensures scope { IfOk result
            (λ made. scope_view (arc_value made.1) ≡ scope_view (arc_value self.now.scope)) }
    {
        let provider = self.provider.copied(self.alloc)?;
        let scope = Arc::new(self.alloc, copy_scope(self.alloc, &self.scope)?)?;
        Ok((provider, scope))
    }

    /// Does the work of the thread with this number, whose spans end on the pass.
    fn trace<P: EndPass<SpanData>>(&self, thread: usize, pass: &mut P) -> ThreadDone<W::Output> {
        match self.copied() {
            Ok((provider, scope)) => self.trace_by(&provider.tracer(scope), thread, pass),
            Err(OutOfMemory) => self.trace_by(self.tracer, thread, pass),
        }
    }

    /// The same, whose spans this tracer starts.
    fn trace_by<P: EndPass<SpanData>>(
        &self,
        tracer: &Tracer<'_, NamedSampler>,
        thread: usize,
        pass: &mut P,
    ) -> ThreadDone<W::Output> {
        let rng = StdRng::seed_from_u64(self.seed.wrapping_add(thread as u64));
        let clock = SystemClock::new(self.rt);
        let mut trace = ThreadTracer::new(tracer, self.alloc, rng, clock, pass);
        let output = self.work.work(thread, &mut trace);
        let refused = trace.refused();
        ThreadDone { output, refused }
    }
}

impl<R, W> Work for Traced<'_, '_, R, W>
where
    R: Wait + time::Clock + Copy,
    W: TracedWork,
{
    type Output = ThreadDone<W::Output>;

    /// Spans end on a pass that names those that are dropped.
    fn work<P: ServicePass>(&self, thread: usize, pass: &mut P) -> ThreadDone<W::Output> {
        let Some(names) = self.names.take(&self.rt, thread) else {
            // The worker names all of them then.
            return self.trace(thread, pass);
        };
        let mut pass = NamingPass::new(pass, names);
        let done = self.trace(thread, &mut pass);
        self.names.put_back(&self.rt, thread, pass.into_sink());
        done
    }
}
