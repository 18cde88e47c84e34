//! What the tests of a thread's spans have in common.
use otlp_sampler::AlwaysOn;
use otlp_span::{Resource, Scope, SpanData, SpanLimits};
use std::alloc::Allocator;
use std::cell::Cell;
use std::process::Abort;
use std::sync::Arc;
use thread_tracer::{Refused, ThreadTracer};
use trace_api::{BodyPass, Clock, Provider, WordsRng};

/// The tracer of a thread in these tests.
pub(crate) type Thread<'a, A> = ThreadTracer<'a, AlwaysOn, WordsRng<A>, Steps, BodyPass<A>, A>;

/// A clock that goes on by a nanosecond with each reading.
#[derive(Drop)]
pub(crate) struct Steps(Cell<u64>);

impl Clock for Steps {
    ghost use Rattle.std.specs.Prelude.{⊤};

    ghost tells = { λ clock at. ⊤ };

    fn now(&self) -> u64 {
        let now = self.0.get().saturating_add(1);
        self.0.set(now);
        now
    }
}

/// What a thread does, and what is then found.
pub(crate) trait Case<A: Allocator> {
    type Found;

    fn work<R: Abort>(&self, rt: &R, trace: &mut Thread<'_, A>);

    /// What is found of the spans that ended and of what was refused.
    fn look<R: Abort>(&self, rt: &R, pass: &BodyPass<A>, refused: Refused) -> Self::Found;
}

/// Has a thread do this on scarce memory, with identifiers of these words. Up to so many spans end
/// on its pass.
pub(crate) fn run<C, R, A>(
    rt: &R,
    ample: A,
    scarce: A,
    list: &[u64],
    room: usize,
    case: &C,
) -> C::Found
where
    C: Case<A>,
    R: Abort,
    A: Allocator + Copy,
{
    let resource = Arc::new(ample, Resource::new(ample, Vec::new(ample))).expect(rt, "memory");
    let provider = Provider::new(AlwaysOn, resource, SpanLimits::default());
    let scope = Scope::named(ample, "library").expect(rt, "memory");
    let tracer = provider.tracer(Arc::new(ample, scope).expect(rt, "memory"));
    let mut pass = BodyPass::new(ample, room).expect(rt, "memory");
    let words = WordsRng::new(Vec::from_slice(ample, list).expect(rt, "memory"));
    let mut trace = ThreadTracer::new(&tracer, scarce, words, Steps(Cell::new(0)), &mut pass);
    case.work(rt, &mut trace);
    let refused = trace.refused();
    drop(trace);
    case.look(rt, &pass, refused)
}

/// The span that ended at this place.
pub(crate) fn span_at<'a, A: Allocator>(
    rt: &impl Abort,
    pass: &'a BodyPass<A>,
    place: usize,
) -> &'a SpanData<A> {
    pass.spans().get(place).expect(rt, "a span")
}
