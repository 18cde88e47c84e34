//! Programs that a seeded generator makes, and the settings that they run with.
use batch_desk::DeskConfig;
use otlp_ids::{SpanContext, SpanId, TraceFlags, TraceId};
use otlp_sampler::{AlwaysOn, ParentBased};
use otlp_span::{Kind, Resource, Scope, SpanCall, SpanLimits};
use otlp_value::Value;
use rand_core::Rng;
use rand_pcg::Pcg32;
use retry_core::RetryConfig;
use std::alloc::Allocator;
use std::process::Abort;
use trace_api::WordsRng;
use trace_run::{Parent, RunConfig, Step};

const MILLISECOND: u64 = 1_000_000;

/// Samples roots, and any other span as its parent is sampled.
pub(crate) type ByParent = ParentBased<AlwaysOn>;

/// A number below this one, which isn't 0.
pub(crate) fn below(rng: &mut Pcg32, count: u32) -> u32 {
    rng.next_u32() % count.max(1)
}

/// Whether one of so many cases is drawn.
pub(crate) fn one_in(rng: &mut Pcg32, cases: u32) -> bool {
    below(rng, cases) == 0
}

fn text<A: Allocator>(rt: &impl Abort, alloc: A, text: &str) -> String<A> {
    String::from_str(alloc, text).expect(rt, "memory")
}

/// A span of elsewhere, which has a trace state.
fn elsewhere<A: Allocator>(rt: &impl Abort, alloc: A, flags: TraceFlags) -> Parent<A> {
    Parent::Given(SpanContext {
        trace: TraceId([7; 16]),
        span: SpanId([8; 8]),
        flags,
        remote: true,
        state: text(rt, alloc, "k=v"),
    })
}

/// A program on its way: how many spans it has asked for, and its clock.
#[derive(Drop)]
struct Making {
    rng: Pcg32,
    started: u32,
    now: u64,
}

impl Making {
    /// A number that a span may have, or that the next one will have.
    fn span(&mut self) -> u32 {
        let count = self.started.saturating_add(1);
        below(&mut self.rng, count)
    }

    /// The moment of a clock that goes on by up to three seconds, or stays as it is.
    fn moment(&mut self) -> u64 {
        if one_in(&mut self.rng, 2) {
            let step = u64::from(below(&mut self.rng, 3_000)).saturating_mul(MILLISECOND);
            self.now = self.now.saturating_add(step);
        }
        self.now
    }

    /// Some span or none, or one of elsewhere that is sampled or isn't.
    fn parent<A: Allocator>(&mut self, rt: &impl Abort, alloc: A) -> Parent<A> {
        match below(&mut self.rng, 10) {
            0 => elsewhere(rt, alloc, TraceFlags(0)),
            1 => elsewhere(rt, alloc, TraceFlags::SAMPLED),
            2..=4 => Parent::Span(self.span()),
            _ => Parent::Root,
        }
    }

    /// The start of a span, whose scope is seldom missing.
    fn start<A: Allocator + Copy>(&mut self, rt: &impl Abort, alloc: A) -> Step<A> {
        let parent = self.parent(rt, alloc);
        let scope = if one_in(&mut self.rng, 30) { 1 } else { 0 };
        let name = text(rt, alloc, name(below(&mut self.rng, 4)));
        self.started = self.started.saturating_add(1);
        Step::Start {
            scope,
            parent,
            kind: Kind::Internal,
            at: self.now,
            name,
        }
    }

    /// A call that is no end.
    fn set<A: Allocator>(&mut self, rt: &impl Abort, alloc: A) -> Step<A> {
        let span = self.span();
        let key = text(rt, alloc, name(below(&mut self.rng, 4)));
        let value = Value::Int(i64::from(self.rng.next_u32()));
        let call = SpanCall::SetAttribute(key, value);
        Step::Call { span, call }
    }

    fn end<A: Allocator>(&mut self) -> Step<A> {
        let span = self.span();
        let call = SpanCall::End(self.now);
        Step::Call { span, call }
    }

    fn take<A: Allocator>(&mut self) -> Step<A> {
        Step::Take { at: self.moment() }
    }

    fn attempt<A: Allocator>(&mut self) -> Step<A> {
        Step::Attempt { at: self.moment() }
    }

    fn reply<A: Allocator>(&mut self) -> Step<A> {
        let at = self.moment();
        let word = self.rng.next_u64();
        Step::Reply { at, word }
    }

    /// The next step.
    fn step<A: Allocator + Copy>(&mut self, rt: &impl Abort, alloc: A) -> Step<A> {
        match below(&mut self.rng, 200) {
            0..=43 => self.start(rt, alloc),
            44..=55 => self.set(rt, alloc),
            56..=95 => self.end(),
            96..=103 => Step::Flush,
            104 => Step::Shutdown,
            105..=128 => self.take(),
            129..=152 => Step::Encode,
            153..=176 => self.attempt(),
            _ => self.reply(),
        }
    }
}

/// The longest of these names.
const LONG_NAME: &str =
    "a name that takes more bytes in a body than the others, and more room while it is kept";

/// A name of a span, or of an attribute.
fn name(number: u32) -> &'static str {
    match number {
        0 => "",
        1 => "a",
        2 => "a longer name",
        _ => LONG_NAME,
    }
}

/// The steps of a program, so many, by a generator of this seed.
pub(crate) fn random_steps<A: Allocator + Copy>(
    rt: &impl Abort,
    alloc: A,
    seed: u64,
    count: u32,
) -> Vec<Step<A>, A> {
    let mut making = Making {
        rng: Pcg32::new(seed, 1),
        started: 0,
        now: 0,
    };
    let mut steps = Vec::new(alloc);
    for _step in 0..count {
        let step = making.step(rt, alloc);
        steps.push(step).expect(rt, "memory");
    }
    steps
}

/// A generator of words, of which some are zeros, and that runs dry in some runs.
fn random_words<A: Allocator>(rt: &impl Abort, alloc: A, rng: &mut Pcg32) -> WordsRng<A> {
    let mut words = Vec::new(alloc);
    for _word in 0..below(rng, 90).saturating_add(10) {
        let word = if one_in(rng, 8) { 0 } else { rng.next_u64() };
        words.push(word).expect(rt, "memory");
    }
    WordsRng::new(words)
}

/// A queue of a few spans, and batches of as many or less.
fn random_desk(rng: &mut Pcg32) -> DeskConfig {
    let queue = below(rng, 6).saturating_add(1);
    let batch = below(rng, queue).saturating_add(1);
    DeskConfig {
        queue: queue as usize,
        batch: batch.min(queue) as usize,
        delay_ms: below(rng, 4_000),
    }
}

/// The greatest body: some bytes in a third of the runs.
fn random_most(rng: &mut Pcg32) -> usize {
    if one_in(rng, 3) {
        return below(rng, 300) as usize;
    }
    4_194_304
}

/// Up to five attempts, after waits of half a second and more.
fn random_retry(rt: &impl Abort, rng: &mut Pcg32) -> RetryConfig {
    let attempts = below(rng, 5).saturating_add(1);
    RetryConfig::new(attempts, 500, 2_000).expect(rt, "settings")
}

/// What a run begins with.
pub(crate) fn random_config<A: Allocator + Copy>(
    rt: &impl Abort,
    alloc: A,
    seed: u64,
) -> RunConfig<ByParent, WordsRng<A>, A> {
    let mut rng = Pcg32::new(seed, 3);
    let words = random_words(rt, alloc, &mut rng);
    let mut scopes = Vec::new(alloc);
    let scope = Scope::named(alloc, "s").expect(rt, "memory");
    scopes.push(scope).expect(rt, "memory");
    RunConfig {
        sampler: ParentBased::new(AlwaysOn),
        limits: SpanLimits::default(),
        resource: Resource::new(alloc, Vec::new(alloc)),
        scopes,
        desk: random_desk(&mut rng),
        retry: random_retry(rt, &mut rng),
        max_body: random_most(&mut rng),
        rng: words,
    }
}
