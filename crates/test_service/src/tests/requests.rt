//! What services work with: threads that make spans, an exporter with listed answers, and a sink
//! that keeps each name.
use batch_desk::DeskConfig;
use batch_processor::BatchConfig;
use batch_service::{ServicePass, Work};
use drop_ledger::NameSink;
use otlp_ids::OutOfMemory;
use otlp_sampler::AlwaysOn;
use otlp_span::{Entry, Kind, Resource, Scope, SpanData, SpanLimits};
use retry_core::{Outcome, RetryConfig};
use span_exporter::Exporter;
use std::alloc::Global;
use std::process::Abort;
use std::sync::atomic::{AtomicU64, Ordering};
use std::sync::{Arc, Wait};
use std::thread;
use std::time::{self, Duration};
use thread_tracer::ThreadTracer;
use trace_api::{Clock, EndPass, Ended, Provider, WordsRng};

/// How often a thread looks whether all others have begun, a millisecond apart.
const LOOKS: u64 = 20_000;

/// A clock that stands still.
#[derive(Drop)]
struct Still;

impl Clock for Still {
    ghost use Rattle.std.specs.Prelude.{⊤};

    ghost tells = { λ clock at. ⊤ };

    fn now(&self) -> u64 {
        1
    }
}

/// What became of a thread's spans.
#[derive(Debug, Clone, Copy, PartialEq, Eq)]
pub(crate) struct Came {
    pub(crate) queued: u64,
    pub(crate) dropped: u64,
    pub(crate) not_started: u64,
}

/// Words for so many roots, each of which draws two for its trace and one for itself.
pub(crate) fn words(alloc: Global, roots: u64) -> Result<WordsRng, OutOfMemory> {
    let mut words = Vec::new(alloc);
    for word in 0..roots.saturating_mul(3) {
        words.push(word.saturating_add(1))?;
    }
    Ok(WordsRng::new(words))
}

/// Makes so many roots on a pass, one after another, by a provider, a scope and a tracer of its own.
pub(crate) fn make_roots<P: EndPass<SpanData>>(
    alloc: Global,
    words: WordsRng,
    roots: u64,
    pass: &mut P,
) -> Result<Came, OutOfMemory> {
    let resource = Arc::new(alloc, Resource::new(alloc, Vec::new(alloc)))?;
    let provider = Provider::new(AlwaysOn, resource, SpanLimits::default());
    let tracer = provider.tracer(Arc::new(alloc, Scope::named(alloc, "s")?)?);
    let mut trace = ThreadTracer::new(&tracer, alloc, words, Still, pass);
    let (mut queued, mut dropped) = (0u64, 0u64);
    for _ in 0..roots {
        let root = trace.start("a", Kind::Internal);
        match trace.end(root) {
            Ended::Queued(_) => queued = queued.saturating_add(1),
            Ended::Dropped(..) => dropped = dropped.saturating_add(1),
            _ => {}
        }
    }
    Ok(Came {
        queued,
        dropped,
        not_started: trace.refused().not_started,
    })
}

/// Each thread waits for all others to begin, and then makes so many roots. It has words for all of
/// them, or for ten more than the thread before it.
#[derive(Drop)]
pub(crate) struct Roots<R> {
    pub(crate) rt: R,
    pub(crate) alloc: Global,
    pub(crate) threads: u64,
    pub(crate) roots: u64,
    pub(crate) has_all_words: bool,
    pub(crate) begun: AtomicU64,
}

impl<R: Wait + time::Clock> Roots<R> {
    /// Whether all threads begin, in some twenty seconds.
    fn meets_all(&self) -> bool {
        self.begun.fetch_add(1, Ordering::SeqCst);
        for _ in 0..LOOKS {
            if self.begun.load(Ordering::SeqCst) == self.threads {
                return true;
            }
            thread::sleep(&self.rt, Duration::from_millis(1));
        }
        false
    }
}

impl<R: Wait + time::Clock> Work for Roots<R> {
    /// The thread's number, and what became of its spans. `None` where memory was refused, or not
    /// all other threads began.
    type Output = Option<(usize, Came)>;

    fn work<P: ServicePass>(&self, thread: usize, pass: &mut P) -> Option<(usize, Came)> {
        if !self.meets_all() {
            return None;
        }
        let known = if self.has_all_words {
            self.roots
        } else {
            (thread as u64).saturating_mul(10)
        };
        let words = words(self.alloc, known).ok()?;
        let came = make_roots(self.alloc, words, self.roots, pass).ok()?;
        Some((thread, came))
    }
}

/// An exporter whose first attempts have these outcomes, and all others this one. It takes so many
/// milliseconds for each, and counts those at which the sink has another number of names than there
/// were batches before.
#[derive(Drop)]
pub(crate) struct Answers<R> {
    pub(crate) rt: R,
    pub(crate) first: &'static [Outcome],
    pub(crate) rest: Outcome,
    pub(crate) ms: u64,
    pub(crate) given: Arc<AtomicU64>,
    pub(crate) attempts: usize,
    pub(crate) unnamed: u64,
}

impl<R: Wait + time::Clock> Exporter for Answers<R> {
    ghost use Rattle.std.specs.Prelude.{None, ◌^◌};

    ghost handed = { λ _. None };

    ghost room = { λ _ _. 2 ^ 32 };

    fn prepare(&mut self, _size: usize, _attempts: u32) -> Result<(), OutOfMemory> {
        Ok(())
    }

    fn export(&mut self, number: u64, _attempt: u32, _body: &[u8]) -> Outcome {
        if self.given.load(Ordering::SeqCst) != number.saturating_sub(1) {
            self.unnamed = self.unnamed.saturating_add(1);
        }
        if self.ms > 0 {
            thread::sleep(&self.rt, Duration::from_millis(self.ms));
        }
        let outcome = self.first.get(self.attempts).copied();
        self.attempts = self.attempts.saturating_add(1);
        outcome.unwrap_or(self.rest)
    }
}

/// A sink that keeps all names, in the order in which they come. One that memory is refused for is
/// only counted.
#[derive(Drop)]
pub(crate) struct Names {
    pub(crate) names: Vec<Entry>,
    pub(crate) given: Arc<AtomicU64>,
}

impl Names {
    fn take(&mut self, entry: Entry) {
        self.given.fetch_add(1, Ordering::SeqCst);
        let _ = self.names.push(entry);
    }
}

impl NameSink for Names {
    ghost use Rattle.std.specs.Prelude.{None};

    ghost named = { λ _. None };

    fn take_dropped(&mut self, entry: Entry) {
        self.take(entry);
    }

    fn take_lost(&mut self, entry: Entry) {
        self.take(entry);
    }
}

/// An exporter whose first attempts have these outcomes, and all others this one, after so many
/// milliseconds each; and a sink, whose names it counts.
pub(crate) fn ends<R: Abort + Copy>(
    rt: &R,
    alloc: Global,
    first: &'static [Outcome],
    rest: Outcome,
    ms: u64,
) -> (Answers<R>, Names) {
    let given = Arc::new(alloc, AtomicU64::new(0)).expect(rt, "memory");
    let sink = Names {
        names: Vec::new(alloc),
        given: Arc::try_clone(&given).expect(rt, "memory"),
    };
    let exporter = Answers {
        rt: *rt,
        first,
        rest,
        ms,
        given,
        attempts: 0,
        unnamed: 0,
    };
    (exporter, sink)
}

/// A queue of so many spans and batches of so many, each sent twice at most, with a short wait.
pub(crate) fn config(rt: &impl Abort, queue: usize, batch: usize) -> BatchConfig {
    BatchConfig {
        desk: DeskConfig {
            queue,
            batch,
            ..DeskConfig::default()
        },
        retry: RetryConfig::new(2, 1, 1).expect(rt, "a retry"),
        ..BatchConfig::default()
    }
}
