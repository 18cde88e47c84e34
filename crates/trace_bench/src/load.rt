//! The spans that a thread starts and ends.
use anyhow::Result;
use otlp_span::Kind;
use std::alloc::Global;
use std::thread;
use std::time::{Clock, Duration};
use thread_tracer::{ThreadSpan, ThreadTrace};

/// Attributes that a span may have.
const ATTRIBUTES: [(&str, &str); 5] = [
    ("http.request.method", "GET"),
    ("http.route", "/cart/{id}"),
    ("server.address", "shop.example"),
    ("user_agent.original", "curl/8.5.0"),
    ("network.protocol.version", "1.1"),
];

/// How many spans a thread ends before it looks whether its time is up, at full speed and at a pace.
const BURST: u64 = 64;

const PACED_BURST: u64 = 8;

/// What a thread does.
#[derive(Clone, Copy)]
pub struct Load<R> {
    /// What it waits by.
    pub rt: R,
    /// The memory.
    pub alloc: Global,
    /// How many attributes each span has, 5 at most.
    pub attributes: usize,
    /// For how long it ends spans, in nanoseconds.
    pub nanos: u64,
    /// Whether each end is timed.
    pub is_timed: bool,
    /// How much time each span of this thread has, in nanoseconds. 0 is full speed.
    pub pace: u64,
}

/// What threads came to.
#[derive(Drop)]
pub struct Ran {
    /// How many spans ended.
    pub spans: u64,
    /// How long that took its threads, in nanoseconds.
    pub nanos: u64,
    /// How long each end took, in nanoseconds, where ends are timed.
    pub ends: Vec<u64>,
}

impl Ran {
    /// No span.
    pub fn new(alloc: Global) -> Ran {
        Ran {
            spans: 0,
            nanos: 0,
            ends: Vec::new(alloc),
        }
    }

    /// Adds what another thread came to.
    pub fn add(&mut self, other: &Ran) -> Result<()> {
        self.spans = self.spans.saturating_add(other.spans);
        self.nanos = self.nanos.saturating_add(other.nanos);
        self.ends.extend_from_slice(&other.ends)?;
        Ok(())
    }
}

/// Starts a span with so many attributes.
fn start_span<T: ThreadTrace>(trace: &mut T, attributes: usize) -> ThreadSpan {
    let mut span = trace.start("GET /cart", Kind::Server);
    for (key, text) in ATTRIBUTES.iter().take(attributes) {
        span.set(key, *text);
    }
    span
}

/// Starts and ends so many spans.
pub fn end_spans<T: ThreadTrace>(trace: &mut T, attributes: usize, count: u64) {
    for _span in 0..count {
        let span = start_span(trace, attributes);
        trace.end(span);
    }
}

/// The same, where each end is timed. An end for which there is no memory is left out.
fn time_ends<T: ThreadTrace>(trace: &mut T, attributes: usize, count: u64, ends: &mut Vec<u64>) {
    for _span in 0..count {
        let span = start_span(trace, attributes);
        let before = trace.now();
        trace.end(span);
        let _ = ends.push(trace.now().saturating_sub(before));
    }
}

/// Starts and ends spans until the time is up, and waits after each burst where they have a pace.
pub fn run_load<T: ThreadTrace, R: Clock>(trace: &mut T, load: &Load<R>) -> Ran {
    let mut ran = Ran::new(load.alloc);
    let burst = if load.pace == 0 { BURST } else { PACED_BURST };
    let start = trace.now();
    for _burst in 0..u64::MAX {
        if load.is_timed {
            time_ends(trace, load.attributes, burst, &mut ran.ends);
        } else {
            end_spans(trace, load.attributes, burst);
        }
        ran.spans = ran.spans.saturating_add(burst);
        ran.nanos = trace.now().saturating_sub(start);
        if ran.nanos >= load.nanos {
            break;
        }
        let early = ran
            .spans
            .saturating_mul(load.pace)
            .saturating_sub(ran.nanos);
        if early > 0 {
            let _ = thread::sleep(&load.rt, Duration::from_nanos(early));
        }
    }
    ran
}
