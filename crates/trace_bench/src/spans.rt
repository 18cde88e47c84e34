//! Spans that are kept, and the field of their contexts.
use crate::figures::{Rounds, Took, nanos_since};
use crate::load::end_spans;
use anyhow::Result;
use otlp_sampler::AlwaysOn;
use otlp_span::{Resource, Scope, SpanData, SpanLimits};
use rand::SeedableRng;
use rand::rngs::StdRng;
use std::alloc::Global;
use std::sync::Arc;
use std::time::Instant;
use thread_tracer::ThreadTracer;
use trace_api::{BodyPass, Provider, SystemClock, Tracer};
use trace_context::{read_traceparent, write_traceparent};

/// How many spans a round has.
const SPANS: usize = 512;

/// The provider of spans.
pub fn new_provider(alloc: Global) -> Result<Provider<AlwaysOn>> {
    let resource = Arc::new(alloc, Resource::service(alloc, "bench")?)?;
    Ok(Provider::new(AlwaysOn, resource, SpanLimits::default()))
}

/// Ends so many spans of a tracer on a pass, with so many attributes.
pub fn keep_spans(
    rt: HostRuntime,
    tracer: &Tracer<'_, AlwaysOn>,
    attributes: usize,
    count: u64,
    pass: &mut BodyPass,
) {
    let (rng, clock) = (StdRng::seed_from_u64(count), SystemClock::new(rt));
    let mut trace = ThreadTracer::new(tracer, rt.alloc(), rng, clock, pass);
    end_spans(&mut trace, attributes, count);
}

/// A round of spans that are kept, and how many were.
fn time_kept(rt: HostRuntime, tracer: &Tracer<'_, AlwaysOn>, attributes: usize) -> Result<Took> {
    let mut pass = BodyPass::new(rt.alloc(), SPANS)?;
    let start = Instant::now(&rt)?;
    keep_spans(rt, tracer, attributes, SPANS as u64, &mut pass);
    let nanos = nanos_since(&rt, start)?;
    Ok((nanos, pass.spans().len() as u64))
}

/// A round in which the contexts of spans are written.
fn time_writing(rt: HostRuntime, spans: &[SpanData]) -> Result<Took> {
    let (mut field, mut sum) = ([0; 55], 0u64);
    let start = Instant::now(&rt)?;
    for span in spans {
        write_traceparent(span.context(), &mut field);
        sum = sum.wrapping_add(u64::from(field[50]));
    }
    Ok((nanos_since(&rt, start)?, sum))
}

/// A round in which a context is read as often as there are spans, and how often it was.
fn time_reading(rt: HostRuntime, field: &[u8; 55]) -> Result<Took> {
    let mut found = 0u64;
    let start = Instant::now(&rt)?;
    for _span in 0..SPANS {
        found = found.saturating_add(u64::from(read_traceparent(rt.alloc(), field).is_some()));
    }
    Ok((nanos_since(&rt, start)?, found))
}

/// What is done in a round.
#[derive(Clone, Copy)]
enum Part<'a> {
    /// Spans of this tracer are kept, with so many attributes.
    Keep(&'a Tracer<'a, AlwaysOn>, usize),
    /// The contexts of these spans are written.
    Write(&'a [SpanData]),
    /// This field is read, as often as there are spans.
    Read(&'a [u8; 55]),
}

/// Prints how long each span takes in so many rounds of this.
fn print_part(rt: HostRuntime, what: &str, part: Part<'_>, rounds: u32) -> Result<()> {
    let mut all = Rounds::new(rt.alloc());
    for _round in 0..rounds {
        all.add(match part {
            Part::Keep(tracer, attributes) => time_kept(rt, tracer, attributes)?,
            Part::Write(spans) => time_writing(rt, spans)?,
            Part::Read(field) => time_reading(rt, field)?,
        })?;
    }
    all.print(rt, what, SPANS)
}

/// Prints how many spans with so many attributes are kept, and, with rounds, how long each takes,
/// and the field of a context.
fn print_row(rt: HostRuntime, attributes: usize, rounds: u32) -> Result<()> {
    let alloc = rt.alloc();
    let provider = new_provider(alloc)?;
    let tracer = provider.tracer(Arc::new(alloc, Scope::named(alloc, "bench")?)?);
    let mut pass = BodyPass::new(alloc, SPANS)?;
    keep_spans(rt, &tracer, attributes, SPANS as u64, &mut pass);
    let mut field = [0; 55];
    if let Some(span) = pass.spans().first() {
        write_traceparent(span.context(), &mut field);
    }
    let count = pass.spans().len();
    print!(rt; "{count} spans with {attributes} attributes are kept")?;
    print_part(rt, "kept", Part::Keep(&tracer, attributes), rounds)?;
    print_part(rt, "written", Part::Write(pass.spans()), rounds)?;
    print_part(rt, "read", Part::Read(&field), rounds)?;
    println!(rt; "")?;
    Ok(())
}

/// Prints that without attributes, and with five.
pub fn print_spans(rt: HostRuntime, rounds: u32) -> Result<()> {
    print_row(rt, 0, rounds)?;
    print_row(rt, 5, rounds)
}
