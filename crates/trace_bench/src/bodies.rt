//! Batches of spans whose scopes take turns: grouped, encoded, copied and read.
use crate::figures::{Rounds, Took, nanos_since};
use crate::spans::{keep_spans, new_provider};
use anyhow::Result;
use otlp_proto::{ResourceGroup, encode, group};
use otlp_read::read_request;
use otlp_sampler::AlwaysOn;
use otlp_span::{Scope, SpanData};
use std::alloc::Global;
use std::sync::Arc;
use std::time::Instant;
use trace_api::{BodyPass, Tracer};

/// How many spans a batch has, unless it is to show how times grow.
const SPANS: usize = 512;

/// Ends a span of each of these tracers on a pass, with so many attributes.
fn take_turns(
    rt: HostRuntime,
    tracers: &[Tracer<'_, AlwaysOn>],
    attributes: usize,
    pass: &mut BodyPass,
) {
    for tracer in tracers {
        keep_spans(rt, tracer, attributes, 1, pass);
    }
}

/// A batch of so many spans, of so many scopes.
fn new_batch(rt: HostRuntime, spans: usize, scopes: usize, attributes: usize) -> Result<BodyPass> {
    let alloc = rt.alloc();
    let provider = new_provider(alloc)?;
    let mut tracers = Vec::new(alloc);
    for number in 0..scopes {
        let name = format!(in alloc; "checkout-{number}")?;
        let scope = Arc::new(alloc, Scope::named(alloc, name.as_str())?)?;
        tracers.push(provider.tracer(scope))?;
    }
    let mut pass = BodyPass::new(alloc, spans)?;
    for _turn in 0..spans / scopes.max(1) {
        take_turns(rt, &tracers, attributes, &mut pass);
    }
    Ok(pass)
}

/// These spans in groups.
fn grouped(alloc: Global, spans: &[SpanData]) -> Result<Vec<ResourceGroup<'_>>> {
    Ok(group(alloc, spans)?)
}

/// The body of these groups.
fn encoded(alloc: Global, groups: &[ResourceGroup<'_>]) -> Result<Vec<u8>> {
    Ok(encode(alloc, groups, usize::MAX)?)
}

/// A round in which spans are grouped, and how many groups came out.
fn time_grouping(rt: HostRuntime, spans: &[SpanData]) -> Result<Took> {
    let start = Instant::now(&rt)?;
    let groups = grouped(rt.alloc(), spans)?.len();
    Ok((nanos_since(&rt, start)?, groups as u64))
}

/// A round in which groups are encoded, and how many bytes came out.
fn time_encoding(rt: HostRuntime, groups: &[ResourceGroup<'_>]) -> Result<Took> {
    let start = Instant::now(&rt)?;
    let bytes = encoded(rt.alloc(), groups)?.len();
    Ok((nanos_since(&rt, start)?, bytes as u64))
}

/// A round in which a body is copied, and the last of its bytes.
fn time_copying(rt: HostRuntime, body: &[u8], copy: &mut Vec<u8>) -> Result<Took> {
    let start = Instant::now(&rt)?;
    copy.clear();
    copy.extend_from_slice(body)?;
    let last = copy.last().copied().unwrap_or(0);
    Ok((nanos_since(&rt, start)?, u64::from(last)))
}

/// A round in which a body is read and let go, and how many resources came out.
fn time_reading(rt: HostRuntime, body: &[u8]) -> Result<Took> {
    let start = Instant::now(&rt)?;
    let resources = read_request(rt.alloc(), body)?.resource_spans.len();
    Ok((nanos_since(&rt, start)?, resources as u64))
}

/// What is done in a round.
#[derive(Clone, Copy)]
enum Part<'a> {
    /// Spans are grouped.
    Group(&'a [SpanData]),
    /// Groups are encoded.
    Encode(&'a [ResourceGroup<'a>]),
    /// A body is copied.
    Copy(&'a [u8]),
    /// A body is read.
    Read(&'a [u8]),
}

/// Prints how long each of so many things takes in so many rounds of this.
fn print_part(
    rt: HostRuntime,
    what: &str,
    part: Part<'_>,
    things: usize,
    rounds: u32,
) -> Result<()> {
    let (mut all, mut copy) = (Rounds::new(rt.alloc()), Vec::new(rt.alloc()));
    for _round in 0..rounds {
        all.add(match part {
            Part::Group(spans) => time_grouping(rt, spans)?,
            Part::Encode(groups) => time_encoding(rt, groups)?,
            Part::Copy(body) => time_copying(rt, body, &mut copy)?,
            Part::Read(body) => time_reading(rt, body)?,
        })?;
    }
    all.print(rt, what, things)
}

/// Prints how many bytes the body of a batch has, and, with rounds, how long each of its spans
/// takes.
fn print_batch(
    rt: HostRuntime,
    count: usize,
    scopes: usize,
    attributes: usize,
    rounds: u32,
) -> Result<()> {
    let pass = new_batch(rt, count, scopes, attributes)?;
    let groups = grouped(rt.alloc(), pass.spans())?;
    let body = encoded(rt.alloc(), &groups)?;
    let bytes = body.len();
    print!(rt; "{count} spans, {scopes} scopes, {attributes} attributes: {bytes} bytes")?;
    print_part(rt, "grouped", Part::Group(pass.spans()), count, rounds)?;
    print_part(rt, "encoded", Part::Encode(&groups), count, rounds)?;
    print_part(rt, "copied", Part::Copy(&body), count, rounds)?;
    print_part(rt, "read", Part::Read(&body), count, rounds)?;
    println!(rt; "")?;
    Ok(())
}

/// Prints a line for each number of scopes, without attributes and with five.
pub fn print_bodies(rt: HostRuntime, rounds: u32) -> Result<()> {
    for scopes in [1, 8, 64] {
        print_batch(rt, SPANS, scopes, 0, rounds)?;
        print_batch(rt, SPANS, scopes, 5, rounds)?;
    }
    Ok(())
}

/// Prints lines of larger batches, and of bodies of empty resources, so that times are seen to grow
/// with the spans and with the bytes.
pub fn print_growth(rt: HostRuntime, rounds: u32) -> Result<()> {
    let (some, few) = ((rounds / 10).max(1), (rounds / 100).max(1));
    print_batch(rt, 5_120, 1, 0, some)?;
    print_batch(rt, 5_120, 1, 5, some)?;
    print_batch(rt, 51_200, 1, 0, few)?;
    print_batch(rt, 51_200, 1, 5, few)?;
    print_empty(rt, 10_000)?;
    print_empty(rt, 100_000)?;
    print_empty(rt, 1_000_000)
}

/// Prints how long empty resources take to be read.
fn print_empty(rt: HostRuntime, resources: usize) -> Result<()> {
    let mut body = Vec::new(rt.alloc());
    for _resource in 0..resources {
        body.extend_from_slice(&[0x0a, 0x00])?;
    }
    print!(rt; "{resources} empty resources")?;
    print_part(rt, "read", Part::Read(&body), resources, 1)?;
    println!(rt; "")?;
    Ok(())
}
