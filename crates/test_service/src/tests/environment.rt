//! A whole service by settings, and by the environment.
use crate::tests::equal::assert_equal;
use http_exporter::ReportsFailure;
use otel_settings::settings_of;
use otlp_span::Kind;
use retry_core::RetryConfig;
use std::alloc::Global;
use std::io::{self, Write};
use std::process::Abort;
use std::str;
use std::sync::{Arc, Mutex, Wait};
use thread_tracer::ThreadTrace;
use traced_service::{ServiceSetup, TracedDone, TracedWork, serve_from_environment};

/// Each thread ends so many spans, as fast as it can, and gives its number.
#[derive(Clone, Copy)]
struct Flood(u64);

impl TracedWork for Flood {
    type Output = usize;

    fn work<T: ThreadTrace>(&self, thread: usize, trace: &mut T) -> usize {
        for _ in 0..self.0 {
            let span = trace.start("work", Kind::Internal);
            trace.end(span);
        }
        thread
    }
}

/// The ticket of a line, which is written at once.
fn ticket_of(line: &[u8]) -> Option<u64> {
    let line = str::from_utf8(line).ok()?.strip_suffix("\n")?;
    let mut words = line.split(' ');
    match words.next()? {
        "dropped" | "lost" => words.next()?.parse().ok(),
        _ => None,
    }
}

/// A log that keeps the ticket of each line, and another number for what is no line.
#[derive(Drop)]
struct Tickets<R> {
    rt: R,
    tickets: Arc<Mutex<Vec<u64>>>,
}

impl<R: Wait> Write for Tickets<R> {
    ghost use Rattle.std.specs.Prelude.{None};

    ghost contents = { λ _. None };

    fn write(&mut self, buf: &[u8]) -> io::Result<usize> {
        let ticket = ticket_of(buf).unwrap_or(u64::MAX);
        self.tickets.lock(&self.rt).push(ticket)?;
        Ok(buf.len())
    }

    fn flush(&mut self) -> io::Result<()> {
        Ok(())
    }
}

/// The setup of a service at whose collector's port nobody listens, with a short queue.
fn undelivered(rt: &impl Abort, alloc: Global) -> ServiceSetup {
    let pairs = [
        ("OTEL_EXPORTER_OTLP_ENDPOINT", "http://127.0.0.1:1"),
        ("OTEL_BSP_MAX_QUEUE_SIZE", "64"),
        ("OTEL_BSP_MAX_EXPORT_BATCH_SIZE", "16"),
    ];
    let settings = settings_of(alloc, &pairs).expect(rt, "memory");
    let setup = ServiceSetup::new(alloc, "shop", settings).expect(rt, "memory");
    setup.with_retry(RetryConfig::new(1, 1, 1).expect(rt, "a retry"))
}

/// Asserts that these are the tickets from 0 on up to this one, each once, in any order.
fn assert_each_once(rt: &impl Abort, tickets: &mut Vec<u64>, end: u64) {
    tickets.sort().expect(rt, "memory");
    let mut next = 0u64;
    for ticket in &*tickets {
        assert_equal(rt, *ticket, next);
        next = next.saturating_add(1);
    }
    assert_equal(rt, next, end);
}

/// Asserts what a service came to whose spans are all named: each thread's number, in their order,
/// how many spans were dropped or lost, and how its counts begin.
fn assert_named<E: ReportsFailure, L: Write + Drop>(
    rt: &impl Abort,
    alloc: Global,
    done: &TracedDone<usize, E, L>,
    spans: u64,
) {
    for (place, thread) in done.threads.iter().enumerate() {
        assert_equal(rt, thread.output, place);
    }
    let totals = done.totals();
    let named = totals.lost.saturating_add(totals.dropped.queue_full);
    assert_equal(
        rt,
        (named, totals.left, done.refused.not_started),
        (spans, 0, 0),
    );
    let mut lines = Vec::new(alloc);
    done.write_counts(&mut lines).expect(rt, "memory");
    assert_equal(rt, lines.starts_with(b"spans handed "), true);
}

/// No span is delivered: each is dropped or lost.
#[test]
fn of_eight_threads_each_span_that_is_not_delivered_is_named_once(rt: HostRuntime) {
    let alloc = rt.alloc();
    let tickets = Arc::new(alloc, Mutex::new(Vec::new(alloc))).expect(&rt, "memory");
    let log = Tickets {
        rt,
        tickets: Arc::try_clone(&tickets).expect(&rt, "memory"),
    };
    let setup = undelivered(&rt, alloc);
    let done = setup
        .serve(rt, log, 8, &Flood(500))
        .expect(&rt, "a service");
    assert_named(&rt, alloc, &done, 4000);
    assert_equal(&rt, done.served.sink.unwritten(), 0);
    assert_each_once(&rt, &mut *tickets.lock(&rt), 4000);
}

/// A thread that ends so many spans while the log can't be written.
#[derive(Drop)]
struct Unread<R> {
    rt: R,
    tickets: Arc<Mutex<Vec<u64>>>,
    spans: u64,
}

impl<R: Wait> TracedWork for Unread<R> {
    type Output = usize;

    fn work<T: ThreadTrace>(&self, thread: usize, trace: &mut T) -> usize {
        let held = self.tickets.lock(&self.rt);
        let thread = Flood(self.spans).work(thread, trace);
        drop(held);
        thread
    }
}

/// No span is delivered: each is named, or its name is counted.
#[test]
fn a_log_that_nobody_reads_holds_up_no_end(rt: HostRuntime) {
    let alloc = rt.alloc();
    let tickets = Arc::new(alloc, Mutex::new(Vec::new(alloc))).expect(&rt, "memory");
    let log = Tickets {
        rt,
        tickets: Arc::try_clone(&tickets).expect(&rt, "memory"),
    };
    let work = Unread {
        rt,
        tickets: Arc::try_clone(&tickets).expect(&rt, "memory"),
        spans: 20_000,
    };
    let setup = undelivered(&rt, alloc);
    let done = setup.serve(rt, log, 1, &work).expect(&rt, "a service");
    assert_named(&rt, alloc, &done, 20_000);
    let unwritten = done.served.sink.unwritten();
    assert_equal(&rt, unwritten > 0, true);
    let mut tickets = tickets.lock(&rt);
    tickets.sort().expect(&rt, "memory");
    let mut next = 0u64;
    for ticket in &*tickets {
        assert_equal(&rt, next <= *ticket && *ticket < 20_000, true);
        next = ticket.saturating_add(1);
    }
    assert_equal(&rt, unwritten.saturating_add(tickets.len() as u64), 20_000);
}

#[test]
fn a_service_from_the_environment_does_its_work(rt: HostRuntime) {
    let done = serve_from_environment(rt, rt.stderr(), "shop", 2, &Flood(0));
    assert_named(&rt, rt.alloc(), &done.expect(&rt, "a service"), 0);
}
