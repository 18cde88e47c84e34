//! A service that is started and stopped by hand.
ghost use Rattle.std.specs.Prelude.{◌≡◌};

use crate::tests::equal::assert_equal;
use crate::tests::requests::{Answers, Names, config, ends, make_roots, words};
use batch_processor::{BatchBlank, Flushed, ManualClock, Naming};
use batch_service::{Service, Started};
use otlp_span::SpanData;
use rand_core::SeedableRng;
use rand_pcg::Pcg64;
use retry_core::Outcome;
use std::alloc::Global;
use std::marker::Brand;
use std::process::Abort;
use std::sync::Wait;
use std::thread::{self, Threads};
use std::time::{Clock, Duration};
use trace_api::EndPass;

/// Ends so many spans on a pass. All are queued.
fn end_on<P: EndPass<SpanData>>(rt: &impl Abort, alloc: Global, spans: u64, pass: &mut P) {
    let words = words(alloc, spans).expect(rt, "memory");
    let came = make_roots(alloc, words, spans, pass).expect(rt, "memory");
    assert_equal(rt, came.queued, spans);
}

/// Starts a service of two passes, whose batches are due when a second has passed since its start,
/// by a clock that stands still. Ends three spans, waits a while, flushes, and hands in one pass,
/// which is given back; ends two more, and hands in both. Answers how many spans were handed after
/// the wait, after the flush and at the end.
fn lead<J, R>(rt: &R, alloc: Global, blank: BatchBlank) -> (u64, u64, u64)
where
    J: Naming + Send + Sync + 'static,
    R: Abort + Threads + Wait + Clock + Copy + Send + Sync + 'static,
    requires { blank ≡ J.name }
{
    let (exporter, sink) = ends(rt, alloc, &[], Outcome::Delivered, 0);
    let mut config = config(rt, 8, 4);
    config.desk.delay_ms = 1000;
    let clock = ManualClock::new(77_000_000_005);
    let rng = Pcg64::seed_from_u64(1);
    let started = Service::<J, R, Answers<R>, Names>::start_with(
        alloc, *rt, blank, exporter, sink, config, 2, clock, rng,
    );
    let Started {
        mut service,
        mut passes,
    } = started.expect(rt, "a service");
    let mut first = passes.pop().expect(rt, "a pass");
    end_on(rt, alloc, 3, &mut first);
    thread::sleep(rt, Duration::from_millis(200));
    let early = service.totals().handed;
    assert_equal(rt, service.flush(), Ok(Flushed));
    let flushed = service.totals().handed;
    let missing = service.stop(passes).err().expect(rt, "a pass is missing");
    let (service, mut passes) = (missing.service, missing.passes);
    end_on(rt, alloc, 2, &mut first);
    passes.push(first).expect(rt, "memory");
    let served = service.stop(passes).ok().expect(rt, "all passes");
    (early, flushed, served.desk.totals().handed)
}

/// The clock says 77 seconds after 1970 all the time, so no second passes since the start.
#[test]
fn a_service_goes_on_where_a_pass_is_missing(rt: HostRuntime) {
    let counts = lead::<Brand, HostRuntime>(&rt, rt.alloc(), BatchBlank::new());
    assert_equal(&rt, counts, (0, 3, 5));
}
