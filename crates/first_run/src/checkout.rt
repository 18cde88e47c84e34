//! The spans of a checkout.
use anyhow::Result;
use rand::SeedableRng;
use rand::rngs::StdRng;
use std::alloc::Global;
use std::sync::Arc;
use trace_kit::processor::ManualClock;
use trace_kit::trace::{
    AlwaysOn, EndPass, Kind, Provider, Resource, Scope, SpanData, SpanLimits, ThreadTrace,
    ThreadTracer,
};

/// How many spans a checkout has.
pub const SPAN_COUNT: usize = 8;

/// When the first checkout begins, in nanoseconds since 1970. Each later one begins a second after
/// the one before it.
const FIRST_AT: u64 = 1_790_000_000_000_000_000;

/// The made-up time of a checkout.
#[derive(Drop)]
struct Time {
    clock: ManualClock,
    begin: u64,
}

impl Time {
    /// That of the checkout with this number.
    fn of_checkout(number: u64) -> Time {
        let begin = FIRST_AT.saturating_add(number.saturating_mul(1_000_000_000));
        Time {
            clock: ManualClock::new(begin),
            begin,
        }
    }

    /// Sets it to so many microseconds after the checkout has begun.
    fn set(&self, us: u64) {
        self.clock
            .set(self.begin.saturating_add(us.saturating_mul(1000)));
    }
}

/// A step with no step in it, from one moment to another.
fn step(trace: &mut impl ThreadTrace, time: &Time, name: &str, kind: Kind, from: u64, to: u64) {
    time.set(from);
    let span = trace.start(name, kind);
    time.set(to);
    trace.end(span);
}

/// Loads the cart.
fn load_cart(trace: &mut impl ThreadTrace, time: &Time) {
    time.set(9_100);
    let span = trace.start("load cart", Kind::Internal);
    step(
        trace,
        time,
        "SELECT cart_items",
        Kind::Client,
        10_200,
        38_900,
    );
    time.set(41_300);
    trace.end(span);
}

/// Tries to pay. No answer comes.
fn post_in_vain(trace: &mut impl ThreadTrace, time: &Time) {
    time.set(42_900);
    let mut span = trace.start("POST payments", Kind::Client);
    time.set(102_900);
    span.set_error("no answer in time");
    trace.end(span);
}

/// Charges the card. The payment is tried twice.
fn charge_card(trace: &mut impl ThreadTrace, time: &Time) {
    time.set(42_000);
    let span = trace.start("charge card", Kind::Internal);
    post_in_vain(trace, time);
    step(trace, time, "POST payments", Kind::Client, 105_000, 149_900);
    time.set(151_600);
    trace.end(span);
}

/// Checks out. What starts while a span is open is a child of that.
fn check_out(trace: &mut impl ThreadTrace, time: &Time) {
    let span = trace.start("POST /checkout", Kind::Server);
    step(trace, time, "verify session", Kind::Internal, 900, 8_740);
    load_cart(trace, time);
    charge_card(trace, time);
    step(trace, time, "save order", Kind::Internal, 152_300, 179_800);
    time.set(184_200);
    trace.end(span);
}

/// Serves the checkout with this number. Its spans go to the pass as they end; their moments and
/// their identifiers go by the number alone.
pub fn serve<P: EndPass<SpanData>>(alloc: Global, number: u64, pass: &mut P) -> Result<()> {
    // A service begins with `make_rng(&rt)`, and has other identifiers in each run.
    let rng = StdRng::seed_from_u64(number);
    let resource = Arc::new(alloc, Resource::service(alloc, "shop")?)?;
    let provider = Provider::new(AlwaysOn, resource, SpanLimits::default());
    let tracer = provider.tracer(Arc::new(alloc, Scope::named(alloc, "checkout")?)?);
    let time = Time::of_checkout(number);
    let mut trace = ThreadTracer::new(&tracer, alloc, rng, &time.clock, pass);
    check_out(&mut trace, &time);
    Ok(())
}
