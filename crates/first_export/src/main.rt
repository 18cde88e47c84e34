//! A whole service, whose one thread traces a request for a cart: its three spans go over TCP to
//! the collector that the environment names, or at localhost:4318. The environment also has the
//! name of the service, the sampler and the limits, or that tracing is off. Prints what became of
//! the spans and of the batch that they went out in, and why the last attempt failed, if one did;
//! the status is 0 where the collector took it, and where no span is sampled. The names of spans
//! that were dropped or lost, and what can't be used of the environment, go to the standard error.
//! A batch is sent five times at most, with waits of 0.2 to 1 second.
#![tactic(auto)]

use anyhow::Result;
use std::process::ExitCode;
use trace_kit::export::RetryConfig;
use trace_kit::service::{ServiceSetup, ThreadTrace, TracedWork};
use trace_kit::trace::{KeyValue, Kind};

struct Shop;

impl TracedWork for Shop {
    type Output = ();

    fn work<T: ThreadTrace>(&self, _thread: usize, trace: &mut T) {
        let request = trace.start("GET /cart", Kind::Server);
        let mut query = trace.start("SELECT", Kind::Client);
        query.set("db.system", "postgresql");
        query.set("db.rows", 3);
        query.event("row read", trace.now(), &[KeyValue::new("db.row", &1)]);
        query.link(request.context(), &[KeyValue::new("cart.items", &3)]);
        trace.end(query);
        let page = trace.start("render", Kind::Internal);
        trace.end(page);
        trace.end(request);
    }
}

fn main(rt: HostRuntime) -> Result<ExitCode> {
    let setup = ServiceSetup::from_environment(&rt, "shop")?;
    let setup = setup.with_retry(RetryConfig::new(5, 200, 1000)?);
    let done = setup.serve(rt, rt.stderr(), 1, &Shop)?;
    done.write_counts(&mut rt.stdout())?;
    Ok(done.exit_code())
}
