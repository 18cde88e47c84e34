//! Two services that share traces: a made-up shop whose `GET /cart` asks its other service's
//! `GET /stock/ID`. Each has four threads and a port of its own on loopback, and both export to a
//! collector in the same process. Prints one trace, which both have spans of, and what became of
//! all spans of either.
//!
//! Without arguments it makes its own requests, and prints the same in each run. With a number it
//! prints its ports, and ends after so many requests of others to the first service. With `to` and
//! a port, it waits until something listens at this port of loopback, for two minutes at most,
//! makes its own requests, and exports to the collector there, as to `trace-view`. It then prints
//! only what became of the spans. They go by the system's clock, and the last trace has nine of
//! them, with an error. It ends whatever the collector does: each service exports for 5 seconds at
//! most once it is stopped, and an attempt takes 5 seconds at most.
#![tactic(auto)]

mod clock;
mod customer;
mod report;
mod shop;
mod site;
mod spans;

use anyhow::{Context, Result};
use clock::ShopClock;
use otlp_serve::Collector;
use report::{Balance, write_balances, write_report};
use shop::ShopWork;
use site::{Name, Site, THREADS, config};
use std::alloc::Global;
use std::env;
use std::net::{Ipv4Addr, Net, TcpListener, TcpStream};
use std::random::RandomSource;
use std::sync::{Arc, Wait};
use std::thread::{self, JoinHandle, Threads};
use std::time::{Clock, Duration};
use trace_kit::http::{DEFAULT_PATH, HttpExporter, Target};
use trace_kit::processor::{Done, serve_within};
use trace_kit::queue::{DEFAULT_NAMES, NewestNames};

/// How many carts the program asks for itself.
const CARTS: u64 = 5;

/// How often it looks whether enough requests came, and for how long, in milliseconds.
const LOOKS: u64 = 12_000;

const LOOK_MS: u64 = 10;

/// How long an attempt to export may take, in milliseconds.
const EXPORT_MS: u64 = 5_000;

/// How long a service goes on exporting once it is stopped, in milliseconds. An attempt that is
/// under way then has its own time.
const STOP_MS: u64 = 5_000;

/// Serves a service with its threads, and gives what became of its spans.
fn run<R>(collector: u16, work: &ShopWork<R>) -> Result<Balance>
where
    R: Net<Listener = TcpListener, Stream = TcpStream>,
    R: Threads + Wait + RandomSource + Clock + Copy + Send + Sync + 'static,
{
    let (rt, alloc) = (work.site.rt, work.site.alloc);
    let target = Target::new(alloc, "127.0.0.1", collector, DEFAULT_PATH)?;
    let exporter = HttpExporter::new(alloc, rt, target, EXPORT_MS);
    let names = NewestNames::new(alloc, DEFAULT_NAMES)?;
    let Done { outputs, served } = serve_within(
        rt,
        alloc,
        exporter,
        names,
        config(),
        THREADS,
        work,
        STOP_MS,
    )?;
    for output in outputs {
        output?;
    }
    Ok(work.site.balance(served.desk.totals()))
}

/// Starts a service, which exports to the collector at this port.
fn start<R>(site: &Arc<Site<R>>, collector: u16, stock: u16) -> Result<JoinHandle<Result<Balance>>>
where
    R: Net<Listener = TcpListener, Stream = TcpStream>,
    R: Threads + Wait + RandomSource + Clock + Copy + Send + Sync + 'static,
{
    let work = ShopWork {
        site: Arc::try_clone(site)?,
        stock,
    };
    Ok(thread::spawn(&site.rt, move || run(collector, &work))?)
}

/// Asks for the first service's health, and then for carts, one after the other. An item of the
/// last cart is on a shelf that is locked.
fn ask<R>(rt: &R, alloc: Global, cart: u16) -> Result<()>
where
    R: Net<Listener = TcpListener, Stream = TcpStream>,
{
    customer::get(rt, alloc, cart, "/healthz")?;
    for _ in 0..CARTS {
        customer::get(rt, alloc, cart, "/cart")?;
    }
    Ok(())
}

/// Waits until so many requests were answered, for two minutes at most.
fn wait_for<R: Clock>(rt: &R, site: &Site<R>, requests: u64) {
    for _ in 0..LOOKS {
        if site.answered() >= requests {
            return;
        }
        let _ = thread::sleep(rt, Duration::from_millis(LOOK_MS));
    }
}

/// Waits until something listens at a port of loopback, for two minutes at most.
fn wait_for_listener<R>(rt: &R, port: u16)
where
    R: Net<Listener = TcpListener, Stream = TcpStream> + Clock,
{
    for _ in 0..LOOKS {
        if TcpStream::connect(rt, (Ipv4Addr::LOCALHOST, port)).is_ok() {
            return;
        }
        let _ = thread::sleep(rt, Duration::from_millis(LOOK_MS));
    }
}

/// What the arguments ask for.
#[derive(Clone, Copy)]
enum Asked {
    /// Requests of the program's own, and a collector of its own.
    Nothing,
    /// A collector of its own, and to wait for so many requests of others.
    Requests(u64),
    /// Requests of its own, and the collector at this port.
    To(u16),
}

/// What the arguments ask for.
fn asked_for(rt: &HostRuntime) -> Result<Asked> {
    let mut words = env::args(rt)?.skip(1);
    let Some(word) = words.next() else {
        return Ok(Asked::Nothing);
    };
    if word.as_str() == "to" {
        let port = words.next().context("after `to` comes a port")?;
        let port = port.parse::<u16>().ok();
        return Ok(Asked::To(port.context("after `to` comes a port")?));
    }
    let requests = word.parse::<u64>().ok();
    let requests = requests.context("the argument is a number of requests, or `to` and a port")?;
    Ok(Asked::Requests(requests))
}

/// The port of the collector that the services export to, and the clock that their spans go by:
/// the system's where the collector, which has to listen first, isn't this program's own.
fn goal_of<R>(rt: R, alloc: Global, asked: Asked, own: u16) -> Result<(u16, ShopClock<R>)>
where
    R: Net<Listener = TcpListener, Stream = TcpStream> + Clock + Copy,
{
    match asked {
        Asked::To(port) => {
            wait_for_listener(&rt, port);
            Ok((port, ShopClock::system(alloc, rt)?))
        }
        _ => Ok((own, ShopClock::of_steps(alloc)?)),
    }
}

fn main(rt: HostRuntime) -> Result<()> {
    let alloc = rt.alloc();
    let asked = asked_for(&rt)?;
    let collector = Collector::start(&rt, alloc, Vec::new(alloc))?;
    let (to, clock) = goal_of(rt, alloc, asked, collector.port())?;
    let stock = Site::listen(rt, alloc, Name::Stock, clock.share()?)?;
    let stock = Arc::new(alloc, stock)?;
    let cart = Arc::new(alloc, Site::listen(rt, alloc, Name::Cart, clock)?)?;

    let port = stock.port;
    let (stock_thread, cart_thread) = (start(&stock, to, port)?, start(&cart, to, port)?);

    match asked {
        Asked::Requests(requests) => {
            println!(rt; "cart {} stock {port}", cart.port)?;
            wait_for(&rt, &cart, requests);
        }
        _ => ask(&rt, alloc, cart.port)?,
    }
    cart.stop()?;
    let cart = cart_thread.join(&rt)?;
    stock.stop()?;
    let balances = [cart, stock_thread.join(&rt)?];
    let bodies = collector.stop(&rt)?;
    match asked {
        Asked::To(_) => write_balances(&mut rt.stdout(), &balances),
        _ => write_report(&mut rt.stdout(), alloc, &bodies, &balances),
    }
    .context("not all was printed")
}
