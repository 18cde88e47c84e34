//! A service on a port of loopback, whose threads serve one connection after the other.
use crate::clock::ShopClock;
use crate::report::Balance;
use crate::spans::{Counting, Spans};
use anyhow::{Context, Result};
use http_server::{Config, Connection, Service};
use rand::make_rng;
use rand::rngs::StdRng;
use std::alloc::Global;
use std::hash::RandomState;
use std::io::{self, ErrorKind};
use std::net::{Ipv4Addr, Net, TcpListener, TcpStream};
use std::random::RandomSource;
use std::sync::Arc;
use std::sync::atomic::{AtomicBool, AtomicU64, Ordering};
use std::thread;
use std::time::{Clock, Duration};
use trace_kit::processor::BatchConfig;
use trace_kit::queue::{DeskConfig, Totals};
use trace_kit::trace::{
    AlwaysOn, EndPass, ParentBased, Provider, Resource, Scope, SpanData, SpanLimits,
};
use traced_http::server::{Handler, ServerName, TracedService, Tracing};

/// How many threads a service has.
pub const THREADS: usize = 4;

/// How long a thread waits for bytes of a connection, in milliseconds.
const TIMEOUT_MS: u64 = 1_000;

/// How a service works: there is room for all spans.
pub fn config() -> BatchConfig {
    BatchConfig {
        desk: DeskConfig {
            queue: 16_384,
            batch: 512,
            delay_ms: 100,
        },
        ..BatchConfig::default()
    }
}

/// What samples the spans: the parent, and without one each is sampled.
pub type ShopSampler = ParentBased<AlwaysOn>;

/// The services of the shop.
#[derive(Clone, Copy)]
pub enum Name {
    Cart,
    Stock,
}

impl Name {
    /// The name, as spans and what is printed have it.
    pub fn as_str(self) -> &'static str {
        match self {
            Name::Cart => "cart",
            Name::Stock => "stock",
        }
    }
}

/// Works for so many milliseconds, as a database might.
pub fn pause<R: Clock>(rt: &R, ms: u64) {
    let _ = thread::sleep(rt, Duration::from_millis(ms));
}

/// What the threads of a service share.
#[derive(Drop)]
pub struct Site<R> {
    pub rt: R,
    pub alloc: Global,
    /// Which service it is.
    pub name: Name,
    listener: TcpListener,
    /// The port that it listens on.
    pub port: u16,
    /// The clock that its spans start and end by.
    pub clock: ShopClock<R>,
    is_stopped: AtomicBool,
    answered: AtomicU64,
    ended: AtomicU64,
    untraced: AtomicU64,
}

impl<R> Site<R> {
    /// A service of this name, which listens on a port that was free.
    pub fn listen(rt: R, alloc: Global, name: Name, clock: ShopClock<R>) -> Result<Site<R>>
    where
        R: Net<Listener = TcpListener, Stream = TcpStream> + Copy,
    {
        let here = (Ipv4Addr::LOCALHOST, 0u16);
        let listener = TcpListener::bind(&rt, here).context("no port on loopback")?;
        let port = listener.local_addr()?.port();
        Ok(Site {
            rt,
            alloc,
            name,
            listener,
            port,
            clock,
            is_stopped: AtomicBool::new(false),
            answered: AtomicU64::new(0),
            ended: AtomicU64::new(0),
            untraced: AtomicU64::new(0),
        })
    }

    /// What its spans are made with: the sampler, and the service's name.
    pub fn provider(&self) -> Result<Provider<ShopSampler>> {
        let resource = Resource::service(self.alloc, self.name.as_str())?;
        let resource = Arc::new(self.alloc, resource)?;
        let sampler = ParentBased::new(AlwaysOn);
        Ok(Provider::new(sampler, resource, SpanLimits::default()))
    }

    /// What a thread makes spans with.
    pub fn spans<'a>(&self, provider: &'a Provider<ShopSampler>) -> Result<Spans<'a>>
    where
        R: RandomSource,
    {
        let scope = Arc::new(self.alloc, Scope::named(self.alloc, "first_shop")?)?;
        Ok(Spans {
            tracer: provider.tracer(scope),
            rng: make_rng::<StdRng, R>(&self.rt)?,
        })
    }

    /// Counts a request, and gives its number, from 1 on.
    pub fn count_request(&self) -> u64 {
        self.answered
            .fetch_add(1, Ordering::SeqCst)
            .saturating_add(1)
    }

    /// How many requests were answered.
    pub fn answered(&self) -> u64 {
        self.answered.load(Ordering::SeqCst)
    }

    /// What became of its requests and its spans, by the counts of its queue.
    pub fn balance(&self, totals: Totals) -> Balance {
        Balance {
            name: self.name,
            answered: self.answered(),
            untraced: self.untraced.load(Ordering::SeqCst),
            ended: self.ended.load(Ordering::SeqCst),
            totals,
        }
    }

    /// Ends the service once its threads have served the connections that they have.
    pub fn stop(&self) -> Result<()>
    where
        R: Net<Listener = TcpListener, Stream = TcpStream>,
    {
        self.is_stopped.store(true, Ordering::SeqCst);
        // A connection wakes a thread.
        for _ in 0..THREADS {
            drop(TcpStream::connect(&self.rt, (Ipv4Addr::LOCALHOST, self.port))?);
        }
        Ok(())
    }

    /// Answers requests within spans, which end on the pass, until the service is stopped.
    pub fn serve_traced<'a, P, H>(
        &'a self,
        provider: &'a Provider<ShopSampler>,
        handler: H,
        pass: &'a mut P,
    ) -> Result<()>
    where
        R: RandomSource + Clock + Copy,
        P: EndPass<SpanData>,
        H: Handler<Counting<'a, P>> + Drop,
    {
        let Spans { tracer, rng } = self.spans(provider)?;
        let tracing = Tracing {
            tracer,
            rng,
            clock: self.clock.share()?,
            server: ServerName {
                address: "localhost",
                port: self.port,
            },
        };
        let ended = &self.ended;
        let mut pass = Counting { pass, ended };
        let mut service = TracedService::new(self.alloc, tracing, handler, &mut pass);
        let served = self.serve(&mut service);
        self.untraced
            .fetch_add(service.untraced(), Ordering::SeqCst);
        served.context("the service can't listen any more")
    }

    /// Serves one connection after the other, until the service is stopped.
    fn serve<S: Service>(&self, service: &mut S) -> io::Result<()>
    where
        R: RandomSource,
    {
        for stream in self.listener.incoming() {
            let stream = stream?;
            if self.is_stopped.load(Ordering::SeqCst) {
                return Ok(());
            }
            self.serve_one(service, &stream)?;
        }
        Err(ErrorKind::NotConnected.into())
    }

    /// Answers the requests of a connection, until it ends. One that fails ends too.
    fn serve_one<S: Service>(&self, service: &mut S, stream: &TcpStream) -> io::Result<()>
    where
        R: RandomSource,
    {
        let timeout = Duration::from_millis(TIMEOUT_MS);
        stream.set_read_timeout(Some(timeout))?;
        stream.set_write_timeout(Some(timeout))?;
        stream.set_nodelay(true)?;
        let keys = RandomState::new(&self.rt)?;
        let mut connection = Connection::new(self.alloc, keys, Config::default());
        let (mut reader, mut writer) = (stream, stream);
        let _ = http_server::serve(&mut connection, service, &mut reader, &mut writer);
        Ok(())
    }
}
