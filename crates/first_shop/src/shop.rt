//! What the services answer: the cart, which a customer asks, and the stock, which the cart asks.
use crate::clock::ShopClock;
use crate::site::{Name, ShopSampler, Site, pause};
use crate::spans::{Spans, start_in};
use anyhow::Result;
use bytes::{BufMut, Bytes};
use http::{Request, StatusCode};
use http_server::Response;
use rand::rngs::StdRng;
use std::alloc::AllocError;
use std::net::{Net, TcpListener, TcpStream};
use std::random::RandomSource;
use std::sync::Arc;
use std::time::Clock;
use trace_kit::http::{Target, TcpDial};
use trace_kit::processor::{ServicePass, Work};
use trace_kit::trace::{EndPass, KeyValue, Kind, SpanContext, SpanData, ThreadTrace, ThreadTracer};
use traced_http::client::{Client, ClientParts, NewConnections};
use traced_http::server::{Handler, Origin, RequestSpan};

/// How long a request may wait, in milliseconds.
const TIMEOUT_MS: u64 = 5_000;

/// How many items a cart has.
const ITEMS: u64 = 2;

/// How long the cart's query takes, in milliseconds.
const QUERY_MS: u64 = 3;

/// Every so many items, one is on a shelf that is locked.
const LOCKED: u64 = 4;

/// How long a look for an item takes, in milliseconds.
const LOOK_MS: u64 = 2;

/// What a request asks for.
#[derive(Clone, Copy)]
enum Asked {
    /// The cart's health.
    Health,
    /// A cart.
    Cart,
    /// How much there is of the item with this number.
    Item(u64),
    /// Nothing that the service has.
    Nothing,
}

impl Asked {
    /// By the path of a request to the service of this name.
    fn of(name: Name, path: &str) -> Asked {
        match name {
            Name::Cart if path == "/healthz" => Asked::Health,
            Name::Cart if path == "/cart" => Asked::Cart,
            Name::Cart => Asked::Nothing,
            Name::Stock => match item_in(path) {
                Some(item) => Asked::Item(item),
                None => Asked::Nothing,
            },
        }
    }
}

/// The number of the item that a path asks for.
fn item_in(path: &str) -> Option<u64> {
    path.strip_prefix("/stock/")?.parse::<u64>().ok()
}

/// How much there is of an item, unless its shelf is locked.
fn count_of(item: u64) -> Option<u64> {
    if item % LOCKED == 0 {
        None
    } else {
        Some(item % 7)
    }
}

/// Loads a cart by a query, whose span is a child of that of the loading.
fn load(trace: &mut impl ThreadTrace, parent: Option<&SpanContext>, rt: &impl Clock) {
    let load = start_in(trace, parent, "load cart", Kind::Internal);
    let mut query = trace.start("SELECT cart_items", Kind::Client);
    query.set("db.system.name", "postgresql");
    pause(rt, QUERY_MS);
    query.set("db.response.returned_rows", ITEMS);
    trace.end(query);
    trace.end(load);
}

/// Looks an item up, in a span of its own.
fn look_up(
    trace: &mut impl ThreadTrace,
    parent: Option<&SpanContext>,
    rt: &impl Clock,
    item: u64,
) -> Option<u64> {
    let mut span = start_in(trace, parent, "look up item", Kind::Internal);
    span.set("stock.item", item);
    span.event("cache miss", trace.now(), &[]);
    pause(rt, LOOK_MS);
    let count = count_of(item);
    let at = trace.now();
    match count {
        Some(_) => span.event("row read", at, &[KeyValue::new("rows", &1)]),
        None => {
            span.exception("ShelfLocked", "the shelf is locked", "", at, &[]);
            span.set_error("the shelf is locked");
        }
    }
    trace.end(span);
    count
}

/// Answers `GET /cart` and `GET /healthz`, or `GET /stock/ID`, by the name of the service.
#[derive(Drop)]
struct Shop<'a, R> {
    site: Arc<Site<R>>,
    spans: Spans<'a>,
    client: Client<'a, ShopSampler, StdRng, ShopClock<R>, NewConnections<TcpDial<R>>>,
    /// The port of the stock.
    stock: u16,
}

impl<R: Net + Clock + Copy> Shop<'_, R> {
    /// Shows how much there is of an item.
    fn show_item<P: EndPass<SpanData>>(
        &mut self,
        item: u64,
        parent: Option<&SpanContext>,
        pass: &mut P,
        response: &mut Response,
    ) -> Result<(), AllocError> {
        let (rng, clock) = (self.spans.rng(), self.site.clock.share()?);
        let alloc = self.site.alloc;
        let mut trace = ThreadTracer::new(&self.spans.tracer, alloc, rng, clock, pass);
        match look_up(&mut trace, parent, &self.site.rt, item) {
            Some(count) => {
                let text = format!(in alloc; "item {item}: {count} left\n")?;
                response.body.put_slice(text.as_bytes())
            }
            None => {
                response.status = StatusCode::INTERNAL_SERVER_ERROR;
                Ok(())
            }
        }
    }

    /// Loads a cart.
    fn load<P: EndPass<SpanData>>(
        &mut self,
        parent: Option<&SpanContext>,
        pass: &mut P,
    ) -> Result<(), AllocError> {
        let (rng, clock) = (self.spans.rng(), self.site.clock.share()?);
        let tracer = &self.spans.tracer;
        let mut trace = ThreadTracer::new(tracer, self.site.alloc, rng, clock, pass);
        load(&mut trace, parent, &self.site.rt);
        Ok(())
    }

    /// Asks the stock for an item, and adds what it says to the response.
    fn ask<P: EndPass<SpanData>>(
        &mut self,
        item: u64,
        parent: Option<&SpanContext>,
        pass: &mut P,
        response: &mut Response,
    ) -> Result<(), AllocError> {
        let path = format!(in self.site.alloc; "/stock/{item}")?;
        let Ok(target) = Target::new(self.site.alloc, "127.0.0.1", self.stock, &path) else {
            return Err(AllocError);
        };
        if let Ok(reply) = self.client.get(parent, &target, pass) {
            if let (200, Ok(body)) = (reply.status, &reply.body) {
                return response.body.put_slice(body);
            }
        }
        response.status = StatusCode::BAD_GATEWAY;
        Ok(())
    }

    /// Shows the cart with this number: each item as the stock knows it.
    fn show_cart<P: EndPass<SpanData>>(
        &mut self,
        number: u64,
        parent: Option<&SpanContext>,
        pass: &mut P,
        response: &mut Response,
    ) -> Result<(), AllocError> {
        self.load(parent, pass)?;
        let last = number.saturating_mul(ITEMS);
        for item in last.saturating_sub(ITEMS - 1)..=last {
            self.ask(item, parent, pass, response)?;
        }
        Ok(())
    }
}

impl<R: Net + Clock + Copy, P: EndPass<SpanData>> Handler<P> for Shop<'_, R> {
    fn route(&self, request: &Request<Bytes>) -> Option<&str> {
        match Asked::of(self.site.name, request.uri().path()) {
            Asked::Health => Some("/healthz"),
            Asked::Cart => Some("/cart"),
            Asked::Item(_) => Some("/stock/{id}"),
            Asked::Nothing => None,
        }
    }

    fn handle<O: Origin>(
        &mut self,
        request: &Request<Bytes>,
        span: &mut RequestSpan<O>,
        pass: &mut P,
        response: &mut Response,
    ) -> Result<(), AllocError> {
        let number = self.site.count_request();
        match Asked::of(self.site.name, request.uri().path()) {
            Asked::Health => response.body.put_slice(b"ok\n"),
            Asked::Cart => {
                span.set("cart.items", ITEMS);
                self.show_cart(number, span.context(), pass, response)
            }
            Asked::Item(item) => self.show_item(item, span.context(), pass, response),
            Asked::Nothing => {
                response.status = StatusCode::NOT_FOUND;
                Ok(())
            }
        }
    }
}

/// The work of a service's threads.
#[derive(Drop)]
pub struct ShopWork<R> {
    /// The service.
    pub site: Arc<Site<R>>,
    /// The port of the stock.
    pub stock: u16,
}

impl<R> Work for ShopWork<R>
where
    R: Net<Listener = TcpListener, Stream = TcpStream> + RandomSource + Clock + Copy,
{
    type Output = Result<()>;

    fn work<P: ServicePass>(&self, _thread: usize, pass: &mut P) -> Result<()> {
        let site: &Site<R> = &self.site;
        let provider = site.provider()?;
        let Spans { tracer, rng } = site.spans(&provider)?;
        let parts = ClientParts {
            tracer,
            rng,
            clock: site.clock.share()?,
            dial: TcpDial::new(site.rt, TIMEOUT_MS),
        };
        let handler = Shop {
            site: Arc::try_clone(&self.site)?,
            spans: site.spans(&provider)?,
            client: Client::new(site.alloc, parts),
            stock: self.stock,
        };
        site.serve_traced(&provider, handler, pass)
    }
}
