//! A service that the tests ask, and its results.
use super::clock::Steps;
use super::spans::{lines_of, moments_of};
use bytes::{BufMut, Bytes};
use http::{HeaderName, HeaderValue, Request, StatusCode};
use http_server::{Config, Connection, Response, Service, serve};
use otlp_ids::{SpanContext, SpanId, TraceFlags, TraceId};
use otlp_sampler::AlwaysOn;
use otlp_span::{Resource, Scope, SpanData, SpanLimits};
use std::alloc::{AllocError, Global};
use std::hash::RandomState;
use std::sync::Arc;
use std::test::Fail;
use trace_api::{BodyPass, Clock, EndPass, Provider, WordsRng};
use traced_http::KnownMethods;
use traced_http::server::{Handler, Origin, RequestSpan, ServerName, TracedService, Tracing};

/// Answers by the path, and else with the span whose context it was given.
#[derive(Drop)]
struct Probe<'a> {
    alloc: Global,
    /// The service's clock, which it reads before it answers.
    clock: &'a Steps,
}

impl Probe<'_> {
    /// Says what there is to say on the request's span.
    fn say<O: Origin>(&self, span: &mut RequestSpan<O>) {
        span.set("user.id", "u1");
        span.event("read", 7, &[]);
        span.exception("Full", "", "", 8, &[]);
        let far = SpanContext {
            trace: TraceId([1; 16]),
            span: SpanId([9; 8]),
            flags: TraceFlags(1),
            remote: true,
            state: String::new(self.alloc),
        };
        span.link(&far, &[]);
        span.set_error("full");
        span.rename("worked");
    }
}

/// The status that a path asks for, if it does.
fn status_in(path: &str) -> Option<StatusCode> {
    let status = path.strip_prefix("/status/")?;
    StatusCode::from_u16(status.parse().ok()?).ok()
}

impl<P: EndPass<SpanData>> Handler<P> for Probe<'_> {
    fn route(&self, request: &Request<Bytes>) -> Option<&str> {
        match request.uri().path() {
            "/item/7" => Some("/item/{id}"),
            "/fails" => Some("/fails"),
            _ => None,
        }
    }

    fn handle<O: Origin>(
        &mut self,
        request: &Request<Bytes>,
        span: &mut RequestSpan<O>,
        _pass: &mut P,
        response: &mut Response,
    ) -> Result<(), AllocError> {
        self.clock.now();
        let path = request.uri().path();
        if let Some(status) = status_in(path) {
            response.status = status;
            return Ok(());
        }
        match path {
            "/fails" => response.status = StatusCode::BAD_GATEWAY,
            "/memory" => return Err(AllocError),
            "/says" => self.say(span),
            "/dated" => {
                let value = HeaderValue::from_static("Mon, 07 Nov 1994 00:00:00 GMT");
                response.add_header(HeaderName::from_static("date"), value)?;
            }
            _ => {
                let text = match span.context() {
                    Some(context) => format!(in self.alloc; "{}", context.span)?,
                    None => String::from_str(self.alloc, "no span")?,
                };
                response.body.put_slice(text.as_bytes())?;
            }
        }
        Ok(())
    }
}

/// The results of a service.
#[derive(Drop)]
pub(crate) struct Came {
    /// What it wrote.
    pub(crate) output: Vec<u8>,
    /// A line for each span.
    pub(crate) spans: String,
    /// When each span starts and ends.
    pub(crate) moments: Vec<(u64, u64)>,
    /// How many requests have no span, and how many calls were left out.
    pub(crate) untraced: (u64, u64),
}

/// Answers the requests of a connection: what is written.
fn serve_all<S: Service>(rt: &HostRuntime, service: &mut S, input: &[u8]) -> Result<Vec<u8>, Fail> {
    let alloc = rt.alloc();
    let mut connection = Connection::new(alloc, RandomState::new(rt)?, Config::default());
    let mut output = Vec::new(alloc);
    serve(&mut connection, service, &mut &*input, &mut output)?;
    Ok(output)
}

/// Answers the requests of a connection by this clock, whose spans have identifiers by these words.
/// The known methods are those that a text lists.
pub(crate) fn answer(
    rt: &HostRuntime,
    clock: Steps,
    listed: &str,
    words: &[u64],
    input: &[u8],
) -> Result<Came, Fail> {
    let alloc = rt.alloc();
    let resource = Arc::new(alloc, Resource::new(alloc, Vec::new(alloc)))?;
    let provider = Provider::new(AlwaysOn, resource, SpanLimits::default());
    let mut pass = BodyPass::new(alloc, 8)?;
    let tracing = Tracing {
        tracer: provider.tracer(Arc::new(alloc, Scope::named(alloc, "test")?)?),
        rng: WordsRng::new(Vec::from_slice(alloc, words)?),
        clock: &clock,
        server: ServerName {
            address: "example.org",
            port: 80,
        },
    };
    let probe = Probe {
        alloc,
        clock: &clock,
    };
    let known = KnownMethods::parse(alloc, listed)?;
    let service = TracedService::new(alloc, tracing, probe, &mut pass);
    let mut service = service.with_known_methods(known);
    let output = serve_all(rt, &mut service, input);
    let untraced = (service.untraced(), service.left_out());
    drop(service);
    Ok(Came {
        output: output?,
        spans: lines_of(alloc, pass.spans())?,
        moments: moments_of(alloc, pass.spans())?,
        untraced,
    })
}
