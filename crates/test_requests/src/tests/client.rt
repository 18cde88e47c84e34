//! Requests of a client, what goes out, and their spans.
use super::clock::Steps;
use super::equal::assert_equal;
use super::far_side::{After, FarSide, Line, Log};
use super::spans::{lines_of, long_path, moments_of};
use http_client::Transport;
use otlp_http::{Reply, Target};
use otlp_ids::{SpanContext, SpanId, TraceFlags, TraceId};
use otlp_sampler::TraceIdRatio;
use otlp_span::{Resource, Scope, SpanLimits};
use std::alloc::Global;
use std::cell::{Cell, RefCell};
use std::fmt::Write;
use std::str;
use std::sync::Arc;
use std::test::Fail;
use trace_api::{BodyPass, Provider, WordsRng};
use traced_http::KnownMethods;
use traced_http::client::{Client, ClientParts, ClientRequest, SendFault};

/// The method, the fields and the body of a request.
type Sent = (
    &'static str,
    &'static [(&'static str, &'static [u8])],
    &'static [u8],
);

/// What a client is asked to send, and how it is made.
#[derive(Clone, Copy)]
struct Asked<'a> {
    /// Whether its spans are sampled: a ratio of 1 to 1, or of 0.
    sampled: u64,
    /// The methods that are known.
    listed: &'static str,
    words: &'static [u64],
    /// Whether it keeps its connection.
    keeps: bool,
    lines: &'static [Line],
    /// By how many nanoseconds its clock goes on with each reading.
    step: u64,
    path: &'a str,
    /// Whether its first request is within a child of a span that came from elsewhere.
    is_child: bool,
    requests: &'static [Sent],
}

/// A GET without fields.
const GET: Sent = ("GET", &[], b"");

/// Words of traces and of spans.
const WORDS: [u64; 6] = [1, 2, 3, 4, 5, 6];

/// The path that requests mostly have.
const PATH: &str = "/items?page=2";

/// A reply that has what was asked for, after which the connection may be kept.
const GOOD: &[u8] = b"HTTP/1.1 200 OK\r\nContent-Length: 2\r\n\r\nhi";

/// Two connections that have it.
const LINES: &[Line] = &[(&[GOOD], After::Closes), (&[GOOD], After::Closes)];

/// A request, and two.
const ONE: &[Sent] = &[GET];

const TWO: &[Sent] = &[GET, GET];

/// These requests within roots, over connections that have these replies.
fn plain_ask(lines: &'static [Line], requests: &'static [Sent]) -> Asked<'static> {
    Asked {
        sampled: 1,
        listed: "",
        words: &WORDS,
        keeps: false,
        lines,
        step: 0,
        path: PATH,
        is_child: false,
        requests,
    }
}

/// The results of a client's requests.
#[derive(Drop)]
struct Came {
    /// A line for each reply: its status and its body, or why there is none.
    replies: String,
    /// What went out.
    sent: Vec<u8>,
    /// How many connections were dialed, and how many requests went out.
    counts: (usize, usize),
    /// A line for each span.
    spans: String,
    /// When each span starts and ends.
    moments: Vec<(u64, u64)>,
    /// How many requests have no span.
    untraced: u64,
}

/// Adds the line of a reply.
fn push_reply(lines: &mut String, reply: &Result<Reply, SendFault>) -> Result<(), Fail> {
    match reply {
        Ok(reply) => match &reply.body {
            Ok(body) => writeln!(lines, "{} {}", reply.status, str::from_utf8(body)?)?,
            Err(fault) => writeln!(lines, "{} {fault}", reply.status)?,
        },
        Err(fault) => writeln!(lines, "{fault}")?,
    }
    Ok(())
}

/// A context that came from elsewhere.
fn caller(alloc: Global) -> Result<SpanContext, Fail> {
    Ok(SpanContext {
        trace: TraceId::from_hex("000000000000000000000000000000aa")?,
        span: SpanId::from_hex("00000000000000bb")?,
        flags: TraceFlags(1),
        remote: true,
        state: String::from_str(alloc, "shop=7")?,
    })
}

/// Sends the requests over either kind of connection: the replies, and how many have no span.
fn send_all<T: Transport + Drop>(
    alloc: Global,
    client: Client<'_, TraceIdRatio, WordsRng, &Steps, T>,
    asked: &Asked<'_>,
    pass: &mut BodyPass,
) -> Result<(String, u64), Fail> {
    let mut client = client.with_known_methods(KnownMethods::parse(alloc, asked.listed)?);
    let mut replies = String::new(alloc);
    let mut parent = if asked.is_child {
        Some(caller(alloc)?)
    } else {
        None
    };
    let target = Target::new(alloc, "shop.example", 8080, asked.path)?;
    for sent in asked.requests {
        let (method, fields, body) = *sent;
        let request = ClientRequest {
            method,
            fields,
            body,
        };
        let reply = if fields.is_empty() && method == "GET" {
            client.get(parent.as_ref(), &target, pass)
        } else {
            client.send(parent.as_ref(), &target, &request, pass)
        };
        push_reply(&mut replies, &reply)?;
        parent = None;
    }
    Ok((replies, client.untraced()))
}

/// What comes of what a client is asked.
fn ask(rt: &HostRuntime, asked: &Asked<'_>) -> Result<Came, Fail> {
    let alloc = rt.alloc();
    let resource = Arc::new(alloc, Resource::new(alloc, Vec::new(alloc)))?;
    let sampler = TraceIdRatio::of(asked.sampled, 1)?;
    let provider = Provider::new(sampler, resource, SpanLimits::default());
    let log = Log {
        bytes: RefCell::new(Vec::new(alloc)),
        dials: Cell::new(0),
        requests: Cell::new(0),
    };
    let clock = Steps::after(1_000, asked.step);
    let parts = ClientParts {
        tracer: provider.tracer(Arc::new(alloc, Scope::named(alloc, "test")?)?),
        rng: WordsRng::new(Vec::from_slice(alloc, asked.words)?),
        clock: &clock,
        dial: FarSide {
            lines: asked.lines,
            clock: &clock,
            log: &log,
        },
    };
    let mut pass = BodyPass::new(alloc, 8)?;
    let (replies, untraced) = if asked.keeps {
        send_all(alloc, Client::keeping(alloc, parts), asked, &mut pass)?
    } else {
        send_all(alloc, Client::new(alloc, parts), asked, &mut pass)?
    };
    let Log {
        bytes,
        dials,
        requests,
    } = log;
    Ok(Came {
        replies,
        sent: bytes.into_inner(),
        counts: (dials.get(), requests.get()),
        spans: lines_of(alloc, pass.spans())?,
        moments: moments_of(alloc, pass.spans())?,
        untraced,
    })
}

/// Requests, with what is replied, what goes out, what their spans say, and how many have none.
type Row = (
    Asked<'static>,
    &'static str,
    &'static [u8],
    &'static str,
    u64,
);

const ROWS: [Row; 6] = [
    // A child of a caller's span, and a root; a secret in the query, which isn't on the span.
    (
        Asked {
            sampled: 1,
            listed: "",
            words: &WORDS,
            keeps: false,
            lines: &[(&[GOOD], After::Closes), (&[GOOD], After::Closes)],
            step: 0,
            path: "/items?page=2&sig=0f3c",
            is_child: true,
            requests: &[GET, GET],
        },
        "200 hi\n200 hi\n",
        b"GET /items?page=2&sig=0f3c HTTP/1.1\r\nHost: shop.example:8080\r\n\
        traceparent: 00-000000000000000000000000000000aa-0000000000000001-01\r\n\
        tracestate: shop=7\r\nConnection: close\r\n\r\n\
        GET /items?page=2&sig=0f3c HTTP/1.1\r\nHost: shop.example:8080\r\n\
        traceparent: 00-00000000000000020000000000000003-0000000000000004-01\r\n\
        Connection: close\r\n\r\n",
        "GET Client 0000000000000001 of 00000000000000bb \
        http.request.method=Text(\"GET\") server.address=Text(\"shop.example\") \
        server.port=Int(8080) \
        url.full=Text(\"http://shop.example:8080/items?page=2&sig=REDACTED\") \
        network.protocol.version=Text(\"1.1\") http.response.status_code=Int(200)\n\
        GET Client 0000000000000004 \
        http.request.method=Text(\"GET\") server.address=Text(\"shop.example\") \
        server.port=Int(8080) \
        url.full=Text(\"http://shop.example:8080/items?page=2&sig=REDACTED\") \
        network.protocol.version=Text(\"1.1\") http.response.status_code=Int(200)\n",
        0,
    ),
    // Fields and a body.
    (
        Asked {
            sampled: 1,
            listed: "",
            words: &WORDS,
            keeps: false,
            lines: &[(&[GOOD], After::Closes)],
            step: 0,
            path: PATH,
            is_child: false,
            requests: &[(
                "POST",
                &[("Content-Type", b"text/plain"), ("X-Shop", b"caf\xe9\t7")],
                b"two teas",
            )],
        },
        "200 hi\n",
        b"POST /items?page=2 HTTP/1.1\r\nHost: shop.example:8080\r\n\
        traceparent: 00-00000000000000010000000000000002-0000000000000003-01\r\n\
        Content-Type: text/plain\r\nX-Shop: caf\xe9\t7\r\nContent-Length: 8\r\n\
        Connection: close\r\n\r\ntwo teas",
        "POST Client 0000000000000003 http.request.method=Text(\"POST\") \
        server.address=Text(\"shop.example\") server.port=Int(8080) \
        url.full=Text(\"http://shop.example:8080/items?page=2\") \
        network.protocol.version=Text(\"1.1\") http.response.status_code=Int(200)\n",
        0,
    ),
    // A reply to a HEAD has no body; a method that is listed.
    (
        Asked {
            sampled: 1,
            listed: "BREW",
            words: &WORDS,
            keeps: false,
            lines: &[
                (
                    &[b"HTTP/1.1 200 OK\r\nContent-Length: 2\r\n\r\n"],
                    After::Closes,
                ),
                (&[GOOD], After::Closes),
            ],
            step: 0,
            path: PATH,
            is_child: false,
            requests: &[("HEAD", &[], b""), ("BREW", &[], b"")],
        },
        "200 \n200 hi\n",
        b"HEAD /items?page=2 HTTP/1.1\r\nHost: shop.example:8080\r\n\
        traceparent: 00-00000000000000010000000000000002-0000000000000003-01\r\n\
        Connection: close\r\n\r\n\
        BREW /items?page=2 HTTP/1.1\r\nHost: shop.example:8080\r\n\
        traceparent: 00-00000000000000040000000000000005-0000000000000006-01\r\n\
        Connection: close\r\n\r\n",
        "HTTP Client 0000000000000003 http.request.method=Text(\"_OTHER\") \
        server.address=Text(\"shop.example\") server.port=Int(8080) \
        url.full=Text(\"http://shop.example:8080/items?page=2\") \
        http.request.method_original=Text(\"HEAD\") \
        network.protocol.version=Text(\"1.1\") http.response.status_code=Int(200)\n\
        BREW Client 0000000000000006 http.request.method=Text(\"BREW\") \
        server.address=Text(\"shop.example\") server.port=Int(8080) \
        url.full=Text(\"http://shop.example:8080/items?page=2\") \
        network.protocol.version=Text(\"1.1\") http.response.status_code=Int(200)\n",
        0,
    ),
    // A request that expects a body says that it has none.
    (
        Asked {
            sampled: 1,
            listed: "",
            words: &WORDS,
            keeps: false,
            lines: &[(
                &[b"HTTP/1.1 399 Odd\r\nContent-Length: 0\r\n\r\n"],
                After::Closes,
            )],
            step: 0,
            path: PATH,
            is_child: false,
            requests: &[("PUT", &[], b"")],
        },
        "399 \n",
        b"PUT /items?page=2 HTTP/1.1\r\nHost: shop.example:8080\r\n\
        traceparent: 00-00000000000000010000000000000002-0000000000000003-01\r\n\
        Content-Length: 0\r\nConnection: close\r\n\r\n",
        "PUT Client 0000000000000003 http.request.method=Text(\"PUT\") \
        server.address=Text(\"shop.example\") server.port=Int(8080) \
        url.full=Text(\"http://shop.example:8080/items?page=2\") \
        network.protocol.version=Text(\"1.1\") http.response.status_code=Int(399)\n",
        0,
    ),
    // Not sampled.
    (
        Asked {
            sampled: 0,
            listed: "",
            words: &WORDS,
            keeps: false,
            lines: &[(&[GOOD], After::Closes)],
            step: 0,
            path: PATH,
            is_child: false,
            requests: &[GET],
        },
        "200 hi\n",
        b"GET /items?page=2 HTTP/1.1\r\nHost: shop.example:8080\r\n\
        traceparent: 00-00000000000000010000000000000002-0000000000000003-00\r\n\
        Connection: close\r\n\r\n",
        "",
        0,
    ),
    // No word for a span.
    (
        Asked {
            sampled: 1,
            listed: "",
            words: &[],
            keeps: false,
            lines: &[(&[GOOD], After::Closes)],
            step: 0,
            path: PATH,
            is_child: false,
            requests: &[GET],
        },
        "200 hi\n",
        b"GET /items?page=2 HTTP/1.1\r\nHost: shop.example:8080\r\nConnection: close\r\n\r\n",
        "",
        1,
    ),
];

#[test]
fn each_request_goes_out_and_has_a_span_whose_context_it_carries(
    rt: HostRuntime,
) -> Result<(), Fail> {
    for (asked, replies, sent, spans, untraced) in &ROWS {
        let came = ask(&rt, asked)?;
        assert_equal(&rt, came.replies.as_str(), *replies);
        assert_equal(&rt, came.sent.as_slice(), *sent);
        assert_equal(&rt, came.spans.as_str(), *spans);
        assert_equal(&rt, came.untraced, *untraced);
    }
    Ok(())
}

/// A far side, what the client answers, and how the line of the span goes on after its identifier and
/// ends.
type Ending = (&'static [Line], &'static str, &'static str, &'static str);

const ENDINGS: [Ending; 9] = [
    (
        &[(&[b"HTTP/1.1 204 None\r\n\r\n"], After::Closes)],
        "204 \n",
        "",
        " network.protocol.version=Text(\"1.1\") http.response.status_code=Int(204)\n",
    ),
    (
        &[(
            &[b"HTTP/1.1 400 Bad\r\nContent-Length: 2\r\n\r\nno"],
            After::Closes,
        )],
        "400 no\n",
        " error",
        " network.protocol.version=Text(\"1.1\") http.response.status_code=Int(400) \
        error.type=Text(\"400\")\n",
    ),
    (
        &[(
            &[b"HTTP/1.1 099 Odd\r\nContent-Length: 0\r\n\r\n"],
            After::Closes,
        )],
        "99 \n",
        " error",
        " network.protocol.version=Text(\"1.1\") http.response.status_code=Int(99) \
        error.type=Text(\"99\")\n",
    ),
    (
        &[(
            &[b"HTTP/1.1 503 Busy\r\nContent-Length: 9\r\n\r\n"],
            After::Closes,
        )],
        "503 the message ended early\n",
        " error",
        " network.protocol.version=Text(\"1.1\") http.response.status_code=Int(503) \
        error.type=Text(\"503\")\n",
    ),
    (
        &[(
            &[b"HTTP/1.1 200 OK\r\nContent-Length: 9\r\n\r\nhi"],
            After::Closes,
        )],
        "200 the message ended early\n",
        " error",
        " network.protocol.version=Text(\"1.1\") http.response.status_code=Int(200) \
        error.type=Text(\"no_body\")\n",
    ),
    (
        &[],
        "no connection\n",
        " error",
        " error.type=Text(\"no_connection\")\n",
    ),
    (
        &[(&[], After::Stops)],
        "the request was not sent whole\n",
        " error",
        " network.protocol.version=Text(\"1.1\") error.type=Text(\"not_sent\")\n",
    ),
    (
        &[(&[b"HTTP/1.1 2"], After::Closes)],
        "no reply: the message ended early\n",
        " error",
        " network.protocol.version=Text(\"1.1\") error.type=Text(\"no_reply\")\n",
    ),
    (
        &[(&[b"SSH-2.0\r\n"], After::Closes)],
        "no reply: bad head: what came begins no head of HTTP/1.1, or has a bad field\n",
        " error",
        " network.protocol.version=Text(\"1.1\") error.type=Text(\"no_reply\")\n",
    ),
];

#[test]
fn what_came_is_answered_and_is_on_the_span(rt: HostRuntime) -> Result<(), Fail> {
    let alloc = rt.alloc();
    for (lines, replies, mark, ends) in ENDINGS {
        let came = ask(&rt, &plain_ask(lines, ONE))?;
        assert_equal(&rt, came.replies.as_str(), replies);
        let span = format!(in alloc;
            "GET Client 0000000000000003{mark} http.request.method=Text(\"GET\") \
            server.address=Text(\"shop.example\") server.port=Int(8080) \
            url.full=Text(\"http://shop.example:8080/items?page=2\"){ends}"
        )?;
        assert_equal(&rt, came.spans.as_str(), span.as_str());
        assert_equal(&rt, came.untraced, 0);
    }
    Ok(())
}

/// Requests that are refused, and what the client says.
const BAD: [(&[Sent], &str); 3] = [
    (
        &[("CONNECT", &[], b"")],
        "bad method: a method is a token, and not CONNECT\n",
    ),
    (
        &[("GET", &[("TraceParent", b"00")], b"x")],
        "bad field: a name that is no token or is the client's own, or a bad value\n",
    ),
    (&[("TRACE", &[], b"1")], "bad body: a TRACE has none\n"),
];

#[test]
fn a_bad_request_is_refused_and_nothing_is_sent(rt: HostRuntime) -> Result<(), Fail> {
    for (requests, replies) in BAD {
        let came = ask(&rt, &plain_ask(LINES, requests))?;
        assert_equal(&rt, came.replies.as_str(), replies);
        assert_equal(
            &rt,
            (came.counts, came.spans.len(), came.untraced),
            ((0, 0), 0, 0),
        );
    }
    Ok(())
}

/// A reply after which the connection is closed.
const CLOSED: &[u8] = b"HTTP/1.1 200 OK\r\nConnection: close\r\nContent-Length: 2\r\n\r\nhi";

/// The far side's connections, the request after a GET, what the two are answered, how many
/// connections were dialed and how many requests went out.
type Kept = (
    &'static [Line],
    &'static [Sent],
    &'static str,
    (usize, usize),
);

const KEPT: [Kept; 7] = [
    // Two requests go over one connection.
    (
        &[(&[GOOD, GOOD], After::Closes)],
        &[GET, ("POST", &[], b"")],
        "200 hi\n200 hi\n",
        (1, 2),
    ),
    // The reply asks that the connection be closed.
    (
        &[(&[CLOSED, GOOD], After::Closes), (&[GOOD], After::Closes)],
        &[GET, ("POST", &[], b"")],
        "200 hi\n200 hi\n",
        (2, 2),
    ),
    // The server has closed it in between, which shows before anything is sent.
    (
        &[(&[GOOD], After::Closes), (&[GOOD], After::Closes)],
        &[GET, ("POST", &[], b"")],
        "200 hi\n200 hi\n",
        (2, 2),
    ),
    // It shows only when nothing of a reply comes: what is idempotent is sent again, once.
    (
        &[(&[GOOD], After::Ends), (&[GOOD], After::Closes)],
        &[GET, ("PUT", &[], b"")],
        "200 hi\n200 hi\n",
        (2, 3),
    ),
    (
        &[(&[GOOD], After::Ends), (&[], After::Closes)],
        &[GET, ("DELETE", &[], b"")],
        "200 hi\nno reply: the message ended early\n",
        (2, 3),
    ),
    // Another request is not.
    (
        &[(&[GOOD], After::Ends), (&[GOOD], After::Closes)],
        &[GET, ("POST", &[], b"")],
        "200 hi\nno reply: the message ended early\n",
        (1, 2),
    ),
    // Nor is one of which a part of the reply came.
    (
        &[
            (&[GOOD, b"HTTP/1.1 2"], After::Closes),
            (&[GOOD], After::Closes),
        ],
        &[GET, GET],
        "200 hi\nno reply: the message ended early\n",
        (1, 2),
    ),
];

#[test]
fn a_connection_is_kept_as_long_as_replies_let_it(rt: HostRuntime) -> Result<(), Fail> {
    for (lines, requests, replies, counts) in KEPT {
        let kept = Asked {
            keeps: true,
            ..plain_ask(lines, requests)
        };
        let came = ask(&rt, &kept)?;
        assert_equal(&rt, came.replies.as_str(), replies);
        assert_equal(&rt, (came.counts, came.untraced), (counts, 0));
        assert_equal(&rt, came.moments.len(), 2);
    }
    Ok(())
}

#[test]
fn a_span_starts_before_the_request_goes_out_and_ends_after_its_reply(
    rt: HostRuntime,
) -> Result<(), Fail> {
    let two = Asked {
        step: 10,
        ..plain_ask(LINES, TWO)
    };
    let came = ask(&rt, &two)?;
    let moments: [(u64, u64); 2] = [(1_010, 1_030), (1_040, 1_060)];
    assert_equal(&rt, came.moments.as_slice(), moments.as_slice());
    Ok(())
}

#[test]
fn a_long_path_goes_out_and_is_on_the_span(rt: HostRuntime) -> Result<(), Fail> {
    let alloc = rt.alloc();
    for len in [63, 64, 65, 8_192] {
        let path = long_path(alloc, len)?;
        let long = Asked {
            path: path.as_str(),
            ..plain_ask(LINES, ONE)
        };
        let came = ask(&rt, &long)?;
        let sent = format!(in alloc; "GET {path} HTTP/1.1\r\n")?;
        assert_equal(
            &rt,
            (len, came.sent.starts_with(sent.as_bytes())),
            (len, true),
        );
        let said = format!(in alloc; " url.full=Text(\"http://shop.example:8080{path}\") ")?;
        assert_equal(
            &rt,
            (len, came.spans.as_str().contains(said.as_str())),
            (len, true),
        );
        assert_equal(&rt, (came.replies.as_str(), came.untraced), ("200 hi\n", 0));
    }
    Ok(())
}
