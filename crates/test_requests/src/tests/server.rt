//! Requests that a service is sent, what it answers, and their spans.
use super::clock::Steps;
use super::equal::assert_equal;
use super::probe::answer;
use super::spans::long_path;
use std::test::Fail;

/// Words of a trace and of spans.
const WORDS: [u64; 6] = [1, 2, 3, 4, 5, 6];

/// What a service is sent, and what comes of it.
struct Row {
    /// The moment of all spans, in nanoseconds since 1970.
    at: u64,
    /// The methods that are known.
    listed: &'static str,
    words: &'static [u64],
    input: &'static str,
    output: &'static str,
    spans: &'static str,
    untraced: (u64, u64),
}

const ROWS: [Row; 6] = [
    // A caller's context, a secret in a query, and a failure, in a pipeline.
    Row {
        at: 1_000,
        listed: "",
        words: &WORDS,
        untraced: (0, 0),
        input: "GET /item/7?q=1&sig=2 HTTP/1.1\r\nHost: h\r\nUser-Agent: t/1\r\n\
            traceparent: 00-000000000000000000000000000000aa-00000000000000bb-01\r\n\r\n\
            POST /fails HTTP/1.1\r\nHost: h\r\nContent-Length: 2\r\n\r\nhi",
        output: "HTTP/1.1 200 OK\r\ndate: Thu, 01 Jan 1970 00:00:00 GMT\r\n\
            content-length: 16\r\n\r\n0000000000000001\
            HTTP/1.1 502 Bad Gateway\r\ndate: Thu, 01 Jan 1970 00:00:00 GMT\r\n\
            content-length: 0\r\n\r\n",
        spans: "GET /item/{id} Server 0000000000000001 of 00000000000000bb \
            http.request.method=Text(\"GET\") url.path=Text(\"/item/7\") \
            url.scheme=Text(\"http\") server.address=Text(\"example.org\") server.port=Int(80) \
            network.protocol.version=Text(\"1.1\") url.query=Text(\"q=1&sig=REDACTED\") \
            http.route=Text(\"/item/{id}\") user_agent.original=Text(\"t/1\") \
            http.response.status_code=Int(200)\n\
            POST /fails Server 0000000000000004 error \
            http.request.method=Text(\"POST\") url.path=Text(\"/fails\") \
            url.scheme=Text(\"http\") server.address=Text(\"example.org\") server.port=Int(80) \
            network.protocol.version=Text(\"1.1\") http.route=Text(\"/fails\") \
            http.response.status_code=Int(502) error.type=Text(\"502\")\n",
    },
    // The moment of the standard's example, and almost a second more (RFC 9110, section 5.6.7); and
    // a handler that says its own.
    Row {
        listed: "",
        words: &WORDS,
        untraced: (0, 0),
        at: 784_111_777_999_999_999,
        input: "GET /dated HTTP/1.1\r\nHost: h\r\n\r\n\
            GET /status/405 HTTP/1.1\r\nHost: h\r\n\r\n",
        output: "HTTP/1.1 200 OK\r\ndate: Mon, 07 Nov 1994 00:00:00 GMT\r\n\
            content-length: 0\r\n\r\n\
            HTTP/1.1 405 Method Not Allowed\r\ndate: Sun, 06 Nov 1994 08:49:37 GMT\r\n\
            content-length: 0\r\n\r\n",
        spans: "GET Server 0000000000000003 \
            http.request.method=Text(\"GET\") url.path=Text(\"/dated\") url.scheme=Text(\"http\") \
            server.address=Text(\"example.org\") server.port=Int(80) \
            network.protocol.version=Text(\"1.1\") http.response.status_code=Int(200)\n\
            GET Server 0000000000000006 \
            http.request.method=Text(\"GET\") url.path=Text(\"/status/405\") \
            url.scheme=Text(\"http\") server.address=Text(\"example.org\") server.port=Int(80) \
            network.protocol.version=Text(\"1.1\") http.response.status_code=Int(405)\n",
    },
    // A method that is listed, and one that isn't.
    Row {
        at: 1_000,
        words: &WORDS,
        untraced: (0, 0),
        listed: "BREW, PUT",
        input: "BREW /item/7 HTTP/1.1\r\nHost: h\r\n\r\nGET /fails HTTP/1.1\r\nHost: h\r\n\r\n",
        output: "HTTP/1.1 200 OK\r\ndate: Thu, 01 Jan 1970 00:00:00 GMT\r\n\
            content-length: 16\r\n\r\n0000000000000003\
            HTTP/1.1 502 Bad Gateway\r\ndate: Thu, 01 Jan 1970 00:00:00 GMT\r\n\
            content-length: 0\r\n\r\n",
        spans: "BREW /item/{id} Server 0000000000000003 \
            http.request.method=Text(\"BREW\") url.path=Text(\"/item/7\") \
            url.scheme=Text(\"http\") server.address=Text(\"example.org\") server.port=Int(80) \
            network.protocol.version=Text(\"1.1\") http.route=Text(\"/item/{id}\") \
            http.response.status_code=Int(200)\n\
            HTTP /fails Server 0000000000000006 error \
            http.request.method=Text(\"_OTHER\") url.path=Text(\"/fails\") \
            url.scheme=Text(\"http\") server.address=Text(\"example.org\") server.port=Int(80) \
            network.protocol.version=Text(\"1.1\") http.route=Text(\"/fails\") \
            http.request.method_original=Text(\"GET\") \
            http.response.status_code=Int(502) error.type=Text(\"502\")\n",
    },
    // A handler without memory.
    Row {
        at: 1_000,
        listed: "",
        words: &WORDS,
        untraced: (0, 0),
        input: "BREW /memory HTTP/1.0\r\n\r\n",
        output: "HTTP/1.0 503 Service Unavailable\r\ndate: Thu, 01 Jan 1970 00:00:00 GMT\r\n\
            content-length: 0\r\nconnection: close\r\n\r\n",
        spans: "HTTP Server 0000000000000003 error \
            http.request.method=Text(\"_OTHER\") url.path=Text(\"/memory\") \
            url.scheme=Text(\"http\") server.address=Text(\"example.org\") server.port=Int(80) \
            network.protocol.version=Text(\"1.0\") http.request.method_original=Text(\"BREW\") \
            http.response.status_code=Int(503) error.type=Text(\"503\")\n",
    },
    // No word for a span.
    Row {
        at: 1_000,
        listed: "",
        input: "GET / HTTP/1.1\r\nHost: h\r\n\r\n",
        words: &[],
        output: "HTTP/1.1 200 OK\r\ndate: Thu, 01 Jan 1970 00:00:00 GMT\r\n\
            content-length: 7\r\n\r\nno span",
        spans: "",
        untraced: (1, 0),
    },
    // What a handler says.
    Row {
        at: 1_000,
        listed: "",
        words: &WORDS,
        untraced: (0, 0),
        input: "GET /says HTTP/1.1\r\nHost: h\r\n\r\n",
        output: "HTTP/1.1 200 OK\r\ndate: Thu, 01 Jan 1970 00:00:00 GMT\r\n\
            content-length: 0\r\n\r\n",
        spans: "worked Server 0000000000000003 error \
            http.request.method=Text(\"GET\") url.path=Text(\"/says\") url.scheme=Text(\"http\") \
            server.address=Text(\"example.org\") server.port=Int(80) \
            network.protocol.version=Text(\"1.1\") user.id=Text(\"u1\") \
            http.response.status_code=Int(200) at 7: read at 8: exception to 0909090909090909\n",
    },
];

#[test]
fn requests_are_answered_with_a_date_and_have_their_spans(rt: HostRuntime) -> Result<(), Fail> {
    for row in &ROWS {
        let clock = Steps::after(row.at, 0);
        let came = answer(&rt, clock, row.listed, row.words, row.input.as_bytes())?;
        assert_equal(&rt, came.spans.as_str(), row.spans);
        assert_equal(&rt, came.output.as_slice(), row.output.as_bytes());
        assert_equal(&rt, came.untraced, row.untraced);
    }
    Ok(())
}

#[test]
fn a_span_starts_before_its_handler_and_ends_after_it(rt: HostRuntime) -> Result<(), Fail> {
    let input = b"GET / HTTP/1.1\r\nHost: h\r\n\r\nGET /fails HTTP/1.1\r\nHost: h\r\n\r\n";
    let came = answer(&rt, Steps::after(1_000, 10), "", &WORDS, input)?;
    let moments: [(u64, u64); 2] = [(1_010, 1_030), (1_040, 1_060)];
    assert_equal(&rt, came.moments.as_slice(), moments.as_slice());
    Ok(())
}

/// Whether a request of this method that is answered by this status has the span of both.
fn has_its_span(rt: &HostRuntime, method: &str, status: u16) -> Result<bool, Fail> {
    let alloc = rt.alloc();
    let input = format!(in alloc;
        "{method} /status/{status} HTTP/1.1\r\nHost: h\r\n\
        traceparent: 00-000000000000000000000000000000aa-00000000000000bb-00\r\n\r\n"
    )?;
    let came = answer(rt, Steps::after(1_000, 0), "", &WORDS, input.as_bytes())?;
    let mark = if status >= 500 { " error" } else { "" };
    let begins = format!(in alloc; "{method} Server 0000000000000001 of 00000000000000bb{mark} ")?;
    let says = format!(in alloc; " http.response.status_code=Int({status})")?;
    Ok(
        came.untraced == (0, 0)
            && came.spans.as_str().starts_with(begins.as_str())
            && came.spans.as_str().contains(says.as_str()),
    )
}

#[test]
fn each_method_and_each_status_has_its_span(rt: HostRuntime) -> Result<(), Fail> {
    for method in [
        "GET", "HEAD", "POST", "PUT", "DELETE", "OPTIONS", "PATCH", "TRACE", "CONNECT",
    ] {
        let has = has_its_span(&rt, method, 405)?;
        assert_equal(&rt, (method, has), (method, true));
    }
    for status in 100..600 {
        let has = has_its_span(&rt, "GET", status)?;
        assert_equal(&rt, (status, has), (status, true));
    }
    Ok(())
}

#[test]
fn a_long_path_is_on_the_span(rt: HostRuntime) -> Result<(), Fail> {
    let alloc = rt.alloc();
    for len in [63, 64, 65, 8_192] {
        let path = long_path(alloc, len)?;
        let input = format!(in alloc; "GET {path}?a=b HTTP/1.1\r\nHost: h\r\n\r\n")?;
        let came = answer(&rt, Steps::after(1_000, 0), "", &WORDS, input.as_bytes())?;
        let said = format!(in alloc; " url.path=Text(\"{path}\") ")?;
        assert_equal(
            &rt,
            (len, came.spans.as_str().contains(said.as_str())),
            (len, true),
        );
        assert_equal(&rt, came.untraced, (0, 0));
    }
    Ok(())
}
