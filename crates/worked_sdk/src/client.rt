//! Worked examples of what goes out and what a span says of it, with values that were written out
//! by hand. The checker computes what the definitions make of each, and compares.
//!
//! Each function is a group of examples. Its clauses are the examples, and it does nothing when it
//! is called.

ghost use Rattle.std.specs.Prelude.{◌≡◌, ◌++◌, ◌∷◌, [], None, Some, Ok, Err, codes, pos};
ghost use Rattle.std.specs.Prelude.{false, true};
ghost use Rattle.trace_api.specs.Endings.{ending_calls};
ghost use Rattle.http_wire.specs.declared.fault.HttpFault.TheVariants as http_faults;
ghost use Rattle.model_span.specs.Attributes.{int, text};
ghost use Rattle.model_span.specs.Spans.{error, set_attribute, set_status};
ghost use Rattle.http_client.specs.declared.fault.SendFault.TheVariants as faults;
ghost use Rattle.http_client.specs.Exchanges.{reply_to};
ghost use Rattle.http_client.specs.Refusals.{is_own, refusal};
ghost use Rattle.http_client.specs.Requests.{get_request, request_text};
ghost use Rattle.traced_http.specs.ClientSpans.{carried_by, ending_of, request_calls, version_calls};
ghost use Rattle.traced_http.specs.ClientSpans.{version_of};
ghost use Rattle.traced_http.specs.Methods.{standard_methods};
ghost use Rattle.worked_sdk.specs.Shops.{bare, context, order, replied, shop};

/// The texts of requests (RFC 9112, sections 2.1, 3 and 5), with the context of a span and without
/// (W3C Trace Context, "Traceparent Header", "Tracestate Header").
pub fn texts()
    ensures traced { request_text shop (carried_by (Some context)) get_request ≡
        codes "GET /items?page=2 HTTP/1.1\r\nHost: shop.example:8080\r\n" ++
        codes "traceparent: 00-4bf92f3577b34da6a3ce929d0e0e4736-00f067aa0ba902b7-01\r\n" ++
        codes "tracestate: shop=7\r\n" ++
        codes "Connection: close\r\n\r\n" }
    ensures untraced { request_text shop (carried_by None) get_request ≡
        codes "GET /items?page=2 HTTP/1.1\r\nHost: shop.example:8080\r\n" ++
        codes "Connection: close\r\n\r\n" }
    ensures body { request_text shop (carried_by None) order ≡
        codes "POST /items?page=2 HTTP/1.1\r\nHost: shop.example:8080\r\n" ++
        codes "Content-Type: text/plain\r\nX-Shop: 7\r\nContent-Length: 8\r\n" ++
        codes "Connection: close\r\n\r\ntwo teas" }
    ensures empty { request_text shop (carried_by None) (bare (codes "PUT")) ≡
        codes "PUT /items?page=2 HTTP/1.1\r\nHost: shop.example:8080\r\n" ++
        codes "Content-Length: 0\r\nConnection: close\r\n\r\n" }
{}

/// Which requests are refused (RFC 9110, sections 5.1, 5.6.2, 9.1 and 9.3.8).
pub fn refusals()
    ensures none { refusal order ≡ None }
    ensures empty { refusal (bare []) ≡ Some faults.BadMethod }
    ensures connect { refusal (bare (codes "CONNECT")) ≡ Some faults.BadMethod }
    ensures own { is_own (codes "TraceParent") ≡ true }
    ensures other { is_own (codes "Content-Type") ≡ false }
    ensures line_end { refusal (record order {
      fields = (codes "X-Shop", codes "7\r\nHost: b") ∷ [];
    }) ≡ Some faults.BadField }
    ensures trace { refusal (record order { method = codes "TRACE" }) ≡ Some faults.BadBody }
{}

/// What comes of a reply: one to a HEAD has no body (RFC 9112, section 6.3).
pub fn answers()
    ensures head { reply_to (codes "HEAD") (replied 200 (Err http_faults.TooLarge))
        ≡ replied 200 (Ok []) }
    ensures get { reply_to (codes "GET") (replied 200 (Ok (codes "hi")))
        ≡ replied 200 (Ok (codes "hi")) }
{}

/// The attributes that a span starts with (Semantic Conventions, "HTTP spans", "HTTP client").
pub fn attributes()
    ensures known { request_calls standard_methods (codes "GET") shop ≡
        set_attribute (record {
          key = codes "http.request.method";
          value = text (codes "GET");
        })
        ∷ set_attribute (record {
          key = codes "server.address";
          value = text (codes "shop.example");
        })
        ∷ set_attribute (record { key = codes "server.port"; value = int (pos 8080) })
        ∷ set_attribute (record {
          key = codes "url.full";
          value = text (codes "http://shop.example:8080/items?page=2");
        })
        ∷ [] }
    ensures unknown { request_calls standard_methods (codes "BREW") shop ≡
        set_attribute (record {
          key = codes "http.request.method";
          value = text (codes "_OTHER");
        })
        ∷ set_attribute (record {
          key = codes "server.address";
          value = text (codes "shop.example");
        })
        ∷ set_attribute (record { key = codes "server.port"; value = int (pos 8080) })
        ∷ set_attribute (record {
          key = codes "url.full";
          value = text (codes "http://shop.example:8080/items?page=2");
        })
        ∷ set_attribute (record {
          key = codes "http.request.method_original";
          value = text (codes "BREW");
        })
        ∷ [] }
{}

/// What a span says of its reply (Semantic Conventions, "HTTP spans", "Status"): 399 and 100 are no
/// errors, 400 and 99 are, and so is a body that could not be had.
pub fn replies()
    ensures no_error { ending_calls (ending_of (Ok (replied 399 (Ok [])))) ≡
        set_attribute (record { key = codes "http.response.status_code"; value = int (pos 399) })
        ∷ [] }
    ensures error { ending_calls (ending_of (Ok (replied 400 (Ok [])))) ≡
        set_attribute (record { key = codes "http.response.status_code"; value = int (pos 400) })
        ∷ set_attribute (record { key = codes "error.type"; value = text (codes "400") })
        ∷ set_status (error []) ∷ [] }
    ensures least { ending_of (Ok (replied 100 (Ok [])))
        ≡ record { status = Some 100; error_type = None } }
    ensures below { ending_of (Ok (replied 99 (Ok [])))
        ≡ record { status = Some 99; error_type = Some (codes "99") } }
    ensures no_body { ending_calls (ending_of (Ok (replied 200 (Err http_faults.Ended)))) ≡
        set_attribute (record { key = codes "http.response.status_code"; value = int (pos 200) })
        ∷ set_attribute (record { key = codes "error.type"; value = text (codes "no_body") })
        ∷ set_status (error []) ∷ [] }
{}

/// What it says where there is no reply.
pub fn faults()
    ensures unlinked { ending_calls (ending_of (Err faults.NoConnection)) ≡
        set_attribute (record { key = codes "error.type"; value = text (codes "no_connection") })
        ∷ set_status (error []) ∷ [] }
    ensures none { ending_calls (ending_of (Err (faults.NoReply http_faults.BadHead))) ≡
        set_attribute (record { key = codes "error.type"; value = text (codes "no_reply") })
        ∷ set_status (error []) ∷ [] }
{}

/// Where there was a connection (network.protocol.version).
pub fn versions()
    ensures replied { version_calls (Ok (replied 503 (Ok []))) ≡
        set_attribute (record {
          key = codes "network.protocol.version";
          value = text (codes "1.1");
        })
        ∷ [] }
    ensures not_sent { version_of (Err faults.NotSent) ≡ Some (codes "1.1") }
    ensures no_reply { version_of (Err (faults.NoReply http_faults.Ended)) ≡ Some (codes "1.1") }
    ensures unlinked { version_calls (Err faults.NoConnection) ≡ [] }
    ensures no_memory { version_calls (Err faults.OutOfMemory) ≡ [] }
{}
