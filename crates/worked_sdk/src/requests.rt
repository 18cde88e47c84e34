//! The texts of requests (RFC 9112, sections 2.1, 3 and 5).

ghost use Rattle.std.specs.Prelude.{◌≡◌, ◌++◌, [], codes, length, replicate};
ghost use Rattle.otlp_http.specs.Request.{kept_head, request_head, request_text, gzip_head};
ghost use Rattle.otlp_http.specs.Request.{text_in};
ghost use Rattle.otlp_http.specs.declared.request.Coding.TheVariants.{Gzip, Identity};
ghost use Rattle.otlp_http.specs.declared.request.Connection.TheVariants.{Close, KeepAlive};
ghost use Rattle.worked_sdk.specs.Collectors.{elsewhere, local, with_two};

/// The head of a request whose body has 70 bytes, and how long the whole request is.
pub fn heads()
    ensures head { request_head local 70 ≡
        codes "POST /v1/traces HTTP/1.1\r\nHost: 127.0.0.1:4318\r\n" ++
        codes "Content-Type: application/x-protobuf\r\nContent-Length: 70\r\n" ++
        codes "Connection: close\r\n\r\n" }
    ensures head_bytes { length (request_head local 70) ≡ 127 }
    ensures whole_bytes { length (request_text local (replicate 70 7)) ≡ 197 }
{}

/// The body comes after the empty line as it is, also where it has none or looks like a field.
pub fn bodies()
    ensures none { request_text elsewhere [] ≡
        codes "POST /?q=~ HTTP/1.1\r\nHost: a-1.test:0\r\n" ++
        codes "Content-Type: application/x-protobuf\r\nContent-Length: 0\r\n" ++
        codes "Connection: close\r\n\r\n" }
    ensures some { request_text elsewhere (codes "A: b\r\n") ≡
        codes "POST /?q=~ HTTP/1.1\r\nHost: a-1.test:0\r\n" ++
        codes "Content-Type: application/x-protobuf\r\nContent-Length: 6\r\n" ++
        codes "Connection: close\r\n\r\nA: b\r\n" }
{}

/// Fields of a program's own come after those of the kit, in their order.
pub fn own_fields()
    ensures closed { request_text with_two (codes "A: b\r\n") ≡
        codes "POST /?q=~ HTTP/1.1\r\nHost: a-1.test:0\r\n" ++
        codes "Content-Type: application/x-protobuf\r\nContent-Length: 6\r\n" ++
        codes "Connection: close\r\napi-key: s3cret\r\nX-Scope: a \tb\r\n\r\nA: b\r\n" }
    ensures kept { kept_head with_two 0 ≡
        codes "POST /?q=~ HTTP/1.1\r\nHost: a-1.test:0\r\n" ++
        codes "Content-Type: application/x-protobuf\r\nContent-Length: 0\r\n" ++
        codes "Connection: keep-alive\r\napi-key: s3cret\r\nX-Scope: a \tb\r\n\r\n" }
{}

/// A body in gzip has a line that says so, after its length; a body as it is has none.
pub fn codings()
    ensures gzip { gzip_head Close local 70 ≡
        codes "POST /v1/traces HTTP/1.1\r\nHost: 127.0.0.1:4318\r\n" ++
        codes "Content-Type: application/x-protobuf\r\nContent-Length: 70\r\n" ++
        codes "Content-Encoding: gzip\r\nConnection: close\r\n\r\n" }
    ensures kept { gzip_head KeepAlive with_two 0 ≡
        codes "POST /?q=~ HTTP/1.1\r\nHost: a-1.test:0\r\n" ++
        codes "Content-Type: application/x-protobuf\r\nContent-Length: 0\r\n" ++
        codes "Content-Encoding: gzip\r\nConnection: keep-alive\r\n" ++
        codes "api-key: s3cret\r\nX-Scope: a \tb\r\n\r\n" }
    ensures text { text_in Gzip Close local (codes "xy") ≡ gzip_head Close local 2 ++ codes "xy" }
    ensures identity { text_in Identity Close local (codes "xy")
        ≡ request_text local (codes "xy") }
{}
