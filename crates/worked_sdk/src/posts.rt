//! Bytes that are a request, what requests are answered, and the texts of replies (OTLP
//! Specification, "OTLP/HTTP Response"; RFC 9110, sections 8.3, 8.4 and 15.5; RFC 9112, sections 2
//! to 6).

ghost use Rattle.std.specs.Prelude.{◌≡◌, ◌∷◌, ◌++◌, ◌-◌, ◌^◌, [], codes, false, true, None, Some};
ghost use Rattle.http_wire.specs.Bodies.{chunked, empty, request_framing, sized, unknown};
ghost use Rattle.http_wire.specs.declared.fault.HttpFault.TheVariants as faults;
ghost use Rattle.otlp_serve.specs.declared.fault.PostFault.TheVariants.{Body, Head};
ghost use Rattle.otlp_serve.specs.declared.status.ReplyStatus.TheVariants as statuses;
ghost use Rattle.otlp_serve.specs.Answers.{coding_of, is_plain, is_protobuf, media_type};
ghost use Rattle.otlp_serve.specs.Answers.{plain_reply, refusal_of, refusal_with_gzip};
ghost use Rattle.otlp_serve.specs.Answers.{reply_to_fault};
ghost use Rattle.otlp_serve.specs.declared.coding.ContentCoding.TheVariants as codings;
ghost use Rattle.otlp_serve.specs.Replies.{reply_text};
ghost use Rattle.worked_sdk.specs.Posted.{post_with, three_bytes, typed, under, AreNoPost};
ghost use Rattle.worked_sdk.specs.Posted.{ArePost};
ghost use Rattle.worked_sdk.specs.Replied.{usual};

/// Requests. Bytes after one are left.
pub fn posts()
    ensures sized { ArePost (three_bytes ++ codes "abcPUT") (codes "PUT") (record {
      method = codes "PUT";
      target = codes "/";
      fields = under (codes "content-length") (codes "3" ∷ []);
      body = codes "abc";
    }) }
    ensures without_body { ArePost (codes "GET /x?y HTTP/1.0\n\nabc") (codes "abc")
        (post_with (codes "GET") (codes "/x?y") []) }
{}

/// No requests.
pub fn none()
    ensures cut { AreNoPost usual (codes "PUT / HTT") [] (Head faults.Ended) }
    ensures large { AreNoPost (record usual { head = 4 }) (codes "PUT / HTTP/1.1\n\n")
        (codes "/ HTTP/1.1\n\n") (Head faults.TooLarge) }
    ensures cut_body { AreNoPost usual (three_bytes ++ codes "ab") [] (Body faults.Ended) }
    ensures large_body { AreNoPost (record usual { body = 2 }) (three_bytes ++ codes "abc")
        (codes "abc") (Body faults.TooLarge) }
    ensures coded { AreNoPost usual
        (codes "PUT / HTTP/1.1\r\nTransfer-Encoding: gzip\r\n\r\n0") (codes "0")
        (Body faults.BadLength) }
{}

/// How far the bodies go of requests with some fields.
pub fn framings()
    ensures none { request_framing [] ≡ empty }
    ensures sized { request_framing ((codes "Content-Length", codes "53") ∷ []) ≡ sized 53 }
    ensures equal { request_framing ((codes "Content-Length", codes "53")
        ∷ (codes "content-length", codes "53") ∷ []) ≡ sized 53 }
    ensures over { request_framing ((codes "Content-Length", codes "18446744073709551616") ∷ [])
        ≡ unknown }
    ensures coded { request_framing ((codes "Transfer-Encoding", codes "CHUNKED") ∷ []) ≡ chunked }
    ensures gzip { request_framing ((codes "Transfer-Encoding", codes "gzip") ∷ []) ≡ unknown }
    ensures both { request_framing ((codes "Content-Length", codes "53")
        ∷ (codes "transfer-encoding", codes "chunked") ∷ []) ≡ unknown }
{}

/// What faults are answered.
pub fn faults()
    ensures ended { reply_to_fault (Head faults.Ended) ≡ None }
    ensures device { reply_to_fault (Body faults.Device) ≡ None }
    ensures memory { reply_to_fault (Body faults.OutOfMemory)
        ≡ Some (record { status = statuses.ServiceUnavailable; retry_after = Some 1 }) }
    ensures head { reply_to_fault (Head faults.BadHead) ≡ Some (plain_reply statuses.BadRequest) }
    ensures length { reply_to_fault (Body faults.BadLength)
        ≡ Some (plain_reply statuses.BadRequest) }
    ensures large_head { reply_to_fault (Head faults.TooLarge)
        ≡ Some (plain_reply statuses.RequestHeaderFieldsTooLarge) }
    ensures large_body { reply_to_fault (Body faults.TooLarge)
        ≡ Some (plain_reply statuses.ContentTooLarge) }
{}

/// The types and encodings that are taken.
pub fn types()
    ensures parameters { media_type (codes "A/b \t;c;d") ≡ codes "A/b" }
    ensures any_case { is_protobuf (codes "Application/X-Protobuf" ∷ []) ≡ true }
    ensures first { is_protobuf (codes "application/json" ∷ codes "application/x-protobuf" ∷ [])
        ≡ false }
    ensures longer { is_protobuf (codes "application/x-protobuf2" ∷ []) ≡ false }
    ensures none { is_protobuf [] ≡ false }
    ensures plain { is_plain (codes "Identity" ∷ []) ≡ true }
    ensures unsaid { is_plain [] ≡ true }
    ensures gzip { is_plain (codes "identity" ∷ codes "gzip" ∷ []) ≡ false }
{}

/// How bodies come where gzip is read.
pub fn codings()
    ensures unsaid { coding_of [] ≡ Some codings.Identity }
    ensures plain { coding_of (codes "identity" ∷ codes "Identity" ∷ []) ≡ Some codings.Identity }
    ensures gzip { coding_of (codes "GZip" ∷ []) ≡ Some codings.Gzip }
    ensures older_name { coding_of (codes "x-gzip" ∷ []) ≡ Some codings.Gzip }
    ensures twice { coding_of (codes "gzip" ∷ codes "gzip" ∷ []) ≡ None }
    ensures list { coding_of (codes "gzip, gzip" ∷ []) ≡ None }
    ensures deflate { coding_of (codes "deflate" ∷ []) ≡ None }
    ensures empty { coding_of ([] ∷ []) ≡ None }
{}

/// Requests that are for the collector, and others: the path counts before the method, and this
/// before the type.
pub fn refusals()
    ensures taken { refusal_of (post_with (codes "POST") (codes "/v1/traces") typed) ≡ None }
    ensures query { refusal_of (post_with (codes "POST") (codes "/v1/traces?a") typed) ≡ None }
    ensures path { refusal_of (post_with (codes "GET") (codes "/x") [])
        ≡ Some (plain_reply statuses.NotFound) }
    ensures method { refusal_of (post_with (codes "GET") (codes "/v1/traces") [])
        ≡ Some (plain_reply statuses.MethodNotAllowed) }
    ensures json { refusal_of (post_with (codes "POST") (codes "/v1/traces")
        (under (codes "content-type") (codes "application/json" ∷ [])))
        ≡ Some (plain_reply statuses.UnsupportedMediaType) }
    ensures gzip { refusal_of (post_with (codes "POST") (codes "/v1/traces")
        (typed ++ under (codes "content-encoding") (codes "gzip" ∷ [])))
        ≡ Some (plain_reply statuses.UnsupportedMediaType) }
    ensures read_gzip { refusal_with_gzip (post_with (codes "POST") (codes "/v1/traces")
        (typed ++ under (codes "content-encoding") (codes "gzip" ∷ []))) ≡ None }
    ensures brotli { refusal_with_gzip (post_with (codes "POST") (codes "/v1/traces")
        (typed ++ under (codes "content-encoding") (codes "br" ∷ [])))
        ≡ Some (plain_reply statuses.UnsupportedMediaType) }
{}

/// The texts of replies.
pub fn texts()
    ensures taken { reply_text (plain_reply statuses.Ok) ≡
        codes "HTTP/1.1 200 OK\r\nContent-Type: application/x-protobuf\r\n" ++
        codes "Content-Length: 0\r\nConnection: close\r\n\r\n" }
    ensures method { reply_text (plain_reply statuses.MethodNotAllowed) ≡
        codes "HTTP/1.1 405 Method Not Allowed\r\nContent-Type: application/x-protobuf\r\n" ++
        codes "Content-Length: 0\r\nConnection: close\r\nAllow: POST\r\n\r\n" }
    ensures busy { reply_text (record {
      status = statuses.ServiceUnavailable;
      retry_after = Some 1;
    }) ≡ codes "HTTP/1.1 503 Service Unavailable\r\nContent-Type: application/x-protobuf\r\n" ++
        codes "Content-Length: 0\r\nConnection: close\r\nRetry-After: 1\r\n\r\n" }
{}
