//! What requests are answered.

ghost use Rattle.std.specs.Prelude.{◌≡◌, [], codes, map};
ghost use Rattle.std.specs.List.{list_all};
ghost use Rattle.http_header.specs.HeaderMap.{get_all};
ghost use Rattle.httparse.specs.Grammar.{is_ows};
ghost use Rattle.otlp_serve.specs.Answers as model;
ghost use Rattle.otlp_serve.specs.Answers.{coding_of, is_for_traces, is_gzip, is_plain, is_protobuf};
ghost use Rattle.otlp_serve.specs.Answers.{is_same_word, refusal_of, refusal_where};
ghost use Rattle.otlp_serve.specs.Answers.{refusal_with_gzip, reply_by, without_end_blanks};

use crate::coding::ContentCoding;
use crate::reply::PostReply;
use crate::status::ReplyStatus;
use http_header::{HeaderMap, HeaderValue, ValueIter};
use http_wire::HttpFault;

/// What a fault is answered, where `large` says that too much came.
pub(crate) fn reply_by(large: ReplyStatus, fault: HttpFault) -> Option<PostReply>
    ensures { result ≡ reply_by large fault }
{
    match fault {
        HttpFault::Ended | HttpFault::Device => None,
        HttpFault::OutOfMemory => Some(PostReply {
            status: ReplyStatus::ServiceUnavailable,
            retry_after: Some(1),
        }),
        HttpFault::TooLarge => Some(PostReply::of(large)),
        HttpFault::BadHead | HttpFault::BadLength | HttpFault::BadChunk => {
            Some(PostReply::of(ReplyStatus::BadRequest))
        }
    }
}

/// The bytes before the first of that value, and all where it isn't there.
fn before(text: &[u8], stop: u8) -> &[u8]
    ensures { result.now ≡ model.before stop text.now }
{
    match text.iter().position(|&byte| byte == stop) {
        Some(at) => &text[..at],
        None => text,
    }
}

/// Whether a byte is a space or a tab.
fn is_blank(byte: u8) -> bool
    ensures { result ≡ is_ows byte }
{
    byte == b' ' || byte == b'\t'
}

/// The bytes without the spaces and tabs at their end.
fn without_end_blanks(text: &[u8]) -> &[u8]
    ensures { result.now ≡ without_end_blanks text.now }
{
    let mut end = text.len();
    while end > 0 {
        if !is_blank(text[end - 1]) {
            return &text[..end];
        }
        end -= 1;
    }
    &text[..0]
}

/// Whether two texts are equal but for the case of ASCII letters.
fn is_same_word(word: &[u8], other: &[u8]) -> bool
    ensures { result ≡ is_same_word word.now other.now }
{
    word.eq_ignore_ascii_case(other)
}

/// The path of a target is that of traces.
fn is_for_traces(target: &[u8]) -> bool
    ensures { result ≡ is_for_traces target.now }
{
    before(target, b'?') == b"/v1/traces".as_slice()
}

/// Whether the first Content-Type is that of OTLP's messages.
fn is_protobuf(fields: &HeaderMap) -> bool
    ensures { result
        ≡ is_protobuf (map (λ v. v.bytes) (get_all fields.now (codes "content-type"))) }
{
    match fields.get_all("content-type").iter().next() {
        Some(value) => {
            let kind = without_end_blanks(before(value.as_bytes(), b';'));
            is_same_word(kind, b"application/x-protobuf")
        }
        None => false,
    }
}

/// Whether each of the values is `identity`.
fn are_identity(mut values: ValueIter<'_, HeaderValue>) -> bool
    ensures { result ≡ list_all (λ v. is_same_word v.bytes (codes "identity")) values.entry }
{
    values.all(|value| is_same_word(value.as_bytes(), b"identity"))
}

/// Whether no Content-Encoding says that the body was encoded.
#[tactic(auto, using(crate::proofs::AnswerLemmas::plain_map))]
fn is_plain(fields: &HeaderMap) -> bool
    ensures { result
        ≡ is_plain (map (λ v. v.bytes) (get_all fields.now (codes "content-encoding"))) }
{
    are_identity(fields.get_all("content-encoding").iter())
}

/// Whether the values are one alone, which says that the body was compressed.
fn are_gzip(mut values: ValueIter<'_, HeaderValue>) -> bool
    ensures { result ≡ is_gzip (map (λ v. v.bytes) values.entry) }
{
    let Some(value) = values.next() else {
        return false;
    };
    if values.next().is_some() {
        return false;
    }
    let value = value.as_bytes();
    is_same_word(value, b"gzip") || is_same_word(value, b"x-gzip")
}

/// How a body comes, by the Content-Encoding of its request: as it is where each value is
/// `identity`, in any case of letters, or none is there; as a gzip file where one value alone is
/// there, which is `gzip` or `x-gzip`. None where it is coded otherwise. (RFC 9110, sections 8.4 and
/// 8.4.1.3; one value alone: profile)
pub fn coding_of(fields: &HeaderMap) -> Option<ContentCoding>
    ensures { result
        ≡ coding_of (map (λ v. v.bytes) (get_all fields.now (codes "content-encoding"))) }
{
    if is_plain(fields) {
        return Some(ContentCoding::Identity);
    }
    if are_gzip(fields.get_all("content-encoding").iter()) {
        return Some(ContentCoding::Gzip);
    }
    None
}

/// What a request with this method and target is answered that is refused, where its body is of a
/// type and a coding that are read, or not.
fn refusal_where(is_read: bool, method: &str, target: &[u8]) -> Option<PostReply>
    ensures { result ≡ refusal_where is_read (record {
      method = method.now;
      target = target.now;
      fields = [];
      body = [];
    }) }
{
    if !is_for_traces(target) {
        return Some(PostReply::of(ReplyStatus::NotFound));
    }
    if method != "POST" {
        return Some(PostReply::of(ReplyStatus::MethodNotAllowed));
    }
    if !is_read {
        return Some(PostReply::of(ReplyStatus::UnsupportedMediaType));
    }
    None
}

/// What a request with this method, target and fields is answered that a collector refuses, and
/// none where it is for it: as `Post::refusal`, for requests that another reader has read.
pub fn refusal_of(method: &str, target: &[u8], fields: &HeaderMap) -> Option<PostReply>
    ensures { result ≡ refusal_of (record {
      method = method.now;
      target = target.now;
      fields = fields.now;
      body = [];
    }) }
{
    refusal_where(is_protobuf(fields) && is_plain(fields), method, target)
}

/// As [`refusal_of`], for a collector that reads bodies in gzip too: 415 where the body is coded
/// otherwise ([`coding_of`]).
pub fn refusal_with_gzip(method: &str, target: &[u8], fields: &HeaderMap) -> Option<PostReply>
    ensures { result ≡ refusal_with_gzip (record {
      method = method.now;
      target = target.now;
      fields = fields.now;
      body = [];
    }) }
{
    let is_read = is_protobuf(fields) && coding_of(fields).is_some();
    refusal_where(is_read, method, target)
}
