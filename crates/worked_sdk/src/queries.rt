//! Worked examples of queries without the secrets in them, with values that were written out by
//! hand. The checker computes what the definitions make of each, and compares.
//!
//! Each function is a group of examples. Its clauses are the examples, and it does nothing when it
//! is called.

ghost use Rattle.std.specs.Prelude.{◌≡◌, [], codes};
ghost use Rattle.traced_http.specs.Queries.{redacted_path, redacted_query};

/// Queries (Semantic Conventions, "url.query", whose example is the first).
pub fn queries()
    ensures standard { redacted_query (codes "q=OpenTelemetry&sig=0f3c")
        ≡ codes "q=OpenTelemetry&sig=REDACTED" }
    ensures none { redacted_query (codes "q=tea&page=2") ≡ codes "q=tea&page=2" }
    ensures first { redacted_query (codes "sig=a=b&x=1") ≡ codes "sig=REDACTED&x=1" }
    ensures two { redacted_query (codes "AWSAccessKeyId=A&Signature=B")
        ≡ codes "AWSAccessKeyId=REDACTED&Signature=REDACTED" }
    ensures google { redacted_query (codes "X-Goog-Signature=1") ≡ codes "X-Goog-Signature=REDACTED" }
    ensures amazon { redacted_query (codes "X-Amz-Credential=1&X-Amz-Signature=2")
        ≡ codes "X-Amz-Credential=REDACTED&X-Amz-Signature=REDACTED" }
    ensures token { redacted_query (codes "X-Amz-Security-Token=1")
        ≡ codes "X-Amz-Security-Token=REDACTED" }
    ensures no_value { redacted_query (codes "sig=&sig") ≡ codes "sig=REDACTED&sig=REDACTED" }
    ensures other_letters { redacted_query (codes "Sig=1&signature=2") ≡ codes "Sig=1&signature=2" }
    ensures longer { redacted_query (codes "sig2=1&design=2") ≡ codes "sig2=1&design=2" }
    ensures value { redacted_query (codes "q=sig=1") ≡ codes "q=sig=1" }
    ensures between { redacted_query (codes "&&sig=1&") ≡ codes "&&sig=REDACTED&" }
    ensures empty { redacted_query [] ≡ [] }
{}

/// Paths with a query after them and without (RFC 3986, section 3.4).
pub fn paths()
    ensures alone { redacted_path (codes "/sig=1") ≡ codes "/sig=1" }
    ensures secret { redacted_path (codes "/a?sig=1&b=2") ≡ codes "/a?sig=REDACTED&b=2" }
    ensures empty { redacted_path (codes "/a?") ≡ codes "/a?" }
    ensures second_mark { redacted_path (codes "/a?b?sig=1") ≡ codes "/a?b?sig=1" }
{}
