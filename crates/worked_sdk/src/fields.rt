//! What the fields of a head say (RFC 9110, sections 8.6 and 10.2.3; RFC 9112, section 6.3).

ghost use Rattle.std.specs.Prelude.{◌≡◌, ◌∷◌, ◌-◌, ◌^◌, [], codes, Err, None, Ok, Some};
ghost use Rattle.retry_core.specs.declared.outcome.RetryAfter.TheVariants.{Date, Seconds};
ghost use Rattle.http_wire.specs.declared.fault.HttpFault.TheVariants.{BadLength};
ghost use Rattle.http_wire.specs.Bodies.{chunked, empty, sized, to_end, unknown};
ghost use Rattle.otlp_http.specs.Replies.{framing_of};
ghost use Rattle.http_wire.specs.Fields.{content_length, values_of};
ghost use Rattle.otlp_http.specs.Waits.{retry_after};

/// The values of a name, in any case of letters, in their order.
pub fn values()
    ensures some { values_of (codes "a-b") ((codes "A-b", codes "1") ∷ (codes "c", codes "2")
        ∷ (codes "a-B", codes "3") ∷ []) ≡ codes "1" ∷ codes "3" ∷ [] }
    ensures none { values_of (codes "a") ((codes "a-b", codes "1") ∷ []) ≡ [] }
{}

/// How long the values of Retry-After ask to wait.
pub fn waits()
    ensures first { retry_after (codes "7" ∷ codes "9" ∷ []) ≡ Some (Seconds 7) }
    ensures zeros { retry_after (codes "007" ∷ []) ≡ Some (Seconds 7) }
    ensures most { retry_after (codes "18446744073709551615" ∷ []) ≡ Some (Seconds (2 ^ 64 - 1)) }
    ensures over { retry_after (codes "18446744073709551616" ∷ []) ≡ Some (Seconds (2 ^ 64 - 1)) }
    ensures date { retry_after (codes "Sun, 06 Nov 1994 08:49:37 GMT" ∷ [])
        ≡ Some (Date 784_111_777) }
    ensures word { retry_after (codes "soon" ∷ codes "9" ∷ []) ≡ None }
    ensures empty { retry_after ([] ∷ []) ≡ None }
    ensures sign { retry_after (codes "-1" ∷ []) ≡ None }
    ensures absent { retry_after [] ≡ None }
{}

/// The length that the values of Content-Length give.
pub fn lengths()
    ensures one { content_length (codes "7" ∷ []) ≡ Ok (Some 7) }
    ensures equal { content_length (codes "7" ∷ codes "7" ∷ []) ≡ Ok (Some 7) }
    ensures unequal { content_length (codes "7" ∷ codes "8" ∷ []) ≡ Err BadLength }
    ensures zeros { content_length (codes "7" ∷ codes "07" ∷ []) ≡ Err BadLength }
    ensures list { content_length (codes "5, 5" ∷ []) ≡ Err BadLength }
    ensures empty { content_length ([] ∷ []) ≡ Err BadLength }
    ensures most { content_length (codes "18446744073709551615" ∷ [])
        ≡ Ok (Some (2 ^ 64 - 1)) }
    ensures over { content_length (codes "18446744073709551616" ∷ []) ≡ Err BadLength }
    ensures absent { content_length [] ≡ Ok None }
{}

/// How far the bodies go of replies with a status and fields.
pub fn framings()
    ensures sized { framing_of 200 ((codes "Content-Length", codes "7") ∷ []) ≡ sized 7 }
    ensures no_content { framing_of 204 ((codes "Content-Length", codes "7") ∷ []) ≡ empty }
    ensures not_modified { framing_of 304 ((codes "Transfer-Encoding", codes "chunked") ∷ [])
        ≡ empty }
    ensures coded { framing_of 200 ((codes "transfer-encoding", codes "Chunked")
        ∷ (codes "Content-Length", codes "x") ∷ []) ≡ chunked }
    ensures gzip { framing_of 200 ((codes "Transfer-Encoding", codes "gzip, chunked") ∷ [])
        ≡ unknown }
    ensures twice { framing_of 200 ((codes "Transfer-Encoding", codes "chunked")
        ∷ (codes "Transfer-Encoding", codes "chunked") ∷ []) ≡ unknown }
    ensures bad { framing_of 503 ((codes "Content-Length", codes "x") ∷ []) ≡ unknown }
    ensures to_end { framing_of 200 ((codes "Retry-After", codes "7") ∷ []) ≡ to_end }
{}
