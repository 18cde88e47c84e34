//! Bodies in chunks, and why there are none (RFC 9112, section 7.1; limits: profile).

ghost use Rattle.std.specs.Prelude.{◌≡◌, ◌∷◌, ◌++◌, [], codes, false, true, Err, None, Ok};
ghost use Rattle.http_wire.specs.Bodies.{is_chunked};
ghost use Rattle.http_wire.specs.declared.fault.HttpFault.TheVariants as faults;
ghost use Rattle.otlp_serve.specs.declared.fault.PostFault.TheVariants.{Body};
ghost use Rattle.worked_sdk.specs.Chunked.{coded_post, coded_reply, AreChunks};
ghost use Rattle.worked_sdk.specs.Posted.{under, AreNoPost, ArePost};
ghost use Rattle.worked_sdk.specs.Replied.{usual, AreReply};

/// Which values of Transfer-Encoding are `chunked`.
pub fn codings()
    ensures one { is_chunked (codes "chunked" ∷ []) ≡ true }
    ensures any_case { is_chunked (codes "Chunked" ∷ []) ≡ true }
    ensures twice { is_chunked (codes "chunked" ∷ codes "chunked" ∷ []) ≡ false }
    ensures list { is_chunked (codes "gzip, chunked" ∷ []) ≡ false }
    ensures gzip { is_chunked (codes "gzip" ∷ []) ≡ false }
    ensures empty { is_chunked ([] ∷ []) ≡ false }
{}

/// Bodies. Extensions and trailers are no part of one, and bytes after one are left.
pub fn bodies()
    ensures empty { AreChunks usual (codes "0\r\n\r\n") (codes "HTTP") (Ok []) }
    ensures one { AreChunks usual (codes "3\r\nabc\r\n0\r\n\r\n") [] (Ok (codes "abc")) }
    ensures dressed { AreChunks usual
        (codes "4;a=b\r\nwiki\r\n0A \t\r\n0123456789\r\n00\r\nA: b\nC:\r\n\r\n") []
        (Ok (codes "wiki0123456789")) }
{}

/// Bytes that end within chunks.
pub fn cut()
    ensures at_once { AreChunks usual [] [] (Err faults.Ended) }
    ensures line { AreChunks usual (codes "4;a\r") [] (Err faults.Ended) }
    ensures bytes { AreChunks usual (codes "4\r\nwik") [] (Err faults.Ended) }
    ensures before_feed { AreChunks usual (codes "4\r\nwiki\r") [] (Err faults.Ended) }
    ensures next_line { AreChunks usual (codes "4\r\nwiki\r\n0") [] (Err faults.Ended) }
    ensures trailers { AreChunks usual (codes "0\r\nA") [] (Err faults.Ended) }
{}

/// Chunks that are bad, or too large.
pub fn bad()
    ensures line { AreChunks usual (codes "g") (codes "\r\n") (Err faults.BadChunk) }
    ensures long_line { AreChunks (record usual { head = 4 }) (codes "4;a=") (codes "b\r\n")
        (Err faults.BadChunk) }
    ensures end { AreChunks usual (codes "1\r\nab") (codes "\r\n") (Err faults.BadChunk) }
    ensures half_end { AreChunks usual (codes "1\r\na\rb") [] (Err faults.BadChunk) }
    ensures long_trailers { AreChunks (record usual { head = 3 }) (codes "0\r\nA:b")
        (codes "\r\n\r\n") (Err faults.BadChunk) }
    ensures many_trailers { AreChunks (record usual { fields = 0 }) (codes "0\r\nA:b\r\n")
        (codes "\r\n") (Err faults.BadChunk) }
    ensures sum { AreChunks (record usual { body = 5 }) (codes "4\r\nwiki\r\n2\r\n")
        (codes "pe\r\n0\r\n\r\n") (Err faults.TooLarge) }
{}

/// Whole messages.
pub fn messages()
    ensures reply { AreReply (coded_reply ++ codes "3\r\nabc\r\n0\r\n\r\nHTTP") (codes "HTTP")
        200 None (Ok (codes "abc")) }
    ensures bad_reply { AreReply (coded_reply ++ codes "3\r\nabc0\r\n") (codes "\r\n")
        200 None (Err faults.BadChunk) }
    ensures post { ArePost (coded_post ++ codes "3\r\nabc\r\n0\r\n\r\nPUT") (codes "PUT") (record {
      method = codes "PUT";
      target = codes "/";
      fields = under (codes "transfer-encoding") (codes "chunked" ∷ []);
      body = codes "abc";
    }) }
    ensures bad_post { AreNoPost usual (coded_post ++ codes "3\r\nabc0\r\n") (codes "\r\n")
        (Body faults.BadChunk) }
{}
