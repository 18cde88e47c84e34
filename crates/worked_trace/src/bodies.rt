//! Spans as the body of an export request (opentelemetry-proto, trace_service.proto and
//! trace.proto).

ghost use Rattle.std.specs.Prelude.{◌≡◌, [], ◌∷◌, ◌++◌, map, pos, length, codes};
ghost use Rattle.model_span.specs.Attributes.{text, int, texts, ints};
ghost use Rattle.model_export.specs.Export.{grouped_triples, triple, kind_number};
ghost use Rattle.model_span.specs.Spans.{internal, server, client, producer, consumer};
ghost use Rattle.model_message.specs.Tables.{◌▸◌};
ghost use Rattle.worked_trace.specs.Hex.{hex};
ghost use Rattle.worked_trace.specs.Samples.{trace_id, span_id, child_id, pair, set, span_a};
ghost use Rattle.worked_trace.specs.Samples.{span_b, remote_span_b, span_in};
ghost use Rattle.worked_trace.specs.Samples.{no_resource, resource_with, scope_s, scope_t};
ghost use Rattle.worked_trace.specs.Bytes.{a_with, kind_and_times, plain_span, plain_body};
ghost use Rattle.worked_trace.specs.Bytes.{span_flags};
ghost use Rattle.worked_trace.specs.Expected.{resource_of, status_of};
ghost use Rattle.worked_trace.specs.Written.{body, IsReadBack};

/// How bytes are written here: two hexadecimal digits each, and spaces anywhere.
#[tactic(auto, unfolding(crate::specs::Hex::hex))]
pub fn hexadecimal()
    ensures digits { hex "00 09 0a 0f 10 7f 80 ff" ≡ 0 ∷ 9 ∷ 10 ∷ 15 ∷ 16 ∷ 127 ∷ 128 ∷ 255 ∷ [] }
    ensures spaces { hex " 0 0ff" ≡ hex "00 ff" }
{}

/// Spans of one scope. Fields are in rising number. A number, a text or an identifier that has
/// its default is left out, and so is a status that is Unset; a resource, a scope and a value never
/// are. (profile)
#[tactic(auto, unfolding(crate::specs::Hex::hex, crate::specs::Samples::ended_span_of, crate::specs::Written::body))]
pub fn one_scope()
    ensures one_span { body (span_a [] ∷ []) ≡
        hex "0a 44 0a 00 12 40 0a 03 0a 01 73 12 39" ++ plain_span }
    // All of these 70 bytes.
    ensures one_span_in_full { body (span_a [] ∷ []) ≡
        hex "0a440a0012400a030a017312390a100102030405060708090a0b0c0d0e0f1012" ++
        hex "0811121314151617182a01613001390100000000000000410200000000000000" ++
        hex "850101010000" }
    // With an attribute a, which is the empty text.
    ensures one_span_with_attribute { body (span_a (set "a" (text []) ∷ []) ∷ []) ≡
        hex "0a 4d 0a 00 12 49 0a 03 0a 01 73 12 42" ++
        a_with (hex "4a 07 0a 01 61 12 02 0a 00") }
    // Two equal spans are both there.
    ensures two_equal_spans { body (span_a [] ∷ span_a [] ∷ []) ≡
        hex "0a 7f 0a 00 12 7b 0a 03 0a 01 73" ++
        hex "12 39" ++ plain_span ++
        hex "12 39" ++ plain_span }
    // A span and its child, which has an identifier of its own and that of its parent.
    ensures parent_and_child { body (span_a [] ∷ span_b "" ∷ []) ≡
        hex "0a 8a 01 0a 00 12 85 01 0a 03 0a 01 73" ++
        hex "12 39" ++ plain_span ++
        hex "12 43" ++ hex "0a 10" ++ trace_id ++ hex "12 08" ++ child_id ++
        hex "22 08" ++ span_id ++ hex "2a 01 62" ++ kind_and_times ++ span_flags }
    // The child of a remote parent, which is sampled.
    ensures child_of_remote { body (remote_span_b ∷ []) ≡
        hex "0a 4e 0a 00 12 4a 0a 03 0a 01 73" ++
        hex "12 43" ++ hex "0a 10" ++ trace_id ++ hex "12 08" ++ child_id ++
        hex "22 08" ++ span_id ++ hex "2a 01 62" ++ kind_and_times ++
        hex "85 01 01 03 00 00" }
    // The child alone, with the trace state k=v.
    ensures trace_state { body (span_b "k=v" ∷ []) ≡
        hex "0a 53 0a 00 12 4f 0a 03 0a 01 73" ++
        hex "12 48" ++ hex "0a 10" ++ trace_id ++ hex "12 08" ++ child_id ++
        hex "1a 03 6b 3d 76" ++ hex "22 08" ++ span_id ++ hex "2a 01 62" ++ kind_and_times ++
        span_flags }
    ensures no_spans { body [] ≡ [] }
{}

/// Spans of several scopes. They are grouped by resource and inside by scope, in the order in which
/// these come first. Two are the same where all their fields are equal. (profile)
#[tactic(auto, unfolding(crate::specs::Hex::hex, crate::specs::Samples::ended_span_of, crate::specs::Written::body))]
pub fn several_scopes()
    // The second scope is t of version 1, with the schema URL u.
    ensures two_scopes { body (span_in no_resource scope_s ∷ span_in no_resource scope_t ∷ []) ≡
        hex "0a 8c 01 0a 00" ++
        hex "12 40 0a 03 0a 01 73 12 39" ++ plain_span ++
        hex "12 46 0a 06 0a 01 74 12 01 31 12 39" ++ plain_span ++ hex "1a 01 75" }
    // A third span, which is in the first scope again, is in the first group.
    ensures first_scope_again { body (span_in no_resource scope_s ∷ span_in no_resource scope_t ∷
        span_in no_resource scope_s ∷ []) ≡
        hex "0a c7 01 0a 00" ++
        hex "12 7b 0a 03 0a 01 73 12 39" ++ plain_span ++ hex "12 39" ++ plain_span ++
        hex "12 46 0a 06 0a 01 74 12 01 31 12 39" ++ plain_span ++ hex "1a 01 75" }
    // Two scopes that differ in the version alone, in the schema URL alone, and in the attributes
    // alone.
    ensures two_versions { body (span_in no_resource scope_s ∷
        span_in no_resource (record scope_s { version = codes "2" }) ∷ []) ≡
        hex "0a 89 01 0a 00" ++
        hex "12 40 0a 03 0a 01 73 12 39" ++ plain_span ++
        hex "12 43 0a 06 0a 01 73 12 01 32 12 39" ++ plain_span }
    ensures two_schemas { body (span_in no_resource scope_s ∷
        span_in no_resource (record scope_s { schema = codes "u" }) ∷ []) ≡
        hex "0a 89 01 0a 00" ++
        hex "12 40 0a 03 0a 01 73 12 39" ++ plain_span ++
        hex "12 43 0a 03 0a 01 73 12 39" ++ plain_span ++ hex "1a 01 75" }
    ensures two_attributes { body (span_in no_resource scope_s ∷
        span_in no_resource (record scope_s { attributes = pair "a" (int (pos 1)) ∷ [] }) ∷ []) ≡
        hex "0a 8f 01 0a 00" ++
        hex "12 40 0a 03 0a 01 73 12 39" ++ plain_span ++
        hex "12 49 0a 0c 0a 01 73 1a 07 0a 01 61 12 02 18 01 12 39" ++ plain_span }
{}

/// Spans of several resources.
#[tactic(auto, unfolding(crate::specs::Hex::hex, crate::specs::Samples::ended_span_of, crate::specs::Written::body))]
pub fn several_resources()
    // They differ in the schema URL alone.
    ensures two_schemas { body (span_in no_resource scope_s ∷
        span_in (record no_resource { schema = codes "r" }) scope_s ∷ []) ≡
        plain_body ++
        hex "0a 47 0a 00 12 40 0a 03 0a 01 73 12 39" ++ plain_span ++ hex "1a 01 72" }
    // They have the same attributes in another order.
    ensures two_orders { body (
        span_in (resource_with (pair "a" (int (pos 1)) ∷ pair "b" (int (pos 1)) ∷ [])) scope_s ∷
        span_in (resource_with (pair "b" (int (pos 1)) ∷
        pair "a" (int (pos 1)) ∷ [])) scope_s ∷ []) ≡
        hex "0a 56 0a 12 0a 07 0a 01 61 12 02 18 01 0a 07 0a 01 62 12 02 18 01" ++
        hex "12 40 0a 03 0a 01 73 12 39" ++ plain_span ++
        hex "0a 56 0a 12 0a 07 0a 01 62 12 02 18 01 0a 07 0a 01 61 12 02 18 01" ++
        hex "12 40 0a 03 0a 01 73 12 39" ++ plain_span }
    // One has an empty array of texts, and the other one of numbers.
    ensures two_empty_arrays { body (
        span_in (resource_with (pair "a" (texts []) ∷ [])) scope_s ∷
        span_in (resource_with (pair "a" (ints []) ∷ [])) scope_s ∷ []) ≡
        hex "0a 4d 0a 09 0a 07 0a 01 61 12 02 2a 00" ++
        hex "12 40 0a 03 0a 01 73 12 39" ++ plain_span ++
        hex "0a 4d 0a 09 0a 07 0a 01 61 12 02 2a 00" ++
        hex "12 40 0a 03 0a 01 73 12 39" ++ plain_span }
{}

/// The numbers of a span's kinds.
pub fn kinds()
    ensures { map kind_number (internal ∷ server ∷ client ∷ producer ∷ consumer ∷ []) ≡
        pos 1 ∷ pos 2 ∷ pos 3 ∷ pos 4 ∷ pos 5 ∷ [] }
{}

/// How long these bodies are.
#[tactic(auto, unfolding(crate::specs::Hex::hex, crate::specs::Samples::ended_span_of, crate::specs::Written::body))]
pub fn lengths()
    ensures one_span { length (body (span_a [] ∷ [])) ≡ 70 }
    ensures one_span_with_attribute { length (body (span_a (set "a" (text []) ∷ []) ∷ [])) ≡ 79 }
    ensures two_equal_spans { length (body (span_a [] ∷ span_a [] ∷ [])) ≡ 129 }
    ensures parent_and_child { length (body (span_a [] ∷ span_b "" ∷ [])) ≡ 141 }
    ensures two_scopes { length
        (body (span_in no_resource scope_s ∷ span_in no_resource scope_t ∷ [])) ≡
        143 }
{}

/// The body of some spans means the request that carries them.
pub fn read_back()
    ensures no_spans { IsReadBack [] }
    ensures one_span { IsReadBack (span_a [] ∷ []) }
    ensures one_span_with_attribute { IsReadBack (span_a (set "a" (text []) ∷ []) ∷ []) }
    ensures two_equal_spans { IsReadBack (span_a [] ∷ span_a [] ∷ []) }
    ensures parent_and_child { IsReadBack (span_a [] ∷ span_b "" ∷ []) }
    ensures trace_state { IsReadBack (span_b "k=v" ∷ []) }
    ensures child_of_remote { IsReadBack (remote_span_b ∷ []) }
    ensures two_scopes { IsReadBack (span_in no_resource scope_s ∷
        span_in no_resource scope_t ∷ []) }
    ensures first_scope_again { IsReadBack (span_in no_resource scope_s ∷
        span_in no_resource scope_t ∷
        span_in no_resource scope_s ∷ []) }
    ensures two_resources { IsReadBack (span_in no_resource scope_s ∷
        span_in (record no_resource { schema = codes "r" }) scope_s ∷ []) }
    ensures attributes_of_both { IsReadBack (span_in (resource_with (pair "a" (int (pos 1)) ∷ []))
        (record scope_s { attributes = pair "b" (text (codes "x")) ∷ [] }) ∷ []) }
{}

/// The spans that a request carries, each with its resource and its scope.
#[tactic(auto, unfolding(crate::specs::Hex::hex, crate::specs::Samples::ended_span_of, model_export::specs::Export::grouped_triples, model_export::specs::Export::triple))]
pub fn carried_spans()
    // They come group by group, and in a group in their order.
    ensures first_scope_again { grouped_triples (span_a [] ∷ span_in no_resource scope_t ∷
        span_b "" ∷ []) ≡
        triple (span_a []) ∷ triple (span_b "") ∷ triple (span_in no_resource scope_t) ∷ [] }
    // Each has both schema URLs, the resource's and the scope's.
    ensures schemas { triple (span_in (record no_resource { schema = codes "r" }) scope_t) ≡
        record {
          resource = resource_of [];
          resource_schema = codes "r";
          scope = codes "t" ▸ codes "1" ▸ [] ▸ 0 ▸ tt;
          scope_schema = codes "u";
          span = trace_id ▸ span_id ▸ [] ▸ [] ▸ codes "a" ▸ pos 1 ▸ 1 ▸ 2 ▸
              [] ▸ 0 ▸ [] ▸ 0 ▸ [] ▸ 0 ▸ status_of "" 0 ▸ 0x101 ▸ tt;
        } }
{}
