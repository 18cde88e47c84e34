//! Texts with what they mean, which were written out by hand. The checker computes what the
//! definitions make of each, and compares. (opentelemetry-proto, "JSON Protobuf Encoding"; Protocol
//! Buffers, "ProtoJSON Format")

ghost use Rattle.std.specs.Prelude.{◌≡◌, ◌^◌, ◌-◌, [], ◌∷◌, codes, true, Err, None, Ok};
ghost use Rattle.json.specs.Token as tokens;
ghost use Rattle.model_message.specs.Wire.{varint, i64, len, i32};
ghost use Rattle.otlp_json.specs.Bodies.{body_bytes};
ghost use Rattle.otlp_json.specs.Leaves.{payload};
ghost use Rattle.otlp_json.specs.Mended.{mended};
ghost use Rattle.otlp_json.specs.Names.{each, member_named, nested, one};
ghost use Rattle.otlp_json.specs.Numbers.{whole};
ghost use Rattle.otlp_json.specs.Posted.{posted_bytes};
ghost use Rattle.otlp_json.specs.declared.fault.JsonFault.TheVariants as faults;
ghost use Rattle.otlp_json.specs.declared.names.Leaf.TheVariants as leaves;
ghost use Rattle.otlp_json.specs.declared.names.Message.TheVariants as messages;

/// Names are in lowerCamelCase, and no other spelling is known.
#[tactic(auto, unfolding(crate::specs::Names::member_named, crate::specs::Names::span_member, crate::specs::Names::more_of_span, crate::specs::Names::any_value_member, crate::specs::Names::request_member))]
pub(crate) fn names()
    ensures parent { member_named messages.Span (codes "parentSpanId") ≡ one 4 leaves.Id }
    ensures flags { member_named messages.Span (codes "flags") ≡ one 16 leaves.Fixed32 }
    ensures status { member_named messages.Span (codes "status") ≡ nested 15 messages.Status }
    ensures bytes { member_named messages.AnyValue (codes "bytesValue") ≡ one 7 leaves.Bytes }
    ensures first { member_named messages.Request (codes "resourceSpans")
        ≡ each 1 messages.ResourceSpans }
    ensures capital { member_named messages.Span (codes "SpanId") ≡ None }
    ensures underscore { member_named messages.Span (codes "span_id") ≡ None }
{}

/// Whole numbers, which may have a point and an exponent.
#[tactic(auto, unfolding(crate::specs::Numbers::whole, json::specs::Word::after_number, fast_float::proofs::OnLiterals::fast_float_on_literals))]
pub(crate) fn numbers()
    ensures plain { whole (codes "12") 99 0 ≡ Ok 12 }
    ensures exponent { whole (codes "1.5e3") 9999 0 ≡ Ok 1500 }
    ensures no_fraction { whole (codes "7.0") 9 0 ≡ Ok 7 }
    ensures minus_zero { whole (codes "-0") 9 0 ≡ Ok 0 }
    ensures minus_one { whole (codes "-1") 9 1 ≡ Ok (2 ^ 64 - 1) }
    ensures below { whole (codes "-1") 9 0 ≡ Err faults.OutOfRange }
    ensures above { whole (codes "10") 9 0 ≡ Err faults.OutOfRange }
    ensures half { whole (codes "0.5") 9 0 ≡ Err faults.OutOfRange }
    ensures no_digits { whole (codes "") 9 0 ≡ Err faults.BadNumber }
    ensures plus { whole (codes "+1") 9 0 ≡ Err faults.BadNumber }
{}

/// What tokens mean in the place of fields.
#[tactic(auto, unfolding(crate::specs::Leaves::payload, crate::specs::Leaves::identifier, crate::specs::Leaves::base64_bytes, crate::specs::Leaves::standard_bytes, crate::specs::Leaves::url_safe_bytes, crate::specs::Leaves::double_in, crate::specs::Numbers::whole, crate::specs::Numbers::double, crate::specs::Numbers::quoted_double, json::specs::Word::after_number, hex::proofs::OnLiterals::hex_on_literals, fast_float::proofs::OnLiterals::fast_float_on_literals))]
pub(crate) fn payloads()
    ensures text { payload leaves.Text (tokens.string (codes "x")) ≡ Ok (len (codes "x")) }
    ensures any_case { payload leaves.Id (tokens.string (codes "0aFF"))
        ≡ Ok (len (10 ∷ 255 ∷ [])) }
    ensures no_id { payload leaves.Id (tokens.string (codes "xy")) ≡ Err faults.BadIdentifier }
    ensures truth { payload leaves.Bool (tokens.boolean true) ≡ Ok (varint 1) }
    ensures name { payload leaves.Enum (tokens.string (codes "SPAN_KIND_SERVER"))
        ≡ Err faults.WrongType }
    ensures enumeration { payload leaves.Enum (tokens.number (codes "2")) ≡ Ok (varint 2) }
    ensures flags { payload leaves.Fixed32 (tokens.string (codes "257")) ≡ Ok (i32 257) }
    ensures quoted { payload leaves.Fixed64 (tokens.string (codes "18446744073709551615"))
        ≡ Ok (i64 (2 ^ 64 - 1)) }
    ensures least { payload leaves.Int64 (tokens.number (codes "-9223372036854775808"))
        ≡ Ok (varint (2 ^ 63)) }
    ensures above { payload leaves.Int64 (tokens.number (codes "9223372036854775808"))
        ≡ Err faults.OutOfRange }
    ensures nan { payload leaves.Double (tokens.string (codes "NaN"))
        ≡ Ok (i64 0x7ff8_0000_0000_0000) }
    ensures no_text { payload leaves.Text (tokens.number (codes "1")) ≡ Err faults.WrongType }
    ensures bad { payload leaves.Text tokens.bad ≡ Err faults.Malformed }
{}

/// Whole texts, with the bytes that they mean in Protocol Buffers.
#[tactic(auto, unfolding(crate::proofs::OnLiterals::texts_on_literals))]
pub(crate) fn texts()
    ensures empty { body_bytes (codes "{}") ≡ Ok [] }
    ensures url { body_bytes (codes "{\"resourceSpans\":[{\"schemaUrl\":\"u\"}]}")
        ≡ Ok (10 ∷ 3 ∷ 26 ∷ 1 ∷ 117 ∷ []) }
    ensures two { body_bytes (codes "{\"resourceSpans\":[{},{}]}") ≡ Ok (10 ∷ 0 ∷ 10 ∷ 0 ∷ []) }
    ensures null { body_bytes (codes "{\"resourceSpans\":null}") ≡ Ok [] }
    ensures unknown { body_bytes (codes "{\"ResourceSpans\":[1,{\"a\":[]}]}") ≡ Ok [] }
    ensures again { body_bytes (codes "{\"resourceSpans\":[{}],\"resourceSpans\":[{}]}")
        ≡ Ok (10 ∷ 0 ∷ 10 ∷ 0 ∷ []) }
    ensures list { body_bytes (codes "{\"resourceSpans\":[null]}") ≡ Err faults.WrongType }
    ensures no_object { body_bytes (codes "[]") ≡ Err faults.WrongType }
    ensures open { body_bytes (codes "{") ≡ Err faults.Malformed }
    ensures more { body_bytes (codes "{} 1") ≡ Err faults.Malformed }
    ensures nothing { body_bytes [] ≡ Err faults.Malformed }
    ensures no_text { body_bytes (255 ∷ []) ≡ Err faults.NotUtf8 }
{}

/// Texts with surrogates, as they are read. A pair is one character, and a backslash that is escaped
/// begins no escape (RFC 8259, section 7).
#[tactic(auto, unfolding(crate::specs::Mended::pieces, crate::specs::Mended::first_piece, crate::specs::Mended::unit_in, json::specs::Text::code_unit))]
pub(crate) fn surrogates()
    ensures cut { mended (codes "\"Ann\\ud83d\"") ≡ codes "\"Ann\\ufffd\"" }
    ensures second { mended (codes "\\uDe00!") ≡ codes "\\ufffd!" }
    ensures pair { mended (codes "\\ud83d\\ude00") ≡ codes "\\ud83d\\ude00" }
    ensures capitals { mended (codes "\\uDBFF\\uDFFF") ≡ codes "\\uDBFF\\uDFFF" }
    ensures twice { mended (codes "\\ud83d\\ud83d\\ude00") ≡ codes "\\ufffd\\ud83d\\ude00" }
    ensures turned { mended (codes "\\ude00\\ud83d") ≡ codes "\\ufffd\\ufffd" }
    ensures apart { mended (codes "\\ud83d \\ude00") ≡ codes "\\ufffd \\ufffd" }
    ensures escaped { mended (codes "\\\\ud83d") ≡ codes "\\\\ud83d" }
    ensures after_escaped { mended (codes "\\\\\\ud83d") ≡ codes "\\\\\\ufffd" }
    ensures others { mended (codes "\\u00e9\\n\\ue000\\ud7ff") ≡ codes "\\u00e9\\n\\ue000\\ud7ff" }
    ensures short { mended (codes "\\ud83\\") ≡ codes "\\ud83\\" }
{}

/// Whole texts that are no JSON, where a surrogate alone is U+FFFD: in UTF-8 ef bf bd. The first
/// fault is still the first.
#[tactic(auto, unfolding(crate::proofs::OnLiterals::texts_on_literals, crate::specs::Mended::pieces, crate::specs::Mended::first_piece, crate::specs::Mended::unit_in, json::specs::Text::code_unit))]
pub(crate) fn posted_texts()
    ensures alone { posted_bytes (codes "{\"resourceSpans\":[{\"schemaUrl\":\"\\ud83d\"}]}")
        ≡ Ok (10 ∷ 5 ∷ 26 ∷ 3 ∷ 239 ∷ 191 ∷ 189 ∷ []) }
    ensures url { posted_bytes (codes "{\"resourceSpans\":[{\"schemaUrl\":\"u\"}]}")
        ≡ Ok (10 ∷ 3 ∷ 26 ∷ 1 ∷ 117 ∷ []) }
    ensures before { posted_bytes (codes "{\"resourceSpans\":1,\"a\":\"\\ud83d\"}")
        ≡ Err faults.WrongType }
    ensures after { posted_bytes (codes "{\"a\":\"\\ud83d\",\"resourceSpans\":1}")
        ≡ Err faults.WrongType }
    ensures open { posted_bytes (codes "{\"a\":\"\\ud83d\"") ≡ Err faults.Malformed }
{}
