//! Edges: bytes, values and calls that are just inside a rule or just outside it.

ghost use Rattle.std.specs.Prelude.{◌≡◌, [], ◌∷◌, ◌++◌, ◌-◌, ◌^◌, pos, negsuc, true, false, Some};
ghost use Rattle.std.specs.Prelude.{None};
ghost use Rattle.std.specs.Prelude.{codes, replicate};
ghost use Rattle.model_message.specs.AnyValue.{AnyValue};
ghost use Rattle.model_span.specs.Attributes.{text, bool, int};
ghost use Rattle.model_message.specs.Reading.{done, truncated, long_varint, bad_number, bad_utf8};
ghost use Rattle.model_message.specs.Reading.{too_deep};
ghost use Rattle.model_span.specs.Spans.{default_limits, unset, ok, add_event, record_exception};
ghost use Rattle.model_span.specs.Spans.{add_link, set_status};
ghost use Rattle.model_message.specs.Tables.{◌▸◌};
ghost use Rattle.worked_trace.specs.Hex.{hex};
ghost use Rattle.worked_trace.specs.Samples.{span_id, context_of, pair, kept, set_error};
ghost use Rattle.worked_trace.specs.Bytes.{a_with, plain_span};
ghost use Rattle.worked_trace.specs.Expected.{key_value, array_of, pairs_of, resource_of};
ghost use Rattle.worked_trace.specs.Expected.{scope_named, status_of};
ghost use Rattle.worked_trace.specs.Expected.{span_of_flags, span_of_kind, request_of};
ghost use Rattle.worked_trace.specs.Expected.{resource_alone, no_spans};
ghost use Rattle.worked_trace.specs.Read.{read, faults, read_value, read_pair, in_arrays};
ghost use Rattle.worked_trace.specs.Read.{attribute_body};
ghost use Rattle.worked_trace.specs.Written.{span_bytes, limited_bytes};

/// Varints, tags and lengths, and what is beside a fault (Protocol Buffers, "Encoding").
#[tactic(auto, unfolding(crate::specs::Hex::hex, crate::specs::Read::read, crate::specs::Read::faults))]
pub fn wire()
    // A bad field number is reported before a bad wire type: number 0 with the types 3 and 7.
    // (profile)
    ensures number_before_group { faults (hex "03") ≡ bad_number ∷ [] }
    ensures number_before_wire_type { faults (hex "07") ≡ bad_number ∷ [] }
    // Ten bytes of 255 are no varint, and nine are one that breaks off, in the place of a tag or of
    // a length.
    ensures ten_high_bytes { faults (replicate 10 255) ≡ long_varint ∷ [] }
    ensures nine_high_bytes { faults (replicate 9 255) ≡ truncated ∷ [] }
    ensures ten_high_bytes_of_a_length { faults (hex "0a" ++ replicate 10 255) ≡ long_varint ∷ [] }
    ensures nine_high_bytes_of_a_length { faults (hex "0a" ++ replicate 9 255) ≡ truncated ∷ [] }
    // The greatest length, 2 ^ 64 - 1.
    ensures greatest_length { faults (hex "0a ff ff ff ff ff ff ff ff ff 01") ≡ truncated ∷ [] }
    // Bits past the 64th are dropped: the tag 2 ^ 64 + 10 is 10, and the length 2 ^ 64 is 0.
    ensures tag_past_64_bits { read (hex "8a 80 80 80 80 80 80 80 80 02 00") ≡ read (hex "0a 00") }
    ensures length_past_64_bits { read (hex "0a 80 80 80 80 80 80 80 80 80 02") ≡
        read (hex "0a 00") }
    // A tag may be longer than it has to be.
    ensures long_tag { read (hex "8a 00 00") ≡ read (hex "0a 00") }
    // A message that breaks off ends where its length says, and the one after it counts.
    ensures message_after_a_fault { read (hex "0a 01 80 0a 00") ≡
        record (read (hex "0a 00 0a 00")) { faults = truncated ∷ [] } }
    // Fields before a fault count: a name that is not UTF-8, and after it one that breaks off.
    // (profile)
    ensures name_before_a_fault { faults (hex "0a 0b 12 09 12 07 2a 01 ff 2a 05 61 61") ≡
        truncated ∷ bad_utf8 ∷ [] }
    // Flags of three bytes.
    ensures flags_cut_off { faults (hex "0a 09 12 07 12 05 85 01 01 01 00") ≡ truncated ∷ [] }
    // An unknown field, 99, is not looked into.
    ensures unknown_field_of_any_bytes { read (hex "9a 06 02 80 80") ≡ done no_spans }
    // A known number with another wire type is skipped.
    ensures skipped_eight_bytes { read (hex "09 01 02 03 04 05 06 07 08") ≡ done no_spans }
    ensures skipped_four_bytes { read (hex "0d 01 02 03 04") ≡ done no_spans }
    // So it replaces nothing: the name before it still counts, and is not UTF-8.
    ensures other_wire_type_replaces_nothing { faults (hex "0a 09 12 07 12 05 2a 01 ff 28 01") ≡
        bad_utf8 ∷ [] }
{}

/// Conversions of numbers, and members of values (Protocol Buffers, "Encoding", "Updating A Message
/// Type").
#[tactic(auto, unfolding(crate::specs::Hex::hex, crate::specs::Read::read, crate::specs::Read::read_value, crate::specs::Read::read_pair))]
pub fn readings()
    // A truth value is true where any of its 64 bits is set: here the highest alone.
    ensures bit_63_is_true { read_value (hex "10 80 80 80 80 80 80 80 80 80 01") ≡
        done (AnyValue.bool true) }
    // True, and then false.
    ensures last_truth_value { read_value (hex "10 01 10 00") ≡ done (AnyValue.bool false) }
    // The number 1, true, and the number 5: the last member is of a kind that came before.
    ensures first_kind_again { read_value (hex "18 01 10 01 18 05") ≡ done (AnyValue.int (pos 5)) }
    // The parts of a value are joined, and so their arrays are one run.
    ensures array_in_two_parts { read_pair (hex "12 04 2a 02 0a 00 12 04 2a 02 0a 00") ≡
        done (key_value "" (array_of (AnyValue.none ∷ AnyValue.none ∷ []))) }
    // An array that breaks off and an array of one value: both are of the run that counts.
    ensures run_with_a_fault { read_value (hex "2a 01 80 2a 02 0a 00") ≡
        record { value = array_of (AnyValue.none ∷ []); faults = truncated ∷ [] } }
    // A list of pairs, a number, and a list of pairs: the last unbroken run counts.
    ensures last_run_of_lists { read_value (hex "32 02 0a 00 18 01 32 05 0a 03 0a 01 61") ≡
        done (AnyValue.pairs (pairs_of (key_value "a" AnyValue.none ∷ []))) }
    // A count of 32 bits has the low bits of its number: 2 ^ 32 is 0.
    ensures count_past_32_bits { read (hex "0a 08 0a 06 10 80 80 80 80 10") ≡
        done (resource_alone ([] ▸ 0 ▸ tt)) }
    // A count of 5, and then of 0.
    ensures last_count { read (hex "0a 06 0a 04 10 05 10 00") ≡
        done (resource_alone ([] ▸ 0 ▸ tt)) }
    // A kind is the low 32 bits, with a sign: 2 ^ 31 is the least number, and 2 ^ 32 + 1 is 1.
    ensures least_kind { read (hex "0a 0a 12 08 12 06 30 80 80 80 80 08") ≡
        done
        (request_of (resource_of []) (scope_named "") (span_of_kind (negsuc (2 ^ 31 - 1)) ∷ [])) }
    ensures kind_past_32_bits { read (hex "0a 0a 12 08 12 06 30 81 80 80 80 10") ≡
        done (request_of (resource_of []) (scope_named "") (span_of_kind (pos 1) ∷ [])) }
    // Flags are any number of 32 bits, its least byte first, and the last one counts. A field 16 of
    // another wire type is skipped, here a varint and eight bytes.
    ensures flags_of_any_bits { read (hex "0a 0a 12 08 12 06 85 01 78 56 34 f2") ≡
        done (request_of (resource_of []) (scope_named "") (span_of_flags 0xf2345678 ∷ [])) }
    ensures last_flags { read (hex "0a 10 12 0e 12 0c 85 01 01 01 00 00 85 01 02 01 00 00") ≡
        done (request_of (resource_of []) (scope_named "") (span_of_flags 0x102 ∷ [])) }
    ensures flags_as_a_varint { read (hex "0a 08 12 06 12 04 80 01 81 02") ≡
        read (hex "0a 04 12 02 12 00") }
    ensures flags_in_eight_bytes { read
        (hex "0a 0e 12 0c 12 0a 81 01 01 01 00 00 00 00 00 00") ≡
        read (hex "0a 04 12 02 12 00") }
    ensures flags_of_a_link { read (hex "0a 0b 12 09 12 07 6a 05 35 78 56 34 f2") ≡
        done (request_of (resource_of []) (scope_named "") ((
        [] ▸ [] ▸ [] ▸ [] ▸ [] ▸ pos 0 ▸ 0 ▸ 0 ▸
        [] ▸ 0 ▸ [] ▸ 0 ▸ (([] ▸ [] ▸ [] ▸ [] ▸ 0 ▸ 0xf2345678 ▸ tt) ∷ []) ▸ 0 ▸
        status_of "" 0 ▸ 0 ▸ tt) ∷ [])) }
    // A status without fields is as good as none.
    ensures status_without_fields { read (hex "0a 06 12 04 12 02 7a 00") ≡
        read (hex "0a 04 12 02 12 00") }
    // The reader takes an identifier of any length: a trace id of one byte. (profile)
    ensures short_trace_id { read (hex "0a 07 12 05 12 03 0a 01 ff") ≡
        done (request_of (resource_of []) (scope_named "") ((
        (255 ∷ []) ▸ [] ▸ [] ▸ [] ▸ [] ▸ pos 0 ▸ 0 ▸ 0 ▸
        [] ▸ 0 ▸ [] ▸ 0 ▸ [] ▸ 0 ▸ status_of "" 0 ▸ 0 ▸ tt) ∷ [])) }
{}

/// The greatest depth. A value in 63 arrays has depth 64, which is allowed, and its members have
/// 65. What counts at 65 is a fault and is not looked into. (profile)
#[tactic(auto, unfolding(crate::specs::Hex::hex, crate::specs::Read::faults, crate::specs::Read::in_arrays, crate::specs::Read::attribute_body))]
pub fn depths()
    ensures empty_array_at_64 { faults (attribute_body (in_arrays 63 (hex "2a 00"))) ≡ [] }
    // A text at depth 64 is looked into: it is not UTF-8.
    ensures text_at_64 { faults (attribute_body (in_arrays 63 (hex "0a 01 ff"))) ≡ bad_utf8 ∷ [] }
    // A pair without a value.
    ensures absent_value_at_65 { faults
        (attribute_body (in_arrays 63 (hex "32 05 0a 03 0a 01 61"))) ≡ [] }
    // A pair with a value that has no member.
    ensures empty_value_at_65 { faults
        (attribute_body (in_arrays 63 (hex "32 07 0a 05 0a 01 61 12 00"))) ≡
        too_deep ∷ [] }
    // A value that breaks off.
    ensures value_of_any_bytes_at_65 { faults
        (attribute_body (in_arrays 63 (hex "2a 03 0a 01 80"))) ≡
        too_deep ∷ [] }
    ensures two_values_at_65 { faults (attribute_body (in_arrays 63 (hex "2a 04 0a 00 0a 00"))) ≡
        too_deep ∷ too_deep ∷ [] }
    // The parts of a value are joined, so that it is one fault.
    ensures value_in_two_parts_at_65 { faults
        (attribute_body (in_arrays 63 (hex "32 06 0a 04 12 00 12 00"))) ≡
        too_deep ∷ [] }
    // An array of one value, and after it the number 1: the array does not count.
    ensures array_that_does_not_count { faults
        (attribute_body (in_arrays 63 (hex "2a 02 0a 00 18 01"))) ≡ [] }
{}

/// Attributes under limits, and calls on a span (OpenTelemetry Common, "Attribute Limits"; Trace
/// API, "Span operations").
#[tactic(auto, unfolding(crate::specs::Hex::hex, crate::specs::Samples::kept, crate::specs::Written::span_bytes, crate::specs::Written::limited_bytes))]
pub fn calls()
    // A text of no characters stays as an attribute.
    ensures no_characters { kept 1 (Some 0) (pair "a" (text (hex "c3 a9")) ∷ []) ≡
        record { items = pair "a" (text []) ∷ []; dropped = 0 } }
    // One character: an emoji of four bytes, without the accent after it, which is a character of
    // its own.
    ensures four_byte_character { kept 1 (Some 1) (pair "a" (text (hex "f0 9f 98 80 cc 81")) ∷ []) ≡
        record { items = pair "a" (text (hex "f0 9f 98 80")) ∷ []; dropped = 0 } }
    // A value of another kind replaces the one before it. The keys a and A are two.
    ensures other_kind { kept 1 None (
        pair "a" (text []) ∷ pair "a" (bool true) ∷ pair "A" (bool true) ∷ []) ≡
        record { items = pair "a" (bool true) ∷ []; dropped = 1 } }
    // A limit of one attribute for each event: of a recorded exception its type is kept, with the
    // value F of the caller. The message and b=1 are dropped, and the empty key is ignored.
    ensures exception_at_its_limit { limited_bytes (record default_limits { event_attributes = 1 })
        (record_exception (codes "E") (codes "m") [] 0 (pair "exception.type" (text (codes "F")) ∷
        pair "" (int (pos 1)) ∷ pair "b" (int (pos 1)) ∷ []) ∷ []) ≡
        a_with (hex "5a 24 12 09" ++ codes "exception" ++
        hex "1a 15 0a 0e" ++ codes "exception.type" ++ hex "12 03 0a 01 46" ++ hex "20 02") }
    // A limit on texts cuts the value of an event's attribute, but neither its key nor the event's
    // name.
    ensures uncut_name_and_key { limited_bytes (record default_limits { value_length = Some 1 })
        (add_event (codes "name") 0 (pair "key" (text (codes "xy")) ∷ []) ∷ []) ≡
        a_with (hex "5a 12 12 04" ++ codes "name" ++
        hex "1a 0a 0a 03" ++ codes "key" ++ hex "12 03 0a 01 78") }
    // Ok, Unset, Error e: an ignored Unset makes no room for an Error.
    ensures unset_after_ok { span_bytes (set_status ok ∷ set_status unset ∷ set_error "e" ∷ []) ≡
        a_with (hex "7a 02 18 01") }
    // A link to a context that is sampled, but of which the span id alone is valid, is ignored.
    ensures half_valid_link { span_bytes (add_link
        (record (context_of span_id "") { trace = replicate 16 0 }) [] ∷ []) ≡
        plain_span }
{}
