//! What bytes mean, in whatever form they come (Protocol Buffers, "Encoding").

ghost use Rattle.std.specs.Prelude.{◌≡◌, [], ◌∷◌, ◌-◌, ◌^◌, pos, negsuc, true, false, codes};
ghost use Rattle.model_message.specs.AnyValue.{AnyValue};
ghost use Rattle.model_message.specs.Reading.{done};
ghost use Rattle.model_message.specs.Tables.{◌▸◌};
ghost use Rattle.worked_trace.specs.Hex.{hex};
ghost use Rattle.worked_trace.specs.Samples.{trace_id, span_id};
ghost use Rattle.worked_trace.specs.Bytes.{body_without_flags, plain_body, reversed_body};
ghost use Rattle.worked_trace.specs.Expected.{key_value, array_of, pairs_of, resource_of};
ghost use Rattle.worked_trace.specs.Expected.{scope_named, status_of, span_named};
ghost use Rattle.worked_trace.specs.Expected.{request_of, resource_alone, no_spans};
ghost use Rattle.worked_trace.specs.Read.{read, read_pair, read_value};

/// Bodies, and what they mean field by field.
#[tactic(auto, unfolding(crate::specs::Hex::hex, crate::specs::Read::read))]
pub fn whole_bodies()
    ensures one_span { read plain_body ≡ done (request_of (resource_of []) (scope_named "s") ((
        trace_id ▸ span_id ▸ [] ▸ [] ▸ codes "a" ▸ pos 1 ▸ 1 ▸ 2 ▸
        [] ▸ 0 ▸ [] ▸ 0 ▸ [] ▸ 0 ▸ status_of "" 0 ▸ 0x101 ▸ tt) ∷ [])) }
    // Without the field its flags are 0.
    ensures without_flags { read body_without_flags ≡
        done (request_of (resource_of []) (scope_named "s") ((
        trace_id ▸ span_id ▸ [] ▸ [] ▸ codes "a" ▸ pos 1 ▸ 1 ▸ 2 ▸
        [] ▸ 0 ▸ [] ▸ 0 ▸ [] ▸ 0 ▸ status_of "" 0 ▸ 0 ▸ tt) ∷ [])) }
    // Fields in falling order, the status in two parts, the name twice, and an unknown field 99.
    ensures reversed { read reversed_body ≡ done (request_of (resource_of []) (scope_named "") ((
        trace_id ▸ span_id ▸ [] ▸ [] ▸ codes "a" ▸ pos 0 ▸ 0 ▸ 0 ▸
        [] ▸ 0 ▸ [] ▸ 0 ▸ [] ▸ 0 ▸ status_of "x" 2 ▸ 0 ▸ tt) ∷ [])) }
    ensures empty { read [] ≡ done no_spans }
{}

/// Fields that are unknown, that come again, or that come in parts.
#[tactic(auto, unfolding(crate::specs::Hex::hex, crate::specs::Read::read))]
pub fn fields()
    // A known number with another wire type is skipped.
    ensures other_wire_type { read (hex "08 01") ≡ done no_spans }
    // The greatest number that a field may have.
    ensures greatest_number { read (hex "f8 ff ff ff 0f 00") ≡ done no_spans }
    // The parts of a message are joined: a resource in two, and between them a span without fields.
    ensures resource_in_two_parts { read
        (hex "0a 12 0a 05 0a 03 0a 01 61 12 02 12 00 0a 05 0a 03 0a 01 62") ≡
        done (request_of
        (resource_of (key_value "a" AnyValue.none ∷ key_value "b" AnyValue.none ∷ []))
        (scope_named "") (span_named "" ∷ [])) }
    // The last name counts, and the one before it may be any bytes. (the latter: profile)
    ensures last_name_counts { read (hex "0a 0a 12 08 12 06 2a 01 ff 2a 01 61") ≡
        done (request_of (resource_of []) (scope_named "") (span_named "a" ∷ [])) }
    // All pairs of a repeated key are kept.
    ensures repeated_key { read (hex "0a 0c 0a 0a 0a 03 0a 01 61 0a 03 0a 01 61") ≡
        done (resource_alone
        (resource_of (key_value "a" AnyValue.none ∷ key_value "a" AnyValue.none ∷ []))) }
    // A count of 32 bits has the low bits of its number: 2 ^ 32 + 1 dropped attributes are 1.
    ensures low_bits_of_a_count { read (hex "0a 08 0a 06 10 81 80 80 80 10") ≡
        done (resource_alone ([] ▸ 1 ▸ tt)) }
    // A kind is a signed number of 32 bits: 2 ^ 32 - 1 is -1.
    ensures kind_below_zero { read (hex "0a 0a 12 08 12 06 30 ff ff ff ff 0f") ≡
        done (request_of (resource_of []) (scope_named "") ((
        [] ▸ [] ▸ [] ▸ [] ▸ [] ▸ negsuc 0 ▸ 0 ▸ 0 ▸
        [] ▸ 0 ▸ [] ▸ 0 ▸ [] ▸ 0 ▸ status_of "" 0 ▸ 0 ▸ tt) ∷ [])) }
{}

/// Values of one member.
#[tactic(auto, unfolding(crate::specs::Hex::hex, crate::specs::Read::read_value))]
pub fn values()
    ensures minus_one { read_value (hex "18 ff ff ff ff ff ff ff ff ff 01") ≡
        done (AnyValue.int (negsuc 0)) }
    // Bits past the 64th are dropped.
    ensures bits_past_64 { read_value (hex "18 ff ff ff ff ff ff ff ff ff 7f") ≡
        done (AnyValue.int (negsuc 0)) }
    // The greatest and the least number of 64 bits.
    ensures greatest { read_value (hex "18 ff ff ff ff ff ff ff ff 7f") ≡
        done (AnyValue.int (pos (2 ^ 63 - 1))) }
    ensures least { read_value (hex "18 80 80 80 80 80 80 80 80 80 01") ≡
        done (AnyValue.int (negsuc (2 ^ 63 - 1))) }
    // A varint may be longer than it has to be.
    ensures long_zero { read_value (hex "18 80 00") ≡ done (AnyValue.int (pos 0)) }
    // Each number but 0 is true.
    ensures two_is_true { read_value (hex "10 02") ≡ done (AnyValue.bool true) }
    // 2 ^ 64, whose bit is dropped, is false.
    ensures bit_64_is_false { read_value (hex "10 80 80 80 80 80 80 80 80 80 02") ≡
        done (AnyValue.bool false) }
    // The double 1.0, of which the bits are kept.
    ensures double { read_value (hex "21 00 00 00 00 00 00 f0 3f") ≡
        done (AnyValue.double 0x3ff0_0000_0000_0000) }
    ensures list_of_pairs { read_value (hex "32 07 0a 05 0a 01 61 12 00") ≡
        done (AnyValue.pairs (pairs_of (key_value "a" AnyValue.none ∷ []))) }
    ensures byte_string { read_value (hex "3a 02 00 ff") ≡ done (AnyValue.bytes (hex "00 ff")) }
{}

/// Values of several members, of which the last counts, or of none. What does not count may be any
/// bytes, since it is not read. (the latter: profile)
#[tactic(auto, unfolding(crate::specs::Hex::hex, crate::specs::Read::read_value, crate::specs::Read::read_pair))]
pub fn members()
    ensures no_value { read_pair (hex "0a 01 61") ≡ done (key_value "a" AnyValue.none) }
    ensures no_member { read_value [] ≡ done AnyValue.none }
    // A text that is not UTF-8, the number 1 and the number 2.
    ensures last_member { read_value (hex "0a 01 ff 18 01 18 02") ≡ done (AnyValue.int (pos 2)) }
    // The parts of a value are joined: the number 1, and then the text b.
    ensures value_in_two_parts { read_pair (hex "0a 01 61 12 02 18 01 12 03 0a 01 62") ≡
        done (key_value "a" (AnyValue.text (codes "b"))) }
    // After the number 1 a field 8, which is unknown, and a field 1 of another wire type.
    ensures unknown_members { read_value (hex "18 01 40 05 0d 00 00 00 00") ≡
        done (AnyValue.int (pos 1)) }
    // An array, a number and two arrays: the last unbroken run of arrays is joined.
    ensures last_run_of_arrays { read_value (hex "2a 02 0a 00 18 01 2a 02 0a 00 2a 02 0a 00") ≡
        done (array_of (AnyValue.none ∷ AnyValue.none ∷ [])) }
    // A field that is unknown does not break the run.
    ensures unbroken_run { read_value (hex "2a 04 0a 02 18 01 40 05 2a 04 0a 02 18 02") ≡
        done (array_of (AnyValue.int (pos 1) ∷ AnyValue.int (pos 2) ∷ [])) }
    // An array that breaks off, and the number 1.
    ensures array_that_does_not_count { read_value (hex "2a 01 80 18 01") ≡
        done (AnyValue.int (pos 1)) }
{}
