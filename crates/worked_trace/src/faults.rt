//! Bytes that mean nothing, and why (Protocol Buffers, "Encoding").

ghost use Rattle.std.specs.Prelude.{◌≡◌, [], ◌∷◌, map, replicate, length, pos};
ghost use Rattle.model_message.specs.AnyValue.{AnyValue};
ghost use Rattle.model_message.specs.Reading.{done, truncated, long_varint, bad_number, group};
ghost use Rattle.model_message.specs.Reading.{bad_wire_type, bad_utf8, too_deep};
ghost use Rattle.worked_trace.specs.Hex.{hex};
ghost use Rattle.worked_trace.specs.Bytes.{plain_body, reversed_body};
ghost use Rattle.worked_trace.specs.Expected.{array_of};
ghost use Rattle.worked_trace.specs.Read.{faults, beginnings, read_value, nested_arrays};
ghost use Rattle.worked_trace.specs.Read.{nested_lists, attribute_body};

/// Bodies that break off.
#[tactic(auto, unfolding(crate::specs::Hex::hex, crate::specs::Read::faults))]
pub fn truncations()
    // Each of the 63 proper beginnings of the body of one span.
    ensures of_one_span { map faults (beginnings 69 plain_body) ≡ replicate 69 (truncated ∷ []) }
    // Each of the 52 of the body with its fields in falling order.
    ensures of_reversed { map faults (beginnings 52 reversed_body) ≡ replicate 52 (truncated ∷ []) }
    // The bodies themselves have no faults.
    ensures whole { map faults (plain_body ∷ reversed_body ∷ []) ≡ [] ∷ [] ∷ [] }
    ensures lengths { map length (plain_body ∷ reversed_body ∷ []) ≡ 70 ∷ 53 ∷ [] }
    // A length that goes past the end of the message around it, with a byte after that message.
    ensures inside { faults (hex "0a 02 0a 02 08 01") ≡ truncated ∷ [] }
    // Fixed numbers with one byte too few.
    ensures eight_bytes { faults (hex "09 00 00 00 00 00 00 00") ≡ truncated ∷ [] }
    ensures four_bytes { faults (hex "0d 00 00 00") ≡ truncated ∷ [] }
{}

/// Varints and tags that no field has.
#[tactic(auto, unfolding(crate::specs::Hex::hex, crate::specs::Read::faults))]
pub fn fields()
    // A varint of eleven bytes.
    ensures eleven_bytes { faults (hex "ff ff ff ff ff ff ff ff ff ff 01") ≡ long_varint ∷ [] }
    ensures number_0 { faults (hex "00") ≡ bad_number ∷ [] }
    // Field number 2 ^ 29.
    ensures number_too_great { faults (hex "80 80 80 80 10") ≡ bad_number ∷ [] }
    // Field number 2 ^ 32 + 1, of which the low 32 bits are 1.
    ensures number_past_32_bits { faults (hex "8a 80 80 80 80 01 00") ≡ bad_number ∷ [] }
    // Groups are refused, not skipped. (profile)
    ensures start_of_a_group { faults (hex "0b") ≡ group ∷ [] }
    ensures end_of_a_group { faults (hex "0c") ≡ group ∷ [] }
    ensures wire_type_6 { faults (hex "0e") ≡ bad_wire_type ∷ [] }
    ensures wire_type_7 { faults (hex "0f") ≡ bad_wire_type ∷ [] }
    // The same in a message.
    ensures inside { faults (hex "0a 01 0b") ≡ group ∷ [] }
    // A body may have several: number 0, after a message that breaks off.
    ensures two_faults { faults (hex "0a 01 80 00") ≡ bad_number ∷ truncated ∷ [] }
{}

/// Texts that count and are not UTF-8.
#[tactic(auto, unfolding(crate::specs::Hex::hex, crate::specs::Read::faults))]
pub fn texts()
    // A name.
    ensures name { faults (hex "0a 07 12 05 12 03 2a 01 ff") ≡ bad_utf8 ∷ [] }
    // A key that spells a surrogate.
    ensures surrogate { faults (hex "0a 09 0a 07 0a 05 0a 03 ed a0 80") ≡ bad_utf8 ∷ [] }
    // A value that spells the character 0 in two bytes.
    ensures overlong { faults (hex "0a 0d 0a 0b 0a 09 0a 01 61 12 04 0a 02 c0 80") ≡ bad_utf8 ∷ [] }
{}

/// Values in values. An attribute's value has depth 1, a member one more, and the greatest depth is
/// 64. (profile)
#[tactic(auto, unfolding(crate::specs::Hex::hex, crate::specs::Read::faults, crate::specs::Read::read_value, crate::specs::Read::nested_arrays, crate::specs::Read::nested_lists, crate::specs::Read::attribute_body))]
pub fn depths()
    ensures two_arrays { nested_arrays 2 ≡ hex "2a 08 0a 06 2a 04 0a 02 18 01" }
    ensures one_list { nested_lists 1 ≡ hex "32 09 0a 07 0a 01 61 12 02 18 01" }
    ensures three_deep { read_value (nested_arrays 2) ≡
        done (array_of (array_of (AnyValue.int (pos 1) ∷ []) ∷ [])) }
    // A number in 63 arrays, and in 64.
    ensures arrays_64_deep { faults (attribute_body (nested_arrays 63)) ≡ [] }
    ensures arrays_65_deep { faults (attribute_body (nested_arrays 64)) ≡ too_deep ∷ [] }
    // A number in 63 lists of pairs, and in 64.
    ensures lists_64_deep { faults (attribute_body (nested_lists 63)) ≡ [] }
    ensures lists_65_deep { faults (attribute_body (nested_lists 64)) ≡ too_deep ∷ [] }
{}
