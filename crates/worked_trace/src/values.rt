//! Values of attributes as they are written (opentelemetry-proto, common.proto, "AnyValue";
//! Protocol Buffers, "Encoding").

ghost use Rattle.std.specs.Prelude.{◌≡◌, [], ◌∷◌, ◌-◌, ◌^◌, pos, negsuc, true, false, codes};
ghost use Rattle.model_message.specs.AnyValue.{AnyValue, no_pairs};
ghost use Rattle.model_span.specs.Attributes.{text, bool, int, texts, bools, ints};
ghost use Rattle.worked_trace.specs.Hex.{hex};
ghost use Rattle.worked_trace.specs.Samples.{pair};
ghost use Rattle.worked_trace.specs.Expected.{pairs_of, key_value};
ghost use Rattle.worked_trace.specs.Written.{pair_bytes, value_bytes, any_value_bytes};

/// A text, a truth value or a number, which is written also where it is the default.
#[tactic(auto, unfolding(crate::specs::Hex::hex, crate::specs::Written::value_bytes))]
pub fn scalars()
    ensures empty_text { value_bytes (text []) ≡ hex "0a 00" }
    // Texts are UTF-8: an e with an acute accent.
    ensures accented_text { value_bytes (text (hex "c3 a9")) ≡ hex "0a 02 c3 a9" }
    ensures false_value { value_bytes (bool false) ≡ hex "10 00" }
    ensures true_value { value_bytes (bool true) ≡ hex "10 01" }
    ensures zero { value_bytes (int (pos 0)) ≡ hex "18 00" }
    // A varint has seven bits a byte, the low ones first.
    ensures number_150 { value_bytes (int (pos 150)) ≡ hex "18 96 01" }
    // A number below zero is in two's complement of 64 bits: -1.
    ensures minus_one { value_bytes (int (negsuc 0)) ≡ hex "18 ff ff ff ff ff ff ff ff ff 01" }
    // The greatest and the least number of 64 bits.
    ensures greatest { value_bytes (int (pos (2 ^ 63 - 1))) ≡ hex "18 ff ff ff ff ff ff ff ff 7f" }
    ensures least { value_bytes (int (negsuc (2 ^ 63 - 1))) ≡
        hex "18 80 80 80 80 80 80 80 80 80 01" }
{}

/// An array, of which each member is written.
#[tactic(auto, unfolding(crate::specs::Hex::hex, crate::specs::Written::value_bytes))]
pub fn arrays()
    // The numbers 1 and -1.
    ensures numbers { value_bytes (ints (pos 1 ∷ negsuc 0 ∷ [])) ≡
        hex "2a 11 0a 02 18 01 0a 0b 18 ff ff ff ff ff ff ff ff ff 01" }
    // The empty text and the text a.
    ensures empty_text_and_a { value_bytes (texts ([] ∷ codes "a" ∷ [])) ≡
        hex "2a 09 0a 02 0a 00 0a 03 0a 01 61" }
    ensures true_and_false { value_bytes (bools (true ∷ false ∷ [])) ≡
        hex "2a 08 0a 02 10 01 0a 02 10 00" }
    // Each of the three empty arrays is an array without members.
    ensures no_texts { value_bytes (texts []) ≡ hex "2a 00" }
    ensures no_truth_values { value_bytes (bools []) ≡ hex "2a 00" }
    ensures no_numbers { value_bytes (ints []) ≡ hex "2a 00" }
{}

/// The protocol's other kinds of values, which the attributes of a program do not have. (profile)
#[tactic(auto, unfolding(crate::specs::Hex::hex, crate::specs::Written::any_value_bytes))]
pub fn other_kinds()
    ensures none { any_value_bytes AnyValue.none ≡ [] }
    // The double 1.0, by its bits.
    ensures double { any_value_bytes (AnyValue.double 0x3ff0_0000_0000_0000) ≡
        hex "21 00 00 00 00 00 00 f0 3f" }
    ensures empty_list { any_value_bytes (AnyValue.pairs no_pairs) ≡ hex "32 00" }
    // The value of a pair is written also where it is none.
    ensures list_of_pairs { any_value_bytes
        (AnyValue.pairs (pairs_of (key_value "a" AnyValue.none ∷ []))) ≡
        hex "32 07 0a 05 0a 01 61 12 00" }
    ensures byte_string { any_value_bytes (AnyValue.bytes (hex "00 ff")) ≡ hex "3a 02 00 ff" }
{}

/// A pair of a key and a value. An empty key is left out, and a value never is.
#[tactic(auto, unfolding(crate::specs::Hex::hex, crate::specs::Written::pair_bytes))]
pub fn pairs()
    ensures with_key { pair_bytes (pair "a" (text [])) ≡ hex "0a 01 61 12 02 0a 00" }
    ensures without_key { pair_bytes (pair "" (text [])) ≡ hex "12 02 0a 00" }
{}
