//! Attributes under limits (OpenTelemetry Common, "Attribute Limits"; Trace SDK, "Span Limits").

ghost use Rattle.std.specs.Prelude.{◌≡◌, [], ◌∷◌, ◌++◌, ◌-◌, ◌^◌, pos, codes, Some, None};
ghost use Rattle.model_span.specs.Attributes.{text, int, texts, capped_count};
ghost use Rattle.worked_trace.specs.Hex.{hex};
ghost use Rattle.model_span.specs.Spans.{default_limits};
ghost use Rattle.worked_trace.specs.Samples.{pair, set, kept};
ghost use Rattle.worked_trace.specs.Bytes.{a_with};
ghost use Rattle.worked_trace.specs.Written.{limited_bytes};

/// At most this many keys are kept: the first ones that were set, each with its last value. Later
/// pairs with other keys are dropped, and each of them is counted. (the order and the count:
/// profile)
#[tactic(auto, unfolding(crate::specs::Samples::kept))]
pub fn count_limit()
    // Of a=1, b=2, c=3, a=4 and c=5 a limit of 2 keeps a=4 and b=2.
    ensures two_of_three { kept 2 None (
        pair "a" (int (pos 1)) ∷ pair "b" (int (pos 2)) ∷ pair "c" (int (pos 3)) ∷
        pair "a" (int (pos 4)) ∷ pair "c" (int (pos 5)) ∷ []) ≡
        record { items = pair "a" (int (pos 4)) ∷ pair "b" (int (pos 2)) ∷ []; dropped = 2 } }
    ensures no_room { kept 0 None (pair "a" (int (pos 1)) ∷ []) ≡
        record { items = []; dropped = 1 } }
    // A pair with an empty key is ignored and not counted.
    ensures empty_key { kept 1 None (pair "" (int (pos 1)) ∷ pair "a" (int (pos 2)) ∷ []) ≡
        record { items = pair "a" (int (pos 2)) ∷ []; dropped = 0 } }
    ensures empty_key_without_room { kept 0 None (pair "" (int (pos 1)) ∷ []) ≡
        record { items = []; dropped = 0 } }
    // The count stops at the greatest number of 32 bits.
    ensures greatest_count { capped_count (2 ^ 32) ≡ 2 ^ 32 - 1 }
{}

/// A text is cut to this many characters (Unicode scalar values), and so is each text of an array.
#[tactic(auto, unfolding(crate::specs::Hex::hex, crate::specs::Samples::kept))]
pub fn length_limit()
    // Two of three e with an acute accent, which take two bytes each.
    ensures two_of_three { kept 9 (Some 2) (pair "a" (text (hex "c3 a9 c3 a9 c3 a9")) ∷ []) ≡
        record { items = pair "a" (text (hex "c3 a9 c3 a9")) ∷ []; dropped = 0 } }
    ensures each_of_an_array { kept 9 (Some 1)
        (pair "a" (texts (codes "xy" ∷ codes "z" ∷ [] ∷ [])) ∷ []) ≡
        record { items = pair "a" (texts (codes "x" ∷ codes "z" ∷ [] ∷ [])) ∷ []; dropped = 0 } }
    // Keys and other values stay as they are.
    ensures nothing_else { kept 9 (Some 0) (pair "key" (int (pos 12)) ∷ []) ≡
        record { items = pair "key" (int (pos 12)) ∷ []; dropped = 0 } }
{}

/// The attributes in the bytes of a span, and after them the count of those that were dropped.
#[tactic(auto, unfolding(crate::specs::Hex::hex, crate::specs::Written::limited_bytes))]
pub fn in_spans()
    ensures two_of_three { limited_bytes (record default_limits { attributes = 2 }) (
        set "a" (int (pos 1)) ∷ set "b" (int (pos 2)) ∷ set "c" (int (pos 3)) ∷
        set "a" (int (pos 4)) ∷ set "c" (int (pos 5)) ∷ []) ≡
        a_with
        (hex "4a 07 0a 01 61 12 02 18 04" ++ hex "4a 07 0a 01 62 12 02 18 02" ++ hex "50 02") }
    ensures no_room { limited_bytes (record default_limits { attributes = 0 })
        (set "a" (int (pos 1)) ∷ []) ≡
        a_with (hex "50 01") }
    // The text xy cut to one character.
    ensures cut_text { limited_bytes (record default_limits { value_length = Some 1 })
        (set "a" (text (codes "xy")) ∷ []) ≡
        a_with (hex "4a 08 0a 01 61 12 03 0a 01 78") }
{}
