//! Worked examples of what a reader of the texts sees, with values that were written out by hand.
//! The checker computes what the definitions make of each, and compares.
//!
//! Each function is a group of examples. Its clauses are the examples, and it does nothing when it
//! is called.

ghost use Rattle.std.specs.Prelude.{◌≡◌, ◌∷◌, [], Some, codes, from_bits, true, false, pos, negsuc};
ghost use Rattle.std.specs.Float.{binary64};
ghost use Rattle.std.specs.Float.Ieee.{fin};
ghost use Rattle.json.specs.Token.{begin_object, boolean, end_object, key, number, string};
ghost use Rattle.otlp_json.specs.Seen.{Number, Other, float_seen, hex_member, long_member};
ghost use Rattle.otlp_json.specs.Seen.{seen};
ghost use Rattle.view_json.specs.Values.{pair_text};

/// Identifiers are in hexadecimal, in lower case; numbers of 64 bits are texts.
pub(crate) fn members()
    ensures hex { seen (hex_member (codes "spanId") (0 ∷ 171 ∷ 16 ∷ []))
        ≡ Other (key (codes "spanId")) ∷ Other (string (codes "00ab10")) ∷ [] }
    ensures long { seen (long_member (codes "timeUnixNano") 1544712660000000000)
        ≡ Other (key (codes "timeUnixNano")) ∷ Other (string (codes "1544712660000000000")) ∷ [] }
{}

/// A whole number is its digits, and one with a point or an exponent is a double.
#[tactic(auto, unfolding(fast_float::proofs::OnLiterals::fast_float_on_literals))]
pub(crate) fn numbers()
    ensures whole { seen (number (codes "257") ∷ []) ≡ Other (number (codes "257")) ∷ [] }
    ensures below { seen (number (codes "-1") ∷ []) ≡ Other (number (codes "-1")) ∷ [] }
    ensures point { seen (number (codes "1.5") ∷ []) ≡ Number (Some (fin false 3 (negsuc 0))) ∷ [] }
{}

/// A double is the number that it is; what is no number, and what is infinite, is a text.
pub(crate) fn doubles()
    ensures one_and_a_half { float_seen (from_bits binary64 0x3ff8000000000000)
        ≡ Number (Some (fin false 3 (negsuc 0))) }
    ensures not_a_number { float_seen (from_bits binary64 0x7ff8000000000000)
        ≡ Other (string (codes "NaN")) }
    ensures infinite { float_seen (from_bits binary64 0x7ff0000000000000)
        ≡ Other (string (codes "Infinity")) }
    ensures less { float_seen (from_bits binary64 0xfff0000000000000)
        ≡ Other (string (codes "-Infinity")) }
{}

/// A pair has the member `value` only where its value has a member, which says what it is.
pub(crate) fn pairs()
    ensures bare { pair_text (codes "a") []
        ≡ Other begin_object ∷ Other (key (codes "key")) ∷ Other (string (codes "a"))
        ∷ Other end_object ∷ [] }
    ensures truth { pair_text (codes "a")
        (Other (key (codes "boolValue")) ∷ Other (boolean true) ∷ [])
        ≡ Other begin_object ∷ Other (key (codes "key")) ∷ Other (string (codes "a"))
        ∷ Other (key (codes "value")) ∷ Other begin_object ∷ Other (key (codes "boolValue"))
        ∷ Other (boolean true) ∷ Other end_object ∷ Other end_object ∷ [] }
{}
