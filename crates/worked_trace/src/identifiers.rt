//! Identifiers that are drawn from random words, and flags (W3C Trace Context, "trace-id",
//! "parent-id", "trace-flags"; Trace SDK, "Id Generators").

ghost use Rattle.std.specs.Prelude.{◌≡◌, [], ◌∷◌, Some, None, true, false, slice_index};
ghost use Rattle.model_span.specs.Identifiers as Identifiers;
ghost use Rattle.model_span.specs.Identifiers.{has_sampled_flag, words_after, words_spent};
ghost use Rattle.worked_trace.specs.Hex.{hex};

/// The first draw, of eight, in which some byte isn't zero. Words have their high byte first.
/// (profile)
#[tactic(auto, unfolding(model_span::specs::Identifiers::first_valid, crate::specs::Hex::hex))]
pub fn draws()
    // Two zeros, the words of a trace id, and that of a span id.
    ensures zeros_again { Identifiers.trace_id (slice_index (
        0 ∷ 0 ∷ 0x0102030405060708 ∷ 0x090a0b0c0d0e0f10 ∷ 0x1112131415161718 ∷ [])) ≡
        Some (hex "01 02 03 04 05 06 07 08 09 0a 0b 0c 0d 0e 0f 10") }
    ensures spent { words_spent 2 (slice_index (
        0 ∷ 0 ∷ 0x0102030405060708 ∷ 0x090a0b0c0d0e0f10 ∷ 0x1112131415161718 ∷ [])) ≡ 4 }
    ensures next_word { Identifiers.span_id (words_after 4 (slice_index (
        0 ∷ 0 ∷ 0x0102030405060708 ∷ 0x090a0b0c0d0e0f10 ∷ 0x1112131415161718 ∷ []))) ≡
        Some (hex "11 12 13 14 15 16 17 18") }
    // One of the two words may be zero.
    ensures low_word { Identifiers.trace_id (slice_index (0 ∷ 1 ∷ [])) ≡
        Some (hex "00 00 00 00 00 00 00 00 00 00 00 00 00 00 00 01") }
    ensures high_word { Identifiers.trace_id (slice_index (1 ∷ 0 ∷ [])) ≡
        Some (hex "00 00 00 00 00 00 00 01 00 00 00 00 00 00 00 00") }
    ensures eighth { Identifiers.span_id (slice_index (0 ∷ 0 ∷ 0 ∷ 0 ∷ 0 ∷ 0 ∷ 0 ∷ 1 ∷ [])) ≡
        Some (hex "00 00 00 00 00 00 00 01") }
    ensures ninth { Identifiers.span_id (slice_index (0 ∷ 0 ∷ 0 ∷ 0 ∷ 0 ∷ 0 ∷ 0 ∷ 0 ∷ 1 ∷ [])) ≡
        None }
    ensures zeros { Identifiers.trace_id (λ k. 0) ≡ None }
    ensures sixteen { words_spent 2 (λ k. 0) ≡ 16 }
    ensures eight { words_spent 1 (λ k. 0) ≡ 8 }
{}

/// Bit 0 says that the span is sampled.
pub fn flags()
    ensures none { has_sampled_flag 0 ≡ false }
    ensures sampled { has_sampled_flag 1 ≡ true }
    ensures random { has_sampled_flag 2 ≡ false }
    ensures both { has_sampled_flag 3 ≡ true }
    ensures all { has_sampled_flag 255 ≡ true }
{}
