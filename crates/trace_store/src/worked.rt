//! Worked examples of what a store of traces is and of what it has room for, with values that were
//! written out by hand. The checker computes what the definitions make of each, and compares.
//!
//! Each function is a group of examples. Its clauses are the examples, and it does nothing when it
//! is called. A span of a store is a number here, which is also its size.

ghost use Rattle.std.specs.Prelude.{◌≡◌, ◌+◌, ◌*◌, ◌∷◌, ◌++◌, [], ℕ, false, replicate, reverse};
ghost use Rattle.circular_buffer.specs.Buffer.{keep_last};
ghost use Rattle.trace_store.specs.Keys.{trace_key};
ghost use Rattle.trace_store.specs.Requests.{and_trace, share_of};
ghost use Rattle.trace_store.specs.Stores.{HasRoom};
ghost use Rattle.trace_store.specs.Traces.{byte_count, joined_traces, span_count, spans_of};
ghost use Rattle.trace_store.specs.Traces.{traces_of, with_parts, with_spans};
ghost use Rattle.trace_store.specs.Examples.{store_of};

/// Spans come after those of their trace, which is then the newest.
pub(crate) fn traces()
    ensures first { with_spans {S = ℕ} [] 7 (1 ∷ []) ≡ (7, 1 ∷ []) ∷ [] }
    ensures there { with_spans {S = ℕ} ((1, 10 ∷ []) ∷ (2, 20 ∷ []) ∷ []) 2 (21 ∷ 22 ∷ [])
        ≡ (2, 20 ∷ 21 ∷ 22 ∷ []) ∷ (1, 10 ∷ []) ∷ [] }
    ensures new { with_spans {S = ℕ} ((1, 10 ∷ []) ∷ (2, 20 ∷ []) ∷ []) 3 (30 ∷ [])
        ≡ (3, 30 ∷ []) ∷ (1, 10 ∷ []) ∷ (2, 20 ∷ []) ∷ [] }
    ensures parts { with_parts {S = ℕ} ((1, 10 ∷ []) ∷ []) ((2, 20 ∷ []) ∷ (1, 11 ∷ []) ∷ [])
        ≡ (1, 10 ∷ 11 ∷ []) ∷ (2, 20 ∷ []) ∷ [] }
    ensures none { spans_of {S = ℕ} ((1, 10 ∷ []) ∷ []) 2 ≡ [] }
    ensures count { span_count {S = ℕ} ((2, 20 ∷ 21 ∷ []) ∷ (1, 10 ∷ []) ∷ []) ≡ 3 }
    ensures bytes { byte_count {S = ℕ} (λ n. n) ((2, 20 ∷ 21 ∷ []) ∷ (1, 10 ∷ []) ∷ []) ≡ 51 }
{}

/// A store has room for spans if the traces that they belong to are within its limits with them.
pub(crate) fn rooms()
    ensures joined { joined_traces {S = ℕ} ((2, 20 ∷ 21 ∷ []) ∷ (1, 10 ∷ []) ∷ [])
        ((1, 11 ∷ []) ∷ (3, 30 ∷ []) ∷ []) ≡ (1, 10 ∷ 11 ∷ []) ∷ (3, 30 ∷ []) ∷ [] }
    // 1,001 and 1,000 empty spans, where 1,000 spans are kept.
    ensures too_many { ¬ HasRoom {S = ℕ} (λ n. n) (store_of ((1, 10 ∷ []) ∷ []) 1000 99)
        ((7, replicate 1001 0) ∷ []) }
    ensures many { HasRoom {S = ℕ} (λ n. n) (store_of ((1, 10 ∷ []) ∷ []) 1000 99)
        ((7, replicate 1000 0) ∷ []) }
    // Two spans, where three are kept: of a new trace, and of one that has two.
    ensures new { HasRoom {S = ℕ} (λ n. n) (store_of ((1, 10 ∷ 11 ∷ []) ∷ []) 3 99)
        ((2, 20 ∷ 21 ∷ []) ∷ []) }
    ensures with_others { ¬ HasRoom {S = ℕ} (λ n. n) (store_of ((1, 10 ∷ 11 ∷ []) ∷ []) 3 99)
        ((1, 12 ∷ 13 ∷ []) ∷ []) }
    // Two traces, which fit alone, but not together.
    ensures together { ¬ HasRoom {S = ℕ} (λ n. n) (store_of ((1, 10 ∷ 11 ∷ []) ∷ []) 3 99)
        ((1, 12 ∷ []) ∷ (2, 20 ∷ []) ∷ []) }
    // 41 bytes, where 41 and where 40 are kept.
    ensures bytes { HasRoom {S = ℕ} (λ n. n) (store_of [] 9 41) ((1, 20 ∷ 21 ∷ []) ∷ []) }
    ensures too_large { ¬ HasRoom {S = ℕ} (λ n. n) (store_of [] 9 40) ((1, 20 ∷ 21 ∷ []) ∷ []) }
{}

/// What spans share counts with the first span of each trace: here for spans of traces 7, 8, 7 and
/// 8.
pub(crate) fn shares()
    ensures first { share_of 512 (λ _. false) 7 ≡ 512 }
    ensures second { share_of 512 (and_trace (λ _. false) 7) 8 ≡ 512 }
    ensures third { share_of 512 (and_trace (and_trace (λ _. false) 7) 8) 7 ≡ 0 }
    ensures fourth { share_of 512 (and_trace (and_trace (and_trace (λ _. false) 7) 8) 7) 8 ≡ 0 }
{}

/// The traces that went are named after those that went before: the oldest of them first.
pub(crate) fn names()
    ensures traces { traces_of {S = ℕ} ((2, 20 ∷ 21 ∷ []) ∷ (1, 10 ∷ []) ∷ []) ≡ 2 ∷ 1 ∷ [] }
    ensures after { keep_last {X = ℕ} 1000 (9 ∷ [] ++ reverse (traces_of {S = ℕ}
        ((2, 20 ∷ []) ∷ (1, 10 ∷ []) ∷ []))) ≡ 9 ∷ 1 ∷ 2 ∷ [] }
    ensures last { keep_last {X = ℕ} 2 (9 ∷ 1 ∷ 2 ∷ []) ≡ 1 ∷ 2 ∷ [] }
{}

/// A trace's number is the sixteen bytes of its identifier, the most significant first. An
/// identifier of another length is that of trace 0.
pub(crate) fn keys()
    ensures last_bytes { trace_key (replicate 14 0 ++ 1 ∷ 2 ∷ []) ≡ 258 }
    ensures short { trace_key (1 ∷ 1 ∷ 1 ∷ 1 ∷ 1 ∷ 1 ∷ 1 ∷ 1 ∷ []) ≡ 0 }
    ensures none { trace_key [] ≡ 0 }
{}
