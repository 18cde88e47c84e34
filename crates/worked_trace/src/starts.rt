//! How spans start, and what a program holds of them (OpenTelemetry Trace API, "Span Creation",
//! "Span operations"; Trace SDK, "SDK Span creation", "Sampling"; W3C Trace Context,
//! "trace-flags").

ghost use Rattle.std.specs.Prelude.{◌≡◌, [], ◌∷◌, ◌++◌, replicate, pos, true, false, Some, None};
ghost use Rattle.model_span.specs.Attributes.{int};
ghost use Rattle.model_span.specs.Spans.{Call};
ghost use Rattle.model_span.specs.Identifiers.{with_sampled_flag};
ghost use Rattle.model_span.specs.Sampling as sampling;
ghost use Rattle.model_span.specs.Sampling.{always_on, always_off, as_parent, record_only};
ghost use Rattle.model_span.specs.Sampling.{record_and_sample};
ghost use Rattle.model_span.specs.Starts.{flags_of, not_recording, ended};
ghost use Rattle.worked_trace.specs.Hex.{hex};
ghost use Rattle.worked_trace.specs.Samples.{trace_id, span_id, pair, set};
ghost use Rattle.worked_trace.specs.Steps.{root_words, span_word, parent_trace, parent_id};
ghost use Rattle.worked_trace.specs.Steps.{parent_with, local_context, local_parent, remote_parent};
ghost use Rattle.worked_trace.specs.Steps.{ids_drawn, words_drawn, five_decisions, started_by};
ghost use Rattle.worked_trace.specs.Steps.{begun_span, held_after, recorded_root};

/// The identifiers of a span: a trace id of two words where it has no parent, and then a span id of
/// one. A draw of zeros is repeated, eight draws in all. (profile)
#[tactic(auto, unfolding(crate::specs::Hex::hex, crate::specs::Steps::ids_drawn, crate::specs::Steps::words_drawn))]
pub fn identifiers()
    ensures root { ids_drawn None (root_words ++ 5 ∷ []) ≡
        Some (record { trace = trace_id; span = span_id }) }
    ensures root_words { words_drawn None (root_words ++ 5 ∷ []) ≡ 3 }
    // One draw of zeros before each of the two.
    ensures zeros { ids_drawn None (0 ∷ 0 ∷ 0x0102030405060708 ∷ 0x090a0b0c0d0e0f10 ∷ 0 ∷
        span_word ∷ []) ≡
        Some (record { trace = trace_id; span = span_id }) }
    ensures zeros_words { words_drawn None
        (0 ∷ 0 ∷ 0x0102030405060708 ∷ 0x090a0b0c0d0e0f10 ∷ 0 ∷ span_word ∷ []) ≡ 6 }
    // A zero beside another word is no draw of zeros.
    ensures half_zeros { ids_drawn None (0 ∷ 1 ∷ 0 ∷ 2 ∷ []) ≡
        Some (record { trace = replicate 15 0 ++ 1 ∷ []; span = replicate 7 0 ++ 2 ∷ [] }) }
    ensures half_zeros_words { words_drawn None (0 ∷ 1 ∷ 0 ∷ 2 ∷ []) ≡ 4 }
    // Sixteen zeros: no trace id, and no word is drawn for a span id.
    ensures no_trace { ids_drawn None (replicate 16 0 ++ root_words) ≡ None }
    ensures no_trace_words { words_drawn None (replicate 16 0 ++ root_words) ≡ 16 }
    ensures fourteen_zeros { ids_drawn None (replicate 14 0 ++ root_words) ≡
        Some (record { trace = trace_id; span = span_id }) }
    // A trace id, and eight zeros after it.
    ensures no_span { ids_drawn None (1 ∷ 0 ∷ replicate 8 0 ++ root_words) ≡ None }
    ensures no_span_words { words_drawn None (1 ∷ 0 ∷ replicate 8 0 ++ root_words) ≡ 10 }
    // Under a parent only the span id is drawn.
    ensures child { ids_drawn (Some (parent_with true 1)) (0 ∷ span_word ∷ 5 ∷ []) ≡
        Some (record { trace = parent_trace; span = span_id }) }
    ensures child_words { words_drawn (Some (parent_with true 1)) (0 ∷ span_word ∷ 5 ∷ []) ≡ 2 }
    ensures no_child { ids_drawn (Some (parent_with true 1)) (replicate 8 0 ++ root_words) ≡ None }
    ensures no_child_words { words_drawn (Some (parent_with true 1)) (replicate 8 0 ++ root_words) ≡
        8 }
{}

/// The sampled flag alone is set or cleared, and the others stay: those of the parent, or none for
/// a root.
#[tactic(auto, unfolding(crate::specs::Hex::hex))]
pub fn flags()
    ensures set_in_none { with_sampled_flag true 0 ≡ 1 }
    ensures set_again { with_sampled_flag true 1 ≡ 1 }
    ensures set_beside_another { with_sampled_flag true 2 ≡ 3 }
    ensures set_in_all { with_sampled_flag true 255 ≡ 255 }
    ensures cleared_in_none { with_sampled_flag false 0 ≡ 0 }
    ensures cleared { with_sampled_flag false 1 ≡ 0 }
    ensures cleared_beside_another { with_sampled_flag false 3 ≡ 2 }
    ensures cleared_in_all { with_sampled_flag false 255 ≡ 254 }
    ensures sampled_root { flags_of None true ≡ 1 }
    ensures other_root { flags_of None false ≡ 0 }
    ensures sampled_child { flags_of (Some (parent_with true 2)) true ≡ 3 }
    ensures other_child { flags_of (Some (parent_with false 3)) false ≡ 2 }
{}

/// A span that starts, with its context, its parent, and what its sampler decides.
#[tactic(auto, unfolding(crate::specs::Hex::hex, crate::specs::Steps::started_by))]
pub fn starts()
    ensures root { started_by always_on None root_words ≡
        Some (begun_span (local_context trace_id span_id 1 "") None record_and_sample) }
    // A root that is dropped has its identifiers all the same.
    ensures dropped_root { started_by always_off None root_words ≡
        Some (begun_span (local_context trace_id span_id 0 "") None sampling.drop) }
    // A child has its parent's trace, its trace state, and its flags but for the sampled flag. It
    // is of this process.
    ensures child { started_by always_on (Some (parent_with true 2)) (span_word ∷ []) ≡
        Some
        (begun_span (local_context parent_trace span_id 3 "k=v")
        (remote_parent parent_id) record_and_sample) }
    ensures dropped_child { started_by always_off (Some (parent_with false 3)) (span_word ∷ []) ≡
        Some
        (begun_span (local_context parent_trace span_id 2 "k=v")
        (local_parent parent_id) sampling.drop) }
    // A span that is only recorded isn't sampled.
    ensures recorded_child { started_by (λ _. record_only) (Some (parent_with true 1))
        (span_word ∷ []) ≡
        Some
        (begun_span (local_context parent_trace span_id 0 "k=v")
        (remote_parent parent_id) record_only) }
    // A parent of which one identifier is all zeros counts as none.
    ensures parent_without_span { started_by always_on
        (Some (record (parent_with true 3) { span = replicate 8 0 })) root_words ≡
        Some (begun_span (local_context trace_id span_id 1 "") None record_and_sample) }
    ensures parent_without_trace { started_by always_off
        (Some (record (parent_with false 3) { trace = replicate 16 0 })) root_words ≡
        Some (begun_span (local_context trace_id span_id 0 "") None sampling.drop) }
    ensures no_randomness { started_by always_on None [] ≡ None }
{}

/// A sampler by the parent asks one of five ("ParentBased").
#[tactic(auto, unfolding(crate::specs::Hex::hex))]
pub fn samplers()
    ensures root { five_decisions None ≡
        record_and_sample ∷ sampling.drop ∷ sampling.drop ∷ sampling.drop ∷ sampling.drop ∷ [] }
    ensures remote_sampled { five_decisions (Some (parent_with true 1)) ≡
        sampling.drop ∷ record_and_sample ∷ sampling.drop ∷ sampling.drop ∷ sampling.drop ∷ [] }
    // Another flag than the sampled one is set.
    ensures remote { five_decisions (Some (parent_with true 2)) ≡
        sampling.drop ∷ sampling.drop ∷ record_and_sample ∷ sampling.drop ∷ sampling.drop ∷ [] }
    ensures local_sampled { five_decisions (Some (parent_with false 3)) ≡
        sampling.drop ∷ sampling.drop ∷ sampling.drop ∷ record_and_sample ∷ sampling.drop ∷ [] }
    ensures local { five_decisions (Some (parent_with false 0)) ≡
        sampling.drop ∷ sampling.drop ∷ sampling.drop ∷ sampling.drop ∷ record_and_sample ∷ [] }
    // An invalid parent counts as none, though it is remote and sampled.
    ensures invalid { five_decisions (Some (record (parent_with true 1) { span = replicate 8 0 })) ≡
        record_and_sample ∷ sampling.drop ∷ sampling.drop ∷ sampling.drop ∷ sampling.drop ∷ [] }
{}

/// By default a child is sampled exactly where its parent is. Here a root is dropped.
#[tactic(auto, unfolding(crate::specs::Hex::hex, crate::specs::Steps::started_by))]
pub fn default_samplers()
    ensures remote { started_by (as_parent always_off) (Some (parent_with true 0))
        (span_word ∷ []) ≡
        Some
        (begun_span (local_context parent_trace span_id 0 "k=v")
        (remote_parent parent_id) sampling.drop) }
    ensures remote_sampled { started_by (as_parent always_off) (Some (parent_with true 3))
        (span_word ∷ []) ≡
        Some
        (begun_span (local_context parent_trace span_id 3 "k=v")
        (remote_parent parent_id) record_and_sample) }
    ensures local_sampled { started_by (as_parent always_off) (Some (parent_with false 1))
        (span_word ∷ []) ≡
        Some
        (begun_span (local_context parent_trace span_id 1 "k=v")
        (local_parent parent_id) record_and_sample) }
    ensures local { started_by (as_parent always_off) (Some (parent_with false 2))
        (span_word ∷ []) ≡
        Some
        (begun_span (local_context parent_trace span_id 2 "k=v")
        (local_parent parent_id) sampling.drop) }
    // An invalid parent: a root, with a new trace and no flag.
    ensures invalid { started_by (as_parent always_off)
        (Some (record (parent_with false 1) { span = replicate 8 0 })) root_words ≡
        Some (begun_span (local_context trace_id span_id 0 "") None sampling.drop) }
{}

/// Calls on a span count from its start to its first end, unless it was dropped. At most one
/// attribute is kept.
#[tactic(auto, unfolding(crate::specs::Hex::hex, crate::specs::Steps::held_after))]
pub fn states()
    ensures no_call { (held_after record_and_sample []).state ≡ recorded_root [] 0 }
    ensures attribute { (held_after record_and_sample
        (set "a" (int (pos 1)) ∷ set "b" (int (pos 2)) ∷ [])).state ≡
        recorded_root (pair "a" (int (pos 1)) ∷ []) 1 }
    ensures only_recorded { (held_after record_only (set "a" (int (pos 1)) ∷ [])).state ≡
        recorded_root (pair "a" (int (pos 1)) ∷ []) 0 }
    ensures dropped { (held_after sampling.drop []).state ≡ not_recording }
    ensures call_on_dropped { (held_after sampling.drop (set "a" (int (pos 1)) ∷ [])).state ≡
        not_recording }
    ensures end { (held_after record_and_sample (set "a" (int (pos 1)) ∷ Call.end 6 ∷ [])).state ≡
        ended }
    ensures call_after_end { (held_after record_and_sample
        (Call.end 6 ∷ set "a" (int (pos 1)) ∷ [])).state ≡ ended }
    ensures end_of_dropped { (held_after sampling.drop (Call.end 6 ∷ [])).state ≡ ended }
    // The context stays, also after the end.
    ensures context { (held_after record_and_sample (Call.end 6 ∷ Call.end 7 ∷ [])).context ≡
        local_context trace_id span_id 1 "" }
    ensures context_of_dropped { (held_after sampling.drop []).context ≡
        local_context trace_id span_id 1 "" }
{}
