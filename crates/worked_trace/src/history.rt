//! What a program does with several spans, and which of them it ends (OpenTelemetry Trace API,
//! "Span Creation", "End"; Trace SDK, "Sampling"). All spans are of kind server, and the scopes are
//! s, with the number 0, and t, with 1.

ghost use Rattle.std.specs.Prelude.{◌≡◌, [], ◌∷◌, ◌++◌, replicate, pos, true, Some, None};
ghost use Rattle.model_span.specs.Attributes.{int};
ghost use Rattle.model_span.specs.Spans.{Call};
ghost use Rattle.model_span.specs.Sampling as sampling;
ghost use Rattle.model_span.specs.Sampling.{always_on, always_off, as_parent, record_only};
ghost use Rattle.model_span.specs.Sampling.{record_and_sample};
ghost use Rattle.model_run.specs.Steps.{root, numbered, given};
ghost use Rattle.model_run.specs.History.{call, calls_on, ended_numbers};
ghost use Rattle.worked_trace.specs.Hex.{hex};
ghost use Rattle.worked_trace.specs.Samples.{trace_id, span_id, child_id, pair, set, rename};
ghost use Rattle.worked_trace.specs.Samples.{scope_s, scope_t};
ghost use Rattle.worked_trace.specs.Steps.{root_words, span_word, child_word, parent_trace};
ghost use Rattle.worked_trace.specs.Steps.{parent_id, parent_with, local_context, local_parent};
ghost use Rattle.worked_trace.specs.Steps.{remote_parent};
ghost use Rattle.worked_trace.specs.Steps.{begun_in, span_between, begin, begin_refused};
ghost use Rattle.worked_trace.specs.Steps.{outcomes_by, ended_by, gives, gives_none, exported_in};

/// The results of starts, each after the ones before it: the words that it takes, and its span.
#[tactic(auto, unfolding(crate::specs::Hex::hex, crate::specs::Steps::outcomes_by))]
pub fn outcomes()
    // A root in scope s and its child in scope t.
    ensures parent_and_child { outcomes_by always_on (root_words ++ child_word ∷ [])
        (begin 0 root 5 "a" ∷ begin 1 (numbered 0) 6 "b" ∷ []) ≡
        gives 3
        (begun_in scope_s "a" 5 (local_context trace_id span_id 1 "") None record_and_sample) ∷
        gives 1
        (begun_in scope_t "b" 6 (local_context trace_id child_id 1 "")
        (local_parent span_id) record_and_sample) ∷ [] }
    // A span is a parent also after its end, and where it was dropped. A call takes no word.
    ensures child_of_an_ended_span { outcomes_by (as_parent always_off)
        (root_words ++ child_word ∷ [])
        (begin 0 root 5 "a" ∷ call 0 (Call.end 6) ∷ begin 0 (numbered 0) 7 "b" ∷ []) ≡
        gives 3 (begun_in scope_s "a" 5 (local_context trace_id span_id 0 "") None sampling.drop) ∷
        gives 1
        (begun_in scope_s "b" 7 (local_context trace_id child_id 0 "")
        (local_parent span_id) sampling.drop) ∷ [] }
    // A parent of elsewhere, and one that is invalid.
    ensures given_parent { outcomes_by always_on (span_word ∷ [])
        (begin 0 (given (parent_with true 2)) 5 "a" ∷ []) ≡
        gives 1
        (begun_in scope_s "a" 5 (local_context parent_trace span_id 3 "k=v")
        (remote_parent parent_id) record_and_sample) ∷ [] }
    ensures invalid_parent { outcomes_by always_on root_words
        (begin 0 (given (record (parent_with true 2) { span = replicate 8 0 })) 5 "a" ∷ []) ≡
        gives 3
        (begun_in scope_s "a" 5 (local_context trace_id span_id 1 "") None record_and_sample) ∷ [] }
    // There is no scope 2: no word is taken.
    ensures no_scope { outcomes_by always_on root_words (begin 2 root 5 "a" ∷
        begin 0 root 6 "b" ∷ []) ≡
        gives_none 0 ∷
        gives 3
        (begun_in scope_s "b" 6 (local_context trace_id span_id 1 "") None record_and_sample) ∷ [] }
    // A parent that starts later, and a span as its own parent.
    ensures no_parent { outcomes_by always_on root_words
        (begin 0 (numbered 2) 5 "a" ∷ begin 0 (numbered 1) 5 "a" ∷ begin 0 root 6 "b" ∷ []) ≡
        gives_none 0 ∷ gives_none 0 ∷
        gives 3
        (begun_in scope_s "b" 6 (local_context trace_id span_id 1 "") None record_and_sample) ∷ [] }
    // Sixteen zeros: they are taken. Such a start is no parent, and the next one takes the words
    // after them.
    ensures no_randomness { outcomes_by always_on (replicate 16 0 ++ root_words)
        (begin 0 root 5 "a" ∷ begin 0 (numbered 0) 5 "a" ∷ begin 0 root 6 "b" ∷ []) ≡
        gives_none 16 ∷ gives_none 0 ∷
        gives 3
        (begun_in scope_s "b" 6 (local_context trace_id span_id 1 "") None record_and_sample) ∷ [] }
    // Memory is refused: the words are taken, and there is no span. Such a start is no parent.
    ensures refused { outcomes_by always_on (root_words ++ root_words)
        (begin_refused 0 root 5 "a" ∷ begin 0 (numbered 0) 5 "a" ∷ begin 0 root 6 "b" ∷ []) ≡
        gives_none 3 ∷ gives_none 0 ∷
        gives 3
        (begun_in scope_s "b" 6 (local_context trace_id span_id 1 "") None record_and_sample) ∷ [] }
{}

/// The calls on a span: those after its start.
pub fn calls()
    ensures of_the_first { calls_on 0 (begin 0 root 5 "a" ∷ call 0 (rename "x") ∷
        begin 0 root 5 "b" ∷
        call 1 (rename "y") ∷ call 0 (Call.end 6) ∷ []) ≡ rename "x" ∷ Call.end 6 ∷ [] }
    ensures of_the_second { calls_on 1 (begin 0 root 5 "a" ∷ call 0 (rename "x") ∷
        begin 0 root 5 "b" ∷
        call 1 (rename "y") ∷ call 0 (Call.end 6) ∷ []) ≡ rename "y" ∷ [] }
    ensures before_its_start { calls_on 1 (begin 0 root 5 "a" ∷ call 1 (Call.end 6) ∷
        begin 0 root 5 "b" ∷
        call 1 (Call.end 7) ∷ []) ≡ Call.end 7 ∷ [] }
    ensures never_started { calls_on 1 (begin 0 root 5 "a" ∷ call 1 (Call.end 6) ∷ []) ≡ [] }
{}

/// The spans that end, in the order of their first ends.
pub fn ends()
    ensures other_order { ended_numbers (begin 0 root 5 "a" ∷ begin 0 root 5 "b" ∷
        call 1 (Call.end 6) ∷ call 0 (Call.end 7) ∷ []) ≡ 1 ∷ 0 ∷ [] }
    ensures second_end { ended_numbers (begin 0 root 5 "a" ∷ begin 0 root 5 "b" ∷
        call 0 (Call.end 6) ∷ call 1 (Call.end 7) ∷ call 0 (Call.end 8) ∷ []) ≡ 0 ∷ 1 ∷ [] }
    // The end of a span that starts later counts for nothing.
    ensures before_its_start { ended_numbers (begin 0 root 5 "a" ∷ call 1 (Call.end 6) ∷
        begin 0 root 5 "b" ∷
        call 0 (Call.end 7) ∷ []) ≡ 0 ∷ [] }
    ensures no_end { ended_numbers (begin 0 root 5 "a" ∷ call 0 (rename "x") ∷ []) ≡ [] }
    ensures never_started { ended_numbers (call 0 (Call.end 6) ∷ []) ≡ [] }
{}

/// The spans that are exported, each with what its calls made of it. At most one attribute is kept.
#[tactic(auto, unfolding(crate::specs::Hex::hex, crate::specs::Steps::ended_by))]
pub fn exports()
    // A root a and its child b, which ends first.
    ensures other_order { ended_by always_on (root_words ++ child_word ∷ [])
        (begin 0 root 5 "a" ∷ begin 1 (numbered 0) 6 "b" ∷ call 1 (Call.end 7) ∷
        call 0 (Call.end 8) ∷ []) ≡
        exported_in 0 scope_t
        (span_between (local_context trace_id child_id 1 "")
        (local_parent span_id) "b" 6 7 [] 0) ∷
        exported_in 1 scope_s
        (span_between (local_context trace_id span_id 1 "") None "a" 5 8 [] 0) ∷ [] }
    // Calls on both, one after the other.
    ensures calls { ended_by always_on (root_words ++ child_word ∷ [])
        (begin 0 root 5 "a" ∷ begin 0 (numbered 0) 6 "b" ∷
        call 1 (set "k" (int (pos 1))) ∷ call 0 (rename "c") ∷ call 1 (set "l" (int (pos 2))) ∷
        call 1 (Call.end 7) ∷ call 0 (set "m" (int (pos 3))) ∷ call 0 (Call.end 8) ∷ []) ≡
        exported_in 0 scope_s
        (span_between (local_context trace_id child_id 1 "") (local_parent span_id) "b" 6 7
        (pair "k" (int (pos 1)) ∷ []) 1) ∷
        exported_in 1 scope_s (span_between (local_context trace_id span_id 1 "") None "c" 5 8
        (pair "m" (int (pos 3)) ∷ []) 0) ∷ [] }
    // Calls after the first end count for nothing, a second end neither.
    ensures after_its_end { ended_by always_on root_words
        (begin 0 root 5 "a" ∷ call 0 (Call.end 6) ∷ call 0 (set "k" (int (pos 1))) ∷
        call 0 (Call.end 7) ∷ []) ≡
        exported_in 0 scope_s
        (span_between (local_context trace_id span_id 1 "") None "a" 5 6 [] 0) ∷ [] }
    // Nor do calls before its start.
    ensures before_its_start { ended_by always_on root_words
        (call 0 (rename "x") ∷ call 0 (Call.end 4) ∷ begin 0 root 5 "a" ∷
        call 0 (Call.end 6) ∷ []) ≡
        exported_in 0 scope_s
        (span_between (local_context trace_id span_id 1 "") None "a" 5 6 [] 0) ∷ [] }
    // The end may be a moment before the start.
    ensures early_end { ended_by always_on root_words (begin 0 root 5 "a" ∷
        call 0 (Call.end 4) ∷ []) ≡
        exported_in 0 scope_s
        (span_between (local_context trace_id span_id 1 "") None "a" 5 4 [] 0) ∷ [] }
    ensures never_ended { ended_by always_on root_words (begin 0 root 5 "a" ∷ []) ≡ [] }
    ensures dropped { ended_by always_off root_words (begin 0 root 5 "a" ∷
        call 0 (Call.end 6) ∷ []) ≡ [] }
    ensures only_recorded { ended_by (λ _. record_only) root_words
        (begin 0 root 5 "a" ∷ call 0 (Call.end 6) ∷ []) ≡ [] }
    // A root is dropped, and the child of a sampled parent of elsewhere is not.
    ensures one_of_two { ended_by (as_parent always_off) (root_words ++ child_word ∷ [])
        (begin 0 root 5 "a" ∷ begin 0 (given (parent_with true 1)) 6 "b" ∷
        call 0 (Call.end 7) ∷ call 1 (Call.end 8) ∷ []) ≡
        exported_in 0 scope_s
        (span_between (local_context parent_trace child_id 1 "k=v")
        (remote_parent parent_id) "b" 6 8 [] 0) ∷ [] }
    // A start to which memory was refused has its number, and gives no span, which can't end.
    ensures refused { ended_by always_on (root_words ++ root_words)
        (begin_refused 0 root 5 "a" ∷ begin 0 root 6 "b" ∷ call 0 (Call.end 7) ∷
        call 1 (Call.end 8) ∷ []) ≡
        exported_in 0 scope_s
        (span_between (local_context trace_id span_id 1 "") None "b" 6 8 [] 0) ∷ [] }
    // Starts without a scope and without a parent give no span, which can't end.
    ensures no_scope { ended_by always_on root_words
        (begin 2 root 5 "a" ∷ begin 0 root 6 "b" ∷ call 0 (Call.end 7) ∷ call 1 (Call.end 8) ∷ []) ≡
        exported_in 0 scope_s
        (span_between (local_context trace_id span_id 1 "") None "b" 6 8 [] 0) ∷ [] }
    ensures no_parent { ended_by always_on root_words
        (begin 0 (numbered 7) 5 "a" ∷ begin 0 root 6 "b" ∷ call 0 (Call.end 7) ∷
        call 1 (Call.end 8) ∷ []) ≡
        exported_in 0 scope_s
        (span_between (local_context trace_id span_id 1 "") None "b" 6 8 [] 0) ∷ [] }
{}
