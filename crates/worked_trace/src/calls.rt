//! Calls on a span, and what they make of its bytes (OpenTelemetry Trace API, "Span operations").

ghost use Rattle.std.specs.Prelude.{◌≡◌, [], ◌∷◌, ◌++◌, pos, true, codes, Some};
ghost use Rattle.model_span.specs.Attributes.{text, int};
ghost use Rattle.model_span.specs.Spans.{default_limits, unset, ok, Call, add_event};
ghost use Rattle.model_span.specs.Spans.{record_exception, add_link, set_status, span};
ghost use Rattle.worked_trace.specs.Hex.{hex};
ghost use Rattle.worked_trace.specs.Samples.{trace_id, span_id, context_of, zero_context, start_a};
ghost use Rattle.worked_trace.specs.Samples.{pair, set, set_error, rename};
ghost use Rattle.worked_trace.specs.Bytes.{a_with, link_flags, plain_span, span_flags, span_ids};
ghost use Rattle.worked_trace.specs.Bytes.{span_with, zero_ids, zero_link_flags};
ghost use Rattle.worked_trace.specs.Written.{span_bytes, limited_bytes};

/// The status: Ok is final, a later Error replaces an earlier one, and Unset is ignored ("Set
/// Status").
#[tactic(auto, unfolding(crate::specs::Hex::hex, crate::specs::Written::span_bytes))]
pub fn statuses()
    // Error x, Ok, Error y.
    ensures ok_is_final { span_bytes (set_error "x" ∷ set_status ok ∷ set_error "y" ∷ []) ≡
        a_with (hex "7a 02 18 01") }
    // Error x, Unset.
    ensures unset_is_ignored { span_bytes (set_error "x" ∷ set_status unset ∷ []) ≡
        a_with (hex "7a 05 12 01 78 18 02") }
    // Error x, Error y.
    ensures later_error { span_bytes (set_error "x" ∷ set_error "y" ∷ []) ≡
        a_with (hex "7a 05 12 01 79 18 02") }
    ensures error_without_text { span_bytes (set_error "" ∷ []) ≡ a_with (hex "7a 02 18 02") }
    // Unset is not written.
    ensures unset_alone { span_bytes (set_status unset ∷ []) ≡ plain_span }
{}

/// The name that was given last ("UpdateName"), and the first end ("End").
#[tactic(auto, unfolding(crate::specs::Hex::hex, crate::specs::Written::span_bytes, crate::specs::Written::limited_bytes, model_span::specs::Spans::span))]
pub fn names_and_ends()
    ensures last_name { span_bytes (rename "b" ∷ rename "c" ∷ []) ≡
        span_with (hex "2a 01 63") [] }
    // An empty name is not written.
    ensures empty_name { span_bytes (rename "" ∷ []) ≡ span_with [] [] }
    // Calls after the first end count for nothing: the span ends at 5.
    ensures after_end { span_bytes (Call.end 5 ∷
        set "a" (text []) ∷ set_status ok ∷ rename "b" ∷ Call.end 9 ∷ []) ≡
        span_ids ++ hex "2a 01 61" ++
        hex "30 01 39 01 00 00 00 00 00 00 00 41 05 00 00 00 00 00 00 00" ++ span_flags }
    // A span without an end ends when it starts. (profile)
    ensures no_end { (span default_limits start_a []).end ≡ 1 }
    // A limit on texts cuts no name and no status.
    ensures uncut { limited_bytes (record default_limits { value_length = Some 0 })
        (rename "bc" ∷ set_error "xy" ∷ []) ≡
        span_with (hex "2a 02 62 63") (hex "7a 06 12 02 78 79 18 02") }
{}

/// Events, with their moments, names and attributes ("Add Events").
#[tactic(auto, unfolding(crate::specs::Hex::hex, crate::specs::Written::span_bytes, crate::specs::Written::limited_bytes))]
pub fn events()
    // An event at 0 without name and attributes.
    ensures empty_event { span_bytes (add_event [] 0 [] ∷ []) ≡ a_with (hex "5a 00") }
    // An event e at 3 with an attribute a, which is 0.
    ensures event_with_attribute { span_bytes (add_event
        (codes "e") 3 (pair "a" (int (pos 0)) ∷ []) ∷ []) ≡
        a_with
        (hex "5a 15 09 03 00 00 00 00 00 00 00 12 01 65 1a 07 0a 01 61 12 02 18 00") }
    // A limit of one event keeps the first of three.
    ensures dropped_events { limited_bytes (record default_limits { events = 1 })
        (add_event [] 0 [] ∷ add_event (codes "e") 3 [] ∷ add_event (codes "f") 4 [] ∷ []) ≡
        a_with (hex "5a 00" ++ hex "60 02") }
    // A limit of one attribute for each event, of the pairs a=1 and b=2.
    ensures dropped_attribute { limited_bytes (record default_limits { event_attributes = 1 })
        (add_event [] 0 (pair "a" (int (pos 1)) ∷ pair "b" (int (pos 2)) ∷ []) ∷ []) ≡
        a_with (hex "5a 0b 1a 07 0a 01 61 12 02 18 01 20 01") }
    // The text xy cut to one character.
    ensures cut_text { limited_bytes (record default_limits { value_length = Some 1 })
        (add_event [] 0 (pair "a" (text (codes "xy")) ∷ []) ∷ []) ≡
        a_with (hex "5a 0a 1a 08 0a 01 61 12 03 0a 01 78") }
{}

/// A recorded exception: an event with attributes of its own, those left out that are empty, and
/// then the caller's ("Record Exception").
#[tactic(auto, unfolding(crate::specs::Hex::hex, crate::specs::Written::span_bytes, crate::specs::Written::limited_bytes))]
pub fn exceptions()
    // Type E and message m at 2, without a stack trace: an event of 69 bytes.
    ensures without_stack_trace { span_bytes
        (record_exception (codes "E") (codes "m") [] 2 [] ∷ []) ≡
        a_with
        (hex "5a 45 09 02 00 00 00 00 00 00 00 12 09" ++ codes "exception" ++
        hex "1a 15 0a 0e" ++ codes "exception.type" ++ hex "12 03 0a 01 45" ++
        hex "1a 18 0a 11" ++ codes "exception.message" ++ hex "12 03 0a 01 6d") }
    // The stack trace t alone.
    ensures stack_trace_alone { span_bytes (record_exception [] [] (codes "t") 2 [] ∷ []) ≡
        a_with
        (hex "5a 31 09 02 00 00 00 00 00 00 00 12 09" ++ codes "exception" ++
        hex "1a 1b 0a 14" ++ codes "exception.stacktrace" ++ hex "12 03 0a 01 74") }
    // A pair of the caller replaces the type E by F.
    ensures replaced_type { span_bytes (record_exception (codes "E") [] [] 2
        (pair "a" (int (pos 0)) ∷ pair "exception.type" (text (codes "F")) ∷ []) ∷ []) ≡
        a_with
        (hex "5a 34 09 02 00 00 00 00 00 00 00 12 09" ++ codes "exception" ++
        hex "1a 15 0a 0e" ++ codes "exception.type" ++ hex "12 03 0a 01 46" ++
        hex "1a 07 0a 01 61 12 02 18 00") }
    // Its own attributes are under the limits of every event: type EE, cut to one character, and
    // message m.
    ensures limited { limited_bytes
        (record default_limits { event_attributes = 1; value_length = Some 1 })
        (record_exception (codes "EE") (codes "m") [] 2 [] ∷ []) ≡
        a_with
        (hex "5a 2d 09 02 00 00 00 00 00 00 00 12 09" ++ codes "exception" ++
        hex "1a 15 0a 0e" ++ codes "exception.type" ++ hex "12 03 0a 01 45" ++ hex "20 01") }
{}

/// Links to spans ("Link", "Add Link"). One to an invalid context is kept where it has a trace
/// state or was given pairs.
#[tactic(auto, unfolding(crate::specs::Hex::hex, crate::specs::Written::span_bytes, crate::specs::Written::limited_bytes))]
pub fn links()
    // To the span itself, without trace state and attributes.
    ensures plain_link { span_bytes (add_link (context_of span_id "") [] ∷ []) ≡
        a_with (hex "6a 21" ++ span_ids ++ link_flags) }
    // To a context of another process.
    ensures remote_link { span_bytes (add_link
        (record (context_of span_id "") { remote = true }) [] ∷ []) ≡
        a_with (hex "6a 21" ++ span_ids ++ hex "35 01 03 00 00") }
    // With all flags set.
    ensures link_of_all_flags { span_bytes (add_link
        (record (context_of span_id "") { flags = 255 }) [] ∷ []) ≡
        a_with (hex "6a 21" ++ span_ids ++ hex "35 ff 01 00 00") }
    // The identifiers of an invalid context are written as they are.
    ensures invalid_with_pair { span_bytes (add_link zero_context (pair "a" (text []) ∷ []) ∷ []) ≡
        a_with (hex "6a 2a" ++ zero_ids ++ hex "22 07 0a 01 61 12 02 0a 00" ++ zero_link_flags) }
    // The pair may be one that is ignored.
    ensures invalid_with_ignored_pair { span_bytes (add_link
        zero_context (pair "" (text []) ∷ []) ∷ []) ≡
        a_with (hex "6a 21" ++ zero_ids ++ zero_link_flags) }
    ensures invalid_with_state { span_bytes (add_link
        (record zero_context { state = codes "k=v" }) [] ∷ []) ≡
        a_with (hex "6a 26" ++ zero_ids ++ hex "1a 03 6b 3d 76" ++ zero_link_flags) }
    // A link that says nothing is ignored and not counted, also where there is no room. (profile)
    ensures ignored { span_bytes (add_link zero_context [] ∷ []) ≡ plain_span }
    ensures ignored_without_room { limited_bytes (record default_limits { links = 0 })
        (add_link zero_context [] ∷ []) ≡
        plain_span }
    // A context is valid only where both of its identifiers are.
    ensures trace_alone { span_bytes (add_link (record zero_context { trace = trace_id }) [] ∷ []) ≡
        plain_span }
    ensures span_alone { span_bytes (add_link (record zero_context { span = span_id }) [] ∷ []) ≡
        plain_span }
    ensures dropped_link { limited_bytes (record default_limits { links = 0 })
        (add_link (context_of span_id "") [] ∷ []) ≡
        a_with (hex "70 01") }
    ensures dropped_attribute { limited_bytes (record default_limits { link_attributes = 0 })
        (add_link (context_of span_id "") (pair "a" (int (pos 1)) ∷ []) ∷ []) ≡
        a_with (hex "6a 23" ++ span_ids ++ hex "28 01" ++ link_flags) }
    ensures cut_text { limited_bytes (record default_limits { value_length = Some 1 })
        (add_link (context_of span_id "") (pair "a" (text (codes "xy")) ∷ []) ∷ []) ≡
        a_with (hex "6a 2b" ++ span_ids ++ hex "22 08 0a 01 61 12 03 0a 01 78" ++ link_flags) }
{}
