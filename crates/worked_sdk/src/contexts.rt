//! What is read and written of the fields that carry the context of a trace.

ghost use Rattle.std.specs.Prelude.{◌≡◌, [], ◌∷◌, ◌++◌, Some, None, codes, true, false};
ghost use Rattle.trace_context.specs.Traceparent.{kept_flags, traceparent};
ghost use Rattle.trace_context.specs.Outgoing.{flags_text, traceparent_text};
ghost use Rattle.trace_context.specs.Keys.{is_key};
ghost use Rattle.trace_context.specs.Tracestate.{tracestate};
ghost use Rattle.worked_sdk.specs.LongKeys.{key_of_256};

/// Texts of `traceparent` (W3C Trace Context, "Examples of HTTP traceparent Headers", "Versioning
/// of traceparent").
pub fn traceparents()
    ensures sampled { traceparent (codes "00-4bf92f3577b34da6a3ce929d0e0e4736-00f067aa0ba902b7-01")
        ≡ Some (record {
          trace = 0x4b ∷ 0xf9 ∷ 0x2f ∷ 0x35 ∷ 0x77 ∷ 0xb3 ∷ 0x4d ∷ 0xa6 ∷ 0xa3 ∷ 0xce ∷ 0x92
              ∷ 0x9d ∷ 0x0e ∷ 0x0e ∷ 0x47 ∷ 0x36 ∷ [];
          span = 0x00 ∷ 0xf0 ∷ 0x67 ∷ 0xaa ∷ 0x0b ∷ 0xa9 ∷ 0x02 ∷ 0xb7 ∷ [];
          flags = 1;
          remote = true;
          state = [];
        }) }
    ensures written { traceparent_text (record {
      trace = 0x4b ∷ 0xf9 ∷ 0x2f ∷ 0x35 ∷ 0x77 ∷ 0xb3 ∷ 0x4d ∷ 0xa6 ∷ 0xa3 ∷ 0xce ∷ 0x92
          ∷ 0x9d ∷ 0x0e ∷ 0x0e ∷ 0x47 ∷ 0x36 ∷ [];
      span = 0x00 ∷ 0xf0 ∷ 0x67 ∷ 0xaa ∷ 0x0b ∷ 0xa9 ∷ 0x02 ∷ 0xb7 ∷ [];
      flags = 254;
      remote = false;
      state = codes "a=1";
    }) ≡ codes "00-4bf92f3577b34da6a3ce929d0e0e4736-00f067aa0ba902b7-02" }
    ensures short { traceparent (codes "00-4bf92f3577b34da6a3ce929d0e0e4736-00f067aa0ba902b7-0")
        ≡ None }
    ensures long { traceparent (codes "00-4bf92f3577b34da6a3ce929d0e0e4736-00f067aa0ba902b7-01-")
        ≡ None }
    ensures no_version { traceparent
        (codes "ff-4bf92f3577b34da6a3ce929d0e0e4736-00f067aa0ba902b7-01") ≡ None }
    ensures capital { traceparent
        (codes "00-4Bf92f3577b34da6a3ce929d0e0e4736-00f067aa0ba902b7-01") ≡ None }
    ensures no_trace { traceparent
        (codes "00-00000000000000000000000000000000-00f067aa0ba902b7-01") ≡ None }
    ensures no_span { traceparent
        (codes "00-4bf92f3577b34da6a3ce929d0e0e4736-0000000000000000-01") ≡ None }
    ensures no_dash { traceparent
        (codes "cc-4bf92f3577b34da6a3ce929d0e0e4736-00f067aa0ba902b7-01.more") ≡ None }
{}

/// Flags that are kept: sampled (01) and random (02), and no others (W3C Trace Context level 2,
/// "trace-flags").
pub fn flags()
    ensures none { kept_flags 0 ≡ 0 }
    ensures sampled { kept_flags 1 ≡ 1 }
    ensures random { kept_flags 2 ≡ 2 }
    ensures both { kept_flags 3 ≡ 3 }
    ensures other { kept_flags 4 ≡ 0 }
    ensures others { kept_flags 0xfc ≡ 0 }
    ensures all { kept_flags 0xff ≡ 3 }
    ensures text { flags_text 0xff ≡ codes "03" }
    ensures no_others { flags_text 0xfd ≡ codes "01" }
{}

/// Values of `tracestate` (W3C Trace Context, "Examples of tracestate HTTP Headers").
pub fn tracestates()
    ensures one { tracestate (codes "rojo=00f067aa0ba902b7" ∷ []) ≡ codes "rojo=00f067aa0ba902b7" }
    ensures two { tracestate (codes "rojo=1 , " ∷ codes "congo=t61rcWkgMzE" ∷ [])
        ≡ codes "rojo=1,congo=t61rcWkgMzE" }
    ensures tenant { tracestate (codes "fw529a3039@dt=FfffFR$1" ∷ [])
        ≡ codes "fw529a3039@dt=FfffFR$1" }
    ensures twice { tracestate (codes "a=1,b=2,a=3" ∷ []) ≡ [] }
    ensures capital { tracestate (codes "A=1" ∷ []) ≡ [] }
    ensures no_value { tracestate (codes "a=1,b=" ∷ []) ≡ [] }
    ensures equals { tracestate (codes "a=1=2" ∷ []) ≡ [] }
{}

/// Keys of members of `tracestate`: 1 to 256 bytes, the first a letter in lower case or a digit, the
/// others these, `_`, `-`, `*`, `/` or `@` (W3C Trace Context level 2, "key").
pub fn keys()
    ensures letter { is_key (codes "a") ≡ true }
    ensures digit { is_key (codes "0foo") ≡ true }
    ensures all { is_key (codes "az09_-*/@") ≡ true }
    ensures two_signs { is_key (codes "foo@bar@baz") ≡ true }
    ensures sign_last { is_key (codes "foo@") ≡ true }
    ensures system_of_15 { is_key (codes "t@vvvvvvvvvvvvvvv") ≡ true }
    ensures most { is_key key_of_256 ≡ true }
    ensures too_long { is_key (key_of_256 ++ codes "f") ≡ false }
    ensures empty { is_key [] ≡ false }
    ensures sign_first { is_key (codes "@foo") ≡ false }
    ensures underscore_first { is_key (codes "_foo") ≡ false }
    ensures capital_first { is_key (codes "Foo") ≡ false }
    ensures capital { is_key (codes "fOo") ≡ false }
    ensures dot { is_key (codes "foo.bar") ≡ false }
    ensures space { is_key (codes "foo ") ≡ false }
{}
