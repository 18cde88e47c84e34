//! What comes back of doubles, what the last level of a value may have, and what texts with pairs
//! without a value mean, written out by hand. The checker computes what the definitions make of
//! each, and compares.

ghost use Rattle.std.specs.Prelude.{◌≡◌, [], ◌∷◌, codes, true, Ok};
ghost use Rattle.model_message.specs.AnyValue as values;
ghost use Rattle.model_message.specs.AnyValue.{AnyValue, no_pairs, no_values, pair};
ghost use Rattle.otlp_json.specs.Bodies.{body_bytes};
ghost use Rattle.law_json.specs.Back.{double_back};
ghost use Rattle.law_json.specs.Sound.{IsSoundValue};

/// Numbers and infinities come back as they are, and what is no number as one of these. (Protocol
/// Buffers, "ProtoJSON Format")
pub fn doubles()
    ensures one { double_back 0x3ff0000000000000 ≡ 0x3ff0000000000000 }
    ensures minus_zero { double_back 0x8000000000000000 ≡ 0x8000000000000000 }
    ensures infinity { double_back 0x7ff0000000000000 ≡ 0x7ff0000000000000 }
    ensures quiet { double_back 0x7ff8000000000000 ≡ 0x7ff8000000000000 }
    ensures payload { double_back 0x7ff0000000000001 ≡ 0x7ff8000000000000 }
    ensures minus { double_back 0xfff8000000000000 ≡ 0x7ff8000000000000 }
{}

/// On its last level a value may be a list of pairs without values, and no array of them: in an
/// array an empty value is one level more. (The levels: profile)
pub fn levels()
    ensures bare_pair { IsSoundValue 1 (AnyValue.pairs (pair (codes "a") AnyValue.none no_pairs)) }
    ensures full_pair { IsSoundValue 1
        (AnyValue.pairs (pair (codes "a") (AnyValue.bool true) no_pairs)) → ⊥ }
    ensures item { IsSoundValue 1 (AnyValue.array (values.value AnyValue.none no_values)) → ⊥ }
    ensures item_below { IsSoundValue 2 (AnyValue.array (values.value AnyValue.none no_values)) }
{}

/// A pair without a value means the fields of its key alone: a resource (10) whose attribute (10)
/// has the key (10) `a` (97). (opentelemetry-proto, common.proto: KeyValue)
#[tactic(auto, unfolding(otlp_json::proofs::OnLiterals::texts_on_literals, otlp_json::specs::Names::resource_member, otlp_json::specs::Names::key_value_member))]
pub fn pairs()
    ensures bare { body_bytes
        (codes "{\"resourceSpans\":[{\"resource\":{\"attributes\":[{\"key\":\"a\"}]}}]}")
        ≡ Ok (10 ∷ 7 ∷ 10 ∷ 5 ∷ 10 ∷ 3 ∷ 10 ∷ 1 ∷ 97 ∷ []) }
{}
