//! Worked examples of what the reading of a request takes, with values that were written out by
//! hand. The checker computes what the definition makes of each, and compares.

ghost use Rattle.std.specs.Prelude.{◌≡◌, ◌+◌, ◌*◌, ◌∷◌, []};
ghost use Rattle.worked_sdk.specs.Readings.{size_of};

/// What the reading of a request takes (opentelemetry-proto, trace_service.proto:
/// ExportTraceServiceRequest).
#[tactic(auto, unfolding(crate::specs::Readings::size_of))]
pub fn bodies()
    ensures nothing { size_of [] ≡ 0 }
    // A resource.
    ensures resource { size_of (0x0a ∷ 0x00 ∷ []) ≡ 256 }
    // A scope of a resource.
    ensures scope { size_of (0x0a ∷ 0x02 ∷ 0x12 ∷ 0x00 ∷ []) ≡ 512 }
    // Two spans without a field.
    ensures spans { size_of (
        0x0a ∷ 0x06 ∷ 0x12 ∷ 0x04 ∷ 0x12 ∷ 0x00 ∷ 0x12 ∷ 0x00 ∷ []
        ) ≡ 256 + 256 + 2 * 768 }
    // A span with a name of two bytes.
    ensures name { size_of (
        0x0a ∷ 0x08 ∷ 0x12 ∷ 0x06 ∷ 0x12 ∷ 0x04 ∷ 0x2a ∷ 0x02 ∷ 0x61 ∷ 0x62 ∷ []
        ) ≡ 256 + 256 + 768 + 2 }
    // An event of the name `e`, with a pair whose key is `k`.
    ensures event { size_of (
        0x0a ∷ 0x10 ∷ 0x12 ∷ 0x0e ∷ 0x12 ∷ 0x0c ∷ 0x5a ∷ 0x0a ∷ 0x12 ∷ 0x01 ∷ 0x65 ∷ 0x1a ∷
        0x05 ∷ 0x0a ∷ 0x01 ∷ 0x6b ∷ 0x12 ∷ 0x00 ∷ []
        ) ≡ 256 + 256 + 768 + 128 + 1 + 112 + 1 }
    // A link with a pair whose value is a list of two truth values.
    ensures link { size_of (
        0x0a ∷ 0x14 ∷ 0x12 ∷ 0x12 ∷ 0x12 ∷ 0x10 ∷ 0x6a ∷ 0x0e ∷ 0x22 ∷ 0x0c ∷ 0x12 ∷ 0x0a ∷
        0x2a ∷ 0x08 ∷ 0x0a ∷ 0x02 ∷ 0x10 ∷ 0x01 ∷ 0x0a ∷ 0x02 ∷ 0x10 ∷ 0x00 ∷ []
        ) ≡ 256 + 256 + 768 + 192 + 112 + 48 + 2 * 48 }
    // A field that is a number, and one that is unknown.
    ensures number { size_of (0x08 ∷ 0x01 ∷ 0x12 ∷ 0x02 ∷ 0x0a ∷ 0x00 ∷ []) ≡ 0 }
    // A resource, and then a length that goes past the end.
    ensures cut_off { size_of (0x0a ∷ 0x00 ∷ 0x0a ∷ 0x05 ∷ 0x12 ∷ []) ≡ 256 }
    // A group, which can't be read.
    ensures group { size_of (0x0b ∷ 0x0a ∷ 0x00 ∷ []) ≡ 0 }
{}
