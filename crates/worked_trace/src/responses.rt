//! Responses to export requests (opentelemetry-proto, trace_service.proto; OTLP, "Partial
//! Success").

ghost use Rattle.std.specs.Prelude.{◌≡◌, [], pos, negsuc};
ghost use Rattle.model_message.specs.Reading.{done};
ghost use Rattle.worked_trace.specs.Hex.{hex};
ghost use Rattle.worked_trace.specs.Expected.{response_of};
ghost use Rattle.worked_trace.specs.Read.{read_response};
ghost use Rattle.worked_trace.specs.Written.{response_bytes};

/// What the bodies of responses mean.
#[tactic(auto, unfolding(crate::specs::Hex::hex, crate::specs::Read::read_response))]
pub fn read_bodies()
    // Two spans were rejected, and the message is x.
    ensures two_rejected { read_response (hex "0a 05 08 02 12 01 78") ≡
        done (response_of (pos 2) "x") }
    ensures message_alone { read_response (hex "0a 03 12 01 78") ≡ done (response_of (pos 0) "x") }
    // A count of -1.
    ensures minus_one { read_response (hex "0a 0b 08 ff ff ff ff ff ff ff ff ff 01") ≡
        done (response_of (negsuc 0) "") }
    // No spans were rejected.
    ensures empty { read_response [] ≡ done (response_of (pos 0) "") }
{}

/// How responses are written.
#[tactic(auto, unfolding(crate::specs::Hex::hex, crate::specs::Written::response_bytes))]
pub fn written_bodies()
    ensures two_rejected { response_bytes (response_of (pos 2) "x") ≡ hex "0a 05 08 02 12 01 78" }
    ensures empty { response_bytes (response_of (pos 0) "") ≡ [] }
{}
