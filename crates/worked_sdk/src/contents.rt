//! What the bodies of requests mean as bytes (RFC 9110, section 8.4; RFC 1952; opentelemetry-proto,
//! "JSON Protobuf Encoding").

ghost use Rattle.std.specs.Prelude.{◌≡◌, [], ◌∷◌, codes, false, true, Ok};
ghost use Rattle.model_deflate.specs.Bits.{not_gzip, too_long, truncated};
ghost use Rattle.model_deflate.specs.Gzip.{gunzip};
ghost use Rattle.otlp_receiver.specs.declared.reply.denial.Denial.TheVariants as denials;
ghost use Rattle.otlp_json.specs.Posted.{posted_bytes};
ghost use Rattle.otlp_json.specs.declared.fault.JsonFault.TheVariants as json_faults;
ghost use Rattle.otlp_receiver.specs.Contents.{coding, content_of, denial_by_fault, is_json_post};
ghost use Rattle.otlp_receiver.specs.Contents.{json, of_text, typed};
ghost use Rattle.worked_sdk.specs.Contents.{coded, of_type};

/// Bodies in no coding, whatever the limit, and in gzip. What a gzip file means is in the worked
/// examples of `model_deflate`.
pub fn contents()
    ensures plain { content_of 1 (coded [] (codes "abc")) ≡ Ok (codes "abc") }
    ensures identity { content_of 9 (coded (codes "identity" ∷ []) (codes "abc"))
        ≡ Ok (codes "abc") }
    ensures gzip { content_of 2 (coded (codes "gzip" ∷ []) (codes "abc"))
        ≡ typed false (gunzip 2 (codes "abc")) }
    ensures any_case { content_of 2 (coded (codes "GZip" ∷ []) (codes "abc"))
        ≡ typed false (gunzip 2 (codes "abc")) }
{}

/// Bodies of JSON. What a text means is in the worked examples of `otlp_json`.
pub fn texts()
    ensures json { content_of 9 (of_type (codes "application/json") (codes "{}"))
        ≡ of_text (posted_bytes (codes "{}")) }
    ensures parameters { is_json_post (of_type (codes "Application/JSON; charset=utf-8") [])
        ≡ true }
    ensures longer { is_json_post (of_type (codes "application/jsonl") []) ≡ false }
    ensures protobuf { is_json_post (of_type (codes "application/x-protobuf") []) ≡ false }
{}

/// Why requests are refused whose bodies mean nothing.
pub fn denials()
    ensures long { denial_by_fault (coding too_long) ≡ denials.BodyTooLarge }
    ensures no_file { denial_by_fault (coding not_gzip) ≡ denials.BadCoding }
    ensures cut { denial_by_fault (coding truncated) ≡ denials.BadCoding }
    ensures no_text { denial_by_fault (json json_faults.Malformed) ≡ denials.BadBody }
{}
