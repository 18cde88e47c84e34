//! Fields of a program's own: which are taken, and which ones variables set.

ghost use Rattle.std.specs.Prelude.{◌≡◌, [], ◌∷◌, Some, None, codes};
ghost use Rattle.otlp_http.specs.Fields.{refusal};
ghost use Rattle.otlp_http.specs.declared.headers.HeaderFault.TheVariants as faults;
ghost use Rattle.otel_settings.specs.Headers.{header_faults, headers_of};
ghost use Rattle.otel_settings.specs.declared.variable.Variable.TheVariants as variables;
ghost use Rattle.otel_settings.specs.declared.fault.Instead.TheVariants as instead;

/// Names: tokens, each once, in letters of either case (RFC 9110, sections 5.1, 5.3 and 5.6.2).
#[tactic(auto, unfolding(otlp_http::specs::Fields::refusal, httparse::specs::Grammar::is_token_byte))]
pub fn names()
    ensures token { refusal [] (codes "X-api_key.1", codes "a") ≡ None }
    ensures none { refusal [] ([], codes "a") ≡ Some faults.BadName }
    ensures blank { refusal [] (codes "a b", codes "c") ≡ Some faults.BadName }
    ensures colon { refusal [] (codes "a:", codes "b") ≡ Some faults.BadName }
    ensures end_of_line { refusal [] (codes "a\r\nb", codes "c") ≡ Some faults.BadName }
    ensures second { refusal ((codes "a", codes "b") ∷ []) (codes "c", codes "d") ≡ None }
    ensures twice { refusal ((codes "X-Key", codes "a") ∷ []) (codes "x-kEY", codes "b")
        ≡ Some faults.Repeated }
{}

/// Names of the kit's own fields, and of those that say how a message is sent, in letters of either
/// case.
#[tactic(auto, unfolding(otlp_http::specs::Fields::refusal, httparse::specs::Grammar::is_token_byte))]
pub fn reserved()
    ensures host { refusal [] (codes "hOST", codes "a") ≡ Some faults.ReservedName }
    ensures of_type { refusal [] (codes "Content-Type", codes "a") ≡ Some faults.ReservedName }
    ensures size { refusal [] (codes "CONTENT-LENGTH", codes "0") ≡ Some faults.ReservedName }
    ensures connection { refusal [] (codes "Connection", codes "a") ≡ Some faults.ReservedName }
    ensures chunks { refusal [] (codes "transfer-encoding", codes "chunked")
        ≡ Some faults.ReservedName }
    ensures coding { refusal [] (codes "Content-Encoding", codes "gzip")
        ≡ Some faults.ReservedName }
    ensures expected { refusal [] (codes "Expect", codes "100-continue")
        ≡ Some faults.ReservedName }
    ensures upgrade { refusal [] (codes "Upgrade", codes "h2c") ≡ Some faults.ReservedName }
    ensures te { refusal [] (codes "TE", codes "trailers") ≡ Some faults.ReservedName }
    ensures trailer { refusal [] (codes "Trailer", codes "a") ≡ Some faults.ReservedName }
    ensures kept { refusal [] (codes "Keep-Alive", codes "a") ≡ Some faults.ReservedName }
    ensures proxy { refusal [] (codes "Proxy-Connection", codes "a") ≡ Some faults.ReservedName }
    ensures longer { refusal [] (codes "hosts", codes "a") ≡ None }
    ensures shorter { refusal [] (codes "hos", codes "a") ≡ None }
{}

/// Values: nothing, or visible ASCII with spaces and tabs between (RFC 9110, section 5.5).
#[tactic(auto, unfolding(otlp_http::specs::Fields::refusal, httparse::specs::Grammar::is_token_byte))]
pub fn values()
    ensures blanks { refusal [] (codes "a", codes "Basic \tb=~!") ≡ None }
    ensures nothing { refusal [] (codes "a", []) ≡ None }
    ensures end_of_line { refusal [] (codes "a", codes "b\r\nHost: c") ≡ Some faults.BadValue }
    ensures line_feed { refusal [] (codes "a", codes "b\nc") ≡ Some faults.BadValue }
    ensures nul { refusal [] (codes "a", 98 ∷ 0 ∷ 99 ∷ []) ≡ Some faults.BadValue }
    ensures delete { refusal [] (codes "a", 127 ∷ []) ≡ Some faults.BadValue }
    ensures not_ascii { refusal [] (codes "a", 195 ∷ 169 ∷ []) ≡ Some faults.BadValue }
    ensures blank_first { refusal [] (codes "a", codes " b") ≡ Some faults.BadValue }
    ensures blank_last { refusal [] (codes "a", codes "b\t") ≡ Some faults.BadValue }
{}

/// What variables set: pairs as in W3C Baggage; those of traces win as a whole, and where one field
/// isn't taken, there are none.
pub fn variables_of_headers()
    ensures unset { headers_of [] ≡ [] }
    ensures two { headers_of (
        (codes "OTEL_EXPORTER_OTLP_HEADERS", codes "api-key=s3cret, X-Scope = a%20b%3D") ∷ [])
        ≡ (codes "api-key", codes "s3cret") ∷ (codes "X-Scope", codes "a b=") ∷ [] }
    ensures traces_win { headers_of (
        (codes "OTEL_EXPORTER_OTLP_TRACES_HEADERS", codes "a=b")
        ∷ (codes "OTEL_EXPORTER_OTLP_HEADERS", codes "c=d") ∷ [])
        ≡ (codes "a", codes "b") ∷ [] }
    ensures bad_traces { headers_of (
        (codes "OTEL_EXPORTER_OTLP_TRACES_HEADERS", codes "a")
        ∷ (codes "OTEL_EXPORTER_OTLP_HEADERS", codes "c=d") ∷ []) ≡ [] }
    ensures one_bad { headers_of (
        (codes "OTEL_EXPORTER_OTLP_HEADERS", codes "a=b,Host=c") ∷ []) ≡ [] }
{}

/// Faults of headers, which say a name at most.
pub fn faults_of_headers()
    ensures good { header_faults [] (
        (codes "OTEL_EXPORTER_OTLP_HEADERS", codes "api-key=s3cret") ∷ []) ≡ [] }
    ensures no_pairs { header_faults [] (
        (codes "OTEL_EXPORTER_OTLP_HEADERS", codes "s3cret") ∷ [])
        ≡ record {
          variable = variables.OtlpHeaders;
          text = [];
          instead = instead.NoHeaders;
          cause = None;
        } ∷ [] }
    ensures reserved { header_faults [] (
        (codes "OTEL_EXPORTER_OTLP_TRACES_HEADERS", codes "a=b,Host=s3cret,a=c") ∷ [])
        ≡ record {
          variable = variables.OtlpTracesHeaders;
          text = codes "Host";
          instead = instead.NoHeaders;
          cause = Some faults.ReservedName;
        } ∷ [] }
    ensures end_of_line { header_faults [] (
        (codes "OTEL_EXPORTER_OTLP_HEADERS", codes "a=b%0d%0aHost: c") ∷ [])
        ≡ record {
          variable = variables.OtlpHeaders;
          text = [];
          instead = instead.NoHeaders;
          cause = None;
        } ∷ [] }
    ensures decoded { header_faults [] (
        (codes "OTEL_EXPORTER_OTLP_HEADERS", codes "a=b%0d%0aHost:c") ∷ [])
        ≡ record {
          variable = variables.OtlpHeaders;
          text = codes "a";
          instead = instead.NoHeaders;
          cause = Some faults.BadValue;
        } ∷ [] }
{}
