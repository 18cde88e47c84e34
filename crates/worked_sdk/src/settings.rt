//! Names and values of variables, with what they set.

ghost use Rattle.std.specs.Prelude.{◌≡◌, ◌^◌, ◌-◌, [], ◌∷◌, Some, None, codes, true, false};
ghost use Rattle.otel_settings.specs.declared.variable.Variable.TheVariants as variables;
ghost use Rattle.otel_settings.specs.declared.fault.Instead.TheVariants as instead;
ghost use Rattle.otel_settings.specs.declared.sampler.SamplerName.TheVariants as names;
ghost use Rattle.otel_settings.specs.Pairs.{text_set};
ghost use Rattle.otel_settings.specs.Readings.{boolean, number_in};
ghost use Rattle.otel_settings.specs.Resources.{resource_faults, resource_of};
ghost use Rattle.model_span.specs.Attributes.{text};
ghost use Rattle.otel_settings.specs.Samplers.{ratio, sampler, sampler_faults, sampler_of};
ghost use Rattle.otel_settings.specs.Endpoints.{endpoint};
ghost use Rattle.otel_settings.specs.Methods.{method_list};
ghost use Rattle.otel_settings.specs.Unsupported.{form_faults, selection_faults};
ghost use Rattle.otel_settings.specs.Unsupported.{tls_faults};
ghost use Rattle.otel_settings.specs.Settings.{desk_of, desk_faults};
ghost use Rattle.worked_sdk.specs.Collectors.{place};

/// A variable is set to the value of its last pair, unless that is empty.
#[tactic(auto, unfolding(otel_settings::specs::Pairs::text_set, otel_settings::specs::Pairs::last_of, otel_settings::specs::Variables::name_of))]
pub fn equal_names()
    ensures last { text_set variables.ServiceName (
        (codes "OTEL_SERVICE_NAME", codes "a") ∷ (codes "OTEL_SERVICE_NAME", codes "b") ∷ [])
        ≡ Some (codes "b") }
    ensures empty { text_set variables.ServiceName (
        (codes "OTEL_SERVICE_NAME", codes "a") ∷ (codes "OTEL_SERVICE_NAME", []) ∷ []) ≡ None }
    ensures other { text_set variables.ServiceName (
        (codes "OTEL_SERVICE_NAME", codes "a") ∷ (codes "OTEL_SERVICE_NAMES", codes "b") ∷ [])
        ≡ Some (codes "a") }
    ensures unset { text_set variables.ServiceName [] ≡ None }
{}

/// Truth values: `true` and `false` in letters of either case.
#[tactic(auto, unfolding(otel_settings::specs::Readings::boolean))]
pub fn booleans()
    ensures lower { boolean (codes "true") ≡ Some true }
    ensures either_case { boolean (codes "TrUe") ≡ Some true }
    ensures not_true { boolean (codes "False") ≡ Some false }
    ensures digit { boolean (codes "1") ≡ None }
    ensures other { boolean (codes "yes") ≡ None }
{}

/// Numbers: decimal digits alone, within bounds.
#[tactic(auto, unfolding(otel_settings::specs::Readings::number_in, text_words::specs::Words::number_below))]
pub fn numbers()
    ensures most { number_in 1 65536 (codes "65536") ≡ Some 65536 }
    ensures above { number_in 1 65536 (codes "65537") ≡ None }
    ensures below { number_in 1 65536 (codes "0") ≡ None }
    ensures zeros { number_in 0 9 (codes "007") ≡ Some 7 }
    ensures plus { number_in 0 9 (codes "+5") ≡ None }
    ensures minus { number_in 0 9 (codes "-5") ≡ None }
    ensures unit { number_in 0 9 (codes "5s") ≡ None }
    ensures space { number_in 0 9 (codes " 5") ≡ None }
    ensures greatest { number_in 0 (2 ^ 32 - 1) (codes "4294967295") ≡ Some 4294967295 }
    ensures too_great { number_in 0 (2 ^ 32 - 1) (codes "4294967296") ≡ None }
{}

/// Names of samplers.
#[tactic(auto, unfolding(otel_settings::specs::Samplers::sampler))]
pub fn sampler_names()
    ensures usual { sampler (codes "parentbased_traceidratio")
        ≡ Some names.ParentBasedTraceIdRatio }
    ensures either_case { sampler (codes "Always_OFF") ≡ Some names.AlwaysOff }
    ensures unknown { sampler (codes "jaeger_remote") ≡ None }
{}

/// Ratios: the standard's example, its ends, and some that can't be read; each as its threshold.
#[tactic(auto, unfolding(otel_settings::specs::Samplers::ratio))]
pub fn ratios()
    ensures quarter { ratio (codes "0.25") ≡ Some 0xc0000000000000 }
    ensures one { ratio (codes "1.0") ≡ Some 0 }
    ensures zero { ratio (codes "0") ≡ Some 0x100000000000000 }
    ensures above { ratio (codes "1.01") ≡ None }
    ensures minus { ratio (codes "-0.25") ≡ None }
    ensures percent { ratio (codes "25%") ≡ None }
    ensures exponent { ratio (codes "1e-1") ≡ Some 0xe6666666666667 }
    ensures exponent_without_digits { ratio (codes "1e-") ≡ None }
{}

/// A sampler and its argument. One that takes no ratio ignores the argument, a bad one too; and
/// where a ratio is missing or bad, it is 1.0, whose threshold is 0.
#[tactic(auto, unfolding(otel_settings::specs::Samplers::sampler, otel_settings::specs::Samplers::takes_ratio, otel_settings::specs::Samplers::ratio, otel_settings::specs::Samplers::ratio_of, otel_settings::specs::Samplers::ratio_faults, otel_settings::specs::Pairs::text_set, otel_settings::specs::Pairs::last_of, otel_settings::specs::Variables::name_of))]
pub fn samplers_with_arguments()
    ensures unset { sampler_of [] ≡ record { name = names.ParentBasedAlwaysOn; ratio = 0 } }
    ensures quarter { sampler_of (
        (codes "OTEL_TRACES_SAMPLER", codes "traceidratio")
        ∷ (codes "OTEL_TRACES_SAMPLER_ARG", codes "0.25") ∷ [])
        ≡ record { name = names.TraceIdRatio; ratio = 0xc0000000000000 } }
    ensures no_argument { sampler_of (
        (codes "OTEL_TRACES_SAMPLER", codes "parentbased_traceidratio") ∷ [])
        ≡ record { name = names.ParentBasedTraceIdRatio; ratio = 0 } }
    ensures bad_argument { sampler_of (
        (codes "OTEL_TRACES_SAMPLER", codes "traceidratio")
        ∷ (codes "OTEL_TRACES_SAMPLER_ARG", codes "25%") ∷ [])
        ≡ record { name = names.TraceIdRatio; ratio = 0 } }
    ensures fault { sampler_faults [] (
        (codes "OTEL_TRACES_SAMPLER", codes "traceidratio")
        ∷ (codes "OTEL_TRACES_SAMPLER_ARG", codes "25%") ∷ [])
        ≡ record {
          variable = variables.TracesSamplerArg;
          text = codes "25%";
          instead = instead.RatioOne;
          cause = None;
        } ∷ [] }
    ensures ignored { sampler_faults [] (
        (codes "OTEL_TRACES_SAMPLER", codes "always_off")
        ∷ (codes "OTEL_TRACES_SAMPLER_ARG", codes "25%") ∷ []) ≡ [] }
{}

/// Resources: the last of equal keys counts, the name of the service wins, and a text that can't be
/// read has no attributes.
pub fn resources()
    ensures name_wins { resource_of (
        (codes "OTEL_SERVICE_NAME", codes "b")
        ∷ (codes "OTEL_RESOURCE_ATTRIBUTES", codes "service.name=a,k=v,k=w") ∷ [])
        ≡ record { key = codes "service.name"; value = text (codes "b") }
        ∷ record { key = codes "k"; value = text (codes "w") } ∷ [] }
    ensures bad { resource_of (
        (codes "OTEL_SERVICE_NAME", codes "b")
        ∷ (codes "OTEL_RESOURCE_ATTRIBUTES", codes "k=v,k") ∷ [])
        ≡ record { key = codes "service.name"; value = text (codes "b") } ∷ [] }
    ensures fault { resource_faults [] (
        (codes "OTEL_RESOURCE_ATTRIBUTES", codes "k=v,k") ∷ [])
        ≡ record {
          variable = variables.ResourceAttributes;
          text = codes "k=v,k";
          instead = instead.NoAttributes;
          cause = None;
        } ∷ [] }
{}

/// Lists of methods: blanks and empty members don't count, and each other member is a token.
#[tactic(auto, unfolding(otel_settings::specs::Methods::method_list, otel_settings::specs::Methods::is_method_or_nothing, httparse::specs::Grammar::trim_ows, httparse::specs::Grammar::is_token_byte))]
pub fn method_lists()
    ensures two { method_list (codes "GET,QUERY") ≡ Some (codes "GET,QUERY") }
    ensures blanks { method_list (codes " GET ,,") ≡ Some (codes " GET ,,") }
    ensures two_words { method_list (codes "GET POST") ≡ None }
    ensures not_text { method_list (0xef ∷ 0xbf ∷ 0xbd ∷ []) ≡ None }
{}

/// URLs of collectors: the standard's examples, and some that can't be read.
#[tactic(auto, unfolding(otel_settings::specs::Endpoints::endpoint, otel_settings::specs::Endpoints::after_scheme, otel_settings::specs::Endpoints::after_text, otel_settings::specs::Endpoints::host_of, otel_settings::specs::Endpoints::port_in, otel_settings::specs::Endpoints::target_path, otel_settings::specs::Endpoints::traces_path, otel_settings::specs::Endpoints::allowed, otel_settings::specs::Readings::number_in, text_words::specs::Words::number_below))]
pub fn endpoints()
    ensures base { endpoint true (codes "http://collector:4318") ≡ Some
        (place (codes "collector") 4318 (codes "/v1/traces")) }
    ensures base_with_path { endpoint true (codes "http://collector:4318/mycollector/") ≡ Some
        (place (codes "collector") 4318 (codes "/mycollector/v1/traces")) }
    ensures base_without_slash { endpoint true (codes "http://collector:4318/mycollector") ≡ Some
        (place (codes "collector") 4318 (codes "/mycollector/v1/traces")) }
    ensures of_traces { endpoint false (codes "http://collector:4318/t") ≡ Some
        (place (codes "collector") 4318 (codes "/t")) }
    ensures root { endpoint false (codes "http://collector") ≡ Some
        (place (codes "collector") 80 (codes "/")) }
    ensures other_scheme { endpoint true (codes "https://collector:4318") ≡ None }
    ensures no_scheme { endpoint true (codes "collector:4318") ≡ None }
    ensures no_host { endpoint true (codes "http://:4318") ≡ None }
    ensures large_port { endpoint true (codes "http://collector:65536") ≡ None }
    ensures user { endpoint false (codes "http://me@collector/t") ≡ None }
{}

/// The parts of URLs: schemes in capitals, names of containers, addresses of IPv6, and queries.
#[tactic(auto, unfolding(otel_settings::specs::Endpoints::endpoint, otel_settings::specs::Endpoints::after_scheme, otel_settings::specs::Endpoints::after_text, otel_settings::specs::Endpoints::host_of, otel_settings::specs::Endpoints::port_in, otel_settings::specs::Endpoints::target_path, otel_settings::specs::Endpoints::traces_path, otel_settings::specs::Endpoints::allowed, otel_settings::specs::Readings::number_in, text_words::specs::Words::number_below))]
pub fn parts_of_endpoints()
    ensures capitals { endpoint false (codes "HTTP://my_collector/") ≡ Some
        (place (codes "my_collector") 80 (codes "/")) }
    ensures loopback { endpoint true (codes "http://[::1]:4318") ≡ Some
        (place (codes "[::1]") 4318 (codes "/v1/traces")) }
    ensures no_port { endpoint false (codes "http://[fe80::1]/t") ≡ Some
        (place (codes "[fe80::1]") 80 (codes "/t")) }
    ensures query { endpoint false (codes "http://collector/t?a=b/c:d") ≡ Some
        (place (codes "collector") 80 (codes "/t?a=b/c:d")) }
    ensures base_with_query { endpoint true (codes "http://collector?a=b") ≡ Some
        (place (codes "collector") 80 (codes "/v1/traces?a=b")) }
    ensures empty_query { endpoint false (codes "http://collector/t?") ≡ Some
        (place (codes "collector") 80 (codes "/t")) }
    ensures open_bracket { endpoint false (codes "http://[::1") ≡ None }
    ensures no_bracket { endpoint false (codes "http://::1") ≡ None }
    ensures after_bracket { endpoint false (codes "http://[::1]4318") ≡ None }
    ensures fragment { endpoint false (codes "http://collector/t#a") ≡ None }
    ensures fragment_of_query { endpoint false (codes "http://collector/t?a#b") ≡ None }
    ensures one_slash { endpoint false (codes "http:/collector") ≡ None }
    ensures tls { endpoint false (codes "HTTPS://collector") ≡ None }
{}

/// Variables that ask for what there isn't: each other value is a fault.
#[tactic(auto, unfolding(otel_settings::specs::Unsupported::other_faults, otel_settings::specs::Unsupported::selection_faults, otel_settings::specs::Unsupported::form_faults, otel_settings::specs::Unsupported::tls_faults, otel_settings::specs::Pairs::text_set, otel_settings::specs::Pairs::last_of, otel_settings::specs::Variables::name_of))]
pub fn unsupported()
    ensures unset { form_faults [] [] ≡ [] }
    ensures only { form_faults []
        ((codes "OTEL_EXPORTER_OTLP_PROTOCOL", codes "HTTP/Protobuf") ∷ []) ≡ [] }
    ensures other { form_faults []
        ((codes "OTEL_EXPORTER_OTLP_PROTOCOL", codes "grpc") ∷ [])
        ≡ record {
          variable = variables.OtlpProtocol;
          text = codes "grpc";
          instead = instead.HttpProtobuf;
          cause = None;
        } ∷ [] }
    ensures propagators { selection_faults []
        ((codes "OTEL_PROPAGATORS", codes "tracecontext,baggage") ∷ [])
        ≡ record {
          variable = variables.Propagators;
          text = codes "tracecontext,baggage";
          instead = instead.TraceContext;
          cause = None;
        } ∷ [] }
    ensures certificate { tls_faults []
        ((codes "OTEL_EXPORTER_OTLP_CERTIFICATE", codes "a.pem") ∷ [])
        ≡ record {
          variable = variables.OtlpCertificate;
          text = codes "a.pem";
          instead = instead.PlainHttp;
          cause = None;
        } ∷ [] }
{}

/// The queue's settings: a queue above 65,536 is a fault, and a batch is never above the queue.
#[tactic(auto, unfolding(otel_settings::specs::Settings::desk_of, otel_settings::specs::Settings::desk_faults, otel_settings::specs::Pairs::text_set, otel_settings::specs::Pairs::last_of, otel_settings::specs::Variables::name_of, otel_settings::specs::Readings::number_in, text_words::specs::Words::number_below))]
pub fn queues()
    ensures unset { desk_of [] ≡ record { queue = 2048; batch = 512; delay_ms = 5000 } }
    ensures small_queue { desk_of ((codes "OTEL_BSP_MAX_QUEUE_SIZE", codes "100") ∷ [])
        ≡ record { queue = 100; batch = 100; delay_ms = 5000 } }
    ensures large_queue { desk_faults []
        ((codes "OTEL_BSP_MAX_QUEUE_SIZE", codes "65537") ∷ [])
        ≡ record {
          variable = variables.BspMaxQueueSize;
          text = codes "65537";
          instead = instead.Number 2048;
          cause = None;
        } ∷ [] }
    ensures large_batch { desk_faults [] (
        (codes "OTEL_BSP_MAX_QUEUE_SIZE", codes "100")
        ∷ (codes "OTEL_BSP_MAX_EXPORT_BATCH_SIZE", codes "101") ∷ [])
        ≡ record {
          variable = variables.BspMaxExportBatchSize;
          text = codes "101";
          instead = instead.Number 100;
          cause = None;
        } ∷ [] }
{}
