//! The variables that are read.

ghost use Rattle.std.specs.Prelude.{◌≡◌};
ghost use Rattle.otel_settings.specs.Variables.{name_of};

use std::fmt;

/// A variable of the environment that a setting comes from (OpenTelemetry Specification,
/// "Environment Variable Specification"; OTLP Specification, "OTLP Exporter Configuration"; Semantic
/// Conventions, "HTTP spans"). Faults are listed in this order.
#[derive(Debug, Clone, Copy, PartialEq, Eq)]
pub enum Variable {
    /// `OTEL_SDK_DISABLED`: whether tracing is off.
    SdkDisabled,
    /// `OTEL_RESOURCE_ATTRIBUTES`: what makes the spans, as pairs of a key and a value.
    ResourceAttributes,
    /// `OTEL_SERVICE_NAME`: the name of the service, which wins over `service.name` among those.
    ServiceName,
    /// `OTEL_TRACES_SAMPLER`: which sampler is used.
    TracesSampler,
    /// `OTEL_TRACES_SAMPLER_ARG`: the ratio of a sampler that takes one.
    TracesSamplerArg,
    /// `OTEL_BSP_SCHEDULE_DELAY`: how long spans wait for a batch to fill, in milliseconds.
    BspScheduleDelay,
    /// `OTEL_BSP_MAX_QUEUE_SIZE`: how many spans wait at most.
    BspMaxQueueSize,
    /// `OTEL_BSP_MAX_EXPORT_BATCH_SIZE`: how many spans a batch has at most.
    BspMaxExportBatchSize,
    /// `OTEL_BSP_EXPORT_TIMEOUT`: how long the export of a batch may take, in milliseconds.
    BspExportTimeout,
    /// `OTEL_ATTRIBUTE_VALUE_LENGTH_LIMIT`: how many characters a text has at most.
    AttributeValueLengthLimit,
    /// `OTEL_ATTRIBUTE_COUNT_LIMIT`: how many attributes there are at most.
    AttributeCountLimit,
    /// `OTEL_SPAN_ATTRIBUTE_VALUE_LENGTH_LIMIT`: how many characters a text of a span has at most.
    SpanAttributeValueLengthLimit,
    /// `OTEL_SPAN_ATTRIBUTE_COUNT_LIMIT`: how many attributes a span has at most.
    SpanAttributeCountLimit,
    /// `OTEL_SPAN_EVENT_COUNT_LIMIT`: how many events a span has at most.
    SpanEventCountLimit,
    /// `OTEL_SPAN_LINK_COUNT_LIMIT`: how many links a span has at most.
    SpanLinkCountLimit,
    /// `OTEL_EVENT_ATTRIBUTE_COUNT_LIMIT`: how many attributes an event has at most.
    EventAttributeCountLimit,
    /// `OTEL_LINK_ATTRIBUTE_COUNT_LIMIT`: how many attributes a link has at most.
    LinkAttributeCountLimit,
    /// `OTEL_EXPORTER_OTLP_ENDPOINT`: the URL of a collector.
    OtlpEndpoint,
    /// `OTEL_EXPORTER_OTLP_TRACES_ENDPOINT`: the URL at which a collector takes spans.
    OtlpTracesEndpoint,
    /// `OTEL_EXPORTER_OTLP_TIMEOUT`: how long a request to the collector may take, in milliseconds.
    OtlpTimeout,
    /// `OTEL_EXPORTER_OTLP_TRACES_TIMEOUT`: how long a request with spans may take, in
    /// milliseconds.
    OtlpTracesTimeout,
    /// `OTEL_TRACES_EXPORTER`: which exporter is used; there is `otlp` alone.
    TracesExporter,
    /// `OTEL_PROPAGATORS`: which fields carry a context; there is `tracecontext` alone.
    Propagators,
    /// `OTEL_EXPORTER_OTLP_PROTOCOL`: how requests are written; there is `http/protobuf` alone.
    OtlpProtocol,
    /// `OTEL_EXPORTER_OTLP_TRACES_PROTOCOL`: the same for spans.
    OtlpTracesProtocol,
    /// `OTEL_EXPORTER_OTLP_COMPRESSION`: how bodies are compressed: `gzip` or `none`.
    OtlpCompression,
    /// `OTEL_EXPORTER_OTLP_TRACES_COMPRESSION`: the same for spans.
    OtlpTracesCompression,
    /// `OTEL_EXPORTER_OTLP_CERTIFICATE`: whom TLS trusts; there is no TLS.
    OtlpCertificate,
    /// `OTEL_EXPORTER_OTLP_TRACES_CERTIFICATE`: the same for spans.
    OtlpTracesCertificate,
    /// `OTEL_EXPORTER_OTLP_CLIENT_KEY`: the key of the client; there is no TLS.
    OtlpClientKey,
    /// `OTEL_EXPORTER_OTLP_TRACES_CLIENT_KEY`: the same for spans.
    OtlpTracesClientKey,
    /// `OTEL_EXPORTER_OTLP_CLIENT_CERTIFICATE`: whom the client is; there is no TLS.
    OtlpClientCertificate,
    /// `OTEL_EXPORTER_OTLP_TRACES_CLIENT_CERTIFICATE`: the same for spans.
    OtlpTracesClientCertificate,
    /// `OTEL_EXPORTER_OTLP_HEADERS`: fields of each request to the collector, beside the kit's.
    OtlpHeaders,
    /// `OTEL_EXPORTER_OTLP_TRACES_HEADERS`: those of each request with spans.
    OtlpTracesHeaders,
    /// `OTEL_INSTRUMENTATION_HTTP_KNOWN_METHODS`: the methods of HTTP that spans are named by
    /// (Semantic Conventions, "http.request.method").
    HttpKnownMethods,
}

impl Variable {
    /// All of them, in the order in which their faults are listed.
    pub const ALL: [Variable; 36] = [
        Variable::SdkDisabled,
        Variable::ResourceAttributes,
        Variable::ServiceName,
        Variable::TracesSampler,
        Variable::TracesSamplerArg,
        Variable::BspScheduleDelay,
        Variable::BspMaxQueueSize,
        Variable::BspMaxExportBatchSize,
        Variable::BspExportTimeout,
        Variable::AttributeValueLengthLimit,
        Variable::AttributeCountLimit,
        Variable::SpanAttributeValueLengthLimit,
        Variable::SpanAttributeCountLimit,
        Variable::SpanEventCountLimit,
        Variable::SpanLinkCountLimit,
        Variable::EventAttributeCountLimit,
        Variable::LinkAttributeCountLimit,
        Variable::OtlpEndpoint,
        Variable::OtlpTracesEndpoint,
        Variable::OtlpTimeout,
        Variable::OtlpTracesTimeout,
        Variable::TracesExporter,
        Variable::Propagators,
        Variable::OtlpProtocol,
        Variable::OtlpTracesProtocol,
        Variable::OtlpCompression,
        Variable::OtlpTracesCompression,
        Variable::OtlpCertificate,
        Variable::OtlpTracesCertificate,
        Variable::OtlpClientKey,
        Variable::OtlpTracesClientKey,
        Variable::OtlpClientCertificate,
        Variable::OtlpTracesClientCertificate,
        Variable::OtlpHeaders,
        Variable::OtlpTracesHeaders,
        Variable::HttpKnownMethods,
    ];

    /// What its value is, in words, as a fault says it.
    pub(crate) fn form(self) -> &'static str {
        match self {
            Variable::SdkDisabled => "true or false",
            Variable::ResourceAttributes | Variable::OtlpHeaders | Variable::OtlpTracesHeaders =>
                "key=value,key=value with other characters as %XX",
            Variable::ServiceName => "a name",
            Variable::TracesSampler => {
                "always_on, always_off or traceidratio, alone or after parentbased_"
            }
            Variable::TracesSamplerArg => "a decimal number from 0 to 1",
            Variable::BspMaxQueueSize => "a whole number from 1 to 65536",
            Variable::BspMaxExportBatchSize => "a whole number from 1 to the size of the queue",
            Variable::OtlpEndpoint | Variable::OtlpTracesEndpoint => {
                "a URL such as http://collector:4318"
            }
            Variable::TracesExporter => "otlp, the only exporter here",
            Variable::Propagators => "tracecontext, the only propagator here",
            Variable::OtlpProtocol | Variable::OtlpTracesProtocol => {
                "http/protobuf, the only protocol here"
            }
            Variable::OtlpCompression | Variable::OtlpTracesCompression => { "gzip or none" }
            Variable::HttpKnownMethods => "a list of methods such as GET,QUERY",
            _ => "a whole number from 0 to 4294967295",
        }
    }

    /// Whether it asks for what isn't there, whatever its value is.
    pub(crate) fn is_unsupported(self) -> bool {
        matches!(
            self,
            Variable::OtlpCertificate
                | Variable::OtlpTracesCertificate
                | Variable::OtlpClientKey
                | Variable::OtlpTracesClientKey
                | Variable::OtlpClientCertificate
                | Variable::OtlpTracesClientCertificate
        )
    }

    /// Whether its value may be a secret.
    pub(crate) fn is_secret(self) -> bool {
        matches!(self, Variable::OtlpHeaders | Variable::OtlpTracesHeaders)
    }

    /// The name that it has in the environment.
    #[tactic(auto, unfolding(crate::specs::Variables::name_of))]
    pub fn name(self) -> &'static str
        ensures { result.now ≡ name_of self }
    {
        match self {
            Variable::SdkDisabled => "OTEL_SDK_DISABLED",
            Variable::ResourceAttributes => "OTEL_RESOURCE_ATTRIBUTES",
            Variable::ServiceName => "OTEL_SERVICE_NAME",
            Variable::TracesSampler => "OTEL_TRACES_SAMPLER",
            Variable::TracesSamplerArg => "OTEL_TRACES_SAMPLER_ARG",
            Variable::BspScheduleDelay => "OTEL_BSP_SCHEDULE_DELAY",
            Variable::BspMaxQueueSize => "OTEL_BSP_MAX_QUEUE_SIZE",
            Variable::BspMaxExportBatchSize => "OTEL_BSP_MAX_EXPORT_BATCH_SIZE",
            Variable::BspExportTimeout => "OTEL_BSP_EXPORT_TIMEOUT",
            Variable::AttributeValueLengthLimit => "OTEL_ATTRIBUTE_VALUE_LENGTH_LIMIT",
            Variable::AttributeCountLimit => "OTEL_ATTRIBUTE_COUNT_LIMIT",
            Variable::SpanAttributeValueLengthLimit => "OTEL_SPAN_ATTRIBUTE_VALUE_LENGTH_LIMIT",
            Variable::SpanAttributeCountLimit => "OTEL_SPAN_ATTRIBUTE_COUNT_LIMIT",
            Variable::SpanEventCountLimit => "OTEL_SPAN_EVENT_COUNT_LIMIT",
            Variable::SpanLinkCountLimit => "OTEL_SPAN_LINK_COUNT_LIMIT",
            Variable::EventAttributeCountLimit => "OTEL_EVENT_ATTRIBUTE_COUNT_LIMIT",
            Variable::LinkAttributeCountLimit => "OTEL_LINK_ATTRIBUTE_COUNT_LIMIT",
            Variable::OtlpEndpoint => "OTEL_EXPORTER_OTLP_ENDPOINT",
            Variable::OtlpTracesEndpoint => "OTEL_EXPORTER_OTLP_TRACES_ENDPOINT",
            Variable::OtlpTimeout => "OTEL_EXPORTER_OTLP_TIMEOUT",
            Variable::OtlpTracesTimeout => "OTEL_EXPORTER_OTLP_TRACES_TIMEOUT",
            Variable::TracesExporter => "OTEL_TRACES_EXPORTER",
            Variable::Propagators => "OTEL_PROPAGATORS",
            Variable::OtlpProtocol => "OTEL_EXPORTER_OTLP_PROTOCOL",
            Variable::OtlpTracesProtocol => "OTEL_EXPORTER_OTLP_TRACES_PROTOCOL",
            Variable::OtlpCompression => "OTEL_EXPORTER_OTLP_COMPRESSION",
            Variable::OtlpTracesCompression => "OTEL_EXPORTER_OTLP_TRACES_COMPRESSION",
            Variable::OtlpCertificate => "OTEL_EXPORTER_OTLP_CERTIFICATE",
            Variable::OtlpTracesCertificate => "OTEL_EXPORTER_OTLP_TRACES_CERTIFICATE",
            Variable::OtlpClientKey => "OTEL_EXPORTER_OTLP_CLIENT_KEY",
            Variable::OtlpTracesClientKey => "OTEL_EXPORTER_OTLP_TRACES_CLIENT_KEY",
            Variable::OtlpClientCertificate => "OTEL_EXPORTER_OTLP_CLIENT_CERTIFICATE",
            Variable::OtlpTracesClientCertificate => "OTEL_EXPORTER_OTLP_TRACES_CLIENT_CERTIFICATE",
            Variable::OtlpHeaders => "OTEL_EXPORTER_OTLP_HEADERS",
            Variable::OtlpTracesHeaders => "OTEL_EXPORTER_OTLP_TRACES_HEADERS",
            Variable::HttpKnownMethods => "OTEL_INSTRUMENTATION_HTTP_KNOWN_METHODS",
        }
    }
}

impl fmt::Display for Variable {
    fn fmt<W: fmt::Write>(&self, f: &mut fmt::Formatter<W>) -> fmt::Result {
        f.write_str(self.name())
    }
}
