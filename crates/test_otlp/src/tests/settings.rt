//! Settings of lists of names and values. How most bad values are reported is in
//! `tools/export-runs`.
use crate::tests::equal::{assert_displayed, assert_equal, shown};
use otel_settings::settings_of;

/// All that can be set, with two bad values.
pub(crate) const PAIRS: [(&str, &str); 17] = [
    ("OTEL_SDK_DISABLED", "TRUE"),
    (
        "OTEL_RESOURCE_ATTRIBUTES",
        "service.name=old,host.name=a%20b",
    ),
    ("OTEL_SERVICE_NAME", "shop"),
    ("OTEL_TRACES_SAMPLER", "ParentBased_TraceIdRatio"),
    ("OTEL_TRACES_SAMPLER_ARG", "0.25"),
    ("OTEL_BSP_SCHEDULE_DELAY", "0"),
    ("OTEL_BSP_MAX_QUEUE_SIZE", "100"),
    ("OTEL_BSP_MAX_QUEUE_SIZE", "65537"),
    ("OTEL_SPAN_EVENT_COUNT_LIMIT", "7"),
    ("OTEL_ATTRIBUTE_VALUE_LENGTH_LIMIT", "9"),
    ("OTEL_EXPORTER_OTLP_ENDPOINT", "http://collector:4319/base"),
    ("OTEL_EXPORTER_OTLP_TRACES_ENDPOINT", "https://collector"),
    ("OTEL_EXPORTER_OTLP_TIMEOUT", "2500"),
    ("OTEL_EXPORTER_OTLP_TRACES_TIMEOUT", ""),
    ("OTEL_EXPORTER_OTLP_HEADERS", "api-key=a,b=c"),
    ("OTEL_INSTRUMENTATION_HTTP_KNOWN_METHODS", "GET, query,"),
    ("OTHER", "1"),
];

/// What they set: whether spans are off, and the resource; the sampler and its threshold; the
/// queue, what is kept of events and texts, and how many faults there are; where spans go, how many
/// headers they have, and for how long they are waited for; and the known methods.
pub(crate) const PAIRS_SET: &str = concat!(
    "((true, [(\"service.name\", Text(\"shop\")), (\"host.name\", Text(\"a b\"))]), ",
    "(\"parentbased_traceidratio\", 54043195528445952), ",
    "((2048, 512, 0), (7, Some(9)), 2), ",
    "((\"collector\", 4319, \"/base/v1/traces\"), 2, 2500), \"GET, query,\")",
);

/// A general endpoint that can't be read leaves the default, to which no run sends.
#[test]
fn a_bad_endpoint_is_reported(rt: HostRuntime) {
    let pairs = [("OTEL_EXPORTER_OTLP_ENDPOINT", "collector:4318")];
    let settings = settings_of(rt.alloc(), &pairs).expect(&rt, "memory");
    assert!(rt; settings.faults.len() == 1);
    let text = "OTEL_EXPORTER_OTLP_ENDPOINT: \"collector:4318\" isn't a URL such as \
                http://collector:4318: http://localhost:4318/v1/traces is used instead";
    assert_displayed(&rt, rt.alloc(), &settings.faults[0], text);
}

#[test]
fn of_headers_no_value_is_shown(rt: HostRuntime) {
    let pairs = [
        ("OTEL_EXPORTER_OTLP_HEADERS", "a=s3cret"),
        ("OTEL_EXPORTER_OTLP_TRACES_HEADERS", "b=c,Host=s3cret"),
    ];
    let settings = settings_of(rt.alloc(), &pairs).expect(&rt, "memory");
    let text = shown(&rt, rt.alloc(), &settings);
    assert_equal(&rt, text.as_str().contains("HeaderFields"), true);
    assert_equal(&rt, text.as_str().contains("s3cret"), false);
}

#[test]
fn of_ten_thousand_equal_names_the_last_counts(rt: HostRuntime) {
    let mut pairs = Vec::new(rt.alloc());
    for _ in 0..10_000 {
        pairs.push(("OTEL_SERVICE_NAME", "a")).expect(&rt, "memory");
    }
    pairs.push(("OTEL_SERVICE_NAME", "b")).expect(&rt, "memory");
    let settings = settings_of(rt.alloc(), &pairs).expect(&rt, "memory");
    let resource = shown(&rt, rt.alloc(), &settings.resource);
    let want = "[(\"service.name\", Text(\"b\"))]";
    assert_equal(&rt, resource.as_str(), want);
}
