//! Bytes of a request that were written out by hand (opentelemetry-proto, trace_service.proto,
//! trace.proto, resource.proto and common.proto; Protocol Buffers, "Encoding").

/// A request of a resource with two spans in a scope, and one of a resource of nothing.
///
/// The resource has a text, an array and a count of dropped attributes, the scope a name, a
/// version, a list of a double and bytes, and such a count; both have a schema URL. The first span
/// has its ids, its state, its parent, its name, its kind, when it began and ended, one attribute,
/// event and link each with how many more there were, its status, its flags, and a field that
/// nobody knows; its link has flags too. The second has a text, an array of five numbers, a list of
/// five pairs and bytes, and two events and two links, of each one of all fields.
pub(crate) const RICH: &[u8] = b"\x0a\xc1\x02\x0a\x21\
    \x0a\x08\x0a\x01k\x12\x03\x0a\x01x\
    \x0a\x13\x0a\x01l\x12\x0e\x2a\x0c\x0a\x02\x18\x01\x0a\x02\x10\x01\x0a\x02\x2a\x00\x10\x03\
    \x12\x98\x02\x0a\x2c\
    \x0a\x01s\x12\x01v\x1a\x22\x0a\x01m\x12\x1d\x32\x1b\
    \x0a\x0e\x0a\x01a\x12\x09\x21\x01\x00\x00\x00\x00\x00\x00\x00\
    \x0a\x09\x0a\x01b\x12\x04\x3a\x02\x01\xff\x20\x04\
    \x12\x61\x0a\x02ab\x12\x01c\x1a\x01s\x22\x01p\x2a\x01n\x30\x02\
    \x39\x01\x00\x00\x00\x00\x00\x00\x00\x41\x02\x00\x00\x00\x00\x00\x00\x00\
    \x4a\x07\x0a\x01k\x12\x02\x18\x05\x50\x03\
    \x5a\x0e\x09\x03\x00\x00\x00\x00\x00\x00\x00\x12\x01e\x20\x04\x60\x05\
    \x6a\x0c\x0a\x01t\x12\x00\x28\x06\x35\x01\x03\x00\x00\x70\x07\x7a\x05\x12\x01m\x18\x02\
    \x85\x01\x78\x56\x34\xf2\x98\x06\x01\
    \x12\x81\x01\x4a\x05\x12\x03\x0a\x01x\x4a\x18\x12\x16\x2a\x14\
    \x0a\x02\x18\x01\x0a\x02\x18\x02\x0a\x02\x18\x03\x0a\x02\x18\x04\x0a\x02\x18\x05\
    \x4a\x1d\x12\x1b\x32\x19\x0a\x03\x0a\x01a\x0a\x03\x0a\x01b\x0a\x03\x0a\x01c\
    \x0a\x03\x0a\x01d\x0a\x03\x0a\x01e\x4a\x05\x12\x03\x3a\x01y\
    \x5a\x17\x09\x03\x00\x00\x00\x00\x00\x00\x00\x12\x01e\
    \x1a\x07\x0a\x01k\x12\x02\x18\x05\x20\x01\x5a\x03\x12\x01f\
    \x6a\x15\x0a\x02ab\x12\x01c\x1a\x01s\
    \x22\x07\x0a\x01k\x12\x02\x18\x05\x28\x06\x6a\x03\x12\x01d\
    \x1a\x01u\x1a\x01t\x0a\x00";

/// How many spans are read of that, and what it is, as `Debug` shows it.
pub(crate) const RICH_TEXT: &str = "(2, Request { resource_spans: [ResourceSpans { \
    resource: Resource { attributes: [(\"k\", Text(\"x\")), \
    (\"l\", Array([Int(1), Bool(true), Array([])]))], dropped_attributes_count: 3 }, \
    scope_spans: [ScopeSpans { scope: InstrumentationScope { name: \"s\", version: \"v\", \
    attributes: [(\"m\", Pairs([(\"a\", Double(1)), (\"b\", Bytes([1, 255]))]))], \
    dropped_attributes_count: 4 }, spans: [Span { trace_id: [97, 98], span_id: [99], \
    trace_state: \"s\", parent_span_id: [112], name: \"n\", kind: 2, start_time_unix_nano: 1, \
    end_time_unix_nano: 2, attributes: [(\"k\", Int(5))], dropped_attributes_count: 3, \
    events: [Event { time_unix_nano: 3, name: \"e\", attributes: [], \
    dropped_attributes_count: 4 }], dropped_events_count: 5, links: [Link { trace_id: [116], \
    span_id: [], trace_state: \"\", attributes: [], dropped_attributes_count: 6, flags: 769 }], \
    dropped_links_count: 7, status: Status { message: \"m\", code: 2 }, flags: 4063516280 }, \
    Span { trace_id: [], \
    span_id: [], trace_state: \"\", parent_span_id: [], name: \"\", kind: 0, \
    start_time_unix_nano: 0, end_time_unix_nano: 0, attributes: [(\"\", Text(\"x\")), \
    (\"\", Array([Int(1), Int(2), Int(3), Int(4), Int(5)])), \
    (\"\", Pairs([(\"a\", Empty), (\"b\", Empty), (\"c\", Empty), (\"d\", Empty), \
    (\"e\", Empty)])), (\"\", Bytes([121]))], dropped_attributes_count: 0, \
    events: [Event { time_unix_nano: 3, name: \"e\", attributes: [(\"k\", Int(5))], \
    dropped_attributes_count: 1 }, Event { time_unix_nano: 0, name: \"f\", attributes: [], \
    dropped_attributes_count: 0 }], dropped_events_count: 0, links: [Link { \
    trace_id: [97, 98], span_id: [99], trace_state: \"s\", attributes: [(\"k\", Int(5))], \
    dropped_attributes_count: 6, flags: 0 }, Link { trace_id: [], span_id: [100], \
    trace_state: \"\", attributes: [], dropped_attributes_count: 0, flags: 0 }], \
    dropped_links_count: 0, status: Status { message: \"\", code: 0 }, flags: 0 }], \
    schema_url: \"u\" }], schema_url: \"t\" }, ResourceSpans { resource: Resource { \
    attributes: [], dropped_attributes_count: 0 }, scope_spans: [], schema_url: \"\" }] })";
