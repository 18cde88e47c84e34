//! Batches over HTTP (OTLP Specification, "OTLP/HTTP"; RFC 9110, RFC 9112): the [`HttpExporter`],
//! which posts each body to a [`Target`] over TCP, and [`LinkExporter`], which does the same over
//! any [`Dial`], perhaps with a [`Deadline`]; a [`KeptExporter`] keeps their connection for the
//! next body, and a [`CompressedExporter`] sends bodies in gzip by any of them. The [`Failure`] that
//! each keeps a [`FailureWatch`] shows while a [`WatchedExporter`] works. [`HeaderFields`] are
//! fields of a program's own that each request to a target has. Below them are the requests and
//! replies, [`write_request`], [`read_reply`], and [`outcome_of`] for what a reply means.
pub use http_exporter::{
    Buffered, CodesBodies, CompressedExporter, Countdown, DEFAULT_EXPORT_TIMEOUT_MS, Deadline,
    Dial, Failure, FailureWatch, HttpExporter, IdleStream, KeptExporter, KeptLink, LinkExporter,
    MESSAGE_ROOM, Message, Monotonic, ReportsFailure, RuntimeClock, Socket, TcpDial, TimedStream,
    WatchedExporter,
};
pub use http_wire::{
    Counted, DeviceFailed, FailingCalls, FailingWire, FaultRead, FaultWrite, HeadLimits, HttpFault,
    MOST_FIELDS, Stopped,
};
pub use otlp_http::{
    Coding, Connection, DEFAULT_PATH, DEFAULT_PORT, HeaderFault, HeaderFields, LastingReply,
    MOST_HEADER_BYTES, Reply, Target, TargetFault, outcome_of, read_lasting_reply, read_reply,
    write_request, write_request_for, write_request_in,
};
