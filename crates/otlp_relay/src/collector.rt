//! The exporter over which batches go to the collector.

use http_exporter::{HttpExporter, KeptExporter, TcpDial};
use otlp_http::Target;
use relay_exporter::OutageExporter;
use std::alloc::Global;
use std::net::Net;
use std::time::Clock;

/// An exporter that keeps its connection, and takes a collector that refuses all for one that is out.
pub(crate) type Collector<R> = OutageExporter<KeptExporter<TcpDial<R>>, R>;

/// An exporter to this target, without a connection yet. An attempt takes `timeout_ms` milliseconds
/// at most. After so many requests in a row that the collector refused whatever they had bodies are
/// lost by that, if there is such a number.
pub(crate) fn collector<R>(
    rt: R,
    alloc: Global,
    target: Target,
    timeout_ms: u64,
    refused_after: Option<u64>,
) -> Collector<R>
where
    R: Net + Clock + Copy,
{
    // (no time at all is no time to attempt in; the command line takes 1 ms at least)
    let exporter = KeptExporter::new(HttpExporter::new(alloc, rt, target, timeout_ms.max(1)));
    OutageExporter::new(rt, exporter, refused_after)
}
