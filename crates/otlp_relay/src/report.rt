//! The lines on refused requests.

use http::StatusCode;
use http_listener::{Complaints, Line};
use relay_service::{Denial, Strays, Tallies};
use std::io::Write;

/// What a client or a user can do about a refusal. (profile)
fn advice(status: u16) -> &'static str {
    match status {
        400 => {
            "the request or its body can't be read, or has identifiers of other lengths than 16 and \
            8 bytes: the answer says which"
        }
        403 => "allow the name under which it was asked by --host NAME, or --host NAME:PORT",
        404 => "post traces to /v1/traces; nothing is at the path",
        405 => "post to /v1/traces, and get the other paths",
        413 => "let the exporter send smaller batches, or raise --max-body or --pending-mb",
        414 => "ask for a shorter target",
        415 => {
            "set the exporter's protocol to http/protobuf or http/json, its compression to gzip \
            or none"
        }
        431 => "send fewer or shorter fields",
        501 => "send the body as it is, or in chunks",
        503 => {
            "the collector takes less than comes; raise --memory-mb, --spool-mb or --pending-mb, \
            and see that the disk has room"
        }
        505 => "gRPC isn't taken: set OTEL_EXPORTER_OTLP_PROTOCOL=http/protobuf",
        _ => "the answer says why",
    }
}

/// Writes a line. One that can't be written is lost.
fn write_line<F: Write>(faults: &mut F, status: u16, line: Line) {
    let advice = advice(status);
    let _ = match line {
        Line::First => writeln!(faults, "otlp-relay: answered {status} ({advice})"),
        Line::Since(count) => {
            writeln!(
                faults,
                "otlp-relay: answered {status} ({advice}); {count} since the last line"
            )
        }
    };
}

/// Writes the lines that are due at this moment, in milliseconds: one on the first answer with each
/// status of a refusal, 400 to 599, and later at most one a minute, with the count.
pub(crate) fn report<F: Write>(
    complaints: &mut Complaints,
    tallies: &Tallies,
    faults: &mut F,
    now_ms: u64,
) {
    for code in 400..600u16 {
        let Ok(status) = StatusCode::from_u16(code) else {
            continue;
        };
        let count = tallies.answers(status);
        if count == 0 {
            continue;
        }
        // Where memory is refused the line comes later.
        if let Ok(Some(line)) = complaints.line(code, count, now_ms) {
            write_line(faults, code, line);
        }
    }
}

/// Writes a line on another signal that was posted to this path.
fn write_stray<F: Write>(faults: &mut F, path: &str, denial: Denial) {
    let why = denial.message();
    let _ = writeln!(faults, "otlp-relay: refused a post to {path} ({why})");
}

/// Writes the lines on signals beside traces that were posted: one on each, once.
pub(crate) fn report_strays<F: Write>(told: &mut Strays, strays: Strays, faults: &mut F) {
    if strays.metrics && !told.metrics {
        write_stray(faults, "/v1/metrics", Denial::NoMetrics);
    }
    if strays.logs && !told.logs {
        write_stray(faults, "/v1/logs", Denial::NoLogs);
    }
    *told = strays;
}
