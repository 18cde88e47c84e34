//! What is counted, as it is written.

use crate::metrics::Answered;
use crate::{Counts, Tallies};
use http::StatusCode;
use std::alloc::{AllocError, Global};
use view_json::Stats;

/// What is counted of spans.
pub(crate) fn stats_of(spans: &Counts) -> Stats {
    Stats {
        received: spans.received,
        kept: spans.received.saturating_sub(spans.evicted),
        evicted: spans.evicted,
        traces: spans.traces,
        evicted_traces: spans.evicted_traces,
        pending_bytes: None,
    }
}

/// How many answers there were with each status that was answered, by the status.
pub(crate) fn answered_of(alloc: Global, tallies: &Tallies) -> Result<Vec<Answered>, AllocError> {
    let mut answered = Vec::new(alloc);
    for code in 100..1_000u16 {
        let Ok(status) = StatusCode::from_u16(code) else {
            continue;
        };
        let answers = tallies.answers(status);
        if answers > 0 {
            answered.push(Answered {
                status: code,
                answers,
            })?;
        }
    }
    Ok(answered)
}
