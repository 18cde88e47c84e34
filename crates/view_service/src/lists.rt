//! Traces, as a list has them.

use crate::Listed;
use std::alloc::{AllocError, Global};
use trace_lines::{Summary, summary_of_digest};
use trace_store::TraceDigest;

/// A summary of each trace, in order.
pub(crate) fn summaries_of(
    alloc: Global,
    traces: &[Listed<TraceDigest>],
) -> Result<Vec<Summary<'_>>, AllocError> {
    let mut summaries = Vec::new(alloc);
    for (trace, digest) in traces {
        if let Some(summary) = summary_of_digest(*trace, digest) {
            summaries.push(summary)?;
        }
    }
    Ok(summaries)
}
