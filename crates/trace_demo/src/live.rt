//! Live counts: what becomes of the spans while threads end them.

use batch_desk::Totals;
use http_exporter::FailureWatch;
use std::io::{self, Eprint};
use std::sync::Wait;

/// Writes the counts over the line that the terminal has, and what the exporter met last.
pub(crate) fn write_counts<R: Eprint + Wait>(
    rt: &R,
    totals: Totals,
    watch: &FailureWatch,
) -> io::Result<()> {
    let Totals {
        left,
        handed,
        lost,
        ..
    } = totals;
    let full = totals.dropped.queue_full;
    eprint!(rt; "\r\x1b[Kwaiting {left}, handed {handed}, lost {lost}, no room {full}")?;
    match watch.last(rt) {
        Some(failure) => eprint!(rt; "; last failure: {failure}"),
        None => Ok(()),
    }
}
