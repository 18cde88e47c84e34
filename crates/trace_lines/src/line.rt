//! What is known of a row before any is written.

ghost use Rattle.std.specs.Prelude.{◌≡◌, IfOk, take, map};
ghost use Rattle.trace_lines.specs.Lines.{line_for};
ghost use Rattle.trace_lines.specs.Plans.{AreGathered, values};

use crate::gathered::Gathered;
use crate::repeat::{Mark, mark_of};
use crate::service::colour_by;
use std::alloc::Allocator;
use std::sync::Arc;
use trace_store::{ViewSpan, service_of};
use trace_tree::Row;

/// A row, with what its span is among the others of its trace.
#[derive(Clone, Copy)]
pub struct Line {
    /// The row.
    pub row: Row,
    /// What is said of the identifier of its span.
    pub mark: Mark,
    /// The colour of its service, of eight.
    pub colour: u64,
}

/// The line of a row.
pub(crate) fn line_for<A: Allocator + Copy>(
    spans: &[Arc<ViewSpan<A>, A>],
    known: &Gathered<A>,
    row: Row,
) -> Line
    ensures { AreGathered (values spans.now) known.now → result ≡ line_for (values spans.now) row }
{
    match spans.get(row.index) {
        Some(span) => Line {
            row,
            mark: mark_of(&known.uses, &span.span.span_id, row.index),
            colour: colour_by(&known.services, service_of(span).as_bytes()),
        },
        None => Line {
            row,
            mark: Mark {
                is_first: false,
                is_repeated: false,
            },
            colour: 0,
        },
    }
}
