//! Where the bar of a span is.

ghost use Rattle.std.specs.Prelude.{◌≡◌, ◌-◌, ◌<◌, ◌≤◌, ◌^◌, max, min, fold};
ghost use Rattle.trace_tree.specs.Bars.{bar_of, column_of, earlier_start, end_of, later_end};
ghost use Rattle.trace_tree.specs.declared.span.TreeSpan.{TreeSpan};

use crate::span::TreeSpan;

/// The columns of a bar, from the first up to the end.
#[derive(Clone, Copy)]
pub(crate) struct Bar {
    pub(crate) first: usize,
    pub(crate) end: usize,
}

/// The earliest start of some spans, in nanoseconds since 1970.
pub(crate) fn earliest_start(spans: &[TreeSpan]) -> u64
    ensures { result ≡ fold earlier_start (2 ^ 64 - 1) spans.now }
{
    let mut earliest = u64::MAX;
    for span in spans {
        earliest = earliest.min(span.start_time_unix_nano);
    }
    earliest
}

/// The end of a span, or its start where that is later.
pub(crate) fn end_of(span: &TreeSpan) -> u64
    ensures { result ≡ end_of span.now }
{
    span.start_time_unix_nano.max(span.end_time_unix_nano)
}

/// The latest end of some spans, in nanoseconds since 1970.
pub(crate) fn latest_end(spans: &[TreeSpan]) -> u64
    ensures { result ≡ fold later_end 0 spans.now }
{
    let mut latest = 0;
    for span in spans {
        latest = latest.max(end_of(span));
    }
    latest
}

/// The column of a time in a trace, where the whole trace has this many columns.
fn column_of(width: usize, whole: u64, time: u64) -> u128
    ensures { result ≡ column_of width whole time }
{
    if whole == 0 {
        return 0;
    }
    u128::from(time) * width as u128 / u128::from(whole)
}

/// The bar of a span that starts and ends so long after the start of the whole trace.
#[tactic(auto, unfolding(crate::specs::Bars::bar_of))]
pub(crate) fn bar_of(width: usize, whole: u64, start: u64, end: u64) -> Bar
    requires { 0 < width }
    ensures value { result ≡ bar_of width whole start end }
    ensures some { result.first < result.end }
    ensures inside { result.end ≤ width }
{
    let first = column_of(width, whole, start).min(width as u128 - 1) as usize;
    let end = column_of(width, whole, end).min(width as u128) as usize;
    Bar {
        first,
        end: end.max(first + 1),
    }
}
