//! When spans ran.

ghost use Rattle.std.specs.Prelude.{◌≡◌, ◌-◌, ◌^◌, ◌≤◌};
ghost use Rattle.trace_lines.specs.Times as spec;

use otlp_read::Span;
use std::alloc::Allocator;
use trace_store::end_of;
use trace_tree::Frame;

/// Whether a span ends before it starts.
pub fn ends_early<A: Allocator>(span: &Span<A>) -> bool
    ensures { result ≡ spec.ends_early span.now }
{
    span.end_time_unix_nano < span.start_time_unix_nano
}

/// How long a span took, in nanoseconds: 0 where it ends before it starts.
pub fn time_of<A: Allocator>(span: &Span<A>) -> u64
    ensures { result ≡ spec.time_of span.now }
{
    span.end_time_unix_nano
        .saturating_sub(span.start_time_unix_nano)
}

/// The time that no span takes.
pub(crate) fn no_time() -> Frame
    ensures { result ≡ spec.no_time }
{
    Frame {
        from: u64::MAX,
        until: 0,
    }
}

/// The time from the earliest start to the latest end, with one more span.
pub(crate) fn frame_with<A: Allocator>(frame: Frame, span: &Span<A>) -> Frame
    ensures { result ≡ spec.frame_with frame span.now }
{
    Frame {
        from: frame.from.min(span.start_time_unix_nano),
        until: frame.until.max(end_of(span)),
    }
}

/// How long after the start of the trace a time is, in ten thousandths of the time that it takes:
/// 0 where it is before, and 10,000 where it is after the end.
#[tactic(auto, unfolding(crate::specs::Times::share_of))]
pub fn share_of(frame: Frame, time: u64) -> u64
    ensures value { result ≡ spec.share_of frame time }
    ensures bound { result ≤ 10000 }
{
    let whole = frame.until.saturating_sub(frame.from);
    if whole == 0 {
        return 0;
    }
    let share = u128::from(time.saturating_sub(frame.from)) * 10_000 / u128::from(whole);
    share.min(10_000) as u64
}

/// How wide the bar of a span is, in ten thousandths of the time of its trace.
pub fn width_of<A: Allocator>(span: &Span<A>, frame: Frame) -> u64
    ensures { result ≡ spec.width_of span.now frame }
{
    let start = share_of(frame, span.start_time_unix_nano);
    share_of(frame, end_of(span)).saturating_sub(start)
}
