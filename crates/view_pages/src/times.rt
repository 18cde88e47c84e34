//! How long something took, in words.

ghost use Rattle.std.specs.Prelude.{◌≤◌, OnOk};
ghost use Rattle.view_pages.specs.Html.{Appends};
ghost use Rattle.view_pages.specs.Times.{duration, scaled};

use crate::html::{push_markup, push_number};
use otlp_ids::OutOfMemory;
use std::alloc::Allocator;

/// Appends a time in a unit of so many nanoseconds.
fn push_scaled<A: Allocator>(
    out: &mut String<A>,
    nanos: u64,
    unit: u64,
    name: &str,
) -> Result<(), OutOfMemory>
    requires { 100 ≤ unit }
    ensures { OnOk result (Appends out.old out.new (scaled nanos unit name.now)) }
{
    let whole = nanos / unit;
    let tenth = nanos % unit / (unit / 10);
    let hundredth = nanos % unit / (unit / 100) % 10;
    push_number(out, whole)?;
    push_markup(out, ".")?;
    push_number(out, tenth)?;
    push_number(out, hundredth)?;
    push_markup(out, name)
}

/// Appends how long something took, in nanoseconds, or with two digits after the point in
/// microseconds, milliseconds or seconds.
#[tactic(auto, unfolding(crate::specs::Html::html_bytes, crate::specs::Times::duration))]
pub(crate) fn push_duration<A: Allocator>(
    out: &mut String<A>,
    nanos: u64,
) -> Result<(), OutOfMemory>
    ensures { OnOk result (Appends out.old out.new (duration nanos)) }
{
    if nanos < 1_000 {
        push_number(out, nanos)?;
        push_markup(out, " ns")
    } else if nanos < 1_000_000 {
        push_scaled(out, nanos, 1_000, " us")
    } else if nanos < 1_000_000_000 {
        push_scaled(out, nanos, 1_000_000, " ms")
    } else {
        push_scaled(out, nanos, 1_000_000_000, " s")
    }
}
