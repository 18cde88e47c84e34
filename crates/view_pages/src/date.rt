//! Dates and times of day, in UTC.

ghost use Rattle.std.specs.Prelude.{◌<◌, ◌^◌, OnOk};
ghost use Rattle.view_pages.specs.Dates.{date_html, day_html, fraction_html, hour_html};
ghost use Rattle.view_pages.specs.Dates.{moment_html, second_html, three_html, two_html};
ghost use Rattle.view_pages.specs.Html.{Appends};

use crate::html::{push_markup, push_number};
use otlp_ids::OutOfMemory;
use std::alloc::Allocator;
use trace_lines::{MonthDay, YearDay, month_of, year_of};

/// Appends two digits.
#[tactic(auto, unfolding(crate::specs::Html::html_bytes, crate::specs::Dates::two_html))]
fn push_two<A: Allocator>(out: &mut String<A>, number: u64) -> Result<(), OutOfMemory>
    ensures { OnOk result (Appends out.old out.new (two_html number)) }
{
    push_number(out, number / 10)?;
    push_number(out, number % 10)
}

/// Appends three digits.
#[tactic(auto, unfolding(crate::specs::Html::html_bytes, crate::specs::Dates::three_html))]
pub(crate) fn push_three<A: Allocator>(out: &mut String<A>, number: u64) -> Result<(), OutOfMemory>
    ensures { OnOk result (Appends out.old out.new (three_html number)) }
{
    push_number(out, number / 100)?;
    push_two(out, number % 100)
}

/// Appends the date of a day.
fn push_date<A: Allocator>(
    out: &mut String<A>,
    year: YearDay,
    month: MonthDay,
) -> Result<(), OutOfMemory>
    requires { month.day < 2 ^ 63 }
    ensures { OnOk result (Appends out.old out.new (date_html year month)) }
{
    push_number(out, year.year)?;
    push_markup(out, "-")?;
    push_two(out, month.month)?;
    push_markup(out, "-")?;
    push_two(out, month.day + 1)
}

/// Appends the date of the day that is so many days after 1 January 1970.
fn push_day<A: Allocator>(out: &mut String<A>, days: u64) -> Result<(), OutOfMemory>
    requires { days < 2 ^ 63 }
    ensures { OnOk result (Appends out.old out.new (day_html days)) }
{
    let year = year_of(days);
    push_date(out, year, month_of(year))
}

/// Appends the hour, the minute and the second.
fn push_hour<A: Allocator>(out: &mut String<A>, seconds: u64) -> Result<(), OutOfMemory>
    ensures { OnOk result (Appends out.old out.new (hour_html seconds)) }
{
    push_two(out, seconds / 3600 % 24)?;
    push_markup(out, ":")?;
    push_two(out, seconds / 60 % 60)?;
    push_markup(out, ":")?;
    push_two(out, seconds % 60)
}

/// Appends nine digits of a second.
fn push_fraction<A: Allocator>(out: &mut String<A>, nanos: u64) -> Result<(), OutOfMemory>
    ensures { OnOk result (Appends out.old out.new (fraction_html nanos)) }
{
    push_three(out, nanos / 1_000_000)?;
    push_three(out, nanos / 1_000 % 1_000)?;
    push_three(out, nanos % 1_000)
}

/// Appends a date and a time to the second, of nanoseconds since 1970.
pub(crate) fn push_second<A: Allocator>(out: &mut String<A>, nanos: u64) -> Result<(), OutOfMemory>
    ensures { OnOk result (Appends out.old out.new (second_html nanos)) }
{
    let seconds = nanos / 1_000_000_000;
    push_day(out, seconds / 86_400)?;
    push_markup(out, " ")?;
    push_hour(out, seconds)
}

/// Appends a date and a time, of nanoseconds since 1970 (RFC 3339, section 5.6).
pub(crate) fn push_moment<A: Allocator>(out: &mut String<A>, nanos: u64) -> Result<(), OutOfMemory>
    ensures { OnOk result (Appends out.old out.new (moment_html nanos)) }
{
    let seconds = nanos / 1_000_000_000;
    push_day(out, seconds / 86_400)?;
    push_markup(out, "T")?;
    push_hour(out, seconds)?;
    push_markup(out, ".")?;
    push_fraction(out, nanos % 1_000_000_000)?;
    push_markup(out, "Z")
}
