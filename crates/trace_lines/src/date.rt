//! Days of years and of months.

ghost use Rattle.std.specs.Prelude.{◌≡◌, ◌≤◌};
ghost use Rattle.trace_lines.specs.Dates as spec;

/// A day of a year.
#[derive(Clone, Copy)]
pub struct YearDay {
    /// The year.
    pub year: u64,
    /// How many of its days are before this one.
    pub day: u64,
}

/// A day of a month.
#[derive(Clone, Copy)]
pub struct MonthDay {
    /// The month, counted from 1.
    pub month: u64,
    /// How many of its days are before this one.
    pub day: u64,
}

/// Whether a year has a 29 February (RFC 3339, appendix C).
fn is_leap_year(year: u64) -> bool
    ensures { result ≡ spec.is_leap_year year }
{
    year % 4 == 0 && (year % 100 != 0 || year % 400 == 0)
}

/// How many days a year has.
fn days_in_year(year: u64) -> u64
    ensures { result ≡ spec.days_in_year year }
{
    if is_leap_year(year) { 366 } else { 365 }
}

/// How many days a month of a year has.
fn days_in_month(year: u64, month: u64) -> u64
    ensures { result ≡ spec.days_in_month year month }
{
    if month == 2 {
        if is_leap_year(year) { 29 } else { 28 }
    } else if month == 4 || month == 6 || month == 9 || month == 11 {
        30
    } else {
        31
    }
}

/// The year of the day that is so many days after 1 January 1970, before the year 2570 (RFC 3339,
/// appendix C).
pub fn year_of(days: u64) -> YearDay
    ensures value { result ≡ spec.year_of days }
    ensures within { result.day ≤ days }
{
    let mut year = 1970;
    let mut day = days;
    for _ in 0..600u64 {
        let length = days_in_year(year);
        if day < length {
            return YearDay { year, day };
        }
        day -= length;
        year += 1;
    }
    YearDay { year, day }
}

/// The month of a day of a year.
pub fn month_of(date: YearDay) -> MonthDay
    ensures value { result ≡ spec.month_of date }
    ensures within { result.day ≤ date.day }
{
    let mut month = 1;
    let mut day = date.day;
    for _ in 0..11u64 {
        let length = days_in_month(date.year, month);
        if day < length {
            return MonthDay { month, day };
        }
        day -= length;
        month += 1;
    }
    MonthDay { month, day }
}
