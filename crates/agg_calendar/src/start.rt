ghost use Rattle.std.specs.Prelude.{◌≡◌, ℤ, pos, ◌≤ℤ◌, neg_ℤ};
ghost use Rattle.std.specs.Int.{int_div_euclid};
ghost use Rattle.jiff_core.specs.Calendar.{IsBetween, IsEpochDay};
ghost use Rattle.jiff_core.specs.Date.{epoch_day};
ghost use Rattle.jiff_core.specs.DateTime.{IsCivilNanos};
ghost use Rattle.jiff_core.specs.Timestamp.{IsTimestampNanos};
ghost use Rattle.agg_calendar.specs.FirstDaySearch.{greatest_first_day};
ghost use Rattle.agg_calendar.specs.Start.{day_ns, fixed_start, calendar_start, start_of};
ghost use Rattle.agg_calendar.specs.Start.{GivesStart, IsCalendarStart, IsUsable};
ghost use Rattle.agg_calendar.specs.Start.{start_with_offset};
ghost use Rattle.agg_calendar.specs.declared.interval.CalendarInterval.TheVariants.{Year, Month};
ghost use Rattle.agg_calendar.specs.declared.interval.CalendarInterval.TheVariants.{Week};

use crate::{CalendarInterval, PrecomputedDateInterval, StartError};
use jiff_core::civil::Date;

const DAY_NS: i128 = 86_400_000_000_000;

/// The start of the year that holds the timestamp.
pub fn try_year_bucket(timestamp_ns: i64) -> Result<i64, StartError>
    ensures start { GivesStart (calendar_start Year timestamp_ns) result }
    ensures first { IsCalendarStart Year timestamp_ns (calendar_start Year timestamp_ns) }
{
    calendar_bucket(CalendarInterval::Year, timestamp_ns)
}

/// The start of the month that holds the timestamp.
pub fn try_month_bucket(timestamp_ns: i64) -> Result<i64, StartError>
    ensures start { GivesStart (calendar_start Month timestamp_ns) result }
    ensures first { IsCalendarStart Month timestamp_ns (calendar_start Month timestamp_ns) }
{
    calendar_bucket(CalendarInterval::Month, timestamp_ns)
}

/// The start of the week that holds the timestamp.
pub fn week_bucket(timestamp_ns: i64) -> Result<i64, StartError>
    ensures start { GivesStart (calendar_start Week timestamp_ns) result }
    ensures first { IsCalendarStart Week timestamp_ns (calendar_start Week timestamp_ns) }
{
    calendar_bucket(CalendarInterval::Week, timestamp_ns)
}

/// The greatest multiple of the interval that is at most the value.
pub fn fixed_bucket(value: i128, interval: i64) -> Result<i64, StartError>
    requires low { neg_ℤ (pos 9_223_372_036_854_775_808) ≤ℤ value }
    requires high { value ≤ℤ pos 18_446_744_073_709_551_615 }
    requires interval { pos 1 ≤ℤ interval }
    ensures { GivesStart (fixed_start interval value) result }
{
    in_range(multiple_below(value, i128::from(interval)))
}

impl PrecomputedDateInterval {
    /// The start of the bucket that holds the timestamp.
    pub fn start(&self, value_ns: i64) -> Result<i64, StartError>
        requires { IsUsable self.now }
        ensures { GivesStart (start_of self.now value_ns) result }
    {
        in_range(unbounded_start(*self, i128::from(value_ns)))
    }

    /// The start of the bucket that holds the timestamp, where every bucket begins later by the
    /// offset.
    pub fn start_with_offset(&self, value_ns: i64, offset_ns: i64) -> Result<i64, StartError>
        requires { IsUsable self.now }
        ensures { GivesStart (start_with_offset self.now offset_ns value_ns) result }
    {
        let moved = i128::from(value_ns) - i128::from(offset_ns);
        in_range(unbounded_start(*self, moved) + i128::from(offset_ns))
    }
}

// The calendar start of a timestamp.
fn calendar_bucket(interval: CalendarInterval, timestamp_ns: i64) -> Result<i64, StartError>
    ensures start { GivesStart (calendar_start interval timestamp_ns) result }
    ensures first { IsCalendarStart interval timestamp_ns (calendar_start interval timestamp_ns) }
{
    in_range(midnight(interval, i128::from(timestamp_ns)))
}

// A start, where it fits.
fn in_range(start: i128) -> Result<i64, StartError>
    ensures { GivesStart start result }
{
    i64::try_from(start).map_err(|_| StartError::BucketOutOfRange)
}

// The start of a timestamp, whether it fits or not.
fn unbounded_start(interval: PrecomputedDateInterval, ns: i128) -> i128
    requires usable { IsUsable interval }
    requires range { IsBetween
        (neg_ℤ (pos 18_446_744_073_709_551_616))
        (pos 18_446_744_073_709_551_616)
        ns }
    ensures value { result ≡ start_of interval ns }
    ensures bound { IsCivilNanos result }
{
    match interval {
        PrecomputedDateInterval::NotApplicable => ns,
        PrecomputedDateInterval::FixedNanoseconds(interval_ns) => {
            multiple_below(ns, i128::from(interval_ns))
        }
        PrecomputedDateInterval::Calendar(interval) => midnight(interval, ns),
    }
}

// The greatest multiple of the interval that is at most the value.
fn multiple_below(value: i128, interval: i128) -> i128
    requires range { IsBetween
        (neg_ℤ (pos 18_446_744_073_709_551_616))
        (pos 18_446_744_073_709_551_616)
        value }
    requires interval { IsBetween (pos 1) (pos 9_223_372_036_854_775_807) interval }
    ensures value { result ≡ fixed_start interval value }
    ensures bound { IsCivilNanos result }
{
    interval * value.div_euclid(interval)
}

// Midnight of the first day.
#[tactic(auto, using(crate::proofs::GreatestDays::calendar_is))]
fn midnight(interval: CalendarInterval, ns: i128) -> i128
    requires { IsTimestampNanos ns }
    ensures value { result ≡ calendar_start interval ns }
    ensures bound { IsCivilNanos result }
    ensures first { IsCalendarStart interval ns (calendar_start interval ns) }
{
    first_day(interval, ns) * DAY_NS
}

// The number of the greatest first day that is at most the day of the timestamp.
#[tactic(auto, using(crate::proofs::GreatestDays::first_day_range))]
fn first_day(interval: CalendarInterval, ns: i128) -> i128
    requires { IsTimestampNanos ns }
    ensures value { result ≡ greatest_first_day interval (int_div_euclid ns day_ns) }
    ensures bound { IsEpochDay result }
{
    match interval {
        CalendarInterval::Year => year_day(ns),
        CalendarInterval::Month => month_day(ns),
        CalendarInterval::Week => week_day(ns),
    }
}

// The date of a timestamp.
fn date_at(ns: i128) -> Date
    requires { IsTimestampNanos ns }
    ensures { epoch_day result ≡ int_div_euclid ns day_ns }
{
    Date::from_unix_epoch_day(ns.div_euclid(DAY_NS) as i64).unwrap()
}

// The number of 1 January of its year.
fn year_day(ns: i128) -> i128
    requires { IsTimestampNanos ns }
    ensures { result ≡ greatest_first_day Year (int_div_euclid ns day_ns) }
{
    ns.div_euclid(DAY_NS) + 1 - i128::from(date_at(ns).day_of_year())
}

// The number of the first of its month.
fn month_day(ns: i128) -> i128
    requires { IsTimestampNanos ns }
    ensures { result ≡ greatest_first_day Month (int_div_euclid ns day_ns) }
{
    ns.div_euclid(DAY_NS) + 1 - i128::from(date_at(ns).day)
}

// The number of the Monday of its week.
fn week_day(ns: i128) -> i128
    requires { IsTimestampNanos ns }
    ensures { result ≡ greatest_first_day Week (int_div_euclid ns day_ns) }
{
    let day = ns.div_euclid(DAY_NS);
    day - (day + 3).rem_euclid(7)
}
