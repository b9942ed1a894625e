ghost use Rattle.std.specs.Prelude.{◌≡◌, Err, IfOk, None, Ok, Some, option_map};
ghost use Rattle.agg_values.specs.declared.request_error.RequestError.TheVariants.{OutOfMemory};
ghost use Rattle.agg_calendar.specs.Interval.{chosen, chosen_offset, division};
ghost use Rattle.agg_calendar.specs.Interval.{IsAtLeastOneMillisecond, with_offset};
ghost use Rattle.agg_calendar.specs.Refusal.{HasText, IsAnswer};
ghost use Rattle.agg_calendar.specs.Start.{IsUsable};

use crate::{parse_into_milliseconds, parse_offset_into_milliseconds};
use agg_values::{InvalidArgument, RequestError, Text};
use std::alloc::Global;

/// A unit of the calendar, whose buckets begin at midnight UTC.
#[derive(Clone, Copy, Debug, PartialEq, Eq)]
pub enum CalendarInterval {
    /// From 1 January.
    Year,
    /// From the first of a month.
    Month,
    /// From Monday.
    Week,
}

/// What the dates of a source are divided by.
#[derive(Clone, Copy, Debug)]
pub enum PrecomputedDateInterval {
    /// Each value is its own start.
    NotApplicable,
    /// Buckets of so many nanoseconds, one of which begins at 0.
    FixedNanoseconds(i64),
    /// Buckets of the calendar.
    Calendar(CalendarInterval),
}

impl PrecomputedDateInterval {
    /// The one interval that is set. A fixed one is read of its text, and is at least one
    /// millisecond. Memory is taken for the text of an error alone.
    pub fn from_date_histogram_source_intervals(
        alloc: Global,
        fixed_interval: Option<&Text>,
        calendar_interval: Option<CalendarInterval>,
    ) -> Result<PrecomputedDateInterval, RequestError>
        ensures value { IsAnswer
            (chosen (option_map (λ text. text.now) fixed_interval.entry) calendar_interval)
            result }
        ensures memory { result ≡ Err OutOfMemory
            → HasText
            (chosen (option_map (λ text. text.now) fixed_interval.entry) calendar_interval) }
        ensures least { IfOk result IsAtLeastOneMillisecond }
        ensures usable { IfOk result IsUsable }
    {
        match (fixed_interval, calendar_interval) {
            (Some(text), None) => fixed_interval_of(alloc, text),
            (None, Some(interval)) => Ok(PrecomputedDateInterval::Calendar(interval)),
            _ => Err(RequestError::Invalid(InvalidArgument::IntervalChoice)),
        }
    }
}

// The interval of a text, in nanoseconds.
#[tactic(auto, using(crate::proofs::Refusals::fixed_has_text))]
fn fixed_interval_of(alloc: Global, text: &Text) -> Result<PrecomputedDateInterval, RequestError>
    ensures value { IsAnswer (chosen (Some text.now) None) result }
    ensures memory { result ≡ Err OutOfMemory
        → HasText (chosen (Some text.now) None) }
    ensures least { IfOk result IsAtLeastOneMillisecond }
    ensures usable { IfOk result IsUsable }
{
    match parse_into_milliseconds(alloc, text) {
        Ok(0) => Err(RequestError::Invalid(InvalidArgument::BadInterval)),
        Ok(ms) => Ok(PrecomputedDateInterval::FixedNanoseconds(ms * 1_000_000)),
        Err(error) => Err(error),
    }
}

/// The one interval that is set, and by how many nanoseconds its buckets begin later: by those of
/// the offset's text, or by none. The first refusal is answered, that of the interval before that
/// of the offset. Memory is taken for the text of an error alone.
#[tactic(auto, using(crate::proofs::Refusals::interval_answer, crate::proofs::Refusals::interval_text))]
pub fn date_division(
    alloc: Global,
    fixed_interval: Option<&Text>,
    calendar_interval: Option<CalendarInterval>,
    offset: Option<&Text>,
) -> Result<(PrecomputedDateInterval, i64), RequestError>
    ensures value { IsAnswer
        (division (option_map (λ text. text.now) fixed_interval.entry) calendar_interval
        (option_map (λ text. text.now) offset.entry))
        result }
    ensures memory { result ≡ Err OutOfMemory
        → HasText
        (division (option_map (λ text. text.now) fixed_interval.entry) calendar_interval
        (option_map (λ text. text.now) offset.entry)) }
    ensures usable { IfOk result (λ division. IsUsable division.0) }
{
    match PrecomputedDateInterval::from_date_histogram_source_intervals(
        alloc,
        fixed_interval,
        calendar_interval,
    ) {
        Ok(interval) => with_offset(alloc, interval, offset),
        Err(error) => Err(error),
    }
}

// An interval with the nanoseconds of an offset text, 0 where there is none.
#[tactic(auto, using(crate::proofs::Refusals::offset_answer, crate::proofs::Refusals::offset_text))]
fn with_offset(
    alloc: Global,
    interval: PrecomputedDateInterval,
    offset: Option<&Text>,
) -> Result<(PrecomputedDateInterval, i64), RequestError>
    ensures value { IsAnswer
        (with_offset (Ok interval) (chosen_offset (option_map (λ text. text.now) offset.entry)))
        result }
    ensures memory { result ≡ Err OutOfMemory
        → HasText
        (with_offset (Ok interval) (chosen_offset (option_map (λ text. text.now) offset.entry))) }
    ensures interval { IfOk result (λ division. division.0 ≡ interval) }
{
    match offset_ns(alloc, offset) {
        Ok(offset_ns) => Ok((interval, offset_ns)),
        Err(error) => Err(error),
    }
}

// The nanoseconds of an offset text, 0 where there is none.
fn offset_ns(alloc: Global, offset: Option<&Text>) -> Result<i64, RequestError>
    ensures value { IsAnswer (chosen_offset (option_map (λ text. text.now) offset.entry)) result }
    ensures memory { result ≡ Err OutOfMemory
        → HasText (chosen_offset (option_map (λ text. text.now) offset.entry)) }
{
    match offset {
        Some(text) => offset_ns_of(alloc, text),
        None => Ok(0),
    }
}

// The nanoseconds of an offset text.
#[tactic(auto, using(crate::proofs::Refusals::offset_has_text))]
fn offset_ns_of(alloc: Global, text: &Text) -> Result<i64, RequestError>
    ensures value { IsAnswer (chosen_offset (Some text.now)) result }
    ensures memory { result ≡ Err OutOfMemory → HasText (chosen_offset (Some text.now)) }
{
    match parse_offset_into_milliseconds(alloc, text) {
        Ok(ms) => Ok(ms * 1_000_000),
        Err(error) => Err(error),
    }
}
