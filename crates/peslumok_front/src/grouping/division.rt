//! What the values of a source are divided by.
ghost use Rattle.std.specs.Prelude.{◌≡◌, IfOk, option_map};
ghost use Rattle.peslumok_texts.specs.decimals.Decimal.{decimal_of};
ghost use Rattle.peslumok_front.specs.grouping.Divisions.{date_interval, dates_division};
ghost use Rattle.peslumok_front.specs.grouping.Divisions.{decimal_division, division_asked};
ghost use Rattle.peslumok_front.specs.grouping.Divisions.{division_by, fixed_interval};
ghost use Rattle.peslumok_front.specs.grouping.Divisions.{number_division, offset_asked};
ghost use Rattle.peslumok_front.specs.grouping.Divisions.{offset_text, width_division};
ghost use Rattle.peslumok_front.specs.grouping.Divisions.{without_offset};
ghost use Rattle.peslumok_texts.specs.words.By.{parts};

use crate::grouping::by_fault::{ByFault, IntervalFault, OffsetFault};
use agg_calendar::{CalendarInterval, PrecomputedDateInterval, parse_offset_into_milliseconds};
use agg_values::{OutOfMemory, RequestError, Text};
use peslumok_texts::decimals::{Places, read_decimal};
use peslumok_texts::fields::FieldType;
use peslumok_texts::words::BySpec;
use std::alloc::Global;

/// What the values of a source are divided by.
#[derive(Drop)]
pub(crate) enum Division {
    /// Nothing: each value has a group.
    Values,
    /// Intervals of a width.
    Width(i64),
    /// Intervals of dates, each of which begins later by an offset.
    Dates(DateInterval, Option<Text>),
}

impl Division {
    /// The division that is asked for, for a field of that type.
    pub(crate) fn read(
        alloc: Global,
        by: &BySpec<'_>,
        of: FieldType,
    ) -> Result<Result<Division, ByFault>, OutOfMemory>
        ensures { IfOk result (λ read. read
            ≡ division_by of (parts by.now).interval (parts by.now).offset) }
    {
        match by.interval {
            Some(interval) => Division::of_type(alloc, interval, by.offset, of),
            None => Ok(Ok(Division::Values)),
        }
    }

    fn of_type(
        alloc: Global,
        interval: &str,
        offset: Option<&str>,
        of: FieldType,
    ) -> Result<Result<Division, ByFault>, OutOfMemory>
        ensures { IfOk result (λ read. read
            ≡ division_asked of interval.now (option_map (λ text. text.now) offset.entry)) }
    {
        match of {
            FieldType::Date | FieldType::DateNumber(_) => {
                Division::of_dates(alloc, interval, offset)
            }
            FieldType::Decimal(places) => Ok(without_offset(
                Division::of_decimals(interval, places),
                offset,
            )),
            FieldType::Plain => Ok(without_offset(Division::of_numbers(interval), offset)),
            FieldType::Text => Ok(Err(ByFault::Interval(IntervalFault::OfTexts))),
        }
    }

    fn of_dates(
        alloc: Global,
        interval: &str,
        offset: Option<&str>,
    ) -> Result<Result<Division, ByFault>, OutOfMemory>
        ensures { IfOk result (λ read. read ≡ dates_division (date_interval interval.now)
            (offset_asked (option_map (λ text. text.now) offset.entry))) }
    {
        let interval = match DateInterval::read(alloc, interval)? {
            Ok(interval) => interval,
            Err(why) => return Ok(Err(ByFault::Interval(why))),
        };
        match read_offset(alloc, offset)? {
            Ok(offset) => Ok(Ok(Division::Dates(interval, offset))),
            Err(why) => Ok(Err(ByFault::Offset(why))),
        }
    }

    fn of_numbers(interval: &str) -> Result<Division, IntervalFault>
        ensures { result ≡ number_division interval.now }
    {
        match interval.parse::<i64>() {
            Ok(width) => Division::of_width(width, IntervalFault::OfNumbers),
            Err(_) => Err(IntervalFault::OfNumbers),
        }
    }

    fn of_decimals(interval: &str, places: Places) -> Result<Division, IntervalFault>
        ensures { result ≡ decimal_division (decimal_of places interval.now) }
    {
        match read_decimal(interval, places) {
            Ok(width) => Division::of_width(width, IntervalFault::OfDecimals),
            Err(_) => Err(IntervalFault::OfDecimals),
        }
    }

    // The division by a width, which has to be above zero.
    fn of_width(width: i64, fault: IntervalFault) -> Result<Division, IntervalFault>
        ensures { result ≡ width_division fault width }
    {
        if width > 0 {
            Ok(Division::Width(width))
        } else {
            Err(fault)
        }
    }
}

/// What divides dates.
#[derive(Drop)]
pub(crate) enum DateInterval {
    Fixed(Text),
    Calendar(CalendarInterval),
}

impl DateInterval {
    // The interval that a text is.
    #[tactic(auto, using(peslumok_texts::proofs::lemmas::words::Words::other))]
    fn read(alloc: Global, text: &str) -> Result<Result<DateInterval, IntervalFault>, OutOfMemory>
        ensures { IfOk result (λ read. read ≡ date_interval text.now) }
    {
        match text {
            "year" => Ok(Ok(DateInterval::Calendar(CalendarInterval::Year))),
            "month" => Ok(Ok(DateInterval::Calendar(CalendarInterval::Month))),
            "week" => Ok(Ok(DateInterval::Calendar(CalendarInterval::Week))),
            _ => DateInterval::of_time(alloc, text),
        }
    }

    fn of_time(
        alloc: Global,
        text: &str,
    ) -> Result<Result<DateInterval, IntervalFault>, OutOfMemory>
        ensures { IfOk result (λ read. read ≡ fixed_interval text.now) }
    {
        let text = Text::copy_of(alloc, text)?;
        match PrecomputedDateInterval::from_date_histogram_source_intervals(
            alloc,
            Some(&text),
            None,
        ) {
            Ok(_) => Ok(Ok(DateInterval::Fixed(text))),
            Err(RequestError::OutOfMemory) => Err(OutOfMemory),
            Err(_) => Ok(Err(IntervalFault::OfDates)),
        }
    }
}

// The offset that is asked for, if there is one.
fn read_offset(
    alloc: Global,
    offset: Option<&str>,
) -> Result<Result<Option<Text>, OffsetFault>, OutOfMemory>
    ensures { IfOk result (λ read. read
        ≡ offset_asked (option_map (λ text. text.now) offset.entry)) }
{
    match offset {
        Some(text) => offset_of_text(alloc, text),
        None => Ok(Ok(None)),
    }
}

// The offset that a text is.
fn offset_of_text(
    alloc: Global,
    text: &str,
) -> Result<Result<Option<Text>, OffsetFault>, OutOfMemory>
    ensures { IfOk result (λ read. read ≡ offset_text text.now) }
{
    let text = Text::copy_of(alloc, text)?;
    match parse_offset_into_milliseconds(alloc, &text) {
        Ok(_) => Ok(Ok(Some(text))),
        Err(RequestError::OutOfMemory) => Err(OutOfMemory),
        Err(_) => Ok(Err(OffsetFault::NoTime)),
    }
}

// The division of numbers, which has no offset.
fn without_offset(
    division: Result<Division, IntervalFault>,
    offset: Option<&str>,
) -> Result<Division, ByFault>
    ensures { result ≡ without_offset division (option_map (λ text. text.now) offset.entry) }
{
    match (division, offset) {
        (Ok(division), None) => Ok(division),
        (Ok(_), Some(_)) => Err(ByFault::Offset(OffsetFault::NotOfDates)),
        (Err(why), _) => Err(ByFault::Interval(why)),
    }
}
